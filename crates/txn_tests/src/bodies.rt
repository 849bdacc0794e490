//! Statements and conditions at their limits, made from what is said of them.

use crate::parts::X;
use std::alloc::{AllocError, Global};
use txn::{Cond, Expr, ParamId, Span, Stmt, VarId};

/// What is read of a table.
#[derive(Clone, Copy)]
pub(crate) enum Read {
    First,
    Sum,
    Min,
    Max,
}

/// What a transaction does.
#[derive(Clone, Copy)]
pub(crate) enum Body {
    Skips,
    /// Sets x, which is no variable.
    Sets,
    /// Sequences of one statement, so deep.
    Deep(u8),
    /// Throws what it reads of the table.
    Throws(Read, Span),
    /// Puts 7 into the first cell of the table.
    Puts(Span),
}

/// What has to hold of x, which is 5 at first.
#[derive(Clone, Copy)]
pub(crate) enum Holds {
    /// That x is this.
    Is(i64),
    /// That the second variable is 5.
    Unknown,
    /// That the first parameter is 5.
    Param,
    /// That one over nothing is 0: it divides by zero.
    Faulty,
    /// A condition that is true, as deep as this, of which each but the innermost is a `not`.
    Deep(u8),
    /// That what is read of the table is 0.
    Reads(Read, Span),
}

fn deep(alloc: Global, depth: u8) -> Result<Stmt, AllocError> {
    let mut body = Stmt::Skip;
    for _level in 1..depth {
        let mut parts = Vec::new(alloc);
        parts.push(body)?;
        body = Stmt::Seq(parts);
    }
    Ok(body)
}

fn read_of(alloc: Global, what: Read, table: Span) -> Result<Expr, AllocError> {
    match what {
        Read::First => Ok(Expr::At(table, Box::new(alloc, Expr::Int(0))?)),
        Read::Sum => Ok(Expr::Sum(table)),
        Read::Min => Ok(Expr::Min(table)),
        Read::Max => Ok(Expr::Max(table)),
    }
}

/// The statement.
pub(crate) fn statement(alloc: Global, body: Body) -> Result<Stmt, AllocError> {
    match body {
        Body::Skips => Ok(Stmt::Skip),
        Body::Sets => Ok(Stmt::Set(X, Expr::Int(1))),
        Body::Deep(depth) => deep(alloc, depth),
        Body::Throws(what, table) => Ok(Stmt::Throw(read_of(alloc, what, table)?)),
        Body::Puts(table) => Ok(Stmt::Put(table, Expr::Int(0), Expr::Int(7))),
    }
}

fn is(n: i64) -> Cond {
    Cond::Eq(Expr::Var(X), Expr::Int(n))
}

/// One over nothing.
fn one_over_nothing(alloc: Global) -> Result<Expr, AllocError> {
    let one = Box::new(alloc, Expr::Int(1))?;
    let nothing = Box::new(alloc, Expr::Int(0))?;
    Ok(Expr::Div(one, nothing))
}

fn faulty(alloc: Global) -> Result<Cond, AllocError> {
    Ok(Cond::Eq(one_over_nothing(alloc)?, Expr::Int(0)))
}

fn denials(alloc: Global, depth: u8) -> Result<Cond, AllocError> {
    let mut holds = is(if depth % 2 == 1 { 5 } else { 6 });
    for _level in 1..depth {
        holds = Cond::Not(Box::new(alloc, holds)?);
    }
    Ok(holds)
}

/// The condition.
pub(crate) fn condition(alloc: Global, holds: Holds) -> Result<Cond, AllocError> {
    match holds {
        Holds::Is(n) => Ok(is(n)),
        Holds::Unknown => Ok(Cond::Eq(Expr::Var(VarId(1)), Expr::Int(5))),
        Holds::Param => Ok(Cond::Eq(Expr::Param(ParamId(0)), Expr::Int(5))),
        Holds::Faulty => faulty(alloc),
        Holds::Deep(depth) => denials(alloc, depth),
        Holds::Reads(what, table) => Ok(Cond::Eq(read_of(alloc, what, table)?, Expr::Int(0))),
    }
}
