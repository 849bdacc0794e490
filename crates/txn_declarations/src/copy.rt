//! Copies of what a catalogue declares: each says what its original says.

ghost use Rattle.std.specs.Prelude.{◌≡◌, ◌++◌, IfOk, flat_map, length, map, string_bytes, sum_by};
ghost use Rattle.txn_programs.specs.Listing.{table_of, values_of};
ghost use Rattle.txn_programs.specs.Tree.{If, expression_of, condition_of, statement_of, transaction_of};
ghost use Rattle.txn_declarations.specs.Conditions.{standing_of};
ghost use Rattle.txn_declarations.specs.Counted.{counted};

use std::alloc::{AllocError, Global};
use txn_programs::{Call, Cells, Cond, Expr, Stmt, Table, Tx};

#[cycle(expressions)]
fn expression(alloc: Global, e: &Expr) -> Result<Expr, AllocError>
    ensures { IfOk result (λ c. expression_of c ≡ expression_of e.now) }
{
    match e {
        Expr::Int(n) => Ok(Expr::Int(*n)),
        Expr::Var(x) => Ok(Expr::Var(*x)),
        Expr::Param(p) => Ok(Expr::Param(*p)),
        Expr::At(table, a) => Ok(Expr::At(*table, boxed_expression(alloc, a)?)),
        Expr::Sum(table) => Ok(Expr::Sum(*table)),
        Expr::Min(table) => Ok(Expr::Min(*table)),
        Expr::Max(table) => Ok(Expr::Max(*table)),
        Expr::Add(a, b) => {
            let first = boxed_expression(alloc, a)?;
            let (first, second) = beside_expression(alloc, b, first)?;
            Ok(Expr::Add(first, second))
        }
        Expr::Sub(a, b) => {
            let first = boxed_expression(alloc, a)?;
            let (first, second) = beside_expression(alloc, b, first)?;
            Ok(Expr::Sub(first, second))
        }
        Expr::Mul(a, b) => {
            let first = boxed_expression(alloc, a)?;
            let (first, second) = beside_expression(alloc, b, first)?;
            Ok(Expr::Mul(first, second))
        }
        Expr::Div(a, b) => {
            let first = boxed_expression(alloc, a)?;
            let (first, second) = beside_expression(alloc, b, first)?;
            Ok(Expr::Div(first, second))
        }
        Expr::Rem(a, b) => {
            let first = boxed_expression(alloc, a)?;
            let (first, second) = beside_expression(alloc, b, first)?;
            Ok(Expr::Rem(first, second))
        }
    }
}

/// The box, and beside it a copy of an expression.
#[cycle(expressions)]
fn beside_expression(
    alloc: Global,
    e: &Expr,
    first: Box<Expr>,
) -> Result<(Box<Expr>, Box<Expr>), AllocError>
    ensures { IfOk result
        (λ p. (expression_of p.0.value ≡ expression_of first.value) × (expression_of p.1.value ≡ expression_of e.now)) }
{
    let second = boxed_expression(alloc, e)?;
    Ok((first, second))
}

#[cycle(expressions)]
fn boxed_expression(alloc: Global, e: &Expr) -> Result<Box<Expr>, AllocError>
    ensures { IfOk result (λ c. expression_of c.value ≡ expression_of e.now) }
{
    let copy = expression(alloc, e)?;
    Ok(Box::new(alloc, copy)?)
}

/// Copies of both operands.
fn expressions(alloc: Global, a: &Expr, b: &Expr) -> Result<(Expr, Expr), AllocError>
    ensures { IfOk result (λ p. (expression_of p.0 ≡ expression_of a.now) × (expression_of p.1 ≡ expression_of b.now)) }
{
    let first = expression(alloc, a)?;
    match expression(alloc, b) {
        Ok(second) => Ok((first, second)),
        Err(short) => {
            drop(first);
            Err(short)
        }
    }
}

#[cycle(conditions)]
fn condition(alloc: Global, c: &Cond) -> Result<Cond, AllocError>
    ensures { IfOk result (λ d. condition_of d ≡ condition_of c.now) }
{
    match c {
        Cond::Eq(a, b) => {
            let (a, b) = expressions(alloc, a, b)?;
            Ok(Cond::Eq(a, b))
        }
        Cond::Lt(a, b) => {
            let (a, b) = expressions(alloc, a, b)?;
            Ok(Cond::Lt(a, b))
        }
        Cond::Le(a, b) => {
            let (a, b) = expressions(alloc, a, b)?;
            Ok(Cond::Le(a, b))
        }
        Cond::Not(a) => Ok(Cond::Not(boxed_condition(alloc, a)?)),
        Cond::And(a, b) => {
            let first = boxed_condition(alloc, a)?;
            let (first, second) = beside_condition(alloc, b, first)?;
            Ok(Cond::And(first, second))
        }
        Cond::Or(a, b) => {
            let first = boxed_condition(alloc, a)?;
            let (first, second) = beside_condition(alloc, b, first)?;
            Ok(Cond::Or(first, second))
        }
    }
}

/// The box, and beside it a copy of a condition.
#[cycle(conditions)]
fn beside_condition(
    alloc: Global,
    c: &Cond,
    first: Box<Cond>,
) -> Result<(Box<Cond>, Box<Cond>), AllocError>
    ensures { IfOk result
        (λ p. (condition_of p.0.value ≡ condition_of first.value) × (condition_of p.1.value ≡ condition_of c.now)) }
{
    let second = boxed_condition(alloc, c)?;
    Ok((first, second))
}

#[cycle(conditions)]
fn boxed_condition(alloc: Global, c: &Cond) -> Result<Box<Cond>, AllocError>
    ensures { IfOk result (λ d. condition_of d.value ≡ condition_of c.now) }
{
    let copy = condition(alloc, c)?;
    Ok(Box::new(alloc, copy)?)
}

#[cycle(statements)]
fn statement(alloc: Global, s: &Stmt) -> Result<Stmt, AllocError>
    ensures { IfOk result (λ t. statement_of t ≡ statement_of s.now) }
{
    match s {
        Stmt::Skip => Ok(Stmt::Skip),
        Stmt::Retry => Ok(Stmt::Retry),
        Stmt::Set(x, e) => Ok(Stmt::Set(*x, expression(alloc, e)?)),
        Stmt::Put(table, a, b) => {
            let (a, b) = expressions(alloc, a, b)?;
            Ok(Stmt::Put(*table, a, b))
        }
        Stmt::Seq(parts) => Ok(Stmt::Seq(statements(alloc, parts.as_slice())?)),
        Stmt::If(c, a, b) => {
            let first = boxed_statement(alloc, a)?;
            let (first, second) = beside(alloc, b, first)?;
            tested(alloc, c, first, second)
        }
        Stmt::Repeat(n, a) => Ok(Stmt::Repeat(*n, boxed_statement(alloc, a)?)),
        Stmt::OrElse(a, b) => {
            let first = boxed_statement(alloc, a)?;
            let (first, second) = beside(alloc, b, first)?;
            Ok(Stmt::OrElse(first, second))
        }
        Stmt::Throw(e) => Ok(Stmt::Throw(expression(alloc, e)?)),
    }
}

/// The box, and beside it a copy of a statement.
#[cycle(statements)]
fn beside(alloc: Global, s: &Stmt, first: Box<Stmt>) -> Result<(Box<Stmt>, Box<Stmt>), AllocError>
    ensures { IfOk result
        (λ p. (statement_of p.0.value ≡ statement_of first.value) × (statement_of p.1.value ≡ statement_of s.now)) }
{
    let second = boxed_statement(alloc, s)?;
    Ok((first, second))
}

/// The choice between two branches by a copy of the condition.
fn tested(alloc: Global, c: &Cond, first: Box<Stmt>, second: Box<Stmt>) -> Result<Stmt, AllocError>
    ensures { IfOk result
        (λ s. statement_of s ≡ If (condition_of c.now) (statement_of first.value) (statement_of second.value)) }
{
    Ok(Stmt::If(condition(alloc, c)?, first, second))
}

#[cycle(statements)]
fn boxed_statement(alloc: Global, s: &Stmt) -> Result<Box<Stmt>, AllocError>
    ensures { IfOk result (λ t. statement_of t.value ≡ statement_of s.now) }
{
    let copy = statement(alloc, s)?;
    Ok(Box::new(alloc, copy)?)
}

#[cycle(statements)]
fn statements(alloc: Global, parts: &[Stmt]) -> Result<Vec<Stmt>, AllocError>
    ensures { IfOk result (λ v. map statement_of v.items ≡ map statement_of parts.now) }
{
    let mut copies = Vec::with_capacity(alloc, parts.len())?;
    for part in parts {
        copies.push(statement(alloc, part)?)?;
    }
    Ok(copies)
}

/// The names of a transaction's parameters, in their order.
fn params_of(alloc: Global, params: &[String]) -> Result<Vec<String>, AllocError>
    ensures { IfOk result (λ v. map string_bytes v.items ≡ map string_bytes params.now) }
{
    let mut copies = Vec::with_capacity(alloc, params.len())?;
    for name in params {
        copies.push(name.clone()?)?;
    }
    Ok(copies)
}

/// A copy of a transaction.
pub fn copied_transaction(alloc: Global, tx: &Tx) -> Result<Tx, AllocError>
    ensures { IfOk result (λ t. transaction_of t ≡ transaction_of tx.now) }
{
    let name = tx.name.clone()?;
    let params = params_of(alloc, &tx.params)?;
    let (body, result) = body_and_result(alloc, tx)?;
    Ok(Tx {
        name,
        params,
        body,
        result,
    })
}

/// Copies of what a transaction does and of what it returns.
fn body_and_result(alloc: Global, tx: &Tx) -> Result<(Stmt, Expr), AllocError>
    ensures { IfOk result
        (λ p. (statement_of p.0 ≡ statement_of tx.now.body) × (expression_of p.1 ≡ expression_of tx.now.result)) }
{
    let result = expression(alloc, &tx.result)?;
    Ok((statement(alloc, &tx.body)?, result))
}

/// The transactions, in their order.
pub fn transactions_of(alloc: Global, txs: &[Tx]) -> Result<Vec<Tx>, AllocError>
    ensures { IfOk result (λ v. map transaction_of v.items ≡ map transaction_of txs.now) }
{
    let mut copies = Vec::with_capacity(alloc, txs.len())?;
    for tx in txs {
        copies.push(copied_transaction(alloc, tx)?)?;
    }
    Ok(copies)
}

fn standing(alloc: Global, a: &(String, Cond)) -> Result<(String, Cond), AllocError>
    ensures { IfOk result (λ b. standing_of b ≡ standing_of a.now) }
{
    Ok((a.0.clone()?, condition(alloc, &a.1)?))
}

/// The standing conditions, in their order.
pub fn always_of(
    alloc: Global,
    always: &[(String, Cond)],
) -> Result<Vec<(String, Cond)>, AllocError>
    ensures { IfOk result (λ v. map standing_of v.items ≡ map standing_of always.now) }
{
    let mut copies = Vec::with_capacity(alloc, always.len())?;
    for each in always {
        copies.push(standing(alloc, each)?)?;
    }
    Ok(copies)
}

/// The variables: each name with its initial value.
pub fn variables_of(
    alloc: Global,
    names: &[String],
    values: &[i64],
) -> Result<Vec<(String, i64)>, AllocError>
    requires { length names.now ≡ length values.now }
    ensures names { IfOk result (λ v. map (λ p. string_bytes p.0) v.items ≡ map string_bytes names.now) }
    ensures values { IfOk result (λ v. map (λ p. p.1) v.items ≡ values.now) }
{
    let mut copies = Vec::with_capacity(alloc, names.len())?;
    for i in 0..names.len() {
        copies.push((names[i].clone()?, values[i]))?;
    }
    Ok(copies)
}

/// A table of this name whose cells are these.
fn table(alloc: Global, name: &str, values: &[i64]) -> Result<Table, AllocError>
    ensures name { IfOk result (λ t. string_bytes t.name ≡ name.now) }
    ensures values { IfOk result (λ t. values_of t.cells ≡ values.now) }
{
    Ok(Table {
        name: String::from_str(alloc, name)?,
        cells: Cells::Each(values.to_vec(alloc)?),
    })
}

/// Tables of these names and so many cells each: the values, table after table.
pub fn tables_of(
    alloc: Global,
    tables: &[(String, u32)],
    values: &[i64],
) -> Result<Vec<Table>, AllocError>
    requires { sum_by (λ t. t.1) tables.now ≡ length values.now }
    ensures tables { IfOk result (λ v. map table_of v.items ≡ map counted tables.now) }
    ensures values { IfOk result (λ v. flat_map (λ t. values_of t.cells) v.items ≡ values.now) }
{
    let mut copies = Vec::with_capacity(alloc, tables.len())?;
    let mut rest = values;
    for (name, count) in tables {
        let (cells, more) = rest.split_at(*count as usize);
        copies.push(table(alloc, name.as_str(), cells)?)?;
        rest = more;
    }
    Ok(copies)
}

/// The runs, and after them one of one task for each of these calls.
pub fn runs_with(
    alloc: Global,
    runs: &[(Call, u32)],
    more: &[Call],
) -> Result<Vec<(Call, u32)>, AllocError>
    ensures { IfOk result (λ v. v.items ≡ runs.now ++ map (λ c. (c, 1)) more.now) }
{
    let mut all = runs.to_vec(alloc)?;
    for call in more {
        all.push((*call, 1))?;
    }
    Ok(all)
}
