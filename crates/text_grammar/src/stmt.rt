//! Statements as the file has them.

use crate::cond::RawCond;
use crate::expr::RawExpr;
use text_words::numeral::Numeral;

/// What a call gives for a parameter: an integer, or a parameter of the transaction in which the call stands.
#[derive(Clone, Copy)]
pub enum RawArgument<'a> {
    Int(Numeral<'a>),
    Name(&'a str),
}

/// A statement whose names are not looked up and whose integers are not measured.
#[derive(Drop)]
pub enum RawStmt<'a> {
    Skip,
    Set(&'a str, RawExpr<'a>),
    /// The table, the number of the cell, and what is put there.
    Put(&'a str, RawExpr<'a>, RawExpr<'a>),
    Seq(Vec<RawStmt<'a>>),
    If(RawCond<'a>, Box<RawStmt<'a>>, Box<RawStmt<'a>>),
    Repeat(Numeral<'a>, Box<RawStmt<'a>>),
    Retry,
    OrElse(Box<RawStmt<'a>>, Box<RawStmt<'a>>),
    Throw(RawExpr<'a>),
    /// The transaction whose body stands here, and what it is given. No file may have one yet (`stmt_formed`): what a
    /// call stands for is defined first, and what reads files comes next, so that each step is proved while all files
    /// mean what they did.
    Call(&'a str, Vec<RawArgument<'a>>),
}
