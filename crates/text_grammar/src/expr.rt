//! Expressions as the file has them.

use crate::words::Operator;
use text_words::numeral::Numeral;
use txn_programs::Fold;

/// An expression whose names are not looked up and whose integers are not measured.
#[derive(Drop)]
pub enum RawExpr<'a> {
    Int(Numeral<'a>),
    Name(&'a str),
    /// A cell of the table of this name, by its number.
    At(&'a str, Box<RawExpr<'a>>),
    /// All cells of the table of this name.
    OfAll(Fold, &'a str),
    Binary(Operator, Box<RawExpr<'a>>, Box<RawExpr<'a>>),
}
