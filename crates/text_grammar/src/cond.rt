//! Conditions as the file has them.

use crate::expr::RawExpr;
use crate::words::{Comparison, Connective};

/// A condition whose names are not looked up and whose integers are not measured.
#[derive(Drop)]
pub enum RawCond<'a> {
    Compare(Comparison, RawExpr<'a>, RawExpr<'a>),
    Not(Box<RawCond<'a>>),
    Connect(Connective, Box<RawCond<'a>>, Box<RawCond<'a>>),
}
