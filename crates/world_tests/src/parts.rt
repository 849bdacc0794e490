//! The catalogues of the tests, and the names in them.

use std::alloc::Global;
use txn::{Catalogue, TaskId, VarId};
use txn_text::read_file;

pub(crate) const X: VarId = VarId(0);

pub(crate) const Y: VarId = VarId(1);

pub(crate) const A: TaskId = TaskId(0);

pub(crate) const B: TaskId = TaskId(1);

/// One task adds x and y, which are both 1; the other sets both to 2.
pub(crate) const PAIR: &str =
    "(var x 1)(var y 1)(tx sum (skip) (add x y))(tx both (seq (set x 2) (set y 2)) 0)(run sum 1)(run both 1)";

/// One task, which retries.
pub(crate) const RETRIES: &str = "(tx t (orelse (retry) (retry)) 0)(run t 1)";

/// The catalogue of a text, `None` where it is no file or memory is refused.
pub(crate) fn catalogue(alloc: Global, text: &str) -> Option<Catalogue> {
    match read_file(alloc, text.as_bytes()) {
        Ok(catalogue) => Some(catalogue),
        Err(_) => None,
    }
}
