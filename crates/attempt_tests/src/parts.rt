//! The catalogues of the tests.

use std::alloc::Global;
use txn::{Catalogue, VarId};
use txn_text::read_file;

pub(crate) const X: VarId = VarId(0);

pub(crate) const Y: VarId = VarId(1);

/// The catalogue of a text, `None` where it is no file or memory is refused.
pub(crate) fn catalogue(alloc: Global, text: &str) -> Option<Catalogue> {
    match read_file(alloc, text.as_bytes()) {
        Ok(catalogue) => Some(catalogue),
        Err(_) => None,
    }
}
