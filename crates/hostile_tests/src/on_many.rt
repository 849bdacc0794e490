//! What is done with the catalogues of the tests, where memory may be refused.

use crate::refused_attempt::drives;
use crate::refused_book::{Script, over};
use crate::refused_world::opens;
use std::alloc::Global;
use txn::Catalogue;
use txn_text::{ReadFault, read_file};

/// What is done with a catalogue.
#[derive(Clone, Copy)]
pub(crate) enum Use {
    /// An attempt is driven to its end.
    Attempt,
    /// Two books are opened: one of them opens, since one request is refused at most.
    OpensBooks,
    /// This is done with a book, where it opens.
    Book(Script),
    /// Two worlds are opened, likewise.
    OpensWorlds,
}

/// Whether one of two opened at least, and all is right with what opened.
fn one_opens(first: Option<bool>, second: Option<bool>) -> bool {
    match (first, second) {
        (Some(one), Some(other)) => one && other,
        (Some(one), None) | (None, Some(one)) => one,
        (None, None) => false,
    }
}

fn is_used(alloc: Global, catalogue: &Catalogue, how: Use) -> bool {
    match how {
        Use::Attempt => drives(alloc, catalogue),
        Use::OpensBooks => {
            let first = over(alloc, catalogue, Script::Takes);
            one_opens(first, over(alloc, catalogue, Script::Takes))
        }
        Use::Book(script) => over(alloc, catalogue, script) != Some(false),
        Use::OpensWorlds => {
            let first = opens(alloc, catalogue);
            one_opens(first, opens(alloc, catalogue))
        }
    }
}

/// Whether all is right where the catalogue of this text is used so, where memory for it is not refused.
pub(crate) fn is_right_on(alloc: Global, text: &str, how: Use) -> bool {
    match read_file(alloc, text.as_bytes()) {
        Ok(catalogue) => is_used(alloc, &catalogue, how),
        Err(fault) => fault == ReadFault::Memory,
    }
}
