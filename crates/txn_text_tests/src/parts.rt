//! Catalogues and texts of the tests, and why texts are refused.

use std::alloc::Global;
use text_line_reader::{read_report, read_schedule};
use txn::{Catalogue, Move};
use txn_text::{ReadFault, read_file};

/// Two increments of one variable.
pub(crate) const INCREMENTS: &str = "(var x 5)(tx inc (set x (add x 1)) x)(run inc 2)";

/// Two variables, a task that adds them and one that sets both.
pub(crate) const PAIR: &str = "(var x 1)(var y 1)(tx sum (skip) (add x y))\
    (tx both (seq (set x 2) (set y 2)) 0)(run sum 1)(run both 1)";

/// What a text is read as.
pub(crate) enum Kind {
    File,
    /// A report of the two increments.
    Report,
    /// A schedule of the pair.
    Schedule,
}

/// The catalogue of a text, `None` where it is no file or memory is refused.
pub(crate) fn catalogue(alloc: Global, text: &str) -> Option<Catalogue> {
    match read_file(alloc, text.as_bytes()) {
        Ok(catalogue) => Some(catalogue),
        Err(_) => None,
    }
}

/// Why the text is refused as a file, if it is.
pub(crate) fn file_fault(alloc: Global, text: &[u8]) -> Option<ReadFault> {
    read_file(alloc, text).err()
}

/// Whether the text is read as a schedule of the catalogue's file, and as these moves.
pub(crate) fn are_moves(
    alloc: Global,
    catalogue: &Catalogue,
    text: &[u8],
    wanted: &[Move],
) -> bool {
    match read_schedule(alloc, text, catalogue) {
        Ok(moves) => moves.as_slice() == wanted,
        Err(_) => false,
    }
}

fn report_fault(alloc: Global, text: &[u8]) -> Option<ReadFault> {
    match catalogue(alloc, INCREMENTS) {
        Some(catalogue) => read_report(alloc, text, &catalogue).err(),
        None => None,
    }
}

fn schedule_fault(alloc: Global, text: &[u8]) -> Option<ReadFault> {
    match catalogue(alloc, PAIR) {
        Some(catalogue) => read_schedule(alloc, text, &catalogue).err(),
        None => None,
    }
}

/// Why a text is refused, if it is.
pub(crate) fn fault(alloc: Global, kind: &Kind, text: &[u8]) -> Option<ReadFault> {
    match kind {
        Kind::File => file_fault(alloc, text),
        Kind::Report => report_fault(alloc, text),
        Kind::Schedule => schedule_fault(alloc, text),
    }
}
