//! A file, its report, and what a check of it answers.

use checker::{Part, Verdict, check};
use std::alloc::Global;

/// Two increments of one variable.
pub(crate) const FILE: &str = "(var x 5)(tx inc (set x (add x 1)) x)(run inc 2)";

/// The report of a run of it.
pub(crate) const REPORT: &str =
    "base 0\nx 5 0\nentry 1 0 inc returned 6\nentry 2 1 inc returned 7\nnow 2\nx 7 2\nend\n";

/// A condition that a fault of its own breaks.
pub(crate) const DIVISION: &str =
    "(stm 2)(var x 1)(always ok (le 0 (div 1 x)))(tx z (set x 0) x)(run z 1)";

/// The report of a run of it.
pub(crate) const BROKEN: &str = "base 0\nx 1 0\nentry 1 0 z broke ok\nnow 1\nx 1 0\nend\n";

/// The number of the part that a report of a file fails first, and 0 where it is lawful. `None`
/// where the file is refused.
pub(crate) fn failed(alloc: Global, file: &str, report: &[u8]) -> Option<u8> {
    match check(alloc, file.as_bytes(), report) {
        Ok(Verdict::Good) => Some(0),
        Ok(Verdict::Bad(part)) => Some(part.number()),
        Err(_) => None,
    }
}
