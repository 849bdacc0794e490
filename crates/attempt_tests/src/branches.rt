//! What own writes are after a retry.

use crate::parts::{X, Y};
use crate::play::{Row, Step, first_wrong_row};
use attempt::Next;
use std::alloc::Global;

/// The branch waits for y behind its write of x; after its retry x is read.
const ROWS: &[Row] = &[(
    "(var x 0)(var y 0)(tx t (orelse (seq (set x 1) (if (eq y 0) (retry) (skip))) (skip)) x)",
    &[
        Step::Told(Y, 7, 0),
        Step::Told(X, 5, 5),
        Step::Advance(Next::Returned(5), 1),
        Step::Log(&[(Y, 0), (X, 5)]),
        Step::Writes(&[]),
    ],
)];

pub(crate) fn first_wrong(alloc: Global) -> Option<(usize, usize)> {
    first_wrong_row(alloc, ROWS)
}
