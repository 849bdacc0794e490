//! Cells of tables in an attempt. What is read of them and written to them is played by `cases/attempts.cases`.

use crate::play::{Row, Step, first_wrong_row};
use attempt::Next;
use std::alloc::Global;
use txn::{AlwaysId, Fault, VarId};

const OUTSIDE: Next = Next::Thrown(Fault::Outside);

const BROKEN: Next = Next::Thrown(Fault::Broken(AlwaysId(0)));

const ROWS: &[Row] = &[
    // Each waits for the one on its right, in the order of their reads.
    (
        "(stm 3)(table t 600 0)(tx x () (if (lt (add (at t 44) (add (at t 300) (at t 556))) 0) (retry) (skip)) (add \
            (mul 100 (at t 44)) (add (mul 10 (at t 300)) (at t 556))))",
        &[
            Step::Told(VarId(44), 5, 1),
            Step::Told(VarId(300), 4, 2),
            Step::Told(VarId(556), 3, 3),
            Step::Advance(Next::Returned(123), 15),
            Step::Log(&[(VarId(44), 1), (VarId(300), 2), (VarId(556), 3)]),
        ],
    ),
    // The node of each read is entered twice.
    (
        "(stm 3)(var i 0)(table t 600 0)(tx x () (seq (set i (sub i 6)) (repeat 600 (seq (put t i (add (at t i) 1)) \
            (set i (add i 1))))) (at t 599))",
        &[
            Step::Sixes(601),
            Step::Advance(Next::Returned(7), 8),
            Step::Total(7209),
        ],
    ),
    // It waits for the cell, and only for a cell.
    (
        "(stm 3)(table c 4 0)(tx t () (skip) (at c 0))",
        &[
            Step::Told(VarId(0), 3, 5),
            Step::Advance(Next::Returned(5), 1),
            Step::Total(4),
        ],
    ),
    (
        "(stm 3)(table c 4 0)(tx t () (skip) (at c 3))",
        &[
            Step::Told(VarId(3), 3, 8),
            Step::Advance(Next::Returned(8), 1),
        ],
    ),
    (
        "(stm 3)(table c 4 0)(tx t () (skip) (at c -1))",
        &[Step::Advance(OUTSIDE, 2), Step::Log(&[])],
    ),
    (
        "(stm 3)(table c 4 0)(tx t () (skip) (at c 4))",
        &[Step::Advance(OUTSIDE, 2), Step::Log(&[])],
    ),
    (
        "(stm 3)(table c 4 0)(tx t () (skip) (at c 9223372036854775807))",
        &[Step::Advance(OUTSIDE, 2), Step::Log(&[])],
    ),
    (
        "(stm 3)(table c 4 0)(tx t () (skip) (at c -9223372036854775808))",
        &[Step::Advance(OUTSIDE, 2), Step::Log(&[])],
    ),
];

pub(crate) fn first_wrong(alloc: Global) -> Option<(usize, usize)> {
    first_wrong_row(alloc, ROWS)
}

/// What was written is not read.
const OWN: &[Row] = &[
    (
        "(stm 3)(table c 4 0)(tx t () (put c 2 9) (at c 2))",
        &[
            Step::Advance(Next::Returned(9), 5),
            Step::Log(&[]),
            Step::Writes(&[(VarId(2), 9)]),
        ],
    ),
    (
        "(stm 3)(table c 4 0)(tx t () (put c 1 9) (at c 2))",
        &[
            Step::Told(VarId(2), 5, 7),
            Step::Advance(Next::Returned(7), 1),
            Step::Writes(&[(VarId(1), 9)]),
        ],
    ),
    (
        "(stm 3)(table c 4 0)(tx t () (put c -1 9) (at c 2))",
        &[Step::Advance(OUTSIDE, 3), Step::Writes(&[])],
    ),
    (
        "(stm 3)(table c 4 0)(tx t () (put c 4 9) (at c 2))",
        &[Step::Advance(OUTSIDE, 3), Step::Writes(&[])],
    ),
];

/// Folds, and cells within a condition: it is that one which is broken, and the rest of it is not looked at.
const FOLDS: &[Row] = &[
    // A fold waits at each cell, and goes on there; no cell behind a fault is needed.
    (
        "(stm 3)(table c 4 0)(tx t () (skip) (sum c))",
        &[
            Step::Told(VarId(0), 2, 5),
            Step::Told(VarId(1), 2, 6),
            Step::Told(VarId(2), 2, 7),
            Step::Told(VarId(3), 2, 8),
            Step::Advance(Next::Returned(26), 2),
            Step::Total(10),
        ],
    ),
    (
        "(stm 3)(table c 4 0)(tx t () (skip) (min c))",
        &[
            Step::Told(VarId(0), 2, 5),
            Step::Told(VarId(1), 2, 6),
            Step::Told(VarId(2), 2, 7),
            Step::Told(VarId(3), 2, 8),
            Step::Advance(Next::Returned(5), 2),
        ],
    ),
    (
        "(stm 3)(table c 4 0)(tx t () (skip) (sum c))",
        &[
            Step::Told(VarId(0), 2, 9223372036854775807),
            Step::Told(VarId(1), 2, 1),
            Step::Advance(Next::Thrown(Fault::Overflow), 1),
            Step::Log(&[(VarId(0), 9223372036854775807), (VarId(1), 1)]),
        ],
    ),
    (
        "(stm 3)(table c 4 0)(always ok (le (at c 2) 7))(tx t () (skip) (max c))",
        &[
            Step::Told(VarId(0), 2, 5),
            Step::Told(VarId(1), 2, 6),
            Step::Told(VarId(2), 2, 7),
            Step::Told(VarId(3), 2, 8),
            Step::Advance(Next::Returned(8), 6),
            Step::Total(14),
        ],
    ),
    (
        "(stm 3)(table c 4 0)(always ok (le (at c 3) 7))(tx t () (skip) (max c))",
        &[
            Step::Told(VarId(0), 2, 5),
            Step::Told(VarId(1), 2, 6),
            Step::Told(VarId(2), 2, 7),
            Step::Told(VarId(3), 2, 8),
            Step::Advance(BROKEN, 6),
            Step::Total(14),
        ],
    ),
    (
        "(stm 3)(var v 0)(table c 4 0)(always ok (le (at c v) 7))(tx t () (set v 4) 8)",
        &[Step::Advance(BROKEN, 5), Step::Log(&[]), Step::Writes(&[])],
    ),
];

pub(crate) fn first_wrong_of_own(alloc: Global) -> Option<(usize, usize)> {
    first_wrong_row(alloc, OWN)
}

pub(crate) fn first_wrong_fold(alloc: Global) -> Option<(usize, usize)> {
    first_wrong_row(alloc, FOLDS)
}
