//! Programs that are as deep as there may be, and branches inside branches: they take all the room that an attempt has.

use crate::parts::X;
use crate::play::{Row, Step, first_wrong_row};
use attempt::Next;
use std::alloc::Global;
use txn::{AlwaysId, Fault};

/// Each operand waits for the one on its right, and each loop for the one inside it, 31 deep.
const DEEPEST: &str =
    "(var x 0)(tx t (repeat 1 (repeat 1 (repeat 1 (repeat 1 (repeat 1 (repeat 1 (repeat 1 (repeat 1 (repeat \
        1 (repeat 1 (repeat 1 (repeat 1 (repeat 1 (repeat 1 (repeat 1 (repeat 1 (repeat 1 (repeat 1 \
        (repeat 1 (repeat 1 (repeat 1 (repeat 1 (repeat 1 (repeat 1 (repeat 1 (repeat 1 (repeat 1 (repeat \
        1 (repeat 1 (repeat 1 (skip))))))))))))))))))))))))))))))) (add 1 (add 1 (add 1 (add 1 (add 1 (add \
        1 (add 1 (add 1 (add 1 (add 1 (add 1 (add 1 (add 1 (add 1 (add 1 (add 1 (add 1 (add 1 (add 1 (add \
        1 (add 1 (add 1 (add 1 (add 1 (add 1 (add 1 (add 1 (add 1 (add 1 (add 1 (add 1 \
        x))))))))))))))))))))))))))))))))";

/// Branches that write and retry, one inside the other: the writes of each are gone, and the loop round them goes on.
const NESTED: &str =
    "(var x 0)(tx t (repeat 3 (seq (set x (add x 2)) (orelse (seq (set x (add x 1)) (orelse (seq (set x \
        (add x 1)) (orelse (seq (set x (add x 1)) (orelse (seq (set x (add x 1)) (orelse (seq (set x (add \
        x 1)) (orelse (seq (set x (add x 1)) (orelse (seq (set x (add x 1)) (orelse (seq (set x (add x 1)) \
        (retry)) (skip))) (skip))) (skip))) (skip))) (skip))) (skip))) (skip))) (skip)))) x)";

/// A condition in which each operand waits for the one on its right, 31 deep, with the result below them all.
const CONDITION: &str =
    "(stm 2)(var x -30)(always ok (eq 0 (add 1 (add 1 (add 1 (add 1 (add 1 (add 1 (add 1 (add 1 (add 1 (add \
        1 (add 1 (add 1 (add 1 (add 1 (add 1 (add 1 (add 1 (add 1 (add 1 (add 1 (add 1 (add 1 (add 1 (add \
        1 (add 1 (add 1 (add 1 (add 1 (add 1 (add 1 x))))))))))))))))))))))))))))))))(tx t (skip) 7)";

const ROWS: &[Row] = &[
    (
        DEEPEST,
        &[
            Step::Told(X, 94, 4),
            Step::Advance(Next::Returned(35), 1),
            Step::Total(95),
        ],
    ),
    (
        NESTED,
        &[
            Step::Told(X, 5, 0),
            Step::Advance(Next::Returned(27), 163),
            Step::Writes(&[(X, 27)]),
        ],
    ),
    // The condition is so, and is not so.
    (
        CONDITION,
        &[
            Step::Told(X, 65, -30),
            Step::Advance(Next::Returned(7), 1),
            Step::Total(66),
        ],
    ),
    (
        CONDITION,
        &[
            Step::Told(X, 65, -29),
            Step::Advance(Next::Thrown(Fault::Broken(AlwaysId(0))), 1),
            Step::Total(66),
        ],
    ),
];

pub(crate) fn first_wrong(alloc: Global) -> Option<(usize, usize)> {
    first_wrong_row(alloc, ROWS)
}
