//! Standing conditions: what an attempt needs for them, and which one it breaks. The values were
//! worked out by hand.

use crate::parts::{X, Y};
use crate::play::{Row, Step, first_wrong_row};
use attempt::Next;
use std::alloc::Global;
use txn::{AlwaysId, Fault};

/// The answer that the first condition is broken.
const BROKE_FIRST: Next = Next::Thrown(Fault::Broken(AlwaysId(0)));

const BROKE_SECOND: Next = Next::Thrown(Fault::Broken(AlwaysId(1)));

const ROWS: &[Row] = &[
    // A condition needs what the body did not read: it waits within the condition, and goes on there.
    (
        "(stm 2)(var x 1)(var y 1)(always ok (le x y))(tx t (set x 3) x)",
        &[
            Step::Told(Y, 6, 5),
            Step::Advance(Next::Returned(3), 1),
            Step::Log(&[(Y, 5)]),
            Step::Writes(&[(X, 3)]),
            Step::Total(7),
            Step::Advance(Next::Returned(3), 0),
        ],
    ),
    (
        "(stm 2)(var x 1)(var y 1)(always ok (le x y))(tx t (set x 3) x)",
        &[
            Step::Told(Y, 6, 2),
            Step::Advance(BROKE_FIRST, 1),
            Step::Log(&[(Y, 2)]),
            Step::Writes(&[]),
            Step::Total(7),
            Step::Advance(BROKE_FIRST, 0),
        ],
    ),
    // A condition is of the state after: what is written counts, and not what was read before. A broken condition
    // leaves no writes.
    (
        "(stm 2)(var x 1)(var y 1)(always ok (lt x 6))(tx t (set x (add x 1)) x)",
        &[
            Step::Told(X, 3, 4),
            Step::Advance(Next::Returned(5), 6),
            Step::Log(&[(X, 4)]),
            Step::Total(9),
        ],
    ),
    (
        "(stm 2)(var x 1)(var y 1)(always ok (lt x 6))(tx t (set x (add x 1)) x)",
        &[
            Step::Told(X, 3, 5),
            Step::Advance(BROKE_FIRST, 6),
            Step::Log(&[(X, 5)]),
            Step::Total(9),
        ],
    ),
];

pub(crate) fn first_wrong(alloc: Global) -> Option<(usize, usize)> {
    first_wrong_row(alloc, ROWS)
}

const TESTED: &[Row] = &[
    // The first broken condition is named: where both are broken the second is not looked at.
    (
        "(stm 2)(var x 1)(var y 1)(always a (le x 9))(always b (le x 5))(tx t (set x 5) x)",
        &[Step::Advance(Next::Returned(5), 9)],
    ),
    (
        "(stm 2)(var x 1)(var y 1)(always a (le x 9))(always b (le x 5))(tx t (set x 7) x)",
        &[Step::Advance(BROKE_SECOND, 9)],
    ),
    (
        "(stm 2)(var x 1)(var y 1)(always a (le x 9))(always b (le x 5))(tx t (set x 10) x)",
        &[Step::Advance(BROKE_FIRST, 6)],
    ),
    // Only a return is tested: no condition is looked at, so y is not needed.
    (
        "(stm 2)(var x 1)(var y 1)(always ok (eq y y))(tx t (throw 4) 0)",
        &[
            Step::Advance(Next::Thrown(Fault::User(4)), 2),
            Step::Log(&[]),
        ],
    ),
    (
        "(stm 2)(var x 1)(var y 1)(always ok (eq y y))(tx t (skip) (div 1 0))",
        &[
            Step::Advance(Next::Thrown(Fault::DivideByZero), 4),
            Step::Log(&[]),
        ],
    ),
    (
        "(stm 2)(var x 1)(var y 1)(always ok (eq y y))(tx t (seq (set x 3) (retry)) 0)",
        &[Step::Advance(Next::Retry, 4), Step::Log(&[])],
    ),
    // A transaction that writes nothing is tested too. What was entered of the first condition is not entered again for
    // the second one.
    (
        "(stm 2)(var x 1)(var y 1)(always ok (lt 0 x))(tx t (skip) 7)",
        &[Step::Told(X, 5, 0), Step::Advance(BROKE_FIRST, 1)],
    ),
    (
        "(stm 2)(var x 1)(var y 1)(always a (eq x x))(always b (le x y))(tx t (skip) 7)",
        &[
            Step::Told(X, 4, 3),
            Step::Told(Y, 5, 3),
            Step::Advance(Next::Returned(7), 1),
            Step::Log(&[(X, 3), (Y, 3)]),
            Step::Total(10),
        ],
    ),
];

pub(crate) fn first_wrong_tested(alloc: Global) -> Option<(usize, usize)> {
    first_wrong_row(alloc, TESTED)
}
