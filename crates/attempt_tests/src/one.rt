//! One attempt: what it asks for, its log and its writes. The values were worked out by hand.

use crate::parts::{X, Y};
use crate::play::{Row, Step, first_wrong_row};
use attempt::{Next, answers, frame, fuses, resumes};
use std::alloc::Global;
use txn::{Fault, Outcome};

const ROWS: &[Row] = &[
    // The increment goes on at its load.
    (
        "(var x 0)(var y 0)(tx t (set x (add x 1)) x)",
        &[
            Step::Outcome(None),
            Step::Told(X, 3, 5),
            Step::Advance(Next::Returned(6), 3),
            Step::Outcome(Some(Outcome::Returned(6))),
            Step::Log(&[(X, 5)]),
            Step::Writes(&[(X, 6)]),
            Step::Advance(Next::Returned(6), 0),
            Step::Total(6),
        ],
    ),
    // A sum enters each node once, and each load again.
    (
        "(var x 0)(var y 0)(tx sum (skip) (add x y))",
        &[
            Step::Advance(Next::Need(X), 3),
            Step::Told(X, 0, 1),
            Step::Told(Y, 2, 1),
            Step::Advance(Next::Returned(2), 1),
            Step::Total(6),
        ],
    ),
    // A branch that retried leaves its reads.
    (
        "(var x 0)(var y 0)(tx t (orelse (if (eq x 0) (retry) (set y 1)) (set y 2)) y)",
        &[
            Step::Told(X, 4, 0),
            Step::Advance(Next::Returned(2), 6),
            Step::Log(&[(X, 0)]),
            Step::Writes(&[(Y, 2)]),
        ],
    ),
    // A need is repeated.
    (
        "(var x 0)(var y 0)(tx t (skip) y)",
        &[
            Step::Advance(Next::Need(Y), 2),
            Step::Advance(Next::Need(Y), 0),
            Step::Log(&[]),
            Step::Told(Y, 0, -3),
            Step::Advance(Next::Returned(-3), 1),
            Step::Writes(&[]),
        ],
    ),
    // Only a return leaves writes.
    (
        "(var x 0)(var y 0)(tx t (seq (set y 7) (throw y)) 0)",
        &[
            Step::Advance(Next::Thrown(Fault::User(7)), 5),
            Step::Writes(&[]),
            Step::Advance(Next::Thrown(Fault::User(7)), 0),
        ],
    ),
    // A retry keeps its log.
    (
        "(var x 0)(var y 0)(tx t (if (eq x 0) (retry) (skip)) 1)",
        &[
            Step::Told(X, 3, 0),
            Step::Advance(Next::Retry, 3),
            Step::Log(&[(X, 0)]),
            Step::Writes(&[]),
        ],
    ),
];

pub(crate) fn first_wrong(alloc: Global) -> Option<(usize, usize)> {
    first_wrong_row(alloc, ROWS)
}

#[test]
fn laws_can_be_called(_rt: HostRuntime) {
    frame();
    answers();
    fuses();
    resumes();
}
