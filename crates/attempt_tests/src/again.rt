//! Attempts that begin anew, in the room that they have.

use crate::parts::{X, Y, catalogue};
use crate::play::{Row, Step, first_wrong_row, first_wrong_step};
use attempt::{Attempt, Next};
use std::alloc::Global;
use txn::{Catalogue, TxId};

/// The log is taken after a retry, and the attempt goes the same way once more.
const ROWS: &[Row] = &[(
    "(var x 0)(var y 0)(tx t (orelse (if (eq x 5) (retry) (skip)) (retry)) 1)",
    &[
        Step::Told(X, 4, 5),
        Step::Advance(Next::Retry, 4),
        Step::Log(&[(X, 5)]),
        Step::TakeLog(&[(X, 5)]),
        Step::Log(&[]),
        Step::Told(X, 4, 5),
        Step::Advance(Next::Retry, 4),
        Step::Log(&[(X, 5)]),
    ],
)];

pub(crate) fn first_wrong(alloc: Global) -> Option<(usize, usize)> {
    first_wrong_row(alloc, ROWS)
}

/// Two transactions.
const TWO: &str = "(var x 0)(var y 0)(tx t (set x (add x 1)) x)(tx u (set y 2) (add 3 4))";

/// Needs x, is told 5, and returns 6.
const BEFORE: &[Step] = &[
    Step::Told(X, 3, 5),
    Step::Advance(Next::Returned(6), 3),
    Step::Log(&[(X, 5)]),
];

/// Reads nothing.
const AFTER: &[Step] = &[
    Step::Log(&[]),
    Step::Advance(Next::Returned(7), 5),
    Step::Writes(&[(Y, 2)]),
    Step::Total(5),
];

/// The first step that is not answered so where an attempt of the first transaction is made one of the last: of those
/// before, and of those after.
fn first_wrong_of_both<'c>(
    attempt: &mut Attempt<'c>,
    catalogue: &'c Catalogue,
) -> (Option<usize>, Option<usize>) {
    let before = first_wrong_step(attempt, BEFORE);
    if !catalogue.is_callable(TxId(1), &[]) {
        return (before, Some(0));
    }
    attempt.restart(catalogue, TxId(1), &[]);
    (before, first_wrong_step(attempt, AFTER))
}

fn first_wrong_steps(alloc: Global, catalogue: &Catalogue) -> (Option<usize>, Option<usize>) {
    if !catalogue.is_callable(TxId(0), &[]) {
        return (Some(0), None);
    }
    let mut attempt = Attempt::new(alloc, catalogue, TxId(0), &[]);
    first_wrong_of_both(&mut attempt, catalogue)
}

#[test]
fn an_attempt_is_made_one_of_another_transaction(rt: HostRuntime) {
    match catalogue(rt.alloc(), TWO) {
        Some(catalogue) => {
            assert!(rt; first_wrong_steps(rt.alloc(), &catalogue) == (None, None));
        }
        None => panic!(rt; "no catalogue"),
    }
}
