//! Attempts that read in place: what they read, how they end and what they write. The values were
//! worked out by hand.

ghost use Rattle.std.specs.Prelude.{◌≡◌, length};

use crate::parts::{X, Y, catalogue};
use attempt::{Attempt, Next};
use std::alloc::Global;
use txn::{Catalogue, Fault, Outcome, TxId, VarId};

/// A transaction on these values.
struct Row {
    text: &'static str,
    values: &'static [i64],
    outcome: Outcome,
    log: &'static [(VarId, i64)],
    writes: &'static [(VarId, i64)],
    /// How many nodes are entered: each once, since no load is done again.
    steps: u64,
}

const ROWS: &[Row] = &[
    Row {
        text: "(var x 0)(var y 0)(tx t (skip) 7)",
        values: &[5, 9],
        outcome: Outcome::Returned(7),
        log: &[],
        writes: &[],
        steps: 2,
    },
    Row {
        text: "(var x 0)(var y 0)(tx t (set x (add x 1)) x)",
        values: &[5, 9],
        outcome: Outcome::Returned(6),
        log: &[(X, 5)],
        writes: &[(X, 6)],
        steps: 5,
    },
    Row {
        text: "(var x 0)(var y 0)(tx t (set x 1) (add y x))",
        values: &[5, 9],
        outcome: Outcome::Returned(10),
        log: &[(Y, 9)],
        writes: &[(X, 1)],
        steps: 5,
    },
    Row {
        text: "(var x 0)(var y 0)(tx t (skip) (add y x))",
        values: &[5, 9],
        outcome: Outcome::Returned(14),
        log: &[(Y, 9), (X, 5)],
        writes: &[],
        steps: 4,
    },
    Row {
        text: "(var x 0)(var y 0)(tx t (if (eq x 5) (retry) (skip)) y)",
        values: &[5, 9],
        outcome: Outcome::Retries,
        log: &[(X, 5)],
        writes: &[],
        steps: 5,
    },
    Row {
        text: "(var x 0)(var y 0)(tx t (seq (set y x) (throw y)) 0)",
        values: &[5, 9],
        outcome: Outcome::Thrown(Fault::User(5)),
        log: &[(X, 5)],
        writes: &[],
        steps: 5,
    },
    Row {
        text: "(stm 3)(table c 4 0)(tx t () (skip) (at c 3))",
        values: &[5, 6, 7, 8],
        outcome: Outcome::Returned(8),
        log: &[(VarId(3), 8)],
        writes: &[],
        steps: 3,
    },
];

/// Whether it has read and written that, in so many steps.
fn has(attempt: &Attempt<'_>, row: &Row) -> bool {
    attempt.log() == row.log && attempt.writes() == row.writes && attempt.steps() == row.steps
}

/// What an attempt answers that ended so.
fn end_of(outcome: Outcome) -> Next {
    match outcome {
        Outcome::Returned(v) => Next::Returned(v),
        Outcome::Thrown(fault) => Next::Thrown(fault),
        Outcome::Retries => Next::Retry,
    }
}

/// Whether it goes so by a reader, and then answers the same end again with no node entered.
fn goes_by_reader(attempt: &mut Attempt<'_>, values: &[i64], row: &Row) -> bool
    requires { length values.now ≡ attempt.old.variables }
{
    let mut reader = values;
    let end = end_of(row.outcome);
    attempt.advance_by(&mut reader) == end
        && has(attempt, row)
        && attempt.advance_by(&mut reader) == end
        && attempt.steps() == 0
}

/// Whether an attempt of the catalogue's first transaction goes so, as it evaluates all, and anew by a reader.
fn goes(alloc: Global, catalogue: &Catalogue, row: &Row) -> bool {
    if !catalogue.is_callable(TxId(0), &[]) || catalogue.initial().len() != row.values.len() {
        return false;
    }
    let mut attempt = Attempt::new(alloc, catalogue, TxId(0), &[]);
    let is_so = match attempt.evaluate_on(row.values) {
        Ok(outcome) => outcome == row.outcome && has(&attempt, row),
        Err(_) => false,
    };
    let is_all = attempt.total() == row.steps.saturating_add(row.log.len() as u64);
    attempt.restart(catalogue, TxId(0), &[]);
    is_so && is_all && goes_by_reader(&mut attempt, row.values, row)
}

fn goes_so(alloc: Global, row: &Row) -> bool {
    match catalogue(alloc, row.text) {
        Some(catalogue) => goes(alloc, &catalogue, row),
        None => false,
    }
}

/// Whether an attempt that needs `y` asks for it again, and reads only what it was not told.
fn reads_the_rest(attempt: &mut Attempt<'_>, values: &[i64]) -> bool
    requires { length values.now ≡ attempt.old.variables }
{
    let mut reader = values;
    attempt.advance() == Next::Need(Y)
        && attempt.advance_by(&mut reader) == Next::Need(Y)
        && attempt.supply(Y, 9).is_ok()
        && attempt.advance_by(&mut reader) == Next::Returned(14)
        && attempt.log() == [(Y, 9), (X, 5)].as_slice()
}

fn rest_is_read(alloc: Global) -> bool {
    let values = [5, 9];
    let Some(catalogue) = catalogue(alloc, "(var x 0)(var y 0)(tx t (skip) (add y x))") else {
        return false;
    };
    if !catalogue.is_callable(TxId(0), &[]) || catalogue.initial().len() != values.len() {
        return false;
    }
    let mut attempt = Attempt::new(alloc, &catalogue, TxId(0), &[]);
    reads_the_rest(&mut attempt, &values)
}

#[test]
fn values_are_read_where_they_are_needed(rt: HostRuntime) {
    for row in ROWS {
        assert!(rt; goes_so(rt.alloc(), row), "{}", row.text);
    }
    assert!(rt; rest_is_read(rt.alloc()));
}
