//! Attempts are played call by call, and each call's answer is compared. What needs no count of nodes is played by
//! `cases/attempts.cases`.

use crate::parts::catalogue;
use crate::{again, branches, cells, deep, one, standing, steps};
use attempt::{Attempt, Next};
use std::alloc::Global;
use txn::{Catalogue, Outcome, TxId, VarId};

/// Calls of an attempt, and what they answer.
pub(crate) enum Step {
    /// `advance` answers this, and enters so many nodes.
    Advance(Next, u64),
    /// `advance` enters so many nodes, whatever it answers.
    Enter(u64),
    /// `advance` needs this variable, and enters so many nodes; then the attempt is told its value.
    Told(VarId, u64, i64),
    /// So many times `advance` needs a variable, which is told to be 6.
    Sixes(u32),
    /// How it ended, if it did.
    Outcome(Option<Outcome>),
    Log(&'static [(VarId, i64)]),
    Writes(&'static [(VarId, i64)]),
    /// Each of so many variables is written, the first first, with its number.
    Numbers(u32),
    /// So many variables are in the log, as many are written, and this is the last of those.
    Ends(usize, (VarId, i64)),
    Total(u64),
    /// The log is taken.
    TakeLog(&'static [(VarId, i64)]),
}

/// The text of a file, and the steps of an attempt of its first transaction.
pub(crate) type Row = (&'static str, &'static [Step]);

fn advances(attempt: &mut Attempt<'_>, answer: Next, entered: u64) -> bool {
    attempt.advance() == answer && attempt.steps() == entered
}

fn enters(attempt: &mut Attempt<'_>, entered: u64) -> bool {
    let _ = attempt.advance();
    attempt.steps() == entered
}

fn is_told(attempt: &mut Attempt<'_>, x: VarId, entered: u64, v: i64) -> bool {
    match attempt.advance() {
        Next::Need(needed) => {
            needed == x && attempt.steps() == entered && attempt.supply(needed, v).is_ok()
        }
        _ => false,
    }
}

fn is_told_six(attempt: &mut Attempt<'_>) -> bool {
    match attempt.advance() {
        Next::Need(x) => attempt.supply(x, 6).is_ok(),
        _ => false,
    }
}

fn is_told_sixes(attempt: &mut Attempt<'_>, count: u32) -> bool {
    for _variable in 0..count {
        if !is_told_six(attempt) {
            return false;
        }
    }
    true
}

/// Whether the writes are of so many variables, each with its number.
fn are_numbers(writes: &[(VarId, i64)], count: u32) -> bool {
    for i in 0..count {
        if writes.get(i as usize) != Some(&(VarId(i), i64::from(i))) {
            return false;
        }
    }
    writes.len() == count as usize
}

fn ends_with(attempt: &Attempt<'_>, count: usize, last: (VarId, i64)) -> bool {
    attempt.log().len() == count
        && attempt.writes().len() == count
        && attempt.writes().last() == Some(&last)
}

fn gives_log(attempt: &mut Attempt<'_>, log: &[(VarId, i64)]) -> bool {
    attempt.take_log().as_slice() == log
}

/// Whether the step is answered so.
fn takes(attempt: &mut Attempt<'_>, step: &Step) -> bool {
    match step {
        Step::Advance(answer, entered) => advances(attempt, *answer, *entered),
        Step::Enter(entered) => enters(attempt, *entered),
        Step::Told(x, entered, v) => is_told(attempt, *x, *entered, *v),
        Step::Sixes(count) => is_told_sixes(attempt, *count),
        Step::Outcome(how) => attempt.outcome() == *how,
        Step::Log(log) => attempt.log() == *log,
        Step::Writes(writes) => attempt.writes() == *writes,
        Step::Numbers(count) => are_numbers(attempt.writes(), *count),
        Step::Ends(count, last) => ends_with(attempt, *count, *last),
        Step::Total(total) => attempt.total() == *total,
        Step::TakeLog(log) => gives_log(attempt, log),
    }
}

/// The first of these steps that is not answered so, `None` where all are.
pub(crate) fn first_wrong_step(attempt: &mut Attempt<'_>, steps: &[Step]) -> Option<usize> {
    for place in 0..steps.len() {
        if !takes(attempt, &steps[place]) {
            return Some(place);
        }
    }
    None
}

/// So it is of an attempt of the catalogue's first transaction.
fn first_wrong_of(alloc: Global, catalogue: &Catalogue, steps: &[Step]) -> Option<usize> {
    if !catalogue.is_callable(TxId(0), &[]) {
        return Some(0);
    }
    let mut attempt = Attempt::new(alloc, catalogue, TxId(0), &[]);
    first_wrong_step(&mut attempt, steps)
}

/// So it is of the text's first transaction.
pub(crate) fn first_wrong_in(alloc: Global, text: &str, steps: &[Step]) -> Option<usize> {
    match catalogue(alloc, text) {
        Some(catalogue) => first_wrong_of(alloc, &catalogue, steps),
        None => Some(0),
    }
}

/// The first row whose attempt does not go so, and its first step that does not.
pub(crate) fn first_wrong_row(alloc: Global, rows: &[Row]) -> Option<(usize, usize)> {
    for place in 0..rows.len() {
        let (text, steps) = rows[place];
        if let Some(step) = first_wrong_in(alloc, text, steps) {
            return Some((place, step));
        }
    }
    None
}

/// It is so of the rows of each file by itself: what a table takes to prove grows with the square of its length.
#[test]
fn attempts_go_by_their_steps(rt: HostRuntime) {
    let alloc = rt.alloc();
    let found = [
        ("one attempt", one::first_wrong(alloc)),
        ("nodes of expressions", steps::first_wrong_operator(alloc)),
        ("nodes of conditions", steps::first_wrong_condition(alloc)),
        ("nodes of statements", steps::first_wrong_statement(alloc)),
        ("branches", branches::first_wrong(alloc)),
        ("attempts that begin anew", again::first_wrong(alloc)),
        ("cells", cells::first_wrong(alloc)),
        ("cells that are written", cells::first_wrong_of_own(alloc)),
        ("folds of cells", cells::first_wrong_fold(alloc)),
        ("the deepest programs", deep::first_wrong(alloc)),
        ("standing conditions", standing::first_wrong(alloc)),
        (
            "conditions that are tested",
            standing::first_wrong_tested(alloc),
        ),
    ];
    for (of, wrong) in found {
        assert_eq!(rt; wrong, None, "{of}");
    }
}
