//! One attempt, which is lent to a book for one task after another.

use crate::attempts::{ends_anew, has};
use crate::rows::{Row, What, first_wrong_row};
use crate::texts::WAITING;
use attempt::Attempt;
use book::{Book, Finish};
use std::alloc::Global;
use txn::{Catalogue, TaskId, TxId, VarId};

/// A task that an attempt is lent for.
pub(crate) struct Lent {
    /// The tasks that are taken before.
    taken: &'static [TaskId],
    task: TaskId,
    values: &'static [i64],
    how: Finish,
    /// What it has logged and written, which it keeps.
    log: &'static [(VarId, i64)],
    writes: &'static [(VarId, i64)],
}

/// The task that waits is parked, and the attempt keeps its log to its next restart. The task that it
/// was waiting for commits, and then the task that waited does.
const LENT: &[Lent] = &[
    Lent {
        taken: &[TaskId(0), TaskId(1), TaskId(2)],
        task: TaskId(0),
        values: &[5, 0],
        how: Finish::Parked,
        log: &[(VarId(0), 5)],
        writes: &[],
    },
    Lent {
        taken: &[],
        task: TaskId(2),
        values: &[5, 0],
        how: Finish::Committed(1),
        log: &[],
        writes: &[(VarId(0), 6)],
    },
    Lent {
        taken: &[TaskId(0)],
        task: TaskId(0),
        values: &[6, 0],
        how: Finish::Committed(2),
        log: &[(VarId(0), 6)],
        writes: &[],
    },
];

/// Whether these are the next tasks.
fn takes(book: &mut Book<'_>, tasks: &[TaskId]) -> bool {
    for task in tasks {
        if book.take() != Some(*task) {
            return false;
        }
    }
    true
}

/// Whether the attempt is lent for the task, and keeps what it has.
fn is_lent<'c>(
    book: &mut Book<'_>,
    catalogue: &'c Catalogue,
    attempt: &mut Attempt<'c>,
    row: &Lent,
) -> bool {
    if !takes(book, row.taken) || !has(book, catalogue, row.task) {
        return false;
    }
    if !ends_anew(book, attempt, catalogue, row.task, row.values) {
        return false;
    }
    book.finish_lent(row.task, attempt) == row.how
        && attempt.log() == row.log
        && attempt.writes() == row.writes
}

/// The first of them for which it is not, `None` where there is none. There is one attempt for all.
fn first_wrong<'c>(
    book: &mut Book<'_>,
    catalogue: &'c Catalogue,
    attempt: &mut Attempt<'c>,
    rows: &[Lent],
) -> Option<usize> {
    for place in 0..rows.len() {
        if !is_lent(book, catalogue, attempt, &rows[place]) {
            return Some(place);
        }
    }
    None
}

pub(crate) fn first_not_lent(
    alloc: Global,
    book: &mut Book<'_>,
    catalogue: &Catalogue,
    rows: &[Lent],
) -> Option<usize> {
    if !catalogue.is_callable(TxId(0), &[]) {
        return Some(0);
    }
    let mut attempt = Attempt::new(alloc, catalogue, TxId(0), &[]);
    first_wrong(book, catalogue, &mut attempt, rows)
}

const ROWS: &[Row] = &[(
    "an attempt is lent again and again",
    WAITING,
    None,
    What::Lends(LENT),
)];

pub(crate) fn first_wrong_lent(alloc: Global) -> Option<(usize, usize)> {
    first_wrong_row(alloc, ROWS)
}
