//! Turns of the tasks of a book, worked out by hand.

use crate::looks::{Look, Said};
use crate::rows::{Row, Step, What, first_wrong_row};
use crate::texts::{NONE_AT_8, ONE, STANDING, THREE, TWO, TWO_AND_ONE, WAITING, WAITING_TWICE};
use book::{Finish, Serial};
use std::alloc::Global;
use txn::{Entry, Outcome, TaskId, TxId, VarId};

/// Three increments, of which one is under way.
const DRAINS: &[Step] = &[
    Step::Takes(Some(TaskId(0))),
    Step::Drains(2),
    Step::Shows(Look::Journal(1)),
    Step::Says(Said::X((2, 7, 2), 1, (3, 8, 3))),
    Step::Checkpoints,
    Step::Says(Said::X((3, 8, 3), 0, (3, 8, 3))),
];

const TELLS_ENTRY: &[Step] = &[
    Step::Drains(0),
    Step::Says(Said::Entries(&[Entry {
        number: 1,
        task: TaskId(0),
        tx: TxId(0),
        outcome: Outcome::Returned(6),
    }])),
];

const WAKES: &[Step] = &[
    Step::Takes(Some(TaskId(0))),
    Step::Turns(TaskId(0), Serial::Parked),
    Step::Takes(Some(TaskId(1))),
    Step::Turns(TaskId(1), Serial::Committed(1)),
    Step::Takes(Some(TaskId(2))),
    Step::Turns(TaskId(2), Serial::Committed(2)),
    Step::Takes(Some(TaskId(0))),
    Step::Turns(TaskId(0), Serial::Committed(3)),
    Step::Turns(TaskId(0), Serial::NotRunning),
];

/// Three increments.
const TAKES_FROM: &[Step] = &[
    Step::TakesFrom(1, Some(TaskId(1))),
    Step::TakesFrom(1, Some(TaskId(2))),
    Step::TakesFrom(1, Some(TaskId(0))),
    Step::TakesFrom(1, None),
    Step::TakesFrom(0, None),
];

/// The number may be that of no task.
const TAKES_PAST_THE_LAST: &[Step] = &[
    Step::TakesFrom(3, Some(TaskId(0))),
    Step::TakesFrom(2, Some(TaskId(2))),
    Step::TakesFrom(usize::MAX, Some(TaskId(1))),
];

/// Task 0 waits, so it is not taken, whatever the number, until it is woken.
const PASSES_OVER_THE_PARKED: &[Step] = &[
    Step::TakesFrom(0, Some(TaskId(0))),
    Step::Turns(TaskId(0), Serial::Parked),
    Step::TakesFrom(0, Some(TaskId(1))),
    Step::TakesFrom(0, Some(TaskId(2))),
    Step::TakesFrom(0, Some(TaskId(3))),
    Step::TakesFrom(0, None),
    Step::Turns(TaskId(1), Serial::Committed(1)),
    Step::Turns(TaskId(2), Serial::Committed(2)),
    Step::TakesFrom(2, Some(TaskId(0))),
];

/// x is 5, then 6, then 5. The attempt of task 0 is one on the first state.
const COMES_BACK: &[Step] = &[
    Step::Takes(Some(TaskId(0))),
    Step::Takes(Some(TaskId(1))),
    Step::Takes(Some(TaskId(2))),
    Step::Takes(Some(TaskId(3))),
    Step::Turns(TaskId(2), Serial::Committed(1)),
    Step::Turns(TaskId(3), Serial::Committed(2)),
    Step::Ends(TaskId(0), &[5, 0], (1, 0), Finish::Parked),
    Step::Says(Said::X((0, 5, 0), 2, (2, 5, 2))),
    Step::Says(Said::Parked(&[(TaskId(0), TxId(0))])),
];

/// What breaks a condition changes nothing, and so wakes nobody.
const STAYS_PARKED: &[Step] = &[
    Step::Takes(Some(TaskId(0))),
    Step::Turns(TaskId(0), Serial::Parked),
    Step::Takes(Some(TaskId(1))),
    Step::Turns(TaskId(1), Serial::Committed(1)),
    Step::Says(Said::X((0, 5, 0), 1, (1, 5, 0))),
    Step::Takes(Some(TaskId(2))),
    Step::Turns(TaskId(2), Serial::Committed(2)),
    Step::Takes(Some(TaskId(0))),
    Step::Turns(TaskId(0), Serial::Committed(3)),
    Step::Says(Said::X((0, 5, 0), 3, (3, 6, 2))),
];

const GIVES_UP: &[Step] = &[
    Step::GivesUp(TaskId(0), false),
    Step::Takes(Some(TaskId(0))),
    Step::GivesUp(TaskId(0), true),
    Step::GivesUp(TaskId(0), false),
    Step::Drains(0),
    Step::Says(Said::Now(1)),
    Step::Says(Said::Memory(&[(TaskId(0), TxId(0))])),
];

/// The book is of two increments. A catalogue with other runs declares the same, and is the book's own
/// once a third one was submitted.
const IS_FOR: &[Step] = &[
    Step::Shows(Look::IsFor(TWO, true, true)),
    Step::Shows(Look::IsFor(THREE, false, true)),
    Step::Shows(Look::IsFor(WAITING, false, false)),
    Step::Submits(TxId(0), Some(TaskId(2))),
    Step::Shows(Look::IsFor(TWO, false, true)),
    Step::Shows(Look::IsFor(THREE, false, true)),
    Step::Shows(Look::IsFor(TWO_AND_ONE, true, true)),
    Step::Drains(0),
    Step::Submits(TxId(0), None),
    Step::BeginsChapter,
    Step::Shows(Look::IsFor(NONE_AT_8, true, true)),
    Step::Shows(Look::IsFor(TWO_AND_ONE, false, true)),
];

/// A report copies the journal, which stays.
const REPORTS_TWICE: &[Step] = &[
    Step::Drains(0),
    Step::Says(Said::Entered(&[TaskId(1), TaskId(2), TaskId(0), TaskId(3)])),
    Step::Shows(Look::Journal(4)),
    Step::Says(Said::Entered(&[TaskId(1), TaskId(2), TaskId(0), TaskId(3)])),
    Step::Shows(Look::Journal(4)),
];

const TAKES: &[Step] = &[Step::Takes(Some(TaskId(0)))];

/// One task is parked and one given up; a submitted one wakes the first.
const LOOKED_AT: &[Step] = &[
    Step::Shows(Look::Stand([2, 0, 0, 0, 0])),
    Step::Shows(Look::Present(VarId(0), Some((5, 0)))),
    Step::Takes(Some(TaskId(0))),
    Step::Turns(TaskId(0), Serial::Parked),
    Step::Takes(Some(TaskId(1))),
    Step::Shows(Look::Stand([0, 1, 1, 0, 0])),
    Step::Shows(Look::Tasks(2)),
    Step::GivesUp(TaskId(1), true),
    Step::Shows(Look::Stand([0, 0, 1, 0, 1])),
    Step::Submits(TxId(1), Some(TaskId(2))),
    Step::Shows(Look::Stand([1, 0, 1, 0, 1])),
    Step::Takes(Some(TaskId(2))),
    Step::Turns(TaskId(2), Serial::Committed(1)),
    Step::Shows(Look::Stand([1, 0, 0, 1, 1])),
    Step::Shows(Look::Present(VarId(0), Some((6, 1)))),
    Step::Shows(Look::Present(VarId(1), None)),
    Step::Shows(Look::Grown(3, (TxId(1), 1))),
];

const ROWS: &[Row] = &[
    (
        "a drain keeps the journal short",
        THREE,
        None,
        What::Steps(DRAINS),
    ),
    (
        "a report tells the entry",
        ONE,
        None,
        What::Steps(TELLS_ENTRY),
    ),
    (
        "a commit wakes by what it changes",
        WAITING,
        None,
        What::Steps(WAKES),
    ),
    (
        "a task is taken from a number on",
        THREE,
        None,
        What::Steps(TAKES_FROM),
    ),
    (
        "a task is taken from a number on",
        THREE,
        None,
        What::Steps(TAKES_PAST_THE_LAST),
    ),
    (
        "a parked task is not taken by its number",
        WAITING,
        None,
        What::Steps(PASSES_OVER_THE_PARKED),
    ),
    (
        "a value that comes back validates",
        WAITING,
        None,
        What::Steps(COMES_BACK),
    ),
];

const MORE: &[Row] = &[
    (
        "a broken condition wakes nobody",
        STANDING,
        None,
        What::Steps(STAYS_PARKED),
    ),
    ("a task is given up once", TWO, None, What::Steps(GIVES_UP)),
    (
        "a book is for an equal catalogue",
        TWO,
        Some(1),
        What::Steps(IS_FOR),
    ),
    (
        "a report changes nothing",
        WAITING,
        None,
        What::Steps(REPORTS_TWICE),
    ),
    (
        "a book can be opened after another",
        TWO,
        None,
        What::Steps(TAKES),
    ),
    (
        "a book can be opened after another",
        TWO,
        None,
        What::Steps(TAKES),
    ),
    (
        "a book is looked at",
        WAITING_TWICE,
        Some(1),
        What::Steps(LOOKED_AT),
    ),
];

pub(crate) fn first_wrong(alloc: Global) -> Option<(usize, usize)> {
    first_wrong_row(alloc, ROWS)
}

pub(crate) fn first_wrong_of_more(alloc: Global) -> Option<(usize, usize)> {
    first_wrong_row(alloc, MORE)
}
