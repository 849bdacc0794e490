//! What a book tells of its tasks, and a task of one's own.

use crate::looks::{Look, Said};
use crate::rows::{Row, Step, What, first_wrong_row};
use crate::texts::{ONE, TWO, WAITING, WAITING_TWICE};
use book::{Serial, Standing};
use std::alloc::Global;
use txn::{Outcome, TaskId, TxId};

/// Two increments and one that is submitted, which is claimed and has its turn first. Of an entry before
/// the base no outcome is told.
const TELLS: &[Step] = &[
    Step::Submits(TxId(0), Some(TaskId(2))),
    Step::Claims(TaskId(2), true),
    Step::Shows(Look::Task(TaskId(2), Standing::Running, None)),
    Step::Turns(TaskId(2), Serial::Committed(1)),
    Step::Shows(Look::Task(TaskId(2), Standing::Done(1), Some(Outcome::Returned(6)))),
    Step::Takes(Some(TaskId(0))),
    Step::Turns(TaskId(0), Serial::Committed(2)),
    Step::Shows(Look::Task(TaskId(0), Standing::Done(2), Some(Outcome::Returned(7)))),
    Step::Shows(Look::Task(TaskId(1), Standing::Ready, None)),
    Step::Checkpoints,
    Step::Shows(Look::Task(TaskId(2), Standing::Done(1), None)),
    Step::Claims(TaskId(1), true),
    Step::Claims(TaskId(1), false),
    Step::Withdraws(TaskId(1), false),
    Step::Shows(Look::Stand([0, 1, 0, 2, 0])),
    Step::Turns(TaskId(1), Serial::Committed(3)),
    Step::Shows(Look::Task(TaskId(1), Standing::Done(3), Some(Outcome::Returned(8)))),
    Step::Shows(Look::Task(TaskId(0), Standing::Done(2), None)),
];

/// A parked task is withdrawn once. What would have woken it does not, and it is listed as given up.
const WITHDRAWS: &[Step] = &[
    Step::Takes(Some(TaskId(0))),
    Step::Turns(TaskId(0), Serial::Parked),
    Step::Shows(Look::Task(TaskId(0), Standing::Parked, None)),
    Step::Claims(TaskId(0), false),
    Step::Withdraws(TaskId(0), true),
    Step::Withdraws(TaskId(0), false),
    Step::Shows(Look::Task(TaskId(0), Standing::GivenUp, None)),
    Step::Withdraws(TaskId(1), true),
    Step::Shows(Look::Stand([0, 0, 0, 0, 2])),
    Step::Submits(TxId(1), Some(TaskId(2))),
    Step::Takes(Some(TaskId(2))),
    Step::Turns(TaskId(2), Serial::Committed(1)),
    Step::Takes(None),
    Step::Withdraws(TaskId(2), false),
    Step::Says(Said::Memory(&[(TaskId(0), TxId(0)), (TaskId(1), TxId(0))])),
    Step::Says(Said::Parked(&[])),
];

/// A commit wakes what waits, and each is counted where it stands.
const COUNTS: &[Step] = &[
    Step::Shows(Look::Stand([4, 0, 0, 0, 0])),
    Step::Takes(Some(TaskId(0))),
    Step::Shows(Look::Stand([3, 1, 0, 0, 0])),
    Step::Turns(TaskId(0), Serial::Parked),
    Step::Shows(Look::Stand([3, 0, 1, 0, 0])),
    Step::Claims(TaskId(2), true),
    Step::Turns(TaskId(2), Serial::Committed(1)),
    Step::Shows(Look::Stand([3, 0, 0, 1, 0])),
    Step::Takes(Some(TaskId(0))),
    Step::GivesUp(TaskId(0), true),
    Step::Shows(Look::Stand([2, 0, 0, 1, 1])),
    Step::BeginsChapter,
    Step::Shows(Look::Stand([2, 0, 0, 0, 0])),
    Step::Shows(Look::Tasks(2)),
];

/// The task is done, and so it can't be given up.
const COMMITS_ONE: &[Step] = &[
    Step::Takes(Some(TaskId(0))),
    Step::Turns(TaskId(0), Serial::Committed(1)),
    Step::GivesUp(TaskId(0), false),
    Step::Says(Said::Entered(&[TaskId(0)])),
    Step::Says(Said::Memory(&[])),
];

const ROWS: &[Row] = &[
    (
        "a task of ones own is told",
        TWO,
        Some(1),
        What::Steps(TELLS),
    ),
    (
        "a withdrawn task is not woken",
        WAITING_TWICE,
        Some(1),
        What::Steps(WITHDRAWS),
    ),
    (
        "tasks are counted where they stand",
        WAITING,
        None,
        What::Steps(COUNTS),
    ),
    (
        "a task that is done is not given up",
        ONE,
        None,
        What::Steps(COMMITS_ONE),
    ),
];

pub(crate) fn first_wrong(alloc: Global) -> Option<(usize, usize)> {
    first_wrong_row(alloc, ROWS)
}
