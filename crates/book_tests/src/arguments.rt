//! The arguments of a book's tasks.

use crate::looks::{Look, Said};
use crate::rows::{Row, Step, What, first_wrong_row};
use crate::texts::GIVING;
use book::{Serial, Standing};
use std::alloc::Global;
use txn::{Outcome, TaskId, TxId, VarId};

/// Each task has its own arguments, and its turn goes by them, in each chapter that it comes to.
const KEEP_THEIRS: &[Step] = &[
    Step::Shows(Look::Given(TaskId(0), &[5])),
    Step::Shows(Look::Given(TaskId(1), &[9, 2])),
    Step::Shows(Look::Given(TaskId(2), &[])),
    Step::Shows(Look::Given(TaskId(3), &[7, 3])),
    Step::Drains(0),
    Step::Shows(Look::Stand([0, 0, 2, 2, 0])),
    Step::Shows(Look::Task(TaskId(0), Standing::Done(1), Some(Outcome::Returned(5)))),
    // Two are left, in the places of others.
    Step::BeginsChapter,
    Step::Shows(Look::Given(TaskId(0), &[9, 2])),
    Step::Shows(Look::Given(TaskId(1), &[7, 3])),
    Step::Calls(TxId(1), &[3], Some(TaskId(2))),
    Step::Shows(Look::Given(TaskId(2), &[3])),
    Step::Drains(0),
    Step::Shows(Look::Task(TaskId(0), Standing::Parked, None)),
    Step::Shows(Look::Task(TaskId(1), Standing::Done(2), Some(Outcome::Returned(4)))),
    Step::Shows(Look::Task(TaskId(2), Standing::Done(1), Some(Outcome::Returned(8)))),
    Step::Shows(Look::Present(VarId(0), Some((5, 2)))),
    // One is left, where it was, and others are submitted behind it.
    Step::BeginsChapter,
    Step::Calls(TxId(1), &[4], Some(TaskId(1))),
    Step::Calls(TxId(2), &[1, 1], Some(TaskId(2))),
    Step::Calls(TxId(0), &[], Some(TaskId(3))),
    Step::Shows(Look::Given(TaskId(0), &[9, 2])),
    Step::Shows(Look::Given(TaskId(1), &[4])),
    Step::Shows(Look::Given(TaskId(2), &[1, 1])),
    Step::Shows(Look::Given(TaskId(3), &[])),
    Step::Drains(0),
    Step::Shows(Look::Task(TaskId(0), Standing::Done(2), Some(Outcome::Returned(7)))),
    Step::Shows(Look::Task(TaskId(2), Standing::Done(3), Some(Outcome::Returned(0)))),
    Step::Shows(Look::Present(VarId(0), Some((6, 3)))),
    Step::Says(Said::Entered(&[TaskId(1), TaskId(0), TaskId(2), TaskId(3)])),
];

/// A call that is submitted stands in the book's catalogue, and there alone.
const SUBMITTED: &[Step] = &[
    Step::Shows(Look::IsFor(GIVING, true, true)),
    Step::CallsRunning(TxId(2), &[-4, -6], Some(TaskId(4))),
    Step::Shows(Look::Given(TaskId(4), &[-4, -6])),
    Step::Shows(Look::GrownBy(TxId(2), &[-4, -6])),
    Step::Shows(Look::IsFor(GIVING, false, true)),
    Step::Turns(TaskId(4), Serial::Committed(1)),
    Step::Shows(Look::Present(VarId(0), Some((6, 1)))),
    Step::Shows(Look::Task(TaskId(4), Standing::Done(1), Some(Outcome::Returned(2)))),
    Step::Calls(TxId(1), &[1], None),
];

const ROWS: &[Row] = &[
    (
        "each task keeps its arguments",
        GIVING,
        Some(2),
        What::Steps(KEEP_THEIRS),
    ),
    (
        "a submitted call stands in the catalogue",
        GIVING,
        Some(1),
        What::Steps(SUBMITTED),
    ),
];

pub(crate) fn first_wrong(alloc: Global) -> Option<(usize, usize)> {
    first_wrong_row(alloc, ROWS)
}
