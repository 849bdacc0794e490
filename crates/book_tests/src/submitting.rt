//! Tasks that are submitted to an open book.

use crate::looks::{Look, Said};
use crate::rows::{Row, Step, What, first_wrong_row};
use crate::texts::{ONE, WAITING_TWICE};
use book::{Finish, Serial};
use std::alloc::Global;
use txn::{TaskId, TxId};

/// Two tasks more are submitted while the first runs, and a third has no room; the first of them is
/// evaluated outside the book.
const WHILE_OTHERS_RUN: &[Step] = &[
    Step::Takes(Some(TaskId(0))),
    Step::Shows(Look::Spare(2)),
    Step::Submits(TxId(0), Some(TaskId(1))),
    Step::Submits(TxId(0), Some(TaskId(2))),
    Step::Shows(Look::Spare(0)),
    Step::Submits(TxId(0), None),
    Step::Shows(Look::Tasks(3)),
    Step::Shows(Look::Runs(TaskId(2), TxId(0), true)),
    Step::Shows(Look::Runs(TaskId(2), TxId(1), false)),
    Step::Shows(Look::Given(TaskId(0), &[])),
    Step::Shows(Look::Given(TaskId(2), &[])),
    Step::Shows(Look::Runs(TaskId(3), TxId(0), false)),
    Step::Takes(Some(TaskId(1))),
    Step::Ends(TaskId(1), &[5], (1, 1), Finish::Committed(1)),
    Step::Ends(TaskId(0), &[5], (1, 1), Finish::Stale),
    Step::Drains(0),
    Step::Shows(Look::Journal(3)),
    Step::Says(Said::Now(3)),
    Step::Says(Said::Entered(&[TaskId(1), TaskId(0), TaskId(2)])),
    Step::Shows(Look::IsFor(ONE, false, true)),
];

/// A task that is submitted as running has its turn while one before it is ready; a second is given up, and a
/// third has no room.
const AS_RUNNING: &[Step] = &[
    Step::SubmitsRunning(TxId(0), Some(TaskId(1))),
    Step::Claims(TaskId(1), false),
    Step::Turns(TaskId(1), Serial::Committed(1)),
    Step::SubmitsRunning(TxId(0), Some(TaskId(2))),
    Step::SubmitsRunning(TxId(0), None),
    Step::Takes(Some(TaskId(0))),
    Step::Takes(None),
    Step::GivesUp(TaskId(2), true),
    Step::Turns(TaskId(0), Serial::Committed(2)),
    Step::Says(Said::Entered(&[TaskId(1), TaskId(0)])),
    Step::Says(Said::Memory(&[(TaskId(2), TxId(0))])),
];

/// Both tasks wait until x is not 5; a submitted one sets it to 6.
const WHILE_ALL_ARE_PARKED: &[Step] = &[
    Step::Takes(Some(TaskId(0))),
    Step::Turns(TaskId(0), Serial::Parked),
    Step::Takes(Some(TaskId(1))),
    Step::Turns(TaskId(1), Serial::Parked),
    Step::Takes(None),
    Step::Submits(TxId(1), Some(TaskId(2))),
    Step::Submits(TxId(0), Some(TaskId(3))),
    Step::Takes(Some(TaskId(2))),
    Step::Takes(Some(TaskId(3))),
    Step::Turns(TaskId(3), Serial::Parked),
    Step::Turns(TaskId(2), Serial::Committed(1)),
    Step::Takes(Some(TaskId(0))),
    Step::Turns(TaskId(0), Serial::Committed(2)),
    Step::Drains(0),
    Step::Says(Said::Now(4)),
    Step::Says(Said::Parked(&[])),
    Step::Says(Said::Entered(&[TaskId(2), TaskId(0), TaskId(1), TaskId(3)])),
];

const ROWS: &[Row] = &[
    (
        "tasks are submitted while others run",
        ONE,
        Some(2),
        What::Steps(WHILE_OTHERS_RUN),
    ),
    (
        "a task is submitted as running",
        ONE,
        Some(2),
        What::Steps(AS_RUNNING),
    ),
    (
        "a submitted task wakes those that wait",
        WAITING_TWICE,
        Some(2),
        What::Steps(WHILE_ALL_ARE_PARKED),
    ),
];

pub(crate) fn first_wrong(alloc: Global) -> Option<(usize, usize)> {
    first_wrong_row(alloc, ROWS)
}
