//! A book in chapters.

use crate::looks::{Look, Said};
use crate::rows::{Row, Step, What, first_wrong_row};
use crate::texts::{HOLDING, MANY_CELLS, MIXED};
use book::{Serial, Standing};
use std::alloc::Global;
use txn::{Outcome, TaskId, TxId, VarId};

/// One task waits while three chapters end, one ends, and one runs while a chapter ends.
const COMES_OVER: &[Step] = &[
    Step::Drains(0),
    Step::Shows(Look::Task(TaskId(0), Standing::Done(2), Some(Outcome::Returned(7)))),
    Step::Shows(Look::Task(TaskId(1), Standing::Parked, None)),
    Step::Shows(Look::Spare(1)),
    Step::BeginsChapter,
    Step::Shows(Look::Tasks(1)),
    Step::Shows(Look::Spare(3)),
    Step::Shows(Look::EnteredInAll(2)),
    Step::Shows(Look::Journal(0)),
    Step::Shows(Look::Present(VarId(0), Some((7, 0)))),
    Step::Shows(Look::Task(TaskId(0), Standing::Parked, None)),
    Step::Says(Said::X((0, 7, 0), 0, (0, 7, 0))),
    Step::Says(Said::Parked(&[(TaskId(0), TxId(3))])),
    // An empty chapter.
    Step::BeginsChapter,
    Step::Shows(Look::Spare(3)),
    Step::Takes(None),
    Step::Submits(TxId(1), Some(TaskId(1))),
    Step::Takes(Some(TaskId(1))),
    Step::Turns(TaskId(1), Serial::Committed(1)),
    // What waited is woken, and runs while the chapter ends.
    Step::Takes(Some(TaskId(0))),
    Step::Submits(TxId(0), Some(TaskId(2))),
    Step::BeginsChapter,
    Step::Shows(Look::Stand([2, 0, 0, 0, 0])),
    Step::Shows(Look::EnteredInAll(3)),
    Step::Shows(Look::Runs(TaskId(0), TxId(3), true)),
    Step::Shows(Look::Runs(TaskId(1), TxId(0), true)),
    Step::Shows(Look::Given(TaskId(1), &[])),
    Step::Takes(Some(TaskId(0))),
    Step::Turns(TaskId(0), Serial::Committed(1)),
    Step::Takes(Some(TaskId(1))),
    Step::Turns(TaskId(1), Serial::Committed(2)),
    Step::Says(Said::X((0, 100, 0), 2, (2, 107, 2))),
    Step::BeginsChapter,
    Step::Shows(Look::Spare(4)),
    Step::Shows(Look::EnteredInAll(5)),
];

/// Those that wait are moved down, in their order, and wait for what they waited for.
const MOVED_DOWN: &[Step] = &[
    Step::Drains(7),
    Step::BeginsChapter,
    Step::Shows(Look::Stand([0, 0, 7, 0, 0])),
    Step::Submits(TxId(5), Some(TaskId(7))),
    Step::Takes(Some(TaskId(7))),
    Step::Turns(TaskId(7), Serial::Committed(1)),
    // b changed: the two that wait for b, and the two that wait for either.
    Step::Takes(Some(TaskId(2))),
    Step::Turns(TaskId(2), Serial::Committed(2)),
    Step::Takes(Some(TaskId(3))),
    Step::Turns(TaskId(3), Serial::Committed(3)),
    Step::Takes(Some(TaskId(4))),
    Step::Turns(TaskId(4), Serial::Committed(4)),
    Step::Takes(Some(TaskId(5))),
    Step::Turns(TaskId(5), Serial::Committed(5)),
    Step::Takes(None),
    Step::BeginsChapter,
    Step::Shows(Look::Stand([0, 0, 3, 0, 0])),
    Step::Submits(TxId(4), Some(TaskId(3))),
    Step::Drains(0),
    Step::Says(Said::Entered(&[TaskId(3), TaskId(0), TaskId(1), TaskId(2)])),
    Step::Shows(Look::Stand([0, 0, 0, 4, 0])),
];

/// As many tasks as there may be end with their chapter, and leave all their room.
pub(crate) const ROOM_AGAIN: &[Step] = &[
    Step::Submits(TxId(0), None),
    Step::Drains(0),
    Step::BeginsChapter,
    Step::Shows(Look::Tasks(0)),
    Step::Shows(Look::Spare(65536)),
    Step::Shows(Look::EnteredInAll(65536)),
    Step::Submits(TxId(0), Some(TaskId(0))),
    Step::Drains(0),
    Step::Says(Said::X((0, 65541, 0), 1, (1, 65542, 1))),
];

/// Those that wait in the first, the 64th, the 65th and the last place come over, and nothing else does.
pub(crate) const FAR_ONES: &[Step] = &[
    Step::Drains(65536),
    Step::Shows(Look::Stand([0, 0, 4, 65532, 0])),
    Step::Says(Said::Parked(&[
        (TaskId(0), TxId(0)),
        (TaskId(63), TxId(0)),
        (TaskId(64), TxId(0)),
        (TaskId(65535), TxId(0)),
    ])),
    Step::BeginsChapter,
    Step::Shows(Look::Stand([0, 0, 4, 0, 0])),
    Step::Shows(Look::Spare(65532)),
    Step::Says(Said::Parked(&[
        (TaskId(0), TxId(0)),
        (TaskId(1), TxId(0)),
        (TaskId(2), TxId(0)),
        (TaskId(3), TxId(0)),
    ])),
    // One that is ready, one that runs and one that is given up, behind those that wait.
    Step::Submits(TxId(1), Some(TaskId(4))),
    Step::SubmitsRunning(TxId(1), Some(TaskId(5))),
    Step::Submits(TxId(1), Some(TaskId(6))),
    Step::Withdraws(TaskId(6), true),
    Step::Withdraws(TaskId(1), true),
    Step::BeginsChapter,
    Step::Shows(Look::Stand([2, 0, 3, 0, 0])),
    Step::Shows(Look::Task(TaskId(2), Standing::Parked, None)),
    Step::Shows(Look::Runs(TaskId(3), TxId(1), true)),
    Step::Shows(Look::Task(TaskId(4), Standing::Ready, None)),
    Step::Submits(TxId(2), Some(TaskId(5))),
    Step::Drains(0),
    Step::Says(Said::Entered(&[
        TaskId(3),
        TaskId(4),
        TaskId(5),
        TaskId(0),
        TaskId(1),
        TaskId(2),
    ])),
    Step::BeginsChapter,
    Step::Shows(Look::Stand([0, 0, 0, 0, 0])),
    Step::Shows(Look::Spare(65536)),
];

/// The higher of two tasks is parked first. Both come over, and each is woken by its own cell.
const HIGHER_FIRST: &[Step] = &[
    Step::TakesFrom(5, Some(TaskId(5))),
    Step::Turns(TaskId(5), Serial::Parked),
    Step::TakesFrom(2, Some(TaskId(2))),
    Step::Turns(TaskId(2), Serial::Parked),
    Step::Drains(0),
    Step::Shows(Look::Stand([0, 0, 2, 4, 0])),
    Step::BeginsChapter,
    Step::Shows(Look::Stand([0, 0, 2, 0, 0])),
    Step::Calls(TxId(2), &[43], Some(TaskId(2))),
    Step::Drains(0),
    Step::Says(Said::Entered(&[TaskId(2), TaskId(1)])),
    Step::BeginsChapter,
    Step::Says(Said::Parked(&[(TaskId(0), TxId(0))])),
    Step::Calls(TxId(2), &[299], Some(TaskId(1))),
    Step::Drains(0),
    Step::Says(Said::Entered(&[TaskId(1), TaskId(0)])),
];

const ROWS: &[Row] = &[
    (
        "a parked task comes over",
        HOLDING,
        Some(1),
        What::Steps(COMES_OVER),
    ),
    (
        "those that wait are moved down",
        MIXED,
        None,
        What::Steps(MOVED_DOWN),
    ),
    (
        "those that wait for cells come over",
        MANY_CELLS,
        None,
        What::Steps(HIGHER_FIRST),
    ),
];

pub(crate) fn first_wrong(alloc: Global) -> Option<(usize, usize)> {
    first_wrong_row(alloc, ROWS)
}
