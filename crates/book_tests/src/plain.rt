//! Turns by plain evaluation.

use crate::looks::{Look, Said};
use crate::rows::{Row, Step, What, first_wrong_row};
use crate::texts::{BANK, STANDING};
use book::{NotPlain, Serial, Standing};
use std::alloc::Global;
use txn::{AlwaysId, Fault, Outcome, TaskId, VarId};

/// Each of these is running. One that retries has no plain turn, and nothing changes.
const PAID: &[Step] = &[
    Step::TurnsPlainly(TaskId(0), Err(NotPlain::NotRunning)),
    Step::Claims(TaskId(0), true),
    Step::Claims(TaskId(1), true),
    Step::Claims(TaskId(2), true),
    Step::Claims(TaskId(3), true),
    Step::Claims(TaskId(4), true),
    Step::TurnsPlainly(TaskId(0), Err(NotPlain::Retries)),
    Step::Shows(Look::Task(TaskId(0), Standing::Running, None)),
    Step::Turns(TaskId(0), Serial::Parked),
    // What is written last has the lower number.
    Step::TurnsPlainly(TaskId(1), Ok((Outcome::Returned(107), 1))),
    Step::Shows(Look::Present(VarId(0), Some((107, 1)))),
    Step::Shows(Look::Present(VarId(2), Some((100, 0)))),
    Step::Shows(Look::Present(VarId(3), Some((93, 1)))),
    // That woke the task that waits.
    Step::Shows(Look::Task(TaskId(0), Standing::Ready, None)),
    Step::TurnsPlainly(TaskId(2), Ok((Outcome::Returned(400), 2))),
    // A cell that is written twice is as it was.
    Step::TurnsPlainly(TaskId(3), Ok((Outcome::Returned(100), 3))),
    Step::Shows(Look::Present(VarId(2), Some((100, 0)))),
    // A fault after a write leaves all as it was.
    Step::TurnsPlainly(TaskId(4), Ok((Outcome::Thrown(Fault::Outside), 4))),
    Step::Shows(Look::Present(VarId(1), Some((100, 0)))),
    Step::Shows(Look::Task(
        TaskId(4),
        Standing::Done(4),
        Some(Outcome::Thrown(Fault::Outside)),
    )),
    Step::TurnsPlainly(TaskId(4), Err(NotPlain::NotRunning)),
    // What is left is ready, and the last cell is written twice.
    Step::Drains(0),
    Step::Shows(Look::Task(TaskId(0), Standing::Done(5), Some(Outcome::Returned(105)))),
    Step::Shows(Look::Present(VarId(3), Some((2, 5)))),
    Step::Says(Said::Entered(&[
        TaskId(1),
        TaskId(2),
        TaskId(3),
        TaskId(4),
        TaskId(0),
        TaskId(5),
    ])),
    Step::Shows(Look::Stand([0, 0, 0, 6, 0])),
];

/// Where no table is declared it is as where one is.
const WITHOUT_TABLES: &[Step] = &[
    Step::TurnsPlainly(TaskId(0), Err(NotPlain::NotRunning)),
    Step::Claims(TaskId(0), true),
    Step::TurnsPlainly(TaskId(0), Err(NotPlain::Retries)),
    Step::Claims(TaskId(1), true),
    Step::TurnsPlainly(
        TaskId(1),
        Ok((Outcome::Thrown(Fault::Broken(AlwaysId(0))), 1)),
    ),
    Step::Shows(Look::Present(VarId(0), Some((5, 0)))),
    Step::Claims(TaskId(2), true),
    Step::TurnsPlainly(TaskId(2), Ok((Outcome::Returned(0), 2))),
    Step::Shows(Look::Present(VarId(0), Some((6, 2)))),
    Step::TurnsPlainly(TaskId(0), Ok((Outcome::Returned(6), 3))),
];

/// A new chapter runs the same steps.
const IN_CHAPTERS: &[Step] = &[
    Step::Claims(TaskId(1), true),
    Step::TurnsPlainly(
        TaskId(1),
        Ok((Outcome::Thrown(Fault::Broken(AlwaysId(0))), 1)),
    ),
    Step::BeginsChapter,
    Step::Claims(TaskId(1), true),
    Step::TurnsPlainly(TaskId(1), Ok((Outcome::Returned(0), 1))),
    Step::Shows(Look::Present(VarId(0), Some((6, 1)))),
];

const ROWS: &[Row] = &[
    (
        "what a plain turn writes is committed",
        BANK,
        None,
        What::Steps(PAID),
    ),
    (
        "without tables turns are plain too",
        STANDING,
        None,
        What::Steps(WITHOUT_TABLES),
    ),
    (
        "a plain turn of a new chapter is of its task",
        STANDING,
        None,
        What::Steps(IN_CHAPTERS),
    ),
];

pub(crate) fn first_wrong(alloc: Global) -> Option<(usize, usize)> {
    first_wrong_row(alloc, ROWS)
}
