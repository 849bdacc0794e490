//! Turns and calls, and what is told of the tasks that had them.

use crate::looks::Look;
use crate::rows::{At, How, Row, Step, first_wrong_row};
use crate::texts::{FAULTS, TWO, WAITS};
use book::Standing;
use std::alloc::Global;
use stm_store::Refused;
use txn::{AlwaysId, Fault, Outcome, TxId};

/// A call has its turn while both declared tasks are ready.
const CALLS_FIRST: &[Step] = &[
    Step::Calls(TxId(0), Ok((At(2, 0, 2, 0), How::Returns(1, 6)))),
    Step::Calls(TxId(0), Err(Refused::NoRoom)),
    Step::Turns(Ok((At(0, 0, 0, 0), How::Returns(2, 7)))),
    Step::Shows(Look::Outcome(2, Some(Outcome::Returned(6)))),
    Step::Shows(Look::Outcome(0, Some(Outcome::Returned(7)))),
    Step::Shows(Look::Outcome(1, None)),
    Step::Shows(Look::Standing(2, Some(Standing::Done(1)))),
    Step::Checkpoints,
    Step::Shows(Look::Outcome(2, None)),
    Step::Shows(Look::Standing(2, Some(Standing::Done(1)))),
    Step::Claims(1, Ok(At(1, 0, 1, 0))),
    Step::Claims(1, Err(Refused::NotReady)),
    Step::Claims(3, Err(Refused::Gone)),
    Step::Shows(Look::Standing(1, Some(Standing::Running))),
    Step::Shows(Look::WorkLeft),
    Step::Serves(At(1, 0, 1, 0), Ok(How::Returns(3, 8))),
    Step::Serves(At(1, 0, 1, 0), Err(Refused::NotRunning)),
    Step::Claims(1, Err(Refused::NotReady)),
    Step::GivesUp(1, Err(Refused::Gone)),
    Step::Serves(At(3, 0, 3, 0), Err(Refused::Gone)),
    Step::Turns(Err(Refused::NotReady)),
    Step::Shows(Look::Good),
];

/// A parked task is given up, once: what changes then wakes nobody.
const GIVES_UP_WHO_WAITS: &[Step] = &[
    Step::Turns(Ok((At(0, 0, 0, 0), How::Parks))),
    Step::Claims(0, Err(Refused::NotReady)),
    Step::Takes(Err(Refused::NotReady)),
    Step::Shows(Look::Standing(0, Some(Standing::Parked))),
    Step::GivesUp(0, Ok(())),
    Step::GivesUp(0, Err(Refused::Gone)),
    Step::Shows(Look::Standing(0, Some(Standing::GivenUp))),
    Step::Shows(Look::Report("base 0\nx 0 0\nnow 0\nx 0 0\nmemory 0 t\nend\n")),
    Step::Shows(Look::Good),
    Step::Calls(TxId(1), Ok((At(1, 0, 1, 1), How::Returns(1, 1)))),
    Step::Turns(Err(Refused::NotReady)),
    Step::Shows(Look::Good),
];

/// A call that parks is woken by another, and its turn tells its entry. A try leaves nothing behind.
const WAITS_AND_WAKES: &[Step] = &[
    Step::TriesToCall(TxId(0), Err(Refused::Retries)),
    Step::Shows(Look::Tasks(1)),
    Step::Calls(TxId(0), Ok((At(1, 0, 1, 0), How::Parks))),
    Step::Shows(Look::Outcome(1, None)),
    Step::TriesToCall(TxId(1), Ok((At(2, 0, 2, 1), How::Returns(1, 1)))),
    Step::Shows(Look::Standing(1, Some(Standing::Ready))),
    Step::TriesToCall(TxId(0), Ok((At(3, 0, 3, 0), How::Returns(2, 1)))),
    Step::TriesToCall(TxId(0), Err(Refused::NoRoom)),
    Step::Turns(Ok((At(0, 0, 0, 0), How::Returns(3, 1)))),
    Step::Turns(Ok((At(1, 0, 1, 0), How::Returns(4, 1)))),
    Step::Shows(Look::Outcome(1, Some(Outcome::Returned(1)))),
    Step::Shows(Look::Good),
];

/// Where there is no room a try of what retries still says so.
const RETRIES_WITHOUT_ROOM: &[Step] = &[
    Step::TriesToCall(TxId(0), Err(Refused::Retries)),
    Step::TriesToCall(TxId(1), Err(Refused::NoRoom)),
    Step::Calls(TxId(0), Err(Refused::NoRoom)),
    Step::Shows(Look::Standing(0, Some(Standing::Ready))),
];

/// Each way to throw is told as what it is.
const THROWS: &[Step] = &[
    Step::Calls(
        TxId(0),
        Ok((At(0, 0, 0, 0), How::Throws(1, Fault::User(8)))),
    ),
    Step::TriesToCall(
        TxId(1),
        Ok((At(1, 0, 1, 1), How::Throws(2, Fault::Broken(AlwaysId(0))))),
    ),
    Step::Submits(TxId(2), Ok(2)),
    Step::Turns(Ok((At(2, 0, 2, 2), How::Throws(3, Fault::Overflow)))),
    Step::Calls(TxId(3), Ok((At(3, 0, 3, 3), How::Returns(4, 9)))),
    Step::Shows(Look::Outcome(0, Some(Outcome::Thrown(Fault::User(8))))),
    Step::Shows(Look::Outcome(3, Some(Outcome::Returned(9)))),
    Step::Shows(Look::Value("n", Some((9, 4)))),
    Step::Shows(Look::Value("m", None)),
    Step::Shows(Look::Values(&[9])),
    Step::Shows(Look::Good),
];

/// As many turns as were asked for, or until none is ready.
const GIVES: &[Step] = &[
    Step::Gives(0, 0),
    Step::Gives(1, 1),
    Step::Submits(TxId(0), Ok(2)),
    Step::Gives(9, 2),
    Step::Gives(9, 0),
    Step::Shows(Look::Outcome(2, Some(Outcome::Returned(8)))),
];

/// A job has its turn where its task runs, in the chapter in which it was taken.
const SERVES_JOBS: &[Step] = &[
    Step::Serves(At(0, 0, 0, 0), Err(Refused::NotRunning)),
    Step::Takes(Ok(At(0, 0, 0, 0))),
    Step::Serves(At(1, 0, 0, 0), Err(Refused::Gone)),
    Step::Serves(At(0, 1, 0, 0), Err(Refused::Gone)),
    Step::Serves(At(0, 0, 0, 1), Err(Refused::Gone)),
    Step::Serves(At(0, 0, 7, 0), Err(Refused::Gone)),
    Step::Serves(At(0, 0, 0, 0), Ok(How::Returns(1, 6))),
    Step::Serves(At(0, 0, 0, 0), Err(Refused::NotRunning)),
    Step::Claims(1, Ok(At(1, 0, 1, 0))),
    Step::BeginsChapter,
    Step::Serves(At(1, 0, 1, 0), Err(Refused::Gone)),
    Step::Serves(At(0, 0, 0, 0), Err(Refused::Gone)),
    Step::Claims(1, Ok(At(1, 1, 0, 0))),
    Step::Serves(At(1, 0, 0, 0), Err(Refused::Gone)),
    Step::Serves(At(1, 1, 0, 0), Ok(How::Returns(1, 7))),
    Step::Shows(Look::Good),
];

/// What retries is parked.
const SERVES_ONE_THAT_RETRIES: &[Step] = &[
    Step::Takes(Ok(At(0, 0, 0, 0))),
    Step::Serves(At(0, 0, 0, 0), Ok(How::Parks)),
    Step::Shows(Look::Standing(0, Some(Standing::Parked))),
    Step::Serves(At(0, 0, 0, 0), Err(Refused::NotRunning)),
];

const ROWS: &[Row] = &[
    ("a call has its turn first", TWO, 1, CALLS_FIRST),
    (
        "a parked task is given up once",
        WAITS,
        1,
        GIVES_UP_WHO_WAITS,
    ),
    ("a call that waits is woken", WAITS, 3, WAITS_AND_WAKES),
    (
        "a try that retries needs no room",
        WAITS,
        0,
        RETRIES_WITHOUT_ROOM,
    ),
    ("what is thrown is told", FAULTS, 4, THROWS),
    ("turns are given until none is ready", TWO, 1, GIVES),
    ("a job has its turn", TWO, 1, SERVES_JOBS),
    (
        "a job that retries waits",
        WAITS,
        1,
        SERVES_ONE_THAT_RETRIES,
    ),
];

pub(crate) fn first_wrong(alloc: Global, workers: usize) -> Option<(usize, usize)> {
    first_wrong_row(alloc, workers, ROWS)
}
