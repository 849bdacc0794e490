//! Chapters of a store's life, as its calls, its files and its reports tell them.

use crate::looks::Look;
use crate::rows::{At, How, Row, Step, first_wrong_row};
use crate::texts::{HOLDS, MIXED, NOTHING_READY, WAITS};
use book::Standing;
use std::alloc::Global;
use stm_store::Refused;
use txn::{Outcome, TxId};

/// A parked task comes over with its ticket, one that runs is ready in the next chapter, and a chapter with
/// nothing in it leaves all as it is.
const COMES_OVER: &[Step] = &[
    Step::Gives(3, 3),
    Step::Turns(Ok((At(0, 0, 0, 2), How::Returns(2, 7)))),
    Step::Turns(Ok((At(1, 0, 1, 3), How::Parks))),
    Step::Shows(Look::Report(
        "base 0\nn 0 0\nentry 1 2 inc returned 7\nentry 2 0 wait returned 7\nnow 2\nn 7 1\nparked 1 hold\nend\n",
    )),
    Step::Shows(Look::Outcome(0, Some(Outcome::Returned(7)))),
    Step::Shows(Look::Standing(0, Some(Standing::Done(2)))),
    Step::Shows(Look::Standing(1, Some(Standing::Parked))),
    Step::Shows(Look::Standing(2, Some(Standing::Done(1)))),
    Step::Calls(TxId(0), Err(Refused::NoRoom)),
    Step::BeginsChapter,
    Step::Shows(Look::Chapter(1)),
    Step::Shows(Look::Entered(2)),
    Step::Shows(Look::Spare(2)),
    Step::Shows(Look::Tasks(1)),
    Step::Shows(Look::Value("n", Some((7, 0)))),
    Step::Shows(Look::Standing(0, None)),
    Step::Shows(Look::Standing(1, Some(Standing::Parked))),
    Step::Shows(Look::Standing(2, None)),
    Step::Shows(Look::Outcome(0, None)),
    Step::GivesUp(2, Err(Refused::Gone)),
    Step::Claims(0, Err(Refused::Gone)),
    Step::Claims(1, Err(Refused::NotReady)),
    Step::Shows(Look::File(
        "(var n 7)\n(tx inc (set n (add n 7)) n)\n(tx more (set n (add n 93)) n)\n(tx wait (if (eq n 0) (retry) \
            (skip)) n)\n(tx hold (if (lt n 100) (retry) (skip)) n)\n(run hold 1)\n",
    )),
    Step::Shows(Look::Report("base 0\nn 7 0\nnow 0\nn 7 0\nparked 0 hold\nend\n")),
    Step::Shows(Look::Good),
    Step::BeginsChapter,
    Step::Shows(Look::Chapter(2)),
    Step::Shows(Look::Spare(2)),
    Step::Shows(Look::Standing(1, Some(Standing::Parked))),
    Step::Calls(TxId(1), Ok((At(3, 2, 1, 1), How::Returns(1, 100)))),
    Step::Turns(Ok((At(1, 2, 0, 3), How::Returns(2, 100)))),
    Step::Shows(Look::Outcome(1, Some(Outcome::Returned(100)))),
    Step::Shows(Look::Good),
    Step::Submits(TxId(0), Ok(4)),
    Step::Takes(Ok(At(4, 2, 2, 0))),
    Step::BeginsChapter,
    Step::Shows(Look::Entered(4)),
    Step::Shows(Look::Standing(4, Some(Standing::Ready))),
    Step::Claims(4, Ok(At(4, 3, 0, 0))),
    Step::BeginsChapter,
    Step::Turns(Ok((At(4, 4, 0, 0), How::Returns(1, 107)))),
    Step::BeginsChapter,
    Step::Shows(Look::Tasks(0)),
    Step::Shows(Look::Spare(3)),
    Step::Shows(Look::Entered(5)),
    Step::Turns(Err(Refused::NotReady)),
    Step::Shows(Look::Good),
];

/// All of the room is of tasks that wait: so it is in the next chapter too.
const FULL_OF_PARKED: &[Step] = &[
    Step::Calls(TxId(0), Ok((At(1, 0, 1, 0), How::Parks))),
    Step::Turns(Ok((At(0, 0, 0, 0), How::Parks))),
    Step::Calls(TxId(1), Err(Refused::NoRoom)),
    Step::Shows(Look::HasRoomNext(false)),
    Step::BeginsChapter,
    Step::Shows(Look::Spare(0)),
    Step::Calls(TxId(1), Err(Refused::NoRoom)),
    Step::TriesToCall(TxId(1), Err(Refused::NoRoom)),
    Step::TriesToCall(TxId(0), Err(Refused::Retries)),
    Step::GivesUp(0, Ok(())),
    Step::Calls(TxId(1), Err(Refused::NoRoom)),
    Step::Shows(Look::HasRoomNext(true)),
    Step::BeginsChapter,
    Step::Shows(Look::Spare(1)),
    Step::Shows(Look::Standing(0, None)),
    Step::Calls(TxId(1), Ok((At(2, 2, 1, 1), How::Returns(1, 1)))),
    Step::Turns(Ok((At(1, 2, 0, 0), How::Returns(2, 1)))),
    Step::Shows(Look::Good),
];

/// Tasks that wait for different variables stand between others that end, and are moved down: each wakes by what
/// it waits for, and has its ticket.
const MOVES_DOWN: &[Step] = &[
    Step::Gives(200, 83),
    Step::Shows(Look::Counts([0, 0, 7, 76, 0])),
    Step::BeginsChapter,
    Step::Shows(Look::Counts([0, 0, 7, 0, 0])),
    Step::Shows(Look::Standing(3, Some(Standing::Parked))),
    Step::Shows(Look::Standing(5, None)),
    Step::Calls(TxId(5), Ok((At(83, 1, 7, 5), How::Returns(1, 2)))),
    // b changed: the two that wait for b, and the two that wait for either.
    Step::Turns(Ok((At(6, 1, 2, 1), How::Returns(2, 2)))),
    Step::Turns(Ok((At(7, 1, 3, 1), How::Returns(3, 2)))),
    Step::Turns(Ok((At(78, 1, 4, 2), How::Returns(4, 2)))),
    Step::Turns(Ok((At(79, 1, 5, 2), How::Returns(5, 2)))),
    Step::Turns(Err(Refused::NotReady)),
    Step::BeginsChapter,
    Step::Shows(Look::Tasks(3)),
    Step::Calls(TxId(4), Ok((At(84, 2, 3, 4), How::Returns(1, 1)))),
    Step::Turns(Ok((At(3, 2, 0, 0), How::Returns(2, 1)))),
    Step::Turns(Ok((At(4, 2, 1, 0), How::Returns(3, 1)))),
    Step::Turns(Ok((At(82, 2, 2, 0), How::Returns(4, 1)))),
    Step::Turns(Err(Refused::NotReady)),
    Step::Shows(Look::Entered(85)),
    Step::Shows(Look::Good),
];

/// A program of no task: chapters pass, and nothing is ever ready.
const NOTHING_HAPPENS: &[Step] = &[
    Step::Turns(Err(Refused::NotReady)),
    Step::Takes(Err(Refused::NotReady)),
    Step::Calls(TxId(0), Err(Refused::NoRoom)),
    Step::BeginsChapter,
    Step::BeginsChapter,
    Step::Shows(Look::Chapter(2)),
    Step::Shows(Look::Spare(0)),
    Step::Shows(Look::Entered(0)),
    Step::Shows(Look::File("(tx t (skip) 0)\n")),
    Step::Shows(Look::Report("base 0\nnow 0\nend\n")),
    Step::Shows(Look::Good),
];

const ROWS: &[Row] = &[
    ("a parked task comes over", HOLDS, 0, COMES_OVER),
    (
        "a chapter may be full of what waits",
        WAITS,
        1,
        FULL_OF_PARKED,
    ),
    ("those that wait are moved down", MIXED, 1, MOVES_DOWN),
    (
        "chapters of nothing pass",
        NOTHING_READY,
        0,
        NOTHING_HAPPENS,
    ),
];

pub(crate) fn first_wrong(alloc: Global, workers: usize) -> Option<(usize, usize)> {
    first_wrong_row(alloc, workers, ROWS)
}
