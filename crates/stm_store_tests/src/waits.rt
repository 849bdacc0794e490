//! Tasks that wait for cells: each is woken by what it read, and by no other cell, also where these share a set by
//! the low bits of their numbers.

use crate::looks::Look;
use crate::rows::{At, How, Row, Step, first_wrong_row};
use book::Standing;
use std::alloc::Global;
use txn::TxId;

/// A task waits for the cell 300, whose number has the same low bits as 44 and 556. The transactions: the one that
/// waits, three that write 556, 44, and 0 into 300, and the one that it waits for.
const SHARED: &str =
    "(stm 3)(table t 600 0)(tx wait () (if (eq (at t 300) 0) (retry) (skip)) (at t 300))(tx far () (put t 556 1) \
        0)(tx near () (put t 44 1) 0)(tx same () (put t 300 0) 0)(tx own () (put t 300 7) 0)(run wait 1)";

const IS_PARKED: Step = Step::Shows(Look::Standing(0, Some(Standing::Parked)));

const IS_READY: Step = Step::Shows(Look::Standing(0, Some(Standing::Ready)));

const WOKEN_BY_ITS_OWN: &[Step] = &[
    Step::Turns(Ok((At(0, 0, 0, 0), How::Parks))),
    Step::Calls(TxId(1), Ok((At(1, 0, 1, 1), How::Returns(1, 0)))),
    IS_PARKED,
    Step::Calls(TxId(2), Ok((At(2, 0, 2, 2), How::Returns(2, 0)))),
    IS_PARKED,
    Step::Calls(TxId(3), Ok((At(3, 0, 3, 3), How::Returns(3, 0)))),
    IS_PARKED,
    Step::Calls(TxId(4), Ok((At(4, 0, 4, 4), How::Returns(4, 0)))),
    IS_READY,
    Step::Turns(Ok((At(0, 0, 0, 0), How::Returns(5, 7)))),
    Step::Shows(Look::Good),
];

/// The task waits on in the next chapter.
const ACROSS_CHAPTERS: &[Step] = &[
    Step::Turns(Ok((At(0, 0, 0, 0), How::Parks))),
    Step::BeginsChapter,
    IS_PARKED,
    Step::Calls(TxId(1), Ok((At(1, 1, 1, 1), How::Returns(1, 0)))),
    IS_PARKED,
    Step::Calls(TxId(4), Ok((At(2, 1, 2, 4), How::Returns(2, 0)))),
    IS_READY,
    Step::Turns(Ok((At(0, 1, 0, 0), How::Returns(3, 7)))),
    Step::Shows(Look::Good),
];

/// One task waits for 44, and one for 300 and 556: all three cells have one set. The transactions: these two, and
/// those that write 300 and 44.
const TWICE: &str =
    "(stm 3)(table t 600 0)(tx one () (if (eq (at t 44) 0) (retry) (skip)) (at t 44))(tx two () (if (eq (add (at t \
        300) (at t 556)) 0) (retry) (skip)) 2)(tx far () (put t 300 7) 0)(tx near () (put t 44 9) 0)(run one 1)(run \
        two 1)";

const WOKEN_APART: &[Step] = &[
    Step::Turns(Ok((At(0, 0, 0, 0), How::Parks))),
    Step::Turns(Ok((At(1, 0, 1, 1), How::Parks))),
    Step::Calls(TxId(2), Ok((At(2, 0, 2, 2), How::Returns(1, 0)))),
    IS_PARKED,
    Step::Shows(Look::Standing(1, Some(Standing::Ready))),
    Step::Turns(Ok((At(1, 0, 1, 1), How::Returns(2, 2)))),
    Step::Calls(TxId(3), Ok((At(3, 0, 3, 3), How::Returns(3, 0)))),
    IS_READY,
    Step::Turns(Ok((At(0, 0, 0, 0), How::Returns(4, 9)))),
    Step::Shows(Look::Good),
];

/// The last cell of 255, 256 and 257 is waited for. The transactions: the one that waits, and those that write the
/// first cell and the last.
const LAST_OF_255: &str =
    "(stm 3)(table t 255 0)(tx wait () (if (eq (at t 254) 0) (retry) (skip)) (at t 254))(tx first () (put t 0 1) \
        0)(tx last () (put t 254 7) 0)(run wait 1)";

const LAST_OF_256: &str =
    "(stm 3)(table t 256 0)(tx wait () (if (eq (at t 255) 0) (retry) (skip)) (at t 255))(tx first () (put t 0 1) \
        0)(tx last () (put t 255 7) 0)(run wait 1)";

const LAST_OF_257: &str =
    "(stm 3)(table t 257 0)(tx wait () (if (eq (at t 256) 0) (retry) (skip)) (at t 256))(tx first () (put t 0 1) \
        0)(tx last () (put t 256 7) 0)(run wait 1)";

const WOKEN_BY_THE_LAST: &[Step] = &[
    Step::Turns(Ok((At(0, 0, 0, 0), How::Parks))),
    Step::Calls(TxId(1), Ok((At(1, 0, 1, 1), How::Returns(1, 0)))),
    IS_PARKED,
    Step::Calls(TxId(2), Ok((At(2, 0, 2, 2), How::Returns(2, 0)))),
    IS_READY,
    Step::Turns(Ok((At(0, 0, 0, 0), How::Returns(3, 7)))),
    Step::Shows(Look::Good),
];

/// A task waits for the sum of 300 cells. The transactions: the one that waits, and one that writes the last cell.
const SUM: &str =
    "(stm 3)(table t 300 0)(tx wait () (if (eq (sum t) 0) (retry) (skip)) (sum t))(tx put () (put t 299 5) 0)(run \
        wait 1)";

const WOKEN_BY_ANY: &[Step] = &[
    Step::Turns(Ok((At(0, 0, 0, 0), How::Parks))),
    Step::Calls(TxId(1), Ok((At(1, 0, 1, 1), How::Returns(1, 0)))),
    IS_READY,
    Step::Turns(Ok((At(0, 0, 0, 0), How::Returns(2, 5)))),
    Step::Shows(Look::Good),
];

const ROWS: &[Row] = &[
    (
        "a task is woken by its own cell",
        SHARED,
        4,
        WOKEN_BY_ITS_OWN,
    ),
    (
        "a task waits for a cell across chapters",
        SHARED,
        2,
        ACROSS_CHAPTERS,
    ),
    ("tasks of one set are woken apart", TWICE, 2, WOKEN_APART),
    (
        "a task is woken by the last cell",
        LAST_OF_255,
        2,
        WOKEN_BY_THE_LAST,
    ),
    (
        "a task is woken by the last cell",
        LAST_OF_256,
        2,
        WOKEN_BY_THE_LAST,
    ),
    (
        "a task is woken by the last cell",
        LAST_OF_257,
        2,
        WOKEN_BY_THE_LAST,
    ),
    ("a task is woken by the last cell", SUM, 1, WOKEN_BY_ANY),
];

pub(crate) fn first_wrong(alloc: Global, workers: usize) -> Option<(usize, usize)> {
    first_wrong_row(alloc, workers, ROWS)
}
