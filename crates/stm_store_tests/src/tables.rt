//! Cells of tables, as a store's calls, its file and its report tell them.

use crate::looks::Look;
use crate::rows::{At, How, Row, Step, first_wrong_row};
use crate::texts::TABLES;
use std::alloc::Global;
use txn::TxId;

/// Each cell is known by its name and by its numbers, and nothing else is.
const NAMED: &[Step] = &[
    Step::Shows(Look::Value("spare", Some((9, 0)))),
    Step::Shows(Look::Value("acct[0]", Some((100, 0)))),
    Step::Shows(Look::Value("acct[4]", Some((100, 0)))),
    Step::Shows(Look::Value("rate[0]", Some((5, 0)))),
    Step::Shows(Look::Value("rate[1]", Some((6, 0)))),
    Step::Shows(Look::Value("acct[5]", None)),
    Step::Shows(Look::Value("rate[2]", None)),
    Step::Shows(Look::Value("acct[04]", None)),
    Step::Shows(Look::Value("acct[-0]", None)),
    Step::Shows(Look::Value("acct[+1]", None)),
    Step::Shows(Look::Value("acct[ 1]", None)),
    Step::Shows(Look::Value("acct[]", None)),
    Step::Shows(Look::Value("acct[1", None)),
    Step::Shows(Look::Value("acct[1]]", None)),
    Step::Shows(Look::Value("acct", None)),
    Step::Shows(Look::Value("spare[0]", None)),
    Step::Shows(Look::Value("none[0]", None)),
    Step::Shows(Look::Value("acct[18446744073709551616]", None)),
    Step::Shows(Look::Cell(0, 4, Some((100, 0)))),
    Step::Shows(Look::Cell(0, 5, None)),
    Step::Shows(Look::Cell(0, 4294967295, None)),
    Step::Shows(Look::Cell(1, 1, Some((6, 0)))),
    Step::Shows(Look::Cell(1, 2, None)),
    Step::Shows(Look::Cell(2, 0, None)),
];

/// What was written is told with its entry's number, and the next chapter begins with it.
const WRITTEN: &[Step] = &[
    Step::Turns(Ok((At(0, 0, 0, 1), How::Parks))),
    Step::Shows(Look::Report("base 0\nspare 9 0\nnow 0\nspare 9 0\nparked 0 wait\nend\n")),
    Step::Calls(TxId(0), Ok((At(1, 0, 1, 0), How::Returns(1, 440)))),
    Step::Shows(Look::Value("acct[4]", Some((40, 1)))),
    Step::Shows(Look::Cell(1, 0, Some((-1, 1)))),
    Step::Shows(Look::Cell(1, 1, Some((6, 0)))),
    Step::Shows(Look::Cells(0, 0, &[100, 100, 100, 100])),
    Step::Shows(Look::Cells(0, 1, &[100, 100, 100, 40])),
    Step::Shows(Look::Cells(0, 4, &[40])),
    Step::Shows(Look::Cells(0, 5, &[])),
    Step::Shows(Look::Cells(0, 4294967295, &[])),
    Step::Shows(Look::Cells(1, 0, &[-1, 6])),
    Step::Shows(Look::Cells(2, 0, &[])),
    Step::Shows(Look::Values(&[9, 100, 100, 100, 100, 40, -1, 6])),
    Step::Turns(Ok((At(0, 0, 0, 1), How::Returns(2, -1)))),
    Step::Shows(Look::Report(
        "base 0\nspare 9 0\nentry 1 1 pay returned 440\nentry 2 0 wait returned -1\nnow 2\nspare 9 0\nacct[4] 40 \
            1\nrate[0] -1 1\nend\n",
    )),
    Step::Shows(Look::Good),
    Step::BeginsChapter,
    Step::Shows(Look::Value("acct[4]", Some((40, 0)))),
    Step::Shows(Look::File(
        "(stm 3)\n(var spare 9)\n(table acct 5 100 100 100 100 40)\n(table rate 2 -1 6)\n(tx pay () (seq (put acct 4 \
            (sub (at acct 4) 60)) (put rate 0 -1)) (sum acct))\n(tx wait () (if (lt (at rate 0) 0) (skip) (retry)) \
            (at rate 0))\n",
    )),
    Step::Shows(Look::Report("base 0\nspare 9 0\nnow 0\nspare 9 0\nend\n")),
    Step::Shows(Look::Good),
];

const ROWS: &[Row] = &[
    ("a cell is known by name and by number", TABLES, 0, NAMED),
    ("cells are told as variables are", TABLES, 1, WRITTEN),
];

pub(crate) fn first_wrong(alloc: Global, workers: usize) -> Option<(usize, usize)> {
    first_wrong_row(alloc, workers, ROWS)
}
