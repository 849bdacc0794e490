//! Tasks that are submitted, taken and given up.

use crate::looks::Look;
use crate::rows::{At, How, Row, Step, first_wrong_row};
use crate::texts::TWO;
use book::Standing;
use std::alloc::Global;
use stm_store::Refused;
use txn::TxId;

/// A task that was given up is over, whether it ran or was ready.
const GIVES_UP: &[Step] = &[
    Step::GivesUp(9, Err(Refused::Gone)),
    Step::Takes(Ok(At(0, 0, 0, 0))),
    Step::GivesUp(0, Ok(())),
    Step::GivesUp(0, Err(Refused::Gone)),
    Step::Serves(At(0, 0, 0, 0), Err(Refused::NotRunning)),
    Step::GivesUp(1, Ok(())),
    Step::GivesUp(1, Err(Refused::Gone)),
    Step::Takes(Err(Refused::NotReady)),
    Step::Claims(1, Err(Refused::NotReady)),
    Step::Submits(TxId(0), Ok(2)),
    Step::Submits(TxId(0), Err(Refused::NoRoom)),
    Step::Claims(2, Ok(At(2, 0, 2, 0))),
    Step::Shows(Look::Counts([0, 1, 0, 0, 2])),
    Step::Serves(At(2, 0, 2, 0), Ok(How::Returns(1, 6))),
    Step::GivesUp(2, Err(Refused::Gone)),
    Step::Shows(Look::Standing(0, Some(Standing::GivenUp))),
    Step::Shows(Look::Report(
        "base 0\nn 5 0\nentry 1 2 inc returned 6\nnow 1\nn 6 1\nmemory 0 inc\nmemory 1 inc\nend\n",
    )),
    Step::Shows(Look::Good),
    Step::BeginsChapter,
    Step::Shows(Look::Tasks(0)),
    Step::Shows(Look::Spare(3)),
    Step::Shows(Look::Standing(1, None)),
    Step::Claims(1, Err(Refused::Gone)),
    Step::GivesUp(1, Err(Refused::Gone)),
    Step::Serves(At(2, 0, 2, 0), Err(Refused::Gone)),
    Step::Submits(TxId(0), Ok(3)),
    Step::Takes(Ok(At(3, 1, 0, 0))),
];

const ROWS: &[Row] = &[("what is given up is over", TWO, 1, GIVES_UP)];

pub(crate) fn first_wrong(alloc: Global, workers: usize) -> Option<(usize, usize)> {
    first_wrong_row(alloc, workers, ROWS)
}
