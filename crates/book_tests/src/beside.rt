//! Attempts on what passes read of the cells that the book publishes to.

ghost use Rattle.std.specs.Prelude.{◌≡◌, ◌<◌, length, All};

use crate::attempts::ends;
use crate::rows::{Row, What, first_wrong_row};
use crate::texts::TWO;
use book::{Book, Finish};
use cells::{Cells, Pass, Read};
use std::alloc::Global;
use txn::{Catalogue, TaskId, VarId};

const X: VarId = VarId(0);

/// Whether the pass, begun anew, reads this value of x.
fn reads(cells: &Cells, pass: &mut Pass, value: i64) -> bool
    requires own { pass.old.cells ≡ cells.now }
    requires exists { 0 < cells.now.variables }
    ensures own { pass.new.cells ≡ pass.old.cells }
{
    pass.begin(cells);
    pass.read(cells, X) == Read::Value(value)
}

/// Whether two tasks read 5, each on its own pass, and the first to finish commits.
fn two_attempts(
    alloc: Global,
    book: &mut Book<'_>,
    catalogue: &Catalogue,
    cells: &Cells,
    first: &mut Pass,
    second: &mut Pass,
) -> bool
    requires first { first.old.cells ≡ cells.now }
    requires second { second.old.cells ≡ cells.now }
    requires exists { 0 < cells.now.variables }
    ensures second { second.new.cells ≡ second.old.cells }
{
    book.take() == Some(TaskId(0))
        && book.take() == Some(TaskId(1))
        && reads(cells, first, 5)
        && reads(cells, second, 5)
        && ends(
            alloc,
            book,
            catalogue,
            TaskId(0),
            &[5],
            (1, 1),
            Finish::Committed(1),
        )
        && ends(
            alloc,
            book,
            catalogue,
            TaskId(1),
            &[5],
            (1, 1),
            Finish::Stale,
        )
}

/// Whether the second task reads on: its pass is stale, and after a begin x is 6.
fn one_more_attempt(
    alloc: Global,
    book: &mut Book<'_>,
    catalogue: &Catalogue,
    cells: &Cells,
    pass: &mut Pass,
) -> bool
    requires own { pass.old.cells ≡ cells.now }
    requires exists { 0 < cells.now.variables }
{
    pass.is_open()
        && pass.read(cells, X) == Read::Stale
        && reads(cells, pass, 6)
        && ends(
            alloc,
            book,
            catalogue,
            TaskId(1),
            &[6],
            (1, 1),
            Finish::Committed(2),
        )
        && ends(
            alloc,
            book,
            catalogue,
            TaskId(0),
            &[7],
            (1, 1),
            Finish::NotRunning,
        )
}

/// Whether a pass that is open is closed by a meeting.
fn meets(book: &mut Book<'_>, cells: &Cells, pass: &mut Pass) -> bool
    requires own { pass.old.cells ≡ cells.now }
    requires book { book.old.cells ≡ cells.now }
{
    pass.begin(cells);
    book.meet(pass);
    !pass.is_open()
}

/// Whether a pass meets the book, and then two passes are read beside it.
pub(crate) fn goes_beside(
    alloc: Global,
    book: &mut Book<'_>,
    catalogue: &Catalogue,
    cells: &Cells,
    passes: &mut Vec<Pass>,
) -> bool
    requires own { All (λ p. p.cells ≡ cells.now) passes.old.items }
    requires book { book.old.cells ≡ cells.now }
    requires variables { cells.now.variables ≡ length catalogue.now.initial }
{
    let (Some(mut met), Some(mut first), Some(mut second)) = (
        passes.pop(),
        passes.pop(),
        passes.pop(),
    ) else {
        return false;
    };
    catalogue.initial().len() == 1
        && meets(book, cells, &mut met)
        && two_attempts(alloc, book, catalogue, cells, &mut first, &mut second)
        && one_more_attempt(alloc, book, catalogue, cells, &mut second)
}

const ROWS: &[Row] = &[("a finish on old values is stale", TWO, None, What::Beside)];

pub(crate) fn first_wrong(alloc: Global) -> Option<(usize, usize)> {
    first_wrong_row(alloc, ROWS)
}
