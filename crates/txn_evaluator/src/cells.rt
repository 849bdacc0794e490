//! The cells of a table in a state, and what all of them make.

ghost use Rattle.std.specs.Prelude.{◌≡◌, ◌<◌, ◌+◌, length, IfOk, Ok};
ghost use Rattle.txn_programs.specs.Arithmetic.{sum_of};
ghost use Rattle.txn_programs.specs.Meaning.{then_value, value};
ghost use Rattle.txn_programs.specs.Scope.{TableKnown};
ghost use Rattle.txn_programs.specs.Tables.{beginning, cell_of, joined};
ghost use Rattle.txn_programs.specs.Tree.{OfAll};

use txn_programs::{Fault, Fold, Span};

/// The sum of two numbers.
pub(crate) fn sum(x: i64, y: i64) -> Result<i64, Fault>
    ensures { result ≡ sum_of x y }
{
    x.checked_add(y).ok_or(Fault::Overflow)
}

/// Where in a state the cell with this number stands.
pub(crate) fn cell(table: Span, i: i64) -> Result<usize, Fault>
    ensures cell { result ≡ then_value (cell_of table i) (λ x. Ok x.0) }
    ensures inside { IfOk result (λ place. place < table.first + table.length) }
{
    if i < 0 || i >= table.length as i64 {
        Err(Fault::Outside)
    } else {
        Ok(table.first as usize + i as usize)
    }
}

/// What no cell at all makes.
fn beginning(fold: Fold) -> i64
    ensures { result ≡ beginning fold }
{
    match fold {
        Fold::Sum => 0,
        Fold::Min => i64::MAX,
        Fold::Max => i64::MIN,
    }
}

/// What some cells make, with one cell more.
fn join(fold: Fold, x: i64, y: i64) -> Result<i64, Fault>
    ensures { result ≡ joined fold x y }
{
    match fold {
        Fold::Sum => sum(x, y),
        Fold::Min => Ok(x.min(y)),
        Fold::Max => Ok(x.max(y)),
    }
}

/// What all cells make, one after another.
pub(crate) fn all_cells(fold: Fold, table: Span, state: &[i64]) -> Result<i64, Fault>
    requires { TableKnown (length state.now) table }
    ensures { result ≡ value (OfAll fold table) state.now }
{
    match fold {
        Fold::Sum => joined_cells(Fold::Sum, table, state),
        Fold::Min => joined_cells(Fold::Min, table, state),
        Fold::Max => joined_cells(Fold::Max, table, state),
    }
}

/// As `all_cells`. It is a loop of its own for each fold, so that none asks at each cell which fold it is.
#[inline(always)]
fn joined_cells(fold: Fold, table: Span, state: &[i64]) -> Result<i64, Fault>
    requires { TableKnown (length state.now) table }
    ensures { result ≡ value (OfAll fold table) state.now }
{
    let first = table.first as usize;
    let mut all = beginning(fold);
    for place in first..first + table.length as usize {
        all = join(fold, all, state[place])?;
    }
    Ok(all)
}
