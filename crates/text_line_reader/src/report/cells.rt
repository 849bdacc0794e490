//! The lines of cells: read, and told.

ghost use Rattle.std.specs.Prelude.{◌≡◌, ◌<◌, ◌⊎◌, All, FitsSigned};
ghost use Rattle.std.specs.Prelude.{IfErr, IfOk, IfSome, OnOk, drop, length};
ghost use Rattle.std.specs.Int.{w64};
ghost use Rattle.txn_programs.specs.Listing.{spans};
ghost use Rattle.text_words.specs.Answers.{Gives};
ghost use Rattle.text_words.specs.declared.fault.ReadFault.TheVariants.{Shape, Name, Limit};
ghost use Rattle.text_line_reader.specs.Lines.{lines};
ghost use Rattle.text_line_reader.specs.Words.{is_bracketed};
ghost use Rattle.text_line_reader.specs.Rows.{next_by, all_by, each};
ghost use Rattle.text_line_reader.specs.View.{view_next};
ghost use Rattle.text_line_reader.specs.ReportReading.{cell_line_in, cells_at};
ghost use Rattle.text_line_reader.specs.ReportResolving.{cell_id, cells_known, is_written, cell_told, values_told};
ghost use Rattle.text_line_reader.specs.ReportView.{view_cell, view_cells};

use crate::cells::{cell_in, cell_named, is_bracketed};
use crate::report::raw::RawCell;
use crate::report::resolve::count_in;
use crate::{first_word, int_in, next_line, number_in};
use std::alloc::{AllocError, Global};
use text_words::ReadFault;
use txn::{Catalogue, Span, VarId};

// ---- read

#[tactic(auto, unfolding(crate::specs::ReportReading::cell_line_in))]
fn cell_line_in(text: &[u8]) -> Result<RawCell<'_>, ReadFault>
    ensures value { Gives view_cell result (cell_line_in text.now) }
    ensures kind { IfErr result (λ e. e ≡ Shape) }
{
    let (first, rest) = first_word(text)?;
    let (second, third) = first_word(rest)?;
    let (table, index) = cell_in(first)?;
    let value = int_in(second)?;
    let version = number_in(third)?;
    Ok(RawCell {
        table,
        index,
        value,
        version,
    })
}

/// The cell on the next line, if there is one.
fn cell_at(bytes: &[u8]) -> Result<Option<(RawCell<'_>, &[u8])>, ReadFault>
    ensures value { Gives (view_next view_cell) result (next_by is_bracketed cell_line_in (lines bytes.now)) }
    ensures shorter { IfOk result (λ r. IfSome r (λ x. length x.1.now < length bytes.now)) }
    ensures kind { IfErr result (λ e. e ≡ Shape) }
{
    match next_line(bytes) {
        Some((line, rest)) if is_bracketed(line) => {
            let cell = cell_line_in(line)?;
            Ok(Some((cell, rest)))
        }
        _ => Ok(None),
    }
}

/// The cells on the next lines.
fn all_cells(alloc: Global, bytes: &[u8]) -> Result<(Vec<RawCell<'_>>, &[u8]), ReadFault>
    ensures { Gives (λ x. (view_cells x.0.items, lines x.1.now)) result
        (all_by is_bracketed cell_line_in (lines bytes.now)) }
{
    let mut cells = Vec::new(alloc);
    let mut rest = bytes;
    'cells: while let Some((cell, after)) = cell_at(rest)? {
        cells.push(cell)?;
        rest = after;
    }
    Ok((cells, rest))
}

/// The cells on the next lines, where cells can be told.
#[tactic(auto, unfolding(crate::specs::ReportReading::cells_at))]
pub(crate) fn cells_at(
    alloc: Global,
    bytes: &[u8],
    cells: bool,
) -> Result<(Vec<RawCell<'_>>, &[u8]), ReadFault>
    ensures { Gives (λ x. (view_cells x.0.items, lines x.1.now)) result (cells_at cells (lines bytes.now)) }
{
    if cells {
        all_cells(alloc, bytes)
    } else {
        Ok((Vec::new(alloc), bytes))
    }
}

// ---- told

fn cell_id(catalogue: &Catalogue, tables: &[Span], c: RawCell<'_>) -> Option<VarId>
    requires { tables.now ≡ spans catalogue.now }
    ensures { result ≡ cell_id catalogue.now (view_cell c.entry) }
{
    cell_named(catalogue, tables, c.table, c.index)
}

/// Whether each line names a cell, which comes behind that of the line before.
pub(crate) fn cells_known(catalogue: &Catalogue, tables: &[Span], cells: &[RawCell<'_>]) -> bool
    requires { tables.now ≡ spans catalogue.now }
    ensures { result ≡ cells_known catalogue.now (view_cells cells.now) }
{
    let mut least: u64 = 0;
    'cells: for c in cells {
        match cell_id(catalogue, tables, *c) {
            Some(x) if x.0 as u64 >= least => least = x.0 as u64 + 1,
            _ => return false,
        }
    }
    true
}

/// A cell on a line was written.
fn is_written(version: u64) -> Result<u64, ReadFault>
    ensures value { Gives (λ x. x) result (is_written version) }
    ensures kind { IfErr result (λ e. e ≡ Limit) }
{
    if version == 0 {
        Err(ReadFault::Limit)
    } else {
        Ok(version)
    }
}

/// The cell, its value and its version.
#[tactic(auto, unfolding(crate::specs::ReportResolving::cell_told))]
fn cell_told(
    catalogue: &Catalogue,
    tables: &[Span],
    c: RawCell<'_>,
) -> Result<(VarId, (i64, u64)), ReadFault>
    requires { tables.now ≡ spans catalogue.now }
    ensures value { Gives (λ x. x) result (cell_told catalogue.now (view_cell c.entry)) }
    ensures kind { IfErr result (λ e. (e ≡ Name) ⊎ (e ≡ Limit)) }
{
    let x = cell_id(catalogue, tables, c).ok_or(ReadFault::Name)?;
    let value = c.value.number()?;
    let version = count_in(c.version)?;
    let written = is_written(version)?;
    Ok((x, (value, written)))
}

pub(crate) fn cells_told(
    alloc: Global,
    catalogue: &Catalogue,
    tables: &[Span],
    cells: &[RawCell<'_>],
) -> Result<Vec<(VarId, (i64, u64))>, ReadFault>
    requires { tables.now ≡ spans catalogue.now }
    ensures { Gives (λ x. x.items) result (each (cell_told catalogue.now) (view_cells cells.now)) }
{
    let mut made = Vec::with_capacity(alloc, cells.len())?;
    'cells: for c in cells {
        made.push(cell_told(catalogue, tables, *c)?)?;
    }
    Ok(made)
}

/// A cell that no entry wrote, with its initial value.
fn unwritten(first: &i64) -> (i64, u64)
    ensures value { result ≡ (first.now, 0) }
    ensures fits { FitsSigned w64 first.now }
{
    (*first, 0)
}

/// The values of the variables, which come first, and behind them those of all cells: as they are
/// told, or else as they were at first and with version 0.
pub(crate) fn values_told(
    catalogue: &Catalogue,
    variables: Vec<(i64, u64)>,
    cells: &[(VarId, (i64, u64))],
) -> Result<Vec<(i64, u64)>, AllocError>
    ensures value { IfOk result (λ v. v.items ≡ values_told catalogue.now variables.items cells.now) }
    // The initial values of cells are of 64 bits, as those that it copies are.
    ensures fit { OnOk result (All (FitsSigned w64) (drop (length catalogue.now.names) catalogue.now.initial)) }
{
    catalogue.rules();
    let count = catalogue.var_count();
    let begun = &catalogue.initial()[count..];
    let mut values = variables;
    let mut next = 0;
    'cells: for (i, first) in begun.iter().enumerate() {
        let mut value = unwritten(first);
        if next < cells.len() && cells[next].0.0 as usize == count + i {
            value = cells[next].1;
            next += 1;
        }
        values.push(value)?;
    }
    Ok(values)
}
