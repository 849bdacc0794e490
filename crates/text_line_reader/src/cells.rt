//! Cells by the name of their table and their number in it.

ghost use Rattle.std.specs.Prelude.{◌≡◌, ◌+◌, ◌≤◌, IfErr, IfOk};
ghost use Rattle.std.specs.Str.Parse.{digits_value};
ghost use Rattle.txn_programs.specs.declared.limits.TheConstants.{MAX_VALUES};
ghost use Rattle.txn_programs.specs.Listing.{spans};
ghost use Rattle.text_words.specs.Answers.{Gives};
ghost use Rattle.text_words.specs.declared.fault.ReadFault.TheVariants.{Shape};
ghost use Rattle.text_line_reader.specs.Lines.{parted};
ghost use Rattle.text_line_reader.specs.Words.{given, is_bracketed, cell_in};
ghost use Rattle.text_line_reader.specs.CellNames.{cell_of, cell_named};
ghost use Rattle.text_line_reader.specs.Reports.{knows_cells};

use crate::lines::part;
use crate::numeral::Count;
use crate::words::{expect, name_in, number_in};
use std::alloc::{AllocError, Global};
use text_words::ReadFault;
use txn::{Catalogue, Span, VarId};

/// Whether cells can be told, and an entry can end `outside`: form 3 of a file alone can say the catalogue.
pub fn knows_cells(catalogue: &Catalogue) -> bool
    ensures { result ≡ knows_cells catalogue.now }
{
    catalogue.tables().len() > 0 || catalogue.most_parameters() > 0
}

/// Whether the text names a cell, and no variable.
#[tactic(auto, unfolding(crate::specs::Words::is_bracketed))]
pub fn is_bracketed(text: &[u8]) -> bool
    ensures { result ≡ is_bracketed text.now }
{
    part(text, b'[').is_some()
}

/// What stands before the first such byte, and what behind it; the byte has to be there.
fn parts(text: &[u8], sep: u8) -> Result<(&[u8], &[u8]), ReadFault>
    ensures value { Gives (λ x. (x.0.now, x.1.now)) result (given (parted sep text.now)) }
    ensures kind { IfErr result (λ e. e ≡ Shape) }
{
    part(text, sep).ok_or(ReadFault::Shape)
}

/// NAME[INDEX]: the name of a table, and a number in it.
#[tactic(auto, unfolding(crate::specs::Words::cell_in))]
pub fn cell_in(text: &[u8]) -> Result<(&str, Count<'_>), ReadFault>
    ensures value { Gives (λ x. (x.0.now, x.1.text.now)) result (cell_in text.now) }
    ensures kind { IfErr result (λ e. e ≡ Shape) }
{
    let (first, rest) = parts(text, b'[')?;
    let (second, nothing) = parts(rest, b']')?;
    expect(nothing, "")?;
    let name = name_in(first)?;
    let index = number_in(second)?;
    Ok((name, index))
}

/// The cells of each table.
pub fn spans_of(alloc: Global, catalogue: &Catalogue) -> Result<Vec<Span>, AllocError>
    ensures { IfOk result (λ v. v.items ≡ spans catalogue.now) }
{
    catalogue.rules();
    let tables = catalogue.tables();
    let mut made = Vec::with_capacity(alloc, tables.len())?;
    let mut first = catalogue.var_count() as u32;
    'tables: for (_, length) in tables {
        made.push(Span {
            first,
            length: *length,
        })?;
        first += *length;
    }
    Ok(made)
}

/// The cell of this number among these, if there is one.
pub fn cell_of(span: Span, index: Count<'_>) -> Option<VarId>
    requires { span.first + span.length ≤ MAX_VALUES }
    ensures { result ≡ cell_of span (digits_value 10 index.entry.text.now) }
{
    match index.below(span.length as u64) {
        Ok(number) => Some(VarId(span.first + number as u32)),
        Err(_) => None,
    }
}

/// The cell that is written so, if there is one; `tables` are the cells of each table of the catalogue.
#[tactic(auto, unfolding(crate::specs::CellNames::cell_named))]
pub fn cell_named(
    catalogue: &Catalogue,
    tables: &[Span],
    table: &str,
    index: Count<'_>,
) -> Option<VarId>
    requires { tables.now ≡ spans catalogue.now }
    ensures { result ≡ cell_named catalogue.now table.now index.entry.text.now }
{
    catalogue.rules();
    match catalogue.table_place(table) {
        Some(place) => cell_of(tables[place], index),
        None => None,
    }
}
