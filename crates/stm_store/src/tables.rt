//! The cells of tables: by the place of their table and their number, or by name.

ghost use Rattle.std.specs.Prelude.{◌≡◌, ◌<◌, ◌≤◌, ◌+◌, IfSome, Some, drop, length};
ghost use Rattle.txn_programs.specs.declared.limits.TheConstants.{MAX_VALUES};
ghost use Rattle.txn_programs.specs.Listing.{spans};
ghost use Rattle.text_line_reader.specs.CellNames.{cell_at, cell_named};
ghost use Rattle.stm_store.specs.Naming.{span_at, value_named};
ghost use Rattle.stm_store.specs.Telling.{IsCopiedFrom};

use text_line_reader::{Count, cell_in, cell_of};
use txn::{Catalogue, Span, VarId};

/// The cells of the table at a place: none where there is no such table.
pub(crate) fn span_at(catalogue: &Catalogue, table: usize) -> Span
    ensures value { result ≡ span_at catalogue.now table }
    ensures inside { result.first + result.length ≤ length catalogue.now.initial }
    ensures few { result.first + result.length ≤ MAX_VALUES }
{
    catalogue.rules();
    let tables = catalogue.tables();
    let mut first = catalogue.var_count() as u32;
    let mut before = table;
    'tables: for (_, length) in tables {
        if before == 0 {
            return Span {
                first,
                length: *length,
            };
        }
        before -= 1;
        first += *length;
    }
    Span {
        first: 0,
        length: 0,
    }
}

/// The cell of this number in the table at a place, if there is one.
pub(crate) fn cell_at(catalogue: &Catalogue, table: usize, index: u32) -> Option<VarId>
    ensures id { result ≡ cell_at (spans catalogue.now) (Some table) index }
    ensures inside { IfSome result (λ x. x.0 < length catalogue.now.initial) }
{
    let span = span_at(catalogue, table);
    if index < span.length {
        Some(VarId(span.first + index))
    } else {
        None
    }
}

/// The cell that is written so, if there is one.
#[tactic(auto, unfolding(text_line_reader::specs::CellNames::cell_named))]
fn named_cell(catalogue: &Catalogue, table: &str, index: Count<'_>) -> Option<VarId>
    ensures id { result ≡ cell_named catalogue.now table.now index.entry.text.now }
    ensures inside { IfSome result (λ x. x.0 < length catalogue.now.initial) }
{
    let place = catalogue.table_place(table)?;
    cell_of(span_at(catalogue, place), index)
}

/// The variable of a name, or the cell that is written so, if there is one.
pub(crate) fn named(catalogue: &Catalogue, name: &str) -> Option<VarId>
    ensures id { result ≡ value_named catalogue.now name.now }
    ensures inside { IfSome result (λ x. x.0 < length catalogue.now.initial) }
{
    catalogue.rules();
    match cell_in(name.as_bytes()) {
        Ok((table, index)) => named_cell(catalogue, table, index),
        Err(_) => catalogue.var_id(name),
    }
}

/// Copies the values from this one on to the begin of the room, as many as there are and there is room for.
pub(crate) fn copy_from(values: &[i64], from: usize, room: &mut [i64]) -> usize
    ensures { IsCopiedFrom (drop from values.now) room.old result room.new }
{
    let from = from.min(values.len());
    let rest = &values[from..];
    let count = rest.len().min(room.len());
    room[..count].copy_from_slice(&rest[..count]);
    count
}
