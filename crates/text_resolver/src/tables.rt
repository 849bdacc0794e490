//! Tables: their names, what their cells are at first, and which variables those are.

ghost use Rattle.std.specs.Prelude.{◌≡◌, IfErr, [], ◌∷◌, map};
ghost use Rattle.txn_programs.specs.Listing.{values_of, table_of as listed};
ghost use Rattle.text_words.specs.Answers.{Gives};
ghost use Rattle.text_words.specs.Bytes.{int_value};
ghost use Rattle.text_words.specs.Numbers.{number_of};
ghost use Rattle.text_words.specs.declared.fault.ReadFault.TheVariants.{Name, Limit};
ghost use Rattle.text_grammar.specs.Resolving.{declared_after, table_name, table_in, table_of, numbers_in};
ghost use Rattle.text_grammar.specs.Resolving.{span_behind, spans_in, each};
ghost use Rattle.text_grammar.specs.View.{view_numbers, view_table as view_raw, view_tables};
ghost use Rattle.text_resolver.specs.Texts.{texts};
ghost use Rattle.text_resolver.specs.Scopes.{view_scope};
ghost use Rattle.text_resolver.specs.Parts.{view_table};

use crate::names::{Scope, declare, place_of};
use indexmap::IndexSet;
use std::alloc::Global;
use text_grammar::file::RawTable;
use text_words::ReadFault;
use text_words::numeral::Numeral;
use txn_programs::{Cells, Span, Table};

/// Adds the names of tables, in their order.
pub(crate) fn declare_tables<'a>(
    names: &mut IndexSet<&'a str>,
    raw: &[RawTable<'a>],
) -> Result<(), ReadFault>
    ensures { Gives (λ _. texts names.new.keys) result
        (declared_after (texts names.old.keys) (map table_name (view_tables raw.now))) }
{
    'tables: for table in raw {
        declare(names, table.name)?;
    }
    Ok(())
}

/// The names of tables, in their order. It fails by `Name` where one comes twice.
pub fn table_names<'a>(alloc: Global, raw: &[RawTable<'a>]) -> Result<IndexSet<&'a str>, ReadFault>
    ensures { Gives (λ names. texts names.keys) result (declared_after [] (map table_name (view_tables raw.now))) }
{
    let mut names = IndexSet::new(alloc);
    declare_tables(&mut names, raw).and(Ok(names))
}

/// The cells of a declared table. It fails by `Name` where none of this name is declared.
#[tactic(auto, unfolding(text_grammar::specs::Resolving::table_in))]
pub fn table(scope: &Scope<'_, '_>, name: &str) -> Result<Span, ReadFault>
    ensures value { Gives (λ x. x) result (table_in (view_scope scope.now) name.now) }
    ensures kind { IfErr result (λ e. e ≡ Name) }
{
    let place = place_of(scope.tables, name).ok_or(ReadFault::Name)?;
    let no_cells = Span {
        first: 0,
        length: 0,
    };
    Ok(scope.spans.get(place).copied().unwrap_or(no_cells))
}

/// Numbers of the machine. It fails by `Limit` where 64 signed bits have no room for one.
fn numbers(alloc: Global, first: Numeral<'_>, others: &[Numeral<'_>]) -> Result<Vec<i64>, ReadFault>
    ensures { Gives (λ made. made.items) result
        (each number_of (int_value first.entry.text.now ∷ view_numbers others.now)) }
{
    let mut made = Vec::with_capacity(alloc, others.len() + 1)?;
    let number = first.number()?;
    made.push(number)?;
    'others: for other in others {
        let number = other.number()?;
        made.push(number)?;
    }
    Ok(made)
}

/// What so many cells are at first: all the first number where there are no others. It fails by `Limit` where there are
/// others, and not a number for each cell.
fn cells(
    alloc: Global,
    count: u32,
    first: Numeral<'_>,
    others: &[Numeral<'_>],
) -> Result<Cells, ReadFault>
    ensures { Gives values_of result
        (numbers_in count (int_value first.entry.text.now) (view_numbers others.now)) }
{
    if others.is_empty() {
        let number = first.number()?;
        return Ok(Cells::Same(count, number));
    }
    let made = numbers(alloc, first, others)?;
    if made.len() != count as usize {
        return Err(ReadFault::Limit);
    }
    Ok(Cells::Each(made))
}

/// A table's name and cells.
fn table_of(alloc: Global, raw: &RawTable<'_>) -> Result<Table, ReadFault>
    ensures { Gives view_table result (table_of (view_raw raw.now)) }
{
    let count = raw.count.count()?;
    let cells = cells(alloc, count, raw.first, &raw.others)?;
    let name = String::from_str(alloc, raw.name)?;
    Ok(Table { name, cells })
}

/// The tables, each with its cells. It fails by `Limit` where the machine has no room for a number, or where a table
/// has several numbers, and not one for each cell.
pub fn tables(alloc: Global, raw: &[RawTable<'_>]) -> Result<Vec<Table>, ReadFault>
    ensures { Gives (λ made. map view_table made.items) result (each table_of (view_tables raw.now)) }
{
    let mut made = Vec::with_capacity(alloc, raw.len())?;
    'tables: for one in raw {
        let table = table_of(alloc, one)?;
        made.push(table)?;
    }
    Ok(made)
}

/// So many cells behind the first variables. It fails by `Limit` where 32 bits have no room for their ids.
fn span_behind(first: usize, count: usize) -> Result<Span, ReadFault>
    ensures value { Gives (λ x. x) result (span_behind first count) }
    ensures kind { IfErr result (λ e. e ≡ Limit) }
{
    let behind = first.checked_add(count).ok_or(ReadFault::Limit)?;
    u32::try_from(behind).ok().ok_or(ReadFault::Limit)?;
    Ok(Span {
        first: first as u32,
        length: count as u32,
    })
}

/// The cells of each table as variables behind the first ones, table after table. It fails by `Limit` where 32 bits
/// have no room for their ids.
pub fn spans(alloc: Global, first: usize, tables: &[Table]) -> Result<Vec<Span>, ReadFault>
    ensures { Gives (λ made. made.items) result (spans_in first (map listed tables.now)) }
{
    let mut made = Vec::with_capacity(alloc, tables.len())?;
    let mut next = first;
    'tables: for table in tables {
        let span = span_behind(next, table.cells.count())?;
        next += span.length as usize;
        made.push(span)?;
    }
    Ok(made)
}
