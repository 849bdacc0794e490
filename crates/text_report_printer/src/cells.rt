//! The lines of cells, and all lines of values.

ghost use Rattle.std.specs.Prelude.{◌≡◌, ◌≤◌, ◌+◌, ◌*◌, ◌++◌, IsOk, OnOk, length};
ghost use Rattle.std.specs.Prelude.{string_bytes, string_capacity, string_len};
ghost use Rattle.txn_programs.specs.declared.limits.TheConstants.{MAX_CELLS, MAX_NAME};
ghost use Rattle.txn_programs.specs.Listing.{cells, values};
ghost use Rattle.text_report_printer.specs.ReportText.{cell_line, cell_lines, table_lines, value_lines};
ghost use Rattle.text_report_printer.specs.declared.report.TheConstants.{LONGEST};

use crate::line::LineEnd;
use crate::report::put_variables;
use std::alloc::AllocError;
use txn::Catalogue;

/// Puts the line of a cell behind the text, if an entry wrote the cell.
fn put_cell(
    out: &mut String,
    table: &str,
    index: usize,
    cell: &(i64, u64),
) -> Result<(), AllocError>
    requires { length table.now ≤ MAX_NAME }
    ensures text { OnOk result (string_bytes out.new ≡ string_bytes out.old ++ cell_line table.now index cell.now) }
    ensures room { string_len out.old + LONGEST ≤ string_capacity out.old → IsOk result }
    ensures len { OnOk result (string_len out.new ≤ string_len out.old + LONGEST) }
    ensures capacity { string_capacity out.old ≤ string_capacity out.new }
{
    let (value, version) = *cell;
    if version == 0 {
        return Ok(());
    }
    let mut line = LineEnd::new();
    line.byte(b'\n');
    line.number(version);
    line.byte(b' ');
    line.signed(value);
    line.byte(b' ');
    line.byte(b']');
    line.number(index as u64);
    line.byte(b'[');
    line.word(table);
    out.push_str(line.text())
}

/// Puts a line for each cell that an entry wrote behind the text: the cells are those of a table from
/// this number on. With room for a line for each it takes no memory.
pub fn put_cells(
    out: &mut String,
    table: &str,
    first: usize,
    cells: &[(i64, u64)],
) -> Result<(), AllocError>
    requires short { length table.now ≤ MAX_NAME }
    requires few { first + length cells.now ≤ MAX_CELLS }
    ensures text { OnOk result
        (string_bytes out.new ≡ string_bytes out.old ++ cell_lines table.now first cells.now) }
    ensures room { string_len out.old + LONGEST * length cells.now ≤ string_capacity out.old → IsOk result }
    ensures len { OnOk result (string_len out.new ≤ string_len out.old + LONGEST * length cells.now) }
    ensures capacity { string_capacity out.old ≤ string_capacity out.new }
{
    'cells: for (i, cell) in cells.iter().enumerate() {
        put_cell(out, table, first + i, cell)?;
    }
    Ok(())
}

/// Puts a line for each cell of a table that an entry wrote behind the text, table after table.
fn put_tables(
    out: &mut String,
    catalogue: &Catalogue,
    vars: &[(i64, u64)],
) -> Result<(), AllocError>
    requires { length vars.now ≡ cells catalogue.now }
    ensures { OnOk result
        (string_bytes out.new ≡ string_bytes out.old ++ table_lines catalogue.now.tables vars.now) }
{
    catalogue.rules();
    let tables = catalogue.tables();
    let mut rest = vars;
    for (name, count) in tables {
        let (cells, more) = rest.split_at(*count as usize);
        put_cells(out, name.as_str(), 0, cells)?;
        rest = more;
    }
    Ok(())
}

/// Puts a line for each variable behind the text, in declared order, and behind these a line for each
/// cell that an entry wrote: its name, its value and its version.
pub fn put_values(
    out: &mut String,
    catalogue: &Catalogue,
    vars: &[(i64, u64)],
) -> Result<(), AllocError>
    requires { length vars.now ≡ values catalogue.now }
    ensures { OnOk result
        (string_bytes out.new ≡ string_bytes out.old ++ value_lines catalogue.now vars.now) }
{
    let (variables, cells) = vars.split_at(catalogue.var_count());
    put_variables(out, catalogue, variables)?;
    put_tables(out, catalogue, cells)
}
