//! The names of what a catalogue declares, none of which is longer than a name may be.

ghost use Rattle.std.specs.Prelude.{◌≡◌, ◌≤◌, ◌++◌, OnOk, length, string_bytes};
ghost use Rattle.txn_programs.specs.declared.limits.TheConstants.{MAX_NAME};
ghost use Rattle.txn_programs.specs.Listing.{always_name};
ghost use Rattle.text_report_printer.specs.Names.{transaction_name, value_name, variable_name};
ghost use Rattle.text_report_printer.specs.ReportText.{cell_name};

use crate::line::LineEnd;
use std::alloc::AllocError;
use txn::{AlwaysId, Catalogue, TxId, VarId};

/// The name of the variable of this number, or nothing where there is none.
pub fn variable_name(catalogue: &Catalogue, number: usize) -> &str
    ensures value { result.now ≡ variable_name catalogue.now number }
    ensures at_most { length result.now ≤ MAX_NAME }
{
    catalogue.rules();
    if number < catalogue.var_count() {
        catalogue.var_name(VarId(number as u32))
    } else {
        ""
    }
}

/// Puts the name of the variable of this number behind the text, or of the cell, which has its index in brackets;
/// or nothing where there is neither.
pub fn put_value_name(
    out: &mut String,
    catalogue: &Catalogue,
    number: usize,
) -> Result<(), AllocError>
    ensures { OnOk result (string_bytes out.new ≡ string_bytes out.old ++ value_name catalogue.now number) }
{
    let variables = catalogue.var_count();
    if number < variables {
        return out.push_str(variable_name(catalogue, number));
    }
    let tables = catalogue.tables();
    let mut place = number - variables;
    for (name, count) in tables {
        let count = *count as usize;
        if place < count {
            return put_cell_name(out, name.as_str(), place);
        }
        place -= count;
    }
    Ok(())
}

fn put_cell_name(out: &mut String, table: &str, index: usize) -> Result<(), AllocError>
    ensures { OnOk result (string_bytes out.new ≡ string_bytes out.old ++ cell_name table.now index) }
{
    let mut end = LineEnd::new();
    end.byte(b']');
    end.number(index as u64);
    end.byte(b'[');
    out.push_str(table)?;
    out.push_str(end.text())
}

/// The name of the transaction of this number, or nothing where there is none.
pub fn transaction_name(catalogue: &Catalogue, number: usize) -> &str
    ensures value { result.now ≡ transaction_name catalogue.now number }
    ensures at_most { length result.now ≤ MAX_NAME }
{
    catalogue.rules();
    if number < catalogue.tx_count() {
        catalogue.tx_name(TxId(number as u32))
    } else {
        ""
    }
}

/// A standing condition's name, or nothing where there is no such condition.
pub fn always_name(catalogue: &Catalogue, id: AlwaysId) -> &str
    ensures value { result.now ≡ always_name catalogue.now id }
    ensures at_most { length result.now ≤ MAX_NAME }
{
    catalogue.rules();
    if (id.0 as usize) < catalogue.always().len() {
        catalogue.always_name(id)
    } else {
        ""
    }
}
