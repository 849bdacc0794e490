//! What a catalogue is built of, copied, with other values beside the variables' names.

ghost use Rattle.std.specs.Prelude.{◌≡◌, ◌≤◌, IfOk, length, map, string_bytes};
ghost use Rattle.txn_programs.specs.declared.limits.TheConstants.{MAX_VARIABLES};
ghost use Rattle.txn_programs.specs.Listing.{listing_of};
ghost use Rattle.txn_programs.specs.Tree.{transaction_of};
ghost use Rattle.txn.specs.Values.{with_values};

use crate::{Call, Catalogue, Cond, Table, Tx, TxId, VarId};
use std::alloc::{AllocError, Global};
use txn_declarations::copy::{always_of, copied_transaction, runs_with, tables_of};

/// What `Catalogue::build` takes.
#[derive(Drop)]
pub(crate) struct Parts {
    pub(crate) vars: Vec<(String, i64)>,
    pub(crate) tables: Vec<Table>,
    pub(crate) always: Vec<(String, Cond)>,
    pub(crate) txs: Vec<Tx>,
    pub(crate) runs: Vec<(Call, u32)>,
}

/// A variable's name with a value.
fn variable(alloc: Global, name: &str, value: &i64) -> Result<(String, i64), AllocError>
    ensures name { IfOk result (λ v. string_bytes v.0 ≡ name.now) }
    ensures value { IfOk result (λ v. v.1 ≡ value.now) }
{
    let name = String::from_str(alloc, name)?;
    Ok((name, *value))
}

/// Each variable of the catalogue, with its value.
fn variables(
    alloc: Global,
    catalogue: &Catalogue,
    values: &[i64],
) -> Result<Vec<(String, i64)>, AllocError>
    requires each { length values.now ≡ length catalogue.now.names }
    requires few { length values.now ≤ MAX_VARIABLES }
    ensures names { IfOk result (λ made. map (λ v. string_bytes v.0) made.items ≡ catalogue.now.names) }
    ensures values { IfOk result (λ made. map (λ v. v.1) made.items ≡ values.now) }
{
    let mut made = Vec::new(alloc);
    'vars: for (i, value) in values.iter().enumerate() {
        let variable = variable(alloc, catalogue.var_name(VarId(i as u32)), value)?;
        made.push(variable)?;
    }
    Ok(made)
}

/// Copies of a catalogue's transactions, in their order.
fn transactions(alloc: Global, catalogue: &Catalogue) -> Result<Vec<Tx>, AllocError>
    ensures { IfOk result (λ made. map transaction_of made.items ≡ catalogue.now.transactions) }
{
    catalogue.rules();
    let mut made = Vec::new(alloc);
    'txs: for i in 0..catalogue.tx_count() {
        let copy = copied_transaction(alloc, catalogue.tx(TxId(i as u32)))?;
        made.push(copy)?;
    }
    Ok(made)
}

/// What the catalogue is built of, with these values. There has to be one for each variable and each cell.
pub(crate) fn parts_with(
    alloc: Global,
    catalogue: &Catalogue,
    values: &[i64],
) -> Result<Parts, AllocError>
    requires { length values.now ≡ length catalogue.now.initial }
    ensures { IfOk result
        (λ p. listing_of p.vars.items p.tables.items p.always.items p.txs.items p.runs.items
        ≡ with_values catalogue.now values.now) }
{
    catalogue.rules();
    let count = catalogue.var_count();
    let vars = variables(alloc, catalogue, &values[..count])?;
    let tables = tables_of(alloc, catalogue.tables(), &values[count..])?;
    let always = always_of(alloc, catalogue.always())?;
    let txs = transactions(alloc, catalogue)?;
    let runs = runs_with(alloc, catalogue.runs(), &[])?;
    Ok(Parts {
        vars,
        tables,
        always,
        txs,
        runs,
    })
}
