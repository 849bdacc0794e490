//! The catalogue that begins at other values.

ghost use Rattle.std.specs.Prelude.{◌≡◌, ◌≢◌, ◌≤◌, All, Err, IfErr, IfOk, OnOk, length, map, false, true};
ghost use Rattle.txn_programs.specs.declared.limits.TheConstants.{MAX_TASKS};
ghost use Rattle.txn_programs.specs.Listing.{listing_of, IsCallable};
ghost use Rattle.txn_programs.specs.Names.{names_hold};
ghost use Rattle.txn_programs.specs.Limits.{limits_hold};
ghost use Rattle.txn_programs.specs.Standing.{Upholds, upholds};
ghost use Rattle.txn.specs.Values.{with_values, begun};

use crate::parts::{Parts, parts_with};
use crate::{BuildFault, Call, Catalogue, Memory};
use std::alloc::Global;
use txn_declarations::copy::runs_with;

/// Why a catalogue cannot begin at these values.
#[derive(Clone, Copy, Debug, PartialEq, Eq)]
pub enum ValuesFault {
    /// There is not one for each variable and each cell.
    Count,
    /// A standing condition is not true of them.
    Broken,
    /// A growth was refused.
    Memory,
}

/// The catalogue of parts whose names and limits hold.
fn built(alloc: Global, parts: Parts) -> Result<Catalogue, ValuesFault>
    requires names { names_hold
        (listing_of parts.vars.items parts.tables.items parts.always.items parts.txs.items parts.runs.items)
        ≡ true }
    requires limits { limits_hold
        (listing_of parts.vars.items parts.tables.items parts.always.items parts.txs.items parts.runs.items)
        ≡ true }
    ensures built { IfOk result
        (λ c. c ≡ listing_of parts.vars.items parts.tables.items parts.always.items parts.txs.items parts.runs.items) }
    ensures broken { IfErr result (λ e. e ≡ ValuesFault.Broken
        → upholds (listing_of parts.vars.items parts.tables.items parts.always.items parts.txs.items parts.runs.items)
        (listing_of parts.vars.items parts.tables.items parts.always.items parts.txs.items parts.runs.items).initial
        ≡ false) }
    ensures count { IfErr result (λ e. e ≢ ValuesFault.Count) }
{
    let Parts {
        vars,
        tables,
        always,
        txs,
        runs,
    } = parts;
    match Catalogue::build(alloc, vars, tables, always, txs, runs) {
        Ok(next) => Ok(next),
        Err(BuildFault::Broken) => Err(ValuesFault::Broken),
        Err(BuildFault::Memory) => Err(ValuesFault::Memory),
        Err(BuildFault::Name) => unreachable!(),
        Err(BuildFault::Limit) => unreachable!(),
    }
}

/// The catalogue that begins at these values, one for each variable and behind them one for each cell, in
/// declared order. Names,
/// standing conditions, transactions and runs are as they were.
///
/// `Count` exactly where there are more or fewer values than variables and cells, else `Broken` only where a
/// standing condition is not true of them. `Memory` only where a growth was refused.
pub fn with_values(
    alloc: Global,
    catalogue: &Catalogue,
    values: &[i64],
) -> Result<Catalogue, ValuesFault>
    ensures with { IfOk result (λ c. c ≡ with_values catalogue.now values.now) }
    ensures upheld { OnOk result (Upholds catalogue.now values.now) }
    ensures count { IfErr result (λ e. e ≡ ValuesFault.Count → length values.now ≢ length catalogue.now.initial) }
    ensures each { OnOk result (length values.now ≡ length catalogue.now.initial) }
    ensures always_count { length values.now ≢ length catalogue.now.initial → result ≡ Err ValuesFault.Count }
    ensures broken { IfErr result (λ e. e ≡ ValuesFault.Broken → upholds catalogue.now values.now ≡ false) }
{
    catalogue.rules();
    if values.len() != catalogue.initial().len() {
        return Err(ValuesFault::Count);
    }
    match parts_with(alloc, catalogue, values) {
        Ok(parts) => made(alloc, catalogue, values, parts),
        Err(_) => Err(ValuesFault::Memory),
    }
}

/// The catalogue that begins at these values, of its parts.
fn made(
    alloc: Global,
    catalogue: &Catalogue,
    values: &[i64],
    parts: Parts,
) -> Result<Catalogue, ValuesFault>
    requires { listing_of parts.vars.items parts.tables.items parts.always.items parts.txs.items parts.runs.items
        ≡ with_values catalogue.now values.now }
    ensures with { IfOk result (λ c. c ≡ with_values catalogue.now values.now) }
    ensures upheld { OnOk result (Upholds catalogue.now values.now) }
    ensures count { IfErr result (λ e. e ≢ ValuesFault.Count) }
    ensures broken { IfErr result (λ e. e ≡ ValuesFault.Broken → upholds catalogue.now values.now ≡ false) }
{
    catalogue.rules();
    let next = built(alloc, parts)?;
    next.rules();
    Ok(next)
}

/// The catalogue that begins at these values, of which each standing condition is true: it is never
/// refused. `Memory` only where a growth was refused.
pub fn with_upheld_values(
    alloc: Global,
    catalogue: &Catalogue,
    values: &[i64],
) -> Result<Catalogue, Memory>
    requires each { length values.now ≡ length catalogue.now.initial }
    requires upheld { Upholds catalogue.now values.now }
    ensures { IfOk result (λ c. c ≡ with_values catalogue.now values.now) }
{
    match with_values(alloc, catalogue, values) {
        Ok(next) => Ok(next),
        Err(ValuesFault::Memory) => Err(Memory),
        Err(ValuesFault::Count) => unreachable!(),
        Err(ValuesFault::Broken) => unreachable!(),
    }
}

/// The catalogue that begins at these values, of which each standing condition is true, with one task
/// for each of these calls in place of its runs. `Memory` only where a growth was refused.
pub fn begun(
    alloc: Global,
    catalogue: &Catalogue,
    values: &[i64],
    calls: &[Call],
) -> Result<Catalogue, Memory>
    requires each { length values.now ≡ length catalogue.now.initial }
    requires upheld { Upholds catalogue.now values.now }
    requires known { All (λ c. IsCallable catalogue.now c.tx c.arguments) calls.now }
    requires few { length calls.now ≤ MAX_TASKS }
    ensures { IfOk result (λ c. c ≡ begun catalogue.now values.now calls.now) }
{
    catalogue.rules();
    let Ok(mut parts) = parts_with(alloc, catalogue, values) else {
        return Err(Memory);
    };
    parts.runs = match runs_with(alloc, &[], calls) {
        Ok(runs) => runs,
        Err(_) => return Err(Memory),
    };
    match built(alloc, parts) {
        Ok(next) => Ok(next),
        Err(ValuesFault::Memory) => Err(Memory),
        Err(ValuesFault::Count) => unreachable!(),
        Err(ValuesFault::Broken) => unreachable!(),
    }
}
