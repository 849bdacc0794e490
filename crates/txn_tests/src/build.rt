//! Catalogues built of what is said of them, and how they are refused.

use crate::bodies::{Body, Holds, condition, statement};
use crate::parts::call;
use std::alloc::{AllocError, Global};
use std::process::Abort;
use txn::{BuildFault, Call, Catalogue, Cells, Cond, Expr, ParamId, Stmt, Table, Tx, TxId};

/// What a catalogue is built of. Where nothing else is said it has one transaction `t`, which skips,
/// and one run of it.
#[derive(Clone, Copy)]
pub(crate) enum Of {
    /// These variables.
    Vars(&'static [(&'static str, i64)]),
    /// So many variables, named `v0`, `v1` and so on.
    ManyVars(u32),
    /// A transaction of this body.
    Tx(Body),
    /// So many transactions, named `t0`, `t1` and so on, and no run.
    ManyTxs(u32),
    /// These runs, each of a transaction with these arguments.
    Runs(&'static [(TxId, &'static [i64], u32)]),
    /// No transaction, and so many runs of the first.
    RunOfNone(u32),
    /// x, which is 5, a transaction with these parameters, which returns the one of this place, and a
    /// run of it with each of these arguments.
    Params(&'static [&'static str], ParamId, &'static [&'static [i64]]),
    /// x, which is 5, these conditions over it, and a transaction of this body.
    Always(&'static [(&'static str, Holds)], Body),
    /// x and so many conditions that are true, named `a0`, `a1` and so on.
    ManyAlways(u32),
    /// x and these conditions, and no transaction.
    AlwaysAlone(&'static [(&'static str, Holds)]),
    /// x, tables of these names and so many cells, each of which is 0, and a transaction of this body.
    Tables(&'static [(&'static str, u32)], Body),
    /// x, and so many tables of one cell, named `t0`, `t1` and so on.
    ManyTables(u32),
    /// x, tables, and a condition `a` over them.
    TablesUnder(&'static [(&'static str, u32)], Holds),
}

/// How a catalogue is refused, if it is.
type Refusal = Result<Option<BuildFault>, AllocError>;

fn named(alloc: Global, vars: &[(&str, i64)]) -> Result<Vec<(String, i64)>, AllocError> {
    let mut all = Vec::new(alloc);
    for (name, value) in vars {
        all.push((String::from_str(alloc, name)?, *value))?;
    }
    Ok(all)
}

fn many_vars(alloc: Global, count: u32) -> Result<Vec<(String, i64)>, AllocError> {
    let mut all = Vec::new(alloc);
    for i in 0..count {
        all.push((format!(in alloc; "v{i}")?, 0))?;
    }
    Ok(all)
}

fn vars_of(alloc: Global, of: Of) -> Result<Vec<(String, i64)>, AllocError> {
    match of {
        Of::Vars(vars) => named(alloc, vars),
        Of::ManyVars(count) => many_vars(alloc, count),
        Of::Always(_, _)
        | Of::ManyAlways(_)
        | Of::AlwaysAlone(_)
        | Of::Params(_, _, _)
        | Of::Tables(_, _)
        | Of::ManyTables(_)
        | Of::TablesUnder(_, _) => named(alloc, &[("x", 5)]),
        Of::Tx(_) | Of::ManyTxs(_) | Of::Runs(_) | Of::RunOfNone(_) => Ok(Vec::new(alloc)),
    }
}

fn tables(alloc: Global, of: &[(&str, u32)]) -> Result<Vec<Table>, AllocError> {
    let mut all = Vec::new(alloc);
    for (name, count) in of {
        all.push(Table {
            name: String::from_str(alloc, name)?,
            cells: Cells::Same(*count, 0),
        })?;
    }
    Ok(all)
}

fn many_tables(alloc: Global, count: u32) -> Result<Vec<Table>, AllocError> {
    let mut all = Vec::new(alloc);
    for i in 0..count {
        all.push(Table {
            name: format!(in alloc; "t{i}")?,
            cells: Cells::Same(1, 0),
        })?;
    }
    Ok(all)
}

fn tables_of(alloc: Global, of: Of) -> Result<Vec<Table>, AllocError> {
    match of {
        Of::Tables(of, _) | Of::TablesUnder(of, _) => tables(alloc, of),
        Of::ManyTables(count) => many_tables(alloc, count),
        _ => Ok(Vec::new(alloc)),
    }
}

fn standing(alloc: Global, always: &[(&str, Holds)]) -> Result<Vec<(String, Cond)>, AllocError> {
    let mut all = Vec::new(alloc);
    for (name, holds) in always {
        let name = String::from_str(alloc, name)?;
        all.push((name, condition(alloc, *holds)?))?;
    }
    Ok(all)
}

fn many_always(alloc: Global, count: u32) -> Result<Vec<(String, Cond)>, AllocError> {
    let mut all = Vec::new(alloc);
    for i in 0..count {
        let name = format!(in alloc; "a{i}")?;
        all.push((name, condition(alloc, Holds::Is(5))?))?;
    }
    Ok(all)
}

fn always_of(alloc: Global, of: Of) -> Result<Vec<(String, Cond)>, AllocError> {
    match of {
        Of::Always(always, _) | Of::AlwaysAlone(always) => standing(alloc, always),
        Of::ManyAlways(count) => many_always(alloc, count),
        Of::TablesUnder(_, holds) => standing(alloc, &[("a", holds)]),
        _ => Ok(Vec::new(alloc)),
    }
}

fn tx(alloc: Global, name: String, body: Stmt) -> Tx {
    Tx {
        name,
        params: Vec::new(alloc),
        body,
        result: Expr::Int(0),
    }
}

/// One transaction of this body.
fn one_tx(alloc: Global, body: Body) -> Result<Vec<Tx>, AllocError> {
    let name = String::from_str(alloc, "t")?;
    let mut all = Vec::new(alloc);
    all.push(tx(alloc, name, statement(alloc, body)?))?;
    Ok(all)
}

/// One transaction with these parameters, which returns the one of this place.
fn tx_with(alloc: Global, names: &[&str], place: ParamId) -> Result<Vec<Tx>, AllocError> {
    let mut params = Vec::new(alloc);
    for name in names {
        params.push(String::from_str(alloc, name)?)?;
    }
    let mut all = Vec::new(alloc);
    all.push(Tx {
        name: String::from_str(alloc, "t")?,
        params,
        body: Stmt::Skip,
        result: Expr::Param(place),
    })?;
    Ok(all)
}

fn many_txs(alloc: Global, count: u32) -> Result<Vec<Tx>, AllocError> {
    let mut all = Vec::new(alloc);
    for i in 0..count {
        all.push(tx(alloc, format!(in alloc; "t{i}")?, Stmt::Skip))?;
    }
    Ok(all)
}

fn txs_of(alloc: Global, of: Of) -> Result<Vec<Tx>, AllocError> {
    match of {
        Of::Tx(body) | Of::Always(_, body) | Of::Tables(_, body) => one_tx(alloc, body),
        Of::Params(names, place, _) => tx_with(alloc, names, place),
        Of::ManyTxs(count) => many_txs(alloc, count),
        Of::RunOfNone(_) | Of::AlwaysAlone(_) => Ok(Vec::new(alloc)),
        Of::Vars(_)
        | Of::ManyVars(_)
        | Of::Runs(_)
        | Of::ManyAlways(_)
        | Of::ManyTables(_)
        | Of::TablesUnder(_, _) => one_tx(alloc, Body::Skips),
    }
}

fn runs(alloc: Global, runs: &[(TxId, &[i64], u32)]) -> Result<Vec<(Call, u32)>, AllocError> {
    let mut all = Vec::new(alloc);
    for (tx, arguments, count) in runs {
        all.push((call(*tx, arguments), *count))?;
    }
    Ok(all)
}

/// A run of one task of the first transaction with each of these arguments.
fn runs_with(alloc: Global, given: &[&[i64]]) -> Result<Vec<(Call, u32)>, AllocError> {
    let mut all = Vec::new(alloc);
    for arguments in given {
        all.push((call(TxId(0), arguments), 1))?;
    }
    Ok(all)
}

fn runs_of(alloc: Global, of: Of) -> Result<Vec<(Call, u32)>, AllocError> {
    match of {
        Of::Runs(of) => runs(alloc, of),
        Of::Params(_, _, given) => runs_with(alloc, given),
        Of::RunOfNone(count) => runs(alloc, &[(TxId(0), &[], count)]),
        Of::ManyTxs(_) | Of::AlwaysAlone(_) => Ok(Vec::new(alloc)),
        _ => runs(alloc, &[(TxId(0), &[], 1)]),
    }
}

/// The fault by which a catalogue of it is refused, if it is.
fn refusal(alloc: Global, of: Of) -> Refusal {
    let runs = runs_of(alloc, of)?;
    let vars = vars_of(alloc, of)?;
    let tables = tables_of(alloc, of)?;
    let always = always_of(alloc, of)?;
    let txs = txs_of(alloc, of)?;
    Ok(Catalogue::build(alloc, vars, tables, always, txs, runs).err())
}

/// The same of variables and tables alone, with no id that could be unknown.
#[tactic(auto, unfolding(txn::specs::Ids::ids_hold))]
fn refusal_known(alloc: Global, of: Of) -> Refusal {
    let vars = vars_of(alloc, of)?;
    let tables = tables_of(alloc, of)?;
    let (always, txs, none) = (Vec::new(alloc), Vec::new(alloc), Vec::new(alloc));
    Ok(Catalogue::build_known(alloc, vars, tables, always, txs, none).err())
}

/// What is so, and catalogues with how each is refused, if it is.
pub(crate) type Rows = (&'static str, &'static [(Of, Option<BuildFault>)]);

/// The first that is not refused so.
fn first_wrong(alloc: Global, rows: &[(Of, Option<BuildFault>)]) -> Option<usize> {
    for place in 0..rows.len() {
        let (of, want) = rows[place];
        if refusal(alloc, of) != Ok(want) {
            return Some(place);
        }
    }
    None
}

/// The same where ids are known.
fn first_wrong_known(alloc: Global, rows: &[(Of, Option<BuildFault>)]) -> Option<usize> {
    for place in 0..rows.len() {
        let (of, want) = rows[place];
        if refusal_known(alloc, of) != Ok(want) {
            return Some(place);
        }
    }
    None
}

/// Each is refused so, where its ids are known.
pub(crate) fn expect_known(rt: &(impl Abort + Eprint), alloc: Global, all: &[Rows]) {
    for (so, rows) in all {
        assert_eq!(rt; first_wrong_known(alloc, rows), None, "{so}");
    }
}

/// Each is refused so.
pub(crate) fn expect(rt: &(impl Abort + Eprint), alloc: Global, all: &[Rows]) {
    for (so, rows) in all {
        assert_eq!(rt; first_wrong(alloc, rows), None, "{so}");
    }
}
