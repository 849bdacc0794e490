//! Names: each declared once, and declared where it is used.

ghost use Rattle.std.specs.Prelude.{◌≡◌, Ok, [], map, position, length, bytes_eq};
ghost use Rattle.std.specs.List.{list_all};
ghost use Rattle.text_words.specs.Answers.{Gives};
ghost use Rattle.text_grammar.specs.Reading.{row};
ghost use Rattle.text_grammar.specs.Resolving.{declared_one, declared_after, pair_name, condition_name, tx_name};
ghost use Rattle.text_grammar.specs.Resolving.{is_known, expr_known, cond_known, stmt_known, stmts_known, always_known};
ghost use Rattle.text_grammar.specs.Resolving.{tx_known, run_known, uses_known};
ghost use Rattle.text_resolver.specs.Texts.{texts};
ghost use Rattle.text_resolver.specs.Scopes.{view_scope, parameters_behind};
ghost use Rattle.text_grammar.specs.View.{view_expr, view_cond, view_stmt, view_stmts, view_pair, view_pairs};
ghost use Rattle.text_grammar.specs.View.{view_always, view_conditions, view_names, view_tx, view_txs, view_run};
ghost use Rattle.text_grammar.specs.View.{view_file};

use indexmap::IndexSet;
use std::alloc::Global;
use text_grammar::cond::RawCond;
use text_grammar::expr::RawExpr;
use text_grammar::file::{RawAlways, RawFile, RawPair, RawRun, RawTx};
use text_grammar::stmt::RawStmt;
use text_words::ReadFault;
use txn_programs::Span;

/// The names that may stand in a condition, a statement or an expression: those of variables, those of tables and, in a
/// transaction, those of its parameters.
#[derive(Clone, Copy)]
pub struct Scope<'s, 'a> {
    pub vars: &'s IndexSet<&'a str>,
    pub tables: &'s IndexSet<&'a str>,
    /// The cells of each table. There are none while names alone are judged.
    pub spans: &'s [Span],
    pub params: &'s IndexSet<&'a str>,
}

/// Adds a name that is not there. It fails by `Name` where the name is there.
#[tactic(auto, unfolding(text_grammar::specs::Resolving::declared_one))]
pub fn declare<'a>(names: &mut IndexSet<&'a str>, name: &'a str) -> Result<(), ReadFault>
    ensures { Gives (λ _. texts names.new.keys) result (declared_one (texts names.old.keys) name.now) }
{
    match names.insert(name) {
        Ok(true) => Ok(()),
        Ok(false) => Err(ReadFault::Name),
        Err(_) => Err(ReadFault::Memory),
    }
}

/// Adds the names of variables, in their order.
pub(crate) fn declare_variables<'a>(
    names: &mut IndexSet<&'a str>,
    pairs: &[RawPair<'a>],
) -> Result<(), ReadFault>
    ensures { Gives (λ _. texts names.new.keys) result
        (declared_after (texts names.old.keys) (map pair_name (view_pairs pairs.now))) }
{
    'pairs: for pair in pairs {
        declare(names, pair.name)?;
    }
    Ok(())
}

/// The names of variables, in their order. It fails by `Name` where one comes twice.
pub fn var_names<'a>(alloc: Global, pairs: &[RawPair<'a>]) -> Result<IndexSet<&'a str>, ReadFault>
    ensures { Gives (λ names. texts names.keys) result (declared_after [] (map pair_name (view_pairs pairs.now))) }
{
    let mut names = IndexSet::new(alloc);
    declare_variables(&mut names, pairs).and(Ok(names))
}

/// Adds the names of conditions, in their order.
pub(crate) fn declare_conditions<'a>(
    names: &mut IndexSet<&'a str>,
    conditions: &[RawAlways<'a>],
) -> Result<(), ReadFault>
    ensures { Gives (λ _. texts names.new.keys) result
        (declared_after (texts names.old.keys) (map condition_name (view_conditions conditions.now))) }
{
    'conditions: for condition in conditions {
        declare(names, condition.name)?;
    }
    Ok(())
}

/// Adds the names of transactions, in their order.
pub(crate) fn declare_transactions<'a>(
    names: &mut IndexSet<&'a str>,
    txs: &[RawTx<'a>],
) -> Result<(), ReadFault>
    ensures { Gives (λ _. texts names.new.keys) result
        (declared_after (texts names.old.keys) (map tx_name (view_txs txs.now))) }
{
    'txs: for tx in txs {
        declare(names, tx.name)?;
    }
    Ok(())
}

/// The place of a name.
#[tactic(auto, using(crate::proofs::Texts::position_texts))]
pub(crate) fn place_of(names: &IndexSet<&str>, name: &str) -> Option<usize>
    ensures { result ≡ position (bytes_eq name.now) (texts names.now.keys) }
{
    if names.is_empty() {
        return None;
    }
    names.get_index_of(&name)
}

/// Whether a name is among these.
pub(crate) fn is_known(names: &IndexSet<&str>, name: &str) -> bool
    ensures { result ≡ is_known (texts names.now.keys) name.now }
{
    place_of(names, name).is_some()
}

/// Adds the names of a transaction's parameters, in their order.
fn declare_parameters<'a>(
    names: &mut IndexSet<&'a str>,
    vars: &IndexSet<&str>,
    params: &[&'a str],
) -> Result<(), ReadFault>
    requires none { texts names.old.keys ≡ [] }
    ensures { Gives (λ _. texts names.new.keys) result (parameters_behind (texts vars.now.keys) (view_names params.now)) }
{
    'params: for name in params {
        if is_known(vars, *name) {
            return Err(ReadFault::Name);
        }
        declare(names, *name)?;
    }
    Ok(())
}

/// The names of a transaction's parameters, in their order. It fails by `Name` where one is a variable's name or comes
/// twice.
pub fn param_names<'a>(
    alloc: Global,
    vars: &IndexSet<&str>,
    params: &[&'a str],
) -> Result<IndexSet<&'a str>, ReadFault>
    ensures { Gives (λ names. texts names.keys) result
        (parameters_behind (texts vars.now.keys) (view_names params.now)) }
{
    let mut names = IndexSet::new(alloc);
    declare_parameters(&mut names, vars, params).and(Ok(names))
}

fn expr_known(scope: &Scope<'_, '_>, e: &RawExpr<'_>) -> bool
    ensures { result ≡ expr_known (view_scope scope.now) (view_expr e.now) }
{
    match e {
        RawExpr::Int(_) => true,
        RawExpr::Name(name) => is_known(scope.params, *name) || is_known(scope.vars, *name),
        RawExpr::At(table, index) => is_known(scope.tables, *table) && expr_known(scope, index),
        RawExpr::OfAll(_, table) => is_known(scope.tables, *table),
        RawExpr::Binary(_, left, right) => expr_known(scope, left) && expr_known(scope, right),
    }
}

fn cond_known(scope: &Scope<'_, '_>, c: &RawCond<'_>) -> bool
    ensures { result ≡ cond_known (view_scope scope.now) (view_cond c.now) }
{
    match c {
        RawCond::Compare(_, left, right) => expr_known(scope, left) && expr_known(scope, right),
        RawCond::Not(inner) => cond_known(scope, inner),
        RawCond::Connect(_, left, right) => cond_known(scope, left) && cond_known(scope, right),
    }
}

#[cycle(known)]
fn stmt_known(scope: &Scope<'_, '_>, s: &RawStmt<'_>) -> bool
    ensures { result ≡ stmt_known (view_scope scope.now) (view_stmt s.now) }
{
    match s {
        RawStmt::Skip | RawStmt::Retry | RawStmt::Call(..) => true,
        RawStmt::Set(name, value) => is_known(scope.vars, *name) && expr_known(scope, value),
        RawStmt::Put(table, index, value) => {
            is_known(scope.tables, *table) && expr_known(scope, index) && expr_known(scope, value)
        }
        RawStmt::Seq(parts) => stmts_known(scope, parts.as_slice()),
        RawStmt::If(test, first, second) => {
            cond_known(scope, test) && stmt_known(scope, first) && stmt_known(scope, second)
        }
        RawStmt::Repeat(_, body) => stmt_known(scope, body),
        RawStmt::OrElse(first, second) => stmt_known(scope, first) && stmt_known(scope, second),
        RawStmt::Throw(value) => expr_known(scope, value),
    }
}

#[cycle(known)]
fn stmts_known(scope: &Scope<'_, '_>, parts: &[RawStmt<'_>]) -> bool
    ensures { result ≡ stmts_known (view_scope scope.now) (row (view_stmts parts.now)) }
{
    'parts: for part in parts {
        if !stmt_known(scope, part) {
            return false;
        }
    }
    true
}

fn conditions_known(outer: &Scope<'_, '_>, conditions: &[RawAlways<'_>]) -> bool
    ensures { result ≡ list_all (λ c. always_known (view_scope outer.now) (view_always c)) conditions.now }
{
    conditions.iter().all(|c| cond_known(outer, &c.condition))
}

/// Whether the parameters are new names, and all names that are used are known. Memory alone can fail it.
fn tx_known(alloc: Global, outer: &Scope<'_, '_>, tx: &RawTx<'_>) -> Result<bool, ReadFault>
    ensures { Gives (λ known. known) result (Ok (tx_known (view_scope outer.now) (view_tx tx.now))) }
{
    match param_names(alloc, outer.vars, &tx.params) {
        Ok(params) => {
            let scope = Scope {
                vars: outer.vars,
                tables: outer.tables,
                spans: outer.spans,
                params: &params,
            };
            let known = stmt_known(&scope, &tx.body) && expr_known(&scope, &tx.value);
            drop(params);
            Ok(known)
        }
        Err(ReadFault::Name) => Ok(false),
        Err(fault) => Err(fault),
    }
}

/// The same of all of them.
fn txs_known(alloc: Global, outer: &Scope<'_, '_>, txs: &[RawTx<'_>]) -> Result<bool, ReadFault>
    ensures { Gives (λ known. known) result
        (Ok (list_all (λ tx. tx_known (view_scope outer.now) (view_tx tx)) txs.now)) }
{
    'txs: for tx in txs {
        if !tx_known(alloc, outer, tx)? {
            return Ok(false);
        }
    }
    Ok(true)
}

/// Whether a run gives its transaction as many arguments as that has parameters. The names are those of the
/// transactions.
fn run_known(names: &IndexSet<&str>, txs: &[RawTx<'_>], run: &RawRun<'_>) -> bool
    requires named { texts names.now.keys ≡ map tx_name (view_txs txs.now) }
    ensures { result ≡ run_known (view_txs txs.now) (view_run run.now) }
{
    match place_of(names, run.name) {
        Some(place) => txs[place].params.len() == run.arguments.len(),
        None => false,
    }
}

fn runs_known(names: &IndexSet<&str>, txs: &[RawTx<'_>], runs: &[RawRun<'_>]) -> bool
    requires named { texts names.now.keys ≡ map tx_name (view_txs txs.now) }
    ensures { result ≡ list_all (λ run. run_known (view_txs txs.now) (view_run run)) runs.now }
{
    runs.iter().all(|run| run_known(names, txs, run))
}

/// Whether only declared names are used, and each as it is declared. The names `txs` are those of the transactions.
/// Memory alone can fail it.
#[tactic(auto, using(crate::proofs::Texts::uses_are))]
pub(crate) fn uses_known(
    alloc: Global,
    outer: &Scope<'_, '_>,
    txs: &IndexSet<&str>,
    file: &RawFile<'_>,
) -> Result<bool, ReadFault>
    requires named { texts txs.now.keys ≡ map tx_name (view_file file.now).txs }
    ensures { Gives (λ known. known) result (Ok (uses_known (view_scope outer.now) (view_file file.now))) }
{
    if !conditions_known(outer, &file.always) || !txs_known(alloc, outer, &file.txs)? {
        return Ok(false);
    }
    Ok(runs_known(txs, &file.txs, &file.runs))
}
