//! Files without a fault, read in one pass: conditions and transactions are made as they are read,
//! and no tree of texts stands beside them.

ghost use Rattle.std.specs.Prelude.{◌≡◌, ℕ, List, Ok, IfOk, map, codes};
ghost use Rattle.std.specs.List.{list_all};
ghost use Rattle.txn_programs.specs.Listing.{table_of as listed};
ghost use Rattle.txn_programs.specs.Tree.{expression_of, statement_of, transaction_of};
ghost use Rattle.text_words.specs.Tokens.{tokens};
ghost use Rattle.text_words.specs.TokenReading.{begins, all_of};
ghost use Rattle.text_words.specs.Answers.{◌>>=◌ as ◌>>=ᴿ◌};
ghost use Rattle.text_grammar.specs.Reading.{pair_at, tables_at, always_at, conditions_at, tx_at, run_at, file_of};
ghost use Rattle.text_grammar.specs.Reading.{tree_of};
ghost use Rattle.text_grammar.specs.Resolving.{variable_of, table_of, always_in, pair_name, table_name, condition_name};
ghost use Rattle.text_grammar.specs.Resolving.{tx_name, resolved};
ghost use Rattle.text_resolver.specs.Texts.{texts};
ghost use Rattle.text_resolver.specs.Scopes.{view_scope};
ghost use Rattle.text_resolver.specs.Parts.{view_variable, view_table, view_condition, view_parts};
ghost use Rattle.text_file_reader.specs.Resolved.{Resolves, MakesBody, MakesNamed, MakesRuns, MakesPrograms};
ghost use Rattle.text_file_reader.specs.Resolved.{MakesBehind, own_transaction_in, parameters_of, is_wanted};

use crate::conditions::condition_at_once;
use crate::expressions::last_expression_at_once;
use crate::runs::calls_at_once;
use crate::statements::statement_at_once;
use indexmap::IndexSet;
use std::alloc::Global;
use text_grammar::file::{FileForm, longest_file};
use text_parser::file::{INNER_DEPTH, end, heading_of, pairs_of, parameters_of, tables_of};
use text_resolver::names::{Scope, declare, param_names, var_names};
use text_resolver::resolve::{Parts, owned, variables};
use text_resolver::tables::{spans, table_names, tables};
use text_words::ReadFault;
use text_words::bytes::are_allowed;
use text_words::tokens::{begins, close, form, name_of};
use txn_programs::{Call, Cond, Expr, Stmt, Table, Tx};

/// The variables that stand next: their names, their first values, and the bytes behind them.
fn variables_at_once<'a>(
    alloc: Global,
    bytes: &'a [u8],
) -> Result<(IndexSet<&'a str>, Vec<(String, i64)>, &'a [u8]), ReadFault>
    ensures { IfOk result
        (λ x. Resolves (all_of (begins (codes "var")) (pair_at (codes "var")) (tokens bytes.now)) variable_of pair_name
        (map view_variable x.1.items) (texts x.0.keys) (tokens x.2.now)) }
{
    let (pairs, rest) = pairs_of(alloc, bytes, "var")?;
    let names = var_names(alloc, &pairs)?;
    let made = variables(alloc, &pairs)?;
    Ok((names, made, rest))
}

/// The tables that stand next, which only form 3 has: their names, what they are, and the bytes behind them.
fn tables_at_once<'a>(
    alloc: Global,
    file_form: FileForm,
    bytes: &'a [u8],
) -> Result<(IndexSet<&'a str>, Vec<Table>, &'a [u8]), ReadFault>
    ensures { IfOk result
        (λ x. Resolves (tables_at file_form (tokens bytes.now)) table_of table_name (map view_table x.1.items)
        (texts x.0.keys) (tokens x.2.now)) }
{
    let (raw, rest) = tables_of(alloc, file_form, bytes)?;
    let names = table_names(alloc, &raw)?;
    let made = tables(alloc, &raw)?;
    Ok((names, made, rest))
}

/// A condition that has to stand: its name, the condition with its name, and the bytes behind it.
fn always_at_once<'a>(
    alloc: Global,
    file_form: FileForm,
    outer: &Scope<'_, '_>,
    bytes: &'a [u8],
) -> Result<(&'a str, (String, Cond), &'a [u8]), ReadFault>
    ensures { IfOk result
        (λ x. MakesNamed (always_at file_form (tokens bytes.now)) (always_in (view_scope outer.now)) condition_name
        (view_condition x.1) x.0.now (tokens x.2.now)) }
{
    let rest = form(bytes, "always")?;
    let (name, rest) = name_of(rest)?;
    let held = String::from_str(alloc, name)?;
    let (condition, rest) = condition_at_once(alloc, file_form, outer, INNER_DEPTH, rest)?;
    match close(rest) {
        Ok(rest) => Ok((name, (held, condition), rest)),
        Err(fault) => {
            drop(condition);
            Err(fault)
        }
    }
}

/// The conditions that stand next, and the bytes behind them.
fn standing_at_once<'a>(
    alloc: Global,
    file_form: FileForm,
    outer: &Scope<'_, '_>,
    bytes: &'a [u8],
) -> Result<(Vec<(String, Cond)>, &'a [u8]), ReadFault>
    ensures { IfOk result (λ x. (names : List (List ℕ))
        × Resolves (all_of (begins (codes "always")) (always_at file_form) (tokens bytes.now))
        (always_in (view_scope outer.now)) condition_name (map view_condition x.0.items) names (tokens x.1.now)) }
{
    let mut made = Vec::new(alloc);
    let mut names = IndexSet::new(alloc);
    let mut rest = bytes;
    'standing: while begins(rest, "always") {
        let (name, condition, after) = always_at_once(alloc, file_form, outer, rest)?;
        made.push(condition)?;
        declare(&mut names, name)?;
        rest = after;
    }
    Ok((made, rest))
}

/// The conditions that stand next, of which form 1 has none, and the bytes behind them.
#[tactic(auto, unfolding(text_grammar::specs::Reading::conditions_at))]
fn conditions_at_once<'a>(
    alloc: Global,
    file_form: FileForm,
    outer: &Scope<'_, '_>,
    bytes: &'a [u8],
) -> Result<(Vec<(String, Cond)>, &'a [u8]), ReadFault>
    ensures { IfOk result (λ x. (names : List (List ℕ))
        × Resolves (conditions_at file_form (tokens bytes.now)) (always_in (view_scope outer.now)) condition_name
        (map view_condition x.0.items) names (tokens x.1.now)) }
{
    match file_form {
        FileForm::One => Ok((Vec::new(alloc), bytes)),
        FileForm::Two | FileForm::Three => standing_at_once(alloc, file_form, outer, bytes),
    }
}

/// The body and the result of a transaction, and the bytes behind it.
fn body_at_once<'a>(
    alloc: Global,
    file_form: FileForm,
    scope: &Scope<'_, '_>,
    bytes: &'a [u8],
) -> Result<(Stmt, Expr, &'a [u8]), ReadFault>
    ensures { IfOk result
        (λ x. MakesBody file_form (view_scope scope.now) (tokens bytes.now) (statement_of x.0) (expression_of x.1)
        (tokens x.2.now)) }
{
    let (body, rest) = statement_at_once(alloc, file_form, scope, INNER_DEPTH, bytes)?;
    match last_expression_at_once(alloc, file_form, scope, INNER_DEPTH, rest) {
        Ok((result, rest)) => Ok((body, result, rest)),
        Err(fault) => {
            drop(body);
            Err(fault)
        }
    }
}

/// A transaction of a file of this form: its name, what it is, and the bytes behind it. No parameter of it has
/// the name of a variable or of one before it.
fn tx_at_once<'a>(
    alloc: Global,
    file_form: FileForm,
    outer: &Scope<'_, '_>,
    bytes: &'a [u8],
) -> Result<(&'a str, Tx, &'a [u8]), ReadFault>
    ensures { IfOk result
        (λ x. MakesNamed (tx_at file_form (tokens bytes.now)) (own_transaction_in (view_scope outer.now)) tx_name
        (transaction_of x.1) x.0.now (tokens x.2.now)) }
{
    let rest = form(bytes, "tx")?;
    let (name, rest) = name_of(rest)?;
    let held = String::from_str(alloc, name)?;
    let (raw, rest) = parameters_of(alloc, file_form, rest)?;
    let names = param_names(alloc, outer.vars, &raw)?;
    let params = owned(alloc, &raw)?;
    let scope = Scope {
        vars: outer.vars,
        tables: outer.tables,
        spans: outer.spans,
        params: &names,
    };
    let (body, result, rest) = body_at_once(alloc, file_form, &scope, rest)?;
    let tx = Tx {
        name: held,
        params,
        body,
        result,
    };
    Ok((name, tx, rest))
}

/// The transactions that stand next: their names, what they are, and the bytes behind them.
fn transactions_at_once<'a>(
    alloc: Global,
    file_form: FileForm,
    outer: &Scope<'_, '_>,
    bytes: &'a [u8],
) -> Result<(IndexSet<&'a str>, Vec<Tx>, &'a [u8]), ReadFault>
    ensures { IfOk result
        (λ x. Resolves (all_of (begins (codes "tx")) (tx_at file_form) (tokens bytes.now))
        (own_transaction_in (view_scope outer.now)) tx_name (map transaction_of x.1.items) (texts x.0.keys)
        (tokens x.2.now)) }
{
    let mut made = Vec::new(alloc);
    let mut names = IndexSet::new(alloc);
    let mut rest = bytes;
    'txs: while begins(rest, "tx") {
        let (name, tx, after) = tx_at_once(alloc, file_form, outer, rest)?;
        made.push(tx)?;
        declare(&mut names, name)?;
        rest = after;
    }
    Ok((names, made, rest))
}

/// Whether a call is of one of these transactions, with as many arguments as that has parameters.
fn is_wanted(txs: &[Tx], call: &Call) -> bool
    ensures { result ≡ is_wanted (map parameters_of (map transaction_of txs.now)) call.now }
{
    match txs.get(call.tx.0 as usize) {
        Some(tx) => call.arguments.as_slice().len() == tx.params.len(),
        None => false,
    }
}

/// The same of the call of each run.
fn are_wanted(txs: &[Tx], runs: &[(Call, u32)]) -> bool
    ensures { result ≡ list_all (λ run. is_wanted (map parameters_of (map transaction_of txs.now)) run.0) runs.now }
{
    runs.iter().all(|run| is_wanted(txs, &run.0))
}

/// The runs that stand next, each with as many arguments as its transaction has parameters, and the bytes behind
/// them. The names are those of the transactions.
fn runs_at_once<'a>(
    alloc: Global,
    file_form: FileForm,
    names: &IndexSet<&str>,
    txs: &[Tx],
    bytes: &'a [u8],
) -> Result<(Vec<(Call, u32)>, &'a [u8]), ReadFault>
    ensures { IfOk result
        (λ x. MakesRuns (all_of (begins (codes "run")) (run_at file_form) (tokens bytes.now)) (texts names.now.keys)
        (map parameters_of (map transaction_of txs.now)) x.0.items (tokens x.1.now)) }
{
    let (made, rest) = calls_at_once(alloc, file_form, names, bytes)?;
    if !are_wanted(txs, &made) {
        return Err(ReadFault::Name);
    }
    Ok((made, rest))
}

/// The conditions, the transactions and the runs of a file of this form, which end it.
fn programs_at_once(
    alloc: Global,
    file_form: FileForm,
    outer: &Scope<'_, '_>,
    bytes: &[u8],
) -> Result<(Vec<(String, Cond)>, Vec<Tx>, Vec<(Call, u32)>), ReadFault>
    ensures { IfOk result
        (λ x. MakesPrograms file_form (view_scope outer.now) (tokens bytes.now) (map view_condition x.0.items)
        (map transaction_of x.1.items) x.2.items) }
{
    let (always, rest) = conditions_at_once(alloc, file_form, outer, bytes)?;
    let (names, txs, rest) = transactions_at_once(alloc, file_form, outer, rest)?;
    let (runs, rest) = runs_at_once(alloc, file_form, &names, &txs, rest)?;
    end(rest)?;
    Ok((always, txs, runs))
}

/// The same, where the variables and the tables have these names.
fn behind_tables(
    alloc: Global,
    file_form: FileForm,
    vars: &IndexSet<&str>,
    names: &IndexSet<&str>,
    tables: &[Table],
    bytes: &[u8],
) -> Result<(Vec<(String, Cond)>, Vec<Tx>, Vec<(Call, u32)>), ReadFault>
    ensures { IfOk result
        (λ x. MakesBehind file_form (texts vars.now.keys) (texts names.now.keys) (map listed tables.now)
        (tokens bytes.now) (map view_condition x.0.items) (map transaction_of x.1.items) x.2.items) }
{
    let spans = spans(alloc, vars.len(), tables)?;
    let params = IndexSet::new(alloc);
    let outer = Scope {
        vars,
        tables: names,
        spans: &spans,
        params: &params,
    };
    programs_at_once(alloc, file_form, &outer, bytes)
}

/// What the bytes declare.
fn file_at_once(alloc: Global, bytes: &[u8]) -> Result<Parts, ReadFault>
    ensures { IfOk result (λ parts. (file_of (tokens bytes.now) >>=ᴿ λ file. resolved file) ≡ Ok (view_parts parts)) }
{
    let (file_form, rest) = heading_of(bytes)?;
    let (var_names, vars, rest) = variables_at_once(alloc, rest)?;
    let (table_names, tables, rest) = tables_at_once(alloc, file_form, rest)?;
    let (always, txs, runs) = behind_tables(
        alloc,
        file_form,
        &var_names,
        &table_names,
        &tables,
        rest,
    )?;
    Ok(Parts {
        vars,
        tables,
        always,
        txs,
        runs,
    })
}

/// What a file declares, where it is without a fault up to its limits. A fault is one of those that
/// the file has, and may not be its first. It is a call, so that who reads a file takes little
/// stack where its statements nest.
#[tactic(auto, unfolding(text_grammar::specs::Reading::tree_of))]
#[inline(never)]
pub(crate) fn parts_at_once(alloc: Global, bytes: &[u8]) -> Result<Parts, ReadFault>
    ensures { IfOk result (λ parts. (tree_of bytes.now >>=ᴿ λ file. resolved file) ≡ Ok (view_parts parts)) }
{
    if bytes.len() > longest_file(bytes) {
        return Err(ReadFault::TooLong);
    }
    if !are_allowed(bytes) {
        return Err(ReadFault::BadByte);
    }
    file_at_once(alloc, bytes)
}
