//! The rules on names and ids.

ghost use Rattle.std.specs.Prelude.{◌≡◌, ◌&&◌, ℕ, [], nat_lt, map, length, string_bytes};
ghost use Rattle.std.specs.List.{list_all};
ghost use Rattle.txn_programs.specs.Tree.{expression_of, condition_of, statement_of};
ghost use Rattle.txn_programs.specs.Tree.{statements_of_list, transaction_of};
ghost use Rattle.txn_programs.specs.Listing.{listing_of, spans_from, table_of};
ghost use Rattle.txn_programs.specs.Names.{is_name, are_formed, is_callable, knows_expression, knows_condition};
ghost use Rattle.txn_programs.specs.Names.{knows_standing, knows_statement, knows_statements, knows_table};
ghost use Rattle.txn_programs.specs.Names.{knows_transaction};

use txn_programs::names::is_name;
use txn_programs::{Call, Cond, Expr, ParamId, Span, Stmt, Table, Tx, TxId, VarId};

/// Whether the variable is one of these many.
fn knows(variable: VarId, variables: usize) -> bool
    ensures { result ≡ nat_lt variable.0 variables }
{
    (variable.0 as usize) < variables
}

/// Whether the parameter is one of these many.
fn has(parameter: ParamId, params: usize) -> bool
    ensures { result ≡ nat_lt parameter.0 params }
{
    (parameter.0 as usize) < params
}

/// Whether it is one of these tables, where the cells of the first begin with this variable.
fn knows_table(tables: &[Table], variables: usize, table: Span) -> bool
    ensures { result ≡ knows_table (spans_from variables (map table_of tables.now)) table }
{
    let mut first = variables;
    for each in tables {
        if first > table.first as usize {
            return false;
        }
        let count = each.cells.count();
        if first == table.first as usize && count == table.length as usize {
            return true;
        }
        first += count;
    }
    false
}

fn expression_known(e: &Expr, variables: usize, tables: &[Table], params: usize) -> bool
    ensures { result ≡ knows_expression variables (spans_from variables (map table_of tables.now))
        params (expression_of e.now) }
{
    match e {
        Expr::Int(_) => true,
        Expr::Var(x) => knows(*x, variables),
        Expr::Param(p) => has(*p, params),
        Expr::At(table, a) => knows_table(tables, variables, *table)
            && expression_known(a, variables, tables, params),
        Expr::Sum(table) | Expr::Min(table) | Expr::Max(table) => knows_table(
            tables, variables, *table,
        ),
        Expr::Add(a, b) | Expr::Sub(a, b) | Expr::Mul(a, b) | Expr::Div(a, b) | Expr::Rem(a, b) => {
            expression_known(a, variables, tables, params)
                && expression_known(b, variables, tables, params)
        }
    }
}

fn condition_known(c: &Cond, variables: usize, tables: &[Table], params: usize) -> bool
    ensures { result ≡ knows_condition variables (spans_from variables (map table_of tables.now))
        params (condition_of c.now) }
{
    match c {
        Cond::Eq(a, b) | Cond::Lt(a, b) | Cond::Le(a, b) => {
            expression_known(a, variables, tables, params)
                && expression_known(b, variables, tables, params)
        }
        Cond::Not(c) => condition_known(c, variables, tables, params),
        Cond::And(a, b) | Cond::Or(a, b) => condition_known(a, variables, tables, params)
            && condition_known(b, variables, tables, params),
    }
}

#[cycle(known)]
fn statement_known(s: &Stmt, variables: usize, tables: &[Table], params: usize) -> bool
    ensures { result ≡ knows_statement variables (spans_from variables (map table_of tables.now))
        params (statement_of s.now) }
{
    match s {
        Stmt::Skip | Stmt::Retry => true,
        Stmt::Set(x, e) => knows(*x, variables) && expression_known(e, variables, tables, params),
        Stmt::Put(table, a, b) => {
            knows_table(tables, variables, *table)
                && expression_known(a, variables, tables, params)
                && expression_known(b, variables, tables, params)
        }
        Stmt::Seq(parts) => statements_known(parts.as_slice(), variables, tables, params),
        Stmt::If(c, a, b) => {
            condition_known(c, variables, tables, params)
                && statement_known(a, variables, tables, params)
                && statement_known(b, variables, tables, params)
        }
        Stmt::Repeat(_, s) => statement_known(s, variables, tables, params),
        Stmt::OrElse(a, b) => statement_known(a, variables, tables, params)
            && statement_known(b, variables, tables, params),
        Stmt::Throw(e) => expression_known(e, variables, tables, params),
    }
}

#[cycle(known)]
fn statements_known(parts: &[Stmt], variables: usize, tables: &[Table], params: usize) -> bool
    ensures { result ≡ knows_statements variables (spans_from variables (map table_of tables.now))
        params (statements_of_list parts.now) }
{
    for part in parts {
        if !statement_known(part, variables, tables, params) {
            return false;
        }
    }
    true
}

fn transaction_known(tx: &Tx, variables: usize, tables: &[Table]) -> bool
    ensures { result ≡ knows_transaction variables (spans_from variables (map table_of tables.now))
        (transaction_of tx.now) }
{
    let params = tx.params.len();
    statement_known(&tx.body, variables, tables, params)
        && expression_known(&tx.result, variables, tables, params)
}

/// Whether each parameter's name has the form of one.
fn params_have_form(params: &[String]) -> bool
    ensures { result ≡ list_all (λ name. is_name (string_bytes name)) params.now }
{
    params.iter().all(|name| is_name(name.as_bytes()))
}

/// Whether the names of a transaction and of its parameters have the form of one.
#[tactic(auto, using(crate::proofs::Named::params_formed))]
fn is_formed(tx: &Tx) -> bool
    ensures { result ≡ are_formed (transaction_of tx.now) }
{
    is_name(tx.name.as_bytes()) && params_have_form(&tx.params)
}

/// Whether each variable's name has the form of one.
pub fn names_have_form(vars: &[(String, i64)]) -> bool
    ensures { result ≡ list_all (λ var. is_name (string_bytes var.0)) vars.now }
{
    vars.iter().all(|var| is_name(var.0.as_bytes()))
}

/// Whether each standing condition's name has the form of one.
pub fn always_names_have_form(always: &[(String, Cond)]) -> bool
    ensures { result ≡ list_all (λ a. is_name (string_bytes a.0)) always.now }
{
    always.iter().all(|(name, _)| is_name(name.as_bytes()))
}

/// Whether each transaction's name and those of its parameters have the form of one.
pub fn tx_names_have_form(txs: &[Tx]) -> bool
    ensures { result ≡ list_all (λ tx. are_formed (transaction_of tx)) txs.now }
{
    txs.iter().all(is_formed)
}

/// Whether each table's name has the form of one.
pub fn table_names_have_form(tables: &[Table]) -> bool
    ensures { result ≡ list_all (λ table. is_name (string_bytes table.name)) tables.now }
{
    tables.iter().all(|table| is_name(table.name.as_bytes()))
}

/// Whether the standing conditions name only variables of these many and these tables, and no parameters.
pub fn always_known(always: &[(String, Cond)], variables: usize, tables: &[Table]) -> bool
    ensures { result ≡ list_all (λ a. knows_standing variables (spans_from variables (map table_of tables.now))
        (condition_of a.1)) always.now }
{
    always
        .iter()
        .all(|(_, holds)| condition_known(holds, variables, tables, 0))
}

/// Whether the transactions name only variables of these many, these tables, and parameters of their own.
pub fn transactions_known(txs: &[Tx], variables: usize, tables: &[Table]) -> bool
    ensures { result ≡ list_all (λ tx. knows_transaction variables (spans_from variables (map table_of tables.now))
        (transaction_of tx)) txs.now }
{
    txs.iter()
        .all(|tx| transaction_known(tx, variables, tables))
}

/// Whether the transaction is one of these, and has so many parameters.
pub fn is_callable(txs: &[Tx], tx: TxId, arguments: &[i64]) -> bool
    ensures { result ≡ is_callable (listing_of [] [] [] txs.now []) (record { tx = tx; arguments = arguments.now }) }
{
    match txs.get(tx.0 as usize) {
        Some(tx) => arguments.len() == tx.params.len(),
        None => false,
    }
}

/// Whether each run makes a call of one of these transactions, with as many arguments as it wants.
pub fn runs_known(runs: &[(Call, u32)], txs: &[Tx]) -> bool
    ensures { result ≡ list_all (λ run. is_callable (listing_of [] [] [] txs.now []) run.0) runs.now }
{
    runs.iter().all(|run| is_callable(txs, run.0.tx, run.0.arguments.as_slice()))
}
