//! Whether the limits of a catalogue hold.

ghost use Rattle.std.specs.Prelude.{◌≡◌, ◌<◌, ◌≤◌, ◌+◌, ◌*◌, ◌&&◌, nat_le, sum_by};
ghost use Rattle.std.specs.Prelude.{ℕ, map, min, length, string_bytes, true};
ghost use Rattle.std.specs.List.{list_all};
ghost use Rattle.std.specs.Option.{SomeIff};
ghost use Rattle.txn_programs.specs.Tree.{expression_of, condition_of, statement_of};
ghost use Rattle.txn_programs.specs.Tree.{statements_of_list, transaction_of};
ghost use Rattle.txn_programs.specs.Cost.{expression_cost, condition_cost, conditions_cost};
ghost use Rattle.txn_programs.specs.Cost.{statement_cost, statements_cost};
ghost use Rattle.txn_programs.specs.Depth.{expression_depth, condition_depth, statement_depth};
ghost use Rattle.txn_programs.specs.Limits.{capped, conditions_fit, StatementFits, StatementsFit};
ghost use Rattle.txn_programs.specs.Limits.{is_short, names_fit, table_fits};
ghost use Rattle.txn_programs.specs.Listing.{table_of};
ghost use Rattle.txn_declarations.specs.Beside.{fits_beside};
ghost use Rattle.txn_programs.specs.declared.limits.TheConstants.{MAX_CELLS, MAX_NAME, MAX_PARAMETERS};
ghost use Rattle.txn_programs.specs.declared.limits.TheConstants.{MAX_TABLES, MAX_TASKS};

use txn_programs::limits::{
    MAX_CELLS, MAX_COST, MAX_DEPTH, MAX_NAME, MAX_PARAMETERS, MAX_REPEAT, MAX_TABLES, MAX_TASKS,
};
use txn_programs::{Call, Cond, Expr, Stmt, Table, Tx};

/// One over the largest cost: what a larger one counts as.
const OVER: u32 = MAX_COST + 1;

/// The cost of a node whose parts, at most three, cost this much.
fn node(parts: u32) -> u32
    requires { parts ≤ 3 * OVER }
    ensures { result ≡ capped (1 + parts) }
{
    (1 + parts).min(OVER)
}

/// The capped cost of an expression that is no deeper than this. Most have no parts, so they are told at once.
#[cycle(expressions)]
fn expression_weight(e: &Expr, depth: u32) -> Option<u32>
    ensures { SomeIff result (expression_depth (expression_of e.now) ≤ depth)
        (capped (expression_cost (expression_of e.now))) }
{
    match e {
        Expr::Int(_) | Expr::Var(_) | Expr::Param(_) => Some(1),
        _ => compound_weight(e, depth),
    }
}

/// The same, of one that may have parts.
#[cycle(expressions)]
#[inline(never)]
fn compound_weight(e: &Expr, depth: u32) -> Option<u32>
    ensures { SomeIff result (expression_depth (expression_of e.now) ≤ depth)
        (capped (expression_cost (expression_of e.now))) }
{
    match e {
        Expr::Int(_) | Expr::Var(_) | Expr::Param(_) => Some(1),
        Expr::At(_, a) => {
            let below = depth.checked_sub(1)?;
            Some(node(expression_weight(a, below)?))
        }
        Expr::Sum(table) | Expr::Min(table) | Expr::Max(table) => {
            depth.checked_sub(1)?;
            Some(node(table.length.min(OVER)))
        }
        Expr::Add(a, b) | Expr::Sub(a, b) | Expr::Mul(a, b) | Expr::Div(a, b) | Expr::Rem(a, b) => {
            let below = depth.checked_sub(1)?;
            Some(node(expression_weight(a, below)? + expression_weight(b, below)?))
        }
    }
}

/// The capped cost of a condition that is no deeper than this.
#[tactic(auto, using(crate::proofs::Weights::condition_depth_positive))]
fn condition_weight(c: &Cond, depth: u32) -> Option<u32>
    ensures { SomeIff result (condition_depth (condition_of c.now) ≤ depth)
        (capped (condition_cost (condition_of c.now))) }
{
    let below = depth.checked_sub(1)?;
    match c {
        Cond::Eq(a, b) | Cond::Lt(a, b) | Cond::Le(a, b) => {
            Some(node(expression_weight(a, below)? + expression_weight(b, below)?))
        }
        Cond::Not(c) => Some(node(condition_weight(c, below)?)),
        Cond::And(a, b) | Cond::Or(a, b) => {
            Some(node(condition_weight(a, below)? + condition_weight(b, below)?))
        }
    }
}

/// The capped cost of times of a part, and of the node round them.
#[tactic(auto, using(crate::proofs::Weights::capped_times))]
fn times(count: u32, part: u32) -> u32
    requires { part ≤ OVER }
    ensures { result ≡ capped (1 + count * part) }
{
    (1 + u64::from(count) * u64::from(part)).min(u64::from(OVER)) as u32
}

/// The capped cost of a statement that is no deeper than this and repeats no more often than the limit.
#[cycle(weight)]
#[tactic(auto, using(crate::proofs::Weights::statement_depth_positive))]
fn statement_weight(s: &Stmt, depth: u32) -> Option<u32>
    ensures { SomeIff result (StatementFits depth (statement_of s.now)) (capped (statement_cost (statement_of s.now))) }
{
    let below = depth.checked_sub(1)?;
    match s {
        Stmt::Skip | Stmt::Retry => Some(1),
        Stmt::Set(_, e) | Stmt::Throw(e) => Some(node(expression_weight(e, below)?)),
        Stmt::Put(_, a, b) => {
            Some(node(expression_weight(a, below)? + expression_weight(b, below)?))
        }
        Stmt::Seq(parts) => Some(node(statements_weight(parts.as_slice(), below)?)),
        Stmt::If(c, a, b) => {
            let test = condition_weight(c, below)?;
            let first = statement_weight(a, below)?;
            let second = statement_weight(b, below)?;
            Some(node(test + first + second))
        }
        Stmt::Repeat(count, s) => {
            if *count > MAX_REPEAT {
                return None;
            }
            Some(times(*count, statement_weight(s, below)?))
        }
        Stmt::OrElse(a, b) => Some(node(statement_weight(a, below)? + statement_weight(b, below)?)),
    }
}

#[cycle(weight)]
fn statements_weight(parts: &[Stmt], depth: u32) -> Option<u32>
    ensures { SomeIff result (StatementsFit depth (statements_of_list parts.now))
        (capped (statements_cost (statements_of_list parts.now))) }
{
    let mut total = 0;
    for part in parts {
        total = (total + statement_weight(part, depth)?).min(OVER);
    }
    Some(total)
}

/// The cost of the standing conditions together, if they are within the limits of them.
pub fn always_cost(always: &[(String, Cond)]) -> Option<u32>
    ensures { SomeIff result (conditions_fit (map (λ a. condition_of a.1) always.now) ≡ true)
        (conditions_cost (map (λ a. condition_of a.1) always.now)) }
{
    let mut total = 0;
    for (_, holds) in always {
        total += condition_weight(holds, MAX_DEPTH)?;
        if total > MAX_COST {
            return None;
        }
    }
    Some(total)
}

/// Whether a transaction is within the limits of one, beside standing conditions of this cost.
fn fits(tx: &Tx, always: u32) -> bool
    requires { always ≤ MAX_COST }
    ensures { result ≡ fits_beside always (transaction_of tx.now) }
{
    let Some(body) = statement_weight(&tx.body, MAX_DEPTH) else {
        return false;
    };
    let Some(result) = expression_weight(&tx.result, MAX_DEPTH) else {
        return false;
    };
    body + result + always <= MAX_COST
}

/// Whether each transaction is within the limits of one, beside standing conditions of this cost.
pub fn transactions_fit(txs: &[Tx], always: u32) -> bool
    requires { always ≤ MAX_COST }
    ensures { result ≡ list_all (λ tx. fits_beside always (transaction_of tx)) txs.now }
{
    txs.iter().all(|tx| fits(tx, always))
}

/// Whether no name of a variable is too long.
pub fn names_fit(vars: &[(String, i64)]) -> bool
    ensures { result ≡ list_all (λ var. nat_le (length (string_bytes var.0)) MAX_NAME) vars.now }
{
    vars.iter().all(|var| var.0.len() <= MAX_NAME)
}

/// Whether a table's name is not too long, and it has a cell.
fn table_fits(table: &Table) -> bool
    ensures { result ≡ table_fits (table_of table.now) }
{
    table.name.len() <= MAX_NAME && table.cells.count() > 0
}

/// Whether each table is within the limits of one.
fn each_fits(tables: &[Table]) -> bool
    ensures { result ≡ list_all (λ t. table_fits (table_of t)) tables.now }
{
    tables.iter().all(table_fits)
}

/// Whether there are not too many cells in all.
fn cells_fit(tables: &[Table]) -> bool
    ensures { result ≡ nat_le (sum_by (λ t. t.1) (map table_of tables.now)) MAX_CELLS }
{
    let mut left = MAX_CELLS;
    for table in tables {
        let count = table.cells.count();
        if count > left {
            return false;
        }
        left -= count;
    }
    true
}

/// Whether there are not too many tables, nor cells in all of them, each has a cell, and no name of one is
/// too long.
pub fn tables_within(tables: &[Table]) -> bool
    ensures { result ≡ (nat_le (length tables.now) MAX_TABLES && (list_all (λ t. table_fits (table_of t)) tables.now
        && nat_le (sum_by (λ t. t.1) (map table_of tables.now)) MAX_CELLS)) }
{
    tables.len() <= MAX_TABLES && each_fits(tables) && cells_fit(tables)
}

/// Whether no name of a standing condition is too long.
pub fn always_names_fit(always: &[(String, Cond)]) -> bool
    ensures { result ≡ list_all (λ a. nat_le (length (string_bytes a.0)) MAX_NAME) always.now }
{
    always.iter().all(|(name, _)| name.len() <= MAX_NAME)
}

/// Whether none of the names is too long.
fn are_short(names: &[String]) -> bool
    ensures { result ≡ list_all (λ name. is_short (string_bytes name)) names.now }
{
    names.iter().all(|name| name.len() <= MAX_NAME)
}

/// Whether there are not too many parameters, and no name of one is too long.
fn params_fit(params: &[String]) -> bool
    ensures { result ≡ (nat_le (length params.now) MAX_PARAMETERS
        && list_all (λ name. is_short (string_bytes name)) params.now) }
{
    params.len() <= MAX_PARAMETERS && are_short(params)
}

/// Whether a transaction has not too many parameters, and neither its name nor one of theirs is too long.
#[tactic(auto, using(crate::proofs::Named::params_are_short))]
fn tx_names_within(tx: &Tx) -> bool
    ensures { result ≡ names_fit (transaction_of tx.now) }
{
    tx.name.len() <= MAX_NAME && params_fit(&tx.params)
}

/// Whether no transaction has too many parameters, and no name of one or of its parameters is too long.
pub fn tx_names_fit(txs: &[Tx]) -> bool
    ensures { result ≡ list_all (λ tx. names_fit (transaction_of tx)) txs.now }
{
    txs.iter().all(tx_names_within)
}

/// Whether each run count is within the limit.
pub fn counts_fit(runs: &[(Call, u32)]) -> bool
    ensures { result ≡ list_all (λ run. nat_le run.1 MAX_TASKS) runs.now }
{
    runs.iter().all(|run| run.1 <= MAX_TASKS)
}

/// Whether the run counts add up to no more than the limit.
pub fn sum_fits(runs: &[(Call, u32)]) -> bool
    ensures { result ≡ nat_le (sum_by (λ run. run.1) runs.now) MAX_TASKS }
{
    let mut left = MAX_TASKS;
    for run in runs {
        if run.1 > left {
            return false;
        }
        left -= run.1;
    }
    true
}
