//! Equality of what programs and names say, wherever they lie in memory. Each walk stops at the
//! first difference, takes no memory, and is no deeper than the shallower tree.

ghost use Rattle.std.specs.Prelude.{◌≡◌, ◌↔◌, IsTrue, map, string_bytes};
ghost use Rattle.txn_programs.specs.Tree.{expression_of, condition_of, statement_of};
ghost use Rattle.txn_programs.specs.Tree.{statements_of_list, transaction_of};
ghost use Rattle.txn_declarations.specs.Conditions.{standing_of};
ghost use Rattle.txn_declarations.specs.Counted.{counted};

use txn_programs::{Call, Cond, Expr, Span, Stmt, Tx};

fn same_table(a: Span, b: Span) -> bool
    ensures { IsTrue result ↔ (a ≡ b) }
{
    a.first == b.first && a.length == b.length
}

fn same_expression(a: &Expr, b: &Expr) -> bool
    ensures { IsTrue result ↔ (expression_of a.now ≡ expression_of b.now) }
{
    match (a, b) {
        (Expr::Int(m), Expr::Int(n)) => *m == *n,
        (Expr::Var(x), Expr::Var(y)) => x.0 == y.0,
        (Expr::Param(p), Expr::Param(q)) => p.0 == q.0,
        (Expr::At(t, p), Expr::At(u, q)) => same_table(*t, *u) && same_expression(p, q),
        (Expr::Sum(t), Expr::Sum(u))
        | (Expr::Min(t), Expr::Min(u))
        | (Expr::Max(t), Expr::Max(u)) => same_table(*t, *u),
        (Expr::Add(p, q), Expr::Add(r, s))
        | (Expr::Sub(p, q), Expr::Sub(r, s))
        | (Expr::Mul(p, q), Expr::Mul(r, s))
        | (Expr::Div(p, q), Expr::Div(r, s))
        | (Expr::Rem(p, q), Expr::Rem(r, s)) => same_expression(p, r) && same_expression(q, s),
        _ => false,
    }
}

fn same_condition(a: &Cond, b: &Cond) -> bool
    ensures { IsTrue result ↔ (condition_of a.now ≡ condition_of b.now) }
{
    match (a, b) {
        (Cond::Eq(p, q), Cond::Eq(r, s))
        | (Cond::Lt(p, q), Cond::Lt(r, s))
        | (Cond::Le(p, q), Cond::Le(r, s)) => same_expression(p, r) && same_expression(q, s),
        (Cond::Not(c), Cond::Not(d)) => same_condition(c, d),
        (Cond::And(p, q), Cond::And(r, s)) | (Cond::Or(p, q), Cond::Or(r, s)) => {
            same_condition(p, r) && same_condition(q, s)
        }
        _ => false,
    }
}

#[cycle(same)]
fn same_statement(a: &Stmt, b: &Stmt) -> bool
    ensures { IsTrue result ↔ (statement_of a.now ≡ statement_of b.now) }
{
    match (a, b) {
        (Stmt::Skip, Stmt::Skip) | (Stmt::Retry, Stmt::Retry) => true,
        (Stmt::Set(x, e), Stmt::Set(y, f)) => x.0 == y.0 && same_expression(e, f),
        (Stmt::Put(t, p, q), Stmt::Put(u, r, s)) => {
            same_table(*t, *u) && same_expression(p, r) && same_expression(q, s)
        }
        (Stmt::Seq(parts), Stmt::Seq(others)) => {
            same_statements(parts.as_slice(), others.as_slice())
        }
        (Stmt::If(c, p, q), Stmt::If(d, r, s)) => {
            same_condition(c, d) && same_statement(p, r) && same_statement(q, s)
        }
        (Stmt::Repeat(m, p), Stmt::Repeat(n, q)) => *m == *n && same_statement(p, q),
        (Stmt::OrElse(p, q), Stmt::OrElse(r, s)) => same_statement(p, r) && same_statement(q, s),
        (Stmt::Throw(e), Stmt::Throw(f)) => same_expression(e, f),
        _ => false,
    }
}

#[cycle(same)]
fn same_statements(parts: &[Stmt], others: &[Stmt]) -> bool
    ensures { IsTrue result ↔ (statements_of_list parts.now ≡ statements_of_list others.now) }
{
    let mut rest = others;
    for part in parts {
        let [other, more @ ..] = rest else {
            return false;
        };
        if !same_statement(part, other) {
            return false;
        }
        rest = more;
    }
    rest.is_empty()
}

fn same_name(a: &str, b: &str) -> bool
    ensures { IsTrue result ↔ (a.now ≡ b.now) }
{
    a == b
}

/// Whether the values are the same, in their order.
pub fn same_values(values: &[i64], others: &[i64]) -> bool
    ensures { IsTrue result ↔ (values.now ≡ others.now) }
{
    values == others
}

/// Whether the runs are the same, in their order.
pub fn same_runs(runs: &[(Call, u32)], others: &[(Call, u32)]) -> bool
    ensures { IsTrue result ↔ (runs.now ≡ others.now) }
{
    runs == others
}

fn same_transaction(a: &Tx, b: &Tx) -> bool
    ensures { IsTrue result ↔ (transaction_of a.now ≡ transaction_of b.now) }
{
    same_name(a.name.as_str(), b.name.as_str())
        && same_names(&a.params, &b.params)
        && same_statement(&a.body, &b.body)
        && same_expression(&a.result, &b.result)
}

/// Whether the transactions say the same, in their order.
pub fn same_transactions(txs: &[Tx], others: &[Tx]) -> bool
    ensures { IsTrue result ↔ (map transaction_of txs.now ≡ map transaction_of others.now) }
{
    let mut rest = others;
    for tx in txs {
        let [other, more @ ..] = rest else {
            return false;
        };
        if !same_transaction(tx, other) {
            return false;
        }
        rest = more;
    }
    rest.is_empty()
}

fn same_standing(a: &(String, Cond), b: &(String, Cond)) -> bool
    ensures { IsTrue result ↔ (standing_of a.now ≡ standing_of b.now) }
{
    same_name(a.0.as_str(), b.0.as_str()) && same_condition(&a.1, &b.1)
}

/// Whether the standing conditions say the same, in their order.
pub fn same_always(always: &[(String, Cond)], others: &[(String, Cond)]) -> bool
    ensures { IsTrue result ↔ (map standing_of always.now ≡ map standing_of others.now) }
{
    let mut rest = others;
    for standing in always {
        let [other, more @ ..] = rest else {
            return false;
        };
        if !same_standing(standing, other) {
            return false;
        }
        rest = more;
    }
    rest.is_empty()
}

/// Whether the names are the same, in their order.
pub fn same_names(names: &[String], others: &[String]) -> bool
    ensures { IsTrue result ↔ (map string_bytes names.now ≡ map string_bytes others.now) }
{
    names == others
}

/// Whether the tables have the same names and as many cells, in their order.
pub fn same_tables(tables: &[(String, u32)], others: &[(String, u32)]) -> bool
    ensures { IsTrue result
        ↔ (map counted tables.now ≡ map counted others.now) }
{
    tables == others
}
