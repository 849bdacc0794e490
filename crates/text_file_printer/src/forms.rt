//! The canonical text of expressions, conditions and statements.

ghost use Rattle.std.specs.Prelude.{◌≡◌, ◌<◌, ◌++◌, FitsSigned, OnOk, codes, length, pos, string_bytes};
ghost use Rattle.std.specs.Fmt.{decimal, signed_decimal};
ghost use Rattle.std.specs.Int.{w64};
ghost use Rattle.txn_programs.specs.Tree.{expression_of, condition_of, statement_of, statements_of_list};
ghost use Rattle.text_grammar.specs.Written.{name_at, name_of, scope_of, written_expression, written_condition};
ghost use Rattle.text_grammar.specs.Written.{written_statement, written_statements};
ghost use Rattle.text_file_printer.specs.Canonical.{form_text, spaced, expr_text, cond_text, stmt_text, stmts_text};
ghost use Rattle.text_grammar.specs.Tree.{Seq};
ghost use Rattle.text_file_printer.specs.Named.{ExpressionNamed, ConditionNamed, StatementNamed, StatementsNamed};
ghost use Rattle.text_file_printer.specs.Scopes.{view_scope};
ghost use Rattle.text_file_printer.specs.Fits.{ExprFits, CondFits, StmtFits, StmtsFit};

use std::alloc::AllocError;
use std::fmt::Write;
use txn::{Catalogue, Cond, Expr, ParamId, Span, Stmt, VarId};

/// The names that are written: those of the catalogue's variables and tables, and those of a transaction's parameters.
#[derive(Clone, Copy)]
pub(crate) struct Scope<'a> {
    pub(crate) catalogue: &'a Catalogue,
    pub(crate) params: &'a [String],
}

fn put_int(out: &mut String, n: i64) -> Result<(), AllocError>
    ensures text { OnOk result (string_bytes out.new ≡ string_bytes out.old ++ signed_decimal n) }
    ensures fits { FitsSigned w64 n }
{
    write!(out, "{n}")
}

/// A parenthesis, a word and a space.
fn put_opening(out: &mut String, word: &str) -> Result<(), AllocError>
    ensures { OnOk result (string_bytes out.new ≡ string_bytes out.old ++ (codes "(" ++ (word.now ++ codes " "))) }
{
    write!(out, "({word} ")
}

/// The beginning of a repeated statement, to its count.
fn put_repeat(out: &mut String, n: u32) -> Result<(), AllocError>
    ensures text { OnOk result (string_bytes out.new ≡ string_bytes out.old ++ (codes "(repeat " ++ decimal n)) }
    ensures fits { FitsSigned w64 (pos n) }
{
    write!(out, "(repeat {n}")
}

fn put_name(out: &mut String, scope: &Scope<'_>, x: VarId) -> Result<(), AllocError>
    requires { x.0 < length (view_scope scope.now).variables }
    ensures { OnOk result
        (string_bytes out.new ≡ string_bytes out.old ++ name_at (view_scope scope.now).variables x.0) }
{
    out.push_str(scope.catalogue.var_name(x))
}

fn put_param(out: &mut String, scope: &Scope<'_>, p: ParamId) -> Result<(), AllocError>
    requires { p.0 < length (view_scope scope.now).parameters }
    ensures { OnOk result (string_bytes out.new
        ≡ string_bytes out.old ++ name_at (view_scope scope.now).parameters p.0) }
{
    out.push_str(scope.params[p.0 as usize].as_str())
}

/// The name of the table with these cells, found among the few that there are.
fn table_name<'a>(catalogue: &'a Catalogue, table: Span) -> &'a str
    ensures { result.now ≡ name_of (scope_of catalogue.now) table }
{
    catalogue.rules();
    let mut first = catalogue.var_count() as u32;
    'tables: for (name, count) in catalogue.tables() {
        if table.first == first && table.length == *count {
            return name.as_str();
        }
        first += *count;
    }
    ""
}

/// All cells of a table, behind a word.
fn put_fold(out: &mut String, scope: &Scope<'_>, word: &str, table: Span) -> Result<(), AllocError>
    ensures { OnOk result (string_bytes out.new
        ≡ string_bytes out.old ++ form_text word.now (spaced (name_of (view_scope scope.now) table))) }
{
    put_opening(out, word)?;
    out.push_str(table_name(scope.catalogue, table))?;
    out.push_str(")")
}

#[cycle(exprs)]
fn put_expr(out: &mut String, scope: &Scope<'_>, e: &Expr) -> Result<(), AllocError>
    requires { ExpressionNamed (view_scope scope.now) (expression_of e.now) }
    ensures text { OnOk result (string_bytes out.new
        ≡ string_bytes out.old ++ expr_text (written_expression (view_scope scope.now) (expression_of e.now))) }
    ensures fits { OnOk result (ExprFits (written_expression (view_scope scope.now) (expression_of e.now))) }
{
    match e {
        Expr::Int(n) => put_int(out, *n),
        Expr::Var(x) => put_name(out, scope, *x),
        Expr::Param(p) => put_param(out, scope, *p),
        Expr::At(table, index) => put_cell(out, scope, *table, index),
        Expr::Sum(table) => put_fold(out, scope, "sum", *table),
        Expr::Min(table) => put_fold(out, scope, "min", *table),
        Expr::Max(table) => put_fold(out, scope, "max", *table),
        Expr::Add(a, b) => put_operation(out, scope, "add", a, b),
        Expr::Sub(a, b) => put_operation(out, scope, "sub", a, b),
        Expr::Mul(a, b) => put_operation(out, scope, "mul", a, b),
        Expr::Div(a, b) => put_operation(out, scope, "div", a, b),
        Expr::Rem(a, b) => put_operation(out, scope, "rem", a, b),
    }
}

/// A cell of a table, by its number.
#[cycle(exprs)]
fn put_cell(
    out: &mut String,
    scope: &Scope<'_>,
    table: Span,
    index: &Expr,
) -> Result<(), AllocError>
    requires { ExpressionNamed (view_scope scope.now) (expression_of index.now) }
    ensures text { OnOk result (string_bytes out.new
        ≡ string_bytes out.old
        ++ form_text (codes "at") (spaced (name_of (view_scope scope.now) table)
        ++ spaced (expr_text (written_expression (view_scope scope.now) (expression_of index.now))))) }
    ensures fits { OnOk result (ExprFits (written_expression (view_scope scope.now) (expression_of index.now))) }
{
    out.push_str("(at ")?;
    out.push_str(table_name(scope.catalogue, table))?;
    put_last_expression(out, scope, index)
}

/// A parenthesis, a word, and an expression as the first part.
#[cycle(exprs)]
fn put_first_expression(
    out: &mut String,
    scope: &Scope<'_>,
    word: &str,
    e: &Expr,
) -> Result<(), AllocError>
    requires { ExpressionNamed (view_scope scope.now) (expression_of e.now) }
    ensures text { OnOk result (string_bytes out.new
        ≡ string_bytes out.old
        ++ (codes "("
        ++ (word.now ++ spaced (expr_text (written_expression (view_scope scope.now) (expression_of e.now)))))) }
    ensures fits { OnOk result (ExprFits (written_expression (view_scope scope.now) (expression_of e.now))) }
{
    put_opening(out, word)?;
    put_expr(out, scope, e)
}

/// An expression as the last part, and the closing parenthesis.
#[cycle(exprs)]
pub(crate) fn put_last_expression(
    out: &mut String,
    scope: &Scope<'_>,
    e: &Expr,
) -> Result<(), AllocError>
    requires { ExpressionNamed (view_scope scope.now) (expression_of e.now) }
    ensures text { OnOk result (string_bytes out.new
        ≡ string_bytes out.old
        ++ (spaced (expr_text (written_expression (view_scope scope.now) (expression_of e.now))) ++ codes ")")) }
    ensures fits { OnOk result (ExprFits (written_expression (view_scope scope.now) (expression_of e.now))) }
{
    out.push_str(" ")?;
    put_expr(out, scope, e)?;
    out.push_str(")")
}

/// A word and two expressions, in parentheses.
#[cycle(exprs)]
fn put_operation(
    out: &mut String,
    scope: &Scope<'_>,
    word: &str,
    left: &Expr,
    right: &Expr,
) -> Result<(), AllocError>
    requires left { ExpressionNamed (view_scope scope.now) (expression_of left.now) }
    requires right { ExpressionNamed (view_scope scope.now) (expression_of right.now) }
    ensures text { OnOk result (string_bytes out.new
        ≡ string_bytes out.old
        ++ form_text word.now (spaced (expr_text (written_expression (view_scope scope.now) (expression_of left.now)))
        ++ spaced (expr_text (written_expression (view_scope scope.now) (expression_of right.now))))) }
    ensures left_fits { OnOk result (ExprFits (written_expression (view_scope scope.now) (expression_of left.now))) }
    ensures right_fits { OnOk result (ExprFits (written_expression (view_scope scope.now) (expression_of right.now))) }
{
    put_first_expression(out, scope, word, left)?;
    put_last_expression(out, scope, right)
}

#[cycle(conds)]
fn put_cond(out: &mut String, scope: &Scope<'_>, c: &Cond) -> Result<(), AllocError>
    requires { ConditionNamed (view_scope scope.now) (condition_of c.now) }
    ensures text { OnOk result (string_bytes out.new
        ≡ string_bytes out.old ++ cond_text (written_condition (view_scope scope.now) (condition_of c.now))) }
    ensures fits { OnOk result (CondFits (written_condition (view_scope scope.now) (condition_of c.now))) }
{
    match c {
        Cond::Eq(a, b) => put_operation(out, scope, "eq", a, b),
        Cond::Lt(a, b) => put_operation(out, scope, "lt", a, b),
        Cond::Le(a, b) => put_operation(out, scope, "le", a, b),
        Cond::Not(c) => {
            put_first_condition(out, scope, "not", c)?;
            out.push_str(")")
        }
        Cond::And(a, b) => put_connection(out, scope, "and", a, b),
        Cond::Or(a, b) => put_connection(out, scope, "or", a, b),
    }
}

/// A word and two conditions, in parentheses.
#[cycle(conds)]
fn put_connection(
    out: &mut String,
    scope: &Scope<'_>,
    word: &str,
    left: &Cond,
    right: &Cond,
) -> Result<(), AllocError>
    requires left { ConditionNamed (view_scope scope.now) (condition_of left.now) }
    requires right { ConditionNamed (view_scope scope.now) (condition_of right.now) }
    ensures text { OnOk result (string_bytes out.new
        ≡ string_bytes out.old
        ++ form_text word.now (spaced (cond_text (written_condition (view_scope scope.now) (condition_of left.now)))
        ++ spaced (cond_text (written_condition (view_scope scope.now) (condition_of right.now))))) }
    ensures left_fits { OnOk result (CondFits (written_condition (view_scope scope.now) (condition_of left.now))) }
    ensures right_fits { OnOk result (CondFits (written_condition (view_scope scope.now) (condition_of right.now))) }
{
    put_first_condition(out, scope, word, left)?;
    put_last_condition(out, scope, right)
}

/// A parenthesis, a word, and a condition as the first part.
#[cycle(conds)]
fn put_first_condition(
    out: &mut String,
    scope: &Scope<'_>,
    word: &str,
    c: &Cond,
) -> Result<(), AllocError>
    requires { ConditionNamed (view_scope scope.now) (condition_of c.now) }
    ensures text { OnOk result (string_bytes out.new
        ≡ string_bytes out.old
        ++ (codes "("
        ++ (word.now ++ spaced (cond_text (written_condition (view_scope scope.now) (condition_of c.now)))))) }
    ensures fits { OnOk result (CondFits (written_condition (view_scope scope.now) (condition_of c.now))) }
{
    put_opening(out, word)?;
    put_cond(out, scope, c)
}

/// A condition as the last part, and the closing parenthesis.
#[cycle(conds)]
pub(crate) fn put_last_condition(
    out: &mut String,
    scope: &Scope<'_>,
    c: &Cond,
) -> Result<(), AllocError>
    requires { ConditionNamed (view_scope scope.now) (condition_of c.now) }
    ensures text { OnOk result (string_bytes out.new
        ≡ string_bytes out.old
        ++ (spaced (cond_text (written_condition (view_scope scope.now) (condition_of c.now))) ++ codes ")")) }
    ensures fits { OnOk result (CondFits (written_condition (view_scope scope.now) (condition_of c.now))) }
{
    out.push_str(" ")?;
    put_cond(out, scope, c)?;
    out.push_str(")")
}

fn put_set(out: &mut String, scope: &Scope<'_>, x: VarId, e: &Expr) -> Result<(), AllocError>
    requires name { x.0 < length (view_scope scope.now).variables }
    requires value { ExpressionNamed (view_scope scope.now) (expression_of e.now) }
    ensures text { OnOk result (string_bytes out.new
        ≡ string_bytes out.old
        ++ form_text (codes "set") (spaced (name_at (view_scope scope.now).variables x.0)
        ++ spaced (expr_text (written_expression (view_scope scope.now) (expression_of e.now))))) }
    ensures fits { OnOk result (ExprFits (written_expression (view_scope scope.now) (expression_of e.now))) }
{
    out.push_str("(set ")?;
    put_name(out, scope, x)?;
    put_last_expression(out, scope, e)
}

/// A cell of a table becomes a number.
fn put_put(
    out: &mut String,
    scope: &Scope<'_>,
    table: Span,
    index: &Expr,
    value: &Expr,
) -> Result<(), AllocError>
    requires index { ExpressionNamed (view_scope scope.now) (expression_of index.now) }
    requires value { ExpressionNamed (view_scope scope.now) (expression_of value.now) }
    ensures text { OnOk result (string_bytes out.new
        ≡ string_bytes out.old
        ++ form_text (codes "put") (spaced (name_of (view_scope scope.now) table)
        ++ (spaced (expr_text (written_expression (view_scope scope.now) (expression_of index.now)))
        ++ spaced (expr_text (written_expression (view_scope scope.now) (expression_of value.now)))))) }
    ensures index_fits { OnOk result (ExprFits (written_expression (view_scope scope.now) (expression_of index.now))) }
    ensures value_fits { OnOk result (ExprFits (written_expression (view_scope scope.now) (expression_of value.now))) }
{
    out.push_str("(put ")?;
    out.push_str(table_name(scope.catalogue, table))?;
    out.push_str(" ")?;
    put_expr(out, scope, index)?;
    put_last_expression(out, scope, value)
}

#[cycle(put_stmt)]
fn put_stmt(out: &mut String, scope: &Scope<'_>, s: &Stmt) -> Result<(), AllocError>
    requires { StatementNamed (view_scope scope.now) (statement_of s.now) }
    ensures text { OnOk result (string_bytes out.new
        ≡ string_bytes out.old ++ stmt_text (written_statement (view_scope scope.now) (statement_of s.now))) }
    ensures fits { OnOk result (StmtFits (written_statement (view_scope scope.now) (statement_of s.now))) }
{
    match s {
        Stmt::Skip => out.push_str("(skip)"),
        Stmt::Set(x, e) => put_set(out, scope, *x, e),
        Stmt::Put(table, index, value) => put_put(out, scope, *table, index, value),
        Stmt::Seq(parts) => put_seq(out, scope, parts.as_slice()),
        Stmt::If(c, a, b) => {
            put_first_condition(out, scope, "if", c)?;
            put_part(out, scope, a)?;
            put_last_statement(out, scope, b)
        }
        Stmt::Repeat(n, s) => {
            put_repeat(out, *n)?;
            put_last_statement(out, scope, s)
        }
        Stmt::Retry => out.push_str("(retry)"),
        Stmt::OrElse(a, b) => {
            out.push_str("(orelse")?;
            put_part(out, scope, a)?;
            put_last_statement(out, scope, b)
        }
        Stmt::Throw(e) => {
            out.push_str("(throw")?;
            put_last_expression(out, scope, e)
        }
    }
}

/// A statement behind a space.
#[cycle(put_stmt)]
pub(crate) fn put_part(out: &mut String, scope: &Scope<'_>, s: &Stmt) -> Result<(), AllocError>
    requires { StatementNamed (view_scope scope.now) (statement_of s.now) }
    ensures text { OnOk result (string_bytes out.new
        ≡ string_bytes out.old ++ spaced (stmt_text (written_statement (view_scope scope.now) (statement_of s.now)))) }
    ensures fits { OnOk result (StmtFits (written_statement (view_scope scope.now) (statement_of s.now))) }
{
    out.push_str(" ")?;
    put_stmt(out, scope, s)
}

/// A statement as the last part, and the closing parenthesis.
#[cycle(put_stmt)]
fn put_last_statement(out: &mut String, scope: &Scope<'_>, s: &Stmt) -> Result<(), AllocError>
    requires { StatementNamed (view_scope scope.now) (statement_of s.now) }
    ensures text { OnOk result (string_bytes out.new
        ≡ string_bytes out.old
        ++ (spaced (stmt_text (written_statement (view_scope scope.now) (statement_of s.now))) ++ codes ")")) }
    ensures fits { OnOk result (StmtFits (written_statement (view_scope scope.now) (statement_of s.now))) }
{
    out.push_str(" ")?;
    put_stmt(out, scope, s)?;
    out.push_str(")")
}

#[cycle(put_stmt)]
fn put_seq(out: &mut String, scope: &Scope<'_>, parts: &[Stmt]) -> Result<(), AllocError>
    requires { StatementsNamed (view_scope scope.now) (statements_of_list parts.now) }
    ensures text { OnOk result (string_bytes out.new
        ≡ string_bytes out.old
        ++ stmt_text (Seq (written_statements (view_scope scope.now) (statements_of_list parts.now)))) }
    ensures fits { OnOk result (StmtsFit (written_statements (view_scope scope.now) (statements_of_list parts.now))) }
{
    out.push_str("(seq")?;
    for part in parts {
        put_part(out, scope, part)?;
    }
    out.push_str(")")
}
