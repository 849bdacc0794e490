//! From the tree of a file to conditions and transactions: names as ids, and integers as numbers of
//! the machine.

ghost use Rattle.std.specs.Prelude.{◌≡◌, ◌⊎◌, true, Ok, IfErr, map, string_bytes};
ghost use Rattle.std.specs.List.{list_all};
ghost use Rattle.txn_programs.specs.Tree.{OfAll, expression_of, condition_of, statement_of, transaction_of};
ghost use Rattle.text_words.specs.Answers.{Gives};
ghost use Rattle.text_words.specs.declared.fault.ReadFault.TheVariants.{Name, Limit};
ghost use Rattle.text_grammar.specs.Resolving.{uses_known, place_in};
ghost use Rattle.text_grammar.specs.Resolving.{variable_in, parameter_in, named_in, binary, compare, connect};
ghost use Rattle.text_grammar.specs.Resolving.{expression_in, condition_in, statement_in, variable_of, always_in};
ghost use Rattle.text_grammar.specs.Resolving.{transaction_in, arguments_in, run_in, each, resolved};
ghost use Rattle.text_words.specs.Bytes.{int_value};
ghost use Rattle.text_grammar.specs.Reading.{row};
ghost use Rattle.text_grammar.specs.Tree.{Compare, Set, Put, Seq, Repeat, Throw};
ghost use Rattle.text_resolver.specs.Texts.{texts};
ghost use Rattle.text_resolver.specs.Scopes.{view_scope, has_own_parameters};
ghost use Rattle.text_resolver.specs.DeclaredNames.{view_declared, known_scope, converted_by};
ghost use Rattle.text_grammar.specs.View.{view_expr, view_cond, view_stmt, view_stmts, view_pair, view_pairs};
ghost use Rattle.text_grammar.specs.View.{view_always, view_conditions, view_names, view_tx, view_txs, view_numbers};
ghost use Rattle.text_grammar.specs.View.{view_run, view_runs, view_file};
ghost use Rattle.text_resolver.specs.Parts.{view_variable, view_condition, view_parts};

use crate::judging::{DeclaredNames, judged_names};
use crate::names::{Scope, is_known, param_names, place_of};
use crate::tables::{spans, table, tables};
use indexmap::IndexSet;
use std::alloc::Global;
use text_grammar::cond::RawCond;
use text_grammar::expr::RawExpr;
use text_grammar::file::{RawAlways, RawFile, RawPair, RawRun, RawTx};
use text_grammar::stmt::RawStmt;
use text_grammar::words::{Comparison, Connective, Operator};
use text_words::ReadFault;
use text_words::numeral::Numeral;
use txn_programs::limits::MAX_PARAMETERS;
use txn_programs::{
    Arguments, Call, Cond, Expr, Fold, ParamId, Span, Stmt, Table, Tx, TxId, VarId,
};

/// The place of a declared name. It fails by `Name` where none of this name is declared, and by `Limit` where 32 bits
/// have no room for its place.
#[tactic(auto, unfolding(text_grammar::specs::Resolving::place_in))]
pub fn place_in(names: &IndexSet<&str>, name: &str) -> Result<u32, ReadFault>
    ensures value { Gives (λ x. x) result (place_in (texts names.now.keys) name.now) }
    ensures kind { IfErr result (λ e. (e ≡ Name) ⊎ (e ≡ Limit)) }
{
    let place = place_of(names, name).ok_or(ReadFault::Name)?;
    u32::try_from(place).ok().ok_or(ReadFault::Limit)
}

/// The id of a declared variable. It fails by `Name` where none of this name is declared, and by
/// `Limit` where 32 bits have no room for its place.
#[tactic(auto, unfolding(text_grammar::specs::Resolving::variable_in))]
pub fn variable(names: &IndexSet<&str>, name: &str) -> Result<VarId, ReadFault>
    ensures value { Gives (λ x. x) result (variable_in (texts names.now.keys) name.now) }
    ensures kind { IfErr result (λ e. (e ≡ Name) ⊎ (e ≡ Limit)) }
{
    let place = place_in(names, name)?;
    Ok(VarId(place))
}

/// The id of a declared parameter. It fails as `variable` does.
#[tactic(auto, unfolding(text_grammar::specs::Resolving::parameter_in))]
fn parameter(names: &IndexSet<&str>, name: &str) -> Result<ParamId, ReadFault>
    ensures value { Gives (λ x. x) result (parameter_in (texts names.now.keys) name.now) }
    ensures kind { IfErr result (λ e. (e ≡ Name) ⊎ (e ≡ Limit)) }
{
    let place = place_in(names, name)?;
    Ok(ParamId(place))
}

/// The parameter or the variable of a name. It fails by `Name` where none of this name is declared, and by `Limit`
/// where 32 bits have no room for its place.
pub fn named(scope: &Scope<'_, '_>, name: &str) -> Result<Expr, ReadFault>
    ensures value { Gives expression_of result (named_in (view_scope scope.now) name.now) }
    ensures kind { IfErr result (λ e. (e ≡ Name) ⊎ (e ≡ Limit)) }
{
    if is_known(scope.params, name) {
        let id = parameter(scope.params, name)?;
        return Ok(Expr::Param(id));
    }
    let id = variable(scope.vars, name)?;
    Ok(Expr::Var(id))
}

/// The operation that an operator makes of two expressions.
pub fn binary(op: Operator, left: Box<Expr>, right: Box<Expr>) -> Expr
    ensures { expression_of result ≡ binary op (expression_of left.value) (expression_of right.value) }
{
    match op {
        Operator::Add => Expr::Add(left, right),
        Operator::Sub => Expr::Sub(left, right),
        Operator::Mul => Expr::Mul(left, right),
        Operator::Div => Expr::Div(left, right),
        Operator::Rem => Expr::Rem(left, right),
    }
}

/// What is made of all cells of a table.
pub fn of_all(fold: Fold, span: Span) -> Expr
    ensures { expression_of result ≡ OfAll fold span }
{
    match fold {
        Fold::Sum => Expr::Sum(span),
        Fold::Min => Expr::Min(span),
        Fold::Max => Expr::Max(span),
    }
}

#[cycle(expressions)]
fn expression(alloc: Global, scope: &Scope<'_, '_>, e: &RawExpr<'_>) -> Result<Expr, ReadFault>
    ensures { Gives expression_of result (expression_in (view_scope scope.now) (view_expr e.now)) }
{
    match e {
        RawExpr::Int(numeral) => {
            let number = numeral.number()?;
            Ok(Expr::Int(number))
        }
        RawExpr::Name(name) => {
            let made = named(scope, *name)?;
            Ok(made)
        }
        RawExpr::At(name, index) => {
            let span = table(scope, *name)?;
            let index = boxed_expression(alloc, scope, index)?;
            Ok(Expr::At(span, index))
        }
        RawExpr::OfAll(fold, name) => {
            let span = table(scope, *name)?;
            Ok(of_all(*fold, span))
        }
        RawExpr::Binary(op, left, right) => {
            let left = boxed_expression(alloc, scope, left)?;
            let right = boxed_expression(alloc, scope, right)?;
            Ok(binary(*op, left, right))
        }
    }
}

/// An expression that stands in another.
#[cycle(expressions)]
fn boxed_expression(
    alloc: Global,
    scope: &Scope<'_, '_>,
    e: &RawExpr<'_>,
) -> Result<Box<Expr>, ReadFault>
    ensures { Gives (λ b. expression_of b.value) result (expression_in (view_scope scope.now) (view_expr e.now)) }
{
    let made = expression(alloc, scope, e)?;
    let held = Box::new(alloc, made)?;
    Ok(held)
}

/// The condition that a comparison makes of two expressions.
pub fn compare(op: Comparison, left: Expr, right: Expr) -> Cond
    ensures { condition_of result ≡ compare op (expression_of left) (expression_of right) }
{
    match op {
        Comparison::Eq => Cond::Eq(left, right),
        Comparison::Lt => Cond::Lt(left, right),
        Comparison::Le => Cond::Le(left, right),
    }
}

fn comparison(
    alloc: Global,
    scope: &Scope<'_, '_>,
    op: Comparison,
    left: &RawExpr<'_>,
    right: &RawExpr<'_>,
) -> Result<Cond, ReadFault>
    ensures { Gives condition_of result
        (condition_in (view_scope scope.now) (Compare op (view_expr left.now) (view_expr right.now))) }
{
    let left = expression(alloc, scope, left)?;
    match expression(alloc, scope, right) {
        Ok(right) => Ok(compare(op, left, right)),
        Err(fault) => {
            drop(left);
            Err(fault)
        }
    }
}

/// The condition that is made of two.
pub fn connect(op: Connective, left: Box<Cond>, right: Box<Cond>) -> Cond
    ensures { condition_of result ≡ connect op (condition_of left.value) (condition_of right.value) }
{
    match op {
        Connective::And => Cond::And(left, right),
        Connective::Or => Cond::Or(left, right),
    }
}

#[cycle(conditions)]
fn condition(alloc: Global, scope: &Scope<'_, '_>, c: &RawCond<'_>) -> Result<Cond, ReadFault>
    ensures { Gives condition_of result (condition_in (view_scope scope.now) (view_cond c.now)) }
{
    match c {
        RawCond::Compare(op, left, right) => comparison(alloc, scope, *op, left, right),
        RawCond::Not(inner) => {
            let inner = boxed_condition(alloc, scope, inner)?;
            Ok(Cond::Not(inner))
        }
        RawCond::Connect(op, left, right) => {
            let left = boxed_condition(alloc, scope, left)?;
            let right = boxed_condition(alloc, scope, right)?;
            Ok(connect(*op, left, right))
        }
    }
}

#[cycle(conditions)]
fn boxed_condition(
    alloc: Global,
    scope: &Scope<'_, '_>,
    c: &RawCond<'_>,
) -> Result<Box<Cond>, ReadFault>
    ensures { Gives (λ b. condition_of b.value) result (condition_in (view_scope scope.now) (view_cond c.now)) }
{
    let made = condition(alloc, scope, c)?;
    let held = Box::new(alloc, made)?;
    Ok(held)
}

fn setting(
    alloc: Global,
    scope: &Scope<'_, '_>,
    name: &str,
    value: &RawExpr<'_>,
) -> Result<Stmt, ReadFault>
    ensures { Gives statement_of result (statement_in (view_scope scope.now) (Set name.now (view_expr value.now))) }
{
    let id = variable(scope.vars, name)?;
    let value = expression(alloc, scope, value)?;
    Ok(Stmt::Set(id, value))
}

fn putting(
    alloc: Global,
    scope: &Scope<'_, '_>,
    name: &str,
    index: &RawExpr<'_>,
    value: &RawExpr<'_>,
) -> Result<Stmt, ReadFault>
    ensures { Gives statement_of result
        (statement_in (view_scope scope.now) (Put name.now (view_expr index.now) (view_expr value.now))) }
{
    let span = table(scope, name)?;
    let index = expression(alloc, scope, index)?;
    match expression(alloc, scope, value) {
        Ok(value) => Ok(Stmt::Put(span, index, value)),
        Err(fault) => {
            drop(index);
            Err(fault)
        }
    }
}

fn throwing(alloc: Global, scope: &Scope<'_, '_>, value: &RawExpr<'_>) -> Result<Stmt, ReadFault>
    ensures { Gives statement_of result (statement_in (view_scope scope.now) (Throw (view_expr value.now))) }
{
    let value = expression(alloc, scope, value)?;
    Ok(Stmt::Throw(value))
}

#[cycle(resolving)]
fn statement(alloc: Global, scope: &Scope<'_, '_>, s: &RawStmt<'_>) -> Result<Stmt, ReadFault>
    ensures { Gives statement_of result (statement_in (view_scope scope.now) (view_stmt s.now)) }
{
    match s {
        RawStmt::Skip => Ok(Stmt::Skip),
        RawStmt::Set(name, value) => setting(alloc, scope, *name, value),
        RawStmt::Put(name, index, value) => putting(alloc, scope, *name, index, value),
        RawStmt::Seq(parts) => sequence(alloc, scope, parts.as_slice()),
        RawStmt::If(test, first, second) => {
            let test = condition(alloc, scope, test)?;
            match boxed_statement(alloc, scope, first) {
                Ok(first) => match boxed_statement(alloc, scope, second) {
                    Ok(second) => Ok(Stmt::If(test, first, second)),
                    Err(fault) => {
                        drop(test);
                        Err(fault)
                    }
                },
                Err(fault) => {
                    drop(test);
                    Err(fault)
                }
            }
        }
        RawStmt::Repeat(count, body) => repetition(alloc, scope, *count, body),
        RawStmt::Retry => Ok(Stmt::Retry),
        RawStmt::OrElse(first, second) => {
            let first = boxed_statement(alloc, scope, first)?;
            let second = boxed_statement(alloc, scope, second)?;
            Ok(Stmt::OrElse(first, second))
        }
        RawStmt::Throw(value) => throwing(alloc, scope, value),
        RawStmt::Call(..) => Err(ReadFault::Limit),
    }
}

/// The statements of a sequence as one.
#[cycle(resolving)]
fn sequence(alloc: Global, scope: &Scope<'_, '_>, parts: &[RawStmt<'_>]) -> Result<Stmt, ReadFault>
    ensures { Gives statement_of result (statement_in (view_scope scope.now) (Seq (row (view_stmts parts.now)))) }
{
    let parts = statements(alloc, scope, parts)?;
    Ok(Stmt::Seq(parts))
}

/// A statement that is run a number of times.
#[cycle(resolving)]
fn repetition(
    alloc: Global,
    scope: &Scope<'_, '_>,
    count: Numeral<'_>,
    body: &RawStmt<'_>,
) -> Result<Stmt, ReadFault>
    ensures { Gives statement_of result
        (statement_in (view_scope scope.now) (Repeat (int_value count.entry.text.now) (view_stmt body.now))) }
{
    let count = count.count()?;
    let body = boxed_statement(alloc, scope, body)?;
    Ok(Stmt::Repeat(count, body))
}

#[cycle(resolving)]
fn boxed_statement(
    alloc: Global,
    scope: &Scope<'_, '_>,
    s: &RawStmt<'_>,
) -> Result<Box<Stmt>, ReadFault>
    ensures { Gives (λ b. statement_of b.value) result (statement_in (view_scope scope.now) (view_stmt s.now)) }
{
    let made = statement(alloc, scope, s)?;
    let held = Box::new(alloc, made)?;
    Ok(held)
}

#[cycle(resolving)]
fn statements(
    alloc: Global,
    scope: &Scope<'_, '_>,
    parts: &[RawStmt<'_>],
) -> Result<Vec<Stmt>, ReadFault>
    ensures { Gives (λ made. map statement_of made.items) result
        (each (statement_in (view_scope scope.now)) (view_stmts parts.now)) }
{
    let mut made = Vec::with_capacity(alloc, parts.len())?;
    'parts: for part in parts {
        let statement = statement(alloc, scope, part)?;
        made.push(statement)?;
    }
    Ok(made)
}

/// A variable's name and first value.
fn variable_of(alloc: Global, pair: &RawPair<'_>) -> Result<(String, i64), ReadFault>
    ensures { Gives view_variable result (variable_of (view_pair pair.now)) }
{
    let value = pair.value.number()?;
    let name = String::from_str(alloc, pair.name)?;
    Ok((name, value))
}

/// The names and first values of variables. It fails by `Limit` where 64 signed bits have no room for
/// a value.
pub fn variables(alloc: Global, pairs: &[RawPair<'_>]) -> Result<Vec<(String, i64)>, ReadFault>
    ensures { Gives (λ made. map view_variable made.items) result (each variable_of (view_pairs pairs.now)) }
{
    let mut made = Vec::with_capacity(alloc, pairs.len())?;
    'pairs: for pair in pairs {
        let variable = variable_of(alloc, pair)?;
        made.push(variable)?;
    }
    Ok(made)
}

/// A condition that has to stand, with its name.
fn always(
    alloc: Global,
    outer: &Scope<'_, '_>,
    raw: &RawAlways<'_>,
) -> Result<(String, Cond), ReadFault>
    ensures { Gives view_condition result (always_in (view_scope outer.now) (view_always raw.now)) }
{
    let name = String::from_str(alloc, raw.name)?;
    let condition = condition(alloc, outer, &raw.condition)?;
    Ok((name, condition))
}

/// A condition that has to stand, whose tree is let go. It fails by `Name` where a name is not
/// declared, and by `Limit` where 64 signed bits have no room for an integer.
fn always_from(
    alloc: Global,
    outer: &Scope<'_, '_>,
    raw: RawAlways<'_>,
) -> Result<(String, Cond), ReadFault>
    ensures { Gives view_condition result (always_in (view_scope outer.now) (view_always raw.entry)) }
{
    let made = always(alloc, outer, &raw);
    drop(raw);
    made
}

/// The conditions that have to stand. The tree of each is let go as soon as it is made.
fn conditions(
    alloc: Global,
    outer: &Scope<'_, '_>,
    conditions: Vec<RawAlways<'_>>,
) -> Result<Vec<(String, Cond)>, ReadFault>
    ensures { Gives (λ made. map view_condition made.items) result
        (each (always_in (view_scope outer.now)) (view_conditions conditions.entry.items)) }
{
    let mut made = Vec::new(alloc);
    'conditions: for raw in conditions {
        let condition = always_from(alloc, outer, raw)?;
        made.push(condition)?;
    }
    Ok(made)
}

/// Texts, each of its own.
pub fn owned(alloc: Global, names: &[&str]) -> Result<Vec<String>, ReadFault>
    ensures { Gives (λ made. map string_bytes made.items) result (Ok (view_names names.now)) }
{
    let mut made = Vec::with_capacity(alloc, names.len())?;
    'names: for name in names {
        let text = String::from_str(alloc, *name)?;
        made.push(text)?;
    }
    Ok(made)
}

/// A transaction in its scope.
fn transaction_inside(alloc: Global, scope: &Scope<'_, '_>, tx: &RawTx<'_>) -> Result<Tx, ReadFault>
    requires own { (view_scope scope.now).parameters ≡ (view_tx tx.now).parameters }
    ensures { Gives transaction_of result (transaction_in (view_scope scope.now) (view_tx tx.now)) }
{
    let name = String::from_str(alloc, tx.name)?;
    let params = owned(alloc, &tx.params)?;
    let body = statement(alloc, scope, &tx.body)?;
    match expression(alloc, scope, &tx.value) {
        Ok(result) => Ok(Tx {
            name,
            params,
            body,
            result,
        }),
        Err(fault) => {
            drop(body);
            Err(fault)
        }
    }
}

/// A transaction whose parameters are new names.
fn transaction(alloc: Global, outer: &Scope<'_, '_>, tx: &RawTx<'_>) -> Result<Tx, ReadFault>
    requires own { has_own_parameters (view_scope outer.now) (view_tx tx.now) ≡ true }
    ensures { Gives transaction_of result (transaction_in (view_scope outer.now) (view_tx tx.now)) }
{
    let params = param_names(alloc, outer.vars, &tx.params)?;
    let scope = Scope {
        vars: outer.vars,
        tables: outer.tables,
        spans: outer.spans,
        params: &params,
    };
    transaction_inside(alloc, &scope, tx)
}

/// A transaction, whose tree is let go. It fails by `Name` where a name is not declared, and by
/// `Limit` where the machine has no room for a number.
fn transaction_from(alloc: Global, outer: &Scope<'_, '_>, tx: RawTx<'_>) -> Result<Tx, ReadFault>
    requires own { has_own_parameters (view_scope outer.now) (view_tx tx) ≡ true }
    ensures { Gives transaction_of result (transaction_in (view_scope outer.now) (view_tx tx.entry)) }
{
    let made = transaction(alloc, outer, &tx);
    drop(tx);
    made
}

/// The transactions. The tree of each is let go as soon as it is made, so that no more than one of
/// them stands twice.
fn transactions(
    alloc: Global,
    outer: &Scope<'_, '_>,
    txs: Vec<RawTx<'_>>,
) -> Result<Vec<Tx>, ReadFault>
    requires own { list_all (has_own_parameters (view_scope outer.now)) (view_txs txs.items) ≡ true }
    ensures { Gives (λ made. map transaction_of made.items) result
        (each (transaction_in (view_scope outer.now)) (view_txs txs.entry.items)) }
{
    let mut made = Vec::new(alloc);
    'txs: for tx in txs {
        let transaction = transaction_from(alloc, outer, tx)?;
        made.push(transaction)?;
    }
    Ok(made)
}

/// The arguments of a call. It fails by `Limit` where there are more than a transaction may have parameters, or where
/// 64 signed bits have no room for one.
fn arguments(numerals: &[Numeral<'_>]) -> Result<Arguments, ReadFault>
    ensures value { Gives (λ x. x) result (arguments_in (view_numbers numerals.now)) }
    ensures kind { IfErr result (λ e. e ≡ Limit) }
{
    if numerals.len() > MAX_PARAMETERS {
        return Err(ReadFault::Limit);
    }
    let mut values = [0; MAX_PARAMETERS];
    'numerals: for (i, numeral) in numerals.iter().enumerate() {
        values[i] = numeral.number()?;
    }
    Ok(Arguments::of(&values[..numerals.len()]))
}

/// A call, and how many tasks make it.
fn run(names: &IndexSet<&str>, raw: &RawRun<'_>) -> Result<(Call, u32), ReadFault>
    ensures value { Gives (λ x. x) result (run_in (texts names.now.keys) (view_run raw.now)) }
    ensures kind { IfErr result (λ e. (e ≡ Name) ⊎ (e ≡ Limit)) }
{
    let place = place_in(names, raw.name)?;
    let count = raw.count.count()?;
    let arguments = arguments(&raw.arguments)?;
    let call = Call {
        tx: TxId(place),
        arguments,
    };
    Ok((call, count))
}

/// The calls to make, each with how often. It fails by `Name` where a transaction is not
/// declared, and by `Limit` where the machine has no room for a count or an argument, or a call none for its arguments.
fn runs(
    alloc: Global,
    names: &IndexSet<&str>,
    raw: &[RawRun<'_>],
) -> Result<Vec<(Call, u32)>, ReadFault>
    ensures { Gives (λ made. made.items) result (each (run_in (texts names.now.keys)) (view_runs raw.now)) }
{
    let mut made = Vec::with_capacity(alloc, raw.len())?;
    'runs: for one in raw {
        let entry = run(names, one)?;
        made.push(entry)?;
    }
    Ok(made)
}

/// What a catalogue is built of.
#[derive(Drop)]
pub struct Parts {
    pub vars: Vec<(String, i64)>,
    pub tables: Vec<Table>,
    pub always: Vec<(String, Cond)>,
    pub txs: Vec<Tx>,
    pub runs: Vec<(Call, u32)>,
}

#[tactic(auto, unfolding(text_grammar::specs::Resolving::converted))]
fn convert(alloc: Global, names: &DeclaredNames<'_>, file: RawFile<'_>) -> Result<Parts, ReadFault>
    requires known { uses_known (known_scope (view_declared names.now)) (view_file file) ≡ true }
    ensures { Gives view_parts result (converted_by (view_declared names.now) (view_file file.entry)) }
{
    let variables = variables(alloc, &file.vars)?;
    let tables = tables(alloc, &file.tables)?;
    let spans = spans(alloc, names.vars.len(), &tables)?;
    let params = IndexSet::new(alloc);
    let outer = Scope {
        vars: &names.vars,
        tables: &names.tables,
        spans: &spans,
        params: &params,
    };
    let conditions = conditions(alloc, &outer, file.always)?;
    let transactions = transactions(alloc, &outer, file.txs)?;
    let runs = runs(alloc, &names.txs, &file.runs)?;
    Ok(Parts {
        vars: variables,
        tables,
        always: conditions,
        txs: transactions,
        runs,
    })
}

/// What the file declares, or its first fault: names are judged over the whole file before any
/// number is. It is a call, so that it takes no stack while the file's tree is read.
#[inline(never)]
pub fn resolve(alloc: Global, file: RawFile<'_>) -> Result<Parts, ReadFault>
    ensures { Gives view_parts result (resolved (view_file file.entry)) }
{
    match judged_names(alloc, &file) {
        Ok(names) => {
            let parts = convert(alloc, &names, file);
            drop(names);
            parts
        }
        Err(fault) => {
            drop(file);
            Err(fault)
        }
    }
}
