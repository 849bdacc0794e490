// Plain evaluation: what the definitions say, on a state of one value for each variable. A
// transaction is evaluated with arguments, as its instance that has them in place of its parameters;
// the instance itself is never made.

ghost use Rattle.std.specs.Prelude.{◌≡◌, ◌<◌, ◌≤◌, ◌^◌, length, IfOk};
ghost use Rattle.txn_programs.specs.Arithmetic.{difference_of, product_of, quotient_of, remainder_of};
ghost use Rattle.std.specs.Prelude.{vec_len, Ok, OnOk, OnErr};
ghost use Rattle.txn_programs.specs.Instance.{argument, instance_expression, instance_condition};
ghost use Rattle.txn_programs.specs.Instance.{instance_statement, instance_statements, instance};
ghost use Rattle.txn_programs.specs.Meaning.{then_value, value, truth, upheld, final, run, run_all, repeated};
ghost use Rattle.txn_programs.specs.Meaning.{outcome, after};
ghost use Rattle.txn_programs.specs.Scope.{ExpressionKnown, ConditionKnown, ConditionsKnown};
ghost use Rattle.txn_programs.specs.Scope.{StatementKnown, StatementsKnown, ProgramKnown, TableKnown};
ghost use Rattle.txn_programs.specs.Tables.{cell_of};
ghost use Rattle.txn_programs.specs.Tree.{expression_of, condition_of, statement_of};
ghost use Rattle.txn_programs.specs.Tree.{statements_of_list, transaction_of, under};
ghost use Rattle.txn_evaluator.specs.Flow.{ending_of};
ghost use Rattle.txn_evaluator.specs.Notes.{undone, AreInside, LeadBack};
ghost use Rattle.txn_evaluator.specs.Always.{conditions_of};

use crate::cells::{all_cells, cell, sum};
use crate::notes::{Note, undo, write};
use std::alloc::AllocError;
use txn_programs::{AlwaysId, Cond, Expr, Fault, Fold, Outcome, ParamId, Span, Stmt, Tx};

fn difference(x: i64, y: i64) -> Result<i64, Fault>
    ensures { result ≡ difference_of x y }
{
    x.checked_sub(y).ok_or(Fault::Overflow)
}

fn product(x: i64, y: i64) -> Result<i64, Fault>
    ensures { result ≡ product_of x y }
{
    x.checked_mul(y).ok_or(Fault::Overflow)
}

fn quotient(x: i64, y: i64) -> Result<i64, Fault>
    ensures { result ≡ quotient_of x y }
{
    if y == 0 {
        Err(Fault::DivideByZero)
    } else {
        x.checked_div(y).ok_or(Fault::Overflow)
    }
}

fn remainder(x: i64, y: i64) -> Result<i64, Fault>
    ensures { result ≡ remainder_of x y }
{
    if y == 0 {
        Err(Fault::DivideByZero)
    } else {
        x.checked_rem(y).ok_or(Fault::Overflow)
    }
}

/// The argument of a parameter: 0 where there is none.
fn argument(arguments: &[i64], p: ParamId) -> i64
    ensures { result ≡ argument arguments.now p }
{
    match arguments.get(p.0 as usize) {
        Some(given) => *given,
        None => 0,
    }
}

/// The value of an expression with these arguments, whose variables the state has.
pub fn value(arguments: &[i64], e: &Expr, state: &[i64]) -> Result<i64, Fault>
    requires { ExpressionKnown (length state.now) (instance_expression arguments.now (expression_of e.now)) }
    ensures { result ≡ value (instance_expression arguments.now (expression_of e.now)) state.now }
{
    match e {
        Expr::Int(n) => Ok(*n),
        Expr::Var(x) => Ok(state[x.0 as usize]),
        Expr::Param(p) => Ok(argument(arguments, *p)),
        Expr::At(table, a) => Ok(state[cell(*table, value(arguments, a, state)?)?]),
        Expr::Sum(table) => all_cells(Fold::Sum, *table, state),
        Expr::Min(table) => all_cells(Fold::Min, *table, state),
        Expr::Max(table) => all_cells(Fold::Max, *table, state),
        Expr::Add(a, b) => sum(value(arguments, a, state)?, value(arguments, b, state)?),
        Expr::Sub(a, b) => difference(value(arguments, a, state)?, value(arguments, b, state)?),
        Expr::Mul(a, b) => product(value(arguments, a, state)?, value(arguments, b, state)?),
        Expr::Div(a, b) => quotient(value(arguments, a, state)?, value(arguments, b, state)?),
        Expr::Rem(a, b) => remainder(value(arguments, a, state)?, value(arguments, b, state)?),
    }
}

/// Where in the state the cell that a `put` writes stands, and what it becomes.
fn target(
    arguments: &[i64],
    table: Span,
    a: &Expr,
    b: &Expr,
    state: &[i64],
) -> Result<(usize, i64), Fault>
    requires table { TableKnown (length state.now) table }
    requires index { ExpressionKnown (length state.now) (instance_expression arguments.now (expression_of a.now)) }
    requires value { ExpressionKnown (length state.now) (instance_expression arguments.now (expression_of b.now)) }
    ensures target { result ≡ then_value (value (instance_expression arguments.now (expression_of a.now)) state.now)
        (λ i. then_value (value (instance_expression arguments.now (expression_of b.now)) state.now)
        (λ v. then_value (cell_of table i) (λ x. Ok (x.0, v)))) }
    ensures inside { IfOk result (λ t. t.0 < length state.now) }
{
    let i = value(arguments, a, state)?;
    let v = value(arguments, b, state)?;
    Ok((cell(table, i)?, v))
}

/// Whether a condition holds with these arguments.
pub fn truth(arguments: &[i64], c: &Cond, state: &[i64]) -> Result<bool, Fault>
    requires { ConditionKnown (length state.now) (instance_condition arguments.now (condition_of c.now)) }
    ensures { result ≡ truth (instance_condition arguments.now (condition_of c.now)) state.now }
{
    match c {
        Cond::Eq(a, b) => Ok(value(arguments, a, state)? == value(arguments, b, state)?),
        Cond::Lt(a, b) => Ok(value(arguments, a, state)? < value(arguments, b, state)?),
        Cond::Le(a, b) => Ok(value(arguments, a, state)? <= value(arguments, b, state)?),
        Cond::Not(c) => Ok(!truth(arguments, c, state)?),
        Cond::And(a, b) => Ok(truth(arguments, a, state)? && truth(arguments, b, state)?),
        Cond::Or(a, b) => Ok(truth(arguments, a, state)? || truth(arguments, b, state)?),
    }
}

/// Whether a standing condition holds, which has no parameters.
pub fn standing_truth(c: &Cond, state: &[i64]) -> Result<bool, Fault>
    requires { ConditionKnown (length state.now) (condition_of c.now) }
    ensures { result ≡ truth (condition_of c.now) state.now }
{
    truth(&[], c, state)
}

/// How a statement ends.
#[derive(Clone, Copy)]
enum Flow {
    Done,
    Threw(Fault),
    Retried,
}

/// Runs a statement on a state, and notes what it writes. Where it does not end in `Done` the state is not to be used
/// until that is undone.
#[cycle(perform)]
fn perform(
    arguments: &[i64],
    s: &Stmt,
    state: &mut [i64],
    notes: &mut Vec<Note>,
) -> Result<Flow, AllocError>
    requires { StatementKnown (length state.old) (instance_statement arguments.now (statement_of s.now)) }
    ensures ends { IfOk result (λ flow. ending_of flow state.new
        ≡ run (instance_statement arguments.now (statement_of s.now)) state.old) }
    ensures back { LeadBack notes.old.items state.old notes.new.items state.new }
{
    match s {
        Stmt::Skip => Ok(Flow::Done),
        Stmt::Set(x, e) => match value(arguments, e, state) {
            Ok(v) => {
                write(state, notes, x.0 as usize, v)?;
                Ok(Flow::Done)
            }
            Err(f) => Ok(Flow::Threw(f)),
        },
        Stmt::Put(table, a, b) => match target(arguments, *table, a, b, state) {
            Ok((place, v)) => {
                write(state, notes, place, v)?;
                Ok(Flow::Done)
            }
            Err(f) => Ok(Flow::Threw(f)),
        },
        Stmt::Seq(parts) => perform_all(arguments, parts.as_slice(), state, notes),
        Stmt::If(c, a, b) => match truth(arguments, c, state) {
            Ok(true) => perform(arguments, a, state, notes),
            Ok(false) => perform(arguments, b, state, notes),
            Err(f) => Ok(Flow::Threw(f)),
        },
        Stmt::Repeat(n, s) => repeat(arguments, *n, s, state, notes),
        Stmt::Retry => Ok(Flow::Retried),
        Stmt::OrElse(first, second) => {
            let height = notes.len();
            match perform(arguments, first, state, notes)? {
                Flow::Retried => {
                    undo(state, notes, height);
                    perform(arguments, second, state, notes)
                }
                flow => Ok(flow),
            }
        }
        Stmt::Throw(e) => match value(arguments, e, state) {
            Ok(v) => Ok(Flow::Threw(Fault::User(v))),
            Err(f) => Ok(Flow::Threw(f)),
        },
    }
}

#[cycle(perform)]
fn perform_all(
    arguments: &[i64],
    parts: &[Stmt],
    state: &mut [i64],
    notes: &mut Vec<Note>,
) -> Result<Flow, AllocError>
    requires { StatementsKnown (length state.old)
        (instance_statements arguments.now (statements_of_list parts.now)) }
    ensures ends { IfOk result (λ flow. ending_of flow state.new
        ≡ run_all (instance_statements arguments.now (statements_of_list parts.now)) state.old) }
    ensures back { LeadBack notes.old.items state.old notes.new.items state.new }
{
    for part in parts {
        match perform(arguments, part, state, notes)? {
            Flow::Done => {}
            flow => return Ok(flow),
        }
    }
    Ok(Flow::Done)
}

#[cycle(perform)]
#[tactic(auto, using(txn_programs::proofs::Rows::repeated_step))]
fn repeat(
    arguments: &[i64],
    n: u32,
    s: &Stmt,
    state: &mut [i64],
    notes: &mut Vec<Note>,
) -> Result<Flow, AllocError>
    requires { StatementKnown (length state.old) (instance_statement arguments.now (statement_of s.now)) }
    ensures ends { IfOk result (λ flow. ending_of flow state.new
        ≡ repeated n (run (instance_statement arguments.now (statement_of s.now))) state.old) }
    ensures back { LeadBack notes.old.items state.old notes.new.items state.new }
{
    for _turn in 0..n {
        match perform(arguments, s, state, notes)? {
            Flow::Done => {}
            Flow::Threw(f) => return Ok(Flow::Threw(f)),
            Flow::Retried => return Ok(Flow::Retried),
        }
    }
    Ok(Flow::Done)
}

/// The value, where each standing condition is true of the state; else the fault that the first
/// which is not is broken, be it by no or by a fault.
fn upheld(always: &[(String, Cond)], state: &[i64], v: i64) -> Result<i64, Fault>
    requires known { ConditionsKnown (length state.now) (conditions_of always.now) }
    requires numbered { length always.now ≤ 2 ^ 32 }
    ensures { result ≡ upheld 0 (conditions_of always.now) state.now v }
{
    for (place, (_, condition)) in always.iter().enumerate() {
        match standing_truth(condition, state) {
            Ok(true) => {}
            _ => return Err(Fault::Broken(AlwaysId(place as u32))),
        }
    }
    Ok(v)
}

/// What a transaction returns in the state where its body is done: its result, where the standing
/// conditions are true of that state.
fn finish(arguments: &[i64], t: &Tx, always: &[(String, Cond)], state: &[i64]) -> Result<i64, Fault>
    requires result { ExpressionKnown (length state.now)
        (instance_expression arguments.now (expression_of t.now.result)) }
    requires known { ConditionsKnown (length state.now) (conditions_of always.now) }
    requires numbered { length always.now ≤ 2 ^ 32 }
    ensures { result
        ≡ final (instance arguments.now (under (conditions_of always.now) (transaction_of t.now))) state.now }
{
    let v = value(arguments, &t.result, state)?;
    upheld(always, state, v)
}

/// How a transaction ends with these arguments from a state under standing conditions, where the
/// state after it stands then. One that would leave a condition untrue throws that it is broken, and
/// leaves the state as it was. So does a refused growth, which is told.
///
/// What the notes hold at first is forgotten; then they hold what it wrote. Undone, they lead back to
/// the state before: where a variable has no note it is as it was.
pub fn execute_noting(
    arguments: &[i64],
    t: &Tx,
    always: &[(String, Cond)],
    state: &mut [i64],
    notes: &mut Vec<Note>,
) -> Result<Outcome, AllocError>
    requires known { ProgramKnown (length state.old)
        (instance arguments.now (under (conditions_of always.now) (transaction_of t.now))) }
    requires numbered { length always.now ≤ 2 ^ 32 }
    ensures outcome { IfOk result (λ o. o
        ≡ outcome (instance arguments.now (under (conditions_of always.now) (transaction_of t.now))) state.old) }
    ensures after { OnOk result (state.new
        ≡ after (instance arguments.now (under (conditions_of always.now) (transaction_of t.now))) state.old) }
    ensures refused { OnErr result (state.new ≡ state.old) }
    ensures undone { undone notes.new.items state.new ≡ state.old }
    ensures inside { AreInside (length state.old) notes.new.items }
{
    notes.clear();
    let ended = match perform(arguments, &t.body, state, notes) {
        Ok(Flow::Done) => match finish(arguments, t, always, state) {
            Ok(v) => return Ok(Outcome::Returned(v)),
            Err(f) => Ok(Outcome::Thrown(f)),
        },
        Ok(Flow::Threw(f)) => Ok(Outcome::Thrown(f)),
        Ok(Flow::Retried) => Ok(Outcome::Retries),
        Err(refused) => Err(refused),
    };
    undo(state, notes, 0);
    ended
}

/// The same, where nobody asks what it wrote.
pub fn execute(
    arguments: &[i64],
    t: &Tx,
    always: &[(String, Cond)],
    state: &mut Vec<i64>,
) -> Result<Outcome, AllocError>
    requires known { ProgramKnown (vec_len state.old)
        (instance arguments.now (under (conditions_of always.now) (transaction_of t.now))) }
    requires numbered { length always.now ≤ 2 ^ 32 }
    ensures outcome { IfOk result (λ o. o
        ≡ outcome (instance arguments.now (under (conditions_of always.now) (transaction_of t.now))) state.old.items) }
    ensures after { OnOk result (state.new.items
        ≡ after (instance arguments.now (under (conditions_of always.now) (transaction_of t.now))) state.old.items) }
    ensures refused { OnErr result (state.new.items ≡ state.old.items) }
    ensures len { vec_len state.new ≡ vec_len state.old }
{
    let mut notes = Vec::new(*state.allocator());
    execute_noting(arguments, t, always, state.as_mut_slice(), &mut notes)
}
