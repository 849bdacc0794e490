//! From the words of a schedule to its moves: names as ids, and integers as numbers.

ghost use Rattle.std.specs.Prelude.{◌≡◌, ◌⊎◌, IfErr};
ghost use Rattle.std.specs.List.{list_all};
ghost use Rattle.txn_programs.specs.Listing.{spans};
ghost use Rattle.text_words.specs.Answers.{Gives};
ghost use Rattle.text_words.specs.declared.fault.ReadFault.TheVariants.{Name, Limit};
ghost use Rattle.text_line_reader.specs.ScheduleResolving.{is_known, task_move, variable_move, cell_id, variable_id};
ghost use Rattle.text_line_reader.specs.ScheduleResolving.{move_told, moves_told, resolved};
ghost use Rattle.text_line_reader.specs.ScheduleView.{view_move, view_moves};

use crate::cells::{cell_named, spans_of};
use crate::schedule::raw::{RawMove, TaskVerb, VariableVerb};
use crate::{Count, task_id};
use std::alloc::Global;
use text_words::ReadFault;
use txn::{Catalogue, Move, Span, TaskId, VarId};

/// Whether a line's variable or cell is known, if it names one.
fn is_known(catalogue: &Catalogue, tables: &[Span], line: RawMove<'_>) -> bool
    requires { tables.now ≡ spans catalogue.now }
    ensures { result ≡ is_known catalogue.now (view_move line.entry) }
{
    match line {
        RawMove::OfTask(_, _) | RawMove::Word => true,
        RawMove::OfVariable(_, _, name) => catalogue.var_id(name).is_some(),
        RawMove::OfCell(_, _, table, index) => {
            cell_named(catalogue, tables, table, index).is_some()
        }
    }
}

/// Whether all names are known.
fn names_known(catalogue: &Catalogue, tables: &[Span], lines: &[RawMove<'_>]) -> bool
    requires { tables.now ≡ spans catalogue.now }
    ensures { result ≡ list_all (λ line. is_known catalogue.now (view_move line)) lines.now }
{
    lines.iter().all(|line| is_known(catalogue, tables, *line))
}

fn task_move(verb: TaskVerb, task: TaskId) -> Move
    ensures { result ≡ task_move verb task }
{
    match verb {
        TaskVerb::Begin => Move::Begin(task),
        TaskVerb::Commit => Move::Commit(task),
        TaskVerb::Drop => Move::Drop(task),
        TaskVerb::Value => Move::Value(task),
        TaskVerb::Second => Move::Second(task),
        TaskVerb::Ask => Move::Ask(task),
        TaskVerb::Again => Move::Again(task),
        TaskVerb::Move => Move::Move(task),
    }
}

fn variable_move(verb: VariableVerb, task: TaskId, variable: VarId) -> Move
    ensures { result ≡ variable_move verb task variable }
{
    match verb {
        VariableVerb::Read => Move::Read(task, variable),
        VariableVerb::First => Move::First(task, variable),
    }
}

#[tactic(auto, unfolding(crate::specs::ScheduleResolving::variable_id))]
fn variable_id(catalogue: &Catalogue, name: &str) -> Result<VarId, ReadFault>
    ensures value { Gives (λ x. x) result (variable_id catalogue.now name.now) }
    ensures kind { IfErr result (λ e. e ≡ Name) }
{
    catalogue.var_id(name).ok_or(ReadFault::Name)
}

#[tactic(auto, unfolding(crate::specs::ScheduleResolving::cell_id))]
fn cell_id(
    catalogue: &Catalogue,
    tables: &[Span],
    table: &str,
    index: Count<'_>,
) -> Result<VarId, ReadFault>
    requires { tables.now ≡ spans catalogue.now }
    ensures value { Gives (λ x. x) result (cell_id catalogue.now table.now index.entry.text.now) }
    ensures kind { IfErr result (λ e. e ≡ Name) }
{
    cell_named(catalogue, tables, table, index).ok_or(ReadFault::Name)
}

/// The move of a line.
fn move_told(catalogue: &Catalogue, tables: &[Span], line: RawMove<'_>) -> Result<Move, ReadFault>
    requires { tables.now ≡ spans catalogue.now }
    ensures value { Gives (λ x. x) result (move_told catalogue.now (view_move line.entry)) }
    ensures kind { IfErr result (λ e. (e ≡ Name) ⊎ (e ≡ Limit)) }
{
    match line {
        RawMove::OfTask(verb, number) => {
            let task = task_id(catalogue, number)?;
            Ok(task_move(verb, task))
        }
        RawMove::OfVariable(verb, number, name) => {
            let task = task_id(catalogue, number)?;
            let variable = variable_id(catalogue, name)?;
            Ok(variable_move(verb, task, variable))
        }
        RawMove::OfCell(verb, number, table, index) => {
            let task = task_id(catalogue, number)?;
            let cell = cell_id(catalogue, tables, table, index)?;
            Ok(variable_move(verb, task, cell))
        }
        RawMove::Word => Ok(Move::Word),
    }
}

fn moves_told(
    alloc: Global,
    catalogue: &Catalogue,
    tables: &[Span],
    lines: &[RawMove<'_>],
) -> Result<Vec<Move>, ReadFault>
    requires { tables.now ≡ spans catalogue.now }
    ensures { Gives (λ x. x.items) result (moves_told catalogue.now (view_moves lines.now)) }
{
    let mut made = Vec::with_capacity(alloc, lines.len())?;
    'lines: for line in lines {
        made.push(move_told(catalogue, tables, *line)?)?;
    }
    Ok(made)
}

/// The moves of the lines: their names are judged first, and then their numbers.
pub(crate) fn resolved(
    alloc: Global,
    catalogue: &Catalogue,
    lines: &[RawMove<'_>],
) -> Result<Vec<Move>, ReadFault>
    ensures { Gives (λ x. x.items) result (resolved catalogue.now (view_moves lines.now)) }
{
    let tables = spans_of(alloc, catalogue)?;
    if names_known(catalogue, &tables, lines) {
        moves_told(alloc, catalogue, &tables, lines)
    } else {
        Err(ReadFault::Name)
    }
}
