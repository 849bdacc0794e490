//! The lines of a schedule in their order.

ghost use Rattle.std.specs.Prelude.{◌≡◌, IfErr};
ghost use Rattle.text_words.specs.Answers.{Gives};
ghost use Rattle.text_words.specs.declared.fault.ReadFault.TheVariants.{Shape};
ghost use Rattle.text_line_reader.specs.Lines.{lines};
ghost use Rattle.text_line_reader.specs.ScheduleReading.{task_verb, variable_verb, alone, of_task};
ghost use Rattle.text_line_reader.specs.ScheduleReading.{named_with, cell_with, of_variable, of_verb};
ghost use Rattle.text_line_reader.specs.ScheduleReading.{move_in, raws_at};
ghost use Rattle.text_line_reader.specs.ScheduleView.{view_move, view_moves};

use crate::cells::{cell_in, is_bracketed};
use crate::schedule::raw::{RawMove, TaskVerb, VariableVerb};
use crate::{Count, end, first_word, is_word, name_in, next_line, number_in, part};
use std::alloc::Global;
use text_words::ReadFault;

#[tactic(auto, unfolding(crate::specs::ScheduleReading::task_verb))]
fn task_verb(word: &[u8]) -> Option<TaskVerb>
    ensures { result ≡ task_verb word.now }
{
    if is_word(word, "begin") {
        Some(TaskVerb::Begin)
    } else if is_word(word, "commit") {
        Some(TaskVerb::Commit)
    } else if is_word(word, "drop") {
        Some(TaskVerb::Drop)
    } else if is_word(word, "value") {
        Some(TaskVerb::Value)
    } else if is_word(word, "second") {
        Some(TaskVerb::Second)
    } else if is_word(word, "ask") {
        Some(TaskVerb::Ask)
    } else if is_word(word, "again") {
        Some(TaskVerb::Again)
    } else if is_word(word, "move") {
        Some(TaskVerb::Move)
    } else {
        None
    }
}

#[tactic(auto, unfolding(crate::specs::ScheduleReading::variable_verb))]
fn variable_verb(word: &[u8]) -> Option<VariableVerb>
    ensures { result ≡ variable_verb word.now }
{
    if is_word(word, "read") {
        Some(VariableVerb::Read)
    } else if is_word(word, "first") {
        Some(VariableVerb::First)
    } else {
        None
    }
}

/// The line that is one word.
#[tactic(auto, unfolding(crate::specs::ScheduleReading::alone))]
fn alone(text: &[u8]) -> Result<RawMove<'_>, ReadFault>
    ensures value { Gives view_move result (alone text.now) }
    ensures kind { IfErr result (λ e. e ≡ Shape) }
{
    if is_word(text, "word") {
        Ok(RawMove::Word)
    } else {
        Err(ReadFault::Shape)
    }
}

/// The task behind a verb.
#[tactic(auto, unfolding(crate::specs::ScheduleReading::of_task))]
fn of_task(verb: TaskVerb, rest: &[u8]) -> Result<RawMove<'_>, ReadFault>
    ensures value { Gives view_move result (of_task verb rest.now) }
    ensures kind { IfErr result (λ e. e ≡ Shape) }
{
    let task = number_in(rest)?;
    Ok(RawMove::OfTask(verb, task))
}

/// The move of a task and of a variable of this name.
#[tactic(auto, unfolding(crate::specs::ScheduleReading::named_with))]
fn named_with<'a>(
    verb: VariableVerb,
    task: Count<'a>,
    text: &'a [u8],
) -> Result<RawMove<'a>, ReadFault>
    ensures value { Gives view_move result (named_with verb task.entry.text.now text.now) }
    ensures kind { IfErr result (λ e. e ≡ Shape) }
{
    let name = name_in(text)?;
    Ok(RawMove::OfVariable(verb, task, name))
}

/// The move of a task and of the cell that is written so.
#[tactic(auto, unfolding(crate::specs::ScheduleReading::cell_with))]
fn cell_with<'a>(
    verb: VariableVerb,
    task: Count<'a>,
    text: &'a [u8],
) -> Result<RawMove<'a>, ReadFault>
    ensures value { Gives view_move result (cell_with verb task.entry.text.now text.now) }
    ensures kind { IfErr result (λ e. e ≡ Shape) }
{
    let (table, index) = cell_in(text)?;
    Ok(RawMove::OfCell(verb, task, table, index))
}

/// The task behind a verb, and a variable, or a cell where cells can be told.
#[tactic(auto, unfolding(crate::specs::ScheduleReading::of_variable))]
fn of_variable(verb: VariableVerb, rest: &[u8], cells: bool) -> Result<RawMove<'_>, ReadFault>
    ensures value { Gives view_move result (of_variable cells verb rest.now) }
    ensures kind { IfErr result (λ e. e ≡ Shape) }
{
    let (first, second) = first_word(rest)?;
    let task = number_in(first)?;
    if cells && is_bracketed(second) {
        cell_with(verb, task, second)
    } else {
        named_with(verb, task, second)
    }
}

/// What stands behind a verb.
#[tactic(auto, unfolding(crate::specs::ScheduleReading::of_verb))]
fn of_verb<'a>(word: &[u8], rest: &'a [u8], cells: bool) -> Result<RawMove<'a>, ReadFault>
    ensures value { Gives view_move result
        (of_verb cells (task_verb word.now) (variable_verb word.now) rest.now) }
    ensures kind { IfErr result (λ e. e ≡ Shape) }
{
    match task_verb(word) {
        Some(verb) => of_task(verb, rest),
        None => match variable_verb(word) {
            Some(verb) => of_variable(verb, rest, cells),
            None => Err(ReadFault::Shape),
        },
    }
}

/// One line.
#[tactic(auto, unfolding(crate::specs::ScheduleReading::move_in))]
fn move_in(text: &[u8], cells: bool) -> Result<RawMove<'_>, ReadFault>
    ensures value { Gives view_move result (move_in cells text.now) }
    ensures kind { IfErr result (λ e. e ≡ Shape) }
{
    match part(text, b' ') {
        Some((word, rest)) => of_verb(word, rest, cells),
        None => alone(text),
    }
}

/// All lines; where `cells` is true, they may name cells.
pub(crate) fn raws_of(
    alloc: Global,
    bytes: &[u8],
    cells: bool,
) -> Result<Vec<RawMove<'_>>, ReadFault>
    ensures { Gives (λ x. view_moves x.items) result (raws_at cells (lines bytes.now)) }
{
    let mut moves = Vec::new(alloc);
    let mut rest = bytes;
    'moves: while let Some((line, after)) = next_line(rest) {
        let made = move_in(line, cells)?;
        moves.push(made)?;
        rest = after;
    }
    end(rest)?;
    Ok(moves)
}
