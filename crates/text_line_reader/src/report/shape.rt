//! The lines of a report in their order.

ghost use Rattle.std.specs.Prelude.{◌≡◌, ◌<◌, ◌≤◌, IfErr, IfOk, IfSome, length, codes};
ghost use Rattle.text_words.specs.Answers.{Gives};
ghost use Rattle.text_words.specs.declared.fault.ReadFault.TheVariants.{Shape};
ghost use Rattle.text_line_reader.specs.Lines.{lines};
ghost use Rattle.text_line_reader.specs.Words.{expect};
ghost use Rattle.text_line_reader.specs.Rows.{line_at, lines_at, next_at, all_at, end_at};
ghost use Rattle.text_line_reader.specs.View.{view_next};
ghost use Rattle.text_line_reader.specs.ReportReading.{variable_in, valued_in, broke_in, worded_in, ending_in};
ghost use Rattle.text_line_reader.specs.ReportReading.{entry_in};
ghost use Rattle.text_line_reader.specs.ReportReading.{task_in, numbered_in, values_at, raw_at};
ghost use Rattle.text_line_reader.specs.ReportView.{view_variable, view_variables, view_ending, view_entry};
ghost use Rattle.text_line_reader.specs.ReportView.{view_cells, view_entries};
ghost use Rattle.text_line_reader.specs.ReportView.{view_task, view_tasks, view_raw};

use crate::report::cells::cells_at;
use crate::report::raw::{RawCell, RawEnding, RawEntry, RawReport, RawTask, RawVariable};
use crate::words::after_word;
use crate::{
    Count, begins, end, expect, first_word, int_in, is_word, name_in, next_line, number_in,
};
use std::alloc::Global;
use text_words::ReadFault;

#[tactic(auto, unfolding(crate::specs::ReportReading::variable_in))]
fn variable_in(text: &[u8]) -> Result<RawVariable<'_>, ReadFault>
    ensures value { Gives view_variable result (variable_in text.now) }
    ensures kind { IfErr result (λ e. e ≡ Shape) }
{
    let (first, rest) = first_word(text)?;
    let (second, third) = first_word(rest)?;
    let name = name_in(first)?;
    let value = int_in(second)?;
    let version = number_in(third)?;
    Ok(RawVariable {
        name,
        value,
        version,
    })
}

/// The ending of this word and a value.
#[tactic(auto, unfolding(crate::specs::ReportReading::valued_in))]
fn valued_in<'a>(word: &[u8], text: &'a [u8]) -> Result<RawEnding<'a>, ReadFault>
    ensures value { Gives view_ending result (valued_in word.now text.now) }
    ensures kind { IfErr result (λ e. e ≡ Shape) }
{
    let value = int_in(text)?;
    if is_word(word, "returned") {
        Ok(RawEnding::Returned(value))
    } else if is_word(word, "threw") {
        Ok(RawEnding::Threw(value))
    } else {
        Err(ReadFault::Shape)
    }
}

/// The ending by a condition of this name.
#[tactic(auto, unfolding(crate::specs::ReportReading::broke_in))]
fn broke_in(text: &[u8]) -> Result<RawEnding<'_>, ReadFault>
    ensures value { Gives view_ending result (broke_in text.now) }
    ensures kind { IfErr result (λ e. e ≡ Shape) }
{
    let name = name_in(text)?;
    Ok(RawEnding::Broke(name))
}

/// An ending of two words.
#[tactic(auto, unfolding(crate::specs::ReportReading::worded_in))]
fn worded_in(text: &[u8]) -> Result<RawEnding<'_>, ReadFault>
    ensures value { Gives view_ending result (worded_in text.now) }
    ensures kind { IfErr result (λ e. e ≡ Shape) }
{
    let (word, rest) = first_word(text)?;
    if is_word(word, "broke") {
        broke_in(rest)
    } else {
        valued_in(word, rest)
    }
}

/// An ending, which is `outside` only where cells can be told.
#[tactic(auto, unfolding(crate::specs::ReportReading::ending_in))]
fn ending_in(text: &[u8], cells: bool) -> Result<RawEnding<'_>, ReadFault>
    ensures value { Gives view_ending result (ending_in cells text.now) }
    ensures kind { IfErr result (λ e. e ≡ Shape) }
{
    if is_word(text, "overflow") {
        Ok(RawEnding::Overflow)
    } else if is_word(text, "zerodiv") {
        Ok(RawEnding::DivideByZero)
    } else if is_word(text, "outside") && cells {
        Ok(RawEnding::Outside)
    } else {
        worded_in(text)
    }
}

#[tactic(auto, unfolding(crate::specs::ReportReading::entry_in))]
fn entry_in(text: &[u8], cells: bool) -> Result<RawEntry<'_>, ReadFault>
    ensures value { Gives view_entry result (entry_in cells text.now) }
    ensures kind { IfErr result (λ e. e ≡ Shape) }
{
    let first = after_word(text, "entry")?;
    let (second, rest) = first_word(first)?;
    let (third, rest) = first_word(rest)?;
    let (fourth, rest) = first_word(rest)?;
    let number = number_in(second)?;
    let task = number_in(third)?;
    let name = name_in(fourth)?;
    let ending = ending_in(rest, cells)?;
    Ok(RawEntry {
        number,
        task,
        name,
        ending,
    })
}

#[tactic(auto, unfolding(crate::specs::ReportReading::task_in))]
fn task_in<'a>(text: &'a [u8], word: &str) -> Result<RawTask<'a>, ReadFault>
    ensures value { Gives view_task result (task_in word.now text.now) }
    ensures kind { IfErr result (λ e. e ≡ Shape) }
{
    let first = after_word(text, word)?;
    let (second, third) = first_word(first)?;
    let task = number_in(second)?;
    let name = name_in(third)?;
    Ok(RawTask { task, name })
}

/// The next line, which is this word and a number.
#[tactic(auto, unfolding(crate::specs::ReportReading::numbered_in, crate::specs::Rows::line_at))]
fn number_at<'a>(bytes: &'a [u8], word: &str) -> Result<(Count<'a>, &'a [u8]), ReadFault>
    ensures value { Gives (λ x. (x.0.text.now, lines x.1.now)) result
        (line_at (numbered_in word.now) (lines bytes.now)) }
    ensures kind { IfErr result (λ e. e ≡ Shape) }
{
    let Some((line, rest)) = next_line(bytes) else {
        return Err(ReadFault::Shape);
    };
    let number = after_word(line, word)?;
    let count = number_in(number)?;
    Ok((count, rest))
}

/// The next line, which is that of a variable.
#[tactic(auto, unfolding(crate::specs::Rows::line_at))]
fn variable_at(bytes: &[u8]) -> Result<(RawVariable<'_>, &[u8]), ReadFault>
    ensures value { Gives (λ x. (view_variable x.0, lines x.1.now)) result (line_at variable_in (lines bytes.now)) }
    ensures kind { IfErr result (λ e. e ≡ Shape) }
{
    let Some((line, rest)) = next_line(bytes) else {
        return Err(ReadFault::Shape);
    };
    let variable = variable_in(line)?;
    Ok((variable, rest))
}

/// The next lines, which are those of so many variables.
fn variables_at(
    alloc: Global,
    bytes: &[u8],
    count: usize,
) -> Result<(Vec<RawVariable<'_>>, &[u8]), ReadFault>
    ensures { Gives (λ x. (view_variables x.0.items, lines x.1.now)) result
        (lines_at variable_in count (lines bytes.now)) }
{
    let mut variables = Vec::new(alloc);
    let mut rest = bytes;
    'variables: for _place in 0..count {
        let (variable, after) = variable_at(rest)?;
        variables.push(variable)?;
        rest = after;
    }
    Ok((variables, rest))
}

/// The entry on the next line, if there is one.
fn entry_at(bytes: &[u8], cells: bool) -> Result<Option<(RawEntry<'_>, &[u8])>, ReadFault>
    ensures value { Gives (view_next view_entry) result
        (next_at (codes "entry") (entry_in cells) (lines bytes.now)) }
    ensures shorter { IfOk result (λ r. IfSome r (λ x. length x.1.now < length bytes.now)) }
    ensures kind { IfErr result (λ e. e ≡ Shape) }
{
    match next_line(bytes) {
        Some((line, rest)) if begins(line, "entry") => {
            let entry = entry_in(line, cells)?;
            Ok(Some((entry, rest)))
        }
        _ => Ok(None),
    }
}

/// The entries on the next lines.
fn entries_at(
    alloc: Global,
    bytes: &[u8],
    cells: bool,
) -> Result<(Vec<RawEntry<'_>>, &[u8]), ReadFault>
    ensures { Gives (λ x. (view_entries x.0.items, lines x.1.now)) result
        (all_at (codes "entry") (entry_in cells) (lines bytes.now)) }
{
    let mut entries = Vec::new(alloc);
    let mut rest = bytes;
    'entries: while let Some((entry, after)) = entry_at(rest, cells)? {
        entries.push(entry)?;
        rest = after;
    }
    Ok((entries, rest))
}

/// The task on the next line, if there is one behind this word.
fn task_at<'a>(bytes: &'a [u8], word: &str) -> Result<Option<(RawTask<'a>, &'a [u8])>, ReadFault>
    ensures value { Gives (view_next view_task) result (next_at word.now (task_in word.now) (lines bytes.now)) }
    ensures shorter { IfOk result (λ r. IfSome r (λ x. length x.1.now < length bytes.now)) }
    ensures kind { IfErr result (λ e. e ≡ Shape) }
{
    match next_line(bytes) {
        Some((line, rest)) if begins(line, word) => {
            let task = task_in(line, word)?;
            Ok(Some((task, rest)))
        }
        _ => Ok(None),
    }
}

/// The tasks on the next lines, each behind this word.
fn tasks_at<'a>(
    alloc: Global,
    bytes: &'a [u8],
    word: &str,
) -> Result<(Vec<RawTask<'a>>, &'a [u8]), ReadFault>
    ensures { Gives (λ x. (view_tasks x.0.items, lines x.1.now)) result
        (all_at word.now (task_in word.now) (lines bytes.now)) }
{
    let mut tasks = Vec::new(alloc);
    let mut rest = bytes;
    'tasks: while let Some((task, after)) = task_at(rest, word)? {
        tasks.push(task)?;
        rest = after;
    }
    Ok((tasks, rest))
}

/// The last line.
#[tactic(auto, unfolding(crate::specs::Rows::line_at))]
fn last_at(bytes: &[u8]) -> Result<&[u8], ReadFault>
    ensures value { Gives (λ x. (tt, lines x.now)) result (line_at (expect (codes "end")) (lines bytes.now)) }
    ensures kind { IfErr result (λ e. e ≡ Shape) }
{
    let Some((line, rest)) = next_line(bytes) else {
        return Err(ReadFault::Shape);
    };
    expect(line, "end")?;
    Ok(rest)
}

/// What the next lines have of variables, so many, and of cells.
type RawValues<'a> = (Vec<RawVariable<'a>>, Vec<RawCell<'a>>);

#[tactic(auto, unfolding(crate::specs::ReportReading::values_at))]
fn values_at(
    alloc: Global,
    bytes: &[u8],
    variables: usize,
    cells: bool,
) -> Result<(RawValues<'_>, &[u8]), ReadFault>
    ensures { Gives (λ x. ((view_variables x.0.0.items, view_cells x.0.1.items), lines x.1.now)) result
        (values_at cells variables (lines bytes.now)) }
{
    let (variables, rest) = variables_at(alloc, bytes, variables)?;
    let (cells, rest) = cells_at(alloc, rest, cells)?;
    Ok(((variables, cells), rest))
}

/// All lines of a report of so many variables; where `cells` is true there may be lines of cells, and
/// an entry may end `outside`.
#[tactic(auto, unfolding(crate::specs::ReportReading::raw_at))]
pub(crate) fn raw_of(
    alloc: Global,
    bytes: &[u8],
    variables: usize,
    cells: bool,
) -> Result<RawReport<'_>, ReadFault>
    ensures { Gives view_raw result (raw_at cells variables (lines bytes.now)) }
{
    let (base, rest) = number_at(bytes, "base")?;
    let ((base_vars, base_cells), rest) = values_at(alloc, rest, variables, cells)?;
    let (entries, rest) = entries_at(alloc, rest, cells)?;
    let (now, rest) = number_at(rest, "now")?;
    let ((now_vars, now_cells), rest) = values_at(alloc, rest, variables, cells)?;
    let (parked, rest) = tasks_at(alloc, rest, "parked")?;
    let (memory, rest) = tasks_at(alloc, rest, "memory")?;
    let rest = last_at(rest)?;
    end(rest)?;
    Ok(RawReport {
        base,
        base_vars,
        base_cells,
        entries,
        now,
        now_vars,
        now_cells,
        parked,
        memory,
    })
}
