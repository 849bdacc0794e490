//! The first line with an unknown variable or cell, or with a task that there is not.

ghost use Rattle.std.specs.Prelude.{◌≡◌, ◌≤◌, ◌<◌, if◌then◌else◌, length, is_some, nat_lt};
ghost use Rattle.std.specs.Str.Parse.{digits_value};
ghost use Rattle.txn_programs.specs.Listing.{spans, table_named, tasks, variable_named};
ghost use Rattle.text_line_reader.specs.CellNames.{cell_named};
ghost use Rattle.text_line_reader.specs.ScheduleRaw.{Raw};
ghost use Rattle.explain_schedules.specs.Lines.{Says};
ghost use Rattle.explain_schedules.specs.Places.{IsFirstLine};
ghost use Rattle.explain_schedules.specs.Walking.{IsUneven, right_of, place_of, said_of, wrong_at};
ghost use Rattle.explain_schedules.specs.declared.explaining.Finding.TheVariants.{NoCell, NoTable, NoTask, NoVariable};

use crate::explaining::Finding;
use crate::form::gone;
use crate::line::{Line, line_of, split_once};
use text_line_reader::{Count, cell_named, knows_cells, task_id};
use txn::{Catalogue, Span};

/// Which words are judged.
#[derive(Clone, Copy)]
pub(crate) enum Judged {
    /// The names of variables and cells.
    Names,
    /// The numbers of tasks.
    Tasks,
}

/// Whether there is a task of this number.
#[tactic(auto, unfolding(text_line_reader::specs::Counts::task_id, text_line_reader::specs::Counts::below))]
fn has_task(catalogue: &Catalogue, task: Count<'_>) -> bool
    ensures { result ≡ nat_lt (digits_value 10 task.entry.text.now) (length (tasks catalogue.now)) }
{
    task_id(catalogue, task).is_ok()
}

/// Where the task is named that there is not, and what is said of it.
fn wrong_task(catalogue: &Catalogue, at: usize, task: Count<'_>) -> Option<(usize, Finding)>
    ensures { result
        ≡ wrong_at (nat_lt (digits_value 10 task.entry.text.now) (length (tasks catalogue.now))) at NoTask }
{
    if has_task(catalogue, task) {
        None
    } else {
        Some((at, Finding::NoTask))
    }
}

/// Where the variable is named that there is not, and what is said of it.
fn wrong_name(catalogue: &Catalogue, at: usize, name: &str) -> Option<(usize, Finding)>
    ensures { result ≡ wrong_at (is_some (variable_named catalogue.now name.now)) at NoVariable }
{
    if catalogue.var_id(name).is_some() {
        None
    } else {
        Some((at, Finding::NoVariable))
    }
}

/// What is said of a cell of this table that there is not.
fn no_cell(catalogue: &Catalogue, table: &str) -> Finding
    ensures { result ≡ if is_some (table_named catalogue.now table.now) then NoCell else NoTable }
{
    if catalogue.table_place(table).is_some() {
        Finding::NoCell
    } else {
        Finding::NoTable
    }
}

/// Where the cell is named that there is not, and what is said of it.
fn wrong_cell(
    catalogue: &Catalogue,
    tables: &[Span],
    at: usize,
    table: &str,
    index: Count<'_>,
) -> Option<(usize, Finding)>
    requires { tables.now ≡ spans catalogue.now }
    ensures { result ≡ wrong_at (is_some (cell_named catalogue.now table.now index.entry.text.now)) at
        (if is_some (table_named catalogue.now table.now) then NoCell else NoTable) }
{
    if cell_named(catalogue, tables, table, index).is_some() {
        None
    } else {
        Some((at, no_cell(catalogue, table)))
    }
}

/// Where a line is wrong, if it is, and what is said of it.
fn wrong_in(
    catalogue: &Catalogue,
    tables: &[Span],
    judged: Judged,
    line: Line<'_>,
) -> Option<(usize, Finding)>
    requires { tables.now ≡ spans catalogue.now }
    ensures { (raw : Raw) → Says raw line.entry → result
        ≡ wrong_at (right_of catalogue.now judged raw) (place_of judged raw) (said_of catalogue.now judged raw) }
{
    match (judged, line) {
        (Judged::Tasks, Line::OfTask(at, task)) => wrong_task(catalogue, at, task),
        (Judged::Tasks, Line::OfVariable(at, task, _, _)) => wrong_task(catalogue, at, task),
        (Judged::Tasks, Line::OfCell(at, task, _, _, _)) => wrong_task(catalogue, at, task),
        (Judged::Names, Line::OfVariable(_, _, at, name)) => wrong_name(catalogue, at, name),
        (Judged::Names, Line::OfCell(_, _, at, table, index)) => {
            wrong_cell(catalogue, tables, at, table, index)
        }
        _ => None,
    }
}

/// The place of the wrong word in the first line that has one, and what is said of it; `tables` are the cells of each
/// table.
pub(crate) fn first_wrong(
    catalogue: &Catalogue,
    tables: &[Span],
    judged: Judged,
    bytes: &[u8],
) -> (usize, Finding)
    requires tables { tables.now ≡ spans catalogue.now }
    requires uneven { IsUneven catalogue.now (right_of catalogue.now judged) bytes.now }
    ensures place { IsFirstLine catalogue.now (right_of catalogue.now judged) (place_of judged)
        (said_of catalogue.now judged) bytes.now result.0 result.1 }
    ensures bound { result.0 ≤ length bytes.now }
{
    let cells = knows_cells(catalogue);
    let mut rest = bytes;
    'lines: while let Some((line, after)) = split_once(rest, b'\n') {
        let Ok(line) = line_of(line, cells) else {
            unreachable!()
        };
        if let Some((at, finding)) = wrong_in(catalogue, tables, judged, line) {
            return (gone(bytes, rest) + at, finding);
        }
        rest = after;
    }
    unreachable!()
}
