//! The tasks on a report's lines.

ghost use Rattle.std.specs.Prelude.{◌≡◌, ◌<◌, IfOk, All, length};
ghost use Rattle.txn_programs.specs.Listing.{tasks as listed_tasks};
ghost use Rattle.txn_programs.specs.Told.{told};
ghost use Rattle.txn_programs.specs.LawfulReport.{FitsCatalogue};
ghost use Rattle.checker.specs.Parts.{named};
ghost use Rattle.checker.specs.declared.verdict.Part.TheVariants.{Tasks};
ghost use Rattle.explain_reports.specs.First.{AllRight, IsSearched};
ghost use Rattle.explain_reports.specs.Parts.{IsOwn, IsNew, Climbs};
ghost use Rattle.explain_reports.specs.Flaws.{IsFallSearched, IsPartJudged, IsThere, place_of};

use crate::flaw::{Flaw, TaskLine};
use checker::tasks::{are_accounted, is_own, lines_of};
use std::alloc::{AllocError, Global};
use txn::{Catalogue, Report, TaskId, TxId};

/// The line at this place among all of them.
fn line_at(report: &Report, place: usize) -> TaskLine
    requires { place < length (named (told report.now)) }
    ensures there { IsThere (told report.entry.now) result }
    ensures place { place_of (told report.entry.now) result ≡ place }
{
    let entries = report.entries.len();
    if place < entries {
        return TaskLine::Entry(place);
    }
    let place = place - entries;
    let parked = report.parked.len();
    if place < parked {
        return TaskLine::Parked(place);
    }
    TaskLine::Memory(place - parked)
}

/// The first line whose task is not named with its own transaction.
fn first_foreign(catalogue: &Catalogue, lines: &[(TaskId, TxId)]) -> Option<usize>
    requires { All (λ p. p.0.0 < length (listed_tasks catalogue.now)) lines.now }
    ensures { IsSearched (IsOwn catalogue.now) lines.now result }
{
    'lines: for (i, (task, tx)) in lines.iter().enumerate() {
        if !is_own(catalogue, *task, *tx) {
            return Some(i);
        }
    }
    None
}

/// The first line whose task stands on a line before it.
fn first_again(
    alloc: Global,
    count: usize,
    lines: &[(TaskId, TxId)],
) -> Result<Option<usize>, AllocError>
    requires { All (λ p. p.0.0 < count) lines.now }
    ensures { IfOk result (IsSearched (IsNew lines.now) lines.now) }
{
    let mut seen = vec![in alloc; false; count]?;
    'lines: for (i, (task, _)) in lines.iter().enumerate() {
        let place = task.0 as usize;
        if seen[place] {
            return Ok(Some(i));
        }
        seen[place] = true;
    }
    Ok(None)
}

/// The first line whose task is not larger than that of the line before it.
fn first_fall(lines: &[(TaskId, TxId)]) -> Option<usize>
    ensures { IsSearched (Climbs lines.now) lines.now result }
{
    'lines: for (i, (task, _)) in lines.iter().enumerate() {
        if i > 0 && task.0 <= lines[i - 1].0.0 {
            return Some(i);
        }
    }
    None
}

/// The first line of the parked tasks, else of those given up, whose task is not larger than that
/// of the line before it.
fn first_fall_of(report: &Report) -> Option<TaskLine>
    ensures { IsFallSearched (told report.entry.now) result }
{
    if let Some(i) = first_fall(&report.parked) {
        return Some(TaskLine::Parked(i));
    }
    match first_fall(&report.memory) {
        Some(i) => Some(TaskLine::Memory(i)),
        None => None,
    }
}

/// What is not so of the order and the number of a report's tasks.
fn order_flaw(catalogue: &Catalogue, report: &Report, lines: usize) -> Option<Flaw>
    requires lines { lines ≡ length (named (told report.now)) }
    requires own { AllRight (IsOwn catalogue.now) (named (told report.now)) }
    requires new { AllRight (IsNew (named (told report.now))) (named (told report.now)) }
    ensures { IsPartJudged catalogue.now (told report.entry.now) Tasks result }
{
    if let Some(at) = first_fall_of(report) {
        return Some(Flaw::Falls(at));
    }
    if !are_accounted(catalogue.tasks(), report.base, lines) {
        return Some(Flaw::Count);
    }
    None
}

/// What is not so of the tasks of a report: the first line with a transaction that is not its
/// task's own, else the first whose task stands on a line before, else the first out of order,
/// else their number.
pub(crate) fn tasks_flaw(
    alloc: Global,
    catalogue: &Catalogue,
    report: &Report,
) -> Result<Option<Flaw>, AllocError>
    requires { FitsCatalogue catalogue.now (told report.now) }
    ensures { IfOk result (IsPartJudged catalogue.now (told report.entry.now) Tasks) }
{
    let lines = lines_of(alloc, report)?;
    if let Some(place) = first_foreign(catalogue, &lines) {
        let at = line_at(report, place);
        let own = catalogue.task_tx(lines[place].0);
        return Ok(Some(Flaw::NotOwn(at, own)));
    }
    if let Some(place) = first_again(alloc, catalogue.tasks(), &lines)? {
        return Ok(Some(Flaw::Again(line_at(report, place))));
    }
    Ok(order_flaw(catalogue, report, lines.len()))
}
