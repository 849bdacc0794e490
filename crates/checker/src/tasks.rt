//! The tasks on a report's lines.

ghost use Rattle.std.specs.Prelude.{◌≡◌, ◌+◌, ◌<◌, ◌↔◌, IfOk, IsTrue, All, length, map};
ghost use Rattle.txn_programs.specs.Listing.{tasks as listed_tasks};
ghost use Rattle.txn_programs.specs.Replay.{Once};
ghost use Rattle.txn_programs.specs.Told.{told};
ghost use Rattle.txn_programs.specs.LawfulReport.{Ascends, FitsCatalogue, HasOwn};
ghost use Rattle.checker.specs.Parts.{named, on_line, TasksHold};

use std::alloc::{AllocError, Global};
use txn::{Catalogue, Entry, Report, TaskId, TxId};

fn entered(alloc: Global, entries: &[Entry]) -> Result<Vec<(TaskId, TxId)>, AllocError>
    ensures { IfOk result (λ v. v.items ≡ map on_line entries.now) }
{
    entries.iter().map(|e| (e.task, e.tx)).collect(alloc)
}

/// The tasks on the lines, entries first, each with the transaction named there.
pub fn lines_of(alloc: Global, report: &Report) -> Result<Vec<(TaskId, TxId)>, AllocError>
    ensures { IfOk result (λ v. v.items ≡ named (told report.entry.now)) }
{
    let mut lines = entered(alloc, &report.entries)?;
    lines.extend_from_slice(&report.parked)?;
    lines.extend_from_slice(&report.memory)?;
    Ok(lines)
}

/// Whether the task runs this transaction.
pub fn is_own(catalogue: &Catalogue, task: TaskId, tx: TxId) -> bool
    requires { task.0 < length (listed_tasks catalogue.now) }
    ensures { IsTrue result ↔ HasOwn catalogue.now task tx }
{
    catalogue.task_tx(task).0 == tx.0
}

/// Whether each task is named with its own transaction.
fn are_own(catalogue: &Catalogue, lines: &[(TaskId, TxId)]) -> bool
    requires { All (λ p. p.0.0 < length (listed_tasks catalogue.now)) lines.now }
    ensures { IsTrue result ↔ All (λ p. HasOwn catalogue.now p.0 p.1) lines.now }
{
    'lines: for (task, tx) in lines {
        if !is_own(catalogue, *task, *tx) {
            return false;
        }
    }
    true
}

/// Whether each next task is larger.
fn ascend(lines: &[(TaskId, TxId)]) -> bool
    ensures { IsTrue result ↔ Ascends (map (λ p. p.0.0) lines.now) }
{
    let mut least: u64 = 0;
    'lines: for (task, _) in lines {
        let next = task.0 as u64;
        if next < least {
            return false;
        }
        least = next + 1;
    }
    true
}

/// Whether so many lines account for the tasks that had not committed at the base.
pub fn are_accounted(tasks: usize, base: u64, lines: usize) -> bool
    ensures { IsTrue result ↔ (base + lines ≡ tasks) }
{
    lines <= tasks && base == (tasks - lines) as u64
}

/// Whether no task stands on two lines.
fn stand_once(alloc: Global, count: usize, lines: &[(TaskId, TxId)]) -> Result<bool, AllocError>
    requires { All (λ p. p.0.0 < count) lines.now }
    ensures { IfOk result (λ yes. IsTrue yes ↔ Once (map (λ p. p.0.0) lines.now)) }
{
    let mut seen = vec![in alloc; false; count]?;
    'lines: for (task, _) in lines {
        let place = task.0 as usize;
        if seen[place] {
            return Ok(false);
        }
        seen[place] = true;
    }
    Ok(true)
}

/// Whether each task stands on at most one line, with its own transaction and in order, and all
/// are accounted for.
pub(crate) fn tasks_hold(
    alloc: Global,
    catalogue: &Catalogue,
    report: &Report,
) -> Result<bool, AllocError>
    requires { FitsCatalogue catalogue.now (told report.now) }
    ensures { IfOk result (λ yes. IsTrue yes ↔ TasksHold catalogue.now (told report.entry.now)) }
{
    let lines = lines_of(alloc, report)?;
    if !are_accounted(catalogue.tasks(), report.base, lines.len()) {
        return Ok(false);
    }
    if !are_own(catalogue, &lines) {
        return Ok(false);
    }
    if !ascend(&report.parked) {
        return Ok(false);
    }
    if !ascend(&report.memory) {
        return Ok(false);
    }
    stand_once(alloc, catalogue.tasks(), &lines)
}
