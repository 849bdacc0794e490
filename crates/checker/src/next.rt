//! The catalogue of the chapter that begins where a report ended, and that of a chapter as it began.

ghost use Rattle.std.specs.Prelude.{◌≡◌, IfOk, map, take};
ghost use Rattle.txn_programs.specs.Listing.{calls};
ghost use Rattle.txn_programs.specs.Told.{told};
ghost use Rattle.txn_programs.specs.LawfulReport.{LawfulReport};
ghost use Rattle.checker.specs.Chapters.{beginning, line_call, next_chapter};

use crate::calls::{line_call, task_call};
use crate::laws::lawful_reports_uphold;
use crate::stage::values_of;
use std::alloc::{AllocError, Global};
use txn::{Call, Catalogue, Memory, Report, TaskId, TxId, begun};

/// The calls of parked tasks, in their order.
fn waiting_of(
    alloc: Global,
    catalogue: &Catalogue,
    parked: &[(TaskId, TxId)],
) -> Result<Vec<Call>, AllocError>
    ensures { IfOk result (λ v. v.items ≡ map (line_call catalogue.now) parked.now) }
{
    parked
        .iter()
        .map(|p| line_call(catalogue, p.0, p.1))
        .collect(alloc)
}

/// The catalogue with which the chapter behind a lawful report of this one begins: each variable begins
/// at the value that it has at the report's present, and the runs are one of one task for each task of the
/// `parked` lines, in their order, which makes the same call. Names, standing conditions and transactions
/// are as they were; tasks that are done or were given up are none of it. `Err` means that memory was refused.
pub fn next_chapter(
    alloc: Global,
    catalogue: &Catalogue,
    report: &Report,
) -> Result<Catalogue, Memory>
    requires { LawfulReport catalogue.now (told report.now) }
    ensures { IfOk result (λ c. c ≡ next_chapter catalogue.now (told report.entry.now)) }
{
    catalogue.rules();
    lawful_reports_uphold();
    let values = values_of(alloc, &report.now_vars)?;
    let waiting = waiting_of(alloc, catalogue, &report.parked)?;
    begun(alloc, catalogue, &values, &waiting)
}

/// The calls of so many tasks, from the first on, or of all where there are not so many.
fn first_calls(alloc: Global, catalogue: &Catalogue, count: usize) -> Result<Vec<Call>, AllocError>
    ensures { IfOk result (λ v. v.items ≡ take count (calls catalogue.now)) }
{
    let mut made = Vec::new(alloc);
    'tasks: for i in 0..count.min(catalogue.tasks()) {
        made.push(task_call(catalogue, TaskId(i as u32)))?;
    }
    Ok(made)
}

/// The catalogue as it was with so many tasks, before others came behind them: its runs are one of one task
/// for each. `Err` means that memory was refused.
pub fn beginning(alloc: Global, catalogue: &Catalogue, count: usize) -> Result<Catalogue, Memory>
    ensures { IfOk result (λ c. c ≡ beginning count catalogue.now) }
{
    catalogue.rules();
    let first = first_calls(alloc, catalogue, count)?;
    begun(alloc, catalogue, catalogue.initial(), &first)
}
