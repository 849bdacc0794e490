//! The catalogue with which work goes on where a report ended.

ghost use Rattle.std.specs.Prelude.{◌≡◌, IfOk};
ghost use Rattle.txn_programs.specs.Told.{told};
ghost use Rattle.txn_programs.specs.LawfulReport.{LawfulReport};
ghost use Rattle.file_chains.specs.GoingOn.{going_on, next_of};

use checker::laws::lawful_reports_uphold;
use checker::next_chapter;
use checker::stage::values_of;
use std::alloc::Global;
use txn::{Catalogue, Memory, Report, with_upheld_values};

/// With which catalogue work goes on where a report ended.
#[derive(Clone, Copy)]
pub enum Next {
    /// With that of the report, whose variables begin at the present values: all its tasks once more.
    Again,
    /// With that of the next chapter, as it begins: the tasks are the parked ones.
    Chapter,
}

/// The catalogue that goes on where a lawful report of this one ended: each variable begins at the
/// value that it has at the report's present. Names, standing conditions, transactions and runs are
/// as they were. `Err` means that memory was refused.
pub fn going_on(alloc: Global, catalogue: &Catalogue, report: &Report) -> Result<Catalogue, Memory>
    requires { LawfulReport catalogue.now (told report.now) }
    ensures { IfOk result (λ c. c ≡ going_on catalogue.now (told report.entry.now)) }
{
    catalogue.rules();
    lawful_reports_uphold();
    let values = values_of(alloc, &report.now_vars)?;
    with_upheld_values(alloc, catalogue, &values)
}

/// The catalogue that goes on where a lawful report of this one ended, as it is asked for.
pub(crate) fn next_of(
    alloc: Global,
    catalogue: &Catalogue,
    report: &Report,
    next: Next,
) -> Result<Catalogue, Memory>
    requires { LawfulReport catalogue.now (told report.now) }
    ensures { IfOk result (λ c. c ≡ next_of next catalogue.now (told report.entry.now)) }
{
    match next {
        Next::Again => going_on(alloc, catalogue, report),
        Next::Chapter => next_chapter(alloc, catalogue, report),
    }
}
