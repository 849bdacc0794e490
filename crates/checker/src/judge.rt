//! Judging a report that was read.

ghost use Rattle.std.specs.Prelude.{◌≡◌, IfOk};
ghost use Rattle.txn_programs.specs.Told.{told};
ghost use Rattle.txn_programs.specs.LawfulReport.{FitsCatalogue};
ghost use Rattle.checker.specs.Verdicts.{IsVerdict};

use crate::opening::base_holds;
use crate::parked::all_retry;
use crate::replay::replay;
use crate::stage::{are_same, stage_at};
use crate::tasks::tasks_hold;
use crate::verdict::{Part, Verdict};
use std::alloc::{AllocError, Global};
use txn::{Catalogue, Report};

/// The verdict on a report that fits the catalogue: each part is judged once those before it hold.
pub(crate) fn verdict_on(
    alloc: Global,
    catalogue: &Catalogue,
    report: &Report,
) -> Result<Verdict, AllocError>
    requires { FitsCatalogue catalogue.now (told report.now) }
    ensures { IfOk result (IsVerdict catalogue.now (told report.entry.now)) }
{
    let base = stage_at(alloc, report.base, &report.base_vars)?;
    if !base_holds(catalogue, report, &base) {
        return Ok(Verdict::Bad(Part::Base));
    }
    let Some(reached) = replay(catalogue, base, &report.entries)? else {
        return Ok(Verdict::Bad(Part::Entries));
    };
    let mut now = stage_at(alloc, report.now, &report.now_vars)?;
    if !are_same(&now, &reached) {
        return Ok(Verdict::Bad(Part::Present));
    }
    if !tasks_hold(alloc, catalogue, report)? {
        return Ok(Verdict::Bad(Part::Tasks));
    }
    if !all_retry(catalogue, &mut now.values, &report.parked)? {
        return Ok(Verdict::Bad(Part::Parked));
    }
    Ok(Verdict::Good)
}
