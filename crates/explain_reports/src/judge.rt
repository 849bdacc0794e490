//! Judging a report that was read.

ghost use Rattle.std.specs.Prelude.{◌≡◌, IfOk};
ghost use Rattle.txn_programs.specs.Told.{told};
ghost use Rattle.txn_programs.specs.LawfulReport.{FitsCatalogue};
ghost use Rattle.explain_reports.specs.Flaws.{IsJudged};

use crate::base::base_flaw;
use crate::entries::{Replayed, replay};
use crate::flaw::Flaw;
use crate::parked::parked_flaw;
use crate::present::present_flaw;
use crate::tasks::tasks_flaw;
use checker::laws::lawful_where_all_parts_hold;
use checker::stage::stage_at;
use std::alloc::{AllocError, Global};
use txn::{Catalogue, Report};

/// The first thing that does not hold of a report that fits the catalogue: each part is judged once
/// those before it hold.
pub(crate) fn flaw_of(
    alloc: Global,
    catalogue: &Catalogue,
    report: &Report,
) -> Result<Option<Flaw>, AllocError>
    requires { FitsCatalogue catalogue.now (told report.now) }
    ensures { IfOk result (IsJudged catalogue.now (told report.entry.now)) }
{
    lawful_where_all_parts_hold();
    let base = stage_at(alloc, report.base, &report.base_vars)?;
    if let Some(flaw) = base_flaw(catalogue, report, &base) {
        return Ok(Some(flaw));
    }
    let mut stage = match replay(catalogue, base, &report.entries)? {
        Replayed::Reached(stage) => stage,
        Replayed::Stopped(i, due) => return Ok(Some(Flaw::Entry(i, due))),
    };
    if let Some(flaw) = present_flaw(catalogue, report, &stage) {
        return Ok(Some(flaw));
    }
    if let Some(flaw) = tasks_flaw(alloc, catalogue, report)? {
        return Ok(Some(flaw));
    }
    parked_flaw(catalogue, report, &mut stage.values)
}
