//! The parked tasks of a report.

ghost use Rattle.std.specs.Prelude.{◌≡◌, ◌<◌, ◌↔◌, IfOk, IsTrue, All, length};
ghost use Rattle.txn_programs.specs.declared.ast.Outcome.TheVariants.{Retries};
ghost use Rattle.txn_programs.specs.Listing.{tasks as listed_tasks};
ghost use Rattle.txn_programs.specs.Told.{told, now_of};
ghost use Rattle.checker.specs.declared.verdict.Part.TheVariants.{Parked};
ghost use Rattle.explain_reports.specs.First.{IsSearched};
ghost use Rattle.explain_reports.specs.Parts.{Waits};
ghost use Rattle.explain_reports.specs.Flaws.{IsPartJudged};

use crate::flaw::Flaw;
use checker::evaluating::ending;
use std::alloc::AllocError;
use txn::{Catalogue, Outcome, Report, TaskId, TxId};
use txn_evaluator::notes::Note;

fn retries(outcome: Outcome) -> bool
    ensures { IsTrue result ↔ (outcome ≡ Retries) }
{
    match outcome {
        Outcome::Retries => true,
        Outcome::Returned(_) | Outcome::Thrown(_) => false,
    }
}

/// The first task whose transaction does not retry. The values are as they were.
fn first_ended(
    catalogue: &Catalogue,
    parked: &[(TaskId, TxId)],
    values: &mut Vec<i64>,
    notes: &mut Vec<Note>,
) -> Result<Option<usize>, AllocError>
    requires known { All (λ p. (p.0.0 < length (listed_tasks catalogue.now))
        × (p.1.0 < length catalogue.now.transactions)) parked.now }
    requires values { length values.old.items ≡ length catalogue.now.initial }
    ensures first { IfOk result (IsSearched (Waits catalogue.now values.old.items) parked.now) }
    ensures kept { values.new.items ≡ values.old.items }
{
    'parked: for (i, (task, tx)) in parked.iter().enumerate() {
        if !retries(ending(catalogue, *task, *tx, values, notes)?) {
            return Ok(Some(i));
        }
    }
    Ok(None)
}

/// What is not so of the parked tasks of a report with these present values: the first that would
/// not wait, and how it ends.
pub(crate) fn parked_flaw(
    catalogue: &Catalogue,
    report: &Report,
    values: &mut Vec<i64>,
) -> Result<Option<Flaw>, AllocError>
    requires known { All (λ p. (p.0.0 < length (listed_tasks catalogue.now))
        × (p.1.0 < length catalogue.now.transactions)) report.now.parked.items }
    requires present { values.old.items ≡ (now_of (told report.now)).state }
    requires values { length values.old.items ≡ length catalogue.now.initial }
    ensures { IfOk result (IsPartJudged catalogue.now (told report.entry.now) Parked) }
{
    let mut notes = Vec::new(*values.allocator());
    match first_ended(catalogue, &report.parked, values, &mut notes)? {
        Some(i) => {
            let (task, tx) = report.parked[i];
            let ending = ending(catalogue, task, tx, values, &mut notes)?;
            Ok(Some(Flaw::Ends(i, ending)))
        }
        None => Ok(None),
    }
}
