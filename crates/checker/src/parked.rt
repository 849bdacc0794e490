//! The parked tasks of a report.

ghost use Rattle.std.specs.Prelude.{◌≡◌, ◌<◌, ◌↔◌, IfOk, IsTrue, All, length};
ghost use Rattle.txn_programs.specs.declared.ast.Outcome.TheVariants.{Retries};
ghost use Rattle.txn_programs.specs.Listing.{program_as, tasks as listed_tasks};
ghost use Rattle.txn_programs.specs.Meaning.{outcome};

use crate::evaluating::ending;
use std::alloc::AllocError;
use txn::{Catalogue, Outcome, TaskId, TxId};
use txn_evaluator::notes::Note;

/// Whether a transaction asks to be run again, with the arguments of a task.
fn retries(
    catalogue: &Catalogue,
    task: TaskId,
    tx: TxId,
    values: &mut Vec<i64>,
    notes: &mut Vec<Note>,
) -> Result<bool, AllocError>
    requires task { task.0 < length (listed_tasks catalogue.now) }
    requires known { tx.0 < length catalogue.now.transactions }
    requires values { length values.old.items ≡ length catalogue.now.initial }
    ensures answer { IfOk result
        (λ yes. IsTrue yes ↔ (outcome (program_as catalogue.now task tx) values.old.items ≡ Retries)) }
    ensures kept { values.new.items ≡ values.old.items }
{
    match ending(catalogue, task, tx, values, notes)? {
        Outcome::Retries => Ok(true),
        Outcome::Returned(_) | Outcome::Thrown(_) => Ok(false),
    }
}

/// Whether the transaction named with each task asks to be run again. The values are as they were.
pub(crate) fn all_retry(
    catalogue: &Catalogue,
    values: &mut Vec<i64>,
    parked: &[(TaskId, TxId)],
) -> Result<bool, AllocError>
    requires known { All (λ p. (p.0.0 < length (listed_tasks catalogue.now))
        × (p.1.0 < length catalogue.now.transactions)) parked.now }
    requires values { length values.old.items ≡ length catalogue.now.initial }
    ensures answer { IfOk result (λ yes. IsTrue yes
        ↔ All (λ p. outcome (program_as catalogue.now p.0 p.1) values.old.items ≡ Retries) parked.now) }
    ensures kept { values.new.items ≡ values.old.items }
{
    let mut notes = Vec::new(*values.allocator());
    'parked: for (task, tx) in parked {
        if !retries(catalogue, *task, *tx, values, &mut notes)? {
            return Ok(false);
        }
    }
    Ok(true)
}
