//! Entries replayed, each by the transaction that its line names, with the arguments of its task.

ghost use Rattle.std.specs.Prelude.{◌≡◌, ◌+◌, ◌<◌, ◌↔◌, IfOk, IsTrue, IsSome, IfSome, All, length, true};
ghost use Rattle.txn_programs.specs.Listing.{tasks as listed_tasks};
ghost use Rattle.txn_programs.specs.Replay.{applied};
ghost use Rattle.checker.specs.View.{view};
ghost use Rattle.checker.specs.Parts.{GoesOn, AllGoOn, led_to};

use crate::evaluating::{execute, takes};
use crate::raise::raise;
use crate::stage::Stage;
use std::alloc::AllocError;
use txn::{Catalogue, Entry};
use txn_evaluator::notes::Note;

/// Whether a number is the next one.
fn is_next(number: u64, last: u64) -> bool
    ensures { IsTrue result ↔ (number ≡ last + 1) }
{
    last < number && number - last == 1
}

/// Goes on by an entry, if the entry can. It takes the time of the entry's own work, however many variables there are.
pub(crate) fn step(
    catalogue: &Catalogue,
    entry: &Entry,
    stage: &mut Stage,
    notes: &mut Vec<Note>,
) -> Result<bool, AllocError>
    requires task { entry.now.task.0 < length (listed_tasks catalogue.now) }
    requires known { entry.now.tx.0 < length catalogue.now.transactions }
    requires values { length stage.old.values.items ≡ length catalogue.now.initial }
    requires versions { length stage.old.versions.items ≡ length catalogue.now.initial }
    ensures goes_on { IfOk result (λ yes. IsTrue yes ↔ GoesOn catalogue.now entry.now (view stage.old)) }
    ensures applied { IfOk result (λ yes. yes ≡ true
        → view stage.new ≡ applied catalogue.now entry.now (view stage.old)) }
    ensures values { length stage.new.values.items ≡ length catalogue.now.initial }
    ensures versions { length stage.new.versions.items ≡ length catalogue.now.initial }
{
    if !is_next(entry.number, stage.number) || !takes(catalogue, entry.task, entry.tx) {
        return Ok(false);
    }
    let outcome = execute(catalogue, entry.task, entry.tx, &mut stage.values, notes)?;
    if outcome != entry.outcome {
        return Ok(false);
    }
    raise(entry.number, notes, &stage.values, &mut stage.versions)?;
    stage.number = entry.number;
    Ok(true)
}

/// Where the entries lead from a stage, if each of them goes on from where those before it lead.
pub(crate) fn replay(
    catalogue: &Catalogue,
    base: Stage,
    entries: &[Entry],
) -> Result<Option<Stage>, AllocError>
    requires known { All (λ e. (e.task.0 < length (listed_tasks catalogue.now))
        × (e.tx.0 < length catalogue.now.transactions)) entries.now }
    requires values { length base.values.items ≡ length catalogue.now.initial }
    requires versions { length base.versions.items ≡ length catalogue.now.initial }
    ensures hold { IfOk result (λ s. IsSome s ↔ AllGoOn catalogue.now (view base) entries.now) }
    ensures reached { IfOk result (λ s. IfSome s (λ s. view s ≡ led_to catalogue.now (view base) entries.now)) }
    ensures sized { IfOk result (λ s. IfSome s (λ s. length s.values.items ≡ length catalogue.now.initial)) }
{
    let mut stage = base;
    let mut notes = Vec::new(*stage.values.allocator());
    'entries: for entry in entries {
        if !step(catalogue, entry, &mut stage, &mut notes)? {
            return Ok(None);
        }
    }
    Ok(Some(stage))
}
