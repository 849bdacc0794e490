//! Entries replayed, each by the transaction that its line names, with the arguments of its task.

ghost use Rattle.std.specs.Prelude.{◌≡◌, ◌+◌, ◌<◌, ◌≤◌, ◌↔◌, IfOk, IsTrue, All, None, length};
ghost use Rattle.txn_programs.specs.declared.limits.TheConstants.{MAX_TASKS};
ghost use Rattle.txn_programs.specs.Listing.{program_as, tasks as listed_tasks};
ghost use Rattle.txn_programs.specs.Meaning.{after, outcome};
ghost use Rattle.txn_programs.specs.Replay.{applied, versions_after};
ghost use Rattle.explain_reports.specs.Parts.{due_tx};
ghost use Rattle.explain_reports.specs.Steps.{IsReplayed, IsStep};
ghost use Rattle.checker.specs.View.{view};

use checker::evaluating::{execute, takes};
use checker::raise::raise;
use checker::stage::Stage;
use std::alloc::AllocError;
use txn::{Catalogue, Entry, Outcome, TxId};
use txn_evaluator::notes::Note;

/// Where a replay ended.
#[derive(Drop)]
pub(crate) enum Replayed {
    /// All entries go on, and lead here.
    Reached(Stage),
    /// This entry does not go on: replay has this one in its place.
    Stopped(usize, Entry),
}

/// Whether an entry has this number and names this transaction, and ended so.
fn has(entry: &Entry, number: u64, tx: TxId, outcome: Outcome) -> bool
    ensures { IsTrue result ↔ (entry.now.number ≡ number) × (entry.now.tx ≡ tx) × (entry.now.outcome ≡ outcome) }
{
    entry.number == number && entry.tx == tx && entry.outcome == outcome
}

/// The transaction of an entry as replay has it: the one that the entry names, or its task's own where
/// that one takes more or fewer arguments than the task has.
fn due_tx(catalogue: &Catalogue, entry: &Entry) -> TxId
    requires task { entry.now.task.0 < length (listed_tasks catalogue.now) }
    requires known { entry.now.tx.0 < length catalogue.now.transactions }
    ensures due { result ≡ due_tx catalogue.now entry.now }
    ensures known { result.0 < length catalogue.now.transactions }
{
    if takes(catalogue, entry.task, entry.tx) {
        entry.tx
    } else {
        catalogue.task_tx(entry.task)
    }
}

/// Goes on by an entry if it can, and else tells the entry that replay has there. It takes the time of the entry's own
/// work, however many variables there are.
fn step(
    catalogue: &Catalogue,
    entry: &Entry,
    stage: &mut Stage,
    notes: &mut Vec<Note>,
) -> Result<Option<Entry>, AllocError>
    requires task { entry.now.task.0 < length (listed_tasks catalogue.now) }
    requires known { entry.now.tx.0 < length catalogue.now.transactions }
    requires values { length stage.old.values.items ≡ length catalogue.now.initial }
    requires versions { length stage.old.versions.items ≡ length catalogue.now.initial }
    requires few { stage.old.number ≤ MAX_TASKS }
    ensures step { IfOk result (IsStep catalogue.now (view stage.old) entry.now) }
    ensures applied { IfOk result (λ due. due ≡ None
        → view stage.new ≡ applied catalogue.now entry.now (view stage.old)) }
    ensures values { length stage.new.values.items ≡ length catalogue.now.initial }
    ensures versions { length stage.new.versions.items ≡ length catalogue.now.initial }
{
    let tx = due_tx(catalogue, entry);
    let outcome = execute(catalogue, entry.task, tx, &mut stage.values, notes)?;
    let number = stage.number + 1;
    if !has(entry, number, tx, outcome) {
        return Ok(Some(Entry {
            number,
            task: entry.task,
            tx,
            outcome,
        }));
    }
    raise(entry.number, notes, &stage.values, &mut stage.versions)?;
    stage.number = entry.number;
    Ok(None)
}

/// Goes over the entries from a stage, to the first that does not go on from where those before it
/// lead.
pub(crate) fn replay(
    catalogue: &Catalogue,
    base: Stage,
    entries: &[Entry],
) -> Result<Replayed, AllocError>
    requires known { All (λ e. (e.task.0 < length (listed_tasks catalogue.now))
        × (e.tx.0 < length catalogue.now.transactions)) entries.now }
    requires numbers { All (λ e. e.number ≤ MAX_TASKS) entries.now }
    requires few { base.number ≤ MAX_TASKS }
    requires values { length base.values.items ≡ length catalogue.now.initial }
    requires versions { length base.versions.items ≡ length catalogue.now.initial }
    ensures { IfOk result (IsReplayed catalogue.now (view base) entries.now) }
{
    let mut stage = base;
    let mut notes = Vec::new(*stage.values.allocator());
    'entries: for (i, entry) in entries.iter().enumerate() {
        match step(catalogue, entry, &mut stage, &mut notes)? {
            None => {}
            Some(due) => return Ok(Replayed::Stopped(i, due)),
        }
    }
    Ok(Replayed::Reached(stage))
}
