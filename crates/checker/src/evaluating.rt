//! Calls replayed by the plain evaluator, in place: a call takes the time of its own work, however many variables there
//! are.

ghost use Rattle.std.specs.Prelude.{◌≡◌, ◌<◌, ◌↔◌, length, IfOk, IsTrue, OnOk, OnErr};
ghost use Rattle.txn_programs.specs.Listing.{arity, call_program, program_as, tasks as listed_tasks};
ghost use Rattle.txn_programs.specs.Listing.{task_tx, transaction_at};
ghost use Rattle.txn_programs.specs.Meaning.{outcome, after};
ghost use Rattle.txn_evaluator.specs.Notes.{undone, AreInside};

use std::alloc::AllocError;
use txn::{Catalogue, Outcome, TaskId, TxId, evaluate};
use txn_evaluator::notes::{Note, undo};

/// How a transaction ends with these arguments on the values, where the values after it stand then, and the notes hold
/// what it wrote. A parameter without an argument counts as 0.
fn execute_call(
    catalogue: &Catalogue,
    tx: TxId,
    arguments: &[i64],
    values: &mut Vec<i64>,
    notes: &mut Vec<Note>,
) -> Result<Outcome, AllocError>
    requires known { tx.0 < length catalogue.now.transactions }
    requires values { length values.old.items ≡ length catalogue.now.initial }
    ensures outcome { IfOk result (λ o. o ≡ outcome (call_program catalogue.now tx arguments.now) values.old.items) }
    ensures after { OnOk result
        (values.new.items ≡ after (call_program catalogue.now tx arguments.now) values.old.items) }
    ensures refused { OnErr result (values.new.items ≡ values.old.items) }
    ensures undone { undone notes.new.items values.new.items ≡ values.old.items }
    ensures inside { AreInside (length values.new.items) notes.new.items }
    ensures sized { length values.new.items ≡ length values.old.items }
{
    catalogue.rules();
    evaluate::execute_noting(
        arguments,
        catalogue.tx(tx),
        catalogue.always(),
        values.as_mut_slice(),
        notes,
    )
}

/// Whether a transaction takes as many arguments as a task has.
pub fn takes(catalogue: &Catalogue, task: TaskId, tx: TxId) -> bool
    requires task { task.0 < length (listed_tasks catalogue.now) }
    requires known { tx.0 < length catalogue.now.transactions }
    ensures { IsTrue result ↔ (arity (transaction_at catalogue.now tx)
        ≡ arity (transaction_at catalogue.now (task_tx catalogue.now task))) }
{
    let own = catalogue.params(catalogue.task_tx(task));
    catalogue.params(tx).len() == own.len()
}

/// How a transaction ends on the values with the arguments of a task, where the values after it stand then. A refused
/// growth leaves the values as they were.
///
/// What the notes hold at first is forgotten; then they hold what it wrote: undone, they lead back to the values
/// before.
pub fn execute(
    catalogue: &Catalogue,
    task: TaskId,
    tx: TxId,
    values: &mut Vec<i64>,
    notes: &mut Vec<Note>,
) -> Result<Outcome, AllocError>
    requires task { task.0 < length (listed_tasks catalogue.now) }
    requires known { tx.0 < length catalogue.now.transactions }
    requires values { length values.old.items ≡ length catalogue.now.initial }
    ensures outcome { IfOk result (λ o. o ≡ outcome (program_as catalogue.now task tx) values.old.items) }
    ensures after { OnOk result (values.new.items ≡ after (program_as catalogue.now task tx) values.old.items) }
    ensures refused { OnErr result (values.new.items ≡ values.old.items) }
    ensures undone { undone notes.new.items values.new.items ≡ values.old.items }
    ensures inside { AreInside (length values.new.items) notes.new.items }
    ensures sized { length values.new.items ≡ length values.old.items }
{
    execute_call(catalogue, tx, catalogue.task_arguments(task), values, notes)
}

/// The same, and the values then stand as they stood before. What the notes hold is forgotten.
pub fn ending(
    catalogue: &Catalogue,
    task: TaskId,
    tx: TxId,
    values: &mut Vec<i64>,
    notes: &mut Vec<Note>,
) -> Result<Outcome, AllocError>
    requires task { task.0 < length (listed_tasks catalogue.now) }
    requires known { tx.0 < length catalogue.now.transactions }
    requires values { length values.old.items ≡ length catalogue.now.initial }
    ensures outcome { IfOk result (λ o. o ≡ outcome (program_as catalogue.now task tx) values.old.items) }
    ensures kept { values.new.items ≡ values.old.items }
{
    let outcome = execute(catalogue, task, tx, values, notes)?;
    undo(values.as_mut_slice(), notes, 0);
    Ok(outcome)
}
