//! The calls that tasks make.

ghost use Rattle.std.specs.Prelude.{◌≡◌, ◌<◌, ◌≤◌, ◌↔◌, IsTrue, length, slice_get, Some};
ghost use Rattle.txn_programs.specs.declared.limits.TheConstants.{MAX_PARAMETERS};
ghost use Rattle.txn_programs.specs.Listing.{calls, task_arguments, tasks as listed_tasks};
ghost use Rattle.checker.specs.Chapters.{line_call};

use crate::stage::same_values;
use txn::{Arguments, Call, Catalogue, TaskId, TxId};

/// The arguments of a task, or none where there is no such task.
fn arguments_of(catalogue: &Catalogue, task: TaskId) -> &[i64]
    ensures value { result.now ≡ task_arguments catalogue.now task }
    ensures few { length result.now ≤ MAX_PARAMETERS }
{
    catalogue.rules();
    if (task.0 as usize) < catalogue.tasks() {
        catalogue.task_arguments(task)
    } else {
        &[]
    }
}

/// What a line calls that names this transaction with the task.
pub(crate) fn line_call(catalogue: &Catalogue, task: TaskId, tx: TxId) -> Call
    ensures { result ≡ line_call catalogue.now (task, tx) }
{
    Call {
        tx,
        arguments: Arguments::of(arguments_of(catalogue, task)),
    }
}

/// What a task calls.
pub(crate) fn task_call(catalogue: &Catalogue, task: TaskId) -> Call
    requires { task.0 < length (listed_tasks catalogue.now) }
    ensures { slice_get (calls catalogue.now) task.0 ≡ Some result }
{
    line_call(catalogue, task, catalogue.task_tx(task))
}

/// Whether two calls are the same.
pub(crate) fn same_call(a: Call, b: Call) -> bool
    ensures { IsTrue result ↔ (a ≡ b) }
{
    a.tx.0 == b.tx.0 && same_values(a.arguments.as_slice(), b.arguments.as_slice())
}
