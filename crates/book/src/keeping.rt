//! How a task is parked with what its attempt read.

ghost use Rattle.std.specs.Prelude.{◌≡◌, ◌<◌, Some, slice_get};
ghost use Rattle.attempt.specs.View.{begun_anew};
ghost use Rattle.book.specs.declared.sleepers.TheConstants.{MAX_SETS};
ghost use Rattle.book.specs.Tasks as Task;
ghost use Rattle.book.specs.Table.{placed, unvalued};
ghost use Rattle.book.specs.Turns.{left_parked};

use crate::table::TaskTable;
use attempt::Attempt;
use txn::TaskId;

/// A running task waits for a change of a variable that its attempt read. Where variables share sets the
/// table takes the log, and the attempt begins anew. It takes no memory.
#[inline(always)]
pub fn park(table: &mut TaskTable, task: TaskId, attempt: &mut Attempt<'_>)
    requires running { slice_get table.old.tasks task.0 ≡ Some Task.Running }
    requires variables { attempt.old.variables ≡ table.old.variables }
    ensures parked { table.new ≡ placed table.old task (Task.Parked (unvalued attempt.old.log)) }
    ensures left { attempt.new ≡ left_parked attempt.old }
{
    if table.is_wide() {
        hand_over(table, task, attempt);
    } else {
        table.park(task, attempt.log());
    }
}

/// As `park`, where variables share sets.
#[cold]
#[inline(never)]
fn hand_over(table: &mut TaskTable, task: TaskId, attempt: &mut Attempt<'_>)
    requires wide { MAX_SETS < table.old.variables }
    requires running { slice_get table.old.tasks task.0 ≡ Some Task.Running }
    requires variables { attempt.old.variables ≡ table.old.variables }
    ensures parked { table.new ≡ placed table.old task (Task.Parked (unvalued attempt.old.log)) }
    ensures left { attempt.new ≡ begun_anew attempt.old }
{
    // To ask for the log is to be told that its variables are those that there are.
    let _told = attempt.log();
    table.park_wide(task, attempt.take_log());
}
