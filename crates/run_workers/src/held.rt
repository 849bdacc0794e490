//! Short tasks that wait for their turns, while light ones are tried.
//!
//! A commit that changes what the light tasks in flight have read makes all their tries stale. So where
//! there are such, and no task can wait for what another one writes, a short task that was taken is held, and
//! some of them have their turns together: the tries beside them are stale once for all these, and not once
//! for each. Those that are held when no task is ready any more have their turns when the workers have ended.

ghost use Rattle.std.specs.Prelude.{◌≡◌, All};
ghost use Rattle.run_workers.specs.Standing.{HasTask};

use crate::shared::{Named, Naming, turn};
use arrayvec::ArrayVec;
use attempt::Attempt;
use std::mem;
use txn::TaskId;

/// How many are held, by all workers together, until they have their turns. More of them leave hardly fewer
/// stale tries.
pub(crate) const HELD: usize = 8;

/// Holds a task that was taken. Where there are enough, all have their turns, and none is held any more.
pub(crate) fn hold<'b, N: Naming>(
    named: &mut Named<'b, N>,
    every: u32,
    attempt: &mut Attempt<'b>,
    task: TaskId,
)
    requires every { every ≡ N.every }
    requires exists { HasTask N.catalogue task }
{
    named.held.push(task);
    if named.held.len() >= HELD {
        let held = mem::replace(&mut named.held, ArrayVec::new());
        serve(named, every, attempt, held.as_slice());
    }
}

/// Gives each of these tasks its turn, in this order.
fn serve<'b, N: Naming>(
    named: &mut Named<'b, N>,
    every: u32,
    attempt: &mut Attempt<'b>,
    held: &[TaskId],
)
    requires every { every ≡ N.every }
    requires exist { All (HasTask N.catalogue) held.now }
{
    for task in held {
        turn(named, every, attempt, *task);
    }
}
