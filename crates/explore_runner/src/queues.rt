//! The tasks of each instance that are left to give a turn.

ghost use Rattle.std.specs.Prelude.{◌≡◌, ◌<◌, [], ◌∷◌, ◌++◌, length, map, replicate, slice_set, IfOk, OnOk};
ghost use Rattle.txn_programs.specs.Listing.{calls};
ghost use Rattle.explore_law.specs.Orders.{counted};
ghost use Rattle.explore_runner.specs.Giving.{queues, queue_at, Leaves, AreOwn};

use explore_search::{InstanceId, instances_of};
use std::alloc::{AllocError, Global};
use txn::Catalogue;

/// For each instance its tasks, the lowest one last.
pub(crate) fn tasks_by_instance(
    alloc: Global,
    catalogue: &Catalogue,
) -> Result<Vec<Vec<u32>>, AllocError>
    ensures own { IfOk result (λ w. AreOwn catalogue.now (queues w.items)) }
    ensures counted { IfOk result
        (λ w. map length (queues w.items) ≡ counted catalogue.now (calls catalogue.now)) }
{
    let instances = instances_of(alloc, catalogue)?;
    let mut waiting = no_tasks(alloc, instances.calls.len())?;
    let tasks = catalogue.tasks();
    'tasks: for done in 0..tasks {
        let task = tasks - 1 - done;
        add(&mut waiting, instances.of_tasks[task], task as u32)?;
    }
    Ok(waiting)
}

/// No tasks, for so many instances.
fn no_tasks(alloc: Global, count: usize) -> Result<Vec<Vec<u32>>, AllocError>
    ensures { IfOk result (λ w. queues w.items ≡ replicate count []) }
{
    let mut waiting = Vec::with_capacity(alloc, count)?;
    'instances: for _done in 0..count {
        waiting.push(Vec::new(alloc))?;
    }
    Ok(waiting)
}

/// Adds a task of the instance.
fn add(waiting: &mut Vec<Vec<u32>>, instance: InstanceId, task: u32) -> Result<(), AllocError>
    requires { instance.0 < length waiting.old.items }
    ensures { OnOk result (queues waiting.new.items
        ≡ slice_set (queues waiting.old.items) instance.0
        (queue_at (queues waiting.old.items) instance.0 ++ task ∷ [])) }
{
    waiting[instance.0 as usize].push(task)?;
    Ok(())
}

/// Takes the lowest task of the instance that is left.
pub(crate) fn next(waiting: &mut Vec<Vec<u32>>, instance: InstanceId) -> Option<u32>
    requires { instance.0 < length waiting.old.items }
    ensures { Leaves (queues waiting.old.items) instance result (queues waiting.new.items) }
{
    waiting[instance.0 as usize].pop()
}
