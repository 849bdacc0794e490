//! How many tasks each instance has.

ghost use Rattle.std.specs.Prelude.{◌≡◌, IfOk};
ghost use Rattle.txn_programs.specs.Listing.{calls};
ghost use Rattle.explore_law.specs.Orders.{counted};
ghost use Rattle.explore_search.specs.Instancing.{TellsInstances};

use crate::instances::{Instances, instances_of};
use std::alloc::{AllocError, Global};
use txn::Catalogue;

/// For each instance how many of the tasks are of it. `Err` where memory was refused.
pub fn task_counts(alloc: Global, catalogue: &Catalogue) -> Result<Vec<u32>, AllocError>
    ensures { IfOk result (λ counts. counts.items ≡ counted catalogue.now (calls catalogue.now)) }
{
    let instances = instances_of(alloc, catalogue)?;
    counts_of(alloc, catalogue, &instances)
}

/// For each of these instances how many of the tasks are of it.
pub(crate) fn counts_of(
    alloc: Global,
    catalogue: &Catalogue,
    instances: &Instances,
) -> Result<Vec<u32>, AllocError>
    requires { TellsInstances catalogue.now instances.now }
    ensures { IfOk result (λ counts. counts.items ≡ counted catalogue.now (calls catalogue.now)) }
{
    catalogue.rules();
    let mut counts = vec![in alloc; 0; instances.calls.len()]?;
    let tasks = instances.of_tasks.len();
    'tasks: for done in 0..tasks {
        let instance = instances.of_tasks[tasks - 1 - done];
        counts[instance.0 as usize] += 1;
    }
    Ok(counts)
}
