//! The instances of a catalogue.
//!
//! A call is looked up as a configuration is: its arguments with zeros behind them are the values, and its transaction
//! and the number of its arguments are the counts. So the time is that of the tasks for each transaction, and no more
//! where each task makes a call of its own.

ghost use Rattle.std.specs.Prelude.{◌≡◌, ◌+◌, ◌-◌, ◌<◌, ◌≤◌, ◌^◌, ◌++◌, length, pos, replicate, slice_get, IfOk, OnOk};
ghost use Rattle.txn_programs.specs.Listing.{calls, tasks};
ghost use Rattle.txn_programs.specs.declared.limits.TheConstants.{MAX_PARAMETERS};
ghost use Rattle.explore_law.specs.Instances.{instances};
ghost use Rattle.explore_search.specs.Instancing.{AddsCall, TellsInstances, TellsTasks, first_calls, index};

use crate::Configs;
use explore_law::InstanceId;
use std::alloc::{AllocError, Global};
use txn::limits::MAX_PARAMETERS;
use txn::{Arguments, Call, Catalogue, TaskId, TxId};

/// The instances of a catalogue, and which of them each task is of.
#[derive(Drop)]
pub struct Instances {
    /// The call of each instance.
    pub calls: Vec<Call>,
    /// The instance of each task.
    pub of_tasks: Vec<InstanceId>,
}

/// The instances of the catalogue. `Err` where memory was refused.
pub fn instances_of(alloc: Global, catalogue: &Catalogue) -> Result<Instances, AllocError>
    ensures { IfOk result (TellsInstances catalogue.now) }
{
    catalogue.rules();
    let mut calls = Vec::new(alloc);
    let mut seen = Configs::new(alloc, MAX_PARAMETERS, 2, catalogue.tasks() + 1)?;
    'transactions: for tx in 0..catalogue.tx_count() as u32 {
        add_calls_to(&mut calls, &mut seen, catalogue, TxId(tx))?;
    }
    let of_tasks = instances_of_tasks(alloc, catalogue, &seen)?;
    Ok(Instances { calls, of_tasks })
}

/// Adds the calls of the transaction's tasks, each once.
fn add_calls_to(
    calls: &mut Vec<Call>,
    seen: &mut Configs,
    catalogue: &Catalogue,
    tx: TxId,
) -> Result<(), AllocError>
    requires known { tx.0 < length catalogue.now.transactions }
    requires so_far { calls.old.items ≡ first_calls catalogue.now tx.0 }
    requires seen { seen.old ≡ index calls.old.items }
    ensures so_far { OnOk result (calls.new.items ≡ first_calls catalogue.now (tx.0 + 1)) }
    ensures seen { OnOk result (seen.new ≡ index calls.new.items) }
{
    catalogue.rules();
    'tasks: for task in 0..catalogue.tasks() as u32 {
        let task = TaskId(task);
        if catalogue.task_tx(task).0 == tx.0 {
            add_call(calls, seen, tx, catalogue.task_arguments(task))?;
        }
    }
    Ok(())
}

/// Adds the call behind the others, unless it is one of them.
fn add_call(
    calls: &mut Vec<Call>,
    seen: &mut Configs,
    tx: TxId,
    arguments: &[i64],
) -> Result<(), AllocError>
    requires few { length arguments.now ≤ MAX_PARAMETERS }
    requires room { length calls.old.items + 1 < 2 ^ 32 }
    requires seen { seen.old ≡ index calls.old.items }
    ensures added { OnOk result
        (AddsCall calls.old.items (record { tx = tx; arguments = arguments.now }) calls.new.items) }
    ensures seen { OnOk result (seen.new ≡ index calls.new.items) }
{
    let before = seen.len();
    let values = padded(arguments);
    seen.insert(&values, &[tx.0, arguments.len() as u32])?;
    if seen.len() > before {
        let arguments = Arguments::of(arguments);
        calls.push(Call { tx, arguments })?;
    }
    Ok(())
}

/// The arguments, and zeros behind them.
fn padded(arguments: &[i64]) -> [i64; MAX_PARAMETERS]
    requires { length arguments.now ≤ MAX_PARAMETERS }
    ensures { result ≡ arguments.now ++ replicate (MAX_PARAMETERS - length arguments.now) (pos 0) }
{
    let mut values = [0; MAX_PARAMETERS];
    values[..arguments.len()].copy_from_slice(arguments);
    values
}

/// The instance of each task, of these instances.
fn instances_of_tasks(
    alloc: Global,
    catalogue: &Catalogue,
    seen: &Configs,
) -> Result<Vec<InstanceId>, AllocError>
    requires { seen.now ≡ index (instances catalogue.now) }
    ensures { IfOk result (λ list. TellsTasks catalogue.now list.items) }
{
    catalogue.rules();
    let mut list = Vec::with_capacity(alloc, catalogue.tasks())?;
    'tasks: for task in 0..catalogue.tasks() as u32 {
        list.push(instance_of(catalogue, seen, TaskId(task)))?;
    }
    Ok(list)
}

/// The instance of the task.
fn instance_of(catalogue: &Catalogue, seen: &Configs, task: TaskId) -> InstanceId
    requires known { task.0 < length (tasks catalogue.now) }
    requires seen { seen.now ≡ index (instances catalogue.now) }
    ensures { slice_get (instances catalogue.now) result.0 ≡ slice_get (calls catalogue.now) task.0 }
{
    catalogue.rules();
    let arguments = catalogue.task_arguments(task);
    let values = padded(arguments);
    let tx = catalogue.task_tx(task);
    match seen.number_of(&values, &[tx.0, arguments.len() as u32]) {
        Some(number) => InstanceId(number as u32),
        None => unreachable!(),
    }
}
