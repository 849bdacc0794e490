//! A worker, as a handle: its calls take no lock, by one thread at a time.

ghost use Rattle.std.specs.Prelude.{◌≡◌, None};
ghost use Rattle.stm_c.specs.Answers.{nothing_held};
ghost use Rattle.stm_c.specs.Calls.{ObservesAny, TriesAny};
ghost use Rattle.stm_c.specs.Held.{On};
ghost use Rattle.stm_c.specs.Jobs.{OnJob};

use crate::answers::{Answer, empty, observed, refusal};
use crate::codes::{EMPTY, UNKNOWN, done};
use crate::jobs::{Taken, job_of};
use crate::worker_handle::WorkerHandle;
use std::alloc::Global;
use stm_store::{Job, Refused, Worker};
use txn::TxId;

/// Evaluates a job that was taken on one state: 0 it has ended, 2 a read was stale, -6 out of
/// memory, -9 there is no such task or no such transaction, or it wants another number of arguments, -12 the
/// handle is empty.
#[unsafe(no_mangle)]
pub extern "C" fn stm_try_job(worker: &mut WorkerHandle, job: Taken) -> i32
    ensures { On worker.old.value worker.new.value EMPTY result
        (λ old how new. OnJob job UNKNOWN how old new (TriesAny old how new)) }
{
    let Some(held) = worker.get_mut() else {
        return EMPTY;
    };
    try_told(held, job)
}

fn try_told(worker: &mut Worker, told: Taken) -> i32
    ensures { OnJob told UNKNOWN result worker.old worker.new (TriesAny worker.old result worker.new) }
{
    match job_of(&told) {
        Some(job) => try_job(worker, job),
        None => UNKNOWN,
    }
}

fn try_job(worker: &mut Worker, job: Job) -> i32
    ensures { TriesAny worker.old result worker.new job }
{
    if !worker
        .catalogue()
        .is_callable(job.tx, job.arguments.as_slice())
    {
        return UNKNOWN;
    }
    done(worker.try_job(job))
}

/// How a call of the transaction would end on one state. -9: there is no such transaction, or it wants another
/// number of arguments.
#[unsafe(no_mangle)]
pub extern "C" fn stm_observe(worker: &mut WorkerHandle, tx: u32, arguments: &[i64]) -> Answer
    ensures { On worker.old.value worker.new.value nothing_held result
        (λ old how new. ObservesAny old tx arguments.now how new) }
{
    let Some(held) = worker.get_mut() else {
        return empty();
    };
    observe(held, tx, arguments)
}

fn observe(worker: &mut Worker, tx: u32, arguments: &[i64]) -> Answer
    ensures { ObservesAny worker.old tx arguments.now result worker.new }
{
    if !worker.catalogue().is_callable(TxId(tx), arguments) {
        return refusal(Refused::Unknown);
    }
    observed(worker.observe(TxId(tx), arguments))
}

/// Lets a worker go; its handle is empty afterwards. An empty one stays so.
#[unsafe(no_mangle)]
pub extern "C" fn stm_worker_free(alloc: Global, worker: &mut WorkerHandle)
    ensures { worker.new.value ≡ None }
{
    drop(worker.take(alloc));
}
