//! Long calls of a desk, which are evaluated outside it: under the host's lock.

ghost use Rattle.std.specs.Prelude.{◌≡◌};
ghost use Rattle.stm_c.specs.DeskAnswers.{nothing_due};
ghost use Rattle.stm_c.specs.DeskCalls.{BringsIn, HandsNext, RunsAny};
ghost use Rattle.stm_c.specs.Held.{On, OnBoth};
ghost use Rattle.stm_c.specs.Jobs.{OnJob};

use crate::codes::{EMPTY, GONE, UNKNOWN, done};
use crate::desk_answers::{JobFor, due, nothing_due};
use crate::desk_handle::DeskHandle;
use crate::jobs::{Taken, job_of};
use crate::worker_handle::WorkerHandle;
use stm_desk::Desk;
use stm_store::{Job, Worker};

/// The next long call that waited and whose task runs again, and whose it is: the host evaluates its job. -26 in the
/// ticket's place, and nobody's: there is none. -12: the handle is empty.
#[unsafe(no_mangle)]
pub extern "C" fn stm_desk_next_due(desk: &mut DeskHandle) -> JobFor
    ensures { On desk.old.value desk.new.value nothing_due result (λ old answer new. HandsNext old answer new) }
{
    let Some(held) = desk.get_mut() else {
        return nothing_due();
    };
    next_due(held)
}

fn next_due(desk: &mut Desk) -> JobFor
    ensures { HandsNext desk.old result desk.new }
{
    desk.law();
    desk.store().law();
    due(desk.next_due())
}

/// A worker's ended attempt of a long call is brought, and then all that it woke have their turns: 0, and whoever waits
/// is told, or waits on. The worker has none to bring any more. 2: what was read is no longer so, and the task still
/// runs. -18, 3: what became of it was told, or is to be, or it waits; -11: the worker had none; -17: its program says
/// otherwise of the transaction; -12: one of the handles is empty; then nothing else changed.
#[unsafe(no_mangle)]
pub extern "C" fn stm_desk_bring(desk: &mut DeskHandle, worker: &mut WorkerHandle) -> i32
    ensures { OnBoth desk.old.value worker.old.value desk.new.value worker.new.value EMPTY result
        (λ old before answer new after. BringsIn old before answer new after) }
{
    let Some(held) = desk.get_mut() else {
        return EMPTY;
    };
    let Some(hired) = worker.get_mut() else {
        return EMPTY;
    };
    bring(held, hired)
}

fn bring(desk: &mut Desk, worker: &mut Worker) -> i32
    ensures { BringsIn desk.old worker.old result desk.new worker.new }
{
    done(desk.bring(worker))
}

/// The running task of the job has its turn here, and then all that it woke have theirs: 0, and whoever waits is told,
/// or waits on. -18, 3: what became of it was told, or is to be, or it waits; -9: there is no such transaction, or it
/// wants another number of arguments; -12: the handle is empty; then nothing changed.
#[unsafe(no_mangle)]
pub extern "C" fn stm_desk_run_now(desk: &mut DeskHandle, job: Taken) -> i32
    ensures { On desk.old.value desk.new.value EMPTY result
        (λ old answer new. OnJob job GONE answer old new (RunsAny old answer new)) }
{
    let Some(held) = desk.get_mut() else {
        return EMPTY;
    };
    run_told(held, job)
}

fn run_told(desk: &mut Desk, told: Taken) -> i32
    ensures { OnJob told GONE result desk.old desk.new (RunsAny desk.old result desk.new) }
{
    match job_of(&told) {
        Some(job) => run_now(desk, job),
        None => GONE,
    }
}

fn run_now(desk: &mut Desk, job: Job) -> i32
    ensures { RunsAny desk.old result desk.new job }
{
    if !desk
        .store()
        .catalogue()
        .is_callable(job.tx, job.arguments.as_slice())
    {
        return UNKNOWN;
    }
    done(desk.run_now(job))
}
