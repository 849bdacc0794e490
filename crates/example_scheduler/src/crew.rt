//! The crew: two hands that do the jobs of a plan, side by side.

ghost use Rattle.std.specs.Prelude.{◌≡◌, ◌+◌, ◌≤◌, ℕ, Bool, true, IfOk, IfSome, length, string_bytes};
ghost use Rattle.txn_programs.specs.Listing.{IsCallable, tasks};
ghost use Rattle.example_scheduler.specs.Order.{TellsInOrder};
ghost use Rattle.example_scheduler.specs.Plan.{IsPlan, after_of};

use crate::planning::{PlanFault, Step, plan};
use crate::scheduler::{Came, Hand, Planned, Scheduler};
use std::alloc::Global;
use std::marker::Brand;
use std::sync::{Condvar, Mutex, Wait};
use std::thread::{Threads, join};
use stm_store::{Job, Program, Refused};
use txn::Memory;

/// What a job does, by its place in the plan. It is called with no lock held.
pub trait Work: Sync {
    /// That a job was performed: nobody but `perform` says so, and without it no job is done.
    ghost performed: { ℕ → Bool };

    fn perform(&self, job: u32)
        ensures { performed job ≡ true };
}

/// What the hands share.
#[derive(Drop)]
struct Shared<'a, N: Planned, W: Work> {
    scheduler: Mutex<Scheduler<N>>,
    /// Told where a task is over.
    changed: Condvar,
    work: &'a W,
}

/// The next task that is ready. `None` where none is, and none will be.
fn next<R: Wait, N: Planned, W: Work>(rt: &R, shared: &Shared<'_, N, W>) -> Option<Job>
    ensures { IfSome result (λ job. IsCallable N.catalogue job.tx job.arguments) }
{
    let mut scheduler = shared.changed.wait_while(
        rt,
        shared.scheduler.lock(rt),
        |scheduler| scheduler.has_to_wait(),
    );
    scheduler.take()
}

/// One task: tried until its end holds. Where it begins a job, the job is done.
fn serve<R: Wait, N: Planned, W: Work>(
    rt: &R,
    shared: &Shared<'_, N, W>,
    hand: &mut Hand<N>,
    job: Job,
)
    requires { IsCallable N.catalogue job.tx job.arguments }
{
    let job = &job;
    for _ in rt.forever() {
        match hand.try_job(*job) {
            Ok(()) => {}
            Err(Refused::Stale) => continue,
            Err(_) => {
                shared.scheduler.lock(rt).give_up(*job);
                break;
            }
        }
        let came = shared.scheduler.lock(rt).bring(hand, *job);
        match came {
            Came::Stale => continue,
            Came::Over => break,
            Came::Begun(number) => {
                shared.work.perform(number);
                shared.scheduler.lock(rt).done::<W>(number);
                break;
            }
        }
    }
    shared.changed.notify_all();
}

/// A hand's life.
fn labour<R: Wait, N: Planned, W: Work>(rt: &R, shared: &Shared<'_, N, W>, hand: &mut Hand<N>) {
    for _ in rt.forever() {
        let Some(job) = next(rt, shared) else {
            return;
        };
        serve(rt, shared, hand, job);
    }
}

/// Two hands do all jobs that can be done. The report afterwards: each job began behind the ends of
/// all that it waits for.
pub fn run<R: Threads + Wait + Sync, W: Work>(
    rt: &R,
    alloc: Global,
    steps: &[Step],
    work: &W,
) -> Result<String, PlanFault>
    ensures { IfOk result (λ text. TellsInOrder (after_of steps.now) (string_bytes text)) }
{
    let program = plan(alloc, steps)?;
    if steps.len() > 128 || program.catalogue().tasks() > 128 {
        return Err(PlanFault::TooMany);
    }
    match run_named::<R, Brand, W>(rt, alloc, program, steps, work) {
        Ok(report) => Ok(report),
        Err(_) => Err(PlanFault::Memory),
    }
}

/// The run of the plan of this name.
fn run_named<R: Threads + Wait + Sync, N: Planned, W: Work>(
    rt: &R,
    alloc: Global,
    program: Program,
    steps: &[Step],
    work: &W,
) -> Result<String, Memory>
    requires named { program.catalogue.now ≡ N.catalogue }
    requires plan { IsPlan N.after N.catalogue }
    requires room { length (tasks program.catalogue.now) + length steps.now ≤ 256 }
    ensures { IfOk result (λ text. TellsInOrder N.after (string_bytes text)) }
{
    let mut scheduler = Scheduler::<N>::open(alloc, program, steps.len() as u32, 2)?;
    let Some(first) = scheduler.hand() else {
        return scheduler.report();
    };
    let Some(second) = scheduler.hand() else {
        return scheduler.report();
    };
    let shared = Shared {
        scheduler: Mutex::new(scheduler),
        changed: Condvar::new(),
        work,
    };
    labour_both(rt, &shared, first, second);
    shared.scheduler.lock(rt).report()
}

/// The lives of two hands, side by side.
fn labour_both<R: Threads + Wait + Sync, N: Planned, W: Work>(
    rt: &R,
    shared: &Shared<'_, N, W>,
    mut first: Hand<N>,
    mut second: Hand<N>,
) {
    join(
        rt,
        || labour(rt, shared, &mut first),
        || labour(rt, shared, &mut second),
    );
}
