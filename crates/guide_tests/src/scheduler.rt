//! A small build.

ghost use Rattle.std.specs.Prelude.{true};

use example_scheduler::{PlanFault, Step, Work, run};
use std::alloc::{AllocError, Global};
use std::sync::Wait;
use std::sync::atomic::{AtomicU64, Ordering};
use std::thread;
use std::thread::Threads;
use txn::BuildFault;

/// Notes which jobs were done, a digit each.
#[derive(Drop)]
struct Noted {
    jobs: AtomicU64,
}

impl Work for Noted {
    ghost performed = { λ job. true };

    fn perform(&self, job: u32) {
        let before = self.jobs.load(Ordering::SeqCst);
        self.jobs.store(
            before.wrapping_mul(10).wrapping_add(u64::from(job) + 1),
            Ordering::SeqCst,
        );
    }
}

fn step(alloc: Global, name: &str, after: &[u32]) -> Result<Step, AllocError> {
    let name = String::from_str(alloc, name)?;
    let mut waits = Vec::new(alloc);
    waits.extend_from_slice(after)?;
    Ok(Step { name, after: waits })
}

/// Each waits for the one before, though the last is declared first.
fn steps(alloc: Global) -> Result<Vec<Step>, AllocError> {
    let mut all = Vec::new(alloc);
    all.push(step(alloc, "publish", &[1, 2])?)?;
    all.push(step(alloc, "test", &[2])?)?;
    all.push(step(alloc, "link", &[3])?)?;
    all.push(step(alloc, "compile", &[])?)?;
    Ok(all)
}

/// Whether these jobs are done, and noted by these digits.
fn are_done(rt: &(impl Threads + Wait + Sync), alloc: Global, steps: &[Step], digits: u64) -> bool {
    let noted = Noted {
        jobs: AtomicU64::new(0),
    };
    let is_told = match run(rt, alloc, steps, &noted) {
        Ok(report) => report.as_str().starts_with("base 0\n"),
        Err(_) => false,
    };
    is_told && noted.jobs.load(Ordering::SeqCst) == digits
}

#[test]
fn jobs_are_done_behind_those_that_they_wait_for(rt: HostRuntime) {
    match steps(rt.alloc()) {
        Ok(steps) => assert!(rt; are_done(&rt, rt.alloc(), steps.as_slice(), 4321)),
        Err(_) => panic!(rt; "no memory"),
    }
}

/// A slow first job, and what the second one saw of it.
#[derive(Drop)]
struct Slow {
    /// 1 once the first job is performed.
    over: AtomicU64,
    /// 1 where the second began behind it, 2 where it began before.
    second: AtomicU64,
}

impl Slow {
    /// The first job gives the other hand time to begin the second.
    fn linger(&self) {
        'turns: for _ in 0..20_000 {
            thread::yield_now();
            if self.second.load(Ordering::SeqCst) != 0 {
                break 'turns;
            }
        }
        self.over.store(1, Ordering::SeqCst);
    }
}

impl Work for Slow {
    ghost performed = { λ job. true };

    fn perform(&self, job: u32) {
        if job == 0 {
            self.linger();
        } else if self.over.load(Ordering::SeqCst) == 1 {
            self.second.store(1, Ordering::SeqCst);
        } else {
            self.second.store(2, Ordering::SeqCst);
        }
    }
}

/// Two jobs, of which the second waits for the first.
fn two(alloc: Global) -> Result<Vec<Step>, AllocError> {
    let mut both = Vec::new(alloc);
    both.push(step(alloc, "slow", &[])?)?;
    both.push(step(alloc, "second", &[0])?)?;
    Ok(both)
}

/// Whether the second began behind the first.
fn is_waited_for(rt: &(impl Threads + Wait + Sync), alloc: Global, steps: &[Step]) -> bool {
    let work = Slow {
        over: AtomicU64::new(0),
        second: AtomicU64::new(0),
    };
    run(rt, alloc, steps, &work).is_ok() && work.second.load(Ordering::SeqCst) == 1
}

#[test]
fn a_job_begins_when_what_it_waits_for_was_performed(rt: HostRuntime) {
    match two(rt.alloc()) {
        Ok(steps) => assert!(rt; is_waited_for(&rt, rt.alloc(), steps.as_slice())),
        Err(_) => panic!(rt; "no memory"),
    }
}

/// A job that waits for one that is not there.
fn lost(alloc: Global) -> Result<Vec<Step>, AllocError> {
    let mut one = Vec::new(alloc);
    one.push(step(alloc, "lost", &[7])?)?;
    Ok(one)
}

/// Whether these are no plan, since a name is none.
fn are_no_plan(rt: &(impl Threads + Wait + Sync), alloc: Global, steps: &[Step]) -> bool {
    let noted = Noted {
        jobs: AtomicU64::new(0),
    };
    matches!(
        run(rt, alloc, steps, &noted),
        Err(PlanFault::Refused(BuildFault::Name))
    )
}

#[test]
fn who_waits_for_nobody_is_no_plan(rt: HostRuntime) {
    match lost(rt.alloc()) {
        Ok(steps) => assert!(rt; are_no_plan(&rt, rt.alloc(), steps.as_slice())),
        Err(_) => panic!(rt; "no memory"),
    }
}
