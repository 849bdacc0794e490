//! Long calls: the thread that made one evaluates it beside what others commit, and takes the lock only to bring what
//! came of it.

ghost use Rattle.std.specs.Prelude.{◌≡◌};

use crate::behind::Behind;
use crate::name::Naming;
use crate::service::Service;
use crate::timed::Time;
use std::alloc::{AllocError, Global};
use std::sync::{MutexGuard, Wait};
use std::time::Clock;
use stm_store::{Job, Refused, Store, Worker};
use txn::Catalogue;
use txn::weights::{Size, Weights, sizes_of};

/// How often a call is evaluated beside the commits before it has its turn under the lock.
const TRIES: u32 = 8;

/// Which transactions are long, as a run judges it that takes the least time: to evaluate one costs more than to give
/// the lock back and to come for it again. With no worker, or out of memory, none is: then each is evaluated under the
/// lock.
pub(crate) fn long_ones(alloc: Global, catalogue: &Catalogue, workers: usize) -> Vec<bool> {
    if workers == 0 {
        return Vec::new(alloc);
    }
    match marked(alloc, catalogue) {
        Ok(marks) => marks,
        Err(_) => Vec::new(alloc),
    }
}

/// Whether each is long.
fn marked(alloc: Global, catalogue: &Catalogue) -> Result<Vec<bool>, AllocError> {
    let sizes = sizes_of(alloc, catalogue, Weights::LEAST_TIME)?;
    let mut marks = Vec::with_capacity(alloc, sizes.len())?;
    for size in &sizes {
        marks.push(matches!(*size, Size::Long))?;
    }
    Ok(marks)
}

/// The workers that the store has left.
pub(crate) fn workers_of(alloc: Global, store: &mut Store) -> Vec<Worker>
    ensures book { store.new.book ≡ store.old.book }
    ensures catalogue { store.new.catalogue.now ≡ store.old.catalogue.now }
{
    let mut workers = Vec::new(alloc);
    while let Some(worker) = store.worker() {
        // One for which there is no memory is let go.
        let _ = workers.push(worker);
    }
    workers
}

/// The worker evaluates the job once. `Unknown`: no call of its program makes such a job, which is never so.
fn tried(worker: &mut Worker, job: &Job) -> Result<(), Refused> {
    if !worker
        .catalogue()
        .is_callable(job.tx, job.arguments.as_slice())
    {
        return Err(Refused::Unknown);
    }
    worker.try_job(*job)
}

/// Whether the worker has come to an end of the job that is to be brought. `false` where it was tried often enough, or
/// there is no memory for it.
fn has_ended(worker: &mut Worker, job: &Job, tries: &mut u32) -> bool {
    for _ in 0..TRIES {
        if *tries >= TRIES {
            return false;
        }
        *tries += 1;
        match tried(worker, job) {
            Ok(()) => return true,
            Err(Refused::Stale) => {}
            Err(_) => return false,
        }
    }
    false
}

impl<N: Naming> Service<N> {
    /// Evaluates a long call once more beside what others commit, and brings what came of it: the lock is held before
    /// and after, and not meanwhile. The call has its turn under the lock where no worker is idle, or it was tried
    /// often enough.
    pub(crate) fn go_on<'a, R: Wait>(
        &'a self,
        rt: &R,
        behind: MutexGuard<'a, Behind<N>>,
        job: &Job,
        tries: &mut u32,
    ) -> MutexGuard<'a, Behind<N>> {
        drop(behind);
        let mut lent = self.evaluated(rt, job, tries);
        let mut behind = self.behind.lock(rt);
        behind.end_job(rt, &mut lent, job);
        self.give_back(rt, lent);
        behind
    }

    /// The same, if there is time left then; else nothing is brought.
    pub(crate) fn go_on_within<'a, R: Wait + Clock>(
        &'a self,
        rt: &R,
        behind: MutexGuard<'a, Behind<N>>,
        job: &Job,
        tries: &mut u32,
        time: Time,
    ) -> MutexGuard<'a, Behind<N>> {
        drop(behind);
        let mut lent = self.evaluated(rt, job, tries);
        let mut behind = self.behind.lock(rt);
        if time.left(rt).is_some() {
            behind.end_job(rt, &mut lent, job);
        }
        self.give_back(rt, lent);
        behind
    }

    /// An idle worker that has come to an end of the job. `None` where none is idle, it was tried often enough, or
    /// there is no memory for it.
    fn evaluated<R: Wait>(&self, rt: &R, job: &Job, tries: &mut u32) -> Option<Worker> {
        let idle = self.workers.lock(rt).pop();
        let mut worker = idle?;
        if has_ended(&mut worker, job, tries) {
            return Some(worker);
        }
        self.give_back(rt, Some(worker));
        None
    }

    /// The worker, where one was lent, is idle again.
    fn give_back<R: Wait>(&self, rt: &R, lent: Option<Worker>) {
        if let Some(worker) = lent {
            // There is room for each: it was one of them.
            let _ = self.workers.lock(rt).push(worker);
        }
    }
}
