//! The scheduler, which a lock guards, and a hand for each thread.

ghost use Rattle.std.specs.Prelude.{◌≡◌, ◌+◌, ◌≤◌, ℕ, true, List, [], IfOk, IfSome, length, string_bytes};
ghost use Rattle.std.specs.Coded.{codes};
ghost use Rattle.txn.specs.Codes.{coded_listing};
ghost use Rattle.txn_programs.specs.Listing.{IsCallable, Listing, tasks};
ghost use Rattle.txn_programs.specs.declared.limits.TheConstants.{MAX_TASKS};
ghost use Rattle.example_scheduler.specs.Order.{KeepsOrder, TellsInOrder};
ghost use Rattle.example_scheduler.specs.Plan.{IsPlan};
ghost use Rattle.stm_store.specs.Working.{without_runs};

use crate::crew::Work;
use std::alloc::Global;
use std::marker::{Brand, PhantomData};
use stm_store::{End, Job, Program, Refused, Store, Worker};
use txn::{Memory, TxId};

/// Which plan a scheduler has. What a lock holds is known by its type alone, so the type says it.
pub trait Planned: Send {
    ghost catalogue: { Listing };

    ghost after: { List (List ℕ) };
}

impl Planned for Brand {
    ghost catalogue = { record { names = []; tables = []; initial = []; always = []; transactions = []; runs = [] } };

    ghost after = { [] };
}

/// What came of a task.
#[derive(Clone, Copy, Debug, PartialEq, Eq)]
pub enum Came {
    /// This job has begun, and is to be done now.
    Begun(u32),
    /// A job's end is entered, or it waits.
    Over,
    /// What it read has changed: it has to be tried again.
    Stale,
}

/// The jobs of a plan, of which some wait for others.
#[derive(Drop)]
pub struct Scheduler<N: Planned> {
    store: Store,
    /// How many jobs there are.
    jobs: u32,
    /// How many tasks were taken and are not over.
    at_work: u32,
    of: PhantomData<N>,
    ghost first: { without_runs store.book.catalogue
        ≡ without_runs store.catalogue.now } by { Prim.hlevel (codes, coded_listing) },
    ghost named: { store.catalogue.now ≡ N.catalogue } by { Prim.hlevel (codes, coded_listing) },
}

/// What one thread has.
#[derive(Drop)]
pub struct Hand<N: Planned> {
    worker: Worker,
    of: PhantomData<N>,
    ghost named: { worker.catalogue.now ≡ N.catalogue } by { Prim.hlevel (codes, coded_listing) },
}

impl<N: Planned> Scheduler<N> {
    /// The scheduler of a plan of so many jobs, for so many hands.
    pub fn open(
        alloc: Global,
        program: Program,
        jobs: u32,
        hands: usize,
    ) -> Result<Scheduler<N>, Memory>
        requires named { program.catalogue.now ≡ N.catalogue }
        requires few { hands ≤ 32 }
        requires room { length (tasks program.catalogue.now) + jobs ≤ MAX_TASKS }
    {
        let store = Store::open_with_room(alloc, program, hands, 0, jobs as usize)?;
        Ok(Scheduler {
            store,
            jobs,
            at_work: 0,
            of: PhantomData,
        })
    }

    /// One of the hands that it was opened for, while there are any.
    pub fn hand(&mut self) -> Option<Hand<N>> {
        let worker = self.store.worker()?;
        Some(Hand {
            worker,
            of: PhantomData,
        })
    }

    /// Whether a hand has to wait: nothing is ready, but what others do may change that.
    pub fn has_to_wait(&self) -> bool {
        self.at_work > 0 && self.store.counts().ready == 0
    }

    /// The next task that is ready.
    pub fn take(&mut self) -> Option<Job>
        ensures { IfSome result (λ job. IsCallable N.catalogue job.tx job.arguments) }
    {
        let Ok(job) = self.store.take() else {
            return None;
        };
        self.at_work = self.at_work.saturating_add(1);
        Some(job)
    }

    /// Brings what a hand has tried.
    pub fn bring(&mut self, hand: &mut Hand<N>, job: Job) -> Came {
        match self.store.bring(&mut hand.worker) {
            Err(Refused::Stale) => return Came::Stale,
            Ok(End::Entered(_)) if job.tx.0 < self.jobs => {
                return Came::Begun(job.tx.0);
            }
            _ => {}
        }
        self.at_work = self.at_work.saturating_sub(1);
        Came::Over
    }

    /// A job was performed by this work: its end comes in.
    pub fn done<W: Work>(&mut self, job: u32)
        requires { W.performed job ≡ true }
    {
        let end = TxId(job.saturating_add(self.jobs));
        if self.store.catalogue().is_callable(end, &[]) {
            // Whoever takes it is told its ticket then.
            let _ticket = self.store.submit(end, &[]);
        }
        self.at_work = self.at_work.saturating_sub(1);
    }

    /// A task is given up, where memory ran out.
    pub fn give_up(&mut self, job: Job) {
        // Where somebody else has given it up it is over too.
        let _given_up = self.store.give_up(job.ticket);
        self.at_work = self.at_work.saturating_sub(1);
    }

    /// What every scheduler keeps: in its journal each job begins behind the ends of all that it
    /// waits for. It does nothing: its contract is the law.
    pub fn law(&self)
        requires { IsPlan N.after N.catalogue }
        ensures { KeepsOrder N.after self.now.store.book }
    {
        self.store.law();
    }

    /// The report, as text.
    pub fn report(&mut self) -> Result<String, Memory>
        requires { IsPlan N.after N.catalogue }
        ensures { IfOk result (λ text. TellsInOrder N.after (string_bytes text)) }
    {
        let report = self.store.report()?;
        self.law();
        Ok(report)
    }
}

impl<N: Planned> Hand<N> {
    /// Tries a task with no lock.
    pub fn try_job(&mut self, job: Job) -> Result<(), Refused>
        requires { IsCallable N.catalogue job.tx job.arguments }
    {
        self.worker.try_job(job)
    }
}
