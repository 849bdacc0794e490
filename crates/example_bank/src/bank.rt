//! The bank, which a lock guards, and a clerk for each thread.

ghost use Rattle.std.specs.Prelude.{◌≡◌, ◌≤◌, [], IfOk, IfSome};
ghost use Rattle.std.specs.Coded.{codes};
ghost use Rattle.txn.specs.Codes.{coded_listing};
ghost use Rattle.txn_programs.specs.Listing.{IsCallable, Listing};
ghost use Rattle.example_bank.specs.Balances.{IsBank, IsSound, total};

use std::alloc::Global;
use std::marker::{Brand, PhantomData};
use stm_store::{Job, Program, Refused, Store, Worker};
use txn::Memory;

/// Which program a bank is of. What a lock holds is known by its type alone, so the type says it.
pub trait Naming: Send {
    ghost catalogue: { Listing };
}

impl Naming for Brand {
    ghost catalogue = { record { names = []; tables = []; initial = []; always = []; transactions = []; runs = [] } };
}

/// Accounts, and the transactions on them that wait to be served.
#[derive(Drop)]
pub struct Bank<N: Naming> {
    store: Store,
    of: PhantomData<N>,
    ghost named: { store.catalogue.now ≡ N.catalogue } by { Prim.hlevel (codes, coded_listing) },
}

/// What one thread has.
#[derive(Drop)]
pub struct Clerk<N: Naming> {
    worker: Worker,
    of: PhantomData<N>,
    ghost named: { worker.catalogue.now ≡ N.catalogue } by { Prim.hlevel (codes, coded_listing) },
}

impl<N: Naming> Bank<N> {
    /// The bank of a program, for so many clerks.
    pub fn open(alloc: Global, program: Program, clerks: usize) -> Result<Bank<N>, Memory>
        requires named { program.catalogue.now ≡ N.catalogue }
        requires few { clerks ≤ 32 }
    {
        let store = Store::open(alloc, program, clerks, 0)?;
        Ok(Bank {
            store,
            of: PhantomData,
        })
    }

    /// One of the clerks that it was opened for, while there are any.
    pub fn clerk(&mut self) -> Option<Clerk<N>> {
        let worker = self.store.worker()?;
        Some(Clerk {
            worker,
            of: PhantomData,
        })
    }

    /// The next task that can be served.
    pub fn take(&mut self) -> Option<Job>
        ensures { IfSome result (λ job. IsCallable N.catalogue job.tx job.arguments) }
    {
        match self.store.take() {
            Ok(job) => Some(job),
            Err(_) => None,
        }
    }

    /// Brings what a clerk has tried. `false` where it has to be tried again.
    pub fn bring(&mut self, clerk: &mut Clerk<N>) -> bool {
        !matches!(self.store.bring(&mut clerk.worker), Err(Refused::Stale))
    }

    /// Serves a task at once, with no clerk.
    pub fn serve(&mut self, job: Job) {
        // A program without transactions has no task.
        let Some(mut lender) = self.store.lender() else {
            return;
        };
        // However it ends, the task is served.
        let _came = self.store.turn(&mut lender, job);
    }

    /// What the accounts have, at one moment. Whatever was served: none is below zero, and together
    /// they have what they had at first.
    pub fn balances(&self) -> Result<Vec<i64>, Memory>
        requires { IsBank N.catalogue }
        ensures { IfOk result (λ v. IsSound (total N.catalogue.initial) v.items) }
    {
        self.store.law();
        self.store.values()
    }
}

impl<N: Naming> Clerk<N> {
    /// Tries a task with no lock. `false` where it has to be tried again.
    pub fn try_job(&mut self, job: Job) -> bool
        requires { IsCallable N.catalogue job.tx job.arguments }
    {
        self.worker.try_job(job).is_ok()
    }
}
