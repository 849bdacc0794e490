//! Calls of a transaction with arguments: a task of one's own, and its turn at once.

ghost use Rattle.std.specs.Prelude.{◌≡◌, IfOk, IfSome, OnErr};
ghost use Rattle.txn_programs.specs.Listing.{IsCallable, call_program};
ghost use Rattle.txn_programs.specs.Meaning.{outcome};
ghost use Rattle.attempt.specs.Room.{TakesMemory};
ghost use Rattle.book.specs.View.{IsRunning};
ghost use Rattle.stm_store.specs.Keeping.{KeepsStore};
ghost use Rattle.stm_store.specs.Turning.{BeginsCall, Calls, EndsHere};
ghost use Rattle.stm_store.specs.declared.answers.Way.TheVariants as Way;

use crate::answers::{End, Refused, Way};
use crate::job::Job;
use crate::lender::Lender;
use crate::serving::{enter, give_turn};
use crate::store::Store;
use attempt::Attempt;
use txn::{Arguments, Memory, Outcome, TxId};

impl Store {
    /// A task of the call more, which has its turn at once, whatever else is ready: which task, and what came of it.
    /// What it woke is ready. Where a growth is refused, which only a transaction that takes memory meets, the task is
    /// given up. The transaction has to exist, and to have as many parameters as there are arguments.
    ///
    /// Where it retries on the present values, the task of a call that waits is parked; one that only tries is
    /// `Retries`, also where there is no room, and parks none. `NoRoom` only where there is no room for the task, or
    /// 2^62 tickets were given. Then nothing changed.
    pub fn call(
        &mut self,
        lender: &mut Lender,
        tx: TxId,
        arguments: &[i64],
        way: Way,
    ) -> Result<(Job, End), Refused>
        requires known { IsCallable self.old.catalogue.now tx arguments.now }
        ensures called { Calls way self.old tx arguments.now result self.new }
        ensures kept { KeepsStore self.old self.new }
    {
        match way {
            Way::Waits => self.call_and_wait(lender, tx, arguments),
            Way::Tries => self.try_call(lender, tx, arguments),
        }
    }

    fn call_and_wait(
        &mut self,
        lender: &mut Lender,
        tx: TxId,
        arguments: &[i64],
    ) -> Result<(Job, End), Refused>
        requires known { IsCallable self.old.catalogue.now tx arguments.now }
        ensures called { Calls Way.Waits self.old tx arguments.now result self.new }
        ensures kept { KeepsStore self.old self.new }
    {
        let Some(job) = self.begin_call(tx, arguments) else {
            return Err(Refused::NoRoom);
        };
        let end = give_turn(&mut self.book, &mut lender.attempt, self.every, job.task);
        Ok((job, end))
    }

    fn try_call(
        &mut self,
        lender: &mut Lender,
        tx: TxId,
        arguments: &[i64],
    ) -> Result<(Job, End), Refused>
        requires known { IsCallable self.old.catalogue.now tx arguments.now }
        ensures called { Calls Way.Tries self.old tx arguments.now result self.new }
        ensures kept { KeepsStore self.old self.new }
    {
        match self.book.outcome_now(&mut lender.attempt, tx, arguments) {
            Ok(Outcome::Retries) => Err(Refused::Retries),
            Ok(_) => self.enter_call(&mut lender.attempt, tx, arguments),
            Err(_) => self.give_up_call(tx, arguments),
        }
    }

    /// How a call of the transaction would end on the present values, by a lender's attempt. Nothing is entered.
    /// `Memory` only where a growth was refused. The transaction has to exist, and to have as many parameters as
    /// there are arguments.
    pub fn outcome_now(
        &self,
        lender: &mut Lender,
        tx: TxId,
        arguments: &[i64],
    ) -> Result<Outcome, Memory>
        requires known { IsCallable self.now.catalogue.now tx arguments.now }
        ensures outcome { IfOk result
            (λ o. outcome (call_program self.now.book.catalogue tx arguments.now) self.now.book.present.state ≡ o) }
        ensures memory { OnErr result (TakesMemory self.now.book.catalogue tx) }
    {
        self.book.outcome_now(&mut lender.attempt, tx, arguments)
    }

    /// A running task of the transaction more, with the next ticket. `None` and no change exactly where there is
    /// no room for it.
    #[inline(always)]
    fn begin_call(&mut self, tx: TxId, arguments: &[i64]) -> Option<Job>
        requires known { IsCallable self.old.catalogue.now tx arguments.now }
        ensures begun { BeginsCall self.old tx arguments.now result self.new }
        ensures runs { IfSome result (λ job. IsRunning self.new.book job.task) }
        ensures kept { KeepsStore self.old self.new }
    {
        if self.tickets.are_used_up() {
            return None;
        }
        self.book.law();
        self.catalogue.rules();
        let task = self.book.submit_running(tx, arguments)?;
        Some(Job {
            ticket: self.tickets.give(),
            chapter: self.chapter,
            task,
            tx,
            arguments: Arguments::of(arguments),
        })
    }

    /// The call of a transaction of which the attempt has ended on the present values, and does not retry.
    fn enter_call(
        &mut self,
        attempt: &mut Attempt<'static>,
        tx: TxId,
        arguments: &[i64],
    ) -> Result<(Job, End), Refused>
        requires known { IsCallable self.old.catalogue.now tx arguments.now }
        requires ended { EndsHere self.old.book tx arguments.now attempt.old }
        ensures called { Calls Way.Tries self.old tx arguments.now result self.new }
        ensures kept { KeepsStore self.old self.new }
    {
        self.book.law();
        let Some(job) = self.begin_call(tx, arguments) else {
            return Err(Refused::NoRoom);
        };
        let entered = enter(&mut self.book, attempt, self.every, job.task);
        Ok((job, End::Entered(entered)))
    }

    /// The call of a transaction that ran out of memory.
    fn give_up_call(&mut self, tx: TxId, arguments: &[i64]) -> Result<(Job, End), Refused>
        requires known { IsCallable self.old.catalogue.now tx arguments.now }
        requires memory { TakesMemory self.old.book.catalogue tx }
        ensures called { Calls Way.Tries self.old tx arguments.now result self.new }
        ensures kept { KeepsStore self.old self.new }
    {
        self.book.law();
        let Some(job) = self.begin_call(tx, arguments) else {
            return Err(Refused::NoRoom);
        };
        let _running = self.book.give_up(job.task);
        Ok((job, End::Abandoned))
    }
}
