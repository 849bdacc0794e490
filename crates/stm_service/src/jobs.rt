//! Long calls, as what the lock guards hands them out, and as what came of them is brought to it.

ghost use Rattle.std.specs.Prelude.{◌≡◌, ◌<◌, true, length};

use crate::behind::Behind;
use crate::name::Naming;
use crate::seat::{Awaited, hand};
use std::sync::Wait;
use stm_store::{Job, Refused, Ticket, Worker};

impl<N: Naming> Behind<N> {
    /// What whoever waits for this is to evaluate, which it is told once. `None` where there is nothing.
    pub(crate) fn job_of(&mut self, awaited: &Awaited) -> Option<Job> {
        let job = self.seats.get(&awaited.ticket.0)?.job?;
        self.hand(awaited.ticket, None);
        Some(job)
    }

    /// The worker's end of a long call is brought; where there is no worker the call has its turn here.
    pub(crate) fn end_job<R: Wait>(&mut self, rt: &R, lent: &mut Option<Worker>, job: &Job) {
        match lent {
            Some(worker) => self.bring(rt, worker, job),
            None => self.run_now(rt, job),
        }
    }

    /// The worker's end of this job is brought, and who waited is told what came of it. Where others changed what it
    /// read it is to be evaluated again; where its task does not run any more nothing changes.
    fn bring<R: Wait>(&mut self, rt: &R, worker: &mut Worker, job: &Job) {
        let brought = self.desk.bring(worker);
        self.front.add(rt, &self.head, &self.desk);
        self.hand_out();
        if matches!(brought, Err(Refused::Stale)) {
            self.hand(job.ticket, Some(*job));
        }
    }

    /// The job has its turn here, and who waited is told what came of it. Where its task does not run any more nothing
    /// changes.
    fn run_now<R: Wait>(&mut self, rt: &R, job: &Job) {
        let catalogue = self.desk.store().catalogue();
        if !catalogue.is_callable(job.tx, job.arguments.as_slice()) {
            return;
        }
        let _ran = self.desk.run_now(*job);
        self.front.add(rt, &self.head, &self.desk);
        self.hand_out();
    }

    /// Each whose long call runs again is to evaluate it, and called.
    pub(crate) fn hand_jobs(&mut self)
        ensures front { self.new.front ≡ self.old.front }
        ensures store { self.new.desk.work.store ≡ self.old.desk.work.store }
        ensures kept { self.new.shelf.are_kept ≡ self.old.shelf.are_kept }
    {
        while self.hand_job() {}
    }

    /// The next one is. `false` where there is none.
    fn hand_job(&mut self) -> bool
        ensures front { self.new.front ≡ self.old.front }
        ensures store { self.new.desk.work.store ≡ self.old.desk.work.store }
        ensures kept { self.new.shelf.are_kept ≡ self.old.shelf.are_kept }
        ensures fewer { result ≡ true → length self.new.desk.work.due.items < length self.old.desk.work.due.items }
    {
        let Some(due) = self.desk.next_due() else {
            return false;
        };
        self.hand(due.job.ticket, Some(due.job));
        true
    }

    /// This is what whoever waits with the ticket is to evaluate, and called where there is something.
    fn hand(&mut self, ticket: Ticket, job: Option<Job>)
        ensures desk { self.new.desk ≡ self.old.desk }
        ensures front { self.new.front ≡ self.old.front }
        ensures kept { self.new.shelf.are_kept ≡ self.old.shelf.are_kept }
    {
        hand(&mut self.seats, ticket, job);
    }
}
