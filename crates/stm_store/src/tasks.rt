//! Tasks of a store: submitted, taken, claimed, given up, and told of.

ghost use Rattle.std.specs.Prelude.{◌≡◌, ◌<◌, ◌↔◌, IfOk, IsTrue, Some, length, slice_get};
ghost use Rattle.txn_programs.specs.Listing.{IsCallable, task_arguments, tasks};
ghost use Rattle.book.specs.Counting.{AreCounts};
ghost use Rattle.book.specs.Turns.{readied};
ghost use Rattle.stm_store.specs.Asking.{Claims, GivesUp, IsJob, IsPresentJob, Submits, TakesJob};
ghost use Rattle.stm_store.specs.Asking.{TellsOutcome, TellsStanding};
ghost use Rattle.stm_store.specs.Keeping.{KeepsStore, KeepsTasks};

use crate::answers::Refused;
use crate::job::{Job, Ticket};
use crate::store::Store;
use book::{Counts, Standing};
use txn::{Arguments, Outcome, TaskId, TxId};
use txn_declarations::same::same_values;

impl Store {
    /// A ready task of the call more, with the next ticket. `NoRoom` and no change exactly where there is no
    /// room for it, or 2^62 tickets were given. It takes no memory. The transaction has to exist, and to have
    /// as many parameters as there are arguments.
    pub fn submit(&mut self, tx: TxId, arguments: &[i64]) -> Result<Ticket, Refused>
        requires known { IsCallable self.old.catalogue.now tx arguments.now }
        ensures submitted { Submits self.old tx arguments.now result self.new }
        ensures kept { KeepsStore self.old self.new }
    {
        if self.tickets.are_used_up() {
            return Err(Refused::NoRoom);
        }
        let Some(_task) = self.book.submit(tx, arguments) else {
            return Err(Refused::NoRoom);
        };
        Ok(self.tickets.give())
    }

    /// How many tasks more the present chapter has room for.
    pub fn spare(&self) -> usize
        ensures { result ≡ self.now.book.spare }
    {
        self.book.spare()
    }

    /// How many tasks the present chapter has.
    pub fn tasks(&self) -> usize
        ensures { result ≡ length (tasks self.now.book.catalogue) }
    {
        self.book.tasks()
    }

    /// How many tasks of the present chapter stand how. Its time is the same however many there are.
    pub fn counts(&self) -> Counts
        ensures { AreCounts self.now.book.tasks result }
    {
        self.book.counts()
    }

    /// The lowest ready task, which is then running, with the call that it makes. `NotReady` and no change exactly
    /// where none is ready. It takes no memory.
    pub fn take(&mut self) -> Result<Job, Refused>
        ensures taken { TakesJob self.old result self.new }
        ensures exists { IfOk result (λ job. job.task.0 < length (tasks self.old.book.catalogue)) }
        ensures known { IfOk result (λ job. IsCallable self.old.catalogue.now job.tx job.arguments) }
        ensures kept { KeepsTasks self.old self.new }
    {
        let Some(task) = self.book.take() else {
            return Err(Refused::NotReady);
        };
        Ok(self.job_of(task))
    }

    /// The task with the ticket, where it is ready: it is then running. `Gone` exactly where no task has the ticket,
    /// and `NotReady` exactly where its task is not ready; then nothing changed. It takes no memory.
    pub fn claim(&mut self, ticket: Ticket) -> Result<Job, Refused>
        ensures claimed { Claims self.old ticket result self.new }
        ensures known { IfOk result (λ job. IsCallable self.old.catalogue.now job.tx job.arguments) }
        ensures kept { KeepsTasks self.old self.new }
    {
        let Some(task) = self.tickets.task(ticket) else {
            return Err(Refused::Gone);
        };
        if !self.book.claim(task) {
            return Err(Refused::NotReady);
        }
        Ok(self.job_of(task))
    }

    /// Each running task is ready again. It takes no memory.
    pub fn make_ready(&mut self)
        ensures book { self.new.book ≡ readied self.old.book }
        ensures kept { KeepsTasks self.old self.new }
    {
        self.book.make_ready();
    }

    /// The job of a task.
    pub(crate) fn job_of(&self, task: TaskId) -> Job
        requires { task.0 < length self.now.book.tasks }
        ensures own { IsJob self.now result }
        ensures task { result.task ≡ task }
        ensures chapter { result.chapter ≡ self.now.chapter }
        ensures known { IsCallable self.now.catalogue.now result.tx result.arguments }
    {
        self.catalogue.rules();
        Job {
            ticket: self.tickets.of(task),
            chapter: self.chapter,
            task,
            tx: self.book.task_tx(task),
            arguments: Arguments::of(self.book.task_arguments(task)),
        }
    }

    /// The task with the ticket is given up, where it is ready, parked or running: it will not be entered. `Gone` and
    /// no change exactly where no such task has the ticket. It takes no memory.
    pub fn give_up(&mut self, ticket: Ticket) -> Result<(), Refused>
        ensures given_up { GivesUp self.old ticket result self.new }
        ensures kept { KeepsTasks self.old self.new }
    {
        let Some(task) = self.tickets.task(ticket) else {
            return Err(Refused::Gone);
        };
        if self.book.withdraw(task) || self.book.give_up(task) {
            return Ok(());
        }
        Err(Refused::Gone)
    }

    /// What the entry of the task with the ticket records. `None` exactly where the task is not done, or is
    /// gone, or its entry is no longer in the journal: who wants an outcome asks before the next checkpoint
    /// and the next chapter. It takes no memory.
    pub fn outcome_of(&self, ticket: Ticket) -> Option<Outcome>
        ensures { TellsOutcome self.now ticket result }
    {
        let task = self.tickets.task(ticket)?;
        self.book.outcome(task)
    }

    /// How the task with the ticket stands. `None` exactly where it is gone: it was done or given up when a
    /// chapter ended, or there never was one.
    pub fn standing_of(&self, ticket: Ticket) -> Option<Standing>
        ensures { TellsStanding self.now ticket result }
    {
        let task = self.tickets.task(ticket)?;
        Some(self.book.standing(task))
    }

    /// Whether the job is one of the present chapter of this store.
    pub(crate) fn has_now(&self, job: Job) -> bool
        ensures { IsTrue result ↔ IsPresentJob self.now job }
    {
        job.chapter == self.chapter && self.has(job)
    }

    /// Whether the job is a task of this store: of its call, and with its ticket.
    fn has(&self, job: Job) -> bool
        ensures { IsTrue result ↔ IsJob self.now job }
    {
        self.tickets.has(job.task, job.ticket) && self.makes_call(job)
    }

    /// Whether the job's task makes its call.
    fn makes_call(&self, job: Job) -> bool
        requires { job.task.0 < length self.now.book.tasks }
        ensures { IsTrue result ↔ (slice_get (tasks self.now.book.catalogue) job.task.0 ≡ Some job.tx)
            × (task_arguments self.now.book.catalogue job.task ≡ job.arguments) }
    {
        self.book.runs(job.task, job.tx)
            && same_values(self.book.task_arguments(job.task), job.arguments.as_slice())
    }
}
