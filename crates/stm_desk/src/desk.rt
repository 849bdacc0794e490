//! What is so whenever a call on a desk returns.

ghost use Rattle.std.specs.Prelude.{◌≡◌, ℕ, true, None};
ghost use Rattle.stm_desk.specs.Asking.{IsServed};
ghost use Rattle.stm_desk.specs.Running.{AreAwaited};
ghost use Rattle.stm_desk.specs.Waiting.{waiting_at};

use crate::answers::{Asked, Due, Told};
use crate::long::is_begun;
use crate::work::Work;
use std::alloc::Global;
use stm_store::{Job, Refused, Store, Ticket, Way, Worker};
use txn::{Arguments, Call, TxId};

/// A store, with the calls that wait for their tasks: one call at a time is made on it. No task of it is ready once
/// a call has returned, and each call that waits retries on the present values, or is long and evaluated by whoever
/// waits for it.
#[derive(Drop)]
pub struct Desk {
    pub(crate) work: Work,
    ghost served: { IsServed work.store },
    ghost awaited: { AreAwaited work.store work.waiters },
    ghost shut: { work.closed ≡ true → (ticket : ℕ) → waiting_at work.waiters ticket ≡ None },
}

impl Desk {
    ghost use Rattle.std.specs.Prelude.{◌++◌, ◌⊎◌, ◌≢◌, [], false, Err, IfSome, Some, option_to_list};
    ghost use Rattle.attempt.specs.Room.{TakesMemory};
    ghost use Rattle.book.specs.LawfulBook.{LawfulBook};
    ghost use Rattle.stm_desk.specs.declared.waiters.Waiting.{Waiting};
    ghost use Rattle.txn_programs.specs.Listing.{IsCallable};
    ghost use Rattle.stm_store.specs.Keeping.{HasBrought, KeepsTasks};
    ghost use Rattle.stm_desk.specs.Asking.{IsStill, StaysInChapter};
    ghost use Rattle.stm_desk.specs.Answering.{HasBroughtIn, HasRun, IsAsked, IsLent};
    ghost use Rattle.stm_desk.specs.Running.{HandsOut, IsHanded, IsLong};
    ghost use Rattle.stm_desk.specs.Serving.{HasLeft, OnlyLeft};
    ghost use Rattle.stm_desk.specs.Waiting.{AreShutOut, HandsOn};
    ghost use Rattle.stm_desk.specs.History.{Begins};
    ghost use Rattle.stm_desk.specs.Keeping.{Accounts, IsToldOf};
    ghost use Rattle.stm_desk.specs.Open.{IsParkedCall, IsRunningCall};
    ghost use Rattle.stm_store.specs.declared.answers.Refused.TheVariants as Refused;
    ghost use Rattle.stm_store.specs.declared.answers.Way.TheVariants as Way;
    ghost use Rattle.stm_desk.specs.declared.ended.Last.TheVariants as Last;

    /// The desk of a store, whose ready tasks have had their turns then. None of its tasks may be running. `long` says
    /// of each transaction, in their order, whether it is long: then whoever calls it and waits evaluates it, by a
    /// worker and outside the desk. What it says nothing of is short.
    pub fn open(alloc: Global, store: Store, long: Vec<bool>) -> Desk
        requires still { IsStill store }
        ensures first { result.work.first.value ≡ store }
        ensures kept { KeepsTasks store result.work.store }
        ensures is_open { result.work.closed ≡ false }
        ensures last { result.work.last ≡ Last.Kept }
        ensures waiters { (ticket : ℕ) → waiting_at result.work.waiters ticket ≡ None }
        ensures told { result.work.waiters.told.items ≡ [] }
        ensures long { result.work.long.items ≡ long.items }
    {
        let mut work = Work::new(alloc, store, long);
        work.serve();
        Desk { work }
    }

    /// A call: a task of its own, which has its turn at once; then all that it woke have theirs. Where it retries its
    /// task waits, and so does whoever called, unless it only tries. Of a call that waits and is long the task runs:
    /// whoever called evaluates it by a worker, and brings what came of it. It is told as to others that wait.
    ///
    /// `Closed` exactly where the desk is closed; else `Unknown` exactly where there is no such transaction, or it has
    /// not as many parameters as there are arguments; `Retries` only of a try that retries on the present values. Then
    /// nothing changed. `Memory`: a growth was refused, so the task was given up, and for those who wait nothing
    /// changed; a try is told so only where its transaction takes memory.
    ///
    /// Where there is no room for a task more: `ChapterFull` where a new chapter would have some, and nothing changed.
    /// Where it would have none, what runs has its turn here first: `ChapterFull` where there is some then, and
    /// `NoRoom` where even so each place is of a task that waits. `NoRoom` and no change where the chapter before was
    /// not kept.
    pub fn ask(
        &mut self,
        tx: TxId,
        arguments: &[i64],
        way: Way,
        whose: u64,
    ) -> Result<Asked, Refused>
        ensures asked { IsAsked self.old (record { tx = tx; arguments = arguments.now }) way whose result self.new }
        ensures history { Begins self.old.work.history.items self.new.work.history.items }
        ensures first { self.new.work.first.value ≡ self.old.work.first.value }
        ensures closed { self.new.work.closed ≡ self.old.work.closed }
        ensures last { self.new.work.last ≡ self.old.work.last }
        ensures chapter { self.new.work.store.chapter ≡ self.old.work.store.chapter }
        ensures within { StaysInChapter self.old.work.store self.new.work.store }
        ensures long { self.new.work.long.items ≡ self.old.work.long.items }
        ensures lent { way ≡ Way.Waits → IsLong self.old.work.long.items tx → IsLent result }
        ensures memory { result ≡ Err Refused.Memory → way ≡ Way.Tries
            → TakesMemory self.old.work.store.catalogue.now tx }
        ensures known { result ≢ Err Refused.Closed → result ≢ Err Refused.Unknown
            → IsCallable self.old.work.store.catalogue.now tx arguments.now }
    {
        if self.work.closed {
            return Err(Refused::Closed);
        }
        let catalogue = self.work.store.catalogue();
        catalogue.rules();
        if !catalogue.is_callable(tx, arguments) {
            return Err(Refused::Unknown);
        }
        let call = Call {
            tx,
            arguments: Arguments::of(arguments),
        };
        if is_begun(&self.work.long, way, tx) {
            return self.work.begin(&call, whose);
        }
        let asked = self.work.call(&call, way, whose);
        if matches!(asked, Err(Refused::NoRoom)) {
            return self.work.turned_away();
        }
        match asked? {
            Asked::Ended(answer) => {
                self.work.serve();
                Ok(Asked::Ended(answer))
            }
            Asked::Waits(ticket) => Ok(Asked::Waits(ticket)),
            Asked::Runs(_) | Asked::ChapterFull => unreachable!(),
        }
    }

    /// What became of a call that waited, which is told once. `None` exactly where nothing is to be told.
    pub fn told(&mut self) -> Option<Told>
        ensures told { self.old.work.waiters.told.items ≡ option_to_list result ++ self.new.work.waiters.told.items }
        ensures is { IfSome result
            (λ t. ∥ IsToldOf self.old.work.first.value.catalogue.now self.old.work.closed
            self.old.work.history.items t.ticket t.call.value t.answer ∥₁) }
        ensures waits { self.new.work.waiters.calls ≡ self.old.work.waiters.calls }
        ensures history { self.new.work.history.items ≡ self.old.work.history.items }
        ensures store { self.new.work.store ≡ self.old.work.store }
        ensures first { self.new.work.first.value ≡ self.old.work.first.value }
        ensures closed { self.new.work.closed ≡ self.old.work.closed }
        ensures last { self.new.work.last ≡ self.old.work.last }
        ensures long { self.new.work.long.items ≡ self.old.work.long.items }
        ensures due { self.new.work.due.items ≡ self.old.work.due.items }
    {
        self.work.told()
    }

    /// The next long call that waited and whose task runs again: whoever waits evaluates it. `None` exactly where there
    /// is none.
    pub fn next_due(&mut self) -> Option<Due>
        ensures handed { IsHanded self.old.work result self.new.work }
        ensures store { self.new.work.store ≡ self.old.work.store }
        ensures waiters { self.new.work.waiters ≡ self.old.work.waiters }
        ensures history { self.new.work.history.items ≡ self.old.work.history.items }
        ensures first { self.new.work.first.value ≡ self.old.work.first.value }
        ensures closed { self.new.work.closed ≡ self.old.work.closed }
        ensures last { self.new.work.last ≡ self.old.work.last }
        ensures long { self.new.work.long.items ≡ self.old.work.long.items }
    {
        self.work.next_due()
    }

    /// A worker's ended attempt of a long call is brought, and then all that it woke have their turns: whoever waits is
    /// to be told of its entry, or waits on, where it retries. The worker has no ended attempt afterwards.
    ///
    /// Else nothing changed but the worker. `Stale`: what was read is no longer so, and the task still runs: try it
    /// again, or `run_now`. `Gone`, `NotRunning`: what became of it was told, or is to be, or it waits.
    /// `NotEnded`, `OtherProgram` as of a store.
    pub fn bring(&mut self, worker: &mut Worker) -> Result<(), Refused>
        ensures brought { HasBroughtIn self.old worker.old result self.new }
        ensures worker { HasBrought worker.old worker.new }
        ensures hands_on { HandsOn self.old.work.waiters self.new.work.waiters }
        ensures hands_out { HandsOut self.old.work self.new.work }
        ensures kept { KeepsTasks self.old.work.store self.new.work.store }
        ensures history { Begins self.old.work.history.items self.new.work.history.items }
        ensures first { self.new.work.first.value ≡ self.old.work.first.value }
        ensures closed { self.new.work.closed ≡ self.old.work.closed }
        ensures last { self.new.work.last ≡ self.old.work.last }
        ensures long { self.new.work.long.items ≡ self.old.work.long.items }
    {
        self.work.bring(worker)?;
        self.work.serve();
        Ok(())
    }

    /// The running task of a long call has its turn here, whatever came of attempts of it, and then all that it woke
    /// have theirs: whoever waits is to be told what became of it, or waits on, where it retries. `Gone`,
    /// `NotRunning`: what became of it was told, or is to be, or it waits; nothing changed. The job's transaction has
    /// to exist, and to have as many parameters as there are arguments.
    pub fn run_now(&mut self, job: Job) -> Result<(), Refused>
        requires known { IsCallable self.old.work.store.catalogue.now job.tx job.arguments }
        ensures ran { HasRun self.old job result self.new }
        ensures hands_on { HandsOn self.old.work.waiters self.new.work.waiters }
        ensures hands_out { HandsOut self.old.work self.new.work }
        ensures kept { KeepsTasks self.old.work.store self.new.work.store }
        ensures history { Begins self.old.work.history.items self.new.work.history.items }
        ensures first { self.new.work.first.value ≡ self.old.work.first.value }
        ensures closed { self.new.work.closed ≡ self.old.work.closed }
        ensures last { self.new.work.last ≡ self.old.work.last }
        ensures long { self.new.work.long.items ≡ self.old.work.long.items }
    {
        self.work.turn(job)?;
        self.work.serve();
        Ok(())
    }

    /// Whoever waits with the ticket does so no longer: the task is given up, and will not be entered. `Gone` and no
    /// change where nobody waits so: what became of the call was told, or is to be.
    pub fn leave(&mut self, ticket: Ticket) -> Result<(), Refused>
        ensures left { HasLeft self.old.work ticket result self.new.work }
        ensures first { self.new.work.first.value ≡ self.old.work.first.value }
        ensures closed { self.new.work.closed ≡ self.old.work.closed }
        ensures last { self.new.work.last ≡ self.old.work.last }
        ensures long { self.new.work.long.items ≡ self.old.work.long.items }
        ensures kept { KeepsTasks self.old.work.store self.new.work.store }
    {
        self.work.leave(ticket)
    }

    /// The store, to look at: whatever can be called on it changes nothing.
    pub fn store(&self) -> &Store
        ensures { result.now ≡ self.now.work.store }
    {
        &self.work.store
    }

    /// Each call that waits is told `Closed`, and its task is given up. Nothing is entered from now on. A chapter that
    /// was not kept is still given by `end_chapter`.
    pub fn close(&mut self)
        ensures closed { self.new.work.closed ≡ true }
        ensures last { self.new.work.last ≡ self.old.work.last }
        ensures history { OnlyLeft self.old.work self.new.work }
        ensures nobody { (ticket : ℕ) → waiting_at self.new.work.waiters ticket ≡ None }
        ensures told { AreShutOut self.old.work.waiters self.new.work.waiters }
        ensures first { self.new.work.first.value ≡ self.old.work.first.value }
        ensures long { self.new.work.long.items ≡ self.old.work.long.items }
        ensures kept { KeepsTasks self.old.work.store self.new.work.store }
    {
        self.work.shut_out();
    }

    /// What every desk keeps whenever a call has returned: no task is ready; the task of each call that waits is
    /// parked, and retries on the present values, or it is long and runs; for each task that runs a call waits; its
    /// history is legal from the values that it had at first, and leads to the present ones. It does nothing: its
    /// contract is the law.
    pub fn law(&self)
        ensures served { IsServed self.now.work.store }
        ensures awaited { AreAwaited self.now.work.store self.now.work.waiters }
        ensures lawful { LawfulBook self.now.work.store.book }
        ensures waits { (ticket : ℕ) (seat : Waiting) → waiting_at self.now.work.waiters ticket ≡ Some seat
            → ∥ IsParkedCall self.now.work.store (record { 0 = ticket }) seat.call.value
            ⊎ IsRunningCall self.now.work.store (record { 0 = ticket }) seat.call.value ∥₁ }
        ensures accounts { ∥ Accounts self.now.work.first.value self.now.work.store
            self.now.work.history.items ∥₁ }
    {
        self.work.law();
    }
}
