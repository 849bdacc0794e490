//! A store with those who wait for its tasks, in the midst of a call of a desk.

ghost use Rattle.std.specs.Prelude.{◌≡◌, ◌≢◌, ◌<◌, ◌+◌, ◌⊎◌, ◌++◌, ◌∷◌, [], ℕ, All, Some, length};
ghost use Rattle.std.specs.Option.{ForNone};
ghost use Rattle.stm_desk.specs.Keeping.{Accounts, IsToldOf};
ghost use Rattle.stm_desk.specs.Open.{HasOpenCall};
ghost use Rattle.stm_desk.specs.Waiting.{waiting_at};
ghost use Rattle.stm_desk.specs.declared.waiters.Waiting.{Waiting};

use crate::answers::{Asked, Became, Told};
use crate::ended::Last;
use crate::noting::{answer_of, note};
use crate::waiters::Waiters;
use ghost_log::Log;
use std::alloc::Global;
use std::collections::VecDeque;
use std::snapshot::Snapshot;
use stm_store::{End, Job, Lender, Refused, Store, Ticket, Way};
use txn::Call;

/// A store, those who wait, and its history.
#[derive(Drop)]
pub struct Work {
    pub(crate) store: Store,
    /// For the turns. There is none where the program has no transaction.
    pub(crate) lender: Option<Lender>,
    pub(crate) waiters: Waiters,
    /// What became of each task, the first one first.
    pub(crate) history: Log<Ticket, Became>,
    /// How long the history is.
    pub(crate) places: u64,
    /// Whether nothing is entered any more.
    pub(crate) closed: bool,
    /// What became of the chapter that ended last.
    pub(crate) last: Last,
    /// The store as it was at first.
    pub(crate) first: Snapshot<Store>,
    /// Whether a transaction is long, for each; empty where none is.
    pub(crate) long: Vec<bool>,
    /// The running tasks that are still to be handed to those who wait for them.
    pub(crate) due: VecDeque<Job>,
    ghost lends: { ForNone lender (length store.catalogue.now.transactions ≡ 0) },
    ghost counted: { places ≡ length history.items },
    ghost accounts: { ∥ Accounts first.value store history.items ∥₁ },
    ghost seated: { (ticket : ℕ) (seat : Waiting) → waiting_at waiters ticket ≡ Some seat
        → ∥ HasOpenCall store (record { 0 = ticket }) seat.call.value ∥₁ },
    ghost told: { ∥ All (λ t. IsToldOf first.value.catalogue.now closed history.items t.ticket t.call.value t.answer)
        waiters.told.items ∥₁ },
}

impl Work {
    ghost use Rattle.std.specs.Prelude.{Err, None, Ok, true, false, IfErr, IfOk, IfSome, OnErr, OnOk, option_to_list};
    ghost use Rattle.std.specs.BTreeMap.{btree_map_len};
    ghost use Rattle.book.specs.LawfulBook.{LawfulBook};
    ghost use Rattle.txn_programs.specs.Listing.{IsCallable};
    ghost use Rattle.stm_store.specs.Asking.{GivesUp};
    ghost use Rattle.stm_store.specs.Keeping.{KeepsTasks};
    ghost use Rattle.stm_desk.specs.Asking.{GoesOn, IsAnswered, IsServed, StaysInChapter};
    ghost use Rattle.stm_desk.specs.Running.{AreAwaited, HandsNothingOut};
    ghost use Rattle.stm_desk.specs.Serving.{HasLeft, OnlyLeft, WasGivenUp};
    ghost use Rattle.stm_desk.specs.Waiting.{AreShutOut, IsSeated, WaitAsBefore};
    ghost use Rattle.attempt.specs.Room.{TakesMemory};
    ghost use Rattle.stm_store.specs.declared.answers.Refused.TheVariants as Refused;
    ghost use Rattle.stm_store.specs.declared.answers.Way.TheVariants as Way;
    ghost use Rattle.stm_desk.specs.declared.answers.Answer.{Answer};
    ghost use Rattle.stm_desk.specs.declared.answers.Asked.TheVariants as Asked;
    ghost use Rattle.stm_desk.specs.Open.{HasOpen, IsParkedCall, IsRunningCall};
    ghost use Rattle.stm_desk.specs.declared.answers.Became.TheVariants as Became;
    ghost use Rattle.stm_desk.specs.declared.ended.Last.TheVariants as Last;

    /// With nobody who waits, and nothing that became of a task.
    pub(crate) fn new(alloc: Global, store: Store, long: Vec<bool>) -> Work
        ensures store { result.store ≡ store }
        ensures first { result.first.value ≡ store }
        ensures history { result.history.items ≡ [] }
        ensures waiters { (ticket : ℕ) → waiting_at result.waiters ticket ≡ None }
        ensures told { result.waiters.told.items ≡ [] }
        ensures is_open { result.closed ≡ false }
        ensures long { result.long.items ≡ long.items }
        ensures last { result.last ≡ Last.Kept }
    {
        let first = Snapshot::of(&store);
        let lender = store.lender();
        Work {
            store,
            lender,
            waiters: Waiters::new(alloc),
            history: Log::new(),
            places: 0,
            closed: false,
            last: Last::Kept,
            first,
            long,
            due: VecDeque::new(alloc),
        }
    }

    /// A task of the call more, which has its turn at once. Where it retries it waits, and so does whoever called.
    pub(crate) fn call(&mut self, call: &Call, way: Way, whose: u64) -> Result<Asked, Refused>
        requires known { IsCallable self.old.store.catalogue.now call.now.tx call.now.arguments }
        ensures answered { IsAnswered self.old call.now way whose result self.new }
        ensures served { ((a : Answer) → result ≢ Ok (Asked.Ended a))
            → IsServed self.old.store → IsServed self.new.store }
        ensures awaited { AreAwaited self.old.store self.old.waiters → AreAwaited self.new.store self.new.waiters }
        ensures hands_out { HandsNothingOut self.old self.new }
        ensures memory { result ≡ Err Refused.Memory → way ≡ Way.Tries
            → TakesMemory self.old.store.catalogue.now call.now.tx }
        ensures within { StaysInChapter self.old.store self.new.store }
        ensures goes_on { GoesOn self.old self.new }
    {
        self.store.law();
        let Some(lender) = &mut self.lender else {
            unreachable!()
        };
        let called = self
            .store
            .call(lender, call.tx, call.arguments.as_slice(), way);
        let (job, end) = match called {
            Ok(turn) => turn,
            Err(why) => return Err(why),
        };
        match end {
            End::Entered(entered) => {
                let answer = answer_of(&job, &entered, self.places);
                let what = Became::Entered(*call, entered.outcome);
                note(&mut self.history, &mut self.places, job.ticket, &what);
                Ok(Asked::Ended(answer))
            }
            End::Abandoned => {
                note(
                    &mut self.history,
                    &mut self.places,
                    job.ticket,
                    &Became::Left,
                );
                Err(Refused::Memory)
            }
            End::Parked => self.sit(job.ticket, call, whose),
        }
    }

    /// Whoever made the call of a task that is parked waits for it. Out of memory the task is given up.
    fn sit(&mut self, ticket: Ticket, call: &Call, whose: u64) -> Result<Asked, Refused>
        requires is_open { ∥ HasOpenCall self.old.store ticket call.now ∥₁ }
        requires nobody { waiting_at self.old.waiters ticket.0 ≡ None }
        ensures seated { OnOk result (IsSeated self.old.waiters ticket whose call.now self.new.waiters
            × (self.new.store ≡ self.old.store) × (self.new.history.items ≡ self.old.history.items)
            × (self.new.due.items ≡ self.old.due.items)) }
        ensures asked { IfOk result (λ asked. asked ≡ Asked.Waits ticket) }
        ensures refused { IfErr result (λ why. why ≡ Refused.Memory) }
        ensures left { OnErr result ((self.new.history.items ≡ self.old.history.items ++ (ticket, Became.Left) ∷ [])
            × WaitAsBefore self.old.waiters self.new.waiters × (self.new.due.items ≡ self.old.due.items)) }
        ensures hands_out { HandsNothingOut self.old self.new }
        ensures tickets { self.new.store.tickets ≡ self.old.store.tickets }
        ensures listing { self.new.store.book.catalogue ≡ self.old.store.book.catalogue }
        ensures served { IsServed self.old.store → IsServed self.new.store }
        ensures awaited { AreAwaited self.old.store self.old.waiters → AreAwaited self.new.store self.new.waiters }
        ensures goes_on { GoesOn self.old self.new }
    {
        if self.waiters.seat(ticket, whose, call).is_ok() {
            return Ok(Asked::Waits(ticket));
        }
        self.give_up(ticket);
        Err(Refused::Memory)
    }

    /// What became of a call that waited, which is told once.
    pub(crate) fn told(&mut self) -> Option<Told>
        ensures told { self.old.waiters.told.items ≡ option_to_list result ++ self.new.waiters.told.items }
        ensures is { IfSome result (λ t. ∥ IsToldOf self.old.first.value.catalogue.now self.old.closed
            self.old.history.items t.ticket t.call.value t.answer ∥₁) }
        ensures calls { self.new.waiters.calls ≡ self.old.waiters.calls }
        ensures history { self.new.history.items ≡ self.old.history.items }
        ensures store { self.new.store ≡ self.old.store }
        ensures first { self.new.first.value ≡ self.old.first.value }
        ensures closed { self.new.closed ≡ self.old.closed }
        ensures last { self.new.last ≡ self.old.last }
        ensures long { self.new.long.items ≡ self.old.long.items }
        ensures due { self.new.due.items ≡ self.old.due.items }
    {
        self.waiters.next()
    }

    /// Whoever waits with the ticket does so no longer: the task is given up. `Gone` and no change where nobody does.
    pub(crate) fn leave(&mut self, ticket: Ticket) -> Result<(), Refused>
        ensures left { HasLeft self.old ticket result self.new }
        ensures served { IsServed self.old.store → IsServed self.new.store }
        ensures awaited { AreAwaited self.old.store self.old.waiters → AreAwaited self.new.store self.new.waiters }
        ensures first { self.new.first.value ≡ self.old.first.value }
        ensures closed { self.new.closed ≡ self.old.closed }
        ensures last { self.new.last ≡ self.old.last }
        ensures long { self.new.long.items ≡ self.old.long.items }
        ensures kept { KeepsTasks self.old.store self.new.store }
    {
        if !self.waiters.has(ticket) {
            return Err(Refused::Gone);
        }
        self.give_up(ticket);
        Ok(())
    }

    /// The task with the ticket, which is open, is given up, and nobody waits for it.
    pub(crate) fn give_up(&mut self, ticket: Ticket)
        requires is_open { ∥ HasOpen self.old.store ticket ∥₁ }
        ensures given_up { WasGivenUp self.old ticket self.new }
        ensures store { GivesUp self.old.store ticket (Ok tt) self.new.store }
        ensures kept { KeepsTasks self.old.store self.new.store }
        ensures hands_out { HandsNothingOut self.old self.new }
        ensures served { IsServed self.old.store → IsServed self.new.store }
        ensures awaited { AreAwaited self.old.store self.old.waiters → AreAwaited self.new.store self.new.waiters }
        ensures goes_on { GoesOn self.old self.new }
    {
        self.store.law();
        let Ok(()) = self.store.give_up(ticket) else {
            unreachable!()
        };
        note(&mut self.history, &mut self.places, ticket, &Became::Left);
        let _waited = self.waiters.leave(ticket);
    }

    /// Each call that waits is to be told `Closed`, and its task is given up.
    pub(crate) fn shut_out(&mut self)
        ensures history { OnlyLeft self.old self.new }
        ensures nobody { (ticket : ℕ) → waiting_at self.new.waiters ticket ≡ None }
        ensures told { AreShutOut self.old.waiters self.new.waiters }
        ensures served { IsServed self.old.store → IsServed self.new.store }
        ensures awaited { AreAwaited self.old.store self.old.waiters → AreAwaited self.new.store self.new.waiters }
        ensures first { self.new.first.value ≡ self.old.first.value }
        ensures closed { self.new.closed ≡ true }
        ensures last { self.new.last ≡ self.old.last }
        ensures long { self.new.long.items ≡ self.old.long.items }
        ensures kept { KeepsTasks self.old.store self.new.store }
    {
        self.closed = true;
        while self.shut_one_out() {}
    }

    /// The same of one. `false` and no change where nobody waits.
    fn shut_one_out(&mut self) -> bool
        requires closed { self.old.closed ≡ true }
        ensures history { OnlyLeft self.old self.new }
        ensures fewer { result ≡ true
            → btree_map_len self.new.waiters.calls < btree_map_len self.old.waiters.calls }
        ensures nobody { result ≡ false → (ticket : ℕ) → waiting_at self.new.waiters ticket ≡ None }
        ensures told { AreShutOut self.old.waiters self.new.waiters }
        ensures served { IsServed self.old.store → IsServed self.new.store }
        ensures awaited { AreAwaited self.old.store self.old.waiters → AreAwaited self.new.store self.new.waiters }
        ensures first { self.new.first.value ≡ self.old.first.value }
        ensures closed { self.new.closed ≡ self.old.closed }
        ensures last { self.new.last ≡ self.old.last }
        ensures long { self.new.long.items ≡ self.old.long.items }
        ensures kept { KeepsTasks self.old.store self.new.store }
    {
        let Some(ticket) = self.waiters.lowest() else {
            return false;
        };
        self.store.law();
        let Ok(()) = self.store.give_up(ticket) else {
            unreachable!()
        };
        note(&mut self.history, &mut self.places, ticket, &Became::Left);
        self.waiters.tell(ticket, Err(Refused::Closed));
        true
    }

    /// What is so in the midst of a call too, and of those who wait where no task is ready. It does nothing: its
    /// contract is the law.
    pub(crate) fn law(&self)
        ensures lawful { LawfulBook self.now.store.book }
        ensures waits { IsServed self.now.store → (ticket : ℕ) (seat : Waiting)
            → waiting_at self.now.waiters ticket ≡ Some seat
            → ∥ IsParkedCall self.now.store (record { 0 = ticket }) seat.call.value
            ⊎ IsRunningCall self.now.store (record { 0 = ticket }) seat.call.value ∥₁ }
        ensures accounts { ∥ Accounts self.now.first.value self.now.store self.now.history.items ∥₁ }
    {
        self.store.law();
    }
}
