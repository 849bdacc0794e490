//! The chapters of a desk.

ghost use Rattle.std.specs.Prelude.{◌≡◌, ◌↔◌, [], ℕ, None, IfErr, IfOk, IsTrue, OnErr};
ghost use Rattle.book.specs.Turns.{IsIdle};
ghost use Rattle.stm_store.specs.Keeping.{KeepsTasks};
ghost use Rattle.stm_store.specs.declared.answers.Refused.TheVariants as Refused;
ghost use Rattle.stm_desk.specs.Asking.{IsServed, IsStill};
ghost use Rattle.stm_desk.specs.Ending.{BeginsNext, EndsChapter, EndsNow, HasBegun, Settled, TakesBack};
ghost use Rattle.stm_desk.specs.History.{Begins};
ghost use Rattle.stm_desk.specs.Running.{AreAwaited};
ghost use Rattle.stm_desk.specs.Waiting.{waiting_at};
ghost use Rattle.stm_desk.specs.declared.ended.Last.TheVariants as Last;

use crate::desk::Desk;
use crate::ended::{Ended, Last, ended_now};
use crate::work::Work;
use stm_store::Refused;

impl Desk {
    /// All that is long and runs has its turn here, and what that woke: nothing is ready or runs then, so that the
    /// store's `file` and `report_now` can be told of this moment. Who waits is to be told what became of the call, or
    /// waits on, where it retries. Where a growth was refused the task is given up, of which who waits is told.
    pub fn settle(&mut self)
        ensures settled { Settled self.old.work self.new.work }
        ensures idle { IsIdle self.new.work.store.book }
        ensures kept { KeepsTasks self.old.work.store self.new.work.store }
    {
        self.work.serve_all();
    }

    /// The present chapter ends: what is long and runs has its turn here, the host gets the chapter's file and its
    /// report, to keep them, and the next chapter begins, in which who waits waits on. A closed desk's last chapter
    /// ends so too.
    ///
    /// It is one chapter at a time: the host says by `kept` or `not_kept` how it went. `NotEnded` and no change exactly
    /// where it did not say so yet; where the chapter before was not kept it is given again, and nothing else changes.
    /// `Memory`: a growth was refused, and the chapter goes on; what ran has had its turn.
    pub fn end_chapter(&mut self) -> Result<Ended, Refused>
        ensures ended { EndsChapter self.old.work result self.new.work }
        ensures history { Begins self.old.work.history.items self.new.work.history.items }
        ensures first { self.new.work.first.value ≡ self.old.work.first.value }
        ensures closed { self.new.work.closed ≡ self.old.work.closed }
        ensures long { self.new.work.long.items ≡ self.old.work.long.items }
    {
        self.work.end_chapter()
    }

    /// Whether the host has the chapter of this number, of this desk, and did not say yet whether it was kept.
    pub fn has_out(&self, chapter: u64) -> bool
        ensures { IsTrue result ↔ (self.now.work.last ≡ Last.Out chapter) }
    {
        self.work.last.is_out(chapter)
    }

    /// The present chapter ends, of which nobody keeps anything, and the next one begins, in which who waits waits on:
    /// what is long and runs has its turn first. No text is made. `NotEnded` and no change exactly where the host has
    /// the chapter before, or did not keep it.
    pub fn begin_chapter(&mut self) -> Result<(), Refused>
        ensures begun { HasBegun self.old.work result self.new.work }
        ensures history { Begins self.old.work.history.items self.new.work.history.items }
        ensures first { self.new.work.first.value ≡ self.old.work.first.value }
        ensures closed { self.new.work.closed ≡ self.old.work.closed }
        ensures last { self.new.work.last ≡ self.old.work.last }
        ensures long { self.new.work.long.items ≡ self.old.work.long.items }
    {
        self.work.begin_chapter()
    }

    /// The host kept the chapter: it is over. `Err`, and nothing changed, where it is not the one that the host has of
    /// this desk.
    pub fn kept(&mut self, ended: Ended) -> Result<(), Ended>
        ensures { TakesBack self.old.work ended Last.Kept result self.new.work }
    {
        self.work.kept(ended)
    }

    /// The host did not keep the chapter: `end_chapter` gives it again. `Err`, and nothing changed, where it is not the
    /// one that the host has of this desk.
    pub fn not_kept(&mut self, ended: Ended) -> Result<(), Ended>
        ensures { TakesBack self.old.work ended (Last.NotKept ended) result self.new.work }
    {
        self.work.not_kept(ended)
    }
}

impl Work {
    /// As of a desk.
    pub(crate) fn end_chapter(&mut self) -> Result<Ended, Refused>
        ensures ended { EndsChapter self.old result self.new }
        ensures served { IsServed self.old.store → IsServed self.new.store }
        ensures awaited { AreAwaited self.old.store self.old.waiters → AreAwaited self.new.store self.new.waiters }
        ensures nobody { (ticket : ℕ) → waiting_at self.old.waiters ticket ≡ None
            → waiting_at self.new.waiters ticket ≡ None }
        ensures history { Begins self.old.history.items self.new.history.items }
        ensures first { self.new.first.value ≡ self.old.first.value }
        ensures closed { self.new.closed ≡ self.old.closed }
        ensures long { self.new.long.items ≡ self.old.long.items }
    {
        if self.last.is_any_out() {
            return Err(Refused::NotEnded);
        }
        if let Some(ended) = self.last.again() {
            return Ok(ended);
        }
        self.serve_all();
        self.begin_next()
    }

    /// The present chapter, of which no task is ready or runs, ends, and the next one begins. `Memory`: nothing
    /// changed.
    fn begin_next(&mut self) -> Result<Ended, Refused>
        requires served { IsServed self.old.store }
        requires still { IsStill self.old.store }
        requires kept { self.old.last ≡ Last.Kept }
        ensures ended { IfOk result (λ e. EndsNow self.old e self.new) }
        ensures out { IfOk result (λ e. self.new.last ≡ Last.Out e.chapter) }
        ensures memory { IfErr result (λ why. why ≡ Refused.Memory) }
        ensures unchanged { OnErr result (self.new ≡ self.old) }
        ensures served { IsServed self.new.store }
        ensures still { IsStill self.new.store }
        ensures waiters { self.new.waiters ≡ self.old.waiters }
        ensures history { self.new.history.items ≡ self.old.history.items }
        ensures first { self.new.first.value ≡ self.old.first.value }
        ensures closed { self.new.closed ≡ self.old.closed }
        ensures long { self.new.long.items ≡ self.old.long.items }
    {
        let Ok(ended) = ended_now(&self.store) else {
            return Err(Refused::Memory);
        };
        self.next_chapter();
        self.last = Last::Out(ended.chapter);
        Ok(ended)
    }

    /// As of a desk.
    pub(crate) fn begin_chapter(&mut self) -> Result<(), Refused>
        ensures begun { HasBegun self.old result self.new }
        ensures served { IsServed self.old.store → IsServed self.new.store }
        ensures awaited { AreAwaited self.old.store self.old.waiters → AreAwaited self.new.store self.new.waiters }
        ensures nobody { (ticket : ℕ) → waiting_at self.old.waiters ticket ≡ None
            → waiting_at self.new.waiters ticket ≡ None }
        ensures history { Begins self.old.history.items self.new.history.items }
        ensures first { self.new.first.value ≡ self.old.first.value }
        ensures closed { self.new.closed ≡ self.old.closed }
        ensures last { self.new.last ≡ self.old.last }
        ensures long { self.new.long.items ≡ self.old.long.items }
    {
        if !self.last.is_kept() {
            return Err(Refused::NotEnded);
        }
        self.serve_all();
        self.next_chapter();
        Ok(())
    }

    /// The next chapter begins, where no task of the present one is ready or runs.
    fn next_chapter(&mut self)
        requires served { IsServed self.old.store }
        requires still { IsStill self.old.store }
        ensures begins { BeginsNext self.old.store self.new.store }
        ensures due { self.new.due.items ≡ [] }
        ensures last { self.new.last ≡ self.old.last }
        ensures served { IsServed self.new.store }
        ensures still { IsStill self.new.store }
        ensures waiters { self.new.waiters ≡ self.old.waiters }
        ensures history { self.new.history.items ≡ self.old.history.items }
        ensures first { self.new.first.value ≡ self.old.first.value }
        ensures closed { self.new.closed ≡ self.old.closed }
        ensures long { self.new.long.items ≡ self.old.long.items }
    {
        self.store.law();
        self.store.begin_chapter();
        self.due.clear();
    }

    /// As of a desk.
    pub(crate) fn kept(&mut self, ended: Ended) -> Result<(), Ended>
        ensures { TakesBack self.old ended Last.Kept result self.new }
    {
        if !self.last.is_out(ended.chapter) {
            return Err(ended);
        }
        self.last = Last::Kept;
        Ok(())
    }

    /// As of a desk.
    pub(crate) fn not_kept(&mut self, ended: Ended) -> Result<(), Ended>
        ensures { TakesBack self.old ended (Last.NotKept ended) result self.new }
    {
        if !self.last.is_out(ended.chapter) {
            return Err(ended);
        }
        self.last = Last::NotKept(ended);
        Ok(())
    }
}
