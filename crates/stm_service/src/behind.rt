//! What the lock of a service guards.

ghost use Rattle.std.specs.Prelude.{◌≡◌, ◌≢◌, ◌<◌, ◌++◌, ◌∷◌, [], ℕ, true, false, IfSome, Ok, OnOk, None, Some, length};
ghost use Rattle.std.specs.BTreeMap.{get};
ghost use Rattle.std.specs.Option.{ForSome};
ghost use Rattle.std.specs.Coded.{codes};
ghost use Rattle.std.specs.Ordering.{nat_cmp};
ghost use Rattle.txn.specs.Codes.{coded_listing};
ghost use Rattle.stm_desk.specs.Answering.{history_of};
ghost use Rattle.stm_desk.specs.Ending.{IsNotKept};
ghost use Rattle.stm_desk.specs.History.{Begins, led};
ghost use Rattle.stm_desk.specs.declared.ended.Last.TheVariants as Last;
ghost use Rattle.stm_service.specs.Telling.{IsAwaited};

use crate::chapter::{Chapter, Kept, Shelf};
use crate::front::{Front, Head, Opened};
use crate::name::Naming;
use crate::seat::{Awaited, Seat, put, remove, tell};
use std::alloc::Global;
use std::collections::BTreeMap;
use std::mem::replace;
use std::sync::{Arc, Condvar, Wait};
use stm_desk::{Answer, Asked, Desk};
use stm_store::{Job, Refused, Store, Ticket, Way};
use txn::Call;

/// A desk under a name, with all that its history shows, and a seat for each thread that waits.
pub(crate) struct Behind<N: Naming> {
    alloc: Global,
    pub(crate) desk: Desk,
    pub(crate) head: Head<N>,
    pub(crate) front: Front<N>,
    /// Whether the desk is closed.
    pub(crate) closed: bool,
    /// By ticket.
    pub(crate) seats: BTreeMap<u64, Seat<N>>,
    /// What there was to be seen when the present chapter began.
    began: Front<N>,
    shelf: Shelf<N>,
    ghost named: { desk.work.first.value.catalogue.now ≡ N.catalogue } by { Prim.hlevel (codes, coded_listing) },
    ghost placed: { desk.work.first.value.book.present.state ≡ N.first },
    ghost kept: { shelf.are_kept ≡ false → ∥ desk.work.last ≡ Last.Kept ∥₁ },
    ghost none_lies: { IsNotKept desk.work.last → ⊥ },
    ghost starts: { shelf.are_kept ≡ true
        → ∥ desk.work.store.book.catalogue.initial ≡ led N.catalogue N.first began ∥₁ },
    ghost grows: { ∥ Begins began front ∥₁ },
    ghost shown: { front ≡ desk.work.history.items },
    ghost shut: { closed ≡ desk.work.closed },
    ghost seated: { (ticket : ℕ) → ForSome (get nat_cmp seats ticket) (λ seat. (seat.ticket.0 ≡ ticket)
        × (seat.heard ≡ None → ∥ IsAwaited desk.work.waiters ticket seat.call ∥₁)) },
}

/// Written by hand, so that its end is one call.
impl<N: Naming> Drop for Behind<N> {
    fn drop(self) {
        let Behind {
            alloc: _,
            desk: _desk,
            head: _head,
            front: _front,
            closed: _,
            seats: _seats,
            began: _began,
            shelf: _shelf,
        } = self;
    }
}

/// What came of a call at once.
#[derive(Drop)]
pub(crate) enum Begun {
    Ended(Answer),
    /// Its thread waits for this, until the bell rings.
    Waits(Awaited, Arc<Condvar>),
    Refused(Refused),
    /// It is to be made again: the chapter was full, and the next one has begun; or its caller has seen more than there
    /// is, which is never so.
    Again,
    /// It is to be made again once the host has said how it went with the chapter before, since the present one is full
    /// too. So often the host has said that before.
    Later(u64),
}

impl<N: Naming> Behind<N> {
    ghost use Rattle.std.specs.Prelude.{Err, IfErr, IfOk};
    ghost use Rattle.stm_store.specs.Asking.{HasRoomNext};
    ghost use Rattle.stm_store.specs.Working.{next_number};
    ghost use Rattle.stm_store.specs.declared.answers.Refused.TheVariants as Refused;
    ghost use Rattle.stm_desk.specs.declared.answers.Became.TheVariants as Became;
    ghost use Rattle.stm_desk.specs.Answering.{IsAsked};
    ghost use Rattle.stm_desk.specs.Asking.{IsStill};
    ghost use Rattle.stm_desk.specs.Keeping.{IsLeft};
    ghost use Rattle.stm_desk.specs.Waiting.{waiting_at};
    ghost use Rattle.stm_service.specs.Beginning.{HasPassedOn, IsBegun, IsNew, IsWaiting, WaitsWith};
    ghost use Rattle.stm_service.specs.declared.behind.Begun.TheVariants as Begun;
    ghost use Rattle.stm_service.specs.Telling.{IsTold};

    /// The desk of a store, whose ready tasks have had their turns then, and a front that has seen nothing. `long` says
    /// of each transaction whether it is long. Where its chapters are kept, the present one has to have begun with the
    /// present values.
    pub(crate) fn new<R: Wait>(
        rt: &R,
        alloc: Global,
        store: Store,
        long: Vec<bool>,
        opened: Opened,
        are_kept: bool,
    ) -> (Behind<N>, Front<N>)
        requires named { store.catalogue.now ≡ N.catalogue }
        requires placed { store.book.present.state ≡ N.first }
        requires book { opened.seen.book ≡ N.book }
        requires still { IsStill store }
        requires fresh { are_kept ≡ true → store.book.catalogue.initial ≡ N.first }
        ensures { result.1 ≡ [] }
    {
        let (head, first) = opened.named::<N>();
        let desk = Desk::open(alloc, store, long);
        let mut front = first.again();
        front.add(rt, &head, &desk);
        let began = first.again();
        let shelf = Shelf::new(are_kept);
        let behind = Behind {
            alloc,
            desk,
            head,
            front,
            closed: false,
            seats: BTreeMap::new(alloc),
            began,
            shelf,
        };
        (behind, first)
    }

    /// A call, whose caller has seen this, and is shown all that there is where the call is answered. Where the chapter
    /// has no room for it, and the next one has some, that one begins; so there is none only where each place is of a
    /// task that waits. Where chapters are kept it begins once the host kept the one before, and there is no room
    /// either where memory for the texts of the present one was refused.
    pub(crate) fn call<R: Wait>(
        &mut self,
        rt: &R,
        call: &Call,
        way: Way,
        front: &mut Front<N>,
    ) -> Begun
        ensures begun { IsBegun N.catalogue N.first front.old call.now way result front.new }
        ensures full { self.old.shelf.are_kept ≡ false → result ≡ Begun.Refused Refused.NoRoom
            → HasRoomNext self.new.desk.work.store → ⊥ }
    {
        if !self.front.covers(front) {
            return Begun::Again;
        }
        match self.ask(rt, call, way) {
            Ok(Asked::Ended(answer)) => {
                *front = self.front.again();
                self.hand_out();
                Begun::Ended(answer)
            }
            Ok(Asked::Waits(ticket)) => self.wait(rt, ticket, None, call, front),
            Ok(Asked::Runs(job)) => self.wait(rt, job.ticket, Some(job), call, front),
            Ok(Asked::ChapterFull) => self.pass_on(rt, front),
            Err(why) => {
                *front = self.front.again();
                self.hand_out();
                Begun::Refused(why)
            }
        }
    }

    /// What the desk is asked, and what it made of it is shown.
    fn ask<R: Wait>(&mut self, rt: &R, call: &Call, way: Way) -> Result<Asked, Refused>
        ensures asked { IsAsked self.old.desk call.now way 0 result self.new.desk }
        ensures grows { Begins self.old.front self.new.front }
        ensures full { result ≡ Err Refused.NoRoom → HasRoomNext self.new.desk.work.store → ⊥ }
        ensures kept { self.new.shelf.are_kept ≡ self.old.shelf.are_kept }
    {
        self.desk.store().law();
        let asked = self.desk.ask(call.tx, call.arguments.as_slice(), way, 0);
        self.front.add(rt, &self.head, &self.desk);
        asked
    }

    /// The chapter is full: the next one begins, or is to begin once the host has said how it went with the one before.
    fn pass_on<R: Wait>(&mut self, rt: &R, front: &mut Front<N>) -> Begun
        requires covers { Begins front.old self.old.front }
        ensures passed { HasPassedOn front.old result front.new }
        ensures room { self.old.shelf.are_kept ≡ false → result ≡ Begun.Refused Refused.NoRoom → ⊥ }
    {
        if !self.shelf.are_kept {
            self.begin_chapter(rt);
            return Begun::Again;
        }
        match self.end_chapter(rt) {
            Ok(()) => Begun::Again,
            Err(Refused::NotEnded) => Begun::Later(self.shelf.sayings()),
            Err(_) => {
                *front = self.front.again();
                Begun::Refused(Refused::NoRoom)
            }
        }
    }

    /// The present chapter ends, which the host is to take, and the next one begins, in which who waits waits on.
    /// `NotEnded`: the host did not say yet how it went with the one before. `Memory`: the chapter goes on.
    fn end_chapter<R: Wait>(&mut self, rt: &R) -> Result<(), Refused>
        requires { self.old.shelf.are_kept ≡ true }
        ensures grows { Begins self.old.front self.new.front }
        ensures next { OnOk result
            (self.new.desk.work.store.chapter ≡ next_number self.old.desk.work.store.chapter) }
    {
        match self.desk.end_chapter() {
            Ok(ended) => {
                self.front.add(rt, &self.head, &self.desk);
                let next = self.front.again();
                let began = replace(&mut self.began, next);
                let until = self.front.again();
                let told = Chapter {
                    ended,
                    began,
                    until,
                };
                self.shelf.offer(told);
                self.hand_out();
                Ok(())
            }
            Err(why) => {
                self.front.add(rt, &self.head, &self.desk);
                self.hand_out();
                Err(why)
            }
        }
    }

    /// The next chapter begins, in which who waits waits on; of the one before nobody keeps anything.
    fn begin_chapter<R: Wait>(&mut self, rt: &R)
        requires { self.old.shelf.are_kept ≡ false }
        ensures next { self.new.desk.work.store.chapter ≡ next_number self.old.desk.work.store.chapter }
    {
        match self.desk.begin_chapter() {
            Ok(()) => {
                self.front.add(rt, &self.head, &self.desk);
                self.hand_out();
            }
            Err(_) => unreachable!(),
        }
    }

    /// Whoever called waits from now on, and evaluates the job of a long call. Out of memory its task is given up.
    fn wait<R: Wait>(
        &mut self,
        rt: &R,
        ticket: Ticket,
        job: Option<Job>,
        call: &Call,
        front: &mut Front<N>,
    ) -> Begun
        requires waits { WaitsWith self.old.desk.work.waiters ticket call.now }
        requires is_new { IsNew front.old ticket }
        requires covers { Begins front.old self.old.front }
        ensures { IsWaiting front.old call.now result front.new }
    {
        let awaited = Awaited {
            ticket,
            call: *call,
        };
        match self.sit(&awaited, job) {
            Some(bell) => Begun::Waits(awaited, bell),
            None => {
                let _left = self.leave(rt, ticket);
                *front = self.front.again();
                Begun::Refused(Refused::Memory)
            }
        }
    }

    /// A seat for whoever waits, and its bell. `None` and no change out of memory.
    fn sit(&mut self, awaited: &Awaited, job: Option<Job>) -> Option<Arc<Condvar>>
        requires { ∥ IsAwaited self.old.desk.work.waiters awaited.now.ticket.0 awaited.now.call ∥₁ }
        ensures desk { self.new.desk ≡ self.old.desk }
        ensures front { self.new.front ≡ self.old.front }
    {
        let Ok(bell) = Arc::new(self.alloc, Condvar::new()) else {
            return None;
        };
        let Ok(own) = Arc::clone(&bell) else {
            return None;
        };
        let seat = Seat::new(awaited, own, job);
        if put(&mut self.seats, awaited.ticket, seat) {
            Some(bell)
        } else {
            None
        }
    }

    /// Whoever waits with the ticket does so no longer: its task is given up. `Gone` and no change where nobody does.
    fn leave<R: Wait>(&mut self, rt: &R, ticket: Ticket) -> Result<(), Refused>
        ensures left { OnOk result (self.new.front ≡ self.old.front ++ (ticket, Became.Left) ∷ []) }
        ensures is_left { OnOk result (IsLeft self.new.front ticket) }
        ensures waited { waiting_at self.old.desk.work.waiters ticket.0 ≢ None → result ≡ Ok tt }
    {
        let Ok(()) = self.desk.leave(ticket) else {
            return Err(Refused::Gone);
        };
        self.front.add(rt, &self.head, &self.desk);
        remove(&mut self.seats, ticket);
        Ok(())
    }

    /// What whoever waits for this is told, who is shown the history that has it, and rises. `None` and no change where
    /// there is nothing yet.
    pub(crate) fn look(
        &mut self,
        awaited: &Awaited,
        front: &mut Front<N>,
    ) -> Option<Result<Answer, Refused>>
        ensures told { IfSome result (λ answer. ∥ IsTold front.new awaited.now.ticket awaited.now.call answer ∥₁) }
        ensures grows { Begins front.old front.new }
        ensures nothing { result ≡ None → front.new ≡ front.old }
    {
        let seat = self.seats.get(&awaited.ticket.0)?;
        let answer = seat.hear(awaited, front)?;
        remove(&mut self.seats, awaited.ticket);
        Some(answer)
    }

    /// Whoever waits for this does so no longer, and is shown that its task was given up. `false` and no change where
    /// it was told what became of it, or is to be.
    pub(crate) fn give_up<R: Wait>(
        &mut self,
        rt: &R,
        awaited: &Awaited,
        front: &mut Front<N>,
    ) -> bool
        ensures left { result ≡ true → IsLeft front.new awaited.now.ticket }
        ensures grows { Begins front.old front.new }
        ensures kept { result ≡ false → front.new ≡ front.old }
    {
        match self.leave(rt, awaited.ticket) {
            Ok(()) => {
                front.learn(&self.front);
                true
            }
            Err(_) => false,
        }
    }

    /// Nothing is entered from now on, and each that waits is told so.
    pub(crate) fn close<R: Wait>(&mut self, rt: &R) {
        self.desk.close();
        self.closed = true;
        self.front.add(rt, &self.head, &self.desk);
        self.shelf.close();
        self.hand_out();
    }

    /// The chapter that the host has from now on. `None` where there is none yet. `Closed`: there never will be one.
    pub(crate) fn take_chapter(&mut self) -> Option<Result<Chapter<N>, Refused>>
        ensures refused { IfSome result (λ r. IfErr r (λ why. why ≡ Refused.Closed)) }
    {
        self.shelf.take()
    }

    /// The host kept the chapter. `Err` and no change where it is not the one that the host has.
    pub(crate) fn chapter_kept(&mut self, chapter: Chapter<N>) -> Result<Kept<N>, Chapter<N>>
        ensures kept { OnOk result (self.new.desk.work.last ≡ Last.Kept) }
        ensures chapter { IfOk result (λ kept. kept.ended.value ≡ chapter.ended) }
        ensures until { IfOk result (λ kept. kept.until ≡ chapter.until) }
        ensures back { IfErr result (λ back. back ≡ chapter) }
    {
        let number = chapter.number();
        if !self.desk.has_out(number) {
            return Err(chapter);
        }
        let kept = chapter.remembered();
        let Chapter {
            ended,
            began: _,
            until: _,
        } = chapter;
        match self.desk.kept(ended) {
            Ok(()) => {
                self.shelf.say(true);
                Ok(kept)
            }
            Err(_) => unreachable!(),
        }
    }

    /// The host did not keep the chapter, and is to take it again. `Err` and no change where it is not the one that the
    /// host has.
    pub(crate) fn chapter_not_kept(&mut self, chapter: Chapter<N>) -> Result<(), Chapter<N>>
        ensures offered { OnOk result (self.new.shelf.offered ≡ Some chapter) }
        ensures back { IfErr result (λ back. back ≡ chapter) }
    {
        let number = chapter.number();
        if !self.desk.has_out(number) {
            return Err(chapter);
        }
        self.shelf.say(false);
        self.shelf.offer(chapter);
        Ok(())
    }

    /// Whether the host kept a chapter since it had said so often how it went, or the service was closed. `None` where
    /// it has said nothing since.
    pub(crate) fn said_since(&self, sayings: u64) -> Option<bool> {
        self.shelf.said_since(sayings)
    }

    /// Each of whom something became is told, and called; and each who is to evaluate a long call.
    pub(crate) fn hand_out(&mut self)
        ensures front { self.new.front ≡ self.old.front }
        ensures store { self.new.desk.work.store ≡ self.old.desk.work.store }
        ensures kept { self.new.shelf.are_kept ≡ self.old.shelf.are_kept }
    {
        while self.hand_one() {}
        self.hand_jobs();
    }

    /// The next one is. `false` where there is none.
    fn hand_one(&mut self) -> bool
        ensures front { self.new.front ≡ self.old.front }
        ensures store { self.new.desk.work.store ≡ self.old.desk.work.store }
        ensures kept { self.new.shelf.are_kept ≡ self.old.shelf.are_kept }
        ensures fewer { result ≡ true → length self.new.desk.work.waiters.told.items
            < length self.old.desk.work.waiters.told.items }
    {
        let Some(told) = self.desk.told() else {
            return false;
        };
        tell(
            &mut self.seats,
            told.ticket,
            told.answer,
            self.front.again(),
        );
        true
    }
}
