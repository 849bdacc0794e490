//! Where a thread that waits is told what became of its call.

ghost use Rattle.std.specs.Prelude.{◌≡◌, ◌≢◌, ℕ, true, false, IfSome, None, Some};
ghost use Rattle.std.specs.BTreeMap.{get};
ghost use Rattle.std.specs.Option.{ForSome};
ghost use Rattle.std.specs.Ordering.{nat_cmp};
ghost use Rattle.stm_desk.specs.History.{Begins};
ghost use Rattle.stm_service.specs.Telling.{IsTold};

use crate::front::Front;
use crate::name::Naming;
use std::collections::BTreeMap;
use std::sync::{Arc, Condvar};
use stm_desk::Answer;
use stm_store::{Job, Refused, Ticket};
use txn::Call;
use txn_declarations::same::same_values;

/// What a thread waits for: its ticket, and the call that it made.
#[derive(Clone, Copy)]
pub(crate) struct Awaited {
    pub(crate) ticket: Ticket,
    pub(crate) call: Call,
}

/// What became of a call, and a history that has it.
#[derive(Drop)]
pub(crate) struct Heard<N: Naming> {
    pub(crate) answer: Result<Answer, Refused>,
    pub(crate) front: Front<N>,
}

/// The seat of a thread that waits, with the bell that rings for it.
#[derive(Drop)]
pub(crate) struct Seat<N: Naming> {
    pub(crate) ticket: Ticket,
    pub(crate) call: Call,
    bell: Arc<Condvar>,
    /// What its thread is to evaluate, where its call is long and runs.
    pub(crate) job: Option<Job>,
    pub(crate) heard: Option<Heard<N>>,
    ghost told: { ForSome heard (λ h. ∥ IsTold h.front ticket call h.answer ∥₁) },
}

/// Whether the two are calls of the same transaction with the same arguments.
fn are_same(a: &Call, b: &Call) -> bool
    ensures { result ≡ true → a.now ≡ b.now }
{
    a.tx == b.tx && same_values(a.arguments.as_slice(), b.arguments.as_slice())
}

impl<N: Naming> Seat<N> {
    /// Of a call that waits; a long one is to be evaluated.
    pub(crate) fn new(awaited: &Awaited, bell: Arc<Condvar>, job: Option<Job>) -> Seat<N>
        ensures untold { result.heard ≡ None }
        ensures call { result.call ≡ awaited.now.call }
        ensures ticket { result.ticket ≡ awaited.now.ticket }
    {
        Seat {
            ticket: awaited.ticket,
            call: awaited.call,
            bell,
            job,
            heard: None,
        }
    }

    /// Whether it is the seat of this call.
    fn is_of(&self, awaited: &Awaited) -> bool
        ensures ticket { result ≡ true → self.now.ticket ≡ awaited.now.ticket }
        ensures call { result ≡ true → self.now.call ≡ awaited.now.call }
    {
        self.ticket.0 == awaited.ticket.0 && are_same(&self.call, &awaited.call)
    }

    /// What its thread is told, which learns the history that has it. `None` and no change where there is nothing yet.
    pub(crate) fn hear(
        &self,
        awaited: &Awaited,
        front: &mut Front<N>,
    ) -> Option<Result<Answer, Refused>>
        ensures told { IfSome result (λ answer. ∥ IsTold front.new awaited.now.ticket awaited.now.call answer ∥₁) }
        ensures grows { Begins front.old front.new }
        ensures nothing { result ≡ None → front.new ≡ front.old }
    {
        if !self.is_of(awaited) {
            return None;
        }
        match &self.heard {
            Some(heard) => {
                front.learn(&heard.front);
                Some(heard.answer)
            }
            None => None,
        }
    }

    /// Its thread is told this, and called. Where it was told before, nothing changes.
    fn tell(&mut self, answer: Result<Answer, Refused>, front: Front<N>)
        requires { self.old.heard ≡ None → ∥ IsTold front self.old.ticket self.old.call answer ∥₁ }
        ensures told { self.new.heard ≢ None }
        ensures ticket { self.new.ticket ≡ self.old.ticket }
    {
        if self.heard.is_some() {
            return;
        }
        self.heard = Some(Heard { answer, front });
        self.bell.notify_one();
    }

    /// This is what its thread is to evaluate, which is called where there is something.
    fn hand(&mut self, job: Option<Job>)
        ensures job { self.new.job ≡ job }
        ensures ticket { self.new.ticket ≡ self.old.ticket }
        ensures call { self.new.call ≡ self.old.call }
        ensures heard { self.new.heard ≡ self.old.heard }
    {
        self.job = job;
        if job.is_some() {
            self.bell.notify_one();
        }
    }
}

/// This is what the thread at the seat of this ticket is to evaluate, where there is one.
pub(crate) fn hand<N: Naming>(seats: &mut BTreeMap<u64, Seat<N>>, ticket: Ticket, job: Option<Job>)
    ensures here { ForSome (get nat_cmp seats.new ticket.0) (λ new. (new.job ≡ job)
        × ForSome (get nat_cmp seats.old ticket.0) (λ old. (new.ticket ≡ old.ticket) × (new.call ≡ old.call)
        × (new.heard ≡ old.heard))) }
    ensures nobody { get nat_cmp seats.old ticket.0 ≡ None → get nat_cmp seats.new ticket.0 ≡ None }
    ensures others { (other : ℕ) → other ≢ ticket.0 → get nat_cmp seats.new other ≡ get nat_cmp seats.old other }
{
    let Some(seat) = seats.get_mut(&ticket.0) else {
        return;
    };
    seat.hand(job);
}

/// The thread at the seat of this ticket is told this, where there is one.
pub(crate) fn tell<N: Naming>(
    seats: &mut BTreeMap<u64, Seat<N>>,
    ticket: Ticket,
    answer: Result<Answer, Refused>,
    front: Front<N>,
)
    requires { ForSome (get nat_cmp seats.old ticket.0) (λ seat. (seat.ticket.0 ≡ ticket.0)
        × (seat.heard ≡ None → ∥ IsTold front ticket seat.call answer ∥₁)) }
    ensures here { ForSome (get nat_cmp seats.new ticket.0) (λ seat. (seat.ticket.0 ≡ ticket.0) × (seat.heard ≢ None)) }
    ensures others { (other : ℕ) → other ≢ ticket.0 → get nat_cmp seats.new other ≡ get nat_cmp seats.old other }
{
    let Some(seat) = seats.get_mut(&ticket.0) else {
        return;
    };
    seat.tell(answer, front);
}

/// The seat is the one of this ticket from now on. `false` and no change out of memory.
pub(crate) fn put<N: Naming>(
    seats: &mut BTreeMap<u64, Seat<N>>,
    ticket: Ticket,
    seat: Seat<N>,
) -> bool
    ensures here { result ≡ true → get nat_cmp seats.new ticket.0 ≡ Some seat }
    ensures others { (other : ℕ) → other ≢ ticket.0 → get nat_cmp seats.new other ≡ get nat_cmp seats.old other }
    ensures unchanged { result ≡ false → (other : ℕ) → get nat_cmp seats.new other ≡ get nat_cmp seats.old other }
{
    seats.insert(ticket.0, seat).is_ok()
}

/// There is no seat of this ticket any more.
pub(crate) fn remove<N: Naming>(seats: &mut BTreeMap<u64, Seat<N>>, ticket: Ticket)
    ensures gone { get nat_cmp seats.new ticket.0 ≡ None }
    ensures others { (other : ℕ) → other ≢ ticket.0 → get nat_cmp seats.new other ≡ get nat_cmp seats.old other }
{
    let _seat = seats.remove(&ticket.0);
}
