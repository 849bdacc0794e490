//! The tickets of the tasks of a chapter.

ghost use Rattle.std.specs.Prelude.{◌≡◌, ◌<◌, ◌≤◌, ◌+◌, ◌++◌, ◌∷◌, [], length, IfOk, IsTrue, ◌↔◌, Some, slice_get};
ghost use Rattle.std.specs.Prelude.{slice_set, vec_len, vec_capacity};
ghost use Rattle.std.specs.Bool.{OnFalse};
ghost use Rattle.txn_programs.specs.declared.limits.TheConstants.{MAX_TASKS};
ghost use Rattle.book.specs.Tasks.{Task};
ghost use Rattle.book.specs.Carrying.{stays, staying};

use crate::job::Ticket;
use book::{Book, Standing};
use std::alloc::{AllocError, Global};
use std::marker::Model;
use txn::TaskId;

/// How many tickets a life of a store can give.
const MOST_TICKETS: u64 = 1 << 62;

/// The ticket of each task, in the order of the tasks, in which they rise; and the next one that will
/// be given. A clause sees a `TicketsView`.
#[derive(Drop)]
pub(crate) struct Tickets {
    held: Vec<u64>,
    given: u64,
    /// For how many tasks there is room.
    room: usize,
}

impl Model for Tickets {
    ghost use Rattle.stm_store.specs.Tickets.{TicketsView};
    ghost use Rattle.std.specs.Coded.{codes};

    ghost Value = { TicketsView };

    ghost use Rattle.stm_store.specs.TicketsInside.{tickets_of, IsKept};

    ghost view = { tickets_of };

    ghost invariant = { IsKept };
}

impl Tickets {
    ghost use Rattle.stm_store.specs.Tickets.{HasTicket, IsTaskOf, AreNumbers, AreTickets, most_tickets, with_next};
    ghost use Rattle.stm_store.specs.Tickets.{kept_tickets};

    /// The first chapter's: of so many tasks, each with its number, and with room for so many in all.
    pub(crate) fn first(alloc: Global, count: usize, room: usize) -> Result<Tickets, AllocError>
        requires fits { count ≤ room }
        requires few { room ≤ MAX_TASKS }
        ensures numbers { IfOk result (λ t. AreNumbers t.held count) }
        ensures given { IfOk result (λ t. t.given ≡ count) }
        ensures room { IfOk result (λ t. t.room ≡ room) }
    {
        let mut held = Vec::with_capacity(alloc, room)?;
        'numbers: for i in 0..count {
            held.push(i as u64)?;
        }
        Ok(Tickets {
            held,
            given: count as u64,
            room,
        })
    }

    /// Whether no ticket is left to give.
    pub(crate) fn are_used_up(&self) -> bool
        ensures used_up { IsTrue result ↔ (self.now.given ≡ most_tickets) }
        ensures left { OnFalse result (self.now.given < most_tickets) }
    {
        self.given == MOST_TICKETS
    }

    /// For how many tasks there is room.
    pub(crate) fn room(&self) -> usize
        ensures { result ≡ self.now.room }
    {
        self.room
    }

    /// The ticket of a task.
    pub(crate) fn of(&self, task: TaskId) -> Ticket
        requires { task.0 < length self.now.held }
        ensures { HasTicket self.now task result }
    {
        Ticket(self.held[task.0 as usize])
    }

    /// Whether there is such a task, and it has this ticket.
    pub(crate) fn has(&self, task: TaskId, ticket: Ticket) -> bool
        ensures { IsTrue result ↔ HasTicket self.now task ticket }
    {
        match self.held.get(task.0 as usize) {
            Some(held) => *held == ticket.0,
            None => false,
        }
    }

    /// The task that has the ticket. `None` exactly where none has.
    pub(crate) fn task(&self, ticket: Ticket) -> Option<TaskId>
        ensures { IsTaskOf self.now ticket result }
    {
        match self.held.binary_search(&ticket.0) {
            Ok(place) => Some(TaskId(place as u32)),
            Err(_) => None,
        }
    }

    /// A ticket for a task more, for which there is room.
    pub(crate) fn give(&mut self) -> Ticket
        requires room { length self.old.held < self.old.room }
        requires left { self.old.given < most_tickets }
        ensures ticket { result.0 ≡ self.old.given }
        ensures tickets { self.new ≡ with_next self.old }
    {
        let ticket = self.given;
        note(&mut self.held, ticket);
        self.given = ticket + 1;
        Ticket(ticket)
    }

    /// Those of the tasks that stay in the next chapter of the book, in their order. It takes no memory.
    pub(crate) fn keep_staying(&mut self, book: &Book<'_>)
        requires { length self.old.held ≡ length book.now.tasks }
        ensures { self.new ≡ kept_tickets self.old book.now }
    {
        keep_staying(&mut self.held, book);
    }

    /// What tickets keep. It does nothing: its contract is the law.
    pub(crate) fn law(&self)
        ensures { AreTickets self.now }
    {
        // To look at a field is to be told what the type keeps.
        let _given = self.given;
    }
}

/// Adds a ticket, for which there is room.
fn note(held: &mut Vec<u64>, ticket: u64)
    requires { vec_len held.old < vec_capacity held.old }
    ensures items { held.new.items ≡ held.old.items ++ ticket ∷ [] }
    ensures capacity { vec_capacity held.old ≤ vec_capacity held.new }
{
    match held.push(ticket) {
        Ok(()) => {}
        Err(_) => unreachable!(),
    }
}

/// The tickets of the tasks of the book that stay in its next chapter, in their order. Behind the last of
/// them it looks at no task.
fn keep_staying(held: &mut Vec<u64>, book: &Book<'_>)
    requires each { length held.old.items ≡ length book.now.tasks }
    requires few { length held.old.items ≤ MAX_TASKS }
    ensures items { held.new.items ≡ staying held.old.items book.now.tasks }
    ensures capacity { vec_capacity held.new ≡ vec_capacity held.old }
{
    let count = book.staying();
    if count == held.len() {
        return;
    }
    let mut kept = 0;
    let mut i = 0;
    'tasks: while kept < count {
        if stays(book, TaskId(i as u32)) {
            let ticket = held[i];
            put(held, kept, ticket);
            kept += 1;
        }
        i += 1;
    }
    held.truncate(kept);
}

/// Whether the task comes over to the book's next chapter.
fn stays(book: &Book<'_>, task: TaskId) -> bool
    requires { task.0 < length book.now.tasks }
    ensures { (t : Task) → slice_get book.now.tasks task.0 ≡ Some t → result ≡ stays t }
{
    match book.standing(task) {
        Standing::Ready | Standing::Running | Standing::Parked => true,
        Standing::Done(_) | Standing::GivenUp => false,
    }
}

/// The ticket stands there.
fn put(held: &mut Vec<u64>, at: usize, ticket: u64)
    requires { at < length held.old.items }
    ensures items { held.new.items ≡ slice_set held.old.items at ticket }
    ensures capacity { vec_capacity held.new ≡ vec_capacity held.old }
{
    held[at] = ticket;
}
