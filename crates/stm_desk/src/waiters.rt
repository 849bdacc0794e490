//! The calls that wait, and what is still to be told of those that waited.

ghost use Rattle.std.specs.Prelude.{◌≡◌, ◌+◌, ◌≤◌, ℕ, OnErr, OnOk};
ghost use Rattle.std.specs.BTreeMap.{btree_map_len};
ghost use Rattle.std.specs.VecDeque.{deque_capacity, deque_len};

use crate::answers::{Answer, Told};
use std::alloc::Global;
use std::collections::{BTreeMap, VecDeque};
use std::snapshot::Snapshot;
use stm_store::{Refused, Ticket};
use txn::{Call, Memory};

/// A call that waits: whose it is.
#[derive(Drop)]
pub(crate) struct Waiting {
    pub(crate) whose: u64,
    pub(crate) call: Snapshot<Call>,
}

/// There is always room to tell what became of each call that waits.
#[derive(Drop)]
pub(crate) struct Waiters {
    /// By ticket.
    pub(crate) calls: BTreeMap<u64, Waiting>,
    pub(crate) told: VecDeque<Told>,
    ghost room: { deque_len told + btree_map_len calls ≤ deque_capacity told },
}

impl Waiters {
    ghost use Rattle.std.specs.Prelude.{[], ◌≢◌, ◌++◌, IfSome, MatchBool, None, Some, option_to_list};
    ghost use Rattle.stm_desk.specs.declared.waiters.Waiting.{Waiting};
    ghost use Rattle.stm_desk.specs.Waiting.{IsSeated, IsToldTo, OthersStay, waiting_at};

    /// Nobody waits.
    pub(crate) fn new(alloc: Global) -> Waiters
        ensures none { (ticket : ℕ) → waiting_at result ticket ≡ None }
        ensures told { result.told.items ≡ [] }
    {
        Waiters {
            calls: BTreeMap::new(alloc),
            told: VecDeque::new(alloc),
        }
    }

    /// This call waits from now on. `Memory`, and nobody more waits, where a growth was refused.
    pub(crate) fn seat(&mut self, ticket: Ticket, whose: u64, call: &Call) -> Result<(), Memory>
        ensures seated { OnOk result (IsSeated self.old ticket whose call.now self.new) }
        ensures refused { OnErr result ((other : ℕ) → waiting_at self.new other ≡ waiting_at self.old other) }
        ensures told { self.new.told.items ≡ self.old.told.items }
    {
        self.told.reserve(self.calls.len() + 1)?;
        let seat = Waiting {
            whose,
            call: Snapshot::of(call),
        };
        match self.calls.insert(ticket.0, seat) {
            Ok(_) => Ok(()),
            Err(_) => Err(Memory),
        }
    }

    /// Who waited with the ticket, if anybody did, is to be told this.
    pub(crate) fn tell(&mut self, ticket: Ticket, answer: Result<Answer, Refused>)
        ensures gone { waiting_at self.new ticket.0 ≡ None }
        ensures others { OthersStay self.old self.new ticket }
        ensures told { IsToldTo (waiting_at self.old ticket.0) self.old.told.items ticket answer self.new.told.items }
        ensures fewer { waiting_at self.old ticket.0 ≢ None
            → btree_map_len self.new.calls + 1 ≡ btree_map_len self.old.calls }
    {
        let Some(seat) = self.calls.remove(&ticket.0) else {
            return;
        };
        let told = Told {
            whose: seat.whose,
            ticket,
            answer,
            call: seat.call,
        };
        match self.told.push_back(told) {
            Ok(()) => {}
            Err(_) => unreachable!(),
        }
    }

    /// Whose call waits with the ticket, if one does.
    pub(crate) fn whose(&self, ticket: Ticket) -> Option<u64>
        ensures some { IfSome result (λ whose. (seat : Waiting) × (waiting_at self.now ticket.0 ≡ Some seat)
            × (whose ≡ seat.whose)) }
        ensures none { result ≡ None → waiting_at self.now ticket.0 ≡ None }
    {
        let seat = self.calls.get(&ticket.0)?;
        Some(seat.whose)
    }

    /// Whether anybody waits with the ticket.
    pub(crate) fn has(&self, ticket: Ticket) -> bool
        ensures { MatchBool result (waiting_at self.now ticket.0 ≢ None) (waiting_at self.now ticket.0 ≡ None) }
    {
        self.calls.contains_key(&ticket.0)
    }

    /// Whether anybody waited with the ticket, who does so no longer, and is not told.
    pub(crate) fn leave(&mut self, ticket: Ticket) -> bool
        ensures gone { waiting_at self.new ticket.0 ≡ None }
        ensures others { OthersStay self.old self.new ticket }
        ensures told { self.new.told.items ≡ self.old.told.items }
    {
        self.calls.remove(&ticket.0).is_some()
    }

    /// What is to be told next, which is told then.
    pub(crate) fn next(&mut self) -> Option<Told>
        ensures told { self.old.told.items ≡ option_to_list result ++ self.new.told.items }
        ensures calls { self.new.calls ≡ self.old.calls }
    {
        self.told.pop_front()
    }

    /// The lowest ticket with which anybody waits.
    pub(crate) fn lowest(&self) -> Option<Ticket>
        ensures some { IfSome result (λ t. waiting_at self.now t.0 ≢ None) }
        ensures none { result ≡ None → (ticket : ℕ) → waiting_at self.now ticket ≡ None }
    {
        let (ticket, _) = self.calls.first_key_value()?;
        Some(Ticket(*ticket))
    }
}
