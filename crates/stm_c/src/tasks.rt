//! Tasks of a store, one at a time: under the host's lock.

ghost use Rattle.std.specs.Prelude.{◌≡◌};
ghost use Rattle.stm_store.specs.declared.answers.Refused.TheVariants as refused;
ghost use Rattle.stm_c.specs.Answers.{nothing_held, refusal};
ghost use Rattle.stm_c.specs.ByTicket.{ClaimsTicket, GivesUpTicket, IsTicket, OnTicket, TellsEntry, TellsHow};
ghost use Rattle.stm_c.specs.Calls.{Takes};
ghost use Rattle.stm_c.specs.Held.{Asked, On};
ghost use Rattle.stm_c.specs.Jobs.{no_task_of, nothing_taken};

use crate::answers::{Answer, empty, recorded, refusal, stands};
use crate::codes::{EMPTY, GONE, done};
use crate::jobs::{Taken, no_job, taken_as};
use crate::store_handle::StoreHandle;
use stm_store::{Refused, Store, Ticket};

/// The ticket of this number. `None` where it is negative, as no ticket is.
pub(crate) fn ticket_of(number: i64) -> Option<Ticket>
    ensures { IsTicket number result }
{
    if number < 0 {
        return None;
    }
    Some(Ticket(number as u64))
}

/// The lowest ready task, which is then running. In its ticket's place -26 where none is ready, -12 where the
/// handle is empty; then nothing changed.
#[unsafe(no_mangle)]
pub extern "C" fn stm_take(store: &mut StoreHandle) -> Taken
    ensures { On store.old.value store.new.value nothing_taken result (λ old job new. Takes old job new) }
{
    let Some(held) = store.get_mut() else {
        return no_job(EMPTY);
    };
    take(held)
}

fn take(store: &mut Store) -> Taken
    ensures { Takes store.old result store.new }
{
    store.law();
    taken_as(store.take())
}

/// The task with the ticket, where it is ready: it is then running. In its ticket's place -26 where it is not ready,
/// -18 where there is no such task any more, -12 where the handle is empty; then nothing changed.
#[unsafe(no_mangle)]
pub extern "C" fn stm_claim(store: &mut StoreHandle, ticket: i64) -> Taken
    ensures { On store.old.value store.new.value nothing_taken result
        (λ old job new. OnTicket ticket (no_task_of GONE) job old new (ClaimsTicket old job new)) }
{
    let Some(held) = store.get_mut() else {
        return no_job(EMPTY);
    };
    claim(held, ticket)
}

fn claim(store: &mut Store, ticket: i64) -> Taken
    ensures { OnTicket ticket (no_task_of GONE) result store.old store.new
        (ClaimsTicket store.old result store.new) }
{
    match ticket_of(ticket) {
        Some(ticket) => taken_as(store.claim(ticket)),
        None => no_job(GONE),
    }
}

/// The task with the ticket is given up, where it is ready, parked or running: 0. Else nothing changed. -18: there is
/// no such task any more; -12: the handle is empty.
#[unsafe(no_mangle)]
pub extern "C" fn stm_give_up(store: &mut StoreHandle, ticket: i64) -> i32
    ensures { On store.old.value store.new.value EMPTY result
        (λ old answer new. OnTicket ticket GONE answer old new (GivesUpTicket old answer new)) }
{
    let Some(held) = store.get_mut() else {
        return EMPTY;
    };
    give_up(held, ticket)
}

fn give_up(store: &mut Store, ticket: i64) -> i32
    ensures { OnTicket ticket GONE result store.old store.new (GivesUpTicket store.old result store.new) }
{
    match ticket_of(ticket) {
        Some(ticket) => done(store.give_up(ticket)),
        None => GONE,
    }
}

/// How the task stands: 0 done, with the number of its entry; 1 parked; 4 given up; 13 ready; 14 running. -18: there
/// is no such task any more; -12: the handle is empty.
#[unsafe(no_mangle)]
pub extern "C" fn stm_standing(store: &mut StoreHandle, ticket: i64) -> Answer
    ensures answer { Asked store.old.value nothing_held result
        (λ held answer. OnTicket ticket (refusal refused.Gone) answer held held (TellsHow held answer)) }
    ensures stays { store.new.value ≡ store.old.value }
{
    let Some(held) = store.get_mut() else {
        return empty();
    };
    standing(held, ticket)
}

fn standing(store: &Store, number: i64) -> Answer
    ensures { OnTicket number (refusal refused.Gone) result store.now store.now (TellsHow store.now result) }
{
    match ticket_of(number) {
        Some(ticket) => stands(number, store.chapter(), store.standing_of(ticket)),
        None => refusal(Refused::Gone),
    }
}

/// What the entry of the task records, with its number: as a turn ends. 12: the journal has none, for the
/// task is not done, or a checkpoint was made since. -18: there is no such task any more; -12: the handle is empty.
#[unsafe(no_mangle)]
pub extern "C" fn stm_outcome(store: &mut StoreHandle, ticket: i64) -> Answer
    ensures answer { Asked store.old.value nothing_held result
        (λ held answer. OnTicket ticket (refusal refused.Gone) answer held held (TellsEntry held answer)) }
    ensures stays { store.new.value ≡ store.old.value }
{
    let Some(held) = store.get_mut() else {
        return empty();
    };
    outcome(held, ticket)
}

fn outcome(store: &Store, number: i64) -> Answer
    ensures { OnTicket number (refusal refused.Gone) result store.now store.now (TellsEntry store.now result) }
{
    let Some(ticket) = ticket_of(number) else {
        return refusal(Refused::Gone);
    };
    let how = store.standing_of(ticket);
    recorded(number, store.chapter(), how, store.outcome_of(ticket))
}
