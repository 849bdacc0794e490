//! Turns and calls of transactions, by an attempt that is lent: under the host's lock.

ghost use Rattle.std.specs.Prelude.{◌≡◌, ◌≢◌, None, pos};
ghost use Rattle.stm_store.specs.declared.answers.Refused.TheVariants as refused;
ghost use Rattle.stm_c.specs.Answers.{nothing_held, refusal};
ghost use Rattle.stm_c.specs.Calls.{CallsAny, GivesMost, TurnsJob};
ghost use Rattle.stm_c.specs.Held.{Asked, OnBoth};
ghost use Rattle.stm_c.specs.Jobs.{OnJob};
ghost use Rattle.stm_c.specs.Made.{AnswersLend};

use crate::answers::{Answer, answer_of, called, empty, refusal};
use crate::codes::{EMPTY, FULL, MEMORY, NO_WORKER, way_of};
use crate::jobs::{Taken, job_of};
use crate::lender_handle::LenderHandle;
use crate::store_handle::StoreHandle;
use std::alloc::Global;
use stm_store::{Lender, Refused, Store};
use txn::TxId;

/// An attempt to lend to this store, or to another. 0, and `out` holds it; -6, -10: out of memory, the
/// program has no transaction; -12, -13: the store's handle is empty, or `out` is not. Else than with 0,
/// `out` is as it was.
#[unsafe(no_mangle)]
pub extern "C" fn stm_open_lender(
    alloc: Global,
    store: &mut StoreHandle,
    out: &mut LenderHandle,
) -> i32
    ensures answer { Asked store.old.value EMPTY result (λ held n. AnswersLend held out.old.value n) }
    ensures done { result ≡ pos 0 → out.new.value ≢ None }
    ensures kept { result ≢ pos 0 → out.new.value ≡ out.old.value }
    ensures stays { store.new.value ≡ store.old.value }
{
    let Some(held) = store.get_mut() else {
        return EMPTY;
    };
    lend(alloc, held, out)
}

fn lend(alloc: Global, store: &Store, out: &mut LenderHandle) -> i32
    ensures answer { AnswersLend store.now out.old.value result }
    ensures done { result ≡ pos 0 → out.new.value ≢ None }
    ensures kept { result ≢ pos 0 → out.new.value ≡ out.old.value }
{
    if out.is_full() {
        return FULL;
    }
    let Some(lender) = store.lender() else {
        return NO_WORKER;
    };
    let Ok(made) = Box::new(alloc, lender) else {
        return MEMORY;
    };
    *out = LenderHandle::of(made);
    0
}

/// Lets a lender go; its handle is empty afterwards. An empty one stays so.
#[unsafe(no_mangle)]
pub extern "C" fn stm_lender_free(alloc: Global, lender: &mut LenderHandle)
    ensures { lender.new.value ≡ None }
{
    drop(lender.take(alloc));
}

/// A turn of the job's task on the present values: how it ended. -18: the present chapter has no such job; 3: its task
/// is not running; -12: one of the handles is empty; then nothing changed.
#[unsafe(no_mangle)]
pub extern "C" fn stm_turn(store: &mut StoreHandle, lender: &mut LenderHandle, job: Taken) -> Answer
    ensures { OnBoth store.old.value lender.old.value store.new.value lender.new.value nothing_held result
        (λ old _ answer new _. OnJob job (refusal refused.Gone) answer old new (TurnsJob old answer new)) }
{
    let Some(held) = store.get_mut() else {
        return empty();
    };
    let Some(lent) = lender.get_mut() else {
        return empty();
    };
    turn(held, lent, job)
}

fn turn(store: &mut Store, lender: &mut Lender, told: Taken) -> Answer
    ensures { OnJob told (refusal refused.Gone) result store.old store.new (TurnsJob store.old result store.new) }
{
    match job_of(&told) {
        Some(job) => answer_of(told.ticket, told.chapter, store.turn(lender, job)),
        None => refusal(Refused::Gone),
    }
}

/// Gives the lowest ready task a turn, and then the next one, until so many turns were given or none
/// is ready: how many were given. -12: one of the handles is empty.
#[unsafe(no_mangle)]
pub extern "C" fn stm_turns(store: &mut StoreHandle, lender: &mut LenderHandle, most: u32) -> i64
    ensures { OnBoth store.old.value lender.old.value store.new.value lender.new.value EMPTY result
        (λ old _ given new _. GivesMost old most given new) }
{
    let Some(held) = store.get_mut() else {
        return i64::from(EMPTY);
    };
    let Some(lent) = lender.get_mut() else {
        return i64::from(EMPTY);
    };
    turns(held, lent, most)
}

fn turns(store: &mut Store, lender: &mut Lender, most: u32) -> i64
    ensures { GivesMost store.old most result store.new }
{
    i64::from(store.turns(lender, most))
}

/// A task of the call more, which has its turn at once: which task, and how it ended. Where the transaction retries on
/// the present values, a way of 0 parks the task, and any other makes none and answers 1. -9: there is no such
/// transaction, or it wants another number of arguments; -12: one of the handles is empty; -14: no room for another
/// task. Where no task was made nothing changed.
#[unsafe(no_mangle)]
pub extern "C" fn stm_call(
    store: &mut StoreHandle,
    lender: &mut LenderHandle,
    tx: u32,
    arguments: &[i64],
    way: u32,
) -> Answer
    ensures { OnBoth store.old.value lender.old.value store.new.value lender.new.value nothing_held result
        (λ old _ answer new _. CallsAny old tx arguments.now way answer new) }
{
    let Some(held) = store.get_mut() else {
        return empty();
    };
    let Some(lent) = lender.get_mut() else {
        return empty();
    };
    call(held, lent, tx, arguments, way)
}

fn call(store: &mut Store, lender: &mut Lender, tx: u32, arguments: &[i64], way: u32) -> Answer
    ensures { CallsAny store.old tx arguments.now way result store.new }
{
    if !store.catalogue().is_callable(TxId(tx), arguments) {
        return refusal(Refused::Unknown);
    }
    called(store.call(lender, TxId(tx), arguments, way_of(way)))
}
