//! Tasks that come in while a store is worked on: under the host's lock.

ghost use Rattle.std.specs.Prelude.{◌≡◌, length};
ghost use Rattle.txn_programs.specs.Listing.{tasks};
ghost use Rattle.stm_c.specs.Held.{Asked, On};
ghost use Rattle.stm_c.specs.Looking.{SubmitsBy};

use crate::codes::{EMPTY, UNKNOWN, submitted};
use crate::store_handle::StoreHandle;
use stm_store::Store;
use txn::TxId;

/// A ready task of the call more: its ticket. -9: there is no such transaction, or it wants another number of
/// arguments; -12: the handle is empty; -14: no room for another task; then nothing changed.
#[unsafe(no_mangle)]
pub extern "C" fn stm_submit(store: &mut StoreHandle, tx: u32, arguments: &[i64]) -> i64
    ensures { On store.old.value store.new.value EMPTY result
        (λ old ticket new. SubmitsBy old tx arguments.now ticket new) }
{
    let Some(held) = store.get_mut() else {
        return i64::from(EMPTY);
    };
    submit(held, tx, arguments)
}

fn submit(store: &mut Store, tx: u32, arguments: &[i64]) -> i64
    ensures { SubmitsBy store.old tx arguments.now result store.new }
{
    if !store.catalogue().is_callable(TxId(tx), arguments) {
        return i64::from(UNKNOWN);
    }
    submitted(store.submit(TxId(tx), arguments))
}

/// How many tasks more the chapter has room for. 0 of an empty handle.
#[unsafe(no_mangle)]
pub extern "C" fn stm_store_spare(store: &mut StoreHandle) -> usize
    ensures value { Asked store.old.value 0 result (λ held n. n ≡ held.book.spare) }
    ensures stays { store.new.value ≡ store.old.value }
{
    let Some(held) = store.get_mut() else {
        return 0;
    };
    held.spare()
}

/// How many tasks the chapter has: those with which it began, and those that were submitted. 0 of an
/// empty handle.
#[unsafe(no_mangle)]
pub extern "C" fn stm_store_tasks(store: &mut StoreHandle) -> usize
    ensures value { Asked store.old.value 0 result (λ held n. n ≡ length (tasks held.book.catalogue)) }
    ensures stays { store.new.value ≡ store.old.value }
{
    let Some(held) = store.get_mut() else {
        return 0;
    };
    held.tasks()
}
