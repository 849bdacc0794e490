//! A desk, as a handle: how it begins and ends.

ghost use Rattle.std.specs.Prelude.{◌≡◌, ◌≢◌, ◌↔◌, ◌⊎◌, IsTrue, None, pos};
ghost use Rattle.stm_desk.specs.Asking.{IsStill};
ghost use Rattle.stm_c.specs.DeskChapters.{AnswersDesk, IsOpenedFor};
ghost use Rattle.stm_c.specs.Held.{Asked, HoldsSome};

use crate::codes::{EMPTY, FULL, MEMORY, WORK_LEFT};
use crate::desk_handle::DeskHandle;
use crate::reading::long_ones;
use crate::store_handle::StoreHandle;
use std::alloc::Global;
use std_alloc::room::Vacant;
use stm_desk::Desk;
use stm_store::Store;

/// Opens the desk of a store, whose handle is empty then: 0, and `out` holds it; the ready tasks have had their turns.
/// -15: a task is running; -6: out of memory; -12, -13: the store's handle is empty, or `out` is not. Else than with 0
/// both are as they were.
#[unsafe(no_mangle)]
pub extern "C" fn stm_open_desk(alloc: Global, store: &mut StoreHandle, out: &mut DeskHandle) -> i32
    ensures done { result ≡ pos 0 → HoldsSome (IsOpenedFor store.old.value) out.new.value }
    ensures taken { result ≡ pos 0 → store.new.value ≡ None }
    ensures kept { result ≢ pos 0 → (store.new.value ≡ store.old.value) × (out.new.value ≡ out.old.value) }
    ensures answer { Asked store.old.value EMPTY result (λ held n. AnswersDesk held out.old.value n) }
{
    let Some(held) = store.get_mut() else {
        return EMPTY;
    };
    if out.is_full() {
        return FULL;
    }
    if !is_still(held) {
        return WORK_LEFT;
    }
    open(alloc, store, out)
}

/// Whether no task of the store is running.
fn is_still(store: &Store) -> bool
    ensures { IsTrue result ↔ IsStill store.now }
{
    store.counts().running == 0
}

fn open(alloc: Global, store: &mut StoreHandle, out: &mut DeskHandle) -> i32
    requires still { HoldsSome IsStill store.old.value }
    requires empty { out.old.value ≡ None }
    ensures done { result ≡ pos 0 → HoldsSome (IsOpenedFor store.old.value) out.new.value }
    ensures taken { result ≡ pos 0 → store.new.value ≡ None }
    ensures kept { result ≢ pos 0 → (store.new.value ≡ store.old.value) × (out.new.value ≡ out.old.value) }
    ensures answers { (result ≡ pos 0) ⊎ (result ≡ MEMORY) }
{
    let Some(held) = store.get_mut() else {
        unreachable!()
    };
    let Ok(long) = long_ones(alloc, held.catalogue()) else {
        return MEMORY;
    };
    let Some(taken) = store.take(alloc) else {
        unreachable!()
    };
    let Ok(room) = Vacant::take(alloc) else {
        *store = StoreHandle::of(taken);
        return MEMORY;
    };
    *out = DeskHandle::in_room(room, Desk::open(alloc, Box::into_inner(taken), long));
    0
}

/// Lets a desk go; its handle is empty afterwards. Its workers may be used and let go afterwards. An empty one stays
/// so.
#[unsafe(no_mangle)]
pub extern "C" fn stm_desk_free(alloc: Global, desk: &mut DeskHandle)
    ensures { desk.new.value ≡ None }
{
    drop(desk.take(alloc));
}
