//! The chapters of a store's life: under the host's lock.

ghost use Rattle.std.specs.Prelude.{◌≡◌, pos};
ghost use Rattle.book.specs.Chapters.{entered_in_all};
ghost use Rattle.stm_c.specs.Calls.{BeginsChapter};
ghost use Rattle.stm_c.specs.Held.{Asked, On};

use crate::codes::EMPTY;
use crate::store_handle::StoreHandle;

/// A new chapter begins, to which the tasks that are ready, running or parked come over with their
/// tickets: 0. -12: the handle is empty.
#[unsafe(no_mangle)]
pub extern "C" fn stm_begin_chapter(store: &mut StoreHandle) -> i32
    ensures { On store.old.value store.new.value EMPTY result
        (λ old answer new. (answer ≡ pos 0) × BeginsChapter old new) }
{
    let Some(held) = store.get_mut() else {
        return EMPTY;
    };
    held.begin_chapter();
    0
}

/// The number of the chapter, from 0 on. 0 of an empty handle.
#[unsafe(no_mangle)]
pub extern "C" fn stm_chapter(store: &mut StoreHandle) -> u64
    ensures value { Asked store.old.value 0 result (λ held n. n ≡ held.chapter) }
    ensures stays { store.new.value ≡ store.old.value }
{
    let Some(held) = store.get_mut() else {
        return 0;
    };
    held.chapter()
}

/// How many entries there were in all chapters. 0 of an empty handle.
#[unsafe(no_mangle)]
pub extern "C" fn stm_entered(store: &mut StoreHandle) -> u64
    ensures value { Asked store.old.value 0 result (λ held n. n ≡ entered_in_all held.book) }
    ensures stays { store.new.value ≡ store.old.value }
{
    let Some(held) = store.get_mut() else {
        return 0;
    };
    held.entered()
}
