//! What is seen of a desk: under the host's lock. Nothing changes, but where it is said.

ghost use Rattle.std.specs.Prelude.{◌≡◌, ◌≢◌, ◌⊎◌, None, pos};
ghost use Rattle.book.specs.Chapters.{entered_in_all};
ghost use Rattle.book.specs.Counting.{AreCounts};
ghost use Rattle.stm_store.specs.Telling.{IsFileOf, IsTextOf, IsTooLong};
ghost use Rattle.txn_text.specs.Canonical.{file_text};
ghost use Rattle.stm_c.specs.DeskCalls.{SettlesDesk};
ghost use Rattle.stm_c.specs.Held.{Asked, On};
ghost use Rattle.stm_c.specs.Looking.{counts_in, CellIs, CopiesBy, NoCell, NoValue, ValueIs};
ghost use Rattle.stm_c.specs.Rooms.{Holds, TooShort};

use crate::codes::{EMPTY, FILE_TOO_LONG, MEMORY, SHORT, UNKNOWN};
use crate::desk_handle::DeskHandle;
use crate::looking::{Counted, copy_cells, file_of, report_of, standing, tell, tell_value};
use stm_desk::Desk;

/// As `stm_value`.
#[unsafe(no_mangle)]
pub extern "C" fn stm_desk_value(
    desk: &mut DeskHandle,
    name: &[u8],
    value: &mut i64,
    version: &mut u64,
) -> i32
    ensures answer { Asked desk.old.value EMPTY result
        (λ held answer. (answer ≡ pos 0 → ValueIs held.work.store.book name.now value.new version.new)
        × (answer ≢ pos 0 → (answer ≡ UNKNOWN) × NoValue held.work.store.book name.now)) }
    ensures kept { result ≢ pos 0 → (value.new ≡ value.old) × (version.new ≡ version.old) }
    ensures stays { desk.new.value ≡ desk.old.value }
{
    let Some(held) = desk.get_mut() else {
        return EMPTY;
    };
    tell_value(held.store(), name, value, version)
}

/// As `stm_cell`.
#[unsafe(no_mangle)]
pub extern "C" fn stm_desk_cell(
    desk: &mut DeskHandle,
    table: u32,
    index: u32,
    value: &mut i64,
    version: &mut u64,
) -> i32
    ensures answer { Asked desk.old.value EMPTY result
        (λ held answer. (answer ≡ pos 0 → CellIs held.work.store.book table index value.new version.new)
        × (answer ≢ pos 0 → (answer ≡ UNKNOWN) × NoCell held.work.store.book table index)) }
    ensures kept { result ≢ pos 0 → (value.new ≡ value.old) × (version.new ≡ version.old) }
    ensures stays { desk.new.value ≡ desk.old.value }
{
    let Some(held) = desk.get_mut() else {
        return EMPTY;
    };
    tell(held.store().cell(table as usize, index), value, version)
}

/// As `stm_cells`.
#[unsafe(no_mangle)]
pub extern "C" fn stm_desk_cells(
    desk: &mut DeskHandle,
    table: u32,
    from: u32,
    values: &mut [i64],
) -> i64
    ensures copied { Asked desk.old.value EMPTY result
        (λ held answer. CopiesBy held.work.store.book table from values.old answer values.new) }
    ensures kept { desk.old.value ≡ None → values.new ≡ values.old }
    ensures stays { desk.new.value ≡ desk.old.value }
{
    let Some(held) = desk.get_mut() else {
        return i64::from(EMPTY);
    };
    copy_cells(held.store(), table, from, values)
}

/// As `stm_get_counts`.
#[unsafe(no_mangle)]
pub extern "C" fn stm_desk_counts(desk: &mut DeskHandle, out: &mut Counted) -> i32
    ensures counts { Asked desk.old.value EMPTY result
        (λ held answer. (answer ≡ pos 0) × AreCounts held.work.store.book.tasks (counts_in out.new)) }
    ensures kept { result ≢ pos 0 → out.new ≡ out.old }
    ensures stays { desk.new.value ≡ desk.old.value }
{
    let Some(held) = desk.get_mut() else {
        return EMPTY;
    };
    *out = standing(held.store().counts());
    0
}

/// How many tasks more the chapter has room for. 0 of an empty handle.
#[unsafe(no_mangle)]
pub extern "C" fn stm_desk_spare(desk: &mut DeskHandle) -> usize
    ensures value { Asked desk.old.value 0 result (λ held n. n ≡ held.work.store.book.spare) }
    ensures stays { desk.new.value ≡ desk.old.value }
{
    let Some(held) = desk.get_mut() else {
        return 0;
    };
    held.store().spare()
}

/// The number of the chapter, from 0 on. 0 of an empty handle.
#[unsafe(no_mangle)]
pub extern "C" fn stm_desk_chapter(desk: &mut DeskHandle) -> u64
    ensures value { Asked desk.old.value 0 result (λ held n. n ≡ held.work.store.chapter) }
    ensures stays { desk.new.value ≡ desk.old.value }
{
    let Some(held) = desk.get_mut() else {
        return 0;
    };
    held.store().chapter()
}

/// How many entries there were in all chapters. 0 of an empty handle.
#[unsafe(no_mangle)]
pub extern "C" fn stm_desk_entered(desk: &mut DeskHandle) -> u64
    ensures value { Asked desk.old.value 0 result (λ held n. n ≡ entered_in_all held.work.store.book) }
    ensures stays { desk.new.value ≡ desk.old.value }
{
    let Some(held) = desk.get_mut() else {
        return 0;
    };
    held.store().entered()
}

/// What is long and runs has its turn, and then the report's text is copied into the room: 0, and `wanted` is how long
/// it is. -6: out of memory. -8: the room is too short, and `wanted` is how much is needed. -12: the handle is empty.
#[unsafe(no_mangle)]
pub extern "C" fn stm_desk_report(desk: &mut DeskHandle, room: &mut [u8], wanted: &mut usize) -> i32
    ensures report { On desk.old.value desk.new.value EMPTY result
        (λ old answer new. SettlesDesk old new
        × (answer ≡ pos 0 → Holds (IsTextOf new.work.store.book) room.old room.new wanted.new)
        × (answer ≡ SHORT → TooShort (IsTextOf new.work.store.book) room.old room.new wanted.new)
        × ((answer ≡ pos 0) ⊎ (answer ≡ SHORT) ⊎ (answer ≡ MEMORY))) }
    ensures none { result ≢ pos 0 → result ≢ SHORT → wanted.new ≡ 0 }
    ensures kept { result ≢ pos 0 → room.new ≡ room.old }
{
    *wanted = 0;
    let Some(held) = desk.get_mut() else {
        return EMPTY;
    };
    report(held, room, wanted)
}

fn report(desk: &mut Desk, room: &mut [u8], wanted: &mut usize) -> i32
    ensures settles { SettlesDesk desk.old desk.new }
    ensures done { result ≡ pos 0 → Holds (IsTextOf desk.new.work.store.book) room.old room.new wanted.new }
    ensures too_short { result ≡ SHORT → TooShort (IsTextOf desk.new.work.store.book) room.old room.new wanted.new }
    ensures answers { (result ≡ pos 0) ⊎ (result ≡ SHORT) ⊎ (result ≡ MEMORY) }
    ensures none { result ≢ pos 0 → result ≢ SHORT → wanted.new ≡ wanted.old }
    ensures kept { result ≢ pos 0 → room.new ≡ room.old }
{
    desk.settle();
    report_of(desk.store(), room, wanted)
}

/// What is long and runs has its turn, and then the file's text is copied into the room, as the report's is. -1: it
/// would be longer than a file may be.
#[unsafe(no_mangle)]
pub extern "C" fn stm_desk_file(desk: &mut DeskHandle, room: &mut [u8], wanted: &mut usize) -> i32
    ensures file { On desk.old.value desk.new.value EMPTY result
        (λ old answer new. SettlesDesk old new
        × (answer ≡ pos 0 → Holds (IsFileOf new.work.store.book) room.old room.new wanted.new)
        × (answer ≡ SHORT → TooShort (IsFileOf new.work.store.book) room.old room.new wanted.new)
        × (answer ≡ FILE_TOO_LONG → IsTooLong (file_text new.work.store.book.catalogue))
        × ((answer ≡ pos 0) ⊎ (answer ≡ SHORT) ⊎ (answer ≡ FILE_TOO_LONG) ⊎ (answer ≡ MEMORY))) }
    ensures none { result ≢ pos 0 → result ≢ SHORT → wanted.new ≡ 0 }
    ensures kept { result ≢ pos 0 → room.new ≡ room.old }
{
    *wanted = 0;
    let Some(held) = desk.get_mut() else {
        return EMPTY;
    };
    file(held, room, wanted)
}

fn file(desk: &mut Desk, room: &mut [u8], wanted: &mut usize) -> i32
    ensures settles { SettlesDesk desk.old desk.new }
    ensures done { result ≡ pos 0 → Holds (IsFileOf desk.new.work.store.book) room.old room.new wanted.new }
    ensures too_short { result ≡ SHORT → TooShort (IsFileOf desk.new.work.store.book) room.old room.new wanted.new }
    ensures long { result ≡ FILE_TOO_LONG → IsTooLong (file_text desk.new.work.store.book.catalogue) }
    ensures answers { (result ≡ pos 0) ⊎ (result ≡ SHORT) ⊎ (result ≡ FILE_TOO_LONG) ⊎ (result ≡ MEMORY) }
    ensures none { result ≢ pos 0 → result ≢ SHORT → wanted.new ≡ wanted.old }
    ensures kept { result ≢ pos 0 → room.new ≡ room.old }
{
    desk.settle();
    file_of(desk.store(), room, wanted)
}
