//! What is seen of a store: under the host's lock. Nothing changes.

ghost use Rattle.std.specs.Prelude.{◌≡◌, ◌≢◌, ◌⊎◌, None, Some, pos};
ghost use Rattle.txn_text.specs.Canonical.{file_text};
ghost use Rattle.book.specs.Counting.{AreCounts};
ghost use Rattle.book.specs.Turns.{IsIdle};
ghost use Rattle.stm_store.specs.Telling.{IsFileOf, IsTextOf, IsTooLong};
ghost use Rattle.stm_c.specs.Held.{Asked};
ghost use Rattle.stm_c.specs.Rooms.{Holds, TooShort};
ghost use Rattle.stm_c.specs.Looking.{counts_in, CellIs, CopiesBy, NoCell, NoValue, ValueIs};

use crate::codes::{EMPTY, FILE_TOO_LONG, MEMORY, SHORT, UNKNOWN, WORK_LEFT};
use crate::store_handle::StoreHandle;
use crate::writing::copy;
use book::Counts;
use stm_store::{FileFault, ReportFault, Store};

/// How many tasks stand how.
#[repr(C)]
#[derive(Clone, Copy)]
pub struct Counted {
    pub ready: usize,
    pub running: usize,
    pub parked: usize,
    pub done: usize,
    pub given_up: usize,
}

/// How many tasks stand how: 0, and they were written. -12: the handle is empty.
#[unsafe(no_mangle)]
pub extern "C" fn stm_get_counts(store: &mut StoreHandle, out: &mut Counted) -> i32
    ensures counts { Asked store.old.value EMPTY result
        (λ held answer. (answer ≡ pos 0) × AreCounts held.book.tasks (counts_in out.new)) }
    ensures kept { result ≢ pos 0 → out.new ≡ out.old }
    ensures stays { store.new.value ≡ store.old.value }
{
    let Some(held) = store.get_mut() else {
        return EMPTY;
    };
    *out = standing(held.counts());
    0
}

pub(crate) fn standing(counts: Counts) -> Counted
    ensures { counts_in result ≡ counts }
{
    Counted {
        ready: counts.ready,
        running: counts.running,
        parked: counts.parked,
        done: counts.done,
        given_up: counts.given_up,
    }
}

/// The present value of the variable of this name, or of the cell that is written so, and its version: 0, and
/// they were written. -9: there is neither. -12: the handle is empty.
#[unsafe(no_mangle)]
pub extern "C" fn stm_value(
    store: &mut StoreHandle,
    name: &[u8],
    value: &mut i64,
    version: &mut u64,
) -> i32
    ensures answer { Asked store.old.value EMPTY result
        (λ held answer. (answer ≡ pos 0 → ValueIs held.book name.now value.new version.new)
        × (answer ≢ pos 0 → (answer ≡ UNKNOWN) × NoValue held.book name.now)) }
    ensures kept { result ≢ pos 0 → (value.new ≡ value.old) × (version.new ≡ version.old) }
    ensures stays { store.new.value ≡ store.old.value }
{
    let Some(held) = store.get_mut() else {
        return EMPTY;
    };
    tell_value(held, name, value, version)
}

pub(crate) fn tell_value(store: &Store, name: &[u8], value: &mut i64, version: &mut u64) -> i32
    ensures done { result ≡ pos 0 → ValueIs store.now.book name.now value.new version.new }
    ensures unknown { result ≢ pos 0
        → (result ≡ UNKNOWN) × NoValue store.now.book name.now × (value.new ≡ value.old)
        × (version.new ≡ version.old) }
{
    let Ok(name) = str::from_utf8(name) else {
        return UNKNOWN;
    };
    tell(store.value(name), value, version)
}

/// What was found, where it was.
pub(crate) fn tell(found: Option<(i64, u64)>, value: &mut i64, version: &mut u64) -> i32
    ensures done { result ≡ pos 0 → found ≡ Some (value.new, version.new) }
    ensures unknown { result ≢ pos 0
        → (result ≡ UNKNOWN) × (found ≡ None) × (value.new ≡ value.old) × (version.new ≡ version.old) }
{
    let Some((present, number)) = found else {
        return UNKNOWN;
    };
    *value = present;
    *version = number;
    0
}

/// The present value and the version of the cell of this number in a table, which is named by its place: 0, and
/// they were written. -9: there is no such cell. -12: the handle is empty.
#[unsafe(no_mangle)]
pub extern "C" fn stm_cell(
    store: &mut StoreHandle,
    table: u32,
    index: u32,
    value: &mut i64,
    version: &mut u64,
) -> i32
    ensures answer { Asked store.old.value EMPTY result
        (λ held answer. (answer ≡ pos 0 → CellIs held.book table index value.new version.new)
        × (answer ≢ pos 0 → (answer ≡ UNKNOWN) × NoCell held.book table index)) }
    ensures kept { result ≢ pos 0 → (value.new ≡ value.old) × (version.new ≡ version.old) }
    ensures stays { store.new.value ≡ store.old.value }
{
    let Some(held) = store.get_mut() else {
        return EMPTY;
    };
    tell(held.cell(table as usize, index), value, version)
}

/// Copies the present values of a table's cells, from the one of this number on: as many as there are and there
/// is room for. It answers how many. -9: there is no such table, and nothing was written. -12: the handle is empty.
#[unsafe(no_mangle)]
pub extern "C" fn stm_cells(
    store: &mut StoreHandle,
    table: u32,
    from: u32,
    values: &mut [i64],
) -> i64
    ensures copied { Asked store.old.value EMPTY result
        (λ held answer. CopiesBy held.book table from values.old answer values.new) }
    ensures kept { store.old.value ≡ None → values.new ≡ values.old }
    ensures stays { store.new.value ≡ store.old.value }
{
    let Some(held) = store.get_mut() else {
        return i64::from(EMPTY);
    };
    copy_cells(held, table, from, values)
}

pub(crate) fn copy_cells(store: &Store, table: u32, from: u32, values: &mut [i64]) -> i64
    ensures { CopiesBy store.now.book table from values.old result values.new }
{
    store.law();
    if table as usize >= store.catalogue().tables().len() {
        return i64::from(UNKNOWN);
    }
    store.cells(table as usize, from, values) as i64
}

/// Copies the file of the program as it has become into the room: 0, and `wanted` is how long it
/// is. -1: it would be longer than a file may be. -6: out of memory. -8: the room is too short, and
/// `wanted` is how much is needed. -12: the handle is empty.
#[unsafe(no_mangle)]
pub extern "C" fn stm_file(store: &mut StoreHandle, room: &mut [u8], wanted: &mut usize) -> i32
    ensures done { Asked store.old.value EMPTY result
        (λ held answer. answer ≡ pos 0 → Holds (IsFileOf held.book) room.old room.new wanted.new) }
    ensures too_short { Asked store.old.value EMPTY result
        (λ held answer. answer ≡ SHORT → TooShort (IsFileOf held.book) room.old room.new wanted.new) }
    ensures long { Asked store.old.value EMPTY result
        (λ held answer. answer ≡ FILE_TOO_LONG → IsTooLong (file_text held.book.catalogue)) }
    ensures answers { Asked store.old.value EMPTY result
        (λ held answer. (answer ≡ pos 0) ⊎ (answer ≡ SHORT) ⊎ (answer ≡ FILE_TOO_LONG) ⊎ (answer ≡ MEMORY)) }
    ensures none { result ≢ pos 0 → result ≢ SHORT → wanted.new ≡ 0 }
    ensures kept { result ≢ pos 0 → room.new ≡ room.old }
    ensures stays { store.new.value ≡ store.old.value }
{
    *wanted = 0;
    let Some(held) = store.get_mut() else {
        return EMPTY;
    };
    file_of(held, room, wanted)
}

pub(crate) fn file_of(store: &Store, room: &mut [u8], wanted: &mut usize) -> i32
    ensures done { result ≡ pos 0 → Holds (IsFileOf store.now.book) room.old room.new wanted.new }
    ensures too_short { result ≡ SHORT → TooShort (IsFileOf store.now.book) room.old room.new wanted.new }
    ensures long { result ≡ FILE_TOO_LONG → IsTooLong (file_text store.now.book.catalogue) }
    ensures answers { (result ≡ pos 0) ⊎ (result ≡ SHORT) ⊎ (result ≡ FILE_TOO_LONG) ⊎ (result ≡ MEMORY) }
    ensures none { result ≢ pos 0 → result ≢ SHORT → wanted.new ≡ wanted.old }
    ensures kept { result ≢ pos 0 → room.new ≡ room.old }
{
    match store.file() {
        Ok(text) => copy(text.as_bytes(), room, wanted),
        Err(FileFault::TooLong) => FILE_TOO_LONG,
        Err(FileFault::Memory) => MEMORY,
    }
}

/// As `stm_report`, with no turn given. -15: a task is ready or running; it is answered wherever
/// one is, whatever memory there is.
#[unsafe(no_mangle)]
pub extern "C" fn stm_report_now(
    store: &mut StoreHandle,
    room: &mut [u8],
    wanted: &mut usize,
) -> i32
    ensures done { Asked store.old.value EMPTY result
        (λ held answer. answer ≡ pos 0 → Holds (IsTextOf held.book) room.old room.new wanted.new) }
    ensures too_short { Asked store.old.value EMPTY result
        (λ held answer. answer ≡ SHORT → TooShort (IsTextOf held.book) room.old room.new wanted.new) }
    ensures left { Asked store.old.value EMPTY result
        (λ held answer. answer ≡ WORK_LEFT → ¬ (IsIdle held.book)) }
    ensures always_left { Asked store.old.value EMPTY result
        (λ held answer. ¬ (IsIdle held.book) → answer ≡ WORK_LEFT) }
    ensures answers { Asked store.old.value EMPTY result
        (λ held answer. (answer ≡ pos 0) ⊎ (answer ≡ SHORT) ⊎ (answer ≡ WORK_LEFT) ⊎ (answer ≡ MEMORY)) }
    ensures none { result ≢ pos 0 → result ≢ SHORT → wanted.new ≡ 0 }
    ensures kept { result ≢ pos 0 → room.new ≡ room.old }
    ensures stays { store.new.value ≡ store.old.value }
{
    *wanted = 0;
    let Some(held) = store.get_mut() else {
        return EMPTY;
    };
    report_of(held, room, wanted)
}

pub(crate) fn report_of(store: &Store, room: &mut [u8], wanted: &mut usize) -> i32
    ensures done { result ≡ pos 0 → Holds (IsTextOf store.now.book) room.old room.new wanted.new }
    ensures too_short { result ≡ SHORT → TooShort (IsTextOf store.now.book) room.old room.new wanted.new }
    ensures left { result ≡ WORK_LEFT → ¬ (IsIdle store.now.book) }
    ensures always_left { ¬ (IsIdle store.now.book) → result ≡ WORK_LEFT }
    ensures answers { (result ≡ pos 0) ⊎ (result ≡ SHORT) ⊎ (result ≡ WORK_LEFT) ⊎ (result ≡ MEMORY) }
    ensures none { result ≢ pos 0 → result ≢ SHORT → wanted.new ≡ wanted.old }
    ensures kept { result ≢ pos 0 → room.new ≡ room.old }
{
    match store.report_now() {
        Ok(text) => copy(text.as_bytes(), room, wanted),
        Err(ReportFault::WorkLeft) => WORK_LEFT,
        Err(ReportFault::Memory) => MEMORY,
    }
}
