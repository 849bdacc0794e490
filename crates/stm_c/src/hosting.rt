//! A store, as a handle: its calls stand under the host's lock.

ghost use Rattle.std.specs.Prelude.{◌≡◌, ◌≢◌, ◌<◌, ◌≤◌, ◌+◌, ◌⊎◌, None, pos, length};
ghost use Rattle.txn_programs.specs.declared.limits.TheConstants.{MAX_TASKS};
ghost use Rattle.txn_programs.specs.Listing.{tasks};
ghost use Rattle.stm_store.specs.Telling.{IsTextOf};
ghost use Rattle.stm_c.specs.Answers.{nothing_held};
ghost use Rattle.stm_c.specs.Calls.{BringsAttempt, Reports, LeavesChecked};
ghost use Rattle.stm_c.specs.Held.{Asked, HoldsSome, On, OnBoth};
ghost use Rattle.stm_c.specs.Made.{AnswersHire, AnswersOpen, IsHiredBy, IsOpened, IsOpenedOf, IsStillOf, IsWorkerOf};
ghost use Rattle.stm_c.specs.Made.{LeavesWorkers};
ghost use Rattle.stm_c.specs.Rooms.{Holds, TooShort};

use crate::answers::{Answer, brought, empty};
use crate::codes::{EMPTY, FULL, MEMORY, NO_ROOM, NO_WORKER, SHORT};
use crate::program_handle::ProgramHandle;
use crate::store_handle::StoreHandle;
use crate::worker_handle::WorkerHandle;
use crate::writing::copy;
use std::alloc::Global;
use stm_store::{Program, Store, Worker};

/// Opens a store of the program, for so many workers. 0, and `out` holds it; -6, -10: want of
/// memory, more than 32 workers; -12, -13: the program's handle is empty, or `out` is not. Else than
/// with 0, `out` is as it was.
#[unsafe(no_mangle)]
pub extern "C" fn stm_open(
    alloc: Global,
    program: &ProgramHandle,
    workers: usize,
    checkpoint: u32,
    out: &mut StoreHandle,
) -> i32
    ensures done { result ≡ pos 0 → HoldsSome (IsOpenedOf program.now.value workers checkpoint 0) out.new.value }
    ensures many { result ≡ NO_WORKER → 32 < workers }
    ensures kept { result ≢ pos 0 → out.new.value ≡ out.old.value }
    ensures empty { program.now.value ≡ None → result ≡ EMPTY }
    ensures full { program.now.value ≢ None → out.old.value ≢ None → result ≡ FULL }
    ensures room { result ≢ NO_ROOM }
    ensures answer { Asked program.now.value EMPTY result (λ p n. AnswersOpen p workers 0 out.old.value n) }
{
    match program.get() {
        Some(&program) => {
            // By its clause they are no more than there may be, so that there is always room.
            let _tasks = program.catalogue().tasks();
            open(alloc, program, workers, checkpoint, 0, out)
        }
        None => EMPTY,
    }
}

/// As `stm_open`, with room for so many tasks more. -14: there would be more tasks than there may
/// be.
#[unsafe(no_mangle)]
pub extern "C" fn stm_open_with_room(
    alloc: Global,
    program: &ProgramHandle,
    workers: usize,
    checkpoint: u32,
    spare: usize,
    out: &mut StoreHandle,
) -> i32
    ensures done { result ≡ pos 0 → HoldsSome (IsOpenedOf program.now.value workers checkpoint spare) out.new.value }
    ensures many { result ≡ NO_WORKER → 32 < workers }
    ensures room { result ≡ NO_ROOM → HoldsSome
        (λ p. MAX_TASKS < length (tasks p.catalogue.now) + spare) program.now.value }
    ensures kept { result ≢ pos 0 → out.new.value ≡ out.old.value }
    ensures empty { program.now.value ≡ None → result ≡ EMPTY }
    ensures full { program.now.value ≢ None → out.old.value ≢ None → result ≡ FULL }
    ensures answer { Asked program.now.value EMPTY result (λ p n. AnswersOpen p workers spare out.old.value n) }
{
    match program.get() {
        Some(&program) => open(alloc, program, workers, checkpoint, spare, out),
        None => EMPTY,
    }
}

fn open(
    alloc: Global,
    program: Program,
    workers: usize,
    checkpoint: u32,
    spare: usize,
    out: &mut StoreHandle,
) -> i32
    ensures done { result ≡ pos 0 → HoldsSome (IsOpened program workers checkpoint spare) out.new.value }
    ensures many { result ≡ NO_WORKER → 32 < workers }
    ensures room { result ≡ NO_ROOM → MAX_TASKS < length (tasks program.catalogue.now) + spare }
    ensures none { length (tasks program.catalogue.now) + spare ≤ MAX_TASKS → result ≢ NO_ROOM }
    ensures kept { result ≢ pos 0 → out.new.value ≡ out.old.value }
    ensures full { out.old.value ≢ None → result ≡ FULL }
    ensures answer { AnswersOpen program workers spare out.old.value result }
{
    if out.is_full() {
        return FULL;
    }
    if workers > 32 {
        return NO_WORKER;
    }
    if spare > 65536 - program.catalogue().tasks() {
        return NO_ROOM;
    }
    let Ok(store) = Store::open_with_room(alloc, program, workers, checkpoint, spare) else {
        return MEMORY;
    };
    let Ok(made) = Box::new(alloc, store) else {
        return MEMORY;
    };
    *out = StoreHandle::of(made);
    0
}

/// Lets a store go; its handle is empty afterwards. Its workers may be used and let go afterwards.
/// An empty one stays so.
#[unsafe(no_mangle)]
pub extern "C" fn stm_store_free(alloc: Global, store: &mut StoreHandle)
    ensures { store.new.value ≡ None }
{
    drop(store.take(alloc));
}

/// A worker of the store. 0, and `out` holds it; -6, -10: out of memory, no worker left; -12, -13:
/// the store's handle is empty, or `out` is not. Else than with 0, `out` is as it was.
#[unsafe(no_mangle)]
pub extern "C" fn stm_open_worker(
    alloc: Global,
    store: &mut StoreHandle,
    out: &mut WorkerHandle,
) -> i32
    ensures store { On store.old.value store.new.value EMPTY result
        (λ old answer new. IsStillOf old new × LeavesWorkers old answer new) }
    ensures done { result ≡ pos 0 → HoldsSome (IsHiredBy store.old.value) out.new.value }
    ensures kept { result ≢ pos 0 → out.new.value ≡ out.old.value }
    ensures full { store.old.value ≢ None → out.old.value ≢ None → result ≡ FULL }
    ensures answer { Asked store.old.value EMPTY result (λ held n. AnswersHire held out.old.value n) }
{
    let Some(held) = store.get_mut() else {
        return EMPTY;
    };
    hire(alloc, held, out)
}

fn hire(alloc: Global, store: &mut Store, out: &mut WorkerHandle) -> i32
    ensures stays { IsStillOf store.old store.new }
    ensures workers { LeavesWorkers store.old result store.new }
    ensures done { result ≡ pos 0 → HoldsSome (IsWorkerOf store.old) out.new.value }
    ensures kept { result ≢ pos 0 → out.new.value ≡ out.old.value }
    ensures full { out.old.value ≢ None → result ≡ FULL }
    ensures answer { AnswersHire store.old out.old.value result }
{
    if out.is_full() {
        return FULL;
    }
    let Some(worker) = store.worker() else {
        return NO_WORKER;
    };
    let Ok(made) = Box::new(alloc, worker) else {
        return MEMORY;
    };
    *out = WorkerHandle::of(made);
    0
}

/// Brings a worker's ended attempt to the store: how it ended, if all that it read is still so. The worker has none to
/// bring any more. -11: it had none; -18: the present chapter has no such job; -17: the worker's program says otherwise
/// of the transaction; 3: the task is not running; 2: what was read is no longer so; -12: one of the handles is empty;
/// then nothing else changed.
#[unsafe(no_mangle)]
pub extern "C" fn stm_bring(store: &mut StoreHandle, worker: &mut WorkerHandle) -> Answer
    ensures { OnBoth store.old.value worker.old.value store.new.value worker.new.value nothing_held result
        (λ old before answer new after. BringsAttempt old before answer new after) }
{
    let Some(held) = store.get_mut() else {
        return empty();
    };
    let Some(hired) = worker.get_mut() else {
        return empty();
    };
    bring(held, hired)
}

fn bring(store: &mut Store, worker: &mut Worker) -> Answer
    ensures { BringsAttempt store.old worker.old result store.new worker.new }
{
    store.law();
    let job = worker.ended();
    brought(job, store.bring(worker))
}

/// The base becomes the present, and the journal is empty: 0. -12: the handle is empty.
#[unsafe(no_mangle)]
pub extern "C" fn stm_checkpoint(store: &mut StoreHandle) -> i32
    ensures { On store.old.value store.new.value EMPTY result
        (λ old answer new. (answer ≡ pos 0) × LeavesChecked old new) }
{
    let Some(held) = store.get_mut() else {
        return EMPTY;
    };
    held.checkpoint();
    0
}

/// Gives what is left a turn, and copies the report's text into the room: 0, and `wanted` is how
/// long it is. -6: out of memory. -8: the room is too short, and `wanted` is how much is needed.
/// -12: the handle is empty.
#[unsafe(no_mangle)]
pub extern "C" fn stm_report(store: &mut StoreHandle, room: &mut [u8], wanted: &mut usize) -> i32
    ensures report { On store.old.value store.new.value EMPTY result
        (λ old answer new. Reports old new
        × (answer ≡ pos 0 → Holds (IsTextOf new.book) room.old room.new wanted.new)
        × (answer ≡ SHORT → TooShort (IsTextOf new.book) room.old room.new wanted.new)
        × ((answer ≡ pos 0) ⊎ (answer ≡ SHORT) ⊎ (answer ≡ MEMORY))) }
    ensures none { result ≢ pos 0 → result ≢ SHORT → wanted.new ≡ 0 }
    ensures kept { result ≢ pos 0 → room.new ≡ room.old }
{
    *wanted = 0;
    let Some(held) = store.get_mut() else {
        return EMPTY;
    };
    reported(held, room, wanted)
}

fn reported(store: &mut Store, room: &mut [u8], wanted: &mut usize) -> i32
    ensures turns { Reports store.old store.new }
    ensures done { result ≡ pos 0 → Holds (IsTextOf store.new.book) room.old room.new wanted.new }
    ensures too_short { result ≡ SHORT → TooShort (IsTextOf store.new.book) room.old room.new wanted.new }
    ensures answers { (result ≡ pos 0) ⊎ (result ≡ SHORT) ⊎ (result ≡ MEMORY) }
    ensures none { result ≢ pos 0 → result ≢ SHORT → wanted.new ≡ wanted.old }
    ensures kept { result ≢ pos 0 → room.new ≡ room.old }
{
    match store.report() {
        Ok(text) => copy(text.as_bytes(), room, wanted),
        Err(_) => MEMORY,
    }
}
