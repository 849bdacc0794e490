//! A schedule played on the stepped world of a file.

ghost use Rattle.std.specs.Prelude.{◌≡◌, ◌≢◌, ◌⊎◌, IfErr, IfOk, pos};
ghost use Rattle.world_runner.specs.Showing.{IsShowing};
ghost use Rattle.stm_c.specs.Files.{IsNotPlayed, IsRefused};
ghost use Rattle.stm_c.specs.Rooms.{Holds, TooShort};

use crate::codes::{MEMORY, SHORT, file_fault, schedule_fault};
use crate::writing::copy;
use run_interface::{Out, RunFault};
use std::alloc::Global;
use world_runner::world_bytes;

/// Plays the schedule, and copies what is seen into the room: 0, and `wanted` is how long it is.
/// -1 to -7: the file is refused, or out of memory. -8: the room is too short, and `wanted` is how
/// much is needed. -21 to -27: the schedule is refused.
#[unsafe(no_mangle)]
pub extern "C" fn stm_world(
    alloc: Global,
    file: &[u8],
    schedule: &[u8],
    room: &mut [u8],
    wanted: &mut usize,
) -> i32
    ensures done { result ≡ pos 0 → Holds (IsShowing file.now schedule.now) room.old room.new wanted.new }
    ensures too_short { result ≡ SHORT → TooShort (IsShowing file.now schedule.now) room.old room.new wanted.new }
    ensures refused { result ≢ pos 0 → result ≢ SHORT
        → IsRefused file.now result ⊎ IsNotPlayed file.now schedule.now result }
    ensures none { result ≢ pos 0 → result ≢ SHORT → wanted.new ≡ 0 }
    ensures kept { result ≢ pos 0 → room.new ≡ room.old }
{
    *wanted = 0;
    match seen(alloc, file, schedule) {
        Ok(text) => copy(text.as_slice(), room, wanted),
        Err(code) => code,
    }
}

/// The bytes of what is seen; else why there are none.
#[tactic(auto, using(crate::proofs::Written::showing_in))]
fn seen(alloc: Global, file: &[u8], schedule: &[u8]) -> Result<Vec<u8>, i32>
    ensures seen { IfOk result (λ text. IsShowing file.now schedule.now text.items) }
    ensures none { IfErr result (λ code. code ≢ pos 0) }
    ensures other { IfErr result (λ code. code ≢ SHORT) }
    ensures refused { IfErr result (λ code. IsRefused file.now code ⊎ IsNotPlayed file.now schedule.now code) }
{
    let mut out = Out::new(Vec::new(alloc));
    match world_bytes(alloc, file, schedule, &mut out) {
        Ok(()) => Ok(out.into_inner()),
        Err(RunFault::Input(fault)) => Err(file_fault(fault)),
        Err(RunFault::Schedule(fault)) => Err(schedule_fault(fault)),
        Err(RunFault::Memory) | Err(RunFault::Output) => Err(MEMORY),
    }
}
