//! Every order of a file's tasks.

ghost use Rattle.std.specs.Prelude.{◌≡◌, ◌≢◌, ◌↔◌, ◌-◌, ◌⊎◌, IfErr, IfOk, pos};
ghost use Rattle.run_interface.specs.Bounds.{IsAllowed};
ghost use Rattle.explore_runner.specs.Showing.{IsFoundText, IsMoreText, IsShown};
ghost use Rattle.explore_runner.specs.Witness.{IsAnswer, IsWitness};
ghost use Rattle.stm_c.specs.Files.{IsNoEnd, IsRefused};
ghost use Rattle.stm_c.specs.Numbers.{IsFileFault};
ghost use Rattle.stm_c.specs.Rooms.{Holds, TooShort};

use crate::codes::{MEMORY, MORE, NO_END, SHORT, STATES, file_fault};
use crate::writing::{copied_as, copy};
use explore_runner::{Sight, Witnessed, explore_bytes, witness_bytes};
use run_interface::{Limit, Out, RunFault};
use std::alloc::Global;

/// Sees every order of the file's tasks, of at most so many states, and copies what is found into
/// the room: 0, and `wanted` is how long it is. 9: more states are reached, and the text says so. -1
/// to -7: the file is refused, or out of memory. -8: the room is too short, and `wanted` is how
/// much is needed. -16: the number of states is not from 1 to 16777216.
#[unsafe(no_mangle)]
pub extern "C" fn stm_explore(
    alloc: Global,
    file: &[u8],
    states: u32,
    room: &mut [u8],
    wanted: &mut usize,
) -> i32
    ensures whole { result ≡ pos 0 → Holds (IsFoundText file.now) room.old room.new wanted.new }
    ensures more { result ≡ pos 9 → Holds (IsMoreText file.now states) room.old room.new wanted.new }
    ensures too_short { result ≡ SHORT → TooShort
        (λ text. IsFoundText file.now text ⊎ IsMoreText file.now states text) room.old room.new wanted.new }
    ensures states { result ≡ STATES ↔ ¬ (IsAllowed states) }
    ensures refused { IsFileFault result → IsRefused file.now result }
    ensures answers { (result ≡ pos 0) ⊎ (result ≡ pos 9) ⊎ (result ≡ SHORT) ⊎ (result ≡ STATES) ⊎ IsFileFault result }
    ensures none { result ≢ pos 0 → result ≢ pos 9 → result ≢ SHORT → wanted.new ≡ 0 }
    ensures kept { result ≢ pos 0 → result ≢ pos 9 → room.new ≡ room.old }
{
    *wanted = 0;
    let Some(limit) = Limit::new(states) else {
        return STATES;
    };
    match found(alloc, file, limit) {
        Ok((Sight::Whole, text)) => copy(text.as_slice(), room, wanted),
        Ok((Sight::More, text)) => copied_as(MORE, text.as_slice(), room, wanted),
        Err(code) => code,
    }
}

/// The bytes of what is found; else why there are none.
#[tactic(auto, using(crate::proofs::Written::shown_in))]
fn found(alloc: Global, file: &[u8], limit: Limit) -> Result<(Sight, Vec<u8>), i32>
    ensures found { IfOk result (λ s. IsShown file.now limit s.0 s.1.items) }
    ensures none { IfErr result IsFileFault }
    ensures refused { IfErr result (IsRefused file.now) }
{
    let mut out = Out::new(Vec::new(alloc));
    match explore_bytes(alloc, file, limit, &mut out) {
        Ok(sight) => Ok((sight, out.into_inner())),
        Err(RunFault::Input(fault)) => Err(file_fault(fault)),
        Err(_) => Err(MEMORY),
    }
}

/// Copies the report of a run that comes to the end of this number, counted from 1 as
/// `stm_explore` lists them, by as few turns as any order has to it. As `stm_explore`; 10: there is
/// no end of that number, and `wanted` is 0.
#[unsafe(no_mangle)]
pub extern "C" fn stm_explore_to(
    alloc: Global,
    file: &[u8],
    states: u32,
    end: usize,
    room: &mut [u8],
    wanted: &mut usize,
) -> i32
    ensures report { result ≡ pos 0 → Holds (IsWitness file.now (end - 1)) room.old room.new wanted.new }
    ensures more { result ≡ pos 9 → Holds (IsMoreText file.now states) room.old room.new wanted.new }
    ensures no_end { result ≡ pos 10 → IsNoEnd file.now end }
    ensures too_short { result ≡ SHORT → TooShort
        (λ text. IsWitness file.now (end - 1) text ⊎ IsMoreText file.now states text) room.old room.new wanted.new }
    ensures states { result ≡ STATES ↔ ¬ (IsAllowed states) }
    ensures refused { IsFileFault result → IsRefused file.now result }
    ensures answers { (result ≡ pos 0) ⊎ (result ≡ pos 9) ⊎ (result ≡ pos 10) ⊎ (result ≡ SHORT) ⊎ (result ≡ STATES)
        ⊎ IsFileFault result }
    ensures none { result ≢ pos 0 → result ≢ pos 9 → result ≢ SHORT → wanted.new ≡ 0 }
    ensures kept { result ≢ pos 0 → result ≢ pos 9 → room.new ≡ room.old }
{
    *wanted = 0;
    let Some(limit) = Limit::new(states) else {
        return STATES;
    };
    if end == 0 {
        return NO_END;
    }
    match way(alloc, file, limit, end - 1) {
        Ok((Witnessed::Report, text)) => copy(text.as_slice(), room, wanted),
        Ok((Witnessed::Beyond, text)) => copied_as(MORE, text.as_slice(), room, wanted),
        Ok((Witnessed::NoEnd, _)) => NO_END,
        Err(code) => code,
    }
}

/// The bytes of the report to the end of this number, counted from 0; else why there are none.
#[tactic(auto, using(crate::proofs::Written::answer_in))]
fn way(alloc: Global, file: &[u8], limit: Limit, end: usize) -> Result<(Witnessed, Vec<u8>), i32>
    ensures found { IfOk result (λ s. IsAnswer file.now limit end s.0 s.1.items) }
    ensures none { IfErr result IsFileFault }
    ensures refused { IfErr result (IsRefused file.now) }
{
    let mut out = Out::new(Vec::new(alloc));
    match witness_bytes(alloc, file, limit, end, &mut out) {
        Ok(answer) => Ok((answer, out.into_inner())),
        Err(RunFault::Input(fault)) => Err(file_fault(fault)),
        Err(_) => Err(MEMORY),
    }
}
