//! From the bytes of a file and of a schedule to the bytes of what is seen.

ghost use Rattle.std.specs.Prelude.{◌≡◌, ◌+◌, ℕ, List, true, IfOk, OnOk, IfErr, string_bytes};
ghost use Rattle.txn_text.specs.Spelling.{Spells};
ghost use Rattle.run_interface.specs.Counts.{FewFailed};
ghost use Rattle.run_interface.specs.Failures.{output_failures};
ghost use Rattle.world_runner.specs.Showing.{IsShowing, IsRefused, Showed};

use crate::lines::played;
use run_interface::{RunFault, Sink, put_text};
use std::alloc::Global;
use text_line_reader::read_schedule;
use txn::Catalogue;
use txn_text::{ReadFault, read_file};

/// Plays the schedule that the second bytes are the text of, on the world of the file that the
/// first bytes spell, and writes what is seen to the sink: a line for each line of the schedule, and
/// then the last lines of the world.
///
/// `Ok`: exactly one such text was written, and then flushed. `Input`: the bytes spell no file, and
/// this is the first kind of fault that they have; nothing was written. `Schedule`: they spell one,
/// and this is the first kind of fault that the schedule has; nothing was written. `Memory`: a
/// growth was refused; nothing was written. `Output`: a call of the sink failed, the only one, and a
/// beginning of one such text was written.
pub fn world_bytes<S: Sink>(
    alloc: Global,
    file: &[u8],
    schedule: &[u8],
    sink: &mut S,
) -> Result<(), RunFault>
    requires { FewFailed (S.failed sink.old) }
    ensures showed { Showed file.now schedule.now (S.bytes sink.old) (S.bytes sink.new) result }
    ensures flushed { OnOk result (S.flushed sink.new ≡ true) }
    ensures failures { S.failed sink.new ≡ S.failed sink.old + output_failures result }
{
    let text = shown(alloc, file, schedule)?;
    put_text(sink, &text)
}

/// What is seen of the schedule on the world of the file.
fn shown(alloc: Global, file: &[u8], schedule: &[u8]) -> Result<String, RunFault>
    ensures shown { IfOk result (λ text. IsShowing file.now schedule.now (string_bytes text)) }
    ensures refused { IfErr result (IsRefused file.now schedule.now) }
{
    match read_file(alloc, file) {
        Ok(catalogue) => shown_of(alloc, &catalogue, schedule),
        Err(ReadFault::Memory) => Err(RunFault::Memory),
        Err(kind) => Err(RunFault::Input(kind)),
    }
}

/// What is seen of the schedule on the world of the catalogue, which is that of each file that spells
/// it.
fn shown_of(alloc: Global, catalogue: &Catalogue, schedule: &[u8]) -> Result<String, RunFault>
    ensures shown { IfOk result
        (λ text. (file : List ℕ) → Spells file catalogue.now → IsShowing file schedule.now (string_bytes text)) }
    ensures refused { IfErr result
        (λ fault. (file : List ℕ) → Spells file catalogue.now → IsRefused file schedule.now fault) }
{
    match read_schedule(alloc, schedule, catalogue) {
        Ok(moves) => match played(alloc, catalogue, &moves) {
            Ok(text) => Ok(text),
            Err(_) => Err(RunFault::Memory),
        },
        Err(ReadFault::Memory) => Err(RunFault::Memory),
        Err(kind) => Err(RunFault::Schedule(kind)),
    }
}
