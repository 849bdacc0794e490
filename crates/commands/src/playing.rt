//! `stm world`: the bytes of a file and of a schedule in, the text of its world and a status out.

ghost use Rattle.std.specs.Prelude.{◌≡◌, ◌+◌, true, None};
ghost use Rattle.run_interface.specs.Counts.{FewFailed};
ghost use Rattle.commands.specs.Files.{failed_calls};
ghost use Rattle.commands.specs.Playing.{Played, PlayedFiles};

use crate::reading::{both_opened, with_schedule};
use command_line::{Answer, Source};
use run_interface::Sink;
use std::alloc::Global;
use std::io::Read;
use std::rt::Files;
use world_runner::world_bytes;

/// Plays the schedule of the file at these paths, and writes the text of the world that it leads to
/// to the sink. Both are read before either is judged.
#[inline(never)]
pub fn play_files<R: Files + AllocGlobal, S: Sink>(
    rt: &R,
    file: &str,
    schedule: &str,
    sink: &mut S,
) -> Answer
    requires { FewFailed (S.failed sink.old) }
    ensures played { PlayedFiles None None (S.bytes sink.old) (S.bytes sink.new) result }
    ensures flushed { result ≡ Answer.Done → S.flushed sink.new ≡ true }
    ensures failures { S.failed sink.new ≡ S.failed sink.old + failed_calls result }
{
    match both_opened(rt, file, schedule, Source::Schedule) {
        Ok((file, schedule)) => play_inputs(rt.alloc(), file, schedule, sink),
        Err(answer) => answer,
    }
}

/// Plays the schedule that a reader has of the file that another one has.
pub fn play_inputs<I: Read + Drop, J: Read + Drop, S: Sink>(
    alloc: Global,
    file: I,
    schedule: J,
    sink: &mut S,
) -> Answer
    requires { FewFailed (S.failed sink.old) }
    ensures played { PlayedFiles (I.remaining file) (J.remaining schedule) (S.bytes sink.old)
        (S.bytes sink.new) result }
    ensures flushed { result ≡ Answer.Done → S.flushed sink.new ≡ true }
    ensures failures { S.failed sink.new ≡ S.failed sink.old + failed_calls result }
{
    match with_schedule(alloc, file, schedule) {
        Ok((file, schedule)) => answered(alloc, file.as_slice(), schedule.as_slice(), sink),
        Err(answer) => answer,
    }
}

/// Plays the schedule of these bytes of the file of these.
fn answered<S: Sink>(alloc: Global, file: &[u8], schedule: &[u8], sink: &mut S) -> Answer
    requires { FewFailed (S.failed sink.old) }
    ensures played { Played file.now schedule.now (S.bytes sink.old) (S.bytes sink.new) result }
    ensures flushed { result ≡ Answer.Done → S.flushed sink.new ≡ true }
    ensures failures { S.failed sink.new ≡ S.failed sink.old + failed_calls result }
{
    match world_bytes(alloc, file, schedule, sink) {
        Ok(()) => Answer::Done,
        Err(fault) => Answer::Failed(fault),
    }
}
