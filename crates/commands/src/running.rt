//! `stm run`: the bytes of a file in, its report and a status out.

ghost use Rattle.std.specs.Prelude.{◌≡◌, ◌+◌, true, None};
ghost use Rattle.run_interface.specs.Counts.{FewFailed};
ghost use Rattle.commands.specs.Files.{RanBytes, RanFile, failed_calls};

use crate::reading::{file_bytes_of, opened};
use command_line::Answer;
use run_interface::{Options, Sink};
use runner::{Gate, run_bytes};
use std::alloc::Global;
use std::io::Read;
use std::rt::Files;
use std::sync::Wait;
use std::thread::Threads;

/// Runs the file at the path with these options, and writes its report to the sink.
#[inline(never)]
pub(crate) fn run_file<T: Threads + Wait + Sync, R: Files + AllocGlobal, G: Gate, S: Sink>(
    threads: &T,
    rt: &R,
    path: &str,
    options: Options,
    gate: &G,
    sink: &mut S,
) -> Answer
    requires { FewFailed (S.failed sink.old) }
    ensures ran { RanFile None options.checkpoint options.seed (S.bytes sink.old) (S.bytes sink.new) result }
    ensures flushed { result ≡ Answer.Done → S.flushed sink.new ≡ true }
    ensures failures { S.failed sink.new ≡ S.failed sink.old + failed_calls result }
{
    match opened(rt, path) {
        Ok(file) => run_input(threads, rt.alloc(), file, options, gate, sink),
        Err(answer) => answer,
    }
}

/// Runs the file that a reader has with these options, by workers that come by this gate, and writes
/// its report to the sink.
pub fn run_input<T: Threads + Wait + Sync, I: Read + Drop, G: Gate, S: Sink>(
    threads: &T,
    alloc: Global,
    input: I,
    options: Options,
    gate: &G,
    sink: &mut S,
) -> Answer
    requires { FewFailed (S.failed sink.old) }
    ensures ran { RanFile (I.remaining input) options.checkpoint options.seed
        (S.bytes sink.old) (S.bytes sink.new) result }
    ensures flushed { result ≡ Answer.Done → S.flushed sink.new ≡ true }
    ensures failures { S.failed sink.new ≡ S.failed sink.old + failed_calls result }
{
    match file_bytes_of(alloc, input) {
        Ok(bytes) => answered(threads, alloc, bytes.as_slice(), options, gate, sink),
        Err(answer) => answer,
    }
}

/// Runs the file of these bytes, and writes its report to the sink.
fn answered<T: Threads + Wait + Sync, G: Gate, S: Sink>(
    threads: &T,
    alloc: Global,
    bytes: &[u8],
    options: Options,
    gate: &G,
    sink: &mut S,
) -> Answer
    requires { FewFailed (S.failed sink.old) }
    ensures ran { RanBytes options.checkpoint options.seed bytes.now (S.bytes sink.old) (S.bytes sink.new) result }
    ensures flushed { result ≡ Answer.Done → S.flushed sink.new ≡ true }
    ensures failures { S.failed sink.new ≡ S.failed sink.old + failed_calls result }
{
    match run_bytes(threads, alloc, bytes, options, gate, sink) {
        Ok(()) => Answer::Done,
        Err(fault) => Answer::Failed(fault),
    }
}
