//! `stm explore --dot`: the bytes of a file in, the text of the graph of all orders and a status out.

ghost use Rattle.std.specs.Prelude.{◌≡◌, ◌+◌, true, None};
ghost use Rattle.run_interface.specs.Counts.{FewFailed};
ghost use Rattle.commands.specs.Files.{failed_calls};
ghost use Rattle.commands.specs.Graphing.{DrawnBytes, DrawnFile};

use crate::reading::{file_bytes_of, opened};
use command_line::Answer;
use explore_runner::{Sight, graph_bytes};
use run_interface::{Limit, Sink};
use std::alloc::Global;
use std::io::Read;
use std::rt::Files;

/// Sees every order of the tasks of the file at the path, and writes their graph to the sink.
pub fn graph_file<R: Files + AllocGlobal, S: Sink>(
    rt: &R,
    path: &str,
    limit: Limit,
    sink: &mut S,
) -> Answer
    requires { FewFailed (S.failed sink.old) }
    ensures drawn { DrawnFile None limit (S.bytes sink.old) (S.bytes sink.new) result }
    ensures whole { result ≡ Answer.Done → S.flushed sink.new ≡ true }
    ensures more { result ≡ Answer.Unlawful → S.flushed sink.new ≡ true }
    ensures failures { S.failed sink.new ≡ S.failed sink.old + failed_calls result }
{
    match opened(rt, path) {
        Ok(file) => graph_input(rt.alloc(), file, limit, sink),
        Err(answer) => answer,
    }
}

/// Sees every order of the tasks of the file that a reader has, and writes their graph to the sink.
pub fn graph_input<I: Read + Drop, S: Sink>(
    alloc: Global,
    input: I,
    limit: Limit,
    sink: &mut S,
) -> Answer
    requires { FewFailed (S.failed sink.old) }
    ensures drawn { DrawnFile (I.remaining input) limit (S.bytes sink.old) (S.bytes sink.new) result }
    ensures whole { result ≡ Answer.Done → S.flushed sink.new ≡ true }
    ensures more { result ≡ Answer.Unlawful → S.flushed sink.new ≡ true }
    ensures failures { S.failed sink.new ≡ S.failed sink.old + failed_calls result }
{
    match file_bytes_of(alloc, input) {
        Ok(bytes) => drawn(alloc, bytes.as_slice(), limit, sink),
        Err(answer) => answer,
    }
}

/// The same of the file of these bytes.
fn drawn<S: Sink>(alloc: Global, bytes: &[u8], limit: Limit, sink: &mut S) -> Answer
    requires { FewFailed (S.failed sink.old) }
    ensures drawn { DrawnBytes limit bytes.now (S.bytes sink.old) (S.bytes sink.new) result }
    ensures whole { result ≡ Answer.Done → S.flushed sink.new ≡ true }
    ensures more { result ≡ Answer.Unlawful → S.flushed sink.new ≡ true }
    ensures failures { S.failed sink.new ≡ S.failed sink.old + failed_calls result }
{
    match graph_bytes(alloc, bytes, limit, sink) {
        Ok(Sight::Whole) => Answer::Done,
        Ok(Sight::More) => Answer::Unlawful,
        Err(fault) => Answer::Failed(fault),
    }
}
