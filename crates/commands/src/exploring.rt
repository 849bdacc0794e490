//! `stm explore`: the bytes of a file in, the text of what is found of all orders and a status out.

ghost use Rattle.std.specs.Prelude.{◌≡◌, ◌+◌, true, None};
ghost use Rattle.run_interface.specs.Counts.{FewFailed};
ghost use Rattle.commands.specs.Files.{failed_calls};
ghost use Rattle.commands.specs.Exploring.{ExploredBytes, ExploredFile, WitnessedBytes, WitnessedFile};

use crate::reading::{file_bytes_of, opened};
use command_line::Answer;
use explore_runner::{Judged, Witnessed, judge_bytes, witness_bytes};
use run_interface::{Denials, Limit, Sink};
use std::io::Read;
use std::rt::Files;

/// Sees every order of the tasks of the file at the path, and writes what is found to the sink. Where some
/// order comes to what is denied, the standard error is told.
pub fn explore_file<R: Files + Eprint + AllocGlobal, S: Sink>(
    rt: &R,
    path: &str,
    limit: Limit,
    denied: Denials,
    sink: &mut S,
) -> Answer
    requires { FewFailed (S.failed sink.old) }
    ensures explored { ExploredFile None limit denied (S.bytes sink.old) (S.bytes sink.new) result }
    ensures whole { result ≡ Answer.Done → S.flushed sink.new ≡ true }
    ensures more { result ≡ Answer.Unlawful → S.flushed sink.new ≡ true }
    ensures failures { S.failed sink.new ≡ S.failed sink.old + failed_calls result }
{
    match opened(rt, path) {
        Ok(file) => explore_input(rt, file, limit, denied, sink),
        Err(answer) => answer,
    }
}

/// Sees every order of the tasks of the file that a reader has, and writes what is found to the sink. Where some
/// order comes to what is denied, the standard error is told.
pub fn explore_input<R: Eprint + AllocGlobal, I: Read + Drop, S: Sink>(
    rt: &R,
    input: I,
    limit: Limit,
    denied: Denials,
    sink: &mut S,
) -> Answer
    requires { FewFailed (S.failed sink.old) }
    ensures explored { ExploredFile (I.remaining input) limit denied (S.bytes sink.old) (S.bytes sink.new) result }
    ensures whole { result ≡ Answer.Done → S.flushed sink.new ≡ true }
    ensures more { result ≡ Answer.Unlawful → S.flushed sink.new ≡ true }
    ensures failures { S.failed sink.new ≡ S.failed sink.old + failed_calls result }
{
    let alloc = rt.alloc();
    match file_bytes_of(alloc, input) {
        Ok(bytes) => explored(rt, bytes.as_slice(), limit, denied, sink),
        Err(answer) => answer,
    }
}

/// The same of the file of these bytes.
fn explored<R: Eprint + AllocGlobal, S: Sink>(
    rt: &R,
    bytes: &[u8],
    limit: Limit,
    denied: Denials,
    sink: &mut S,
) -> Answer
    requires { FewFailed (S.failed sink.old) }
    ensures explored { ExploredBytes limit denied bytes.now (S.bytes sink.old) (S.bytes sink.new) result }
    ensures whole { result ≡ Answer.Done → S.flushed sink.new ≡ true }
    ensures more { result ≡ Answer.Unlawful → S.flushed sink.new ≡ true }
    ensures failures { S.failed sink.new ≡ S.failed sink.old + failed_calls result }
{
    match judge_bytes(rt.alloc(), bytes, limit, denied, sink) {
        Ok(Judged::Clear) => Answer::Done,
        Ok(Judged::More) => Answer::Unlawful,
        Ok(Judged::Denied(line)) => said(rt, &line),
        Err(fault) => Answer::Failed(fault),
    }
}

/// Says what is denied that some order comes to.
fn said<R: Eprint>(rt: &R, line: &str) -> Answer
    ensures { result ≡ Answer.Unlawful }
{
    // The status says it too, where the standard error does not take the words.
    let _unheard = rt.eprintln(line);
    Answer::Unlawful
}

/// Sees every order of the tasks of the file at the path, and writes to the sink the report of a run
/// that comes to the end of this number, counted from 0.
pub fn witness_file<R: Files + Eprint + AllocGlobal, S: Sink>(
    rt: &R,
    path: &str,
    limit: Limit,
    end: usize,
    sink: &mut S,
) -> Answer
    requires { FewFailed (S.failed sink.old) }
    ensures witnessed { WitnessedFile None limit end (S.bytes sink.old) (S.bytes sink.new) result }
    ensures report { result ≡ Answer.Done → S.flushed sink.new ≡ true }
    ensures more { result ≡ Answer.Unlawful → S.flushed sink.new ≡ true }
    ensures failures { S.failed sink.new ≡ S.failed sink.old + failed_calls result }
{
    match opened(rt, path) {
        Ok(file) => witness_input(rt, file, limit, end, sink),
        Err(answer) => answer,
    }
}

/// The same of the file that a reader has.
pub fn witness_input<R: Eprint + AllocGlobal, I: Read + Drop, S: Sink>(
    rt: &R,
    input: I,
    limit: Limit,
    end: usize,
    sink: &mut S,
) -> Answer
    requires { FewFailed (S.failed sink.old) }
    ensures witnessed { WitnessedFile (I.remaining input) limit end (S.bytes sink.old) (S.bytes sink.new) result }
    ensures report { result ≡ Answer.Done → S.flushed sink.new ≡ true }
    ensures more { result ≡ Answer.Unlawful → S.flushed sink.new ≡ true }
    ensures failures { S.failed sink.new ≡ S.failed sink.old + failed_calls result }
{
    match file_bytes_of(rt.alloc(), input) {
        Ok(bytes) => witnessed(rt, bytes.as_slice(), limit, end, sink),
        Err(answer) => answer,
    }
}

/// The same of the file of these bytes.
fn witnessed<R: Eprint + AllocGlobal, S: Sink>(
    rt: &R,
    bytes: &[u8],
    limit: Limit,
    end: usize,
    sink: &mut S,
) -> Answer
    requires { FewFailed (S.failed sink.old) }
    ensures witnessed { WitnessedBytes limit end bytes.now (S.bytes sink.old) (S.bytes sink.new) result }
    ensures report { result ≡ Answer.Done → S.flushed sink.new ≡ true }
    ensures more { result ≡ Answer.Unlawful → S.flushed sink.new ≡ true }
    ensures failures { S.failed sink.new ≡ S.failed sink.old + failed_calls result }
{
    match witness_bytes(rt.alloc(), bytes, limit, end, sink) {
        Ok(Witnessed::Report) => Answer::Done,
        Ok(Witnessed::Beyond) => Answer::Unlawful,
        Ok(Witnessed::NoEnd) => no_such_end(rt),
        Err(fault) => Answer::Failed(fault),
    }
}

/// Says that there is no end of the number that was asked for.
fn no_such_end<R: Eprint>(rt: &R) -> Answer
    ensures { result ≡ Answer.Refused }
{
    // The status says it too, where the standard error does not take the words.
    let _unheard = rt.eprintln("stm: there is no such end");
    Answer::Refused
}
