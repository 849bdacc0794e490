//! `stm print`: the bytes of a file in, or of a file and of a report, the canonical text of a file
//! and a status out.

ghost use Rattle.std.specs.Prelude.{◌≡◌, ◌+◌, true, None};
ghost use Rattle.run_interface.specs.Counts.{FewFailed};
ghost use Rattle.commands.specs.Files.{failed_calls};
ghost use Rattle.commands.specs.Printing.{PrintedAs, PrintedBytes, PrintedFile, PrintedOnBytes, PrintedOnFiles};

use crate::checking::answer_of;
use crate::reading::{both_opened, file_bytes_of, opened, with_report};
use command_line::{Answer, Print, Printed, Source};
use file_chains::{Next, print_bytes, print_on_bytes};
use run_interface::Sink;
use std::alloc::Global;
use std::io::Read;
use std::rt::Files;

/// Prints what the command line asks for.
#[inline(never)]
pub fn print_as<R: Files + AllocGlobal, S: Sink>(
    rt: &R,
    request: &Print<'_>,
    sink: &mut S,
) -> Answer
    requires { FewFailed (S.failed sink.old) }
    ensures printed { PrintedAs request.now.what (S.bytes sink.old) (S.bytes sink.new) result }
    ensures done { result ≡ Answer.Done → S.flushed sink.new ≡ true }
    ensures failures { S.failed sink.new ≡ S.failed sink.old + failed_calls result }
{
    match request.what {
        Printed::File => print_file_at(rt, request.file, sink),
        Printed::From(report) => print_on_files(rt, request.file, report, Next::Again, sink),
        Printed::After(report) => print_on_files(rt, request.file, report, Next::Chapter, sink),
    }
}

/// Writes the canonical text of the file at the path to the sink.
pub fn print_file_at<R: Files + AllocGlobal, S: Sink>(rt: &R, path: &str, sink: &mut S) -> Answer
    requires { FewFailed (S.failed sink.old) }
    ensures printed { PrintedFile None (S.bytes sink.old) (S.bytes sink.new) result }
    ensures flushed { result ≡ Answer.Done → S.flushed sink.new ≡ true }
    ensures failures { S.failed sink.new ≡ S.failed sink.old + failed_calls result }
{
    match opened(rt, path) {
        Ok(file) => print_input(rt.alloc(), file, sink),
        Err(answer) => answer,
    }
}

/// Writes the canonical text of the file that a reader has to the sink.
pub fn print_input<I: Read + Drop, S: Sink>(alloc: Global, input: I, sink: &mut S) -> Answer
    requires { FewFailed (S.failed sink.old) }
    ensures printed { PrintedFile (I.remaining input) (S.bytes sink.old) (S.bytes sink.new) result }
    ensures flushed { result ≡ Answer.Done → S.flushed sink.new ≡ true }
    ensures failures { S.failed sink.new ≡ S.failed sink.old + failed_calls result }
{
    match file_bytes_of(alloc, input) {
        Ok(bytes) => printed(alloc, bytes.as_slice(), sink),
        Err(answer) => answer,
    }
}

/// Writes the canonical text of the file of these bytes to the sink.
fn printed<S: Sink>(alloc: Global, bytes: &[u8], sink: &mut S) -> Answer
    requires { FewFailed (S.failed sink.old) }
    ensures printed { PrintedBytes bytes.now (S.bytes sink.old) (S.bytes sink.new) result }
    ensures flushed { result ≡ Answer.Done → S.flushed sink.new ≡ true }
    ensures failures { S.failed sink.new ≡ S.failed sink.old + failed_calls result }
{
    match print_bytes(alloc, bytes, sink) {
        Ok(()) => Answer::Done,
        Err(fault) => Answer::Failed(fault),
    }
}

/// Writes the canonical text of the file with which work goes on where a report of a file ended to the
/// sink, or the verdict on a report that is not lawful. Both are read before either is judged.
pub fn print_on_files<R: Files + AllocGlobal, S: Sink>(
    rt: &R,
    file: &str,
    report: &str,
    next: Next,
    sink: &mut S,
) -> Answer
    requires { FewFailed (S.failed sink.old) }
    ensures printed { PrintedOnFiles next None None (S.bytes sink.old) (S.bytes sink.new) result }
    ensures done { result ≡ Answer.Done → S.flushed sink.new ≡ true }
    ensures bad { result ≡ Answer.Unlawful → S.flushed sink.new ≡ true }
    ensures failures { S.failed sink.new ≡ S.failed sink.old + failed_calls result }
{
    match both_opened(rt, file, report, Source::Report) {
        Ok((file, report)) => print_on_inputs(rt.alloc(), file, report, next, sink),
        Err(answer) => answer,
    }
}

/// The same of the file that a reader has, and of the report that another one has.
pub fn print_on_inputs<I: Read + Drop, J: Read + Drop, S: Sink>(
    alloc: Global,
    file: I,
    report: J,
    next: Next,
    sink: &mut S,
) -> Answer
    requires { FewFailed (S.failed sink.old) }
    ensures printed { PrintedOnFiles next (I.remaining file) (J.remaining report) (S.bytes sink.old)
        (S.bytes sink.new) result }
    ensures done { result ≡ Answer.Done → S.flushed sink.new ≡ true }
    ensures bad { result ≡ Answer.Unlawful → S.flushed sink.new ≡ true }
    ensures failures { S.failed sink.new ≡ S.failed sink.old + failed_calls result }
{
    match with_report(alloc, file, report) {
        Ok((file, report)) => printed_on(alloc, file.as_slice(), report.as_slice(), next, sink),
        Err(answer) => answer,
    }
}

/// The same of the bytes of both.
fn printed_on<S: Sink>(
    alloc: Global,
    file: &[u8],
    report: &[u8],
    next: Next,
    sink: &mut S,
) -> Answer
    requires { FewFailed (S.failed sink.old) }
    ensures printed { PrintedOnBytes next file.now report.now (S.bytes sink.old) (S.bytes sink.new) result }
    ensures done { result ≡ Answer.Done → S.flushed sink.new ≡ true }
    ensures bad { result ≡ Answer.Unlawful → S.flushed sink.new ≡ true }
    ensures failures { S.failed sink.new ≡ S.failed sink.old + failed_calls result }
{
    match print_on_bytes(alloc, file, report, next, sink) {
        Ok(verdict) => answer_of(verdict),
        Err(fault) => Answer::Failed(fault),
    }
}
