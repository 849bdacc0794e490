//! `stm check`: the bytes of a file and of a report in, the line of a verdict and a status out.

ghost use Rattle.std.specs.Prelude.{◌≡◌, ◌+◌, true, None};
ghost use Rattle.run_interface.specs.Counts.{FewFailed};
ghost use Rattle.commands.specs.Files.{failed_calls};
ghost use Rattle.checker.specs.Lines.{line_of};
ghost use Rattle.commands.specs.Checking.{Tells, Checked, CheckedAs, CheckedFiles, verdict_answer};

use crate::chapters::check_chapter;
use crate::reading::{both_opened, with_report};
use checker::{Verdict, check};
use command_line::{Answer, Check, Source};
use run_interface::{RunFault, Sink, put_all};
use std::alloc::Global;
use std::io::Read;
use std::rt::Files;
use txn_text::ReadFault;

/// Checks what the command line asks for.
#[inline(never)]
pub fn check_as<R: Files + AllocGlobal, S: Sink>(
    rt: &R,
    request: &Check<'_>,
    sink: &mut S,
) -> Answer
    requires { FewFailed (S.failed sink.old) }
    ensures checked { CheckedAs request.now.after (S.bytes sink.old) (S.bytes sink.new) result }
    ensures good { result ≡ Answer.Done → S.flushed sink.new ≡ true }
    ensures bad { result ≡ Answer.Unlawful → S.flushed sink.new ≡ true }
    ensures failures { S.failed sink.new ≡ S.failed sink.old + failed_calls result }
{
    match request.after {
        None => check_files(rt, request.file, request.report, sink),
        Some(earlier) => check_chapter(rt, request.file, request.report, earlier, sink),
    }
}

/// Checks the report of the file at these paths, and writes the verdict's line to the sink. Both are
/// read before either is judged.
pub fn check_files<R: Files + AllocGlobal, S: Sink>(
    rt: &R,
    file: &str,
    report: &str,
    sink: &mut S,
) -> Answer
    requires { FewFailed (S.failed sink.old) }
    ensures checked { CheckedFiles None None (S.bytes sink.old) (S.bytes sink.new) result }
    ensures good { result ≡ Answer.Done → S.flushed sink.new ≡ true }
    ensures bad { result ≡ Answer.Unlawful → S.flushed sink.new ≡ true }
    ensures failures { S.failed sink.new ≡ S.failed sink.old + failed_calls result }
{
    match both_opened(rt, file, report, Source::Report) {
        Ok((file, report)) => check_inputs(rt.alloc(), file, report, sink),
        Err(answer) => answer,
    }
}

/// Checks the report that a reader has of the file that another one has.
pub fn check_inputs<I: Read + Drop, J: Read + Drop, S: Sink>(
    alloc: Global,
    file: I,
    report: J,
    sink: &mut S,
) -> Answer
    requires { FewFailed (S.failed sink.old) }
    ensures checked { CheckedFiles (I.remaining file) (J.remaining report) (S.bytes sink.old)
        (S.bytes sink.new) result }
    ensures good { result ≡ Answer.Done → S.flushed sink.new ≡ true }
    ensures bad { result ≡ Answer.Unlawful → S.flushed sink.new ≡ true }
    ensures failures { S.failed sink.new ≡ S.failed sink.old + failed_calls result }
{
    match with_report(alloc, file, report) {
        Ok((file, report)) => check_bytes(alloc, file.as_slice(), report.as_slice(), sink),
        Err(answer) => answer,
    }
}

/// Checks the bytes of a report of a file, and writes the verdict's line to the sink.
fn check_bytes<S: Sink>(alloc: Global, file: &[u8], report: &[u8], sink: &mut S) -> Answer
    requires { FewFailed (S.failed sink.old) }
    ensures checked { Checked file.now report.now (S.bytes sink.old) (S.bytes sink.new) result }
    ensures good { result ≡ Answer.Done → S.flushed sink.new ≡ true }
    ensures bad { result ≡ Answer.Unlawful → S.flushed sink.new ≡ true }
    ensures failures { S.failed sink.new ≡ S.failed sink.old + failed_calls result }
{
    match check(alloc, file, report) {
        Ok(verdict) => tell(verdict, sink),
        Err(ReadFault::Memory) => Answer::Failed(RunFault::Memory),
        Err(kind) => Answer::Failed(RunFault::Input(kind)),
    }
}

/// Writes the verdict's line.
fn tell<S: Sink>(verdict: Verdict, sink: &mut S) -> Answer
    requires { FewFailed (S.failed sink.old) }
    ensures told { Tells (verdict_answer verdict) (line_of verdict) (S.bytes sink.old) (S.bytes sink.new) result }
    ensures good { result ≡ Answer.Done → S.flushed sink.new ≡ true }
    ensures bad { result ≡ Answer.Unlawful → S.flushed sink.new ≡ true }
    ensures failures { S.failed sink.new ≡ S.failed sink.old + failed_calls result }
{
    match put_all(sink, verdict.line().as_bytes()) {
        Ok(()) => answer_of(verdict),
        Err(_) => Answer::Failed(RunFault::Output),
    }
}

/// What comes of a verdict that was told.
pub(crate) fn answer_of(verdict: Verdict) -> Answer
    ensures { result ≡ verdict_answer verdict }
{
    match verdict {
        Verdict::Good => Answer::Done,
        Verdict::Bad(_) => Answer::Unlawful,
    }
}
