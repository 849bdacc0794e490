//! `stm explain`: the bytes of a file in, or of a file and of a report or a schedule, and out where and
//! why the file or the schedule is refused, or what of the report does not hold, with a status.

ghost use Rattle.std.specs.Prelude.{◌≡◌, ◌+◌, true, None};
ghost use Rattle.run_interface.specs.Counts.{FewFailed};
ghost use Rattle.commands.specs.Files.{failed_calls};
ghost use Rattle.commands.specs.Explaining.{ExplainedAs, ExplainedBytes, ExplainedFile, ExplainedMoves};
ghost use Rattle.commands.specs.Explaining.{ExplainedOnBytes, ExplainedOnFiles, ExplainedSchedule};

use crate::chapters::explain_chapter_at;
use crate::checking::answer_of;
use crate::reading::{both_opened, file_bytes_of, opened, with_report, with_schedule};
use command_line::{Answer, Explain, Explained, Source};
use explain_files::{Judgement, explain_bytes};
use run_interface::{RunFault, Sink};
use std::alloc::Global;
use std::io::Read;
use std::rt::Files;

/// Explains what the command line asks for.
#[inline(never)]
pub fn explain_as<R: Files + AllocGlobal, S: Sink>(
    rt: &R,
    request: &Explain<'_>,
    sink: &mut S,
) -> Answer
    requires { FewFailed (S.failed sink.old) }
    ensures explained { ExplainedAs request.now.what (S.bytes sink.old) (S.bytes sink.new) result }
    ensures done { result ≡ Answer.Done → S.flushed sink.new ≡ true }
    ensures failures { S.failed sink.new ≡ S.failed sink.old + failed_calls result }
{
    match request.what {
        Explained::File => explain_file_at(rt, request.file, sink),
        Explained::Report(report) => explain_report_at(rt, request.file, report, sink),
        Explained::Chapter(report, earlier) => {
            explain_chapter_at(rt, request.file, report, earlier, sink)
        }
        Explained::Schedule(schedule) => explain_schedule_at(rt, request.file, schedule, sink),
    }
}

/// Writes to the sink that the file at the path is read, or where and why it is refused. A file that is
/// refused is answered as it is where it is run, with what was written beside.
fn explain_file_at<R: Files + AllocGlobal, S: Sink>(rt: &R, path: &str, sink: &mut S) -> Answer
    requires { FewFailed (S.failed sink.old) }
    ensures explained { ExplainedFile None (S.bytes sink.old) (S.bytes sink.new) result }
    ensures flushed { result ≡ Answer.Done → S.flushed sink.new ≡ true }
    ensures failures { S.failed sink.new ≡ S.failed sink.old + failed_calls result }
{
    match opened(rt, path) {
        Ok(file) => explain_input(rt.alloc(), file, sink),
        Err(answer) => answer,
    }
}

/// The same of the file that a reader has.
pub fn explain_input<I: Read + Drop, S: Sink>(alloc: Global, input: I, sink: &mut S) -> Answer
    requires { FewFailed (S.failed sink.old) }
    ensures explained { ExplainedFile (I.remaining input) (S.bytes sink.old) (S.bytes sink.new) result }
    ensures flushed { result ≡ Answer.Done → S.flushed sink.new ≡ true }
    ensures failures { S.failed sink.new ≡ S.failed sink.old + failed_calls result }
{
    match file_bytes_of(alloc, input) {
        Ok(bytes) => explained(alloc, bytes.as_slice(), sink),
        Err(answer) => answer,
    }
}

/// The same of the file of these bytes.
fn explained<S: Sink>(alloc: Global, bytes: &[u8], sink: &mut S) -> Answer
    requires { FewFailed (S.failed sink.old) }
    ensures explained { ExplainedBytes bytes.now (S.bytes sink.old) (S.bytes sink.new) result }
    ensures flushed { result ≡ Answer.Done → S.flushed sink.new ≡ true }
    ensures failures { S.failed sink.new ≡ S.failed sink.old + failed_calls result }
{
    match explain_bytes(alloc, bytes, sink) {
        Ok(Judgement::Good) => Answer::Done,
        Ok(Judgement::Refused(kind)) => Answer::Failed(RunFault::Input(kind)),
        Err(fault) => Answer::Failed(fault),
    }
}

/// Writes to the sink what the checker says of the report, and the first line on which it shows.
/// Both are read before either is judged; where the file is refused nothing is written.
fn explain_report_at<R: Files + AllocGlobal, S: Sink>(
    rt: &R,
    file: &str,
    report: &str,
    sink: &mut S,
) -> Answer
    requires { FewFailed (S.failed sink.old) }
    ensures explained { ExplainedOnFiles None None (S.bytes sink.old) (S.bytes sink.new) result }
    ensures done { result ≡ Answer.Done → S.flushed sink.new ≡ true }
    ensures bad { result ≡ Answer.Unlawful → S.flushed sink.new ≡ true }
    ensures failures { S.failed sink.new ≡ S.failed sink.old + failed_calls result }
{
    match both_opened(rt, file, report, Source::Report) {
        Ok((file, report)) => explain_on_inputs(rt.alloc(), file, report, sink),
        Err(answer) => answer,
    }
}

/// The same of the file that a reader has, and of the report that another one has.
pub fn explain_on_inputs<I: Read + Drop, J: Read + Drop, S: Sink>(
    alloc: Global,
    file: I,
    report: J,
    sink: &mut S,
) -> Answer
    requires { FewFailed (S.failed sink.old) }
    ensures explained { ExplainedOnFiles (I.remaining file) (J.remaining report) (S.bytes sink.old)
        (S.bytes sink.new) result }
    ensures done { result ≡ Answer.Done → S.flushed sink.new ≡ true }
    ensures bad { result ≡ Answer.Unlawful → S.flushed sink.new ≡ true }
    ensures failures { S.failed sink.new ≡ S.failed sink.old + failed_calls result }
{
    match with_report(alloc, file, report) {
        Ok((file, report)) => explained_on(alloc, file.as_slice(), report.as_slice(), sink),
        Err(answer) => answer,
    }
}

/// The same of the bytes of both.
fn explained_on<S: Sink>(alloc: Global, file: &[u8], report: &[u8], sink: &mut S) -> Answer
    requires { FewFailed (S.failed sink.old) }
    ensures explained { ExplainedOnBytes file.now report.now (S.bytes sink.old) (S.bytes sink.new) result }
    ensures done { result ≡ Answer.Done → S.flushed sink.new ≡ true }
    ensures bad { result ≡ Answer.Unlawful → S.flushed sink.new ≡ true }
    ensures failures { S.failed sink.new ≡ S.failed sink.old + failed_calls result }
{
    match explain_reports::explain_bytes(alloc, file, report, sink) {
        Ok(verdict) => answer_of(verdict),
        Err(fault) => Answer::Failed(fault),
    }
}

/// Writes to the sink that the schedule is read, or where and why it is refused. A schedule that is
/// refused is answered as it is where it is played, with what was written beside. Both are read before
/// either is judged; where the file is refused nothing is written.
fn explain_schedule_at<R: Files + AllocGlobal, S: Sink>(
    rt: &R,
    file: &str,
    schedule: &str,
    sink: &mut S,
) -> Answer
    requires { FewFailed (S.failed sink.old) }
    ensures explained { ExplainedSchedule None None (S.bytes sink.old) (S.bytes sink.new) result }
    ensures flushed { result ≡ Answer.Done → S.flushed sink.new ≡ true }
    ensures failures { S.failed sink.new ≡ S.failed sink.old + failed_calls result }
{
    match both_opened(rt, file, schedule, Source::Schedule) {
        Ok((file, schedule)) => explain_schedule_inputs(rt.alloc(), file, schedule, sink),
        Err(answer) => answer,
    }
}

/// The same of the file that a reader has, and of the schedule that another one has.
pub fn explain_schedule_inputs<I: Read + Drop, J: Read + Drop, S: Sink>(
    alloc: Global,
    file: I,
    schedule: J,
    sink: &mut S,
) -> Answer
    requires { FewFailed (S.failed sink.old) }
    ensures explained { ExplainedSchedule (I.remaining file) (J.remaining schedule) (S.bytes sink.old)
        (S.bytes sink.new) result }
    ensures flushed { result ≡ Answer.Done → S.flushed sink.new ≡ true }
    ensures failures { S.failed sink.new ≡ S.failed sink.old + failed_calls result }
{
    match with_schedule(alloc, file, schedule) {
        Ok((file, schedule)) => explained_moves(alloc, file.as_slice(), schedule.as_slice(), sink),
        Err(answer) => answer,
    }
}

/// The same of the bytes of both.
fn explained_moves<S: Sink>(alloc: Global, file: &[u8], schedule: &[u8], sink: &mut S) -> Answer
    requires { FewFailed (S.failed sink.old) }
    ensures explained { ExplainedMoves file.now schedule.now (S.bytes sink.old) (S.bytes sink.new) result }
    ensures flushed { result ≡ Answer.Done → S.flushed sink.new ≡ true }
    ensures failures { S.failed sink.new ≡ S.failed sink.old + failed_calls result }
{
    match explain_schedules::explain_bytes(alloc, file, schedule, sink) {
        Ok(Judgement::Good) => Answer::Done,
        Ok(Judgement::Refused(kind)) => Answer::Failed(RunFault::Schedule(kind)),
        Err(fault) => Answer::Failed(fault),
    }
}
