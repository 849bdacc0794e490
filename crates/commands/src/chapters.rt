//! `stm check` and `stm explain` with an earlier pair: the bytes of two files and of a report of each in,
//! the verdict on a chapter, or what is said of it, and a status out.

ghost use Rattle.std.specs.Prelude.{◌≡◌, ◌+◌, true, None};
ghost use Rattle.checker.specs.Lines.{chapter_line};
ghost use Rattle.run_interface.specs.Counts.{FewFailed};
ghost use Rattle.commands.specs.Files.{failed_calls};
ghost use Rattle.commands.specs.Checking.{Tells, CheckedAfter, CheckedChapter, chapter_answer, fault_answer};
ghost use Rattle.commands.specs.Explaining.{ExplainedAfter, ExplainedChapter};

use crate::reading::{ChapterBytes, chapter_of, chapter_opened};
use checker::{ChapterFault, ChapterVerdict, check_after};
use command_line::{Answer, Earlier};
use explain_reports::{ChapterUntold, explain_chapter_bytes};
use run_interface::{RunFault, Sink, put_all};
use std::alloc::Global;
use std::io::Read;
use std::rt::Files;

/// Checks the report of the file at these paths, and whether the file goes on where the earlier pair
/// ended, and writes the verdict's line to the sink. All four are read before one is judged.
pub fn check_chapter<R: Files + AllocGlobal, S: Sink>(
    rt: &R,
    file: &str,
    report: &str,
    earlier: Earlier<'_>,
    sink: &mut S,
) -> Answer
    requires { FewFailed (S.failed sink.old) }
    ensures checked { CheckedChapter None None None None (S.bytes sink.old) (S.bytes sink.new) result }
    ensures good { result ≡ Answer.Done → S.flushed sink.new ≡ true }
    ensures bad { result ≡ Answer.Unlawful → S.flushed sink.new ≡ true }
    ensures failures { S.failed sink.new ≡ S.failed sink.old + failed_calls result }
{
    match chapter_opened(rt, file, report, earlier) {
        Ok((pair, before)) => {
            check_chapter_inputs(rt.alloc(), pair.0, pair.1, before.0, before.1, sink)
        }
        Err(answer) => answer,
    }
}

/// The same of what readers have: the file and its report, the earlier file and its report.
pub fn check_chapter_inputs<
    I: Read + Drop,
    J: Read + Drop,
    K: Read + Drop,
    L: Read + Drop,
    S: Sink,
>(alloc: Global, file: I, report: J, earlier: K, earlier_report: L, sink: &mut S) -> Answer
    requires { FewFailed (S.failed sink.old) }
    ensures checked { CheckedChapter (I.remaining file) (J.remaining report)
        (K.remaining earlier) (L.remaining earlier_report)
        (S.bytes sink.old) (S.bytes sink.new) result }
    ensures good { result ≡ Answer.Done → S.flushed sink.new ≡ true }
    ensures bad { result ≡ Answer.Unlawful → S.flushed sink.new ≡ true }
    ensures failures { S.failed sink.new ≡ S.failed sink.old + failed_calls result }
{
    match chapter_of(alloc, file, report, earlier, earlier_report) {
        Ok(bytes) => check_chapter_bytes(alloc, &bytes, sink),
        Err(answer) => answer,
    }
}

/// The same of the bytes of all four.
fn check_chapter_bytes<S: Sink>(alloc: Global, bytes: &ChapterBytes, sink: &mut S) -> Answer
    requires { FewFailed (S.failed sink.old) }
    ensures checked { CheckedAfter bytes.now.file.items bytes.now.report.items
        bytes.now.earlier.items bytes.now.earlier_report.items
        (S.bytes sink.old) (S.bytes sink.new) result }
    ensures good { result ≡ Answer.Done → S.flushed sink.new ≡ true }
    ensures bad { result ≡ Answer.Unlawful → S.flushed sink.new ≡ true }
    ensures failures { S.failed sink.new ≡ S.failed sink.old + failed_calls result }
{
    match check_after(
        alloc,
        &bytes.file,
        &bytes.report,
        &bytes.earlier,
        &bytes.earlier_report,
    ) {
        Ok(verdict) => tell(verdict, sink),
        Err(fault) => answer_of_fault(fault),
    }
}

/// Writes the line of the verdict on a chapter.
fn tell<S: Sink>(verdict: ChapterVerdict, sink: &mut S) -> Answer
    requires { FewFailed (S.failed sink.old) }
    ensures told { Tells (chapter_answer verdict) (chapter_line verdict) (S.bytes sink.old) (S.bytes sink.new) result }
    ensures good { result ≡ Answer.Done → S.flushed sink.new ≡ true }
    ensures bad { result ≡ Answer.Unlawful → S.flushed sink.new ≡ true }
    ensures failures { S.failed sink.new ≡ S.failed sink.old + failed_calls result }
{
    match put_all(sink, verdict.line().as_bytes()) {
        Ok(()) => answer_of_chapter(verdict),
        Err(_) => Answer::Failed(RunFault::Output),
    }
}

/// What comes of a verdict on a chapter that was told.
pub(crate) fn answer_of_chapter(verdict: ChapterVerdict) -> Answer
    ensures { result ≡ chapter_answer verdict }
{
    match verdict {
        ChapterVerdict::Good => Answer::Done,
        ChapterVerdict::Bad(_) | ChapterVerdict::Before(_) | ChapterVerdict::Elsewhere => {
            Answer::Unlawful
        }
    }
}

/// Writes to the sink what the checker says of a chapter, and where it is not good the first line on which
/// it shows. All four are read before one is judged; where a file is refused nothing is written.
pub(crate) fn explain_chapter_at<R: Files + AllocGlobal, S: Sink>(
    rt: &R,
    file: &str,
    report: &str,
    earlier: Earlier<'_>,
    sink: &mut S,
) -> Answer
    requires { FewFailed (S.failed sink.old) }
    ensures explained { ExplainedChapter None None None None (S.bytes sink.old) (S.bytes sink.new) result }
    ensures done { result ≡ Answer.Done → S.flushed sink.new ≡ true }
    ensures bad { result ≡ Answer.Unlawful → S.flushed sink.new ≡ true }
    ensures failures { S.failed sink.new ≡ S.failed sink.old + failed_calls result }
{
    match chapter_opened(rt, file, report, earlier) {
        Ok((pair, before)) => {
            explain_chapter_inputs(rt.alloc(), pair.0, pair.1, before.0, before.1, sink)
        }
        Err(answer) => answer,
    }
}

/// The same of what readers have: the file and its report, the earlier file and its report.
pub fn explain_chapter_inputs<
    I: Read + Drop,
    J: Read + Drop,
    K: Read + Drop,
    L: Read + Drop,
    S: Sink,
>(alloc: Global, file: I, report: J, earlier: K, earlier_report: L, sink: &mut S) -> Answer
    requires { FewFailed (S.failed sink.old) }
    ensures explained { ExplainedChapter (I.remaining file) (J.remaining report)
        (K.remaining earlier) (L.remaining earlier_report)
        (S.bytes sink.old) (S.bytes sink.new) result }
    ensures done { result ≡ Answer.Done → S.flushed sink.new ≡ true }
    ensures bad { result ≡ Answer.Unlawful → S.flushed sink.new ≡ true }
    ensures failures { S.failed sink.new ≡ S.failed sink.old + failed_calls result }
{
    match chapter_of(alloc, file, report, earlier, earlier_report) {
        Ok(bytes) => explain_chapter(alloc, &bytes, sink),
        Err(answer) => answer,
    }
}

/// The same of the bytes of all four.
fn explain_chapter<S: Sink>(alloc: Global, bytes: &ChapterBytes, sink: &mut S) -> Answer
    requires { FewFailed (S.failed sink.old) }
    ensures explained { ExplainedAfter bytes.now.file.items bytes.now.report.items
        bytes.now.earlier.items bytes.now.earlier_report.items
        (S.bytes sink.old) (S.bytes sink.new) result }
    ensures done { result ≡ Answer.Done → S.flushed sink.new ≡ true }
    ensures bad { result ≡ Answer.Unlawful → S.flushed sink.new ≡ true }
    ensures failures { S.failed sink.new ≡ S.failed sink.old + failed_calls result }
{
    match explain_chapter_bytes(
        alloc,
        &bytes.file,
        &bytes.report,
        &bytes.earlier,
        &bytes.earlier_report,
        sink,
    ) {
        Ok(verdict) => answer_of_chapter(verdict),
        Err(ChapterUntold::Output) => Answer::Failed(RunFault::Output),
        Err(ChapterUntold::Unjudged(fault)) => answer_of_fault(fault),
    }
}

/// What comes of a chapter on which there is no verdict.
fn answer_of_fault(fault: ChapterFault) -> Answer
    ensures { result ≡ fault_answer fault }
{
    match fault {
        ChapterFault::Memory => Answer::Failed(RunFault::Memory),
        ChapterFault::File(kind) => Answer::Failed(RunFault::Input(kind)),
        ChapterFault::Earlier(kind) => Answer::Earlier(kind),
    }
}
