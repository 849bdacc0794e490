//! From the bytes of a chapter and of the one before it to the bytes of what is said of it.

ghost use Rattle.std.specs.Prelude.{◌≡◌, ◌+◌, ◌++◌, true, IfOk, OnOk, IfErr, string_bytes};
ghost use Rattle.txn_programs.specs.Told.{told};
ghost use Rattle.txn_programs.specs.LawfulReport.{LawfulReport};
ghost use Rattle.txn_text.specs.Spelling.{Spells};
ghost use Rattle.text_line_reader.specs.Reports.{IsReport};
ghost use Rattle.checker.specs.declared.verdict.Verdict.TheVariants.{Bad};
ghost use Rattle.checker.specs.declared.chapter.ChapterVerdict.TheVariants as VerdictOf;
ghost use Rattle.checker.specs.Verdicts.{IsVerdictOn};
ghost use Rattle.checker.specs.Lines.{chapter_line};
ghost use Rattle.checker.specs.Chapters.{IsEarlierRefused, IsUnjudged};
ghost use Rattle.run_interface.specs.Counts.{FewFailed};
ghost use Rattle.explain_reports.specs.Chapters.{IsSaid, IsSaidAfter, IsSaidBefore, ChapterWritten, untold_failures};

use crate::bytes::answered_of;
use crate::gaps::gap_text;
use checker::laws::one_verdict;
use checker::{ChapterFault, ChapterVerdict, Judgement, Part, Verdict, goes_on_after, judged};
use run_interface::{Sink, put_all};
use std::alloc::{AllocError, Global};
use txn::{Catalogue, Memory, Report};
use txn_text::laws::spells_one;
use txn_text::{ReadFault, read_file};

/// Why nothing is said of a chapter, or not all of it.
#[derive(Clone, Copy, PartialEq, Eq)]
pub enum ChapterUntold {
    /// There is no verdict. Nothing was written.
    Unjudged(ChapterFault),
    /// A write or the flush failed, or a write took nothing. A beginning of the text was written.
    Output,
}

/// What is said of a chapter, with its verdict.
#[derive(Drop)]
pub(crate) struct Said {
    pub(crate) verdict: ChapterVerdict,
    pub(crate) text: Vec<u8>,
}

/// Writes what is said of a report of the file that the bytes spell, and of whether that file goes on
/// where an earlier file and its report ended, to the sink: of a report that is not lawful what
/// `explain_bytes` says; of an earlier report that is not `before` and the same of that one; of a file that
/// goes elsewhere `bad 7`, and the first line that is wanted of its text and is not there, with the one that
/// stands there; else `good`.
///
/// `Ok`: exactly that was written, and then flushed, and this is the verdict of `check_after`. `Unjudged`:
/// as `check_after` refuses; nothing was written. `Output`: a call of the sink failed, the only one, and a
/// beginning of that text was written.
pub fn explain_chapter_bytes<S: Sink>(
    alloc: Global,
    file: &[u8],
    report: &[u8],
    earlier: &[u8],
    earlier_report: &[u8],
    sink: &mut S,
) -> Result<ChapterVerdict, ChapterUntold>
    requires { FewFailed (S.failed sink.old) }
    ensures written { ChapterWritten file.now report.now earlier.now earlier_report.now
        (S.bytes sink.old) (S.bytes sink.new) result }
    ensures flushed { OnOk result (S.flushed sink.new ≡ true) }
    ensures failures { S.failed sink.new ≡ S.failed sink.old + untold_failures result }
{
    match told_of_chapter(alloc, file, report, earlier, earlier_report) {
        Ok(said) => match put_all(sink, &said.text) {
            Ok(()) => Ok(said.verdict),
            Err(_) => Err(ChapterUntold::Output),
        },
        Err(fault) => Err(ChapterUntold::Unjudged(fault)),
    }
}

/// What is said of a chapter.
fn told_of_chapter(
    alloc: Global,
    file: &[u8],
    report: &[u8],
    earlier: &[u8],
    earlier_report: &[u8],
) -> Result<Said, ChapterFault>
    ensures said { IfOk result (λ s. IsSaid file.now report.now earlier.now earlier_report.now s.verdict s.text.items) }
    ensures unjudged { IfErr result (IsUnjudged file.now report.now earlier.now) }
{
    match read_file(alloc, file) {
        Ok(next) => said_of(alloc, file, &next, report, earlier, earlier_report),
        Err(ReadFault::Memory) => Err(ChapterFault::Memory),
        Err(kind) => Err(ChapterFault::File(kind)),
    }
}

/// What is said of a chapter whose file is this catalogue.
fn said_of(
    alloc: Global,
    file: &[u8],
    next: &Catalogue,
    report: &[u8],
    earlier: &[u8],
    earlier_report: &[u8],
) -> Result<Said, ChapterFault>
    requires { Spells file.now next.now }
    ensures said { IfOk result (λ s. IsSaid file.now report.now earlier.now earlier_report.now s.verdict s.text.items) }
    ensures unjudged { IfErr result (IsUnjudged file.now report.now earlier.now) }
{
    spells_one();
    match answered_of(alloc, file, next, report) {
        Ok((Verdict::Good, _)) => said_behind(alloc, next, earlier, earlier_report),
        Ok((Verdict::Bad(part), text)) => Ok(Said {
            verdict: ChapterVerdict::Bad(part),
            text: text.into_bytes(),
        }),
        Err(_) => Err(ChapterFault::Memory),
    }
}

/// What is said of a chapter of this catalogue whose own report is lawful.
fn said_behind(
    alloc: Global,
    next: &Catalogue,
    earlier: &[u8],
    report: &[u8],
) -> Result<Said, ChapterFault>
    ensures said { IfOk result (λ s. IsSaidAfter earlier.now report.now next.now s.verdict s.text.items) }
    ensures refused { IfErr result (IsEarlierRefused earlier.now) }
{
    match read_file(alloc, earlier) {
        Ok(catalogue) => match said_after(alloc, next, &catalogue, earlier, report) {
            Ok(said) => Ok(said),
            Err(_) => Err(ChapterFault::Memory),
        },
        Err(ReadFault::Memory) => Err(ChapterFault::Memory),
        Err(kind) => Err(ChapterFault::Earlier(kind)),
    }
}

/// The same, where the earlier file is a catalogue.
fn said_after(
    alloc: Global,
    next: &Catalogue,
    catalogue: &Catalogue,
    earlier: &[u8],
    report: &[u8],
) -> Result<Said, Memory>
    requires { Spells earlier.now catalogue.now }
    ensures { IfOk result (λ s. IsSaidAfter earlier.now report.now next.now s.verdict s.text.items) }
{
    match judged(alloc, catalogue, report)? {
        Judgement::Bad(part) => said_before(alloc, catalogue, earlier, report, part),
        Judgement::Lawful(told) => compared(alloc, next, catalogue, earlier, report, &told),
    }
}

/// What is said where this part of the earlier report fails first.
fn said_before(
    alloc: Global,
    catalogue: &Catalogue,
    earlier: &[u8],
    report: &[u8],
    part: Part,
) -> Result<Said, Memory>
    requires spelled { Spells earlier.now catalogue.now }
    requires bad { IsVerdictOn catalogue.now report.now (Bad part) }
    ensures { IfOk result (λ s. (s.verdict ≡ ChapterVerdict.Before part)
        × IsSaidBefore earlier.now report.now part s.text.items) }
{
    catalogue.rules();
    spells_one();
    one_verdict();
    match answered_of(alloc, earlier, catalogue, report) {
        Ok((_, said)) => {
            let mut text = Vec::new(alloc);
            text.extend_from_slice(b"before ")?;
            text.extend_from_slice(said.as_bytes())?;
            Ok(Said {
                verdict: ChapterVerdict::Before(part),
                text,
            })
        }
        Err(_) => Err(Memory),
    }
}

/// What is said where both reports are lawful.
fn compared(
    alloc: Global,
    next: &Catalogue,
    catalogue: &Catalogue,
    earlier: &[u8],
    bytes: &[u8],
    report: &Report,
) -> Result<Said, Memory>
    requires spelled { Spells earlier.now catalogue.now }
    requires read { IsReport catalogue.now bytes.now (told report.now) }
    requires lawful { LawfulReport catalogue.now (told report.now) }
    ensures { IfOk result (λ s. IsSaidAfter earlier.now bytes.now next.now s.verdict s.text.items) }
{
    if goes_on_after(alloc, catalogue, report, next)? {
        return Ok(Said {
            verdict: ChapterVerdict::Good,
            text: good_line(alloc)?,
        });
    }
    Ok(Said {
        verdict: ChapterVerdict::Elsewhere,
        text: gap_text(alloc, catalogue, report, next)?,
    })
}

fn good_line(alloc: Global) -> Result<Vec<u8>, AllocError>
    ensures { IfOk result (λ text. text.items ≡ chapter_line VerdictOf.Good) }
{
    let mut text = Vec::new(alloc);
    text.extend_from_slice(ChapterVerdict::Good.line().as_bytes())?;
    Ok(text)
}
