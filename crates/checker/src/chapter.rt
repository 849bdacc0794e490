//! Chapters checked: whether a file and its report go on where an earlier file and its report ended.

ghost use Rattle.std.specs.Prelude.{◌≡◌, ◌↔◌, IsTrue, IfOk, IfErr, length, map, take, slice_get, Some};
ghost use Rattle.txn_programs.specs.Listing.{calls};
ghost use Rattle.txn_programs.specs.Told.{told, now_of};
ghost use Rattle.txn_text.specs.Spelling.{Spells};
ghost use Rattle.checker.specs.declared.chapter.ChapterVerdict.{ChapterVerdict as VerdictOf};
ghost use Rattle.checker.specs.Chapters.{GoesOnAfter, IsVerdictAfter, IsEarlierRefused, JudgesAfter, IsUnjudged};
ghost use Rattle.checker.specs.Chapters.{line_call};
ghost use Rattle.checker.specs.Lines.{before_line, chapter_line};

use crate::calls::{line_call, same_call, task_call};
use crate::judging::{Judgement, judged};
use crate::reading::verdict_of;
use crate::stage::{same_values, values_of};
use crate::verdict::{Part, Verdict};
use std::alloc::{AllocError, Global};
use txn::{Call, Catalogue, Memory, Report, TaskId, TxId};
use txn_text::laws::spells_one;
use txn_text::{ReadFault, read_file};

/// What is said of a file and its report, which are to go on where an earlier file and its report ended.
#[derive(Clone, Copy, PartialEq, Eq)]
pub enum ChapterVerdict {
    /// Both reports are lawful, and the file goes on where the earlier one ended.
    Good,
    /// This part of the report does not hold, and all before it do.
    Bad(Part),
    /// The report is lawful. This part of the earlier report does not hold, and all before it do.
    Before(Part),
    /// Both reports are lawful, and the file does not go on where the earlier one ended.
    Elsewhere,
}

/// Why there is no verdict on a chapter.
#[derive(Clone, Copy, PartialEq, Eq)]
pub enum ChapterFault {
    /// The file is refused, by a fault of this kind, which is never `Memory`.
    File(ReadFault),
    /// The report is lawful, and the earlier file is refused, by a fault of this kind, which is never
    /// `Memory`.
    Earlier(ReadFault),
    /// A growth was refused.
    Memory,
}

impl ChapterVerdict {
    /// The line that the program prints, with its newline: that of the verdict on the report, where it
    /// is not lawful; `before` and that of the verdict on the earlier report, where that one is not;
    /// else `bad 7` or `good`. It is a fixed text and takes no memory.
    pub fn line(&self) -> &'static str
        ensures { result.now ≡ chapter_line self.now }
    {
        match self {
            ChapterVerdict::Good => Verdict::Good.line(),
            ChapterVerdict::Bad(part) => Verdict::Bad(*part).line(),
            ChapterVerdict::Before(part) => before_line(*part),
            ChapterVerdict::Elsewhere => "bad 7\n",
        }
    }
}

fn before_line(part: Part) -> &'static str
    ensures { result.now ≡ before_line part }
{
    match part {
        Part::Text => "before bad 1\n",
        Part::Base => "before bad 2\n",
        Part::Entries => "before bad 3\n",
        Part::Present => "before bad 4\n",
        Part::Tasks => "before bad 5\n",
        Part::Parked => "before bad 6\n",
    }
}

/// Whether the task of this number makes this call.
fn is_task(catalogue: &Catalogue, number: usize, call: Call) -> bool
    ensures { IsTrue result ↔ (slice_get (calls catalogue.now) number ≡ Some call) }
{
    number < catalogue.tasks() && same_call(task_call(catalogue, TaskId(number as u32)), call)
}

/// Whether the first tasks of the next catalogue make the calls of these tasks of the earlier one.
fn are_first(earlier: &Catalogue, next: &Catalogue, parked: &[(TaskId, TxId)]) -> bool
    ensures { IsTrue result ↔ (take (length parked.now) (calls next.now) ≡ map (line_call earlier.now) parked.now) }
{
    'parked: for (i, (task, tx)) in parked.iter().enumerate() {
        if !is_task(next, i, line_call(earlier, *task, *tx)) {
            return false;
        }
    }
    true
}

/// Whether the values are those of these variables.
fn begins_at(alloc: Global, values: &[i64], vars: &[(i64, u64)]) -> Result<bool, AllocError>
    ensures { IfOk result (λ yes. IsTrue yes ↔ (values.now ≡ map (λ v. v.0) vars.now)) }
{
    let present = values_of(alloc, vars)?;
    Ok(same_values(values, &present))
}

/// Whether a catalogue goes on where a report of an earlier one ended: it declares the same variables,
/// tables, standing conditions and transactions, each variable and each cell begins at the value that it has at
/// the report's present, and its first tasks make the calls of the parked ones, in their order. More tasks may follow.
/// `Memory` only where a growth was refused.
pub fn goes_on_after(
    alloc: Global,
    earlier: &Catalogue,
    report: &Report,
    next: &Catalogue,
) -> Result<bool, Memory>
    ensures { IfOk result (λ yes. IsTrue yes ↔ GoesOnAfter earlier.now (told report.entry.now) next.now) }
{
    if !earlier.same_program(next) {
        return Ok(false);
    }
    if !begins_at(alloc, next.initial(), &report.now_vars)? {
        return Ok(false);
    }
    Ok(are_first(earlier, next, &report.parked))
}

/// The verdict on a chapter of this catalogue, whose own report is lawful.
fn verdict_after(
    alloc: Global,
    next: &Catalogue,
    earlier: &Catalogue,
    bytes: &[u8],
    report: &[u8],
) -> Result<ChapterVerdict, Memory>
    requires { Spells bytes.now earlier.now }
    ensures verdict { IfOk result (IsVerdictAfter bytes.now report.now next.now) }
    ensures alone { (v : VerdictOf) → IsVerdictAfter bytes.now report.now next.now v → IfOk result (λ w. w ≡ v) }
{
    spells_one();
    match judged(alloc, earlier, report)? {
        Judgement::Bad(part) => Ok(ChapterVerdict::Before(part)),
        Judgement::Lawful(report) => {
            if goes_on_after(alloc, earlier, &report, next)? {
                Ok(ChapterVerdict::Good)
            } else {
                Ok(ChapterVerdict::Elsewhere)
            }
        }
    }
}

/// The verdict on a chapter of this catalogue, whose own report is lawful, or that the earlier file is
/// refused.
fn read_and_compared(
    alloc: Global,
    next: &Catalogue,
    earlier: &[u8],
    report: &[u8],
) -> Result<ChapterVerdict, ChapterFault>
    ensures verdict { IfOk result (IsVerdictAfter earlier.now report.now next.now) }
    ensures alone { (v : VerdictOf) → IsVerdictAfter earlier.now report.now next.now v → IfOk result (λ w. w ≡ v) }
    ensures fault { IfErr result (IsEarlierRefused earlier.now) }
{
    match read_file(alloc, earlier) {
        Ok(catalogue) => match verdict_after(alloc, next, &catalogue, earlier, report) {
            Ok(verdict) => Ok(verdict),
            Err(_) => Err(ChapterFault::Memory),
        },
        Err(ReadFault::Memory) => Err(ChapterFault::Memory),
        Err(kind) => Err(ChapterFault::Earlier(kind)),
    }
}

/// The verdict on a chapter of the catalogue that these bytes spell.
fn verdict_on_chapter(
    alloc: Global,
    next: &Catalogue,
    file: &[u8],
    report: &[u8],
    earlier: &[u8],
    earlier_report: &[u8],
) -> Result<ChapterVerdict, ChapterFault>
    requires { Spells file.now next.now }
    ensures verdict { IfOk result (JudgesAfter file.now report.now earlier.now earlier_report.now) }
    ensures alone { (v : VerdictOf) → JudgesAfter file.now report.now earlier.now earlier_report.now v
        → IfOk result (λ w. w ≡ v) }
    ensures unjudged { IfErr result (IsUnjudged file.now report.now earlier.now) }
{
    spells_one();
    match verdict_of(alloc, next, report) {
        Ok(Verdict::Good) => read_and_compared(alloc, next, earlier, earlier_report),
        Ok(Verdict::Bad(part)) => Ok(ChapterVerdict::Bad(part)),
        Err(_) => Err(ChapterFault::Memory),
    }
}

/// Checks a report of a file, as `check` does, and whether the file goes on where an earlier file and its
/// report ended. It is `Good` exactly where both reports are lawful, each for its file, and
/// `goes_on_after` holds; `Bad` with a part exactly where that is the verdict on the report; else `Before`
/// with a part exactly where that is the verdict on the earlier report; else `Elsewhere`.
///
/// `Err` is a fault of the file; or, where the report is lawful, one of the earlier file. `Memory` may come
/// in place of any answer, where a growth was refused. It takes the time of two checks.
pub fn check_after(
    alloc: Global,
    file: &[u8],
    report: &[u8],
    earlier: &[u8],
    earlier_report: &[u8],
) -> Result<ChapterVerdict, ChapterFault>
    ensures verdict { IfOk result (JudgesAfter file.now report.now earlier.now earlier_report.now) }
    // There is no other.
    ensures alone { (v : VerdictOf) → JudgesAfter file.now report.now earlier.now earlier_report.now v
        → IfOk result (λ w. w ≡ v) }
    // Which fault it is.
    ensures unjudged { IfErr result (IsUnjudged file.now report.now earlier.now) }
{
    match read_file(alloc, file) {
        Ok(next) => verdict_on_chapter(alloc, &next, file, report, earlier, earlier_report),
        Err(ReadFault::Memory) => Err(ChapterFault::Memory),
        Err(kind) => Err(ChapterFault::File(kind)),
    }
}
