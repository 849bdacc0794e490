//! Reports explained.

ghost use Rattle.std.specs.Prelude.{◌≡◌, ◌+◌, ◌<◌, ◌≤◌, ◌^◌, ◌++◌, IfOk, Some, codes, length, slice_get};
ghost use Rattle.txn_programs.specs.Told.{told};
ghost use Rattle.text_line_reader.specs.Lines.{Whole, lines};
ghost use Rattle.text_line_reader.specs.Reports.{IsReport};
ghost use Rattle.checker.specs.Verdicts.{IsVerdictOn};
ghost use Rattle.checker.specs.declared.verdict.Verdict.{Verdict as VerdictOf};
ghost use Rattle.explain_reports.specs.Flaws.{IsFlaw};
ghost use Rattle.explain_reports.specs.Rows.{IsRow, lines_before, place_of_base, place_of_flaw, place_of_present};
ghost use Rattle.explain_reports.specs.Rows.{place_of_task, written};
ghost use Rattle.explain_reports.specs.Explaining.{IsExplained, verdict_of};

use crate::flaw::{Flaw, TaskLine};
use crate::judge::flaw_of;
use crate::lines::line_at;
use checker::laws::one_verdict;
use checker::{Part, Verdict};
use std::alloc::Global;
use text_line_reader::read_report;
use text_words::ReadFault;
use text_words::bytes::as_text;
use txn::{Catalogue, Memory, Report};

/// A line of a report: its number, counted from 1, and its text without the newline.
#[derive(Clone, Copy)]
pub struct Line<'a> {
    pub number: usize,
    pub text: &'a str,
}

/// What is said of the bytes of a report.
#[derive(Clone, Copy)]
pub enum ReportExplanation<'a> {
    /// The report is lawful.
    Good,
    /// The bytes are the text of no report of the file: this is the first kind of fault that they
    /// have.
    Unread(ReadFault),
    /// This does not hold of the report, and it shows on this line.
    Bad(Line<'a>, Flaw),
}

impl ReportExplanation<'_> {
    /// The checker's verdict.
    pub fn verdict(self) -> Verdict
        ensures { result ≡ verdict_of self.entry }
    {
        match self {
            ReportExplanation::Good => Verdict::Good,
            ReportExplanation::Unread(_) => Verdict::Bad(Part::Text),
            ReportExplanation::Bad(_, flaw) => Verdict::Bad(flaw.part()),
        }
    }
}

/// How many of these an entry wrote.
fn written(vars: &[(i64, u64)]) -> usize
    ensures value { result ≡ written vars.now }
    ensures few { result ≤ length vars.now }
{
    let mut count: usize = 0;
    for (_, version) in vars {
        if *version != 0 {
            count += 1;
        }
    }
    count
}

/// How many lines stand before that of a value: each variable has one, and each cell that an entry wrote.
fn lines_before(catalogue: &Catalogue, vars: &[(i64, u64)], i: usize) -> usize
    requires { i ≤ length vars.now }
    ensures value { result ≡ lines_before catalogue.now vars.now i }
    ensures few { result ≤ i }
{
    let variables = catalogue.var_count();
    if i < variables {
        i
    } else {
        variables + written(&vars[variables..i])
    }
}

/// The place of a task's line, counted from 0.
fn place_of_task(catalogue: &Catalogue, report: &Report, at: TaskLine) -> usize
    requires { place_of_task catalogue.now (told report.now) at < 2 ^ 63 }
    ensures { result ≡ place_of_task catalogue.now (told report.entry.now) at }
{
    let base = lines_before(catalogue, &report.base_vars, report.base_vars.len());
    let entries = report.entries.len();
    let present = lines_before(catalogue, &report.now_vars, report.now_vars.len());
    match at {
        TaskLine::Entry(i) => 1 + (base + i),
        TaskLine::Parked(i) => 1 + (base + (entries + (1 + (present + i)))),
        TaskLine::Memory(i) => {
            1 + (base + (entries + (1 + (present + (report.parked.len() + i)))))
        }
    }
}

/// The place of the line of a value at the base, counted from 0.
fn place_of_base(catalogue: &Catalogue, report: &Report, i: usize) -> usize
    requires { i ≤ length report.now.base_vars.items }
    ensures { result ≡ place_of_base catalogue.now (told report.entry.now) i }
{
    1 + lines_before(catalogue, &report.base_vars, i)
}

/// The place of the line of a present value, counted from 0.
fn place_of_present(catalogue: &Catalogue, report: &Report, i: usize) -> usize
    requires inside { i ≤ length report.now.now_vars.items }
    requires few { place_of_present catalogue.now (told report.now) i < 2 ^ 63 }
    ensures { result ≡ place_of_present catalogue.now (told report.entry.now) i }
{
    let base = lines_before(catalogue, &report.base_vars, report.base_vars.len());
    let before = lines_before(catalogue, &report.now_vars, i);
    1 + (base + (report.entries.len() + (1 + before)))
}

/// The place of the line on which a flaw shows, counted from 0.
fn place_of_flaw(catalogue: &Catalogue, report: &Report, flaw: Flaw) -> usize
    requires flaw { IsFlaw catalogue.now (told report.now) flaw }
    requires few { place_of_flaw catalogue.now (told report.now) flaw < 2 ^ 63 }
    ensures { result ≡ place_of_flaw catalogue.now (told report.entry.now) flaw }
{
    match flaw {
        Flaw::Untrue(_) => 0,
        Flaw::Opening(i, _) => place_of_base(catalogue, report, i),
        Flaw::Late(i) => place_of_base(catalogue, report, i),
        Flaw::Entry(i, _) => place_of_task(catalogue, report, TaskLine::Entry(i)),
        Flaw::Number(_) => {
            place_of_task(catalogue, report, TaskLine::Entry(report.entries.len()))
        }
        Flaw::Present(i, _, _) => place_of_present(catalogue, report, i),
        Flaw::NotOwn(at, _) => place_of_task(catalogue, report, at),
        Flaw::Again(at) => place_of_task(catalogue, report, at),
        Flaw::Falls(at) => place_of_task(catalogue, report, at),
        Flaw::Count => { place_of_task(catalogue, report, TaskLine::Memory(report.memory.len())) }
        Flaw::Ends(i, _) => place_of_task(catalogue, report, TaskLine::Parked(i)),
    }
}

/// The line of a report on which a flaw of it shows.
fn line_of<'a>(catalogue: &Catalogue, bytes: &'a [u8], report: &Report, flaw: Flaw) -> Line<'a>
    requires read { IsReport catalogue.now bytes.now (told report.now) }
    requires flaw { IsFlaw catalogue.now (told report.now) flaw }
    ensures numbered { result.number ≡ place_of_flaw catalogue.now (told report.entry.now) flaw + 1 }
    ensures stands { slice_get (lines bytes.now) (place_of_flaw catalogue.now (told report.entry.now) flaw)
        ≡ Some (Whole result.text.now) }
    ensures row { IsRow catalogue.now (told report.entry.now) flaw (result.text.now ++ codes "\n") }
{
    catalogue.rules();
    let place = place_of_flaw(catalogue, report, flaw);
    match line_at(bytes, place) {
        Some(text) => Line {
            number: place + 1,
            text: as_text(text),
        },
        None => unreachable!(),
    }
}

fn explained<'a>(
    alloc: Global,
    catalogue: &Catalogue,
    bytes: &'a [u8],
) -> Result<ReportExplanation<'a>, Memory>
    ensures { IfOk result (IsExplained catalogue.now bytes.now) }
{
    match read_report(alloc, bytes, catalogue) {
        Ok(report) => match flaw_of(alloc, catalogue, &report)? {
            None => Ok(ReportExplanation::Good),
            Some(flaw) => {
                let line = line_of(catalogue, bytes, &report, flaw);
                Ok(ReportExplanation::Bad(line, flaw))
            }
        },
        Err(ReadFault::Memory) => Err(Memory),
        Err(kind) => Ok(ReportExplanation::Unread(kind)),
    }
}

/// Explains the bytes of a report of a catalogue: that they are the text of a lawful report; or of
/// none, and then which kind of fault they have first; or what does not hold of the report that
/// they are the text of. That is the first thing in the first part that does not hold, with the
/// line on which it shows, and with what replay has there. `Err` means that memory was refused.
///
/// It takes time linear in the bytes and in the work of the entries and the parked tasks.
pub fn explain<'a>(
    alloc: Global,
    catalogue: &Catalogue,
    bytes: &'a [u8],
) -> Result<ReportExplanation<'a>, Memory>
    // What is said is so.
    ensures explained { IfOk result (IsExplained catalogue.now bytes.now) }
    // Its verdict is the checker's, and there is no other.
    ensures verdict { IfOk result (λ x. IsVerdictOn catalogue.now bytes.now (verdict_of x)) }
    ensures alone { (v : VerdictOf) → IsVerdictOn catalogue.now bytes.now v → IfOk result (λ x. verdict_of x ≡ v) }
{
    catalogue.rules();
    one_verdict();
    explained(alloc, catalogue, bytes)
}
