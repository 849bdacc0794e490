//! In what a file does not go on where an earlier report ended.

ghost use Rattle.std.specs.Prelude.{◌≡◌, ◌++◌, ◌↔◌, IfOk, IsTrue, OnOk};
ghost use Rattle.txn_programs.specs.Told.{told};
ghost use Rattle.txn_programs.specs.LawfulReport.{LawfulReport};
ghost use Rattle.txn_text.specs.Canonical.{file_text};
ghost use Rattle.text_line_reader.specs.ReportView.{view_text};
ghost use Rattle.explain_reports.specs.Gaps.{IsDifference, IsGap, IsGapLine, gap_line, side_text};

use checker::{ChapterVerdict, beginning, next_chapter};
use std::alloc::{AllocError, Global};
use text_line_reader::next_line;
use txn::{Catalogue, Memory, Report};
use txn_text::print_file;

/// The first lines at which two texts differ, if they do.
#[derive(Clone, Copy)]
pub(crate) enum Difference<'a> {
    /// The two have the same lines.
    None,
    /// The one has this line there, and the other that one; none where a text has ended.
    Lines(Option<&'a [u8]>, Option<&'a [u8]>),
}

/// Whether two lines are the same.
fn same_line(a: &[u8], b: &[u8]) -> bool
    ensures { IsTrue result ↔ (a.now ≡ b.now) }
{
    a == b
}

/// Where two texts differ first.
fn first_difference<'a>(wanted: &'a [u8], stands: &'a [u8]) -> Difference<'a>
    ensures { IsDifference wanted.now stands.now result }
{
    let mut due = wanted;
    let mut here = stands;
    'lines: while let Some((line, more)) = next_line(due) {
        match next_line(here) {
            Some((other, others)) => {
                if !same_line(line, other) {
                    return Difference::Lines(Some(line), Some(other));
                }
                due = more;
                here = others;
            }
            None => return Difference::Lines(Some(line), None),
        }
    }
    match next_line(here) {
        Some((other, _)) => Difference::Lines(None, Some(other)),
        None => Difference::None,
    }
}

/// Puts a line behind the text, or that there is none.
fn put_side(out: &mut Vec<u8>, side: Option<&[u8]>) -> Result<(), AllocError>
    ensures { OnOk result (out.new.items ≡ out.old.items ++ side_text (view_text side.entry)) }
{
    match side {
        Some(line) => out.extend_from_slice(line),
        None => out.extend_from_slice(b"nothing"),
    }
}

/// The line that says which line is wanted, and which one stands there.
fn wanted_line(
    alloc: Global,
    due: Option<&[u8]>,
    here: Option<&[u8]>,
) -> Result<Vec<u8>, AllocError>
    ensures { IfOk result (λ line. line.items ≡ gap_line (view_text due.entry) (view_text here.entry)) }
{
    let mut line = Vec::new(alloc);
    put_side(&mut line, due)?;
    line.extend_from_slice(b" is wanted; here stands ")?;
    put_side(&mut line, here)?;
    line.extend_from_slice(b"\n")?;
    Ok(line)
}

/// The line that says at which lines two texts differ first.
fn gap_line(alloc: Global, wanted: &[u8], stands: &[u8]) -> Result<Vec<u8>, AllocError>
    ensures { IfOk result (λ line. IsGapLine wanted.now stands.now line.items) }
{
    match first_difference(wanted, stands) {
        Difference::Lines(due, here) => wanted_line(alloc, due, here),
        Difference::None => Ok(Vec::new(alloc)),
    }
}

/// The same of the one texts of two catalogues.
fn gap_between(alloc: Global, wanted: &Catalogue, stands: &Catalogue) -> Result<Vec<u8>, Memory>
    ensures { IfOk result (λ line. IsGapLine (file_text wanted.now) (file_text stands.now) line.items) }
{
    let wanted = print_file(alloc, wanted)?;
    let stands = print_file(alloc, stands)?;
    Ok(gap_line(alloc, wanted.as_bytes(), stands.as_bytes())?)
}

/// What is said of a file that does not go on where a report of an earlier one ended.
pub(crate) fn gap_text(
    alloc: Global,
    earlier: &Catalogue,
    report: &Report,
    next: &Catalogue,
) -> Result<Vec<u8>, Memory>
    requires { LawfulReport earlier.now (told report.now) }
    ensures { IfOk result (λ text. IsGap earlier.now (told report.entry.now) next.now text.items) }
{
    let wanted = next_chapter(alloc, earlier, report)?;
    let stands = beginning(alloc, next, report.parked.len())?;
    let line = gap_between(alloc, &wanted, &stands)?;
    let mut text = Vec::new(alloc);
    text.extend_from_slice(ChapterVerdict::Elsewhere.line().as_bytes())?;
    text.extend_from_slice(&line)?;
    Ok(text)
}
