//! What is said of a report, as text.

ghost use Rattle.std.specs.Prelude.{◌≡◌, ◌++◌, OnOk, string_bytes};
ghost use Rattle.text_report_printer.specs.Names.{value_name};
ghost use Rattle.text_report_printer.specs.ReportText.{entry_line, variable_line};
ghost use Rattle.explain_reports.specs.Texts.{back_text, explanation_text, flaw_text, front_text, kind_text, what_text};

use crate::explaining::ReportExplanation;
use crate::flaw::Flaw;
use std::alloc::AllocError;
use std::fmt::Write;
use text_line_reader::max_report;
use text_report_printer::{always_name, put_number, put_outcome, put_value_name, transaction_name};
use text_words::ReadFault;
use txn::{Catalogue, Entry};

/// Puts why bytes are the text of no report behind the text.
fn put_kind(out: &mut String, catalogue: &Catalogue, kind: ReadFault) -> Result<(), AllocError>
    ensures { OnOk result (string_bytes out.new ≡ string_bytes out.old ++ kind_text catalogue.now kind) }
{
    match kind {
        ReadFault::TooLong => {
            let most = max_report(catalogue);
            writeln!(out, "it has more than {most} bytes")
        }
        ReadFault::BadByte => {
            out.push_str("it has a byte that is neither a newline nor printable ASCII\n")
        }
        ReadFault::Shape => {
            out.push_str("a line has not the form of the one that stands in its place\n")
        }
        ReadFault::Name => out.push_str("a name is not one that may stand in its place\n"),
        ReadFault::Limit => out.push_str("a number is not one that may stand in its place\n"),
        ReadFault::Broken => out.push_str("\n"),
        ReadFault::Memory => out.push_str("\n"),
    }
}

fn put_variable(
    out: &mut String,
    catalogue: &Catalogue,
    i: usize,
    value: i64,
    version: u64,
) -> Result<(), AllocError>
    ensures { OnOk result (string_bytes out.new
        ≡ string_bytes out.old ++ variable_line (value_name catalogue.now i) (value, version)) }
{
    put_value_name(out, catalogue, i)?;
    writeln!(out, " {value} {version}")?;
    Ok(())
}

fn put_entry(out: &mut String, catalogue: &Catalogue, entry: &Entry) -> Result<(), AllocError>
    ensures { OnOk result (string_bytes out.new ≡ string_bytes out.old ++ entry_line catalogue.now entry.now) }
{
    let number = entry.number;
    let task = entry.task.0;
    write!(out, "entry {number} {task} ")?;
    out.push_str(transaction_name(catalogue, entry.tx.0 as usize))?;
    out.push_str(" ")?;
    put_outcome(out, catalogue, entry.outcome)?;
    out.push_str("\n")
}

/// The words before what is so in place of what a line says.
#[tactic(auto, unfolding(crate::specs::Texts::front_text))]
fn front_text(flaw: Flaw) -> &'static str
    ensures { result.now ≡ front_text flaw }
{
    match flaw {
        Flaw::Untrue(_) => "the standing condition ",
        Flaw::Opening(..) => "the file has ",
        Flaw::Late(_) => "no version is above the number of the base\n",
        Flaw::Entry(..) => "replay has ",
        Flaw::Number(_) => "replay has ",
        Flaw::Present(..) => "replay has ",
        Flaw::NotOwn(..) => "the task runs ",
        Flaw::Again(_) => "the task stands on a line before\n",
        Flaw::Falls(_) => "the task is not larger than that of the line before\n",
        Flaw::Count => "the base and the lines do not add up to the tasks of the file\n",
        Flaw::Ends(..) => "the task does not wait: ",
    }
}

/// The words behind it.
#[tactic(auto, unfolding(crate::specs::Texts::back_text))]
fn back_text(flaw: Flaw) -> &'static str
    ensures { result.now ≡ back_text flaw }
{
    match flaw {
        Flaw::Untrue(_) => " is not true of these values\n",
        Flaw::NotOwn(..) => "\n",
        Flaw::Ends(..) => "\n",
        Flaw::Opening(..) => "",
        Flaw::Late(_) => "",
        Flaw::Entry(..) => "",
        Flaw::Number(_) => "",
        Flaw::Present(..) => "",
        Flaw::Again(_) => "",
        Flaw::Falls(_) => "",
        Flaw::Count => "",
    }
}

fn put_what(out: &mut String, catalogue: &Catalogue, flaw: Flaw) -> Result<(), AllocError>
    ensures { OnOk result (string_bytes out.new ≡ string_bytes out.old ++ what_text catalogue.now flaw) }
{
    match flaw {
        Flaw::Untrue(id) => out.push_str(always_name(catalogue, id)),
        Flaw::Opening(i, value) => put_variable(out, catalogue, i, value, 0),
        Flaw::Entry(_, due) => put_entry(out, catalogue, &due),
        Flaw::Number(number) => put_number(out, "now", number),
        Flaw::Present(i, value, version) => put_variable(out, catalogue, i, value, version),
        Flaw::NotOwn(_, tx) => out.push_str(transaction_name(catalogue, tx.0 as usize)),
        Flaw::Ends(_, ending) => put_outcome(out, catalogue, ending),
        Flaw::Late(_) => Ok(()),
        Flaw::Again(_) => Ok(()),
        Flaw::Falls(_) => Ok(()),
        Flaw::Count => Ok(()),
    }
}

/// Puts what is so in place of what a line says behind the text.
fn put_flaw(out: &mut String, catalogue: &Catalogue, flaw: Flaw) -> Result<(), AllocError>
    ensures { OnOk result (string_bytes out.new ≡ string_bytes out.old ++ flaw_text catalogue.now flaw) }
{
    out.push_str(front_text(flaw))?;
    put_what(out, catalogue, flaw)?;
    out.push_str(back_text(flaw))
}

/// Puts what is said of a report behind the text: the verdict's line, and where it is not `good`,
/// why the bytes are no report, or the line, with its number and text, and what is so in its place.
pub fn put_explanation(
    out: &mut String,
    catalogue: &Catalogue,
    explanation: ReportExplanation<'_>,
) -> Result<(), AllocError>
    ensures { OnOk result (string_bytes out.new
        ≡ string_bytes out.old ++ explanation_text catalogue.now explanation.entry) }
{
    out.push_str(explanation.verdict().line())?;
    match explanation {
        ReportExplanation::Good => Ok(()),
        ReportExplanation::Unread(kind) => put_kind(out, catalogue, kind),
        ReportExplanation::Bad(line, flaw) => {
            let number = line.number;
            write!(out, "line {number}: ")?;
            out.push_str(line.text)?;
            out.push_str("\n")?;
            put_flaw(out, catalogue, flaw)
        }
    }
}
