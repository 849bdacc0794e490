//! What is seen of a line.

ghost use Rattle.std.specs.Prelude.{◌≡◌, ◌++◌, OnOk, codes, string_bytes};
ghost use Rattle.text_report_printer.specs.Names.{value_name};
ghost use Rattle.text_report_printer.specs.ReportText.{outcome_text};
ghost use Rattle.world.specs.SeenText.{seen_text, seen_line};

use std::alloc::AllocError;
use std::fmt::Write;
use text_report_printer::{put_outcome, put_value_name};
use txn::{Catalogue, Outcome, VarId};
use world_law::Seen;

/// Puts the line of what was seen on the schedule's line of this number behind the text: the
/// number, a space, what was seen, and a newline.
pub fn put_seen(
    out: &mut String,
    catalogue: &Catalogue,
    number: u64,
    seen: Seen,
) -> Result<(), AllocError>
    ensures { OnOk result (string_bytes out.new ≡ string_bytes out.old ++ seen_line catalogue.now number seen) }
{
    write!(out, "{number} ")?;
    put_what(out, catalogue, seen)?;
    out.push_str("\n")?;
    Ok(())
}

fn put_what(out: &mut String, catalogue: &Catalogue, seen: Seen) -> Result<(), AllocError>
    ensures { OnOk result (string_bytes out.new ≡ string_bytes out.old ++ seen_text catalogue.now seen) }
{
    match seen {
        Seen::Idle => out.push_str("idle"),
        Seen::Needs(x) => put_named(out, catalogue, "needs ", x),
        Seen::Ended(outcome) => put_ended(out, catalogue, outcome),
        Seen::Loaded => out.push_str("loaded"),
        Seen::Stale => out.push_str("stale"),
        Seen::Parked => out.push_str("parked"),
        Seen::Commits(n) => write!(out, "commits {n}"),
        Seen::Stored => out.push_str("stored"),
        Seen::Committed(n) => write!(out, "committed {n}"),
        Seen::Dropped => out.push_str("dropped"),
        Seen::Spent => out.push_str("memory"),
        Seen::Checks(x) => put_named(out, catalogue, "checks ", x),
        Seen::Changed => out.push_str("changed"),
    }
}

/// A word and the name of a variable or of a cell.
fn put_named(
    out: &mut String,
    catalogue: &Catalogue,
    word: &str,
    x: VarId,
) -> Result<(), AllocError>
    ensures { OnOk result (string_bytes out.new ≡ string_bytes out.old ++ word.now ++ value_name catalogue.now x.0) }
{
    out.push_str(word)?;
    put_value_name(out, catalogue, x.0 as usize)
}

/// That an attempt ended, and how.
fn put_ended(out: &mut String, catalogue: &Catalogue, outcome: Outcome) -> Result<(), AllocError>
    ensures { OnOk result
        (string_bytes out.new ≡ string_bytes out.old ++ codes "ended " ++ outcome_text catalogue.now outcome) }
{
    out.push_str("ended ")?;
    put_outcome(out, catalogue, outcome)
}
