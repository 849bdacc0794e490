//! The line that tells where and why a schedule is refused.

ghost use Rattle.std.specs.Prelude.{◌≡◌, ◌≤◌, length, IfOk, string_bytes};
ghost use Rattle.explain_files.specs.Telling.{IsInLine, IsLineWith};
ghost use Rattle.explain_schedules.specs.Telling.{head_of};

use crate::explaining::{Finding, Refusal};
use crate::line::split_once;
use crate::words::words;
use explain_files::{kind_name, line_of, position_of};
use std::alloc::{AllocError, Global};
use std::str;
use text_line_reader::knows_cells;
use txn::Catalogue;

/// The first line of these bytes, without its newline.
fn first_line(bytes: &[u8]) -> &[u8]
    ensures { IsInLine result.now }
{
    match split_once(bytes, b'\n') {
        Some((line, _)) => line,
        None => bytes,
    }
}

/// What stands first in these bytes, up to the end of the line, as far as it is short.
#[tactic(auto, using(crate::proofs::Shown::beginning_in_line))]
fn standing(bytes: &[u8]) -> &str
    ensures { IsInLine result.now }
{
    let line = first_line(bytes);
    let front = &line[..line.len().min(40)];
    str::from_utf8(front).unwrap_or("")
}

/// What is said of what stands at a place.
#[tactic(auto, using(explain_files::proofs::InLine::in_line_append, crate::proofs::Shown::decimal_in_line))]
fn found(
    alloc: Global,
    catalogue: &Catalogue,
    finding: Finding,
    bytes: &[u8],
) -> Result<String, AllocError>
    ensures { IfOk result (λ text. IsInLine (string_bytes text)) }
{
    let [first, ..] = bytes else {
        return String::from_str(alloc, "; here the schedule ends");
    };
    match finding {
        Finding::TooLong => String::from_str(alloc, ""),
        Finding::BadByte => format!(in alloc; "; this byte is {first}"),
        Finding::NoTask => {
            let standing = standing(bytes);
            let tasks = catalogue.tasks();
            format!(in alloc;
                "; here stands {standing}, and the file has {tasks} tasks, counted from 0"
            )
        }
        Finding::Unwanted(_) | Finding::NoVariable | Finding::NoTable | Finding::NoCell => {
            let standing = standing(bytes);
            format!(in alloc; "; here stands {standing}")
        }
    }
}

/// The line that tells where and why a schedule is refused.
pub(crate) fn told(
    alloc: Global,
    catalogue: &Catalogue,
    bytes: &[u8],
    refusal: &Refusal,
) -> Result<String, AllocError>
    requires { refusal.now.place ≤ length bytes.now }
    ensures { IfOk result (λ text. IsLineWith (head_of bytes.now refusal.entry.now) (string_bytes text)) }
{
    let at = position_of(bytes, refusal.place);
    let found = found(alloc, catalogue, refusal.finding, &bytes[refusal.place..])?;
    let kind = kind_name(refusal.kind);
    let words = words(refusal.finding, knows_cells(catalogue));
    let text = line_of(alloc, at.line, at.column, kind, words, found.as_str())?;
    Ok(text)
}
