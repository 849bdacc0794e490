//! The line that tells where and why a file is refused.

ghost use Rattle.std.specs.Prelude.{◌≡◌, ◌≤◌, ℕ, length, IfOk, IfSome, string_bytes};
ghost use Rattle.explain_files.specs.Telling.{told_line, IsInLine, IsLineWith, head_of, kind_name};

use crate::near::meant;
use crate::tokens::atom_len;
use crate::words::words;
use crate::{Finding, NameFault, Refusal, position_of};
use std::alloc::{AllocError, Global};
use std::str;
use text_words::ReadFault;

/// The name of a kind of fault, as the standard error has it: `F4 Name`.
pub fn kind_name(kind: ReadFault) -> &'static str
    ensures { result.now ≡ kind_name kind }
{
    match kind {
        ReadFault::TooLong => "F1 TooLong",
        ReadFault::BadByte => "F2 BadByte",
        ReadFault::Shape => "F3 Shape",
        ReadFault::Name => "F4 Name",
        ReadFault::Limit => "F5 Limit",
        ReadFault::Memory => "F6 Memory",
        ReadFault::Broken => "F7 Broken",
    }
}

/// The line that tells a place, the kind of fault, what is wrong and what was found, with its newline. `Err`
/// means that memory was refused.
pub fn line_of(
    alloc: Global,
    line: usize,
    column: usize,
    kind: &str,
    words: &str,
    found: &str,
) -> Result<String, AllocError>
    ensures { IfOk result (λ text. string_bytes text ≡ told_line line column kind.now words.now found.now) }
{
    format!(in alloc; "line {line}, column {column}: {kind}: {words}{found}\n")
}

/// What stands first in these bytes, as far as it is short: a parenthesis or an atom.
#[tactic(auto, using(crate::proofs::InLine::parenthesis_in_line, crate::proofs::InLine::atom_in_line))]
pub(crate) fn standing(bytes: &[u8]) -> &str
    ensures { IsInLine result.now }
{
    let front = match bytes {
        [b'(' | b')', ..] => &bytes[..1],
        _ => &bytes[..atom_len(bytes).min(40)],
    };
    str::from_utf8(front).unwrap_or("")
}

/// What is said of what stands at a place, with what may be meant.
#[tactic(auto, using(crate::proofs::InLine::in_line_append, crate::proofs::InLine::decimal_in_line))]
fn found(
    alloc: Global,
    finding: Finding,
    bytes: &[u8],
    meant: Option<&str>,
) -> Result<String, AllocError>
    requires { IfSome meant (λ word. IsInLine word.now) }
    ensures { IfOk result (λ text. IsInLine (string_bytes text)) }
{
    if matches!(finding, Finding::TooLong | Finding::BadByte) {
        return String::from_str(alloc, "");
    }
    if bytes.is_empty() {
        return String::from_str(alloc, "; here the file ends");
    }
    let standing = standing(bytes);
    if let Finding::Name(NameFault::Arguments { wanted, given }) = finding {
        return format!(in alloc;
            "; here stands {standing}; the number of its parameters is {wanted}, that of the arguments {given}"
        );
    }
    match meant {
        Some(meant) => format!(in alloc; "; here stands {standing}; did you mean {meant}?"),
        None => format!(in alloc; "; here stands {standing}"),
    }
}

/// The line that tells where and why a file is refused, with its newline: `line 3, column 12: F3 Shape: `, and behind
/// it what is wanted there and what stands there. `Err` means that memory was refused.
pub fn told(alloc: Global, bytes: &[u8], refusal: &Refusal) -> Result<String, AllocError>
    requires { refusal.now.place ≤ length bytes.now }
    ensures { IfOk result (λ text. IsLineWith (head_of bytes.now refusal.entry.now) (string_bytes text)) }
{
    let at = position_of(bytes, refusal.place);
    let meant = meant(bytes, refusal.place, refusal.finding);
    let found = found(alloc, refusal.finding, &bytes[refusal.place..], meant)?;
    let kind = kind_name(refusal.kind);
    let words = words(refusal);
    let text = line_of(alloc, at.line, at.column, kind, words, found.as_str())?;
    Ok(text)
}
