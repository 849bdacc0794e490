//! Whether a file is read, and where and why it is not.

ghost use Rattle.std.specs.Prelude.{◌≡◌, Some, IfOk};
ghost use Rattle.text_grammar.specs.Spelling.{first_fault};
ghost use Rattle.text_file_reader.specs.Faults.{IsFirst};
ghost use Rattle.explain_files.specs.Explaining.{IsPlaced, IsExplained};
ghost use Rattle.text_words.specs.declared.fault.ReadFault.TheVariants.{Shape, Name, Limit, Broken};

use crate::allowed::bad_byte_place;
use crate::declarations::{costly_place, untrue_place};
use crate::limits::{LimitFault, first_excess};
use crate::names::{NameFault, wrong_name};
use crate::walk::first_stop;
use crate::wanted::Wanted;
use std::alloc::Global;
use text_file_reader::read_file;
use text_grammar::file::longest_file;
use text_words::ReadFault;
use txn::Memory;

/// What is wrong at the place.
#[derive(Clone, Copy, PartialEq, Eq)]
pub enum Finding {
    /// The file has this byte, which is one too many.
    TooLong,
    /// No file may have this byte.
    BadByte,
    /// What stands here is not what is wanted, or nothing more is wanted.
    Unwanted(Option<Wanted>),
    /// This name is declared twice or not at all, or run with another number of arguments than parameters.
    Name(NameFault),
    /// This goes over a limit.
    Limit(LimitFault),
    /// This declaration costs more than 1,000,000: a transaction with the standing conditions, or one of
    /// these with those before it.
    Cost,
    /// This standing condition is not true of the initial values.
    Untrue,
}

/// Why a file is refused.
#[derive(Clone, Copy, PartialEq, Eq)]
pub struct Refusal {
    /// The kind of its first fault.
    pub kind: ReadFault,
    /// How many bytes stand before the place of it.
    pub place: usize,
    pub finding: Finding,
}

/// Whether a file is read, or why it is refused.
#[derive(Clone, Copy, PartialEq, Eq)]
pub enum Explanation {
    Good,
    Refused(Refusal),
}

/// Where a file that has no reading by the grammar stops being the beginning of one.
fn shape_place(alloc: Global, bytes: &[u8]) -> Result<(usize, Finding), Memory>
    requires { IsFirst bytes.now Shape }
    ensures { IfOk result (λ x. IsPlaced Shape bytes.now x.0 x.1) }
{
    let stop = first_stop(alloc, bytes)?;
    Ok((stop.place, Finding::Unwanted(stop.wanted)))
}

/// The name that is declared twice or not at all, or run with another number of arguments than parameters.
fn name_place(alloc: Global, bytes: &[u8]) -> Result<(usize, Finding), Memory>
    requires { IsFirst bytes.now Name }
    ensures { IfOk result (λ x. IsPlaced Name bytes.now x.0 x.1) }
{
    match wrong_name(alloc, bytes)? {
        Some(wrong) => Ok((wrong.place, Finding::Name(wrong.fault))),
        None => unreachable!(),
    }
}

/// What goes over a limit: a name or a number, and where there is none, a declaration by its cost.
fn limit_place(alloc: Global, bytes: &[u8]) -> Result<(usize, Finding), Memory>
    requires { first_fault bytes.now ≡ Some Limit }
    ensures { IfOk result (λ x. IsPlaced Limit bytes.now x.0 x.1) }
{
    match first_excess(bytes) {
        Some(found) => Ok((found.place, Finding::Limit(found.fault))),
        None => {
            let place = costly_place(alloc, bytes)?;
            Ok((place, Finding::Cost))
        }
    }
}

/// The standing condition that is not true.
fn broken_place(alloc: Global, bytes: &[u8]) -> Result<(usize, Finding), Memory>
    requires { IsFirst bytes.now Broken }
    ensures { IfOk result (λ x. IsPlaced Broken bytes.now x.0 x.1) }
{
    let place = untrue_place(alloc, bytes)?;
    Ok((place, Finding::Untrue))
}

/// The place of the first fault of a file, whose kind this is.
fn place_of(alloc: Global, bytes: &[u8], kind: ReadFault) -> Result<(usize, Finding), Memory>
    requires first { IsFirst bytes.now kind }
    requires fault { first_fault bytes.now ≡ Some kind }
    ensures { IfOk result (λ x. IsPlaced kind bytes.now x.0 x.1) }
{
    match kind {
        ReadFault::TooLong => Ok((longest_file(bytes), Finding::TooLong)),
        ReadFault::BadByte => Ok((bad_byte_place(bytes), Finding::BadByte)),
        ReadFault::Shape => shape_place(alloc, bytes),
        ReadFault::Name => name_place(alloc, bytes),
        ReadFault::Limit => limit_place(alloc, bytes),
        ReadFault::Broken => broken_place(alloc, bytes),
        ReadFault::Memory => unreachable!(),
    }
}

/// Whether the bytes are read as a file, or the kind of the first fault of them, with its place and
/// what is wrong there. It takes time and memory linear in the input. `Err` means that memory was refused.
///
/// The kind is what `read_file` says. The place is in the text. Of a file that is too long it is that
/// of the first byte that no file that begins so has, of a bad byte that of the first one. Of a shape it is where the
/// bytes stop being the beginning of a file: some file begins with the tokens before it, and none with
/// one more. Of a name or a limit it is the first name or number that is wrong, in the way that is told;
/// where only the cost of a declaration is, and of a condition that is not true, it is the name of the
/// first such declaration.
pub fn explain(alloc: Global, bytes: &[u8]) -> Result<Explanation, Memory>
    ensures { IfOk result (IsExplained bytes.now) }
{
    let kind = match read_file(alloc, bytes) {
        Ok(_) => return Ok(Explanation::Good),
        Err(ReadFault::Memory) => return Err(Memory),
        Err(kind) => kind,
    };
    let (place, finding) = place_of(alloc, bytes, kind)?;
    Ok(Explanation::Refused(Refusal {
        kind,
        place,
        finding,
    }))
}
