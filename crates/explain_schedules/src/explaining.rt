//! Whether a schedule is read, and where and why it is not.

ghost use Rattle.std.specs.Prelude.{◌≡◌, ◌≤◌, IfOk, length};
ghost use Rattle.txn_programs.specs.Listing.{spans};
ghost use Rattle.text_line_reader.specs.Schedules.{IsFirst};
ghost use Rattle.explain_schedules.specs.Explaining.{IsPlaced, IsExplained};

use crate::form::first_stop;
use crate::judging::{Judged, first_wrong};
use crate::line::Wanted;
use explain_files::bad_byte_place;
use std::alloc::Global;
use text_line_reader::{MAX_SCHEDULE, knows_cells, read_schedule, spans_of};
use text_words::ReadFault;
use txn::{Catalogue, Memory, Span};

/// What is wrong at the place.
#[derive(Clone, Copy, PartialEq, Eq)]
pub enum Finding {
    /// The schedule has this byte, which is one too many.
    TooLong,
    /// No schedule may have this byte.
    BadByte,
    /// What stands here is not what is wanted.
    Unwanted(Wanted),
    /// No variable has this name.
    NoVariable,
    /// No table has the name before the bracket.
    NoTable,
    /// The table has no cell of this number.
    NoCell,
    /// There is no task of this number.
    NoTask,
}

/// Why a schedule is refused.
#[derive(Clone, Copy, PartialEq, Eq)]
pub struct Refusal {
    /// The kind of its first fault.
    pub kind: ReadFault,
    /// How many bytes stand before the place of it.
    pub place: usize,
    pub finding: Finding,
}

/// Whether a schedule is read, or why it is refused.
#[derive(Clone, Copy, PartialEq, Eq)]
pub enum ScheduleExplanation {
    Good,
    Refused(Refusal),
}

/// The place of the first fault of a schedule, whose kind this is; `tables` are the cells of each table.
fn place_of(
    catalogue: &Catalogue,
    tables: &[Span],
    bytes: &[u8],
    kind: ReadFault,
) -> (usize, Finding)
    requires tables { tables.now ≡ spans catalogue.now }
    requires first { IsFirst catalogue.now bytes.now kind }
    ensures placed { IsPlaced catalogue.now kind bytes.now result.0 result.1 }
    ensures bound { result.0 ≤ length bytes.now }
{
    catalogue.rules();
    match kind {
        ReadFault::TooLong => (MAX_SCHEDULE, Finding::TooLong),
        ReadFault::BadByte => (bad_byte_place(bytes), Finding::BadByte),
        ReadFault::Shape => {
            let stop = first_stop(bytes, knows_cells(catalogue));
            (stop.place, Finding::Unwanted(stop.wanted))
        }
        ReadFault::Name => first_wrong(catalogue, tables, Judged::Names, bytes),
        ReadFault::Limit => first_wrong(catalogue, tables, Judged::Tasks, bytes),
        ReadFault::Broken => unreachable!(),
        ReadFault::Memory => unreachable!(),
    }
}

/// Whether the bytes are read as a schedule of the catalogue, or the kind of the first fault of them,
/// with its place and what is wrong there. It takes time and memory linear in the input. `Err` means
/// that memory was refused.
///
/// The kind is what `read_schedule` says. Of a schedule that is too long the place is that of the first
/// byte that no schedule has room for, of a bad byte that of the first one. Of a shape it is that of a word: some
/// schedule begins with the bytes before it, and none with the word and the space or the newline that ends
/// it; or it is the end of the text, where a newline is missing and nothing else. Of an unknown
/// variable or cell it is that of its name, and of a task that there is not that of its number, in the first
/// line that names one.
pub fn explain(
    alloc: Global,
    catalogue: &Catalogue,
    bytes: &[u8],
) -> Result<ScheduleExplanation, Memory>
    ensures { IfOk result (IsExplained catalogue.now bytes.now) }
{
    let kind = match read_schedule(alloc, bytes, catalogue) {
        Ok(_) => return Ok(ScheduleExplanation::Good),
        Err(ReadFault::Memory) => return Err(Memory),
        Err(kind) => kind,
    };
    let tables = spans_of(alloc, catalogue)?;
    let (place, finding) = place_of(catalogue, &tables, bytes, kind);
    Ok(ScheduleExplanation::Refused(Refusal {
        kind,
        place,
        finding,
    }))
}
