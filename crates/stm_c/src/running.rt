//! All tasks of a file, one after another on the calling thread, and the report.

ghost use Rattle.std.specs.Prelude.{◌≡◌, ◌≢◌, pos, IfOk, IfErr, ◌⊎◌, Some, string_bytes};
ghost use Rattle.txn_programs.specs.Told.{told};
ghost use Rattle.txn_programs.specs.LawfulReport.{LawfulReport, BaseReached};
ghost use Rattle.text_grammar.specs.Spelling.{Spells, first_fault};
ghost use Rattle.text_words.specs.declared.fault.ReadFault.TheVariants as ReadFault;
ghost use Rattle.book.specs.Turns.{IsIdle, ReportIs};
ghost use Rattle.run_workers.specs.GivingUp.{GaveUpForMemory};
ghost use Rattle.run_workers.specs.Journals.{KeepsShort};
ghost use Rattle.runner.specs.Running.{IsReportBy};
ghost use Rattle.stm_c.specs.Rooms.{Holds, TooShort};
ghost use Rattle.stm_c.specs.Files.{IsRefused};

use crate::codes::{SHORT, file_fault};
use crate::writing::copy;
use book::Book;
use cells::Cells;
use std::alloc::Global;
use txn::{Catalogue, Memory, Report};
use txn_text::{ReadFault, print_report, read_file};

/// Runs all tasks of the file, and copies the report's text into the room: 0, and `wanted` is how
/// long it is. With a checkpoint after each N entries its journal has fewer than N, and its base is a
/// multiple of N; with 0, for none, its base is 0. -1 to -7: the file is refused, or out of memory.
/// -8: the room is too short, and `wanted` is how much is needed. Where there is no text, it is 0.
#[unsafe(no_mangle)]
pub extern "C" fn stm_run_one(
    alloc: Global,
    file: &[u8],
    checkpoint: u32,
    room: &mut [u8],
    wanted: &mut usize,
) -> i32
    ensures done { result ≡ pos 0 → Holds (IsReportBy checkpoint file.now) room.old room.new wanted.new }
    ensures too_short { result ≡ SHORT → TooShort (IsReportBy checkpoint file.now) room.old room.new wanted.new }
    ensures refused { result ≢ pos 0 → result ≢ SHORT → IsRefused file.now result }
    ensures none { result ≢ pos 0 → result ≢ SHORT → wanted.new ≡ 0 }
    ensures kept { result ≢ pos 0 → room.new ≡ room.old }
{
    *wanted = 0;
    match report_of(alloc, file, checkpoint) {
        Ok(text) => copy(text.as_bytes(), room, wanted),
        Err(fault) => file_fault(fault),
    }
}

/// The text of a lawful report of the file that the bytes spell.
fn report_of(alloc: Global, bytes: &[u8], checkpoint: u32) -> Result<String, ReadFault>
    ensures report { IfOk result (λ text. IsReportBy checkpoint bytes.now (string_bytes text)) }
    ensures fault { IfErr result (λ e. (e ≡ ReadFault.Memory) ⊎ (first_fault bytes.now ≡ Some e)) }
{
    match read_file(alloc, bytes) {
        Ok(catalogue) => report_text(alloc, bytes, &catalogue, checkpoint),
        Err(fault) => Err(fault),
    }
}

/// The text of a lawful report of the catalogue that the bytes spell.
fn report_text(
    alloc: Global,
    bytes: &[u8],
    catalogue: &Catalogue,
    checkpoint: u32,
) -> Result<String, ReadFault>
    requires { Spells bytes.now catalogue.now }
    ensures report { IfOk result (λ text. IsReportBy checkpoint bytes.now (string_bytes text)) }
    ensures fault { IfErr result (λ e. e ≡ ReadFault.Memory) }
{
    let Ok(report) = run_alone(alloc, catalogue, checkpoint) else {
        return Err(ReadFault::Memory);
    };
    match print_report(alloc, catalogue, &report) {
        Ok(text) => Ok(text),
        Err(_) => Err(ReadFault::Memory),
    }
}

/// Gives each task its turn, and reports.
fn run_alone(alloc: Global, catalogue: &Catalogue, checkpoint: u32) -> Result<Report, Memory>
    ensures lawful { IfOk result (λ r. LawfulReport catalogue.now (told r)) }
    ensures reached { IfOk result (λ r. BaseReached catalogue.now (told r)) }
    ensures short { IfOk result (λ r. KeepsShort checkpoint (told r)) }
    ensures memory { IfOk result (λ r. GaveUpForMemory catalogue.now (told r)) }
{
    let (cells, publisher) = Cells::unread(alloc, catalogue.initial())?;
    let mut book = Book::open(alloc, catalogue, &cells, publisher)?;
    book.law();
    book.drain(alloc, checkpoint);
    report(alloc, &book)
}

/// The report of a book with no task ready or running.
fn report(alloc: Global, book: &Book<'_>) -> Result<Report, Memory>
    requires { IsIdle book.now }
    ensures is { IfOk result (λ r. ReportIs book.now (told r)) }
    ensures lawful { IfOk result (λ r. LawfulReport book.now.catalogue (told r)) }
    ensures reached { IfOk result (λ r. BaseReached book.now.catalogue (told r)) }
{
    book.law();
    book.report(alloc)
}
