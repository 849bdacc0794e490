//! Checking the bytes of a report.

ghost use Rattle.std.specs.Prelude.{◌≡◌, ◌⊎◌, IfOk, IfErr};
ghost use Rattle.txn_programs.specs.Listing.{Listing};
ghost use Rattle.txn_text.specs.Spelling.{Spells};
ghost use Rattle.txn_text.specs.Faults.{IsFirst};
ghost use Rattle.txn_text.specs.fault.ReadFault.TheVariants.{Memory as MemoryFault};
ghost use Rattle.checker.specs.declared.verdict.Verdict.{Verdict as VerdictOf};
ghost use Rattle.checker.specs.Verdicts.{IsVerdictOn, Judges};

use crate::judge::verdict_on;
use crate::verdict::{Part, Verdict};
use std::alloc::Global;
use text_line_reader::read_report;
use txn::{Catalogue, Memory};
use txn_text::{ReadFault, read_file};

/// The verdict on the bytes of a report of a catalogue.
pub(crate) fn verdict_of(
    alloc: Global,
    catalogue: &Catalogue,
    report: &[u8],
) -> Result<Verdict, Memory>
    ensures verdict { IfOk result (IsVerdictOn catalogue.now report.now) }
    ensures alone { (v : VerdictOf) → IsVerdictOn catalogue.now report.now v → IfOk result (λ w. w ≡ v) }
{
    match read_report(alloc, report, catalogue) {
        Ok(report) => Ok(verdict_on(alloc, catalogue, &report)?),
        Err(ReadFault::Memory) => Err(Memory),
        Err(_) => Ok(Verdict::Bad(Part::Text)),
    }
}

/// Checks a report of a file. It is `Good` exactly where the report's bytes are the text of a
/// report that is lawful for the file that the file's bytes spell, and `Bad` with a part exactly
/// where that is the first part that does not hold. A report that can't be read is
/// `Bad(Part::Text)`; `Err` is a fault of the file, the first that applies. `Memory` may come in
/// place of any answer, where a growth was refused.
///
/// Entries are replayed each by the transaction that its line names, with the arguments of its task; whether
/// that is the task's own is judged with the tasks. It takes time linear in the bytes and in the work of the entries
/// and the parked tasks.
pub fn check(alloc: Global, file: &[u8], report: &[u8]) -> Result<Verdict, ReadFault>
    // It is the verdict on the report, for the file that is spelled.
    ensures verdict { IfOk result (Judges file.now report.now) }
    // There is no other.
    ensures alone { (v : VerdictOf) → Judges file.now report.now v → IfOk result (λ w. w ≡ v) }
    // For a file that is spelled there is a verdict, unless memory runs out.
    ensures spelled { (l : Listing) → Spells file.now l → IfErr result (λ e. e ≡ MemoryFault) }
    // Which fault of the file it is.
    ensures fault { IfErr result (λ e. (e ≡ MemoryFault) ⊎ IsFirst file.now e) }
{
    let catalogue = read_file(alloc, file)?;
    match verdict_of(alloc, &catalogue, report) {
        Ok(verdict) => Ok(verdict),
        Err(_) => Err(ReadFault::Memory),
    }
}
