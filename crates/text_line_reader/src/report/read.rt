//! Reports read.

ghost use Rattle.std.specs.Prelude.{◌≡◌, All, FitsSigned, IfOk, IfErr, OnOk, ◌⊎◌, Ok, drop, length};
ghost use Rattle.std.specs.Int.{w64};
ghost use Rattle.txn_programs.specs.Told.{Told, told};
ghost use Rattle.text_words.specs.Answers.{Gives};
ghost use Rattle.text_words.specs.declared.fault.ReadFault.TheVariants.{Memory};
ghost use Rattle.text_line_reader.specs.Reports.{IsReport, IsFirst, max_len, report_at};

use crate::cells::knows_cells;
use crate::report::resolve::resolved;
use crate::report::shape::raw_of;
use std::alloc::Global;
use text_words::ReadFault;
use text_words::bytes::are_allowed;
use txn::{Catalogue, Report};

/// The longest report of a catalogue without cells, in bytes.
pub const MAX_REPORT: usize = 8_388_608;

/// The longest report of a catalogue, in bytes: each cell adds to it.
pub fn max_report(catalogue: &Catalogue) -> usize
    ensures { result ≡ max_len catalogue.now }
{
    catalogue.rules();
    MAX_REPORT + 160 * (catalogue.initial().len() - catalogue.var_count())
}

#[tactic(auto, unfolding(crate::specs::Reports::report_at))]
fn read(alloc: Global, bytes: &[u8], catalogue: &Catalogue) -> Result<Report, ReadFault>
    ensures value { Gives told result (report_at catalogue.now bytes.now) }
    ensures fit { OnOk result (All (FitsSigned w64) (drop (length catalogue.now.names) catalogue.now.initial)) }
{
    if bytes.len() > max_report(catalogue) {
        return Err(ReadFault::TooLong);
    }
    if !are_allowed(bytes) {
        return Err(ReadFault::BadByte);
    }
    catalogue.rules();
    let cells = knows_cells(catalogue);
    let raw = raw_of(alloc, bytes, catalogue.var_count(), cells)?;
    resolved(alloc, catalogue, &raw)
}

/// Reads a report of a catalogue. It is `Ok` exactly where the bytes, at most 8,388,608 and 160
/// more for each cell, are the text of a report that fits the catalogue: each line in its place,
/// each variable's line with its name, cells in their order and none of version 0, numbers and
/// versions at most 65,536, values of 64 signed bits, tasks and transactions of the catalogue, and
/// no cell and no entry that ended `outside` unless there is a table or a transaction has
/// parameters. A cell without a line has its initial value and version 0. Otherwise
/// the fault is the first of `TooLong`, `BadByte`, `Shape`, `Name` and `Limit` that applies, each
/// judged over all the bytes before the next is. `Memory` may come in place of any answer, where a
/// growth was refused. It takes time and memory linear in the input.
pub fn read_report(alloc: Global, bytes: &[u8], catalogue: &Catalogue) -> Result<Report, ReadFault>
    // What is read has this text.
    ensures found { IfOk result (λ r. IsReport catalogue.now bytes.now (told r)) }
    // The text of a report is read as that report, unless memory runs out.
    ensures only { (r : Told) → IsReport catalogue.now bytes.now r → Gives told result (Ok r) }
    // Which fault it is.
    ensures fault { IfErr result (λ e. (e ≡ Memory) ⊎ IsFirst catalogue.now bytes.now e) }
{
    catalogue.rules();
    read(alloc, bytes, catalogue)
}
