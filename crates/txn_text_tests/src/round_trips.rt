//! What is printed is read again as the same: a catalogue, and a report of it.

ghost use Rattle.std.specs.Prelude.{◌≡◌, ◌<◌, ◌≤◌, ◌⊎◌, All, IfErr, IfOk, length, true};
ghost use Rattle.txn_programs.specs.declared.ast.Fault.TheVariants.{Outside};
ghost use Rattle.txn_programs.specs.declared.ast.Outcome.TheVariants.{Thrown};
ghost use Rattle.txn_programs.specs.LawfulReport.{FitsCatalogue};
ghost use Rattle.txn_programs.specs.Told.{told};
ghost use Rattle.txn_text.specs.Tree.{longest};
ghost use Rattle.txn_text.specs.Canonical.{file_text};
ghost use Rattle.txn_text.specs.ReportText.{report_text};
ghost use Rattle.txn_text.specs.Reports.{IsReport, knows_cells, max_len};
ghost use Rattle.txn_text.specs.Spelling.{Spells};
ghost use Rattle.txn_text.specs.fault.ReadFault.TheVariants.{Memory, TooLong};

use crate::report_reading::REPORT;
use std::alloc::Global;
use txn::{Catalogue, Report};
use txn_text::{ReadFault, print_file, print_report, read_file, read_report};

/// Reads bytes that spell the catalogue, if they are short enough.
fn file_of(alloc: Global, bytes: &[u8], catalogue: &Catalogue) -> Result<Catalogue, ReadFault>
    requires { length bytes.now ≤ longest bytes.now → Spells bytes.now catalogue.now }
    ensures same { IfOk result (λ again. again ≡ catalogue.now) }
    ensures fault { IfErr result (λ e. (e ≡ Memory) ⊎ ((e ≡ TooLong) × (longest bytes.now < length bytes.now))) }
{
    // Only the contract names it.
    let _wanted = catalogue;
    read_file(alloc, bytes)
}

/// The catalogue, printed and read again.
fn file_again(alloc: Global, catalogue: &Catalogue) -> Result<Catalogue, ReadFault>
    ensures same { IfOk result (λ again. again ≡ catalogue.now) }
    // Nothing else keeps it from coming back than running out of memory, or a text longer than a file may be.
    ensures fault { IfErr result (λ e. (e ≡ Memory)
        ⊎ ((e ≡ TooLong) × (longest (file_text catalogue.now) < length (file_text catalogue.now)))) }
{
    match print_file(alloc, catalogue) {
        Ok(text) => match file_of(alloc, text.as_bytes(), catalogue) {
            Ok(again) => Ok(again),
            Err(fault) => Err(fault),
        },
        Err(_) => Err(ReadFault::Memory),
    }
}

/// Reads bytes that are the text of the report, if they are short enough.
fn report_of(
    alloc: Global,
    bytes: &[u8],
    catalogue: &Catalogue,
    report: &Report,
) -> Result<Report, ReadFault>
    requires { length bytes.now ≤ max_len catalogue.now → IsReport catalogue.now bytes.now (told report.now) }
    ensures same { IfOk result (λ again. told again ≡ told report.entry.now) }
    ensures fault { IfErr result (λ e. (e ≡ Memory) ⊎ ((e ≡ TooLong) × (max_len catalogue.now < length bytes.now))) }
{
    // Only the contract names it.
    let _wanted = report;
    read_report(alloc, bytes, catalogue)
}

/// The report, printed and read again.
fn report_again(alloc: Global, catalogue: &Catalogue, report: &Report) -> Result<Report, ReadFault>
    requires fits { FitsCatalogue catalogue.now (told report.now) }
    requires outside { All (λ e. e.outcome ≡ Thrown Outside → knows_cells catalogue.now ≡ true)
        (told report.now).entries }
    ensures same { IfOk result (λ again. told again ≡ told report.entry.now) }
    ensures fault { IfErr result (λ e. (e ≡ Memory)
        ⊎ ((e ≡ TooLong) × (max_len catalogue.now < length (report_text catalogue.now (told report.entry.now))))) }
{
    match print_report(alloc, catalogue, report) {
        Ok(text) => match report_of(alloc, text.as_bytes(), catalogue, report) {
            Ok(again) => Ok(again),
            Err(fault) => Err(fault),
        },
        Err(_) => Err(ReadFault::Memory),
    }
}

/// A catalogue and its report, each printed and read again, the report by the catalogue that came
/// back.
fn both_again(
    alloc: Global,
    catalogue: &Catalogue,
    report: &Report,
) -> Result<(Catalogue, Report), ReadFault>
    requires fits { FitsCatalogue catalogue.now (told report.now) }
    requires outside { All (λ e. e.outcome ≡ Thrown Outside → knows_cells catalogue.now ≡ true)
        (told report.now).entries }
    ensures file { IfOk result (λ again. again.0 ≡ catalogue.now) }
    ensures report { IfOk result (λ again. told again.1 ≡ told report.entry.now) }
{
    let file = file_again(alloc, catalogue)?;
    let report = report_again(alloc, &file, report)?;
    Ok((file, report))
}

/// Whether the catalogue and its report come back.
pub(crate) fn comes_back(alloc: Global, catalogue: &Catalogue) -> bool {
    let Ok(report) = read_report(alloc, REPORT.as_bytes(), catalogue) else {
        return false;
    };
    match both_again(alloc, catalogue, &report) {
        Ok((file, again)) => file.tasks() == 2 && again.now == 2,
        Err(_) => false,
    }
}
