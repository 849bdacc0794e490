//! From the bytes of a file to the bytes of its canonical text.

ghost use Rattle.std.specs.Prelude.{◌≡◌, ◌+◌, true, IfOk, OnOk, IfErr, string_bytes};
ghost use Rattle.txn_programs.specs.Told.{told};
ghost use Rattle.txn_programs.specs.LawfulReport.{LawfulReport};
ghost use Rattle.txn_text.specs.Spelling.{Spells};
ghost use Rattle.file_chains.specs.GoingOn.{next_of};
ghost use Rattle.run_interface.specs.Counts.{FewFailed};
ghost use Rattle.run_interface.specs.Failures.{output_failures};
ghost use Rattle.run_interface.specs.Refused.{IsRefused};
ghost use Rattle.run_interface.specs.declared.fault.RunFault.TheVariants as RunFault;
ghost use Rattle.checker.specs.declared.verdict.Verdict.{Verdict as VerdictOf};
ghost use Rattle.file_chains.specs.Printing.{IsAnswer, IsPrinted, IsTextOf, Printed, PrintedOn};

use crate::next::{Next, next_of};
use checker::{Judgement, Verdict, judged};
use run_interface::{RunFault, Sink, catalogue_of, put_text};
use std::alloc::Global;
use txn::{Catalogue, Memory, Report};
use txn_text::print_file;

/// Writes the canonical text of the file that the bytes spell to the sink. Comments are no part of
/// it.
///
/// `Ok`: exactly that text was written, and then flushed. `Input`: the bytes spell no file, and this
/// is the first kind of fault that they have; nothing was written. `Memory`: a growth was refused;
/// nothing was written. `Output`: a call of the sink failed, the only one, and a beginning of that
/// text was written.
pub fn print_bytes<S: Sink>(alloc: Global, bytes: &[u8], sink: &mut S) -> Result<(), RunFault>
    requires { FewFailed (S.failed sink.old) }
    ensures printed { Printed bytes.now (S.bytes sink.old) (S.bytes sink.new) result }
    ensures flushed { OnOk result (S.flushed sink.new ≡ true) }
    ensures failures { S.failed sink.new ≡ S.failed sink.old + output_failures result }
{
    let text = printed(alloc, bytes)?;
    put_text(sink, &text)
}

/// Writes the canonical text of the file with which work goes on where a report ended to the sink: each
/// variable begins at the value that it has at the report's present, and the runs are those of the file
/// or, of the next chapter, one of one task for each parked one; all else is as the first bytes spell it.
/// A report that is not lawful for the file is answered by its verdict, and the verdict's line is written.
///
/// `Ok(Good)`: exactly that text was written, and then flushed. `Ok(Bad(part))`: this part of the
/// report fails first; `bad` and its number were written, and then flushed. `Err` as of
/// `print_bytes`.
pub fn print_on_bytes<S: Sink>(
    alloc: Global,
    bytes: &[u8],
    report: &[u8],
    next: Next,
    sink: &mut S,
) -> Result<Verdict, RunFault>
    requires { FewFailed (S.failed sink.old) }
    ensures printed { PrintedOn next bytes.now report.now (S.bytes sink.old) (S.bytes sink.new) result }
    ensures flushed { OnOk result (S.flushed sink.new ≡ true) }
    ensures failures { S.failed sink.new ≡ S.failed sink.old + output_failures result }
{
    let (verdict, text) = answered(alloc, bytes, report, next)?;
    put_text(sink, &text)?;
    Ok(verdict)
}

/// The canonical text of a catalogue.
fn text_of(alloc: Global, catalogue: &Catalogue) -> Result<String, Memory>
    ensures { IfOk result (λ text. IsTextOf catalogue.now (string_bytes text)) }
{
    print_file(alloc, catalogue)
}

/// The canonical text of the catalogue, or that there was no memory for it.
fn text_or_fault(alloc: Global, catalogue: &Catalogue) -> Result<String, RunFault>
    ensures text { IfOk result (λ text. IsTextOf catalogue.now (string_bytes text)) }
    ensures refused { IfErr result (λ fault. fault ≡ RunFault.Memory) }
{
    match text_of(alloc, catalogue) {
        Ok(text) => Ok(text),
        Err(_) => Err(RunFault::Memory),
    }
}

/// The canonical text of the file that the bytes spell.
fn printed(alloc: Global, bytes: &[u8]) -> Result<String, RunFault>
    ensures printed { IfOk result (λ text. IsPrinted bytes.now (string_bytes text)) }
    ensures refused { IfErr result (IsRefused bytes.now) }
{
    match catalogue_of(alloc, bytes) {
        Ok(catalogue) => text_or_fault(alloc, &catalogue),
        Err(fault) => Err(fault),
    }
}

/// The canonical text of the file with which work goes on where the report ended.
fn text_on(
    alloc: Global,
    catalogue: &Catalogue,
    report: &Report,
    next: Next,
) -> Result<String, Memory>
    requires { LawfulReport catalogue.now (told report.now) }
    ensures { IfOk result (λ text. IsTextOf (next_of next catalogue.now (told report.entry.now)) (string_bytes text)) }
{
    let following = next_of(alloc, catalogue, report, next)?;
    text_of(alloc, &following)
}

/// The verdict on the report, and what is written of it.
fn answered(
    alloc: Global,
    bytes: &[u8],
    report: &[u8],
    next: Next,
) -> Result<(Verdict, String), RunFault>
    ensures answered { IfOk result (λ x. IsAnswer next bytes.now report.now x.0 (string_bytes x.1)) }
    ensures refused { IfErr result (IsRefused bytes.now) }
{
    match catalogue_of(alloc, bytes) {
        Ok(catalogue) => answered_of(alloc, bytes, &catalogue, report, next),
        Err(fault) => Err(fault),
    }
}

/// The verdict on the report of the catalogue that the bytes spell, and what is written of it.
fn answered_of(
    alloc: Global,
    bytes: &[u8],
    catalogue: &Catalogue,
    report: &[u8],
    next: Next,
) -> Result<(Verdict, String), RunFault>
    requires { Spells bytes.now catalogue.now }
    ensures answered { IfOk result (λ x. IsAnswer next bytes.now report.now x.0 (string_bytes x.1)) }
    ensures refused { IfErr result (λ fault. fault ≡ RunFault.Memory) }
{
    match judged(alloc, catalogue, report) {
        Ok(Judgement::Lawful(report)) => match text_on(alloc, catalogue, &report, next) {
            Ok(text) => Ok((Verdict::Good, text)),
            Err(_) => Err(RunFault::Memory),
        },
        Ok(Judgement::Bad(part)) => {
            let verdict = Verdict::Bad(part);
            match String::from_str(alloc, verdict.line()) {
                Ok(line) => Ok((verdict, line)),
                Err(_) => Err(RunFault::Memory),
            }
        }
        Err(_) => Err(RunFault::Memory),
    }
}
