//! From the bytes of a file and of a report to the bytes of what is said of the report.

ghost use Rattle.std.specs.Prelude.{◌≡◌, ◌+◌, true, IfOk, OnOk, IfErr, string_bytes};
ghost use Rattle.txn_text.specs.Spelling.{Spells};
ghost use Rattle.run_interface.specs.Counts.{FewFailed};
ghost use Rattle.run_interface.specs.Failures.{output_failures};
ghost use Rattle.run_interface.specs.Refused.{IsRefused};
ghost use Rattle.explain_reports.specs.Explaining.{IsExplained, verdict_of};
ghost use Rattle.explain_reports.specs.Texts.{explanation_text};
ghost use Rattle.explain_reports.specs.Writing.{IsAnswer, Written};

use crate::explaining::{ReportExplanation, explain};
use crate::text::put_explanation;
use checker::Verdict;
use run_interface::{RunFault, Sink, catalogue_of, put_text};
use std::alloc::{AllocError, Global};
use txn::Catalogue;

/// Writes what is said of a report of the file that the bytes spell to the sink: `good`; or `bad`
/// and the number of the part that fails first, then the line on which that shows, with its number
/// and its text, and what replay has there. A report that can't be read is `bad 1`, with the reason.
///
/// `Ok`: exactly that was written, and then flushed, and this is the checker's verdict. `Input`: the
/// bytes spell no file, and this is the first kind of fault that they have; nothing was written.
/// `Memory`: a growth was refused; nothing was written. `Output`: a call of the sink failed, the
/// only one, and a beginning of that text was written.
pub fn explain_bytes<S: Sink>(
    alloc: Global,
    bytes: &[u8],
    report: &[u8],
    sink: &mut S,
) -> Result<Verdict, RunFault>
    requires { FewFailed (S.failed sink.old) }
    ensures written { Written bytes.now report.now (S.bytes sink.old) (S.bytes sink.new) result }
    ensures flushed { OnOk result (S.flushed sink.new ≡ true) }
    ensures failures { S.failed sink.new ≡ S.failed sink.old + output_failures result }
{
    let (verdict, text) = answered(alloc, bytes, report)?;
    put_text(sink, &text)?;
    Ok(verdict)
}

/// What is said of a report, as text.
fn text_of(
    alloc: Global,
    catalogue: &Catalogue,
    explanation: ReportExplanation<'_>,
) -> Result<String, AllocError>
    ensures { IfOk result (λ s. string_bytes s ≡ explanation_text catalogue.now explanation.entry) }
{
    let mut text = String::new(alloc);
    put_explanation(&mut text, catalogue, explanation)?;
    Ok(text)
}

/// The verdict on the report, and what is said of it.
fn answered(alloc: Global, bytes: &[u8], report: &[u8]) -> Result<(Verdict, String), RunFault>
    ensures answered { IfOk result (λ x. IsAnswer bytes.now report.now x.0 (string_bytes x.1)) }
    ensures refused { IfErr result (IsRefused bytes.now) }
{
    match catalogue_of(alloc, bytes) {
        Ok(catalogue) => answered_of(alloc, bytes, &catalogue, report),
        Err(fault) => Err(fault),
    }
}

/// The verdict on the report of the catalogue that the bytes spell, and what is said of it.
pub(crate) fn answered_of(
    alloc: Global,
    bytes: &[u8],
    catalogue: &Catalogue,
    report: &[u8],
) -> Result<(Verdict, String), RunFault>
    requires { Spells bytes.now catalogue.now }
    ensures answered { IfOk result (λ x. IsAnswer bytes.now report.now x.0 (string_bytes x.1)) }
    ensures refused { IfErr result (λ fault. fault ≡ RunFault.Memory) }
{
    let Ok(explanation) = explain(alloc, catalogue, report) else {
        return Err(RunFault::Memory);
    };
    match text_of(alloc, catalogue, explanation) {
        Ok(text) => Ok((explanation.verdict(), text)),
        Err(_) => Err(RunFault::Memory),
    }
}
