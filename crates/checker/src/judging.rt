//! A report that is judged and kept.

ghost use Rattle.std.specs.Prelude.{◌≡◌, IfOk};
ghost use Rattle.txn_programs.specs.Told.{Told, told};
ghost use Rattle.txn_programs.specs.LawfulReport.{FitsCatalogue};
ghost use Rattle.text_line_reader.specs.Reports.{IsReport};
ghost use Rattle.checker.specs.declared.verdict.Verdict.{Verdict as VerdictOf};
ghost use Rattle.checker.specs.Judging.{IsJudged, IsOf, verdict_of};
ghost use Rattle.checker.specs.Verdicts.{IsVerdictOn};

use crate::judge::verdict_on;
use crate::verdict::{Part, Verdict};
use std::alloc::Global;
use text_line_reader::read_report;
use txn::{Catalogue, Memory, Report};
use txn_text::ReadFault;

/// What came of the bytes of a report.
#[derive(Drop)]
pub enum Judgement {
    /// They are the text of this report, which is lawful.
    Lawful(Report),
    /// This part does not hold, and all before it do.
    Bad(Part),
}

/// Judges the bytes of a report of a catalogue as `check` does, and hands on the report where it is lawful.
/// `Memory` may come in place of any answer, where a growth was refused.
pub fn judged(alloc: Global, catalogue: &Catalogue, bytes: &[u8]) -> Result<Judgement, Memory>
    ensures judged { IfOk result (IsJudged catalogue.now bytes.now) }
    // It is the only verdict.
    ensures alone { (v : VerdictOf) → IsVerdictOn catalogue.now bytes.now v → IfOk result (λ j. verdict_of j ≡ v) }
    // It is the only report.
    ensures only { (r : Told) → IsReport catalogue.now bytes.now r → IfOk result (IsOf r) }
{
    match read_report(alloc, bytes, catalogue) {
        Ok(report) => match verdict_on(alloc, catalogue, &report) {
            Ok(Verdict::Good) => Ok(Judgement::Lawful(report)),
            Ok(Verdict::Bad(part)) => Ok(Judgement::Bad(part)),
            Err(_) => Err(Memory),
        },
        Err(ReadFault::Memory) => Err(Memory),
        Err(_) => Ok(Judgement::Bad(Part::Text)),
    }
}
