//! From the bytes of a file and of a schedule to the bytes of what is told of the schedule.

ghost use Rattle.std.specs.Prelude.{◌≡◌, ◌+◌, true, IfOk, IfErr, OnOk, string_bytes};
ghost use Rattle.run_interface.specs.Counts.{FewFailed};
ghost use Rattle.run_interface.specs.Failures.{output_failures};
ghost use Rattle.run_interface.specs.Refused.{IsRefused};
ghost use Rattle.explain_schedules.specs.Telling.{Telling, IsTextOf, IsAnswer};

use crate::explaining::{ScheduleExplanation, explain};
use crate::text::told;
use explain_files::Judgement;
use run_interface::{RunFault, Sink, catalogue_of, put_text};
use std::alloc::Global;
use txn::{Catalogue, Memory};

/// Writes to the sink whether a schedule of the file that the bytes spell is read: `good`, or where and
/// why it is refused, as `line 3, column 6: F4 Name: ` and what is wrong there.
///
/// `Ok`: exactly that line was written, and then flushed. `Input`: the bytes spell no file, and this is
/// the first kind of fault that they have; nothing was written. `Memory`: a growth was refused; nothing was
/// written. `Output`: a call of the sink failed, the only one, and a beginning of the line was written.
pub fn explain_bytes<S: Sink>(
    alloc: Global,
    file: &[u8],
    schedule: &[u8],
    sink: &mut S,
) -> Result<Judgement, RunFault>
    requires { FewFailed (S.failed sink.old) }
    ensures told { Telling file.now schedule.now (S.bytes sink.old) (S.bytes sink.new) result }
    ensures flushed { OnOk result (S.flushed sink.new ≡ true) }
    ensures failures { S.failed sink.new ≡ S.failed sink.old + output_failures result }
{
    let (told, text) = answered(alloc, file, schedule)?;
    put_text(sink, &text)?;
    Ok(told)
}

/// What is told of a schedule, and its text.
fn text_of(
    alloc: Global,
    catalogue: &Catalogue,
    schedule: &[u8],
) -> Result<(Judgement, String), Memory>
    ensures { IfOk result (λ x. IsTextOf catalogue.now schedule.now x.0 (string_bytes x.1)) }
{
    match explain(alloc, catalogue, schedule)? {
        ScheduleExplanation::Good => {
            let text = String::from_str(alloc, "good\n")?;
            Ok((Judgement::Good, text))
        }
        ScheduleExplanation::Refused(refusal) => {
            let text = told(alloc, catalogue, schedule, &refusal)?;
            Ok((Judgement::Refused(refusal.kind), text))
        }
    }
}

/// What is told of a schedule of the file that the bytes spell, and its text.
fn answered(alloc: Global, file: &[u8], schedule: &[u8]) -> Result<(Judgement, String), RunFault>
    ensures answered { IfOk result (λ x. IsAnswer file.now schedule.now x.0 (string_bytes x.1)) }
    ensures refused { IfErr result (IsRefused file.now) }
{
    let catalogue = catalogue_of(alloc, file)?;
    match text_of(alloc, &catalogue, schedule) {
        Ok(answer) => Ok(answer),
        Err(_) => Err(RunFault::Memory),
    }
}
