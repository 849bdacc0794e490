//! From the bytes of a file to the bytes of what is told of it.

ghost use Rattle.std.specs.Prelude.{◌≡◌, ◌+◌, true, IfOk, OnOk, string_bytes};
ghost use Rattle.run_interface.specs.Counts.{FewFailed};
ghost use Rattle.run_interface.specs.Failures.{output_failures};
ghost use Rattle.explain_files.specs.Telling.{Telling, IsTextOf};

use crate::text::told;
use crate::{Explanation, explain};
use run_interface::{RunFault, Sink, put_text};
use std::alloc::Global;
use text_words::ReadFault;
use txn::Memory;

/// What was told of a file.
#[derive(Clone, Copy, PartialEq, Eq)]
pub enum Judgement {
    /// It is read.
    Good,
    /// It is refused for a first fault of this kind.
    Refused(ReadFault),
}

/// What is told, and its text.
fn text_of(alloc: Global, bytes: &[u8]) -> Result<(Judgement, String), Memory>
    ensures { IfOk result (λ x. IsTextOf bytes.now x.0 (string_bytes x.1)) }
{
    match explain(alloc, bytes)? {
        Explanation::Good => {
            let text = String::from_str(alloc, "good\n")?;
            Ok((Judgement::Good, text))
        }
        Explanation::Refused(refusal) => {
            let text = told(alloc, bytes, &refusal)?;
            Ok((Judgement::Refused(refusal.kind), text))
        }
    }
}

/// Writes to the sink whether the bytes are read as a file: `good`, or where and why they are refused, as
/// `line 3, column 12: F3 Shape: ` and what is wanted there.
///
/// `Ok`: exactly that line was written, and then flushed. `Memory`: a growth was refused; nothing was
/// written. `Output`: a call of the sink failed, the only one, and a beginning of the line was written.
pub fn explain_bytes<S: Sink>(
    alloc: Global,
    bytes: &[u8],
    sink: &mut S,
) -> Result<Judgement, RunFault>
    requires { FewFailed (S.failed sink.old) }
    ensures told { Telling bytes.now (S.bytes sink.old) (S.bytes sink.new) result }
    ensures flushed { OnOk result (S.flushed sink.new ≡ true) }
    ensures failures { S.failed sink.new ≡ S.failed sink.old + output_failures result }
{
    let Ok((told, text)) = text_of(alloc, bytes) else {
        return Err(RunFault::Memory);
    };
    put_text(sink, &text)?;
    Ok(told)
}
