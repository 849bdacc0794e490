//! From the bytes of a file to the bytes of its report.

ghost use Rattle.std.specs.Prelude.{◌≡◌, ◌+◌, ℕ, List, true, OnOk};
ghost use Rattle.txn_text.specs.Spelling.{Spells};
ghost use Rattle.run_interface.specs.Counts.{FewFailed};
ghost use Rattle.run_interface.specs.Failures.{output_failures};
ghost use Rattle.runner.specs.Running.{Ran};

use crate::pieces::{run_values_fit, write_report};
use run_interface::{Options, RunFault, Sink};
use run_workers::{Gate, run_packed};
use std::alloc::Global;
use std::sync::Wait;
use std::thread::Threads;
use txn::Catalogue;
use txn_text::{ReadFault, read_file};

/// Runs the file that the bytes spell, and writes its report to the sink.
///
/// `Ok`: exactly the text of one lawful report of exactly that file was written, and then flushed. With
/// a checkpoint after each N entries its journal has fewer than N, and its base is a multiple of N; with
/// none its base is 0. With a seed its order is the one that is drawn from there on.
/// `Input`: the bytes spell no file, and this is the first kind of fault that they have; nothing
/// was written. `Memory`: a growth was refused; nothing was written. `Output`: a call of the sink
/// failed, the only one, and a beginning of one such text was written.
pub fn run_bytes<R: Threads + Wait + Sync, G: Gate, S: Sink>(
    rt: &R,
    alloc: Global,
    bytes: &[u8],
    options: Options,
    gate: &G,
    sink: &mut S,
) -> Result<(), RunFault>
    requires { FewFailed (S.failed sink.old) }
    ensures ran { Ran options.checkpoint options.seed bytes.now (S.bytes sink.old) (S.bytes sink.new) result }
    ensures flushed { OnOk result (S.flushed sink.new ≡ true) }
    ensures failures { S.failed sink.new ≡ S.failed sink.old + output_failures result }
{
    match read_file(alloc, bytes) {
        Ok(catalogue) => run_on(rt, alloc, &catalogue, options, gate, sink),
        Err(ReadFault::Memory) => Err(RunFault::Memory),
        Err(kind) => Err(RunFault::Input(kind)),
    }
}

/// Runs the catalogue's tasks, and writes the report: that of each file that spells the catalogue.
fn run_on<R: Threads + Wait + Sync, G: Gate, S: Sink>(
    rt: &R,
    alloc: Global,
    catalogue: &Catalogue,
    options: Options,
    gate: &G,
    sink: &mut S,
) -> Result<(), RunFault>
    requires { FewFailed (S.failed sink.old) }
    ensures ran { (file : List ℕ) → Spells file catalogue.now
        → Ran options.checkpoint options.seed file (S.bytes sink.old) (S.bytes sink.new) result }
    ensures flushed { OnOk result (S.flushed sink.new ≡ true) }
    ensures failures { S.failed sink.new ≡ S.failed sink.old + output_failures result }
{
    let Ok(report) = run_packed(rt, alloc, catalogue, options, gate) else {
        return Err(RunFault::Memory);
    };
    run_values_fit(&report);
    write_report(alloc, catalogue, &report, sink)
}
