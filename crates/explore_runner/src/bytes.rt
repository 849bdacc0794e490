//! From the bytes of a file to the bytes of what is found of all orders of its tasks.

ghost use Rattle.std.specs.Prelude.{◌≡◌, ◌+◌, ◌≤◌, ℕ, List, true, IfOk, OnOk, IfErr, string_bytes};
ghost use Rattle.run_interface.specs.Counts.{FewFailed};
ghost use Rattle.run_interface.specs.Failures.{output_failures};
ghost use Rattle.run_interface.specs.declared.fault.RunFault.TheVariants as RunFault;
ghost use Rattle.txn_text.specs.Spelling.{Spells};
ghost use Rattle.explore_runner.specs.Showing.{IsShown, IsRefused, Showed};

use crate::printer::{print_found, print_more};
use crate::sight::Sight;
use explore_search::{MAX_STATES, Unexplored, explore};
use run_interface::{Limit, RunFault, Sink, put_text};
use std::alloc::Global;
use txn::Catalogue;
use txn_text::{ReadFault, read_file};

/// Sees every order of the tasks of the file that the bytes spell, of at most as many configurations as the limit
/// says, and writes what is found to the sink.
///
/// `Whole`: exactly the text of what is found when all orders are seen was written, and then
/// flushed. `More`: so was the line that says that more configurations are reached. `Input`: the bytes spell
/// no file, and this is the first kind of fault that they have; nothing was written. `Memory`: a
/// growth was refused; nothing was written. `Output`: a call of the sink failed, the only one, and
/// a beginning of one such text was written.
pub fn explore_bytes<S: Sink>(
    alloc: Global,
    file: &[u8],
    limit: Limit,
    sink: &mut S,
) -> Result<Sight, RunFault>
    requires { FewFailed (S.failed sink.old) }
    ensures showed { Showed file.now limit (S.bytes sink.old) (S.bytes sink.new) result }
    ensures flushed { OnOk result (S.flushed sink.new ≡ true) }
    ensures failures { S.failed sink.new ≡ S.failed sink.old + output_failures result }
{
    let (sight, text) = shown(alloc, file, limit.states())?;
    put_text(sink, &text)?;
    Ok(sight)
}

/// The text of what is found of the file that the bytes spell.
fn shown(alloc: Global, file: &[u8], limit: u32) -> Result<(Sight, String), RunFault>
    requires { limit ≤ MAX_STATES }
    ensures shown { IfOk result (λ s. IsShown file.now limit s.0 (string_bytes s.1)) }
    ensures refused { IfErr result (IsRefused file.now) }
{
    match catalogue_of(alloc, file) {
        Ok(catalogue) => shown_of(alloc, &catalogue, limit),
        Err(fault) => Err(fault),
    }
}

/// The text of what is found of the catalogue, which is that of each file that spells it.
fn shown_of(alloc: Global, catalogue: &Catalogue, limit: u32) -> Result<(Sight, String), RunFault>
    requires { limit ≤ MAX_STATES }
    ensures shown { IfOk result
        (λ s. (file : List ℕ) → Spells file catalogue.now → IsShown file limit s.0 (string_bytes s.1)) }
    ensures refused { IfErr result (λ fault. fault ≡ RunFault.Memory) }
{
    match explore(alloc, catalogue, limit) {
        Ok(found) => match print_found(alloc, catalogue, &found) {
            Ok(text) => Ok((Sight::Whole, text)),
            Err(_) => Err(RunFault::Memory),
        },
        Err(Unexplored::More) => match print_more(alloc, limit) {
            Ok(text) => Ok((Sight::More, text)),
            Err(_) => Err(RunFault::Memory),
        },
        Err(Unexplored::Memory) => Err(RunFault::Memory),
    }
}

/// The catalogue that the bytes spell.
pub(crate) fn catalogue_of(alloc: Global, file: &[u8]) -> Result<Catalogue, RunFault>
    ensures spelled { IfOk result (λ catalogue. Spells file.now catalogue) }
    ensures refused { IfErr result (IsRefused file.now) }
{
    match read_file(alloc, file) {
        Ok(catalogue) => Ok(catalogue),
        Err(ReadFault::Memory) => Err(RunFault::Memory),
        Err(kind) => Err(RunFault::Input(kind)),
    }
}
