//! From the bytes of a file to the bytes of the graph of all orders of its tasks.

ghost use Rattle.std.specs.Prelude.{◌≡◌, ◌+◌, ◌≤◌, ℕ, List, true, IfOk, OnOk, IfErr, string_bytes};
ghost use Rattle.run_interface.specs.Counts.{FewFailed};
ghost use Rattle.run_interface.specs.Failures.{output_failures};
ghost use Rattle.run_interface.specs.declared.fault.RunFault.TheVariants as RunFault;
ghost use Rattle.txn_text.specs.Spelling.{Spells};
ghost use Rattle.explore_runner.specs.Graphing.{Drew, IsDrawn, most_nodes};
ghost use Rattle.explore_runner.specs.Showing.{IsRefused};

use crate::bytes::catalogue_of;
use crate::graph_printer::print_graph;
use crate::printer::print_more;
use crate::sight::Sight;
use explore_search::{MAX_STATES, Unexplored, graph_of};
use run_interface::{Limit, RunFault, Sink, put_text};
use std::alloc::Global;
use txn::Catalogue;

/// The most configurations of which a graph is written.
pub const MAX_NODES: u32 = 2_000;

/// Sees every order of the tasks of the file that the bytes spell, of at most as many configurations as the limit
/// says and as a graph has, and writes their graph to the sink.
///
/// `Whole`: exactly the text of the graph was written, and then flushed. `More`: so was the line that says that
/// more configurations are reached. `Input`: the bytes spell no file, and this is the first kind of fault that they
/// have; nothing was written. `Memory`: a growth was refused; nothing was written. `Output`: a call of the sink
/// failed, the only one, and a beginning of one such text was written.
pub fn graph_bytes<S: Sink>(
    alloc: Global,
    file: &[u8],
    limit: Limit,
    sink: &mut S,
) -> Result<Sight, RunFault>
    requires { FewFailed (S.failed sink.old) }
    ensures drew { Drew file.now (most_nodes limit) (S.bytes sink.old) (S.bytes sink.new) result }
    ensures flushed { OnOk result (S.flushed sink.new ≡ true) }
    ensures failures { S.failed sink.new ≡ S.failed sink.old + output_failures result }
{
    let (sight, text) = drawn(alloc, file, most_nodes(limit))?;
    put_text(sink, &text)?;
    Ok(sight)
}

/// How many nodes the graph has at most.
fn most_nodes(limit: Limit) -> u32
    ensures most { result ≡ most_nodes limit }
    ensures few { result ≤ MAX_STATES }
{
    limit.states().min(MAX_NODES)
}

/// The text of the graph of the file that the bytes spell.
fn drawn(alloc: Global, file: &[u8], most: u32) -> Result<(Sight, String), RunFault>
    requires { most ≤ MAX_STATES }
    ensures drawn { IfOk result (λ s. IsDrawn file.now most s.0 (string_bytes s.1)) }
    ensures refused { IfErr result (IsRefused file.now) }
{
    match catalogue_of(alloc, file) {
        Ok(catalogue) => drawn_of(alloc, &catalogue, most),
        Err(fault) => Err(fault),
    }
}

/// The text of the graph of the catalogue, which is that of each file that spells it.
fn drawn_of(alloc: Global, catalogue: &Catalogue, most: u32) -> Result<(Sight, String), RunFault>
    requires { most ≤ MAX_STATES }
    ensures drawn { IfOk result
        (λ s. (file : List ℕ) → Spells file catalogue.now → IsDrawn file most s.0 (string_bytes s.1)) }
    ensures refused { IfErr result (λ fault. fault ≡ RunFault.Memory) }
{
    match graph_of(alloc, catalogue, most) {
        Ok(graph) => match print_graph(alloc, catalogue, &graph) {
            Ok(text) => Ok((Sight::Whole, text)),
            Err(_) => Err(RunFault::Memory),
        },
        Err(Unexplored::More) => match print_more(alloc, most) {
            Ok(text) => Ok((Sight::More, text)),
            Err(_) => Err(RunFault::Memory),
        },
        Err(Unexplored::Memory) => Err(RunFault::Memory),
    }
}
