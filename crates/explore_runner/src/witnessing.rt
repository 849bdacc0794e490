//! From the bytes of a file to the bytes of a report that comes to one of its ends.

ghost use Rattle.std.specs.Prelude.{◌≡◌, ◌+◌, ◌≤◌, ℕ, List, true, IfOk, OnOk, IfErr, string_bytes};
ghost use Rattle.run_interface.specs.Counts.{FewFailed};
ghost use Rattle.run_interface.specs.Failures.{output_failures};
ghost use Rattle.run_interface.specs.declared.fault.RunFault.TheVariants as RunFault;
ghost use Rattle.txn_text.specs.Spelling.{Spells};
ghost use Rattle.explore_law.specs.Orders.{Config, Leads, first_config};
ghost use Rattle.explore_runner.specs.Ends.{LeadsToEnd};
ghost use Rattle.explore_runner.specs.Showing.{IsRefused};
ghost use Rattle.explore_runner.specs.Witness.{Answered, IsAnswer, IsReportTo};

use crate::bytes::catalogue_of;
use crate::laws::ways_lead_to_ends;
use crate::printer::print_more;
use crate::sight::Witnessed;
use crate::witness;
use explore_search::{InstanceId, MAX_STATES, Unexplored, way_to_end};
use run_interface::{Limit, RunFault, Sink, put_text};
use std::alloc::Global;
use text_report_printer::print_report;
use txn::{Catalogue, Memory};

/// Writes to the sink a report of a run of the file that the bytes spell: one that comes to the end
/// of this number, counted from 0, of those that are found when all orders are seen, by as few turns
/// as any order has to it. At most as many configurations are looked at as the limit says.
///
/// `Report`: exactly the text of one such report was written, and then flushed. `NoEnd`: there are
/// no more than so many ends; nothing was written. `Beyond`: the line was written that says that
/// more configurations are reached. `Input`: the bytes spell no file, and this is the first kind of fault
/// that they have; nothing was written. `Memory`: a growth was refused; nothing was written.
/// `Output`: a call of the sink failed, the only one, and a beginning of one such text was written.
pub fn witness_bytes<S: Sink>(
    alloc: Global,
    file: &[u8],
    limit: Limit,
    end: usize,
    sink: &mut S,
) -> Result<Witnessed, RunFault>
    requires { FewFailed (S.failed sink.old) }
    ensures answered { Answered file.now limit end (S.bytes sink.old) (S.bytes sink.new) result }
    ensures flushed { OnOk result (S.flushed sink.new ≡ true) }
    ensures failures { S.failed sink.new ≡ S.failed sink.old + output_failures result }
{
    let (answer, text) = answer_of(alloc, file, limit.states(), end)?;
    put_text(sink, &text)?;
    Ok(answer)
}

/// The text of a report that comes to the end of this number, if there is one.
fn answer_of(
    alloc: Global,
    file: &[u8],
    limit: u32,
    end: usize,
) -> Result<(Witnessed, String), RunFault>
    requires { limit ≤ MAX_STATES }
    ensures shown { IfOk result (λ s. IsAnswer file.now limit end s.0 (string_bytes s.1)) }
    ensures refused { IfErr result (IsRefused file.now) }
{
    match catalogue_of(alloc, file) {
        Ok(catalogue) => answer_over(alloc, &catalogue, limit, end),
        Err(fault) => Err(fault),
    }
}

/// The text of a report of a run of the catalogue, which is that of each file that spells it.
fn answer_over(
    alloc: Global,
    catalogue: &Catalogue,
    limit: u32,
    end: usize,
) -> Result<(Witnessed, String), RunFault>
    requires { limit ≤ MAX_STATES }
    ensures shown { IfOk result
        (λ s. (file : List ℕ) → Spells file catalogue.now → IsAnswer file limit end s.0 (string_bytes s.1)) }
    ensures refused { IfErr result (λ fault. fault ≡ RunFault.Memory) }
{
    ways_lead_to_ends(catalogue);
    match way_to_end(alloc, catalogue, limit, end) {
        Ok(Some(way)) => match report_of(alloc, catalogue, way.as_slice()) {
            Ok(text) => Ok((Witnessed::Report, text)),
            Err(_) => Err(RunFault::Memory),
        },
        Ok(None) => Ok((Witnessed::NoEnd, String::new(alloc))),
        Err(Unexplored::More) => match print_more(alloc, limit) {
            Ok(text) => Ok((Witnessed::Beyond, text)),
            Err(_) => Err(RunFault::Memory),
        },
        Err(Unexplored::Memory) => Err(RunFault::Memory),
    }
}

/// The text of the report of a run that takes these turns, which have to lead to an end.
fn report_of(alloc: Global, catalogue: &Catalogue, turns: &[InstanceId]) -> Result<String, Memory>
    requires { LeadsToEnd catalogue.now turns.now }
    ensures { IfOk result (λ text. (p : Config) → Leads catalogue.now (first_config catalogue.now) turns.now p
        → IsReportTo catalogue.now turns.now p (string_bytes text)) }
{
    let report = witness(alloc, catalogue, turns)?;
    print_report(alloc, catalogue, &report)
}
