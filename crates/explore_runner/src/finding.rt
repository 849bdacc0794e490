//! From the bytes of a file to the bytes of a report that comes to a turn that is sought.

ghost use Rattle.std.specs.Prelude.{◌≡◌, ◌+◌, ◌<◌, ◌≤◌, ℕ, List, true, IfErr, IfOk, OnOk, length, string_bytes};
ghost use Rattle.run_interface.specs.Counts.{FewFailed};
ghost use Rattle.run_interface.specs.Failures.{output_failures};
ghost use Rattle.run_interface.specs.declared.fault.RunFault.TheVariants as RunFault;
ghost use Rattle.txn_programs.specs.declared.ast.TxId.{TxId};
ghost use Rattle.txn_text.specs.Spelling.{Spells};
ghost use Rattle.explore_law.specs.Finding.{IsWayWhere};
ghost use Rattle.explore_runner.specs.Finding.{Finds, IsFinding, IsSight};
ghost use Rattle.explore_runner.specs.Showing.{IsRefused};
ghost use Rattle.explore_runner.specs.Stopping.{turns_to};
ghost use Rattle.explore_runner.specs.Wording.{sought_by};

use crate::bytes::catalogue_of;
use crate::outcomes::OutcomeWords;
use crate::printer::print_more;
use crate::stopping::stopped;
use explore_law::{Sought, WayWhere};
use explore_search::{InstanceId, MAX_STATES, Unexplored, way_where};
use run_interface::{Limit, RunFault, Sink, put_text};
use std::alloc::{AllocError, Global};
use text_report_printer::print_report;
use txn::{Catalogue, Memory};

/// What came of looking for a turn.
#[derive(Clone, Copy, PartialEq, Eq)]
pub enum Sighted {
    /// There is one, and a report that comes to it.
    Report,
    /// No order comes to one.
    Never,
    /// The file has no transaction of that name.
    NoTransaction,
    /// The file has no standing condition of that name.
    NoCondition,
    /// More configurations are reached than were asked for, so nothing is said of them.
    Beyond,
}

/// Writes to the sink a report of a run of the file that the bytes spell: one that comes, by as few turns as any
/// order, to a turn of the transaction of this name that ends so, and stops there; the turn is its last entry. Of
/// `Parks`: one that comes so to values on which a task of it that is left retries, and is parked. At most as many
/// configurations are looked at as the limit says.
///
/// `Report`: exactly the text of one such report was written, and then flushed. `Never`: the line `never` was.
/// `Beyond`: so was the line that says that more configurations are reached. `NoTransaction`: the file has none of that
/// name, whatever is sought; `NoCondition`: it has the transaction, and no condition of that name. Nothing was written.
/// An `Err` is as that of `explore_bytes`.
pub fn find_bytes<S: Sink>(
    alloc: Global,
    file: &[u8],
    limit: Limit,
    transaction: &str,
    outcome: OutcomeWords<'_>,
    sink: &mut S,
) -> Result<Sighted, RunFault>
    requires { FewFailed (S.failed sink.old) }
    ensures finds { Finds file.now limit transaction.now outcome.entry (S.bytes sink.old) (S.bytes sink.new) result }
    ensures flushed { OnOk result (S.flushed sink.new ≡ true) }
    ensures failures { S.failed sink.new ≡ S.failed sink.old + output_failures result }
{
    let (answer, text) = finding(alloc, file, limit.states(), transaction, outcome)?;
    put_text(sink, &text)?;
    Ok(answer)
}

/// The text of a report that comes to such a turn, if there is one.
fn finding(
    alloc: Global,
    file: &[u8],
    limit: u32,
    transaction: &str,
    outcome: OutcomeWords<'_>,
) -> Result<(Sighted, String), RunFault>
    requires { limit ≤ MAX_STATES }
    ensures shown { IfOk result (λ s. IsFinding file.now limit transaction.now outcome.entry s.0 (string_bytes s.1)) }
    ensures refused { IfErr result (IsRefused file.now) }
{
    match catalogue_of(alloc, file) {
        Ok(catalogue) => finding_over(alloc, &catalogue, limit, transaction, outcome),
        Err(fault) => Err(fault),
    }
}

/// The same over the catalogue, which is that of each file that spells it.
fn finding_over(
    alloc: Global,
    catalogue: &Catalogue,
    limit: u32,
    transaction: &str,
    outcome: OutcomeWords<'_>,
) -> Result<(Sighted, String), RunFault>
    requires { limit ≤ MAX_STATES }
    ensures shown { IfOk result (λ s. (file : List ℕ) → Spells file catalogue.now
        → IsFinding file limit transaction.now outcome.entry s.0 (string_bytes s.1)) }
    ensures refused { IfErr result (λ fault. fault ≡ RunFault.Memory) }
{
    let Some(tx) = catalogue.tx_id(transaction) else {
        return Ok((Sighted::NoTransaction, String::new(alloc)));
    };
    let Some(sought) = sought_by(catalogue, outcome) else {
        return Ok((Sighted::NoCondition, String::new(alloc)));
    };
    match way_where(alloc, catalogue, limit, tx, sought) {
        Ok(Some(way)) => match sight_of(alloc, catalogue, sought, way) {
            Ok(text) => Ok((Sighted::Report, text)),
            Err(_) => Err(RunFault::Memory),
        },
        Ok(None) => match String::from_str(alloc, "never\n") {
            Ok(text) => Ok((Sighted::Never, text)),
            Err(_) => Err(RunFault::Memory),
        },
        Err(Unexplored::More) => match print_more(alloc, limit) {
            Ok(text) => Ok((Sighted::Beyond, text)),
            Err(_) => Err(RunFault::Memory),
        },
        Err(Unexplored::Memory) => Err(RunFault::Memory),
    }
}

/// What is sought by these words of the catalogue's transactions. `None` where they name a condition that it does not
/// have.
fn sought_by(catalogue: &Catalogue, outcome: OutcomeWords<'_>) -> Option<Sought>
    ensures { result ≡ sought_by catalogue.now outcome.entry }
{
    match outcome {
        OutcomeWords::Returned(wanted) => Some(Sought::Returned(wanted)),
        OutcomeWords::Threw(wanted) => Some(Sought::Threw(wanted)),
        OutcomeWords::Overflow => Some(Sought::Overflow),
        OutcomeWords::ZeroDiv => Some(Sought::ZeroDiv),
        OutcomeWords::Broke(None) => Some(Sought::Broke(None)),
        OutcomeWords::Broke(Some(name)) => match catalogue.always_id(name) {
            Some(id) => Some(Sought::Broke(Some(id))),
            None => None,
        },
        OutcomeWords::Parks => Some(Sought::Parks),
        OutcomeWords::Outside => Some(Sought::Outside),
    }
}

/// The text of the report of a run that takes this way to where it shows, and the turn that is sought, and stops.
fn sight_of(
    alloc: Global,
    catalogue: &Catalogue,
    sought: Sought,
    way: WayWhere,
) -> Result<String, Memory>
    requires { (tx : TxId) × IsWayWhere catalogue.now tx sought way.turns.items way.instance }
    ensures { IfOk result (λ text. (tx : TxId) → IsWayWhere catalogue.now tx sought way.turns.items way.instance
        → IsSight catalogue.now tx sought (string_bytes text)) }
{
    catalogue.rules();
    let WayWhere { turns, instance } = way;
    let turns = turns_to(instance, sought, turns)?;
    let report = stopped(alloc, catalogue, turns.as_slice())?;
    print_report(alloc, catalogue, &report)
}

/// The turns behind which it shows, by those that lead to where it does.
fn turns_to(
    instance: InstanceId,
    sought: Sought,
    way: Vec<InstanceId>,
) -> Result<Vec<InstanceId>, AllocError>
    ensures { IfOk result (λ turns. turns.items ≡ turns_to instance sought way.items) }
{
    let mut turns = way;
    match sought {
        Sought::Parks => {}
        _ => turns.push(instance)?,
    }
    Ok(turns)
}
