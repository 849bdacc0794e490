//! From the bytes of a file to the bytes of what is found, and to whether that is denied.

ghost use Rattle.std.specs.Prelude.{◌≡◌, ◌+◌, ◌≤◌, ℕ, List, true, IfOk, OnOk, IfErr, string_bytes};
ghost use Rattle.run_interface.specs.Counts.{FewFailed};
ghost use Rattle.run_interface.specs.Failures.{output_failures};
ghost use Rattle.run_interface.specs.declared.fault.RunFault.TheVariants as RunFault;
ghost use Rattle.txn_text.specs.Spelling.{Spells};
ghost use Rattle.explore_law.specs.Explored.{Explored};
ghost use Rattle.explore_runner.specs.FoundText.{found_text};
ghost use Rattle.explore_runner.specs.Judging.{IsJudged, IsSaid, Judges};
ghost use Rattle.explore_runner.specs.Showing.{IsRefused};

use crate::bytes::catalogue_of;
use crate::denied::{first_denied, line_of};
use crate::printer::{print_found, print_more};
use crate::sight::Judged;
use explore_law::Found;
use explore_search::{MAX_STATES, Unexplored, explore};
use run_interface::{Denials, Limit, RunFault, Sink, put_text};
use std::alloc::{AllocError, Global};
use txn::Catalogue;

/// As `explore_bytes`, and says whether some order comes to what is denied. What is written is the same.
///
/// `Clear`: no order does. `Denied`: some order does, and the line says to what: the first that is denied, in
/// the order parked, threw, broke, overflow, zerodiv, outside, and where it shows. `More`: more configurations are
/// reached, and nothing is said. An `Err` is as that of `explore_bytes`.
pub fn judge_bytes<S: Sink>(
    alloc: Global,
    file: &[u8],
    limit: Limit,
    denied: Denials,
    sink: &mut S,
) -> Result<Judged, RunFault>
    requires { FewFailed (S.failed sink.old) }
    ensures judges { Judges file.now limit denied (S.bytes sink.old) (S.bytes sink.new) result }
    ensures flushed { OnOk result (S.flushed sink.new ≡ true) }
    ensures failures { S.failed sink.new ≡ S.failed sink.old + output_failures result }
{
    let (judged, text) = judged(alloc, file, limit.states(), denied)?;
    put_text(sink, &text)?;
    Ok(judged)
}

/// The text of what is found of the file that the bytes spell, and whether it is denied.
fn judged(
    alloc: Global,
    file: &[u8],
    limit: u32,
    denied: Denials,
) -> Result<(Judged, String), RunFault>
    requires { limit ≤ MAX_STATES }
    ensures judged { IfOk result (λ s. IsJudged file.now limit denied s.0 (string_bytes s.1)) }
    ensures refused { IfErr result (IsRefused file.now) }
{
    match catalogue_of(alloc, file) {
        Ok(catalogue) => judged_of(alloc, &catalogue, limit, denied),
        Err(fault) => Err(fault),
    }
}

/// The same of the catalogue, which is that of each file that spells it.
fn judged_of(
    alloc: Global,
    catalogue: &Catalogue,
    limit: u32,
    denied: Denials,
) -> Result<(Judged, String), RunFault>
    requires { limit ≤ MAX_STATES }
    ensures judged { IfOk result
        (λ s. (file : List ℕ) → Spells file catalogue.now → IsJudged file limit denied s.0 (string_bytes s.1)) }
    ensures refused { IfErr result (λ fault. fault ≡ RunFault.Memory) }
{
    match explore(alloc, catalogue, limit) {
        Ok(found) => match judged_found(alloc, catalogue, &found, denied) {
            Ok((judged, text)) => Ok((judged, text)),
            Err(_) => Err(RunFault::Memory),
        },
        Err(Unexplored::More) => match print_more(alloc, limit) {
            Ok(text) => Ok((Judged::More, text)),
            Err(_) => Err(RunFault::Memory),
        },
        Err(Unexplored::Memory) => Err(RunFault::Memory),
    }
}

/// The same of what is found of the catalogue.
fn judged_found(
    alloc: Global,
    catalogue: &Catalogue,
    found: &Found,
    denied: Denials,
) -> Result<(Judged, String), AllocError>
    requires { Explored catalogue.now found.now }
    ensures text { IfOk result (λ s. string_bytes s.1 ≡ found_text catalogue.now found.now) }
    ensures said { IfOk result (λ s. IsSaid catalogue.now found.now denied s.0) }
{
    let text = print_found(alloc, catalogue, found)?;
    match first_denied(catalogue, found, denied) {
        Some(offence) => {
            let line = line_of(alloc, catalogue, offence)?;
            Ok((Judged::Denied(line), text))
        }
        None => Ok((Judged::Clear, text)),
    }
}
