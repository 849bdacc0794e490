//! The search: each turn at each listed configuration is tried, in the order found.

ghost use Rattle.std.specs.Prelude.{◌≡◌, ◌≢◌, ◌+◌, ◌<◌, ◌≤◌, [], ◌∷◌, ◌++◌, length};
ghost use Rattle.std.specs.Prelude.{slice_index_or, slice_set, IfOk, IfErr, OnOk};
ghost use Rattle.std.specs.Bool.{Decides};
ghost use Rattle.txn_programs.specs.declared.limits.TheConstants.{MAX_CONDITIONS};
ghost use Rattle.txn_programs.specs.Listing.{Listing};
ghost use Rattle.explore_law.specs.Instances.{instances};
ghost use Rattle.explore_law.specs.Orders.{HasTurn};
ghost use Rattle.explore_law.specs.Explored.{ReachesMore, end_config};
ghost use Rattle.explore_law.specs.declared.found.Kinds.{Kinds};
ghost use Rattle.explore_search.specs.Indexed.{config_at};
ghost use Rattle.txn_programs.specs.LawfulReport.{OutcomeKnown};
ghost use Rattle.explore_search.specs.Charted.{Charts, IsCharted};
ghost use Rattle.explore_search.specs.Keeping.{AreAnswers};
ghost use Rattle.explore_search.specs.Noting.{none_seen, noted};
ghost use Rattle.explore_search.specs.Searching.{IsUnderWay, StaysAt, first_shelf};

use crate::Configs;
use crate::found::Unexplored;
use crate::kept::Kept;
use crate::turn::turn_from;
use attempt::Attempt;
use explore_law::{End, InstanceId, Kinds};
use std::alloc::{AllocError, Global};
use txn::{Call, Catalogue, Fault, Outcome, TxId};

/// From which configuration, and by a turn of which instance, a configuration was found.
#[derive(Clone, Copy)]
pub(crate) struct Came {
    pub(crate) from: u32,
    pub(crate) by: InstanceId,
}

/// What was found so far.
pub(crate) struct Search {
    pub(crate) configs: Configs,
    /// For each configuration but the first, how it was found.
    pub(crate) came: Vec<Came>,
    /// For each transaction, how its turns ended.
    pub(crate) kinds: Vec<Kinds>,
    /// The numbers of the configurations without a turn.
    pub(crate) ends: Vec<u32>,
    pub(crate) kept: Kept,
    /// The configuration whose turns are tried.
    pub(crate) here: End,
    /// The configuration to which the turn leads that is tried.
    pub(crate) next: End,
}

/// Written by hand, so that its end is one call wherever a search is owned.
impl Drop for Search {
    fn drop(self) {
        let Search {
            configs: _configs,
            came: _came,
            kinds: _kinds,
            ends: _ends,
            kept: _kept,
            here: _here,
            next: _next,
        } = self;
    }
}

impl Search {
    /// How the turns of each transaction ended.
    pub(crate) fn into_kinds(self) -> Vec<Kinds>
        ensures { result ≡ self.kinds }
    {
        let Search {
            configs: _configs,
            came: _came,
            kinds,
            ends: _ends,
            kept: _kept,
            here: _here,
            next: _next,
        } = self;
        kinds
    }
}

/// Tries each turn at each configuration that is reached, from the first one on.
pub(crate) fn try_orders(
    alloc: Global,
    s: &mut Search,
    catalogue: &Catalogue,
    calls: &[Call],
    limit: usize,
) -> Result<(), Unexplored>
    requires calls { calls.now ≡ instances catalogue.now }
    requires at_start { IsUnderWay catalogue.now limit s.old.configs s.old.kinds.items s.old.ends.items 0 0 }
    requires first { s.old.configs ≡ first_shelf catalogue.now }
    requires none { s.old.ends.items ≡ [] }
    requires charted { IsCharted catalogue.now s.old.configs.configs s.old.came.items }
    requires answers { AreAnswers catalogue.now s.old.kept.answers.items }
    ensures done { OnOk result (IsUnderWay catalogue.now limit s.new.configs s.new.kinds.items s.new.ends.items
        (length s.new.configs.configs) 0) }
    ensures charted { OnOk result (IsCharted catalogue.now s.new.configs.configs s.new.came.items) }
    ensures more { IfErr result (λ e. e ≡ Unexplored.More → ReachesMore catalogue.now limit) }
{
    catalogue.rules();
    let Some(first) = calls.first() else {
        note_end(&mut s.ends, 0)?;
        return Ok(());
    };
    let mut attempt = Attempt::new(alloc, catalogue, first.tx, first.arguments.as_slice());
    try_configs(s, &mut attempt, catalogue, calls, limit)
}

/// Tries each turn at each listed configuration, also at those that are listed meanwhile.
fn try_configs<'a>(
    s: &mut Search,
    attempt: &mut Attempt<'a>,
    catalogue: &'a Catalogue,
    calls: &[Call],
    limit: usize,
) -> Result<(), Unexplored>
    requires calls { calls.now ≡ instances catalogue.now }
    requires at_start { IsUnderWay catalogue.now limit s.old.configs s.old.kinds.items s.old.ends.items 0 0 }
    requires charted { IsCharted catalogue.now s.old.configs.configs s.old.came.items }
    requires answers { AreAnswers catalogue.now s.old.kept.answers.items }
    ensures done { OnOk result (IsUnderWay catalogue.now limit s.new.configs s.new.kinds.items s.new.ends.items
        (length s.new.configs.configs) 0) }
    ensures charted { OnOk result (IsCharted catalogue.now s.new.configs.configs s.new.came.items) }
    ensures answers { OnOk result (AreAnswers catalogue.now s.new.kept.answers.items) }
    ensures more { IfErr result (λ e. e ≡ Unexplored.More → ReachesMore catalogue.now limit) }
{
    let mut i = 0;
    'configs: while i < s.configs.len() {
        try_all(s, attempt, catalogue, calls, limit, i)?;
        i += 1;
    }
    Ok(())
}

/// Tries each turn at the configuration of this number.
fn try_all<'a>(
    s: &mut Search,
    attempt: &mut Attempt<'a>,
    catalogue: &'a Catalogue,
    calls: &[Call],
    limit: usize,
    i: usize,
) -> Result<(), Unexplored>
    requires calls { calls.now ≡ instances catalogue.now }
    requires listed { i < length s.old.configs.configs }
    requires so_far { IsUnderWay catalogue.now limit s.old.configs s.old.kinds.items s.old.ends.items i 0 }
    requires charted { IsCharted catalogue.now s.old.configs.configs s.old.came.items }
    requires answers { AreAnswers catalogue.now s.old.kept.answers.items }
    ensures on { OnOk result
        (IsUnderWay catalogue.now limit s.new.configs s.new.kinds.items s.new.ends.items (i + 1) 0) }
    ensures listed { OnOk result (i < length s.new.configs.configs) }
    ensures charted { OnOk result (IsCharted catalogue.now s.new.configs.configs s.new.came.items) }
    ensures answers { OnOk result (AreAnswers catalogue.now s.new.kept.answers.items) }
    ensures more { IfErr result (λ e. e ≡ Unexplored.More → ReachesMore catalogue.now limit) }
{
    catalogue.rules();
    s.configs.read(i, &mut s.here)?;
    let mut moves = false;
    'turns: for k in 0..calls.len() as u32 {
        if try_turn(s, attempt, catalogue, calls, limit, i, InstanceId(k))? {
            moves = true;
        }
    }
    if !moves {
        note_end(&mut s.ends, i as u32)?;
    }
    Ok(())
}

/// Tries the turn of an instance at the configuration of this number, lists the configuration to which it leads,
/// notes how it ended, and tells whether there is one.
fn try_turn<'a>(
    s: &mut Search,
    attempt: &mut Attempt<'a>,
    catalogue: &'a Catalogue,
    calls: &[Call],
    limit: usize,
    i: usize,
    k: InstanceId,
) -> Result<bool, Unexplored>
    requires calls { calls.now ≡ instances catalogue.now }
    requires known { k.0 < length calls.now }
    requires listed { i < length s.old.configs.configs }
    requires so_far { IsUnderWay catalogue.now limit s.old.configs s.old.kinds.items s.old.ends.items i k.0 }
    requires charted { IsCharted catalogue.now s.old.configs.configs s.old.came.items }
    requires here { end_config s.old.here ≡ config_at s.old.configs.configs i }
    requires answers { AreAnswers catalogue.now s.old.kept.answers.items }
    ensures on { OnOk result
        (IsUnderWay catalogue.now limit s.new.configs s.new.kinds.items s.new.ends.items i (k.0 + 1)) }
    ensures stays { OnOk result (StaysAt s.old.configs s.new.configs i) }
    ensures turn { IfOk result (λ moves. Decides moves (HasTurn catalogue.now (config_at s.old.configs.configs i) k)) }
    ensures charted { OnOk result (IsCharted catalogue.now s.new.configs.configs s.new.came.items) }
    ensures here { OnOk result (s.new.here ≡ s.old.here) }
    ensures answers { OnOk result (AreAnswers catalogue.now s.new.kept.answers.items) }
    ensures more { IfErr result (λ e. e ≡ Unexplored.More → ReachesMore catalogue.now limit) }
{
    catalogue.rules();
    let turn = turn_from(
        &mut s.kept,
        attempt,
        catalogue,
        calls,
        k,
        &s.here,
        &mut s.next,
    )?;
    let Some(outcome) = turn else {
        return Ok(false);
    };
    s.configs
        .insert(s.next.values.as_slice(), s.next.waiting.as_slice())?;
    s.configs.law();
    if s.configs.len() > limit {
        return Err(Unexplored::More);
    }
    chart(&mut s.came, s.configs.len(), i as u32, k)?;
    note_turn(&mut s.kinds, calls[k.0 as usize].tx, outcome);
    Ok(true)
}

/// Notes how the last of so many configurations was found, unless that is known.
fn chart(came: &mut Vec<Came>, configs: usize, from: u32, by: InstanceId) -> Result<(), AllocError>
    ensures { OnOk result (Charts came.old.items configs (record { from = from; by = by }) came.new.items) }
{
    if came.len() + 1 < configs {
        came.push(Came { from, by })?;
    }
    Ok(())
}

fn note_end(ends: &mut Vec<u32>, i: u32) -> Result<(), AllocError>
    ensures { OnOk result (ends.new.items ≡ ends.old.items ++ i ∷ []) }
{
    ends.push(i)?;
    Ok(())
}

/// Notes how a turn of the transaction ended.
fn note_turn(kinds: &mut Vec<Kinds>, tx: TxId, outcome: Outcome)
    requires listed { tx.0 < length kinds.old.items }
    requires known { OutcomeKnown MAX_CONDITIONS outcome }
    ensures noted { kinds.new.items
        ≡ slice_set kinds.old.items tx.0 (noted (slice_index_or kinds.old.items tx.0 none_seen) outcome) }
    ensures flags { length (slice_index_or kinds.old.items tx.0 none_seen).broke ≡ MAX_CONDITIONS }
{
    let number = tx.0 as usize;
    kinds[number] = note(kinds[number], outcome);
}

/// The outcomes that were seen, with one more.
fn note(kinds: Kinds, outcome: Outcome) -> Kinds
    requires { OutcomeKnown MAX_CONDITIONS outcome }
    ensures value { result ≡ noted kinds outcome }
    ensures flags { length kinds.broke ≡ MAX_CONDITIONS }
{
    let mut kinds = kinds;
    match outcome {
        Outcome::Returned(_) => kinds.returned = true,
        Outcome::Thrown(Fault::User(_)) => kinds.threw = true,
        Outcome::Thrown(Fault::Overflow) => kinds.overflow = true,
        Outcome::Thrown(Fault::DivideByZero) => kinds.zerodiv = true,
        Outcome::Thrown(Fault::Broken(id)) => kinds.broke[id.0 as usize] = true,
        Outcome::Thrown(Fault::Outside) => kinds.outside = true,
        Outcome::Retries => {}
    }
    kinds
}

/// Makes the list a copy of another one, in the room that it has.
pub(crate) fn copy<T: Copy + Drop>(list: &mut Vec<T>, from: &[T]) -> Result<(), AllocError>
    ensures { OnOk result (list.new.items ≡ from.now) }
{
    list.clear();
    list.extend_from_slice(from)
}
