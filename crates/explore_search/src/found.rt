//! All orders of a catalogue's tasks.

ghost use Rattle.std.specs.Prelude.{◌≡◌, ◌≢◌, ◌+◌, ◌<◌, ◌≤◌, ℕ, [], length, map, replicate, All, IfOk, IfErr, OnOk};
ghost use Rattle.std.specs.List.Sorted.{IsPermutation, IsSorted};
ghost use Rattle.explore_law.specs.Orders.{Config};
ghost use Rattle.explore_law.specs.Explored.{Explored, ReachesMore, end_config, config_cmp};
ghost use Rattle.explore_search.specs.Indexed.{config_at};
ghost use Rattle.explore_search.specs.Searching.{IsUnderWay, first_shelf};
ghost use Rattle.explore_search.specs.Instancing.{TellsInstances};
ghost use Rattle.explore_law.specs.Ways.{WayOfEnd};
ghost use Rattle.explore_search.specs.Charted.{IsCharted};
ghost use Rattle.explore_search.specs.Noting.{none_seen};

use crate::Configs;
use crate::counts::counts_of;
use crate::instances::{Instances, instances_of};
use crate::kept::Kept;
use crate::search::{Search, try_orders};
use crate::way::{number_of, way_to};
use explore_law::{End, Found, InstanceId, Kinds};
use std::alloc::{AllocError, Global};
use thiserror::Error;
use txn::limits::MAX_CONDITIONS;
use txn::{Catalogue, Memory};

/// The most configurations that can be asked for.
pub const MAX_STATES: u32 = 16_777_216;

/// Why orders were not seen whole.
#[derive(Clone, Copy, Debug, Error)]
pub enum Unexplored {
    /// More configurations are reached than were asked for.
    #[error("more states")]
    More,
    /// A growth was refused.
    #[error("out of memory")]
    Memory,
}

impl From<AllocError> for Unexplored {
    ghost use Rattle.explore_search.specs.declared.found.Unexplored.{Unexplored};

    ghost from_gives = { λ _ r. r ≡ Unexplored.Memory };

    fn from(_refused: AllocError) -> Unexplored {
        Unexplored::Memory
    }
}

impl From<Memory> for Unexplored {
    ghost use Rattle.explore_search.specs.declared.found.Unexplored.{Unexplored};

    ghost from_gives = { λ _ r. r ≡ Unexplored.Memory };

    fn from(_refused: Memory) -> Unexplored {
        Unexplored::Memory
    }
}

/// Every configuration that the tasks of the catalogue reach in any order, seen whole: how many there are,
/// how the turns of each transaction end, and the configurations without a turn.
///
/// `More` where more than `limit` configurations are reached; then nothing is said of them. `Memory` where
/// a growth was refused.
pub fn explore(alloc: Global, catalogue: &Catalogue, limit: u32) -> Result<Found, Unexplored>
    requires { limit ≤ MAX_STATES }
    ensures explored { IfOk result (Explored catalogue.now) }
    ensures few { IfOk result (λ f. f.states ≤ limit) }
    ensures more { IfErr result (λ e. e ≡ Unexplored.More → ReachesMore catalogue.now limit) }
{
    let instances = instances_of(alloc, catalogue)?;
    let s = searched(alloc, catalogue, &instances, limit as usize)?;
    s.configs.law();
    let states = s.configs.len();
    let ends = end_configs(alloc, &s.configs, s.ends.as_slice())?;
    Ok(Found {
        states,
        kinds: s.into_kinds(),
        ends,
    })
}

/// Turns that lead from the first configuration to the end of this number, counted from 0, of those that
/// `explore` finds; no fewer turns do. `None` where there are no more than so many ends.
///
/// `More` where more than `limit` configurations are reached; then nothing is said of them. `Memory` where
/// a growth was refused.
pub fn way_to_end(
    alloc: Global,
    catalogue: &Catalogue,
    limit: u32,
    end: usize,
) -> Result<Option<Vec<InstanceId>>, Unexplored>
    requires { limit ≤ MAX_STATES }
    ensures way { IfOk result (WayOfEnd catalogue.now end) }
    ensures more { IfErr result (λ e. e ≡ Unexplored.More → ReachesMore catalogue.now limit) }
{
    let instances = instances_of(alloc, catalogue)?;
    let s = searched(alloc, catalogue, &instances, limit as usize)?;
    let way = way_in(alloc, catalogue, &s, end)?;
    Ok(way)
}

/// The same, from a search that has tried each turn at each configuration that is reached.
fn way_in(
    alloc: Global,
    catalogue: &Catalogue,
    s: &Search,
    end: usize,
) -> Result<Option<Vec<InstanceId>>, AllocError>
    requires done { (limit : ℕ) × IsUnderWay catalogue.now limit s.now.configs s.now.kinds.items s.now.ends.items
        (length s.now.configs.configs) 0 }
    requires charted { IsCharted catalogue.now s.now.configs.configs s.now.came.items }
    ensures { IfOk result (WayOfEnd catalogue.now end) }
{
    s.configs.law();
    let ends = end_configs(alloc, &s.configs, s.ends.as_slice())?;
    let Some(end) = ends.get(end) else {
        return Ok(None);
    };
    let Some(number) = number_of(&s.configs, s.ends.as_slice(), end) else {
        return Ok(None);
    };
    let way = way_to(alloc, catalogue, &s.configs, s.came.as_slice(), number)?;
    Ok(Some(way))
}

/// The search that has tried each turn at each configuration that is reached.
pub(crate) fn searched(
    alloc: Global,
    catalogue: &Catalogue,
    instances: &Instances,
    limit: usize,
) -> Result<Search, Unexplored>
    requires limit { limit ≤ MAX_STATES }
    requires instances { TellsInstances catalogue.now instances.now }
    ensures done { IfOk result
        (λ s. IsUnderWay catalogue.now limit s.configs s.kinds.items s.ends.items (length s.configs.configs) 0) }
    ensures charted { IfOk result (λ s. IsCharted catalogue.now s.configs.configs s.came.items) }
    ensures more { IfErr result (λ e. e ≡ Unexplored.More → ReachesMore catalogue.now limit) }
{
    let mut s = begin(alloc, catalogue, instances, limit)?;
    try_orders(alloc, &mut s, catalogue, instances.calls.as_slice(), limit)?;
    Ok(s)
}

/// The search that knows the first configuration alone.
fn begin(
    alloc: Global,
    catalogue: &Catalogue,
    instances: &Instances,
    limit: usize,
) -> Result<Search, Unexplored>
    requires limit { limit ≤ MAX_STATES }
    requires instances { TellsInstances catalogue.now instances.now }
    ensures at_start { IfOk result (λ s. IsUnderWay catalogue.now limit s.configs s.kinds.items s.ends.items 0 0) }
    ensures first { IfOk result (λ s. s.configs ≡ first_shelf catalogue.now) }
    ensures none { IfOk result (λ s. s.ends.items ≡ []) }
    ensures charted { IfOk result (λ s. IsCharted catalogue.now s.configs.configs s.came.items) }
    ensures answers { IfOk result (λ s. s.kept.answers.items ≡ []) }
    ensures more { IfErr result (λ e. e ≡ Unexplored.More → ReachesMore catalogue.now limit) }
{
    if limit == 0 {
        return Err(Unexplored::More);
    }
    let kinds = no_kinds(alloc, catalogue.tx_count())?;
    let configs = first_listed(alloc, catalogue, instances, limit)?;
    let kept = Kept::new(alloc, instances.calls.len())?;
    Ok(Search {
        configs,
        came: Vec::new(alloc),
        kinds,
        ends: Vec::new(alloc),
        kept,
        here: no_config(alloc),
        next: no_config(alloc),
    })
}

/// A configuration of no values and no counts.
pub(crate) fn no_config(alloc: Global) -> End
    ensures values { result.values.items ≡ [] }
    ensures waiting { result.waiting.items ≡ [] }
{
    End {
        values: Vec::new(alloc),
        waiting: Vec::new(alloc),
    }
}

/// No outcome, for so many transactions.
fn no_kinds(alloc: Global, count: usize) -> Result<Vec<Kinds>, AllocError>
    ensures { IfOk result (λ kinds. kinds.items ≡ replicate count none_seen) }
{
    let none = no_kind();
    vec![in alloc; none; count]
}

fn no_kind() -> Kinds
    ensures { result ≡ none_seen }
{
    Kinds {
        returned: false,
        threw: false,
        overflow: false,
        zerodiv: false,
        outside: false,
        broke: [false; MAX_CONDITIONS],
    }
}

/// The list of the first configuration alone.
fn first_listed(
    alloc: Global,
    catalogue: &Catalogue,
    instances: &Instances,
    limit: usize,
) -> Result<Configs, AllocError>
    requires limit { limit ≤ MAX_STATES }
    requires instances { TellsInstances catalogue.now instances.now }
    ensures { IfOk result (λ s. s ≡ first_shelf catalogue.now) }
{
    let left = counts_of(alloc, catalogue, instances)?;
    let variables = catalogue.initial().len();
    let mut configs = Configs::new(alloc, variables, instances.calls.len(), limit + 1)?;
    configs.insert(catalogue.initial(), left.as_slice())?;
    Ok(configs)
}

/// The configurations of these numbers, ascending by values and then by counts.
pub(crate) fn end_configs(
    alloc: Global,
    configs: &Configs,
    ends: &[u32],
) -> Result<Vec<End>, AllocError>
    requires { All (λ i. i < length configs.now.configs) ends.now }
    ensures same { IfOk result
        (λ list. IsPermutation (map (config_at configs.now.configs) ends.now) (map end_config list.items)) }
    ensures ascending { IfOk result (λ list. IsSorted config_cmp (map end_config list.items)) }
{
    let mut list = configs_at(alloc, configs, ends)?;
    list.sort()?;
    Ok(list)
}

/// The configurations of these numbers.
fn configs_at(alloc: Global, configs: &Configs, ends: &[u32]) -> Result<Vec<End>, AllocError>
    requires { All (λ i. i < length configs.now.configs) ends.now }
    ensures { IfOk result (λ list. map end_config list.items ≡ map (config_at configs.now.configs) ends.now) }
{
    let mut list = Vec::with_capacity(alloc, ends.len())?;
    'ends: for i in ends {
        list.push(end_at(alloc, configs, *i as usize)?)?;
    }
    Ok(list)
}

fn end_at(alloc: Global, configs: &Configs, i: usize) -> Result<End, AllocError>
    requires { i < length configs.now.configs }
    ensures { IfOk result (λ e. end_config e ≡ config_at configs.now.configs i) }
{
    let mut end = no_config(alloc);
    configs.read(i, &mut end)?;
    Ok(end)
}
