//! The graph of all orders of a catalogue's tasks.

ghost use Rattle.std.specs.Prelude.{◌≡◌, ◌<◌, ◌≤◌, ◌^◌, IfErr, IfOk, OnOk, Some, length, slice_get};
ghost use Rattle.std.specs.Bool.{Decides};
ghost use Rattle.std.specs.List.{Contains, range_with_len};
ghost use Rattle.std.specs.List.Sorted.{IsSorted};
ghost use Rattle.explore_law.specs.Explored.{ListsReached, ReachesMore, config_cmp, end_config};
ghost use Rattle.explore_law.specs.Instances.{instances};
ghost use Rattle.explore_law.specs.Graphs.{IsGraph, ListsTurns, node_config};
ghost use Rattle.explore_search.specs.Instancing.{TellsInstances};
ghost use Rattle.explore_search.specs.Graphing.{AreNodes, IsSized, TurnOrNone, configs, with_turn};

use crate::found::{MAX_STATES, Unexplored, end_configs, searched};
use crate::instances::{Instances, instances_of};
use crate::rows::{same_counts, same_values};
use crate::search::copy;
use crate::turn::take_turn;
use attempt::Attempt;
use explore_law::{End, Graph, InstanceId, Node, Turn};
use std::alloc::{AllocError, Global};
use txn::{Call, Catalogue, Memory};

/// The graph of all orders of the catalogue's tasks: a node for each configuration that is reached, ascending by
/// values and then by counts, and with each its turns, ascending by instance.
///
/// `More` where more than `limit` configurations are reached; then nothing is said of them. `Memory` where
/// a growth was refused.
pub fn graph_of(alloc: Global, catalogue: &Catalogue, limit: u32) -> Result<Graph, Unexplored>
    requires { limit ≤ MAX_STATES }
    ensures graph { IfOk result (IsGraph catalogue.now) }
    ensures few { IfOk result (λ g. length g.nodes.items ≤ limit) }
    ensures more { IfErr result (λ e. e ≡ Unexplored.More → ReachesMore catalogue.now limit) }
{
    let instances = instances_of(alloc, catalogue)?;
    let states = states_in_order(alloc, catalogue, &instances, limit)?;
    let nodes = nodes_of(
        alloc,
        catalogue,
        instances.calls.as_slice(),
        states.as_slice(),
    )?;
    Ok(Graph { nodes })
}

/// Every configuration that is reached, ascending by values and then by counts.
fn states_in_order(
    alloc: Global,
    catalogue: &Catalogue,
    instances: &Instances,
    limit: u32,
) -> Result<Vec<End>, Unexplored>
    requires limit { limit ≤ MAX_STATES }
    requires instances { TellsInstances catalogue.now instances.now }
    ensures reached { IfOk result (λ s. ListsReached catalogue.now (configs s.items)) }
    ensures ascend { IfOk result (λ s. IsSorted config_cmp (configs s.items)) }
    ensures sized { IfOk result (λ s. IsSized catalogue.now (configs s.items)) }
    ensures few { IfOk result (λ s. length s.items ≤ limit) }
    ensures more { IfErr result (λ e. e ≡ Unexplored.More → ReachesMore catalogue.now limit) }
{
    let s = searched(alloc, catalogue, instances, limit as usize)?;
    s.configs.law();
    let numbers = numbers_below(alloc, s.configs.len())?;
    let states = end_configs(alloc, &s.configs, numbers.as_slice())?;
    Ok(states)
}

/// The numbers below this one, ascending.
fn numbers_below(alloc: Global, count: usize) -> Result<Vec<u32>, AllocError>
    requires { count < 2 ^ 32 }
    ensures { IfOk result (λ numbers. numbers.items ≡ range_with_len 0 count) }
{
    let mut numbers = Vec::with_capacity(alloc, count)?;
    'numbers: for i in 0..count as u32 {
        numbers.push(i)?;
    }
    Ok(numbers)
}

/// A node for each of these, with its turns.
fn nodes_of(
    alloc: Global,
    catalogue: &Catalogue,
    calls: &[Call],
    states: &[End],
) -> Result<Vec<Node>, Memory>
    requires calls { calls.now ≡ instances catalogue.now }
    requires reached { ListsReached catalogue.now (configs states.now) }
    requires sized { IsSized catalogue.now (configs states.now) }
    requires few { length states.now < 2 ^ 32 }
    ensures { IfOk result (λ nodes. AreNodes catalogue.now (configs states.now) nodes.items) }
{
    let mut nodes = Vec::with_capacity(alloc, states.len())?;
    'states: for k in 0..states.len() {
        let node = node_of(alloc, catalogue, calls, states, &states[k])?;
        nodes.push(node)?;
    }
    Ok(nodes)
}

/// The node of one of them.
fn node_of(
    alloc: Global,
    catalogue: &Catalogue,
    calls: &[Call],
    states: &[End],
    state: &End,
) -> Result<Node, Memory>
    requires calls { calls.now ≡ instances catalogue.now }
    requires reached { ListsReached catalogue.now (configs states.now) }
    requires sized { IsSized catalogue.now (configs states.now) }
    requires few { length states.now < 2 ^ 32 }
    requires listed { Contains (configs states.now) (end_config state.now) }
    ensures config { IfOk result (λ n. node_config n ≡ end_config state.now) }
    ensures turns { IfOk result
        (λ n. ListsTurns catalogue.now (configs states.now) (end_config state.now) n.turns.items) }
{
    let turns = turns_of(alloc, catalogue, calls, states, state)?;
    let copied = copied(alloc, state)?;
    Ok(Node {
        values: copied.values,
        left: copied.waiting,
        turns,
    })
}

/// The turns at one of them.
fn turns_of(
    alloc: Global,
    catalogue: &Catalogue,
    calls: &[Call],
    states: &[End],
    state: &End,
) -> Result<Vec<Turn>, Memory>
    requires calls { calls.now ≡ instances catalogue.now }
    requires reached { ListsReached catalogue.now (configs states.now) }
    requires sized { IsSized catalogue.now (configs states.now) }
    requires few { length states.now < 2 ^ 32 }
    requires listed { Contains (configs states.now) (end_config state.now) }
    ensures { IfOk result
        (λ turns. ListsTurns catalogue.now (configs states.now) (end_config state.now) turns.items) }
{
    catalogue.rules();
    let mut turns = Vec::new(alloc);
    'turns: for k in 0..calls.len() as u32 {
        let turn = turn_of(alloc, catalogue, calls, states, state, InstanceId(k))?;
        add(&mut turns, turn)?;
    }
    Ok(turns)
}

/// Lists the turn behind the others, if it is one.
fn add(turns: &mut Vec<Turn>, turn: Option<Turn>) -> Result<(), AllocError>
    ensures { OnOk result (turns.new.items ≡ with_turn turns.old.items turn) }
{
    if let Some(turn) = turn {
        turns.push(turn)?;
    }
    Ok(())
}

/// The turn of the instance at one of them, if it has one.
fn turn_of(
    alloc: Global,
    catalogue: &Catalogue,
    calls: &[Call],
    states: &[End],
    state: &End,
    instance: InstanceId,
) -> Result<Option<Turn>, Memory>
    requires calls { calls.now ≡ instances catalogue.now }
    requires reached { ListsReached catalogue.now (configs states.now) }
    requires sized { IsSized catalogue.now (configs states.now) }
    requires few { length states.now < 2 ^ 32 }
    requires listed { Contains (configs states.now) (end_config state.now) }
    requires known { instance.0 < length calls.now }
    ensures { IfOk result
        (λ turn. TurnOrNone catalogue.now (configs states.now) (end_config state.now) instance turn) }
{
    catalogue.rules();
    let mut next = copied(alloc, state)?;
    let call = &calls[instance.0 as usize];
    let mut attempt = Attempt::new(alloc, catalogue, call.tx, call.arguments.as_slice());
    turn_by(&mut attempt, &mut next, catalogue, calls, states, instance)
}

/// The turn of the instance at the configuration, if it has one, by an attempt that is made anew; the configuration
/// becomes the one to which the turn leads.
fn turn_by<'a>(
    attempt: &mut Attempt<'a>,
    here: &mut End,
    catalogue: &'a Catalogue,
    calls: &[Call],
    states: &[End],
    instance: InstanceId,
) -> Result<Option<Turn>, Memory>
    requires calls { calls.now ≡ instances catalogue.now }
    requires reached { ListsReached catalogue.now (configs states.now) }
    requires sized { IsSized catalogue.now (configs states.now) }
    requires few { length states.now < 2 ^ 32 }
    requires listed { Contains (configs states.now) (end_config here.old) }
    requires known { instance.0 < length calls.now }
    ensures { IfOk result
        (λ turn. TurnOrNone catalogue.now (configs states.now) (end_config here.old) instance turn) }
{
    let turn = take_turn(
        attempt,
        catalogue,
        calls,
        instance,
        &mut here.values,
        &mut here.waiting,
    )?;
    let Some(outcome) = turn else {
        return Ok(None);
    };
    let to = number_in(states, here);
    Ok(Some(Turn {
        instance,
        outcome,
        to,
    }))
}

/// The number of a configuration that is one of them.
fn number_in(states: &[End], state: &End) -> u32
    requires few { length states.now < 2 ^ 32 }
    requires listed { Contains (configs states.now) (end_config state.now) }
    ensures { slice_get (configs states.now) result ≡ Some (end_config state.now) }
{
    'states: for k in 0..states.len() {
        if is_same(&states[k], state) {
            return k as u32;
        }
    }
    unreachable!()
}

/// Whether both are one configuration.
fn is_same(one: &End, other: &End) -> bool
    ensures { Decides result (end_config one.now ≡ end_config other.now) }
{
    same_values(one.values.as_slice(), other.values.as_slice())
        && same_counts(one.waiting.as_slice(), other.waiting.as_slice())
}

fn copied(alloc: Global, state: &End) -> Result<End, AllocError>
    ensures { IfOk result (λ e. end_config e ≡ end_config state.now) }
{
    let mut end = End {
        values: Vec::new(alloc),
        waiting: Vec::new(alloc),
    };
    copy(&mut end.values, state.values.as_slice())?;
    copy(&mut end.waiting, state.waiting.as_slice())?;
    Ok(end)
}
