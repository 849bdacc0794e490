//! The graph of a small file.

use crate::searches::STUCK;
use explore_runner::{Limit, MAX_NODES, Sight, graph_bytes, print_graph};
use explore_search::{Graph, InstanceId, MAX_STATES, Node, Turn, Unexplored, graph_of};
use runner::Out;
use std::alloc::Global;
use txn::{Catalogue, Fault, Outcome};

/// The graph of `STUCK` as text.
const TEXT: &str = "digraph {\n  node [shape=box]\n\
     \x20 1 [label=\"x -1\\nup 1 left\\n\"]\n\
     \x20 2 [label=\"x -1\\nno 1 left\\nup 1 left\\n\"]\n\
     \x20 3 [label=\"x 2\\n\", peripheries=2]\n\
     \x20 4 [label=\"x 2\\nno 1 parked\\n\", style=filled, fillcolor=pink]\n\
     \x20 1 -> 3 [label=\"up\\nreturned 2\"]\n\
     \x20 2 -> 1 [label=\"no\\nthrew 4\"]\n\
     \x20 2 -> 4 [label=\"up\\nreturned 2\"]\n}\n";

/// Whether this is written of the file, of at most so many states, with this answer.
fn is_written(alloc: Global, file: &str, states: u32, wanted: Option<Sight>, text: &str) -> bool {
    let Some(limit) = Limit::new(states) else {
        return false;
    };
    let mut out = Out::new(Vec::new(alloc));
    let answer = graph_bytes(alloc, file.as_bytes(), limit, &mut out).ok();
    out.into_inner().as_slice() == text.as_bytes() && answer == wanted
}

/// The node of these values, with so many tasks left and these turns.
fn is_node(node: &Node, values: &[i64], left: &[u32], turns: &[Turn]) -> bool {
    node.values.as_slice() == values
        && node.left.as_slice() == left
        && node.turns.as_slice() == turns
}

fn turn(instance: u32, outcome: Outcome, to: u32) -> Turn {
    Turn {
        instance: InstanceId(instance),
        outcome,
        to,
    }
}

/// Whether the node at a place is this.
fn has_node(graph: &Graph, place: usize, values: &[i64], left: &[u32], turns: &[Turn]) -> bool {
    match graph.nodes.get(place) {
        Some(node) => is_node(node, values, left, turns),
        None => false,
    }
}

/// Whether the turns of each state are listed.
fn has_turns(graph: &Graph) -> bool {
    let thrown = turn(0, Outcome::Thrown(Fault::User(4)), 0);
    let up = Outcome::Returned(2);
    graph.nodes.len() == 4
        && has_node(graph, 0, &[-1], &[0, 1], &[turn(1, up, 2)])
        && has_node(graph, 1, &[-1], &[1, 1], &[thrown, turn(1, up, 3)])
        && has_node(graph, 2, &[2], &[0, 0], &[])
        && has_node(graph, 3, &[2], &[1, 0], &[])
}

/// Whether the graph of at most so many configurations has its turns and is printed so, or there are more.
pub(crate) fn is_drawn(alloc: Global, catalogue: &Catalogue, limit: u32, fits: bool) -> bool {
    if limit > MAX_STATES {
        return false;
    }
    match graph_of(alloc, catalogue, limit) {
        Ok(graph) => fits && has_turns(&graph) && is_printed(alloc, catalogue, &graph),
        Err(Unexplored::More) => !fits,
        Err(_) => false,
    }
}

/// Whether the graph is printed so.
fn is_printed(alloc: Global, catalogue: &Catalogue, graph: &Graph) -> bool {
    match print_graph(alloc, catalogue, graph) {
        Ok(printed) => printed.as_str() == TEXT,
        Err(_) => false,
    }
}

#[test]
fn a_graph_is_written(rt: HostRuntime) {
    let alloc = rt.alloc();
    assert!(rt; MAX_NODES == 2_000);
    assert!(rt; is_written(alloc, STUCK, 4, Some(Sight::Whole), TEXT));
    assert!(rt; is_written(alloc, STUCK, 3, Some(Sight::More), "more than 3 states\n"));
    assert!(rt; is_written(alloc, "(var x", 5, None, ""));
}
