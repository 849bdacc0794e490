//! The text of a graph, in DOT, the language of Graphviz. A name has neither quotes nor backslashes, so that it stands
//! in a label as it is.

ghost use Rattle.std.specs.Prelude.{◌≡◌, ◌+◌, ◌<◌, ◌^◌, ◌++◌, IfOk, OnOk, Some, codes, length};
ghost use Rattle.std.specs.Prelude.{slice_get, slice_index_or, string_bytes};
ghost use Rattle.std.specs.List.{flat_map};
ghost use Rattle.explore_runner.specs.FoundText.{each_below};
ghost use Rattle.explore_runner.specs.GraphText.{call_words, count_row, count_rows, graph_text, has_same_values};
ghost use Rattle.explore_runner.specs.GraphText.{is_end, mark};
ghost use Rattle.explore_runner.specs.GraphText.{node_label, node_line, shares_values};
ghost use Rattle.explore_runner.specs.GraphText.{turn_line, turn_lines, value_row};

use crate::words::{call_at, count_at, is_told, put_arguments, put_run, some_wait, value_or_zero};
use explore_law::{Graph, Node, Turn};
use explore_search::instances_of;
use std::alloc::{AllocError, Global};
use std::fmt::Write;
use text_report_printer::{put_outcome, put_value_name, transaction_name};
use txn::{Call, Catalogue};

/// The text of a graph: a line for each node, with its values, and then a line for each turn, by the node where it
/// begins. Nodes are numbered from 1. How many tasks are left is told where they wait for ever, and where some other
/// node has the same values. `Err` means that memory was refused.
pub fn print_graph(
    alloc: Global,
    catalogue: &Catalogue,
    graph: &Graph,
) -> Result<String, AllocError>
    ensures { IfOk result (λ text. string_bytes text ≡ graph_text catalogue.now graph.now) }
{
    let instances = instances_of(alloc, catalogue)?;
    let calls = instances.calls.as_slice();
    let mut out = String::new(alloc);
    let nodes = graph.nodes.as_slice();
    out.push_str("digraph {\n  node [shape=box]\n")?;
    put_nodes(&mut out, catalogue, calls, nodes)?;
    put_turns(&mut out, catalogue, calls, nodes)?;
    out.push_str("}\n")?;
    Ok(out)
}

fn put_nodes(
    out: &mut String,
    catalogue: &Catalogue,
    calls: &[Call],
    nodes: &[Node],
) -> Result<(), AllocError>
    ensures { OnOk result (string_bytes out.new ≡ string_bytes out.old
        ++ each_below (λ k. node_line catalogue.now calls.now nodes.now k (slice_get nodes.now k)) (length nodes.now)) }
{
    'nodes: for k in 0..nodes.len() {
        put_node(out, catalogue, calls, nodes, k, &nodes[k])?;
    }
    Ok(())
}

fn put_node(
    out: &mut String,
    catalogue: &Catalogue,
    calls: &[Call],
    nodes: &[Node],
    k: usize,
    node: &Node,
) -> Result<(), AllocError>
    requires { k + 1 < 2 ^ 64 }
    ensures { OnOk result
        (string_bytes out.new
        ≡ string_bytes out.old ++ node_line catalogue.now calls.now nodes.now k (Some node.now)) }
{
    write!(out, "  {} [label=\"", k as u64 + 1)?;
    put_label(out, catalogue, calls, nodes, node)?;
    out.push_str("\"")?;
    out.push_str(mark(
        has_no_turn(node.turns.as_slice()),
        some_wait(node.left.as_slice()),
    ))?;
    out.push_str("]\n")?;
    Ok(())
}

fn put_label(
    out: &mut String,
    catalogue: &Catalogue,
    calls: &[Call],
    nodes: &[Node],
    node: &Node,
) -> Result<(), AllocError>
    ensures { OnOk result
        (string_bytes out.new ≡ string_bytes out.old ++ node_label catalogue.now calls.now nodes.now node.now) }
{
    put_values(out, catalogue, node.values.as_slice())?;
    let ends = has_no_turn(node.turns.as_slice());
    let shared = shares_values(nodes, node);
    put_counts(out, catalogue, calls, ends, shared, node.left.as_slice())
}

fn put_values(out: &mut String, catalogue: &Catalogue, values: &[i64]) -> Result<(), AllocError>
    ensures { OnOk result (string_bytes out.new
        ≡ string_bytes out.old ++ each_below (value_row catalogue.now values.now) (length values.now)) }
{
    'values: for k in 0..values.len() {
        put_value(out, catalogue, values, k)?;
    }
    Ok(())
}

fn put_value(
    out: &mut String,
    catalogue: &Catalogue,
    values: &[i64],
    k: usize,
) -> Result<(), AllocError>
    ensures { OnOk result (string_bytes out.new ≡ string_bytes out.old ++ value_row catalogue.now values.now k) }
{
    if !is_told(catalogue, values, k) {
        return Ok(());
    }
    let value = value_or_zero(values, k);
    put_value_name(out, catalogue, k)?;
    write!(out, " {value}\\n")
}

fn put_counts(
    out: &mut String,
    catalogue: &Catalogue,
    calls: &[Call],
    ends: bool,
    shared: bool,
    counts: &[u32],
) -> Result<(), AllocError>
    ensures { OnOk result
        (string_bytes out.new ≡ string_bytes out.old ++ count_rows catalogue.now calls.now ends shared counts.now) }
{
    if ends {
        put_each_count(out, catalogue, calls, " parked\\n", counts)?;
    } else if shared {
        put_each_count(out, catalogue, calls, " left\\n", counts)?;
    }
    Ok(())
}

fn put_each_count(
    out: &mut String,
    catalogue: &Catalogue,
    calls: &[Call],
    word: &str,
    counts: &[u32],
) -> Result<(), AllocError>
    ensures { OnOk result (string_bytes out.new
        ≡ string_bytes out.old
        ++ each_below (count_row catalogue.now calls.now word.now counts.now) (length counts.now)) }
{
    'counts: for k in 0..counts.len() {
        put_count(out, catalogue, calls, word, counts, k)?;
    }
    Ok(())
}

fn put_count(
    out: &mut String,
    catalogue: &Catalogue,
    calls: &[Call],
    word: &str,
    counts: &[u32],
    k: usize,
) -> Result<(), AllocError>
    ensures { OnOk result
        (string_bytes out.new ≡ string_bytes out.old ++ count_row catalogue.now calls.now word.now counts.now k) }
{
    let count = count_at(counts, k);
    if count > 0 {
        put_run(out, catalogue, &call_at(calls, k), count)?;
        out.push_str(word)?;
    }
    Ok(())
}

/// How a node is drawn: an end has a double border, and is filled where some task waits.
fn mark(ends: bool, waits: bool) -> &'static str
    ensures { result.now ≡ mark ends waits }
{
    match (ends, waits) {
        (true, false) => ", peripheries=2",
        (true, true) => ", style=filled, fillcolor=pink",
        (false, _) => "",
    }
}

fn has_no_turn(turns: &[Turn]) -> bool
    ensures { result ≡ is_end turns.now }
{
    turns.is_empty()
}

/// Whether some node has the same values, but other counts.
fn shares_values(nodes: &[Node], node: &Node) -> bool
    ensures { result ≡ shares_values nodes.now node.now }
{
    'nodes: for other in nodes {
        if has_same_values(other, node) {
            return true;
        }
    }
    false
}

/// Whether both have the same values, but other counts.
fn has_same_values(node: &Node, other: &Node) -> bool
    ensures { result ≡ has_same_values node.now other.now }
{
    node.values == other.values && node.left != other.left
}

fn put_turns(
    out: &mut String,
    catalogue: &Catalogue,
    calls: &[Call],
    nodes: &[Node],
) -> Result<(), AllocError>
    ensures { OnOk result (string_bytes out.new ≡ string_bytes out.old
        ++ each_below (λ k. turn_lines catalogue.now calls.now k (slice_get nodes.now k)) (length nodes.now)) }
{
    'nodes: for k in 0..nodes.len() {
        put_turns_of(out, catalogue, calls, k, &nodes[k])?;
    }
    Ok(())
}

fn put_turns_of(
    out: &mut String,
    catalogue: &Catalogue,
    calls: &[Call],
    k: usize,
    node: &Node,
) -> Result<(), AllocError>
    requires { k + 1 < 2 ^ 64 }
    ensures { OnOk result
        (string_bytes out.new ≡ string_bytes out.old ++ turn_lines catalogue.now calls.now k (Some node.now)) }
{
    put_each_turn(out, catalogue, calls, k, node.turns.as_slice())
}

fn put_each_turn(
    out: &mut String,
    catalogue: &Catalogue,
    calls: &[Call],
    k: usize,
    turns: &[Turn],
) -> Result<(), AllocError>
    requires { k + 1 < 2 ^ 64 }
    ensures { OnOk result
        (string_bytes out.new ≡ string_bytes out.old ++ flat_map (turn_line catalogue.now calls.now k) turns.now) }
{
    'turns: for turn in turns {
        put_turn(out, catalogue, calls, k, turn)?;
    }
    Ok(())
}

fn put_turn(
    out: &mut String,
    catalogue: &Catalogue,
    calls: &[Call],
    k: usize,
    turn: &Turn,
) -> Result<(), AllocError>
    requires { k + 1 < 2 ^ 64 }
    ensures { OnOk result
        (string_bytes out.new ≡ string_bytes out.old ++ turn_line catalogue.now calls.now k turn.now) }
{
    let from = k as u64 + 1;
    let to = called(turn.to);
    write!(out, "  {from} -> {to} [label=\"")?;
    put_call(out, catalogue, &call_at(calls, turn.instance.0 as usize))?;
    out.push_str("\\n")?;
    put_outcome(out, catalogue, turn.outcome)?;
    out.push_str("\"]\n")?;
    Ok(())
}

/// Puts the transaction of a call, and its arguments.
fn put_call(out: &mut String, catalogue: &Catalogue, call: &Call) -> Result<(), AllocError>
    ensures { OnOk result (string_bytes out.new ≡ string_bytes out.old ++ call_words catalogue.now call.now) }
{
    out.push_str(transaction_name(catalogue, call.tx.0 as usize))?;
    put_arguments(out, call.arguments.as_slice())
}

/// How a node is called: by its number, counted from 1.
fn called(number: u32) -> u64
    ensures { result ≡ number + 1 }
{
    u64::from(number) + 1
}
