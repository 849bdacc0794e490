//! Every order of a catalogue's tasks, seen whole.
//!
//! `explore` lists the configurations that are reached, from the first one on, and tries each turn at each of them in
//! the order found; one that is found again is listed once. So all turns were tried when none is left to look at.
//! What it found is exact, or it says that there are too many or too little memory. `way_to_end` and `way_where` look
//! there for the shortest way to an end, and to where something shows; `graph_of` lists the configurations with their
//! turns. A configuration is a state with, for each instance, how many of its tasks are left:
//! tasks of the same transaction with the same arguments are alike, and `instances_of` lists them.
#![tactic(auto)]

mod configs;
mod counts;
mod finding;
mod found;
mod graph;
mod hash;
mod instances;
mod kept;
mod lefts;
mod rows;
mod search;
mod turn;
mod values;
mod way;

pub use configs::Configs;
pub use counts::task_counts;
pub use explore_law::{End, Found, Graph, InstanceId, Kinds, Node, Sought, Turn, WayWhere};
pub use finding::way_where;
pub use found::{MAX_STATES, Unexplored, explore, way_to_end};
pub use graph::graph_of;
pub use instances::{Instances, instances_of};
