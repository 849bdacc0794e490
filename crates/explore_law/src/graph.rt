//! The graph of all orders.

use crate::instance::InstanceId;
use txn_programs::Outcome;

/// A turn of a configuration.
#[derive(Clone, Copy, PartialEq, Eq)]
pub struct Turn {
    /// Whose it is.
    pub instance: InstanceId,
    /// How it ends.
    pub outcome: Outcome,
    /// The number of the node to which it leads, counted from 0.
    pub to: u32,
}

/// A configuration that is reached: the values, for each instance how many of its tasks are left, and the turns.
#[derive(Drop)]
pub struct Node {
    pub values: Vec<i64>,
    pub left: Vec<u32>,
    pub turns: Vec<Turn>,
}

/// Every configuration that is reached, and the turns that lead from one to another.
#[derive(Drop)]
pub struct Graph {
    pub nodes: Vec<Node>,
}
