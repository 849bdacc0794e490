//! What is found of all orders.

use txn_programs::limits::MAX_CONDITIONS;

/// A configuration without a turn: the values, and for each instance how many of its tasks wait.
#[derive(PartialEq, Eq, PartialOrd, Ord, Drop)]
pub struct End {
    pub values: Vec<i64>,
    pub waiting: Vec<u32>,
}

/// Which outcomes the turns of a transaction have.
#[derive(Clone, Copy, PartialEq, Eq)]
pub struct Kinds {
    pub returned: bool,
    pub threw: bool,
    pub overflow: bool,
    pub zerodiv: bool,
    /// A cell outside its table was named.
    pub outside: bool,
    /// For each standing condition, whether it was thrown that it is broken.
    pub broke: [bool; MAX_CONDITIONS],
}

/// What is found of all orders of a file's tasks.
#[derive(Drop)]
pub struct Found {
    /// How many configurations are reached.
    pub states: usize,
    /// For each transaction, which outcomes its turns have somewhere.
    pub kinds: Vec<Kinds>,
    /// The reached configurations without a turn, ascending by values and then by the counts that wait.
    pub ends: Vec<End>,
}
