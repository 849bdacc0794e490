//! What a run of tasks left.

use crate::ast::{Outcome, TaskId, TxId};

/// One line of the journal: a task that committed.
#[derive(Clone, Copy, Debug, PartialEq, Eq)]
pub struct Entry {
    /// One more than the entry before.
    pub number: u64,
    pub task: TaskId,
    /// The task's transaction.
    pub tx: TxId,
    /// Never `Retries`.
    pub outcome: Outcome,
}

/// A report: a base, the journal since, and the present.
#[derive(Debug, PartialEq, Eq, Drop)]
pub struct Report {
    /// The number of the base: how many tasks had committed by then.
    pub base: u64,
    /// Each variable's value and version at the base.
    pub base_vars: Vec<(i64, u64)>,
    pub entries: Vec<Entry>,
    /// The present number: how many tasks have committed.
    pub now: u64,
    /// Each variable's present value and version.
    pub now_vars: Vec<(i64, u64)>,
    /// The tasks that wait for a change, each with its transaction.
    pub parked: Vec<(TaskId, TxId)>,
    /// The tasks given up as memory ran out, each with its transaction.
    pub memory: Vec<(TaskId, TxId)>,
}
