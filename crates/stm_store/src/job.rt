//! What a worker is told to do, and the number by which a host knows a task.

use txn::{Arguments, TaskId, TxId};

/// The number of a task that stays its own through all chapters of a store. The declared tasks have 0,
/// 1, .. in their order, and each task that is submitted has the next one.
#[derive(Clone, Copy, Debug, PartialEq, Eq)]
pub struct Ticket(pub u64);

/// A task of a store in a chapter of it, and the call that it makes: of which transaction, with which arguments.
#[derive(Clone, Copy, Debug, PartialEq, Eq)]
pub struct Job {
    /// Which task it is, through all chapters.
    pub ticket: Ticket,
    /// The chapter in which it was taken: in no other can it be brought.
    pub chapter: u64,
    /// The task's number in that chapter.
    pub task: TaskId,
    pub tx: TxId,
    pub arguments: Arguments,
}
