//! What may happen in the world, what is seen of it, what an attempt has loaded, what a commit stores,
//! and what becomes of an attempt.

use txn::{Outcome, TaskId, VarId};

/// What may happen next. Where it is not possible it is idle, and changes nothing.
#[derive(Clone, Copy, PartialEq, Eq)]
pub enum Event {
    /// An attempt of the task begins: it loads the clock.
    Begin(TaskId),
    /// The task's attempt begins to read the variable: it loads the version word.
    First(TaskId, VarId),
    /// It goes on with that read: it loads the value word.
    Value(TaskId),
    /// It ends that read: it loads the version word again.
    Second(TaskId),
    /// It has ended, and asks to commit.
    Ask(TaskId),
    /// The attempt that commits makes its next store.
    Word,
    /// The task's attempt is dropped.
    Drop(TaskId),
    /// The task's latest attempt, which became stale at a load, runs again: it loads the clock, and
    /// checks whether all that it read is so in that state too.
    Again(TaskId),
}

/// What is seen of an event.
#[derive(Clone, Copy, PartialEq, Eq)]
pub enum Seen {
    /// It was not possible.
    Idle,
    /// The attempt needs this variable.
    Needs(VarId),
    /// The attempt has ended so.
    Ended(Outcome),
    /// A word was loaded.
    Loaded,
    /// The attempt read, or would have to read, what is no longer so, or is just being stored.
    Stale,
    /// The attempt retried on the present values.
    Parked,
    /// The attempt begins to make the stores of the state of this number.
    Commits(u64),
    /// A word was stored.
    Stored,
    /// The last word of the state of this number was stored.
    Committed(u64),
    /// The attempt was dropped.
    Dropped,
    /// The attempt ran out of memory.
    Spent,
    /// The attempt runs again, and checks this variable.
    Checks(VarId),
    /// What it read of the variable that it checked is no longer so.
    Changed,
}

/// What the read that an attempt is in has loaded.
#[derive(Clone, Copy)]
pub enum Loads {
    Nothing,
    /// The version word.
    Version(u64),
    /// The version word, and then the value word.
    Value(u64, u64),
}

/// One store of a commit.
#[derive(Clone, Copy)]
pub enum Store {
    /// A version word gets its lock bit.
    Lock(VarId),
    /// A value word gets a value.
    Put(VarId, i64),
    /// The clock gets the commit's number.
    Tick,
    /// A version word gets that number, and no lock bit.
    Free(VarId),
}

/// What became of an attempt.
#[derive(Clone, Copy, PartialEq, Eq)]
pub enum Fate {
    Running,
    /// It made the state of this number.
    Committed(u64),
    Parked,
    Stale,
    Dropped,
    Spent,
}
