//! One line of a schedule: what a player of the stepped world asks for.

use crate::ast::{TaskId, VarId};

/// A line of a schedule. `Read`, `Commit` and `Move` are several single steps played in a row, each
/// other line is one.
#[derive(Clone, Copy, PartialEq, Eq)]
pub enum Move {
    /// The task begins an attempt.
    Begin(TaskId),
    /// The task's attempt reads the variable: `First`, and if that is loaded `Value` and `Second`.
    Read(TaskId, VarId),
    /// The task's attempt ends: `Ask`, and if it then commits `Word` until it has.
    Commit(TaskId),
    /// The task's attempt is dropped.
    Drop(TaskId),
    /// The task's attempt loads the variable's version word.
    First(TaskId, VarId),
    /// The task's attempt loads the value word.
    Value(TaskId),
    /// The task's attempt loads the version word once more.
    Second(TaskId),
    /// The task's attempt, which has ended, asks to be committed or parked.
    Ask(TaskId),
    /// The one that commits does its next store.
    Word,
    /// The task's latest attempt, which became stale at a load, runs again.
    Again(TaskId),
    /// .. and while it checks a variable, that is read.
    Move(TaskId),
}
