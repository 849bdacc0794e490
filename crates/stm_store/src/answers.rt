//! What the calls of a store answer: what came of a turn, or why nothing was done.

use txn::Outcome;

/// The entry of a task in the journal of the present chapter: its number, and what the task returned or
/// threw.
#[derive(Clone, Copy, Debug, PartialEq, Eq)]
pub struct Entered {
    pub number: u64,
    pub outcome: Outcome,
}

/// What came of a turn.
#[derive(Clone, Copy, Debug, PartialEq, Eq)]
pub enum End {
    /// The task is done.
    Entered(Entered),
    /// The program retries: the task waits for a change of what it read.
    Parked,
    /// Out of memory: the task is given up.
    Abandoned,
}

/// Why a call did nothing. Nothing changed.
#[derive(Clone, Copy, Debug, PartialEq, Eq)]
pub enum Refused {
    /// There is no such transaction, or it has not as many parameters as there are arguments.
    Unknown,
    /// The present chapter has no such task any more: it is done or given up, or its chapter has ended; or there never
    /// was one.
    Gone,
    /// No task is ready, or the one that is wanted is not.
    NotReady,
    /// The task is not running.
    NotRunning,
    /// The worker has no attempt that ended and was not brought yet; or of a desk, the chapter did not end: its host
    /// still has the one before.
    NotEnded,
    /// The worker is of a program that says otherwise of this transaction.
    OtherProgram,
    /// What was read is no longer so: try again.
    Stale,
    /// There is no room for a task more.
    NoRoom,
    /// The transaction retries on the present values, and the call does not wait.
    Retries,
    /// A growth was refused.
    Memory,
    /// The service is closed.
    Closed,
    /// The time of the call is up.
    TimedOut,
}

/// Whether a call may wait for a change where its transaction retries.
#[derive(Clone, Copy, Debug, PartialEq, Eq)]
pub enum Way {
    /// Its task is parked then.
    Waits,
    /// Nothing is submitted then.
    Tries,
}
