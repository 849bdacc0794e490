//! What an attempt answers, and where it stands.

ghost use Rattle.std.specs.Prelude.{◌≡◌};
ghost use Rattle.attempt.specs.View.{next_of};

use txn::{Fault, Outcome, VarId};

/// What `advance` answers.
#[derive(Clone, Copy, Debug, PartialEq, Eq)]
pub enum Next {
    /// The value of this variable is needed.
    Need(VarId),
    Returned(i64),
    Thrown(Fault),
    /// The transaction asks to be run again in another state.
    Retry,
    /// A growth was refused; so will each later call be.
    Memory,
}

/// Where an attempt stands.
#[derive(Clone, Copy, Debug, PartialEq, Eq)]
pub enum Stand {
    /// It may go on: nothing was advanced since it began, or since the last supply.
    Fresh,
    /// It waits for this variable's value.
    Needs(VarId),
    /// It ended.
    Over(Outcome),
    /// It ran out of memory.
    Spent,
}

/// The answer of an attempt that ended.
pub(crate) fn answer_of(outcome: Outcome) -> Next
    ensures { result ≡ next_of outcome }
{
    match outcome {
        Outcome::Returned(v) => Next::Returned(v),
        Outcome::Thrown(f) => Next::Thrown(f),
        Outcome::Retries => Next::Retry,
    }
}
