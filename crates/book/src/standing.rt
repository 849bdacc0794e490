//! What is told of how a task stands.

ghost use Rattle.std.specs.Prelude.{◌≡◌};
ghost use Rattle.book.specs.Recorded.{told_as};
ghost use Rattle.book.specs.Standings.{bare};

use crate::task::Slot;

/// How a task stands.
#[derive(Clone, Copy, Debug, PartialEq, Eq)]
pub enum Standing {
    /// It can be taken.
    Ready,
    /// It was taken, and is neither done nor parked nor given up since.
    Running,
    /// Its program retried, and it waits for a change of a variable that it read.
    Parked,
    /// It committed, and its journal entry has this number.
    Done(u64),
    /// It was given up, as memory ran out or by its host: it enters nothing.
    GivenUp,
}

/// What is told of a task that is kept so.
pub(crate) fn told(slot: &Slot) -> Standing
    ensures { result ≡ told_as (bare slot.now) }
{
    match slot {
        Slot::Ready => Standing::Ready,
        Slot::Running => Standing::Running,
        Slot::Parked(_) => Standing::Parked,
        Slot::Done(number) => Standing::Done(u64::from(*number)),
        Slot::GivenUp => Standing::GivenUp,
    }
}
