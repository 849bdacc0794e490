//! How a task stands, and what the end of an attempt and a turn of a task answer.

ghost use Rattle.std.specs.Prelude.{◌≡◌, ◌≤◌, false, length, map, Some, slice_get, slice_set, vec_capacity};
ghost use Rattle.txn_programs.specs.declared.limits.TheConstants.{MAX_TASKS};
ghost use Rattle.book.specs.Standings.{bare};
ghost use Rattle.book.specs.Carrying.{stays};
ghost use Rattle.book.specs.Counting.{IsTally};
ghost use Rattle.book.specs.Turns.{is_committed};

use crate::counting::{Tally, with_one_more, without_one};
use txn::TaskId;

/// How a task is kept, in eight bytes.
#[derive(Drop)]
pub enum Slot {
    /// It can be taken.
    Ready,
    /// It was taken, and is neither done nor parked nor given up since.
    Running,
    /// Its program retried on so many variables, and waits for a change of one of them.
    Parked(u32),
    /// It committed, and its journal entry has this number.
    Done(u32),
    /// It was given up, as memory ran out or by its host: it enters nothing.
    GivenUp,
}

/// What the end of an attempt answers.
#[derive(Clone, Copy, Debug, PartialEq, Eq)]
pub enum Finish {
    /// The task was not running, and nothing changed.
    NotRunning,
    /// A logged value differs from the present one. The task stays running, and nothing changed.
    Stale,
    /// The program retries on the present values: the task is parked with its log.
    Parked,
    /// The task is done, with the journal entry of this number.
    Committed(u64),
}

/// What a turn of a task on the present values answers.
#[derive(Clone, Copy, Debug, PartialEq, Eq)]
pub enum Serial {
    /// The task was not running, and nothing changed.
    NotRunning,
    /// The program retries on the present values: the task is parked with its log.
    Parked,
    /// The task is done, with the journal entry of this number.
    Committed(u64),
    /// Out of memory: the task is given up, and nothing else changed.
    Abandoned,
}

/// Why a task has no plain turn. Nothing changed.
#[derive(Clone, Copy, Debug, PartialEq, Eq)]
pub enum NotPlain {
    /// The task is not running.
    NotRunning,
    /// The program retries on the present values.
    Retries,
    /// Out of memory.
    Memory,
}

/// Whether a turn committed.
pub fn is_committed(how: Serial) -> bool
    ensures { result ≡ is_committed how }
{
    matches!(how, Serial::Committed(_))
}

/// A task that stood so stands otherwise from now on, and is counted so.
#[inline(always)]
pub fn stand(standings: &mut Vec<Slot>, tally: &mut Tally, task: TaskId, was: &Slot, how: Slot)
    requires was { slice_get standings.old.items task.0 ≡ Some was.now }
    requires few { length standings.old.items ≤ MAX_TASKS }
    requires tallied { IsTally (map bare standings.old.items) tally.old }
    ensures items { standings.new.items ≡ slice_set standings.old.items task.0 how }
    ensures capacity { vec_capacity standings.new ≡ vec_capacity standings.old }
    ensures tallied { IsTally (map bare standings.new.items) tally.new }
{
    *tally = with_one_more(without_one(*tally, was), &how);
    standings[task.0 as usize] = how;
}

/// What is parked with so many variables and what runs stand in one another's places.
#[inline(always)]
pub fn trade(standings: &mut Vec<Slot>, from: usize, to: usize, count: u32)
    requires from { slice_get standings.old.items from ≡ Some (Slot.Parked count) }
    requires to { slice_get standings.old.items to ≡ Some Slot.Running }
    ensures items { standings.new.items
        ≡ slice_set (slice_set standings.old.items from Slot.Running) to (Slot.Parked count) }
    ensures capacity { vec_capacity standings.new ≡ vec_capacity standings.old }
{
    standings[from] = Slot::Running;
    standings[to] = Slot::Parked(count);
}

/// A task that has ended is kept so.
pub fn ended(task: &Slot) -> Slot
    requires { stays (bare task.now) ≡ false }
    ensures { result ≡ task.now }
{
    match task {
        Slot::Done(number) => Slot::Done(*number),
        Slot::GivenUp => Slot::GivenUp,
        Slot::Ready | Slot::Running | Slot::Parked(_) => unreachable!(),
    }
}

/// Whether the task comes over to the next chapter.
pub fn stays(task: &Slot) -> bool
    ensures { result ≡ stays (bare task.now) }
{
    match task {
        Slot::Ready | Slot::Running | Slot::Parked(_) => true,
        Slot::Done(_) | Slot::GivenUp => false,
    }
}
