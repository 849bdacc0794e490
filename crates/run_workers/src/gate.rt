//! Where a worker may be held.

use txn::TaskId;

/// Where a worker stands, with no lock held.
///
/// A task that is tried by itself comes to all of these; one that is tried on a copy of the present values
/// comes to `Taken` and, at each try, to `Ended`; one that has its turn under the lock and no try before it
/// comes to none.
#[derive(Clone, Copy, Debug, PartialEq, Eq)]
pub enum Point {
    /// It took a task, which it is to try.
    Taken,
    /// The attempt needs a variable, which is not read yet.
    Needs,
    /// The attempt has ended, and its end is not brought to the book yet.
    Ended,
    /// The task is committed, parked or given up. The next one is not taken yet.
    Finished,
}

/// What a worker calls at each of these points, while it holds no lock. A gate that waits there
/// holds that worker and no other.
pub trait Gate: Sync {
    /// Whether the gate is open: then no worker calls it, which tasks are tried goes by what they weigh, and
    /// the next task is taken in the time under the lock in which one is finished. Under any other gate each
    /// task is tried by itself, so that it comes to all points.
    const IS_OPEN: bool = false;

    /// The worker that has this task is at this point.
    fn at(&self, point: Point, task: TaskId);
}

/// A gate that no worker calls.
pub struct OpenGate;

impl Gate for OpenGate {
    const IS_OPEN: bool = true;

    fn at(&self, _point: Point, _task: TaskId) {}
}

/// A worker that has this task comes to the point: it calls the gate, unless that is open.
pub(crate) fn stop_at<G: Gate>(gate: &G, point: Point, task: TaskId) {
    if !G::IS_OPEN {
        gate.at(point, task);
    }
}
