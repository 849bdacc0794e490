//! A gate that holds workers, and two increments that are held by it.

use crate::counted::comes_to;
use runner::{Gate, Point};
use std::sync::atomic::{AtomicU64, Ordering};
use txn::TaskId;

pub(crate) const TWO: &str = "(var x 5)(tx inc (set x (add x 1)) x)(run inc 2)";

/// The report where the second task commits first.
pub(crate) const SWAPPED: &str =
    "base 0\nx 5 0\nentry 1 1 inc returned 6\nentry 2 0 inc returned 7\nnow 2\nx 7 2\nend\n";

/// The report where the first task commits first.
pub(crate) const IN_TURN: &str =
    "base 0\nx 5 0\nentry 1 0 inc returned 6\nentry 2 1 inc returned 7\nnow 2\nx 7 2\nend\n";

/// A point of a task.
pub(crate) type Place = (Point, TaskId);

/// How often a worker may pass a place, at which it is then held once, and until which other one was entered.
pub(crate) type Held = (u64, Place, Place);

fn is_at(place: Place, point: Point, task: TaskId) -> bool {
    place.0 == point && place.1 == task
}

/// Holds a worker one of the times that it is at a place, until another place was entered.
#[derive(Drop)]
struct Hold {
    how: Held,
    /// How often the worker came to its place.
    came: AtomicU64,
    /// 1 once the other place was entered.
    opened: AtomicU64,
}

impl Hold {
    /// A hold that nobody has come to.
    fn new(how: Held) -> Hold {
        Hold {
            how,
            came: AtomicU64::new(0),
            opened: AtomicU64::new(0),
        }
    }

    fn enter(&self, point: Point, task: TaskId) {
        if is_at(self.how.2, point, task) {
            self.opened.store(1, Ordering::SeqCst);
        }
    }

    /// Waits where the worker is held. Whether the other place was entered in time.
    fn wait(&self, point: Point, task: TaskId) -> bool {
        if !is_at(self.how.1, point, task) {
            return true;
        }
        let passed = self.came.fetch_add(1, Ordering::SeqCst);
        passed != self.how.0 || comes_to(&self.opened, 1)
    }
}

/// Two holds, and how often the first task ended an attempt.
#[derive(Drop)]
pub(crate) struct Script {
    first: Hold,
    second: Hold,
    ends: AtomicU64,
    /// 1 once a worker was held in vain.
    late: AtomicU64,
}

impl Script {
    pub(crate) fn new(holds: [Held; 2]) -> Script {
        Script {
            first: Hold::new(holds[0]),
            second: Hold::new(holds[1]),
            ends: AtomicU64::new(0),
            late: AtomicU64::new(0),
        }
    }

    /// How often the first task ended an attempt, `None` where what a hold waits for did not come in time.
    pub(crate) fn ends(&self) -> Option<u64> {
        if self.late.load(Ordering::SeqCst) == 0 {
            Some(self.ends.load(Ordering::SeqCst))
        } else {
            None
        }
    }
}

impl Gate for Script {
    fn at(&self, point: Point, task: TaskId) {
        self.first.enter(point, task);
        self.second.enter(point, task);
        if is_at((Point::Ended, TaskId(0)), point, task) {
            self.ends.fetch_add(1, Ordering::SeqCst);
        }
        // Both are asked, one behind the other.
        let first = self.first.wait(point, task);
        let second = self.second.wait(point, task);
        if !first || !second {
            self.late.store(1, Ordering::SeqCst);
        }
    }
}
