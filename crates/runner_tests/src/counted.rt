//! How often points of a worker's life were come to, and waiting until a count is high.

use runner::{Gate, Point};
use std::sync::atomic::{AtomicU64, Ordering};
use std::thread;
use txn::TaskId;

/// The point is come to once more. The counts have 16 bits each, in the order of a worker's life.
pub(crate) fn add_one(counts: &AtomicU64, point: Point) {
    let one = match point {
        Point::Taken => 1,
        Point::Needs => 0x1_0000,
        Point::Ended => 0x1_0000_0000,
        Point::Finished => 0x1_0000_0000_0000,
    };
    counts.fetch_add(one, Ordering::SeqCst);
}

/// How often the point was come to.
pub(crate) fn times(counts: &AtomicU64, point: Point) -> u64 {
    let all = counts.load(Ordering::SeqCst);
    let first = match point {
        Point::Taken => all,
        Point::Needs => all >> 16,
        Point::Ended => all >> 32,
        Point::Finished => all >> 48,
    };
    first & 0xffff
}

/// Whether the points were come to so often, in their order.
pub(crate) fn are(counts: &AtomicU64, wanted: [u64; 4]) -> bool {
    counts.load(Ordering::SeqCst) == wanted[0] | wanted[1] << 16 | wanted[2] << 32 | wanted[3] << 48
}

/// Waits until the count is so high, but not for ever. Whether it is.
pub(crate) fn comes_to(count: &AtomicU64, wanted: u64) -> bool {
    for _ in 0..10_000_000u32 {
        if count.load(Ordering::SeqCst) >= wanted {
            return true;
        }
        thread::yield_now();
    }
    false
}

/// How often each point was come to, fewer than 65,536 times each.
#[derive(Drop)]
pub(crate) struct Counted {
    pub(crate) counts: AtomicU64,
}

impl Counted {
    pub(crate) fn new() -> Counted {
        Counted {
            counts: AtomicU64::new(0),
        }
    }
}

impl Gate for Counted {
    fn at(&self, point: Point, _task: TaskId) {
        add_one(&self.counts, point);
    }
}
