//! The options of `stm run` come through to its workers: how often each tries a task.

use crate::host::{Host, Prints, Reads};
use crate::program::words_of;
use commands::run_by;
use runner::{Gate, Point};
use std::alloc::Global;
use std::sync::Wait;
use std::sync::atomic::{AtomicU64, Ordering};
use std::thread;
use std::thread::Threads;
use txn::TaskId;

/// Lets another increment commit behind each end of the first task, so that each of its tries is
/// stale.
#[derive(Drop)]
struct Spoils {
    ends: AtomicU64,
    commits: AtomicU64,
}

/// Waits until the count is so high, but not for ever.
fn wait_for(count: &AtomicU64, wanted: u64) {
    for _ in 0..10_000_000u32 {
        if count.load(Ordering::SeqCst) >= wanted {
            return;
        }
        thread::yield_now();
    }
}

impl Gate for Spoils {
    fn at(&self, point: Point, task: TaskId) {
        match (point, task.0) {
            (Point::Ended, 0) => {
                let ends = self.ends.fetch_add(1, Ordering::SeqCst);
                wait_for(&self.commits, ends.saturating_add(1));
            }
            (Point::Taken, other) if other > 0 => wait_for(&self.ends, u64::from(other)),
            (Point::Finished, other) if other > 0 => {
                self.commits.fetch_add(1, Ordering::SeqCst);
            }
            _ => {}
        }
    }
}

/// Whether a run of the file by these words ends with 0, and tries the first task so often.
fn tries(
    rt: &(impl Threads + Wait + Sync),
    alloc: Global,
    line: &[u8],
    file: &[u8],
    wanted: u64,
) -> bool {
    let Ok(words) = words_of(alloc, line) else {
        return false;
    };
    let host = Host::new(
        alloc,
        words.as_slice(),
        file,
        (Reads::AllBytes, Prints::All),
    );
    is_tried(rt, &host, wanted)
}

/// Whether so does the program.
fn is_tried(rt: &(impl Threads + Wait + Sync), host: &Host<'_>, wanted: u64) -> bool {
    let gate = Spoils {
        ends: AtomicU64::new(0),
        commits: AtomicU64::new(0),
    };
    run_by(rt, host, &gate) == 0 && gate.ends.load(Ordering::SeqCst) == wanted
}

#[test]
fn a_task_is_tried_as_often_as_asked(rt: HostRuntime) {
    let line = b"stm run a.stm --workers 2 --tries 1";
    let file = b"(var x 5)(tx inc (set x (add x 1)) x)(run inc 2)";
    assert!(rt; tries(&rt, rt.alloc(), line, file, 1));
    let line = b"stm run a.stm --workers 2 --tries 3";
    let file = b"(var x 5)(tx inc (set x (add x 1)) x)(run inc 4)";
    assert!(rt; tries(&rt, rt.alloc(), line, file, 3));
}
