//! Many workers: what they leave is the same whatever the schedule. Each task is tried, since the gate is not open.

use crate::counted::{add_one, times};
use crate::parts::{Passing, options, writes_under};
use runner::{Gate, Point};
use std::alloc::{AllocError, Global};
use std::process::Abort;
use std::sync::Wait;
use std::sync::atomic::AtomicU64;
use std::thread::Threads;
use txn::TaskId;

const BUFFER: &str =
    "(var full 0)(var cell 0)(tx get (seq (if (eq full 0) (retry) (skip)) (set full 0)) cell)(tx put (seq (if (eq \
        full 1) (retry) (skip)) (set cell 42) (set full 1)) 0)(run get 1)(run put 1)";

const PASSED_ON: &str =
    "base 0\nfull 0 0\ncell 0 0\nentry 1 1 put returned 0\nentry 2 0 get returned 42\nnow 2\nfull 0 2\ncell 42 \
        1\nend\n";

const MOVES: &str =
    "(stm 2)(var a 100)(var b 0)(always sum (eq (add a b) 100))(always pos (le 0 a))(tx again (seq (if (eq a 100) \
        (retry) (skip)) (set a (sub a 60)) (set b (add b 60))) a)(tx move (seq (set a (sub a 60)) (set b (add b \
        60))) a)(run again 1)(run move 1)";

const MOVED_ONCE: &str =
    "base 0\na 100 0\nb 0 0\nentry 1 1 move returned 40\nentry 2 0 again broke pos\nnow 2\na 40 1\nb 60 1\nend\n";

const THOUSAND: &str = "(var x 5)(tx inc (set x (add x 1)) x)(run inc 1000)";

const ALL_TOLD: &str = "\nnow 1000\nx 1005 1000\nend\n";

/// Files, where their reports begin and how these end, and the checkpoint: of a thousand tasks a journal that begins
/// anew at 300 entries is that of the last 100.
const SAME: &[(&str, &str, &str, u32)] = &[
    (BUFFER, PASSED_ON, PASSED_ON, 0),
    (MOVES, MOVED_ONCE, MOVED_ONCE, 0),
    (THOUSAND, "base 0\n", ALL_TOLD, 0),
    (THOUSAND, "base 900\nx 905 900\nentry 901 ", ALL_TOLD, 300),
];

#[test]
fn any_number_of_workers_leaves_the_same(rt: HostRuntime) {
    for &(file, front, end, checkpoint) in SAME {
        for workers in 1..17 {
            let options = options(&rt, workers, 8, checkpoint);
            let is_so = writes_under(&rt, rt.alloc(), file, options, &Passing, front, end);
            assert!(rt; is_so, "of {workers}");
        }
    }
}

/// The order that the seed 1 draws, by `cases/drawn.cases`, where no gate is asked.
const DRAWN: &str =
    "base 0\nx 5 0\nentry 1 2 inc returned 6\nentry 2 1 inc returned 7\nentry 3 0 inc returned 8\nnow 3\nx 8 3\nend\n";

#[test]
fn a_gate_changes_no_drawn_order(rt: HostRuntime) {
    let file = "(var x 5)(tx inc (set x (add x 1)) x)(run inc 3)";
    let Some(seed) = options(&rt, 1, 8, 0).with_seed(1) else {
        panic!(rt; "no options")
    };
    assert!(rt; writes_under(&rt, rt.alloc(), file, seed, &Passing, DRAWN, DRAWN));
}

/// How often each task was at the points. At `Ended` it counts only what came between `Taken` and `Finished`.
#[derive(Drop)]
struct Counts {
    tasks: Vec<AtomicU64>,
}

/// So many counts, each of which is 0.
pub(crate) fn zeros(alloc: Global, count: usize) -> Result<Vec<AtomicU64>, AllocError> {
    let mut all = Vec::with_capacity(alloc, count)?;
    for _ in 0..count {
        all.push(AtomicU64::new(0))?;
    }
    Ok(all)
}

impl Gate for Counts {
    fn at(&self, point: Point, task: TaskId) {
        let Some(counts) = self.tasks.get(task.0 as usize) else {
            return;
        };
        let is_running = times(counts, Point::Taken) == 1 && times(counts, Point::Finished) == 0;
        if point != Point::Ended || is_running {
            add_one(counts, point);
        }
    }
}

/// Whether a task went its way once.
fn went_once(counts: &AtomicU64) -> bool {
    // A task of which each of the 64 tries was stale has its turn under the lock, where no gate is.
    let is_served = times(counts, Point::Needs) >= 64;
    let has_ended = times(counts, Point::Ended) >= 1;
    times(counts, Point::Taken) == 1
        && times(counts, Point::Finished) == 1
        && (has_ended || is_served)
}

/// Whether all thousand are told, and each went its way once.
fn go_their_way(rt: &(impl Abort + Threads + Wait + Sync), alloc: Global) -> bool {
    let options = options(rt, 8, 64, 0);
    let Ok(tasks) = zeros(alloc, 1000) else {
        return false;
    };
    let counts = Counts { tasks };
    writes_under(rt, alloc, THOUSAND, options, &counts, "base 0\n", ALL_TOLD)
        && counts.tasks.iter().all(went_once)
}

#[test]
fn each_of_a_thousand_tasks_goes_its_way_once(rt: HostRuntime) {
    assert!(rt; go_their_way(&rt, rt.alloc()));
}
