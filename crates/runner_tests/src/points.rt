//! Which points of its life a worker comes to, in which order and how often.

use crate::counted::{Counted, are, comes_to};
use crate::many::zeros;
use crate::parts::{options, writes_under};
use runner::{Gate, Point};
use std::alloc::Global;
use std::process::Abort;
use std::sync::Wait;
use std::sync::atomic::{AtomicU64, Ordering};
use std::thread::Threads;
use txn::TaskId;

/// A transaction that reads two variables, one that throws, one that waits, one that reads but what
/// the condition asks for, and one that would break the condition.
const KINDS: &str =
    "(stm 2)(var x 1)(var y 1)(always pos (le 1 x))(tx sum (skip) (add x y))(tx bad (throw x) 0)\
    (tx wait (if (eq x 1) (retry) (skip)) 0)(tx seven (skip) 7)(tx down (set x 0) 0)\
    (run sum 1)(run bad 1)(run wait 1)(run seven 1)(run down 1)";

/// The points of one worker that runs these: 1 for `Taken`, 2 for `Needs`, 3 for `Ended` and 4 for
/// `Finished`.
const POINTS: u64 = 0o1_2234_1234_1234_1234_134;

/// The points of each task, by whatever number of workers: none of them changes what another reads.
const OF_EACH: [u64; 5] = [0o12234, 0o1234, 0o1234, 0o1234, 0o134];

fn digit_of(point: Point) -> u64 {
    match point {
        Point::Taken => 1,
        Point::Needs => 2,
        Point::Ended => 3,
        Point::Finished => 4,
    }
}

/// The points that were come to, an octal digit for each.
#[derive(Drop)]
struct Points {
    /// Those of one worker that is alone.
    alone: AtomicU64,
    /// Those of each task.
    tasks: Vec<AtomicU64>,
}

/// One more point, of whoever comes to these points alone.
fn note(digits: &AtomicU64, point: Point) {
    let before = digits.load(Ordering::SeqCst);
    let longer = before.wrapping_mul(8).wrapping_add(digit_of(point));
    digits.store(longer, Ordering::SeqCst);
}

impl Gate for Points {
    fn at(&self, point: Point, task: TaskId) {
        note(&self.alone, point);
        if let Some(digits) = self.tasks.get(task.0 as usize) {
            note(digits, point);
        }
    }
}

/// Whether each of the five came to its points.
fn came_to_theirs(tasks: &[AtomicU64]) -> bool {
    for (digits, wanted) in tasks.iter().zip(OF_EACH) {
        if digits.load(Ordering::SeqCst) != wanted {
            return false;
        }
    }
    tasks.len() == 5
}

/// Whether so many workers bring each task to its points; one worker comes to them in the order of the tasks.
fn come_to_theirs(rt: &(impl Abort + Threads + Wait + Sync), alloc: Global, workers: u32) -> bool {
    let options = options(rt, workers, 2, 0);
    let Ok(tasks) = zeros(alloc, 5) else {
        return false;
    };
    let gate = Points {
        alone: AtomicU64::new(0),
        tasks,
    };
    writes_under(rt, alloc, KINDS, options, &gate, "base 0\n", "\nend\n")
        && came_to_theirs(gate.tasks.as_slice())
        && (workers > 1 || gate.alone.load(Ordering::SeqCst) == POINTS)
}

#[test]
fn any_number_of_workers_brings_each_task_to_its_points(rt: HostRuntime) {
    for workers in 1..17 {
        assert!(rt; come_to_theirs(&rt, rt.alloc(), workers), "of {workers}");
    }
}

/// Whether one worker comes to each point 3,000 times.
fn runs_all(rt: &(impl Abort + Threads + Wait + Sync), alloc: Global) -> bool {
    let options = options(rt, 1, 2, 0);
    let file = "(var x 5)(tx inc (set x (add x 1)) x)(run inc 3000)";
    let gate = Counted::new();
    writes_under(rt, alloc, file, options, &gate, "base 0\n", "\nend\n")
        && are(&gate.counts, [3000, 3000, 3000, 3000])
}

#[test]
fn a_worker_runs_all_tasks_by_itself(rt: HostRuntime) {
    assert!(rt; runs_all(&rt, rt.alloc()));
}

/// Holds each worker at a point until sixteen came there.
#[derive(Drop)]
pub(crate) struct Sixteen {
    pub(crate) held: Point,
    pub(crate) came: AtomicU64,
    /// 1 once one was held in vain.
    pub(crate) late: AtomicU64,
}

impl Gate for Sixteen {
    fn at(&self, point: Point, _task: TaskId) {
        if point != self.held {
            return;
        }
        self.came.fetch_add(1, Ordering::SeqCst);
        if !comes_to(&self.came, 16) {
            self.late.store(1, Ordering::SeqCst);
        }
    }
}

impl Sixteen {
    pub(crate) fn new(held: Point) -> Sixteen {
        Sixteen {
            held,
            came: AtomicU64::new(0),
            late: AtomicU64::new(0),
        }
    }

    /// Whether sixteen came in time, and no more.
    pub(crate) fn came_at_once(&self) -> bool {
        self.late.load(Ordering::SeqCst) == 0 && self.came.load(Ordering::SeqCst) == 16
    }
}

/// Whether sixteen workers take a task each before one goes on.
fn have_one_at_once(rt: &(impl Abort + Threads + Wait + Sync), alloc: Global) -> bool {
    let options = options(rt, 16, 64, 0);
    let file = "(var x 5)(tx inc (set x (add x 1)) x)(run inc 16)";
    let gate = Sixteen::new(Point::Taken);
    writes_under(rt, alloc, file, options, &gate, "base 0\n", "\nend\n") && gate.came_at_once()
}

#[test]
fn sixteen_workers_have_a_task_at_once(rt: HostRuntime) {
    assert!(rt; have_one_at_once(&rt, rt.alloc()));
}

/// Lets another increment commit behind each end of the first task, so that each of its tries is
/// stale; and counts how often that task is over.
#[derive(Drop)]
struct Spoils {
    ends: AtomicU64,
    commits: AtomicU64,
    over: AtomicU64,
    late: AtomicU64,
}

impl Spoils {
    /// What the first task waits for at its end, and any other one before its first step.
    fn wait(&self, point: Point, task: TaskId) -> bool {
        match (point, task.0) {
            (Point::Ended, 0) => {
                let ends = self.ends.fetch_add(1, Ordering::SeqCst);
                return comes_to(&self.commits, ends.saturating_add(1));
            }
            (Point::Taken, other) if other > 0 => return comes_to(&self.ends, u64::from(other)),
            (Point::Finished, 0) => self.over.fetch_add(1, Ordering::SeqCst),
            (Point::Finished, _) => self.commits.fetch_add(1, Ordering::SeqCst),
            _ => 0,
        };
        true
    }
}

impl Gate for Spoils {
    fn at(&self, point: Point, task: TaskId) {
        if !self.wait(point, task) {
            self.late.store(1, Ordering::SeqCst);
        }
    }
}

/// Whether the first task has 64 tries, and is over once.
fn is_served_at_last(rt: &(impl Abort + Threads + Wait + Sync), alloc: Global) -> bool {
    let options = options(rt, 2, 64, 65);
    let file = "(var x 5)(tx inc (set x (add x 1)) x)(run inc 65)";
    let report = "base 65\nx 70 65\nnow 65\nx 70 65\nend\n";
    let gate = Spoils {
        ends: AtomicU64::new(0),
        commits: AtomicU64::new(0),
        over: AtomicU64::new(0),
        late: AtomicU64::new(0),
    };
    writes_under(rt, alloc, file, options, &gate, report, report)
        && gate.late.load(Ordering::SeqCst) == 0
        && gate.ends.load(Ordering::SeqCst) == 64
        && gate.over.load(Ordering::SeqCst) == 1
}

/// After 64 stale tries the task has its turn under the lock, as the 65th entry, behind which the
/// journal begins anew.
#[test]
fn a_task_has_its_turn_after_64_tries(rt: HostRuntime) {
    assert!(rt; is_served_at_last(&rt, rt.alloc()));
}
