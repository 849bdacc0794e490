//! Tasks run from which weight on they are tried: each way in which a worker runs one, under gates.

use crate::counted::{Counted, add_one, are, times};
use crate::holds::{Held, Script};
use crate::parts::{Passing, options};
use crate::points::Sixteen;
use runner::{Gate, OpenGate, Options, Point, RunReport, Weights, run_weighed};
use std::alloc::Global;
use std::process::Abort;
use std::sync::Wait;
use std::sync::atomic::AtomicU64;
use std::thread::Threads;
use txn::{Catalogue, Outcome, TaskId};
use txn_text::read_file;

/// A transaction that only reads, in some 250 instructions, one that counts, and one that counts and weighs
/// some 1,500.
const LOOK: &str =
    "(var x 5)(tx look (repeat 50 (if (lt x 0) (throw 1) (skip))) x)(tx inc (set x (add x 1)) x)\
    (tx far (seq (repeat 100 (if (lt x 0) (throw 1) (skip))) (set x (add x 1))) x)";

/// Where entries of the journal begin, their first task and the one behind their last, and what each returned.
type Entries = (usize, u32, u32, i64);

/// What a run leaves: how many entries, some of them, and x in the end.
type Left<'a> = (usize, &'a [Entries], i64);

/// Whether the next entries, from this place on, are of these tasks, and each returned this.
fn have(run: &RunReport, entries: Entries) -> bool {
    let (mut at, first, last, value) = entries;
    for task in first..last {
        let is_so = match run.journal.get(at) {
            Some(line) => {
                let entry = line.entry();
                entry.task == TaskId(task) && entry.outcome == Outcome::Returned(value)
            }
            None => false,
        };
        if !is_so {
            return false;
        }
        at = at.saturating_add(1);
    }
    true
}

/// Whether the run leaves this.
fn is_left(run: &RunReport, left: Left<'_>) -> bool {
    let (length, parts, x) = left;
    for &entries in parts {
        if !have(run, entries) {
            return false;
        }
    }
    run.journal.len() == length && run.rest.now_vars.first().map(|x| x.0) == Some(x)
}

/// Whether a run of the catalogue leaves this.
fn leaves<G: Gate>(
    rt: &(impl Threads + Wait + Sync),
    alloc: Global,
    catalogue: &Catalogue,
    options: Options,
    weights: Weights,
    gate: &G,
    left: Left<'_>,
) -> bool {
    match run_weighed(rt, alloc, catalogue, options, weights, gate) {
        Ok(run) => is_left(&run, left),
        Err(_) => false,
    }
}

/// Whether a run of these transactions, and of what is declared behind them, leaves this.
fn leaves_of<G: Gate>(
    rt: &(impl Threads + Wait + Sync),
    alloc: Global,
    more: &str,
    options: Options,
    weights: Weights,
    gate: &G,
    left: Left<'_>,
) -> bool {
    let Ok(text) = format!(in alloc; "{}{}", LOOK, more) else {
        return false;
    };
    match read_file(alloc, text.as_bytes()) {
        Ok(catalogue) => leaves(rt, alloc, &catalogue, options, weights, gate, left),
        Err(_) => false,
    }
}

/// What is so of one worker that tries tasks from the weights on from which several do so, what is declared, and what
/// is left. The transaction that waits has no task.
const ALONE: &[(&str, &str, Left<'static>)] = &[
    // A short task that no one can wait for has its turn when no task is ready any more.
    (
        "a short task is held behind light ones",
        "(run look 3)(run inc 1)(run look 9)",
        (13, &[(0, 0, 3, 5), (3, 4, 13, 5), (12, 3, 4, 6)], 6),
    ),
    (
        "eight of them have their turns together, in the order in which they were taken",
        "(run inc 9)(run look 36)",
        (
            45,
            &[
                (0, 0, 1, 6),
                (1, 1, 2, 7),
                (2, 2, 3, 8),
                (3, 3, 4, 9),
                (4, 4, 5, 10),
                (5, 5, 6, 11),
                (6, 6, 7, 12),
                (7, 7, 8, 13),
                (8, 9, 45, 13),
                (44, 8, 9, 14),
            ],
            14,
        ),
    ),
    (
        "where a task could wait for it a short one has its turn at once",
        "(tx wait (retry) 0)(run look 3)(run inc 1)(run look 9)",
        (13, &[(0, 3, 4, 6), (1, 0, 3, 6), (4, 4, 13, 6)], 6),
    ),
    (
        "with fewer than twelve light ones for a short one all have their turns",
        "(tx wait (retry) 0)(run look 3)(run inc 1)(run look 8)",
        (12, &[(0, 0, 3, 5), (3, 3, 12, 6)], 6),
    ),
];

#[test]
fn short_tasks_are_held_behind_light_ones(rt: HostRuntime) {
    let options = options(&rt, 1, 8, 0);
    for &(what, more, left) in ALONE {
        let weights = Weights::LEAST_TIME;
        let is_so = leaves_of(&rt, rt.alloc(), more, options, weights, &Passing, left);
        assert!(rt; is_so, "{what}");
    }
}

/// Runs, by how many workers, from which weights on tasks are tried, how often they come to each point, and what is
/// left.
type Row = (&'static str, u32, Weights, [u64; 4], Left<'static>);

/// Light tasks come to two points each, and short ones to none, whatever the gate is; behind a thousand that were
/// taken in one time under the lock, and behind turns that are long together, the worker goes on.
const COME: &[Row] = &[
    (
        "(run look 12)(run inc 1)",
        1,
        Weights::LEAST_TIME,
        [12, 0, 12, 0],
        (13, &[], 6),
    ),
    (
        "(run inc 1500)(run look 6000)",
        1,
        Weights::LEAST_TIME,
        [6000, 0, 6000, 0],
        (7500, &[], 1505),
    ),
    (
        "(run far 100)(run look 400)",
        1,
        Weights::LEAST_TIME,
        [400, 0, 400, 0],
        (500, &[], 105),
    ),
    (
        "(run inc 50)(run far 50)",
        4,
        Weights::LEAST_TIME,
        [0, 0, 0, 0],
        (100, &[], 105),
    ),
    (
        "(run inc 50)(run look 25)(run far 50)",
        4,
        Weights::NONE,
        [0, 0, 0, 0],
        (125, &[], 105),
    ),
];

/// Whether so many workers come to the points so often, and leave this.
fn come_to(
    rt: &(impl Abort + Threads + Wait + Sync),
    alloc: Global,
    runs: &str,
    workers: u32,
    weights: Weights,
    points: [u64; 4],
    left: Left<'_>,
) -> bool {
    let options = options(rt, workers, 8, 0);
    let gate = Counted::new();
    leaves_of(rt, alloc, runs, options, weights, &gate, left) && are(&gate.counts, points)
}

#[test]
fn tasks_that_are_tried_come_to_points(rt: HostRuntime) {
    for &(runs, workers, weights, points, left) in COME {
        assert!(rt;
            come_to(&rt, rt.alloc(), runs, workers, weights, points, left),
            "of {runs}"
        );
    }
}

/// Where each is tried, four workers whose gate is open leave what one would: each of 500 counts.
#[test]
fn each_task_is_tried_under_an_open_gate(rt: HostRuntime) {
    let options = options(&rt, 4, 8, 0);
    let runs = "(run inc 400)(run far 100)";
    let left = (500, [].as_slice(), 505);
    assert!(rt;
        leaves_of(
            &rt,
            rt.alloc(),
            runs,
            options,
            Weights::EACH,
            &OpenGate,
            left
        )
    );
}

/// Two holds, and how often tasks came to the points: the first, and all.
#[derive(Drop)]
struct Both {
    script: Script,
    first: AtomicU64,
    all: AtomicU64,
}

impl Gate for Both {
    fn at(&self, point: Point, task: TaskId) {
        add_one(&self.all, point);
        if task.0 == 0 {
            add_one(&self.first, point);
        }
        self.script.at(point, task);
    }
}

/// One of two workers, which have six each of the first twelve tasks, is held at the end of the first task until a
/// later one was taken; and who has the second task until the other has its six.
const HELD: [Held; 2] = [
    (0, (Point::Ended, TaskId(0)), (Point::Taken, TaskId(13))),
    (0, (Point::Taken, TaskId(1)), (Point::Taken, TaskId(0))),
];

/// Whether two workers that try a task so often try the first one so often, and each of the others once.
fn are_tried(rt: &(impl Abort + Threads + Wait + Sync), alloc: Global, tries: u32) -> bool {
    let options = options(rt, 2, tries, 0);
    let more = "(tx wait (retry) 0)(run look 12)(run inc 1)(run look 60)";
    let gate = Both {
        script: Script::new(HELD),
        first: AtomicU64::new(0),
        all: AtomicU64::new(0),
    };
    let left = (73, [(6, 12, 13, 6)].as_slice(), 6);
    leaves_of(rt, alloc, more, options, Weights::LEAST_TIME, &gate, left)
        && gate.script.ends().is_some()
        && are(&gate.first, [1, 0, u64::from(tries), 0])
        && times(&gate.all, Point::Taken) == 72
}

/// A light task that is held at its end, until another worker has let a writer commit, is tried as often as
/// the options say, and then has its turn. Each task that its trial has later is untried.
#[test]
fn tries_of_light_tasks_are_counted(rt: HostRuntime) {
    for tries in [1, 2] {
        assert!(rt; are_tried(&rt, rt.alloc(), tries), "of {tries}");
    }
}

/// Whether sixteen workers come to their needs at once.
fn are_at_once(rt: &(impl Abort + Threads + Wait + Sync), alloc: Global) -> bool {
    let options = options(rt, 16, 8, 0);
    let more = "(tx long (repeat 1000 (if (lt x 0) (throw 1) (skip))) x)(run long 16)";
    let gate = Sixteen::new(Point::Needs);
    let left = (16, [].as_slice(), 5);
    leaves_of(rt, alloc, more, options, Weights::LEAST_TIME, &gate, left) && gate.came_at_once()
}

/// Long tasks are evaluated side by side from the weights on from which a run under an open gate tries them.
#[test]
fn sixteen_long_tasks_are_evaluated_at_once(rt: HostRuntime) {
    assert!(rt; are_at_once(&rt, rt.alloc()));
}
