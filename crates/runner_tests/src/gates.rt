//! Two tasks run by two workers that are held at gates. They end so only where workers run side by side and evaluate
//! with no lock held.

use crate::holds::{Held, IN_TURN, Place, SWAPPED, Script, TWO};
use crate::parts::{options, writes_under};
use runner::{Gate, Point};
use std::alloc::Global;
use std::process::Abort;
use std::sync::Wait;
use std::sync::atomic::{AtomicU64, Ordering};
use std::thread::Threads;
use txn::TaskId;

const TAKEN: Place = (Point::Taken, TaskId(0));

const OTHER_TAKEN: Place = (Point::Taken, TaskId(1));

const NEEDS: Place = (Point::Needs, TaskId(0));

const ENDED: Place = (Point::Ended, TaskId(0));

const FINISHED: Place = (Point::Finished, TaskId(0));

const OTHER_FINISHED: Place = (Point::Finished, TaskId(1));

/// A hold that nothing comes to.
const NONE: Held = (0, (Point::Taken, TaskId(u32::MAX)), TAKEN);

/// Where the second task is held until the first has an end, and then the first until the second is over.
const BOTH: [Held; 2] = [(0, OTHER_TAKEN, ENDED), (0, ENDED, OTHER_FINISHED)];

/// A sum of two variables, and a task that sets the second.
const SUM: &str = "(var x 1)(var y 1)(tx sum (skip) (add x y))(tx sety (set y 5) 0)\
    (run sum 1)(run sety 1)";

/// The report where the sum is of the new value.
const MOVED: &str = "base 0\nx 1 0\ny 1 0\nentry 1 1 sety returned 0\nentry 2 0 sum returned 6\n\
    now 2\nx 1 0\ny 5 1\nend\n";

/// A task that throws what another one changes, and the report where the other one commits first.
const BAD: &str = "(var x 5)(tx bad (throw x) 0)(tx inc (set x (add x 1)) x)(run bad 1)(run inc 1)";

const THROWN: &str =
    "base 0\nx 5 0\nentry 1 1 inc returned 6\nentry 2 0 bad threw 6\nnow 2\nx 6 1\nend\n";

/// A task that waits for what another one changes, and the report where the other one commits first.
const WAIT: &str =
    "(var x 5)(tx wait (if (eq x 5) (retry) (skip)) x)(tx inc (set x (add x 1)) x)(run wait 1)(run inc 1)";

const WOKEN: &str =
    "base 0\nx 5 0\nentry 1 1 inc returned 6\nentry 2 0 wait returned 6\nnow 2\nx 6 1\nend\n";

/// What is tried, the file, its report, how often a task is tried, the holds, and how often the first task ends an
/// attempt, where that is one number.
type Row = (
    &'static str,
    &'static str,
    &'static str,
    u32,
    [Held; 2],
    Option<u64>,
);

const ROWS: &[Row] = &[
    (
        "a task is held where it is taken, until the other committed",
        TWO,
        SWAPPED,
        8,
        [(0, TAKEN, OTHER_FINISHED), NONE],
        None,
    ),
    (
        "a task is held at its end, until the other committed",
        TWO,
        SWAPPED,
        8,
        [(0, ENDED, OTHER_FINISHED), NONE],
        None,
    ),
    (
        "a task is held at its need, until the other committed",
        TWO,
        SWAPPED,
        8,
        [(0, NEEDS, OTHER_FINISHED), NONE],
        Some(1),
    ),
    ("one try is counted", TWO, SWAPPED, 1, BOTH, Some(1)),
    ("two tries are counted", TWO, SWAPPED, 2, BOTH, Some(2)),
    // Who is held at `Finished` has no task, so the other one comes to another worker.
    (
        "a finished task is held while the other runs",
        TWO,
        IN_TURN,
        8,
        [(0, OTHER_TAKEN, FINISHED), (0, FINISHED, OTHER_FINISHED)],
        None,
    ),
    (
        "a moved attempt commits at its first try",
        SUM,
        MOVED,
        1,
        [(1, NEEDS, OTHER_FINISHED), NONE],
        Some(1),
    ),
    // Whatever its end is, an attempt whose reads are no longer so when it comes to the book is tried again.
    (
        "no throw comes of a value that is gone",
        BAD,
        THROWN,
        8,
        BOTH,
        Some(2),
    ),
    (
        "nobody waits for a value that has come",
        WAIT,
        WOKEN,
        8,
        BOTH,
        Some(2),
    ),
    (
        "no sum is of a value that is gone",
        SUM,
        MOVED,
        8,
        BOTH,
        Some(2),
    ),
];

/// Whether a run by two workers with these holds writes this report, none of them waits in vain, and the first task
/// ends so many attempts.
fn is_so(
    rt: &(impl Threads + Wait + Sync + Abort),
    alloc: Global,
    file: &str,
    report: &str,
    tries: u32,
    holds: [Held; 2],
    ends: Option<u64>,
) -> bool {
    let options = options(rt, 2, tries, 0);
    let script = Script::new(holds);
    let is_written = writes_under(rt, alloc, file, options, &script, report, report);
    let found = script.ends();
    is_written && found.is_some() && (ends.is_none() || ends == found)
}

#[test]
fn tasks_are_held_at_gates(rt: HostRuntime) {
    for &(what, file, report, tries, holds, ends) in ROWS {
        assert!(rt;
            is_so(&rt, rt.alloc(), file, report, tries, holds, ends),
            "{what}"
        );
    }
}

/// An open gate that would count its calls.
#[derive(Drop)]
struct Opened {
    calls: AtomicU64,
}

impl Gate for Opened {
    const IS_OPEN: bool = true;

    fn at(&self, _point: Point, _task: TaskId) {
        self.calls.fetch_add(1, Ordering::SeqCst);
    }
}

/// Whether so many workers run without a call of an open gate.
fn is_not_called(rt: &(impl Abort + Threads + Wait + Sync), alloc: Global, workers: u32) -> bool {
    let options = options(rt, workers, 1, 0);
    let gate = Opened {
        calls: AtomicU64::new(0),
    };
    writes_under(rt, alloc, SUM, options, &gate, "base 0\n", "\nend\n")
        && gate.calls.load(Ordering::SeqCst) == 0
}

#[test]
fn an_open_gate_is_not_called(rt: HostRuntime) {
    for workers in [1, 2] {
        assert!(rt; is_not_called(&rt, rt.alloc(), workers));
    }
}
