//! A task whose attempt is refused memory, by a worker under a gate: it is given up, and then over. And tasks whose
//! transactions take no memory, which are never given up.

use crate::counts::{Counts, written};
use runner::{Gate, OpenGate};
use std::alloc::Global;
use std::sync::Wait;
use std::thread::Threads;

/// A task that takes memory, in its first branch.
const BRANCH: &str =
    "(var x 5)(tx t (orelse (seq (set x (add x 1)) (retry)) (set x (add x 2))) x)(run t 1)";

/// Tasks that take none: eight variables are read, and no transaction has an `orelse`.
const EIGHT: &str =
    "(var a 1)(var b 2)(var c 3)(var d 4)(var e 5)(var f 6)(var g 7)(var h 8)(tx up (set a (add a h)) a)\
    (tx sum (skip) (add (add (add a b) (add c d)) (add (add e f) (add g h))))(run sum 1)(run up 2)";

/// The end of their report: all three have committed.
const EIGHT_END: &[u8] = b"\nnow 3\na 17 3\nb 2 0\nc 3 0\nd 4 0\ne 5 0\nf 6 0\ng 7 0\nh 8 0\nend\n";

/// How the report of the task ends that takes memory, where it has some, and where not.
const DONE: &[u8] = b"\nnow 1\nx 7 1\nend\n";

const GIVEN_UP: &[u8] = b"\nmemory 0 t\nend\n";

/// Whether the report of the run ends in the first or in the second of these ways, or there is none, as memory was
/// refused to it; `None` where it is another one.
fn end_of<G: Gate>(
    rt: &(impl Threads + Wait + Sync),
    alloc: Global,
    file: &str,
    gate: &G,
    ends: [&[u8]; 2],
) -> Option<u64> {
    let mut room = [0u8; 256];
    let count = written(rt, alloc, file, 1, gate, room.as_mut_slice())?;
    let report = room.get(..count)?;
    if report.is_empty() {
        Some(0)
    } else if report.ends_with(ends[0]) {
        Some(1)
    } else if report.ends_with(ends[1]) {
        Some(2)
    } else {
        None
    }
}

/// Whether the task is given up where its attempt is refused memory, and has an end where not; then it is over.
fn is_given_up(rt: &(impl Threads + Wait + Sync), alloc: Global) -> bool {
    let gate = Counts::new();
    match end_of(rt, alloc, BRANCH, &gate, [DONE, GIVEN_UP]) {
        Some(0) => true,
        Some(1) => gate.are(None, 1, 1),
        Some(_) => gate.are(None, 0, 1),
        None => false,
    }
}

#[test]
fn a_task_is_given_up_where_its_attempt_is_refused(rt: HostRuntime) {
    assert!(rt; is_given_up(&rt, rt.alloc()));
}

/// Whether each of the tasks that take none is in the report, or there is none.
fn all_are_done<G: Gate>(rt: &(impl Threads + Wait + Sync), alloc: Global, gate: &G) -> bool {
    end_of(rt, alloc, EIGHT, gate, [EIGHT_END, EIGHT_END]).is_some()
}

#[test]
fn none_is_given_up_where_no_transaction_takes_memory(rt: HostRuntime) {
    let gate = Counts::new();
    let is_so = all_are_done(&rt, rt.alloc(), &gate);
    drop(gate);
    assert!(rt; is_so && all_are_done(&rt, rt.alloc(), &OpenGate));
}
