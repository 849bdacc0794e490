//! Long tasks of a run as the program makes it overlap: one that was taken later commits before one that
//! takes longer.

use crate::parts::options;
use runner::{OpenGate, Options, Out, run_bytes};
use std::alloc::Global;
use std::process::Abort;
use std::sync::Wait;
use std::thread::Threads;

/// A task of some 800,000 nodes, and ten of some 6,000.
const SLOW: &str =
    "(var x 0)(var y 0)(tx slow (repeat 900 (repeat 150 (if (lt x 0) (throw 1) (skip)))) y)\
    (tx quick (seq (repeat 1000 (if (lt x 0) (throw 1) (skip))) (set y (add y 1))) 0)(run slow 1)(run quick 10)";

/// Whether a quick task commits first, `None` where the run ends in a fault.
fn is_overtaken(
    rt: &(impl Threads + Wait + Sync),
    alloc: Global,
    options: Options,
) -> Option<bool> {
    let mut out = Out::new(Vec::new(alloc));
    let ran = run_bytes(rt, alloc, SLOW.as_bytes(), options, &OpenGate, &mut out);
    let text = out.into_inner();
    let is_first = text
        .as_slice()
        .starts_with(b"base 0\nx 0 0\ny 0 0\nentry 1 1 quick ");
    if ran.is_ok() { Some(is_first) } else { None }
}

/// Under the lock the first task would always commit first. One run may be too quick for the second worker,
/// whose thread has to start meanwhile; so there are some, each without a fault.
fn overtakes(rt: &(impl Threads + Wait + Sync + Abort), alloc: Global) -> bool {
    for _ in 0..1000u32 {
        let options = options(rt, 2, 8, 0);
        match is_overtaken(rt, alloc, options) {
            Some(false) => {}
            found => return found.is_some(),
        }
    }
    false
}

#[test]
fn a_quick_long_task_commits_before_a_slow_one(rt: HostRuntime) {
    assert!(rt; overtakes(&rt, rt.alloc()));
}
