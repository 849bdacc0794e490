//! A worker under a gate, which tells its attempt one need after the other.

use crate::counts::Counts;
use crate::limit_observers::READS_ALL;
use crate::limit_texts::text_of;
use runner::{Options, Out, run_bytes};
use std::alloc::Global;
use std::sync::Wait;
use std::thread::Threads;

/// How many lines the report has, and whether one of them tells that memory ran out.
fn lines_of(report: &[u8]) -> (usize, bool) {
    let mut lines = 0usize;
    let mut wants = false;
    for line in report.split(|byte| *byte == b'\n') {
        lines = lines.saturating_add(1);
        wants = wants || line.starts_with(b"memory ");
    }
    (lines, wants)
}

/// Whether one worker runs the file, to a report of 517 lines, and is told of 256 needs.
fn reads(rt: &(impl Threads + Wait + Sync), alloc: Global, file: &str) -> bool {
    let Some(options) = Options::new(1, 1, 0) else {
        return false;
    };
    let gate = Counts::new();
    let mut out = Out::new(Vec::new(alloc));
    let ran = run_bytes(rt, alloc, file.as_bytes(), options, &gate, &mut out);
    lines_of(out.into_inner().as_slice()) == (517, false)
        && ran.is_ok()
        && gate.are(Some(256), 1, 1)
}

/// Whether so it does that of all variables.
fn reads_all(rt: &(impl Threads + Wait + Sync), alloc: Global) -> bool {
    match text_of(alloc, READS_ALL) {
        Ok(file) => reads(rt, alloc, file.as_str()),
        Err(_) => false,
    }
}

#[test]
fn a_worker_under_a_gate_reads_all_variables(rt: HostRuntime) {
    assert!(rt; reads_all(&rt, rt.alloc()));
}
