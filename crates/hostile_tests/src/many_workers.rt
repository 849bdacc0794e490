//! Many workers on one variable: what they report is lawful.

use checker::{Verdict, check};
use runner::{Gate, OpenGate, Options, Out, Point, run_bytes};
use std::alloc::Global;
use std::sync::Wait;
use std::thread::Threads;
use txn::TaskId;

const THOUSAND: &[u8] = b"(var x 5)(tx inc (set x (add x 1)) x)(run inc 1000)";

/// A gate that holds nobody and is not open: so workers try tasks that are short, too.
struct Passing;

impl Gate for Passing {
    fn at(&self, _point: Point, _task: TaskId) {}
}

/// Whether the report by eight workers under this gate is good.
fn is_good<G: Gate>(rt: &(impl Threads + Wait + Sync), alloc: Global, gate: &G) -> bool {
    let Some(options) = Options::new(8, 8, 0) else {
        return false;
    };
    let mut out = Out::new(Vec::new(alloc));
    let ran = run_bytes(rt, alloc, THOUSAND, options, gate, &mut out);
    let report = out.into_inner();
    ran.is_ok() && check(alloc, THOUSAND, report.as_slice()) == Ok(Verdict::Good)
}

#[test]
fn the_report_of_a_thousand_increments_by_eight_workers_is_good(rt: HostRuntime) {
    let alloc = rt.alloc();
    assert!(rt; is_good(&rt, alloc, &OpenGate) && is_good(&rt, alloc, &Passing));
}
