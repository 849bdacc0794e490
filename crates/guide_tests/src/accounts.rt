//! A condition that stands: no transaction leaves the two accounts with another sum.

use std::alloc::Global;
use std::sync::Wait;
use std::thread::Threads;
use stm_library::{
    AlwaysId, Catalogue, Fault, OpenGate, Options, Outcome, Report, read_file, run_tasks,
};

const ACCOUNTS: &str = "(stm 2)(var a 100)(var b 0)(always sum (eq (add a b) 100))\
    (tx move (seq (set a (sub a 60)) (set b (add b 60))) a)(tx leak (set a 0) a)\
    (run move 1)(run leak 1)";

/// Whether it has 60 moved, and nothing leaked.
fn has_no_leak(report: &Report) -> bool {
    let leaked = report.entries.as_slice().last().map(|entry| entry.outcome);
    report.now_vars.as_slice() == [(40, 1), (60, 1)].as_slice()
        && leaked == Some(Outcome::Thrown(Fault::Broken(AlwaysId(0))))
}

/// Whether so has that of the run of all tasks.
fn leaks_nothing(rt: &(impl Threads + Wait + Sync), alloc: Global, catalogue: &Catalogue) -> bool {
    let Some(options) = Options::new(1, 8, 0) else {
        return false;
    };
    match run_tasks(rt, alloc, catalogue, options, &OpenGate) {
        Ok(report) => has_no_leak(&report),
        Err(_) => false,
    }
}

#[test]
fn a_leak_is_refused(rt: HostRuntime) {
    match read_file(rt.alloc(), ACCOUNTS.as_bytes()) {
        Ok(catalogue) => assert!(rt; leaks_nothing(&rt, rt.alloc(), &catalogue)),
        Err(_) => panic!(rt; "no catalogue"),
    }
}
