//! Runs and schedules from bytes to bytes: what is written, and what is refused. More of them are played by `cases/`.

use crate::parts::{ends_under, options};
use runner::{OpenGate, Out, RunFault};
use std::alloc::Global;
use std::process::Abort;
use txn_text::ReadFault;
use world_runner::world_bytes;

const INCREMENTS: &str = "(var x 5)(tx inc (set x (add x 1)) x)(run inc 3)";

/// A file, the checkpoint of its run, the fault in which it ends, if in any, and what is written.
const RUNS: &[(&str, u32, Option<RunFault>, &str)] = &[
    (
        INCREMENTS,
        0,
        None,
        "base 0\nx 5 0\nentry 1 0 inc returned 6\nentry 2 1 inc returned 7\nentry 3 2 inc returned 8\n\
            now 3\nx 8 3\nend\n",
    ),
    (
        INCREMENTS,
        2,
        None,
        "base 2\nx 7 2\nentry 3 2 inc returned 8\nnow 3\nx 8 3\nend\n",
    ),
    ("(var x", 0, Some(RunFault::Input(ReadFault::Shape)), ""),
];

#[test]
fn a_file_is_run_or_refused(rt: HostRuntime) {
    for &(file, checkpoint, fault, text) in RUNS {
        let options = options(&rt, 1, 8, checkpoint);
        let is_so = ends_under(&rt, rt.alloc(), file, options, &OpenGate, fault, text, text);
        assert!(rt; is_so, "of {text}");
    }
}

const OWN: &str = "(var x 1)(tx own (set x 5) x)(tx two (set x 2) 0)(run own 1)(run two 1)";

/// A file, a schedule, the fault in which that ends, if in any, and what is seen.
const PLAYED: &[(&str, &str, Option<RunFault>, &str)] = &[
    (
        OWN,
        "begin 0\nbegin 1\ncommit 1\ncommit 0\n",
        None,
        "1 ended returned 5\n2 ended returned 0\n3 committed 1\n4 committed 2\nnow 2\nx 5 2\n\
            attempt 0 0 committed 2\nattempt 1 0 committed 1\nend\n",
    ),
    // The file is judged before the schedule.
    (
        "(var x",
        "begin 0",
        Some(RunFault::Input(ReadFault::Shape)),
        "",
    ),
    (
        OWN,
        "begin 0",
        Some(RunFault::Schedule(ReadFault::Shape)),
        "",
    ),
];

/// Whether the schedule of the file ends in this fault, if in any, and shows this.
fn shows(alloc: Global, file: &str, schedule: &str, fault: Option<RunFault>, text: &str) -> bool {
    let mut out = Out::new(Vec::new(alloc));
    let found = world_bytes(alloc, file.as_bytes(), schedule.as_bytes(), &mut out).err();
    let is_so = found == fault && out.failures() == 0;
    out.into_inner().as_slice() == text.as_bytes() && is_so
}

#[test]
fn a_schedule_is_played_or_refused(rt: HostRuntime) {
    for &(file, schedule, fault, text) in PLAYED {
        assert!(rt; shows(rt.alloc(), file, schedule, fault, text), "of {text}");
    }
}
