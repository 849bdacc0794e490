//! Runs whose journal stays in lines.

use crate::parts::options;
use runner::{OpenGate, Options, PackedEntry, RunReport, run_packed, run_tasks};
use std::alloc::Global;
use std::process::Abort;
use std::sync::Wait;
use std::thread::Threads;
use txn::{Catalogue, Entry, Outcome, Report, TaskId, TxId};
use txn_text::read_file;

/// A task of each end, and one that is woken.
const ENDS: &str =
    "(stm 2)(var x 5)(always small (le x 7))(tx wait (if (eq x 5) (retry) (skip)) x)(tx up (set x (add x 2)) x)(tx \
        no (throw 3) 0)(tx over (skip) (mul 9223372036854775807 2))(tx zero (skip) (div 1 0))(tx asleep (retry) \
        0)(run wait 1)(run up 2)(run no 1)(run over 1)(run zero 1)(run asleep 1)";

/// As many tasks as there may be.
const MOST: &str = "(var x 5)(tx inc (set x (add x 1)) x)(run inc 65536)";

/// Whether a run tells this.
fn is_told(
    rt: &(impl Threads + Wait + Sync),
    alloc: Global,
    catalogue: &Catalogue,
    options: Options,
    report: &Report,
) -> bool {
    match run_tasks(rt, alloc, catalogue, options, &OpenGate) {
        Ok(told) => told == *report,
        Err(_) => false,
    }
}

/// Whether the run left six lines, which tell what a run tells.
fn tell_the_same(
    rt: &(impl Threads + Wait + Sync),
    alloc: Global,
    catalogue: &Catalogue,
    options: Options,
    left: RunReport,
) -> bool {
    let is_packed = left.journal.len() == 6 && left.rest.entries.is_empty();
    match left.report(alloc) {
        Ok(report) => is_told(rt, alloc, catalogue, options, &report) && is_packed,
        Err(_) => false,
    }
}

/// Whether the last of so many lines tells of the last task.
fn are_most(lines: &[PackedEntry]) -> bool {
    let wanted = Entry {
        number: 65_536,
        task: TaskId(65_535),
        tx: TxId(0),
        outcome: Outcome::Returned(65_541),
    };
    lines.len() == 65_536 && lines.last().map(PackedEntry::entry) == Some(wanted)
}

/// Whether a run by so many workers leaves lines as it has to.
fn are_left(
    rt: &(impl Abort + Threads + Wait + Sync),
    alloc: Global,
    catalogue: &Catalogue,
    workers: u32,
) -> bool {
    let options = options(rt, workers, 8, 0);
    let is_most = catalogue.tasks() == 65_536;
    match run_packed(rt, alloc, catalogue, options, &OpenGate) {
        Ok(left) if is_most => are_most(left.journal.as_slice()),
        Ok(left) => tell_the_same(rt, alloc, catalogue, options, left),
        Err(_) => false,
    }
}

/// Whether so they are of the file.
fn are_left_of(
    rt: &(impl Abort + Threads + Wait + Sync),
    alloc: Global,
    file: &str,
    workers: u32,
) -> bool {
    match read_file(alloc, file.as_bytes()) {
        Ok(catalogue) => are_left(rt, alloc, &catalogue, workers),
        Err(_) => false,
    }
}

#[test]
fn lines_tell_what_a_run_tells(rt: HostRuntime) {
    for (file, workers) in [(ENDS, 1), (ENDS, 2), (ENDS, 3), (ENDS, 4), (MOST, 1)] {
        assert!(rt; are_left_of(&rt, rt.alloc(), file, workers), "by {workers}");
    }
}
