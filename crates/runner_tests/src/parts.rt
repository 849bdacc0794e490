//! A run from bytes to bytes, and what has to come of it.

use runner::{Gate, Options, Out, Point, RunFault, run_bytes};
use std::alloc::Global;
use std::process::Abort;
use std::sync::Wait;
use std::thread::Threads;
use txn::TaskId;

/// Options that are allowed.
pub(crate) fn options(rt: &impl Abort, workers: u32, tries: u32, checkpoint: u32) -> Options {
    match Options::new(workers, tries, checkpoint) {
        Some(options) => options,
        None => panic!(rt; "options"),
    }
}

/// A gate that holds nobody and is not open: so workers try tasks that are short, too.
pub(crate) struct Passing;

impl Gate for Passing {
    fn at(&self, _point: Point, _task: TaskId) {}
}

/// Whether the text begins and ends so; where both are the same it is the whole.
fn is_text(text: &[u8], front: &str, end: &str) -> bool {
    text.starts_with(front.as_bytes())
        && text.ends_with(end.as_bytes())
        && (front != end || text.len() == front.len())
}

/// Whether a run of the text with these options under this gate ends in this fault, if in any, and what it writes
/// begins and ends so; where both are the same it is the whole. It is flushed where there is no fault.
pub(crate) fn ends_under<G: Gate>(
    rt: &(impl Threads + Wait + Sync),
    alloc: Global,
    input: &str,
    options: Options,
    gate: &G,
    fault: Option<RunFault>,
    front: &str,
    end: &str,
) -> bool {
    let mut out = Out::new(Vec::new(alloc));
    let found = run_bytes(rt, alloc, input.as_bytes(), options, gate, &mut out).err();
    let is_so = found == fault && out.is_flushed() == fault.is_none();
    is_text(out.into_inner().as_slice(), front, end) && is_so
}

/// Whether it ends in no fault, and writes this.
pub(crate) fn writes_under<G: Gate>(
    rt: &(impl Threads + Wait + Sync),
    alloc: Global,
    input: &str,
    options: Options,
    gate: &G,
    front: &str,
    end: &str,
) -> bool {
    ends_under(rt, alloc, input, options, gate, None, front, end)
}
