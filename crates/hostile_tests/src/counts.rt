//! A gate that counts, and a run by one worker into a room of bytes.

use runner::{Gate, Options, Out, Point, RunFault, run_bytes};
use std::alloc::Global;
use std::sync::Wait;
use std::sync::atomic::{AtomicU64, Ordering};
use std::thread::Threads;
use txn::TaskId;

/// How often an attempt needed a variable, how often one ended, and how often a task was over.
#[derive(Drop)]
pub(crate) struct Counts {
    needs: AtomicU64,
    ended: AtomicU64,
    over: AtomicU64,
}

impl Counts {
    pub(crate) fn new() -> Counts {
        Counts {
            needs: AtomicU64::new(0),
            ended: AtomicU64::new(0),
            over: AtomicU64::new(0),
        }
    }

    /// Whether it was so often.
    pub(crate) fn are(&self, needs: Option<u64>, ended: u64, over: u64) -> bool {
        let found = self.needs.load(Ordering::SeqCst);
        (needs.is_none() || needs == Some(found))
            && self.ended.load(Ordering::SeqCst) == ended
            && self.over.load(Ordering::SeqCst) == over
    }
}

impl Gate for Counts {
    fn at(&self, point: Point, _task: TaskId) {
        let count = match point {
            Point::Taken => return,
            Point::Needs => &self.needs,
            Point::Ended => &self.ended,
            Point::Finished => &self.over,
        };
        count.fetch_add(1, Ordering::SeqCst);
    }
}

/// How many bytes a run of the file by one worker writes to the room: none where memory was refused to it. `None` where
/// it ends in any other way.
pub(crate) fn written<G: Gate>(
    rt: &(impl Threads + Wait + Sync),
    alloc: Global,
    file: &str,
    tries: u32,
    gate: &G,
    room: &mut [u8],
) -> Option<usize> {
    let options = Options::new(1, tries, 0)?;
    let size = room.len();
    let mut out = Out::new(room);
    let ran = run_bytes(rt, alloc, file.as_bytes(), options, gate, &mut out);
    let count = size.saturating_sub(out.into_inner().len());
    let is_so = match ran {
        Ok(()) => count > 0,
        Err(fault) => fault == RunFault::Memory && count == 0,
    };
    if is_so { Some(count) } else { None }
}
