//! A gate: it is called where a worker stands with no lock held, so a test can hold workers there, or look.

use crate::counter::counter;
use std::alloc::Global;
use std::sync::Wait;
use std::sync::atomic::{AtomicU64, Ordering};
use std::thread::Threads;
use stm_library::{Catalogue, Gate, Options, Point, TaskId, run_tasks};

/// Counts the tasks that are finished.
#[derive(Drop)]
struct Finished {
    tasks: AtomicU64,
}

impl Gate for Finished {
    fn at(&self, point: Point, _task: TaskId) {
        if point == Point::Finished {
            self.tasks.fetch_add(1, Ordering::SeqCst);
        }
    }
}

/// Whether all thousand are counted.
fn are_counted(rt: &(impl Threads + Wait + Sync), alloc: Global, catalogue: &Catalogue) -> bool {
    let Some(options) = Options::new(1, 8, 0) else {
        return false;
    };
    let gate = Finished {
        tasks: AtomicU64::new(0),
    };
    run_tasks(rt, alloc, catalogue, options, &gate).is_ok()
        && gate.tasks.load(Ordering::SeqCst) == 1000
}

#[test]
fn finished_tasks_are_counted(rt: HostRuntime) {
    match counter(rt.alloc()) {
        Ok(catalogue) => assert!(rt; are_counted(&rt, rt.alloc(), &catalogue)),
        Err(_) => panic!(rt; "no catalogue"),
    }
}
