//! The run of all tasks of a file: from bytes to bytes.
//!
//! `run_bytes` reads a file, has its tasks run, and writes the report to a sink. `run_tasks`, from
//! a catalogue to a report, `run_packed`, whose journal stays in the book's lines, and `run_weighed`, which
//! is told from which weight on tasks are tried, are of the crate `run_workers`, and are handed out here
//! with what they take, as are the faults of a run, which are of `run_interface`.
#![tactic(auto)]

mod bytes;
mod pieces;

pub use book_storage::{PackedEntry, RunReport};
pub use bytes::run_bytes;
pub use run_interface::{Options, Out, RunFault, Sink, SinkFault};
pub use run_observer::{Observed, observe};
pub use run_workers::{Gate, OpenGate, Point, Weights, run_packed, run_tasks, run_weighed};
