//! The run of all tasks by workers side by side: from a catalogue to a report.
//!
//! `run_tasks` opens the cells and the book, has the tasks run by workers, and makes the report;
//! `run_packed` does so too, and leaves the journal in lines, and so does `run_weighed`, which is told from
//! which weight on tasks are tried. A worker (`worker`) tries long tasks by attempts on its own pass (`trying`), with
//! no lock held, and brings their ends to the book behind its lock (`shared`). A `Gate` can hold it in between. How
//! long a task is tells its weight (`txn::weights`): light ones it tries together on a copy of the present values
//! (`trials`, `rounds`), and short ones have their turn under the lock, between light ones some at a time (`held`).
#![tactic(auto)]

mod drawn;
mod gate;
mod held;
mod rounds;
mod shared;
mod tasks;
mod threads;
mod trials;
mod trying;
mod waiting;
mod worker;

pub use gate::{Gate, OpenGate, Point};
pub use tasks::{run_packed, run_tasks, run_weighed};
pub use txn::weights::Weights;
