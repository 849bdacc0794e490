//! Cells that one publisher changes and many readers read with no lock: the reads of a pass since
//! its last begin or extension are of one state of the history, in every schedule of the threads.
#![tactic(auto)]

mod board;
mod cells;
mod history;
mod keeper;
mod opening;
mod pass;
mod publisher;
mod rule;
mod sharing;
mod sight;
mod stores;
mod writer;

pub use cells::Cells;
pub use pass::{Extend, Pass, Read};
pub use publisher::Publisher;
pub use sharing::SharedCells;
