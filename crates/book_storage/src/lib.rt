//! How a book keeps many small things in few bytes. `TaskSet` is a set of numbers below a bound, as bits in words of
//! 64; over the words lies one bit for each that is not 0, and over these words again, so that the lowest number is
//! found in three steps. `PackedEntry` is an entry of the journal in 16 bytes, and `RunReport` the report of a run
//! whose journal stays packed.
#![tactic(auto)]

mod level;
mod packed_entry;
mod run_report;
mod set;

pub use packed_entry::PackedEntry;
pub use run_report::{RunReport, entries_of};
pub use set::{MAX_ROOM, TaskSet};
