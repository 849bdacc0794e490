//! Variables with a value each, as an attempt keeps them: the log of what it was told, and the own
//! writes of its transaction.
//!
//! A `LogTable` finds a variable's value in constant time, and keeps the order of supply. `Writes`
//! has at each variable's number the value of its own write, and goes back by notes where a first
//! branch of an `orelse` retries.
#![tactic(auto)]

pub mod far_places;
pub mod far_writes;
pub mod layer;
pub mod log_table;
pub mod note;
pub mod number_index;
pub mod sorted_lines;
pub mod written;

pub use far_places::FarPlaces;
pub use far_writes::FarWrites;
pub use layer::Layer;
pub use log_table::LogTable;
pub use number_index::NumberIndex;
pub use written::{Loops, Second, Writes};
