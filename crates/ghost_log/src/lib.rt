//! A list of what happened that only clauses read.
#![tactic(auto)]

mod log;

pub use log::Log;
