//! Files read as catalogues, and what is so of each file, whoever reads or prints it (`laws`).
#![tactic(auto)]

mod at_once;
mod conditions;
mod expressions;
pub mod laws;
mod read;
mod runs;
mod statements;

pub use read::{announces_tables, read_file};
