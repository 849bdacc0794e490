//! From the bytes of a file to its tree.
#![tactic(auto)]

mod cond;
mod expr;
pub mod file;
mod stmt;
