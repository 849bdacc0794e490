//! The machine of attempts: it does the code of a transaction over what was read of the state so far.
//!
//! `run` goes on until the first variable that is neither written by the transaction itself nor in
//! the log, or to the end, through the transaction's own code and then through that of the standing
//! conditions; where code has a parameter, its argument stands in its place. `frame` says why this is
//! safe: an end that was reached over a log is the end on every state that agrees with the log.
//! `answers` and `resumes` say that the machine answers what the definitions ask, and that it goes on
//! where it waited, and `fuses` that fused code does the same.
#![tactic(auto)]

mod acting;
mod arithmetic;
pub mod found;
mod fused;
pub mod laws;
pub mod machine;
pub mod reader;
pub mod running;
mod seeing;
pub mod spot;
mod tables;

pub use found::{Found, Halt};
pub use laws::{answers, frame, fuses, resumes};
pub use machine::Machine;
pub use reader::Reader;
pub use running::{Code, Count, run};
