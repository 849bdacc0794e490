//! Attempts: a transaction is evaluated over what was read of the state so far.
//!
//! An `Attempt` begins with an empty log. `advance` goes on until the first variable that is
//! neither written by the transaction itself nor in the log, and answers `Need`; `supply` adds its
//! value to the log. `advance_by` reads what it needs itself, by a `Reader`. `frame` says why this is
//! safe: an end that was reached over a log is the end on every state that agrees with the log.
#![tactic(auto)]

pub mod attempt;
pub mod log;
pub mod next;
mod running;

pub use attempt::Attempt;
pub use attempt_machine::{Reader, answers, frame, fuses, laws, resumes};
pub use log::Log;
pub use next::{Next, Stand};
