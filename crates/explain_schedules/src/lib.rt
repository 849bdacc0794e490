//! Schedules explained: whether a schedule of a file is read, and where and why it is not.
//!
//! `explain` goes from the bytes of a schedule to the kind of its first fault and the place of it;
//! `explain_bytes` from those of a file and of a schedule to the line that says so.
#![tactic(auto)]

mod bytes;
mod explaining;
mod form;
mod judging;
mod line;
mod text;
mod words;

pub use bytes::explain_bytes;
pub use explaining::{Finding, Refusal, ScheduleExplanation, explain};
pub use line::Wanted;
