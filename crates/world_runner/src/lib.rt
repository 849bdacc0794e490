//! Schedules played on the stepped world: from the bytes of a file and of a schedule to the bytes
//! of what is seen.
#![tactic(auto)]

mod bytes;
mod lines;

pub use bytes::world_bytes;
