//! The stepped world: what may happen in it one load and one store at a time, and what holds
//! whatever happens.
//!
//! `events` names what may happen, what is seen of it, what is loaded and stored, and what becomes of an
//! attempt. What each event does stands in `specs/World.antt` and `specs/Next.antt`, over plain data. `laws` has the
//! theorem: whatever happens, in whatever order, all that an attempt reads is of one state of the
//! history; and that the world leaves nothing open but running out of memory.
#![tactic(auto)]

pub mod events;
pub mod laws;

pub use events::{Event, Fate, Loads, Seen, Store};
pub use laws::{one_answer, opacity};
