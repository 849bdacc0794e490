//! The running stepped world: events happen one at a time, and what is seen of them is told.
//!
//! `scene` has all that changes, `trial` the attempts that began, and `kept_attempt` what is kept of each. Each event
//! is a function of its own, whose contract is the definition of the event; `happen` lets any of them happen, and
//! `first_scene` makes the scene in which nothing has happened. `playing` has the lines of a schedule, `seen` and
//! `text` print what was seen and the last lines of a world. What events there are, what is seen of them and the
//! theorem of opacity come from `world_law` and are handed on.
#![tactic(auto)]

mod asking;
mod attempts;
mod beginning;
mod dropping;
mod finishing;
mod happening;
mod kept_attempt;
mod moving;
mod opening;
mod playing;
mod present;
mod reading;
mod scene;
mod seen;
mod storing;
mod telling;
mod text;
mod trial;
pub mod world;

pub use happening::happen;
pub use kept_attempt::KeptAttempt;
pub use opening::first_scene;
pub use scene::{Publishing, Scene};
pub use seen::put_seen;
pub use telling::Begun;
pub use trial::{Checking, Trial};
pub use world::World;
pub use world_law::{Event, Fate, Seen, one_answer, opacity};
