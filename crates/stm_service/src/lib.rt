//! Calls from any thread on one desk: each is told where in the service's one history its entry stands.
//!
//! `front` has the fronts, by which threads know what was seen of the history, with the word that counts its pieces;
//! `name` the name by which a lock knows its program and its history; `seat` is where a thread that waits is told what
//! became of its call; `chapter` has the chapters that a host keeps; `behind` is what the lock guards, a desk with the
//! seats; `service` has the calls, `timed` those that wait for a time at most, `long` how long ones are evaluated by their
//! threads, and `jobs` how that is handed out and brought; `told` has the chapters that a host is told, and `sharing`
//! what threads know of one another's calls; `looks` has what is seen of a service, and `seen` how that is taken from
//! what the lock guards.
#![tactic(auto)]

mod behind;
mod chapter;
mod front;
mod jobs;
mod long;
mod looks;
mod name;
mod seat;
mod seen;
mod service;
mod sharing;
mod timed;
mod told;

pub use book::Counts;
pub use chapter::{Chapter, Kept};
pub use front::{Front, Opened};
pub use name::Naming;
pub use service::Service;
pub use sharing::both;
pub use stm_desk::{Answer, Ended, TooLong};
pub use stm_store::{FileFault, Refused};
pub use txn::Memory;
