//! What the lock of a service guards: a store, the calls that wait, and what became of each task.
//!
//! `answers` has what is answered; `waiters` the calls that wait, and what is still to be told of those that waited;
//! `work` a store with both, in the midst of a call; `serving` the turns, and `long` the calls that are evaluated
//! outside; `observing` how a call would end; `ended` and `chapters` the chapters that end, and `room` the calls that
//! find one full; `desk` what is so whenever a call returns.
#![tactic(auto)]

mod answers;
mod chapters;
mod desk;
mod ended;
pub mod laws;
mod long;
mod noting;
mod observing;
mod room;
mod serving;
mod waiters;
mod work;

pub use answers::{Answer, Asked, Became, Due, Told};
pub use desk::Desk;
pub use ended::{Ended, TooLong};

/// A host may pass each of them to other threads. It lets them go: that it checks is the law.
pub fn cross(desk: Desk, told: Told, ended: Ended) {
    sent(desk);
    sent(told);
    sent(ended);
}

fn sent<T: Send + Drop>(value: T) {
    drop(value);
}
