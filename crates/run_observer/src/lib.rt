//! What a transaction would end as, on a state that others change meanwhile.
#![tactic(auto)]

mod evaluating;
mod observation;
mod reading;
mod watching;

pub use evaluating::{evaluate, evaluate_by};
pub use observation::{Cut, Observed, observe, tell};
pub use watching::{Unwatched, Watch};
