//! What every command is given and what it answers with: the options of a run and of seeing every order, the sink to
//! which bytes go, which counts the calls that failed, and the faults for which nothing was done, with the status and
//! the line of each.
#![tactic(auto)]

mod denial;
mod fault;
mod limit;
mod options;
mod reading;
mod sink;

pub use denial::{Denial, Denials};
pub use fault::RunFault;
pub use limit::Limit;
pub use options::{MAX_CHECKPOINT, MAX_TRIES, MAX_WORKERS, Options};
pub use reading::catalogue_of;
pub use sink::{Out, Sink, SinkFault, put_all, put_bytes, put_text};
