//! Every order of a file's tasks: from the bytes of the file to the bytes of what is found, and to the report of a run
//! that comes to a given end.
//!
//! `laws` say that reports end exactly at the configurations that are reached and have no turn: what is found of all
//! orders is what runs can come to, whatever their workers and checkpoints. `witness` makes the report of a run that
//! takes given turns to an end, and `stopped` that of one that stops behind given turns.
#![tactic(auto)]

mod bytes;
mod denied;
mod finding;
mod graph_printer;
mod graphing;
mod judge;
pub mod laws;
mod outcomes;
mod printer;
mod queues;
mod sight;
mod stopping;
mod turns;
mod witnessing;
mod words;

pub use bytes::explore_bytes;
pub use finding::{Sighted, find_bytes};
pub use graph_printer::print_graph;
pub use graphing::{MAX_NODES, graph_bytes};
pub use judge::judge_bytes;
pub use outcomes::OutcomeWords;
pub use printer::print_found;
pub use run_interface::{Denial, Denials, Limit};
pub use sight::{Judged, Sight, Witnessed};
pub use stopping::stopped;
pub use turns::witness;
pub use witnessing::witness_bytes;
