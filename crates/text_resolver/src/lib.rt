//! From the tree of a file to what a catalogue is built of: names judged, then written as ids.
#![tactic(auto)]

mod judging;
pub mod names;
pub mod resolve;
pub mod tables;
