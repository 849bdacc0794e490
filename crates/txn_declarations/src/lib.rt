//! What a file declares, before and after it is a catalogue: the rules on names, ids and limits, judged of what a
//! catalogue is to be built of; and its parts copied and compared, by what they say, wherever they lie in memory.
#![tactic(auto)]

pub mod copy;
pub mod limits;
pub mod names;
pub mod same;
