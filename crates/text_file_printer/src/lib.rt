//! The canonical form of a catalogue.
#![tactic(auto)]

mod file;
mod forms;
mod layout;

pub use file::print_file;
pub use layout::text_is_laid_out;
