//! Files printed anew, and chains of them: the canonical form of a file as it is, with the values that a report ended
//! with, or as the next chapter begins.
//!
//! `print_bytes` and `print_on_bytes` go from bytes to bytes into a sink. `going_on` makes the catalogue that goes on
//! where a lawful report ended. `chains` says that the files and reports of a book's chapters are a chain, each file
//! going on where the pair before it ended.
#![tactic(auto)]

mod bytes;
pub mod chains;
pub mod laws;
mod next;

pub use bytes::{print_bytes, print_on_bytes};
pub use next::{Next, going_on};
