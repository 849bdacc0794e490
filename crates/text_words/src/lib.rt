//! What the readers and printers of texts share: bytes, tokens, integers, and why a text can't be
//! read.
#![tactic(auto)]

pub mod bytes;
pub mod fault;
pub mod lexer;
pub mod numeral;
mod tables;
pub mod tokens;

pub use fault::ReadFault;
