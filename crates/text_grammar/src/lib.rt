//! What a file is: its grammar, as trees and the tokens that spell them; how it is read from left to
//! right; and which catalogue it declares. The code has the trees, whose names are still texts.
#![tactic(auto)]

pub mod cond;
pub mod expr;
pub mod file;
pub mod laws;
pub mod stmt;
pub mod words;
