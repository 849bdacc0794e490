//! The plain evaluator, and the laws of what programs mean.
//!
//! `evaluate` runs a program on a whole state, as the definitions say: whoever replays a journal
//! runs its entries by it. `notes` undoes what it wrote. `laws` says in theorems what the meaning shares
//! with STM Haskell.
#![tactic(auto)]

mod cells;
pub mod evaluate;
pub mod laws;
pub mod notes;
