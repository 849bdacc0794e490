//! Transactions as steps on registers.
//!
//! `compile` makes the steps of a transaction, `compile_conditions` those of the standing conditions, and `execute`
//! does them on a whole state. They end as the trees do, at a part of the cost: what a node of a tree leaves is in a
//! register, so no result goes from call to call, and where a branch leads is known when it is compiled.
#![tactic(auto)]

mod arithmetic;
mod compile;
mod constants;
pub mod laws;
pub mod layout;
mod quick;
pub mod registers;
mod running;
mod sound;
pub mod standing;
pub mod steps;
