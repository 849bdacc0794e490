//! Tests of a store by its calls: turns, calls of a transaction, tickets and chapters.
#![tactic(auto)]

#[cfg(test)]
mod calling;
#[cfg(test)]
mod chapters;
#[cfg(test)]
mod lends;
#[cfg(test)]
mod limits;
#[cfg(test)]
mod looks;
#[cfg(test)]
mod many;
#[cfg(test)]
mod programs;
#[cfg(test)]
mod rows;
#[cfg(test)]
mod tables;
#[cfg(test)]
mod tasks;
#[cfg(test)]
mod texts;
#[cfg(test)]
mod waits;
