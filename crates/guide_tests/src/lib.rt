//! The code in Rattle that docs/EMBEDDING.md shows or names, compiled, proved and run by the gate: each block there
//! stands here, line by line. And tests of the public calls of `example_bank` and `example_scheduler`.
#![tactic(auto)]

#[cfg(test)]
mod accounts;
#[cfg(test)]
mod asking;
#[cfg(test)]
mod bank;
#[cfg(test)]
mod batches;
#[cfg(test)]
mod counter;
#[cfg(test)]
mod gates;
#[cfg(test)]
mod hosting;
#[cfg(test)]
mod scheduler;
#[cfg(test)]
mod submitting;
#[cfg(test)]
mod turns;
#[cfg(test)]
mod writers;
