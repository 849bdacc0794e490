//! Tests of a desk by its calls.
#![tactic(auto)]

#[cfg(test)]
mod asking;
#[cfg(test)]
mod ending;
#[cfg(test)]
mod long;
#[cfg(test)]
mod observing;
#[cfg(test)]
mod programs;
#[cfg(test)]
mod room;
