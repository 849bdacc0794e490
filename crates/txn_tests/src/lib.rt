//! Tests of the public calls of `txn`.
#![tactic(auto)]

#[cfg(test)]
mod arguments;
#[cfg(test)]
mod bodies;
#[cfg(test)]
mod build;
#[cfg(test)]
mod code;
#[cfg(test)]
mod evaluate;
#[cfg(test)]
mod getters;
#[cfg(test)]
mod limits;
#[cfg(test)]
mod params;
#[cfg(test)]
mod parts;
#[cfg(test)]
mod registers;
#[cfg(test)]
mod same;
#[cfg(test)]
mod tables;
#[cfg(test)]
mod texts;
