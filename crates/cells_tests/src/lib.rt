//! Tests of the public calls of `cells`, `run_observer` and `book_storage`.
#![tactic(auto)]

#[cfg(test)]
mod apart;
#[cfg(test)]
mod beside;
#[cfg(test)]
mod counted;
#[cfg(test)]
mod extending;
#[cfg(test)]
mod members;
#[cfg(test)]
mod nine_beside;
#[cfg(test)]
mod observed_beside;
#[cfg(test)]
mod observing;
#[cfg(test)]
mod parts;
#[cfg(test)]
mod shared;
#[cfg(test)]
mod unread;
#[cfg(test)]
mod uses;
#[cfg(test)]
mod wide;
