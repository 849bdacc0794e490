//! Tests of hostile use: each request for memory refused in turn, writers that fail at each call, and, with ample
//! memory, what is at its limit and no file or schedule of `cases/limits.cases` can say.
//!
//! A test of a `refused` module holds with ample memory, and also where any one request for memory is
//! refused: `hostile/all` runs each of them so, for each request that it makes.
#![tactic(auto)]

#[cfg(test)]
mod counts;
#[cfg(test)]
mod limit_observers;
#[cfg(test)]
mod limit_schedules;
#[cfg(test)]
mod limit_texts;
#[cfg(test)]
mod limit_workers;
#[cfg(test)]
mod many_workers;
#[cfg(test)]
mod on_many;
#[cfg(test)]
mod one_byte;
#[cfg(test)]
mod parts;
#[cfg(test)]
mod refused_attempt;
#[cfg(test)]
mod refused_book;
#[cfg(test)]
mod refused_bytes;
#[cfg(test)]
mod refused_cells;
#[cfg(test)]
mod refused_index;
#[cfg(test)]
mod refused_workers;
#[cfg(test)]
mod refused_world;
#[cfg(test)]
mod uses;
#[cfg(test)]
mod writers;
