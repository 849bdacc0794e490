//! Tests of the public calls of `world`, and of the lines that `world` puts. What is seen of which schedule is played by
//! `cases/world.cases` and `cases/schedules.cases`.
#![tactic(auto)]

#[cfg(test)]
mod counted;
#[cfg(test)]
mod moves;
#[cfg(test)]
mod parts;
#[cfg(test)]
mod scripts;
#[cfg(test)]
mod seen;
#[cfg(test)]
mod telling;
#[cfg(test)]
mod uses;
