//! Tests of the public calls of `attempt`. What an attempt reads and writes is played by `cases/attempts.cases` too.
#![tactic(auto)]

#[cfg(test)]
mod again;
#[cfg(test)]
mod branches;
#[cfg(test)]
mod cells;
#[cfg(test)]
mod counted;
#[cfg(test)]
mod deep;
#[cfg(test)]
mod ends;
#[cfg(test)]
mod indexed;
#[cfg(test)]
mod one;
#[cfg(test)]
mod parts;
#[cfg(test)]
mod play;
#[cfg(test)]
mod standing;
#[cfg(test)]
mod steps;
#[cfg(test)]
mod tables;
#[cfg(test)]
mod values;
