//! Tests of calls from any thread on one desk: each says what threads do side by side, and what they are answered.
#![tactic(auto)]

#[cfg(test)]
mod answered;
#[cfg(test)]
mod calls;
#[cfg(test)]
mod keepers;
#[cfg(test)]
mod keeping;
#[cfg(test)]
mod long;
#[cfg(test)]
mod looks;
#[cfg(test)]
mod played;
#[cfg(test)]
mod rows;
#[cfg(test)]
mod texts;
