//! Tests of the public calls of `explore_search` and of `explore_runner`, each on its happy path and at its limits.
//! What is found of which file is played by `cases/orders.cases`.
#![tactic(auto)]

#[cfg(test)]
mod calls;
#[cfg(test)]
mod finding;
#[cfg(test)]
mod graphs;
#[cfg(test)]
mod orders;
#[cfg(test)]
mod reports;
#[cfg(test)]
mod searches;
#[cfg(test)]
mod texts;
