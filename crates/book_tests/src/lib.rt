//! Tests of the public calls of `book`, and of the lines in which it keeps its journal, which are of `journal`.
#![tactic(auto)]

#[cfg(test)]
mod accounts;
#[cfg(test)]
mod ample;
#[cfg(test)]
mod arguments;
#[cfg(test)]
mod attempts;
#[cfg(test)]
mod beside;
#[cfg(test)]
mod chapters;
#[cfg(test)]
mod lent;
#[cfg(test)]
mod lines;
#[cfg(test)]
mod looks;
#[cfg(test)]
mod plain;
#[cfg(test)]
mod results;
#[cfg(test)]
mod rows;
#[cfg(test)]
mod scripts;
#[cfg(test)]
mod submitting;
#[cfg(test)]
mod texts;
