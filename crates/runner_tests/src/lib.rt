//! Tests of the public calls of `runner` and `world_runner`: runs under gates and in lines; of those of
//! `run_interface`, by writers of its own; of those of `file_chains`, and of those of `txn::weights`. What runs and
//! schedules print and why files are refused is played by `cases/`; outputs that fail are tried in `hostile_tests`.
#![tactic(auto)]

#[cfg(test)]
mod bytes;
#[cfg(test)]
mod counted;
#[cfg(test)]
mod gates;
#[cfg(test)]
mod holds;
#[cfg(test)]
mod lines;
#[cfg(test)]
mod many;
#[cfg(test)]
mod overlap;
#[cfg(test)]
mod parts;
#[cfg(test)]
mod points;
#[cfg(test)]
mod printed;
#[cfg(test)]
mod settings;
#[cfg(test)]
mod sinks;
#[cfg(test)]
mod sizes;
#[cfg(test)]
mod texts;
#[cfg(test)]
mod weighed;
