//! Tests of the public calls of `explain_files`, `explain_reports` and `explain_schedules`, each on its happy path, by
//! each kind of fault and at its limit. What is said of which text is played by `cases/`.
#![tactic(auto)]

#[cfg(test)]
mod chapters;
#[cfg(test)]
mod files;
#[cfg(test)]
mod reports;
#[cfg(test)]
mod schedules;
