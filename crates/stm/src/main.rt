//! `stm`: software transactional memory with `retry` and `orElse`, as a program.
//!
//! All that it does is in the library `commands`, and begins at `run`.
#![tactic(auto)]

use std::process::ExitCode;

fn main(rt: HostRuntime) -> ExitCode {
    ExitCode::from(commands::run(&rt, &rt))
}
