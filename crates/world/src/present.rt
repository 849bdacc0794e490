//! The values and the versions of the last state.

ghost use Rattle.std.specs.Prelude.{◌≡◌, ◌<◌, ◌≤◌, IfOk, length, map};
ghost use Rattle.txn_words.specs.Words.{IsLastChange, last_state, state_value};
ghost use Rattle.world.specs.Inside.{state_items};
ghost use Rattle.world.specs.WorldText.{ArePresent};

use std::alloc::{AllocError, Global};

/// The value of a variable, 0 where there is no such variable.
fn value_in(state: &Vec<i64>, x: usize) -> i64
    ensures { result ≡ state_value state.now.items x }
{
    state.get(x).copied().unwrap_or(0)
}

/// The number of the last state at which a variable changed, 0 if it never did.
fn last_change(history: &[Vec<i64>], x: usize) -> u64
    requires { 0 < length history.now }
    ensures { IsLastChange (map state_items history.now) x result }
{
    let mut last = 0;
    let mut value = value_in(&history[0], x);
    'states: for n in 1..history.len() {
        let next = value_in(&history[n], x);
        if next != value {
            last = n;
        }
        value = next;
    }
    last as u64
}

/// The values of so many variables in the last state, and their versions.
pub(crate) fn present(
    alloc: Global,
    history: &[Vec<i64>],
    count: usize,
) -> Result<Vec<(i64, u64)>, AllocError>
    requires { 0 < length history.now }
    ensures { IfOk result (λ v. ArePresent (map state_items history.now) count v.items) }
{
    let mut vars = Vec::with_capacity(alloc, count)?;
    'variables: for x in 0..count {
        let value = value_in(&history[history.len() - 1], x);
        let version = last_change(history, x);
        vars.push((value, version))?;
    }
    Ok(vars)
}
