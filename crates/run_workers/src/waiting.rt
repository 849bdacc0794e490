//! Waiting for the lock, and after a stale try.
//!
//! What is done under the lock is short, and costs more where the book's words have to come from
//! another processor. So whoever finds the lock held stays away for a while, longer each time, and
//! gives the processor away before it sleeps. A stale try is a sign that others commit to the same
//! variables, so a rest lies between it and the next one. No rest is longer than 8,000 loads, which is
//! a few millionths of a second.

ghost use Rattle.std.specs.Prelude.{◌≤◌, ◌<◌, ◌+◌};

use crate::shared::{Named, Naming};
use std::sync::atomic::{AtomicU64, Ordering};
use std::sync::{Mutex, MutexGuard, Wait};
use std::thread;

/// How long the first rest is, in loads of a word that no one else has.
const FIRST_REST: u32 = 250;

/// How long a rest is at most.
const LONG: u32 = 8_000;

/// How often the lock is tried with a rest after it.
const RESTS: u32 = 40;

/// How often the lock is then tried with the processor given away after it.
const YIELDS: u32 = 50;

/// Does nothing for a while, which is so many loads.
fn rest(length: u32)
    requires { length ≤ LONG }
{
    let word = AtomicU64::new(0);
    for _ in 0..length {
        // The load is all that is wanted, and not what it gives.
        let _seen = word.load(Ordering::SeqCst);
    }
}

/// Twice the length, as far as rests go.
fn longer(length: u32) -> u32
    ensures { result ≤ LONG }
{
    length.saturating_mul(2).min(LONG)
}

/// A rest between a stale try, before which there were so many of the same task, and the next one:
/// longer after each further one. There is none after the last of the tries, behind which the task has
/// its turn at once.
#[inline(never)]
pub(crate) fn rest_after(stale: u32, tries: u32)
    requires { stale + 1 < tries }
{
    // The clause alone speaks of them.
    let _tries = tries;
    let mut length = FIRST_REST;
    'longer: for _ in 0..stale.min(16) {
        length = longer(length);
    }
    rest(length);
}

/// Tries the lock some times, with a rest or the processor given away after each. It waits for
/// nobody, and ends.
fn try_some<'b, 'a, N: Naming>(
    shared: &'b Mutex<Named<'a, N>>,
) -> Option<MutexGuard<'b, Named<'a, N>>> {
    let mut length = FIRST_REST;
    'rests: for _ in 0..RESTS {
        if let Some(guard) = shared.try_lock() {
            return Some(guard);
        }
        rest(length);
        length = longer(length);
    }
    for _ in 0..YIELDS {
        if let Some(guard) = shared.try_lock() {
            return Some(guard);
        }
        thread::yield_now();
    }
    None
}

/// Gets the lock: by some tries, and then by waiting for it.
pub(crate) fn lock<'b, 'a, R: Wait, N: Naming>(
    rt: &R,
    shared: &'b Mutex<Named<'a, N>>,
) -> MutexGuard<'b, Named<'a, N>> {
    match try_some(shared) {
        Some(guard) => guard,
        None => shared.lock(rt),
    }
}
