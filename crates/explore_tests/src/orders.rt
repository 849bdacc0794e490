//! What is found of small files, the ways to their ends, and how many tasks are alike.

use explore_search::{
    Found, InstanceId, Kinds, MAX_STATES, Unexplored, explore, task_counts, way_to_end,
};
use std::alloc::Global;
use txn::Catalogue;

/// What is found.
pub(crate) enum Seen {
    /// There are more states than were asked for.
    More,
    /// There are so many states, and at the first end these values, and so many who wait.
    States(usize, &'static [i64], &'static [u32]),
    /// Those who pay returned and threw, and who takes all broke the second condition.
    Payers,
}

/// Whether there are so many states, and this is the first end.
fn has_end(found: &Found, states: usize, values: &[i64], waiting: &[u32]) -> bool {
    match found.ends.first() {
        Some(end) => {
            found.states == states
                && end.values.as_slice() == values
                && end.waiting.as_slice() == waiting
        }
        None => false,
    }
}

/// Whether the first transaction returned and threw, and the second did no more than break the second condition.
fn are_paid(kinds: &[Kinds]) -> bool {
    let pay = Kinds {
        returned: true,
        threw: true,
        overflow: false,
        zerodiv: false,
        outside: false,
        broke: [false; 64],
    };
    match kinds.get(1) {
        Some(drain) => {
            kinds.first() == Some(&pay) && drain.broke[1] && !drain.broke[0] && !drain.returned
        }
        None => false,
    }
}

fn is_seen(found: &Found, seen: &Seen) -> bool {
    match seen {
        Seen::More => false,
        Seen::States(states, values, waiting) => has_end(found, *states, values, waiting),
        Seen::Payers => are_paid(found.kinds.as_slice()),
    }
}

/// Whether this is found of at most so many configurations.
pub(crate) fn is_explored(alloc: Global, catalogue: &Catalogue, limit: u32, seen: &Seen) -> bool {
    if limit > MAX_STATES {
        return false;
    }
    match explore(alloc, catalogue, limit) {
        Ok(found) => is_seen(&found, seen),
        Err(Unexplored::More) => matches!(seen, Seen::More),
        Err(_) => false,
    }
}

/// Whether the way to the end of this number goes by these turns, or there is none.
pub(crate) fn is_way(
    alloc: Global,
    catalogue: &Catalogue,
    end: usize,
    wanted: Option<&[InstanceId]>,
) -> bool {
    match (way_to_end(alloc, catalogue, 1_000_000, end), wanted) {
        (Ok(Some(way)), Some(wanted)) => way.as_slice() == wanted,
        (Ok(None), None) => true,
        _ => false,
    }
}

/// Whether the tasks are counted so.
pub(crate) fn are_counted(alloc: Global, catalogue: &Catalogue, wanted: &[u32]) -> bool {
    match task_counts(alloc, catalogue) {
        Ok(counts) => counts.as_slice() == wanted,
        Err(_) => false,
    }
}
