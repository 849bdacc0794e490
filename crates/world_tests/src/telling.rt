//! What a world tells of itself.

use crate::parts::{A, B, PAIR, RETRIES, X, Y};
use crate::scripts::{Row, Script, plays};
use std::alloc::Global;
use txn::{Move, Outcome, TaskId, VarId};
use world::World;
use world_law::{Event, Fate, Seen};

/// Whether the history has these states, in each of which both variables have this value.
pub(crate) fn has_history(world: &World<'_>, wanted: &[i64]) -> bool {
    let history = world.history();
    if history.len() != wanted.len() {
        return false;
    }
    for (state, value) in history.iter().zip(wanted) {
        if state.as_slice() != [*value, *value].as_slice() {
            return false;
        }
    }
    true
}

/// Whether these attempts began: the task of each, the number of its state, and what became of it.
pub(crate) fn has_attempts(world: &World<'_>, wanted: &[(TaskId, u64, Fate)]) -> bool {
    if world.attempts() != wanted.len() {
        return false;
    }
    for place in 0..world.attempts() {
        let begun = world.attempt(place);
        if wanted.get(place) != Some(&(begun.task, begun.rv, begun.fate)) {
            return false;
        }
    }
    true
}

/// Whether the first attempt has read this variable alone.
pub(crate) fn has_log(world: &World<'_>, variable: VarId, value: i64) -> bool {
    world.attempts() > 0 && world.attempt(0).log == [(variable, value)].as_slice()
}

/// Whether the last lines of the world are these.
pub(crate) fn has_text(world: &World<'_>, wanted: &str) -> bool {
    match world.text() {
        Ok(text) => text.as_str() == wanted,
        Err(_) => false,
    }
}

/// Whether the last lines of the world are put behind another text.
pub(crate) fn is_put_behind(alloc: Global, world: &World<'_>, wanted: &str) -> bool {
    let mut text = String::new(alloc);
    text.push_str("1 idle\n").is_ok()
        && world.put_text(&mut text).is_ok()
        && text.starts_with("1 idle\n")
        && text.ends_with(wanted)
        && text.len() == 7usize.saturating_add(wanted.len())
}

/// Whether a run of a task and its end leave their text, and the task begins again.
pub(crate) fn runs_and_begins(world: &mut World<'_>) -> bool {
    world.run(&[Event::Begin(A), Event::Drop(A)]) == Ok(())
        && has_text(world, "now 0\nattempt 0 0 dropped\nend\n")
        && world.step(Event::Begin(A)) == Ok(Seen::Ended(Outcome::Retries))
}

/// One task reads x, the other commits, and the first reads y and begins anew.
const TORN: &[Move] = &[
    Move::Begin(A),
    Move::Read(A, X),
    Move::Begin(B),
    Move::Commit(B),
    Move::Read(A, Y),
    Move::Begin(A),
];

/// What becomes of those.
const BEGUN: &[(TaskId, u64, Fate)] = &[
    (A, 0, Fate::Stale),
    (B, 0, Fate::Committed(1)),
    (A, 1, Fate::Running),
];

/// A commit up to the store before that of the clock.
const BEFORE: &[Move] = &[
    Move::Begin(B),
    Move::Ask(B),
    Move::Word,
    Move::Word,
    Move::Word,
    Move::Word,
];

/// Whether the history grows at the store of the clock, and not before; so do the last lines, also where words hold
/// other values already.
pub(crate) fn grows_at_the_clock(world: &mut World<'_>) -> bool {
    plays(world, BEFORE)
        && has_history(world, &[1])
        && has_text(world, "now 0\nx 1 0\ny 1 0\nattempt 1 0 running\nend\n")
        && plays(world, &[Move::Word])
        && has_history(world, &[1, 2])
        && has_text(world, "now 1\nx 2 1\ny 2 1\nattempt 1 0 running\nend\n")
}

/// The last lines of the world of the pair as it opens.
const OPENED: &str = "now 0\nx 1 0\ny 1 0\nend\n";

const TORN_TEXT: &str =
    "now 1\nx 2 1\ny 2 1\nattempt 0 0 stale x 1\nattempt 1 0 committed 1\nattempt 0 1 running\nend\n";

pub(crate) const ROWS: &[Row] = &[
    (
        "a world that opens",
        PAIR,
        Script::Tells(&[], &[], &[1], OPENED),
    ),
    (
        "a commit between two reads",
        PAIR,
        Script::Tells(TORN, BEGUN, &[1, 2], TORN_TEXT),
    ),
    ("what was read is told", PAIR, Script::Reads(TORN)),
    ("a commit store by store", PAIR, Script::Grows),
    ("behind another text", "", Script::Behind("now 0\nend\n")),
    ("a run and then a step", RETRIES, Script::Runs),
];
