//! What is done with a world that was just opened, and what it has to show then.

use crate::parts::{X, catalogue};
use crate::telling::{
    grows_at_the_clock, has_attempts, has_history, has_log, has_text, is_put_behind,
    runs_and_begins,
};
use crate::{moves, telling};
use std::alloc::Global;
use txn::{Catalogue, Move, TaskId};
use world::World;
use world_law::{Event, Fate, Seen};

pub(crate) enum Script {
    /// These events are seen so, and in one run they leave the same.
    Events(&'static [(Event, Seen)]),
    /// The last lines of the world are put behind another text.
    Behind(&'static str),
    /// A run, the text of what it leaves, and a step.
    Runs,
    /// After these lines these attempts have begun, the history has these values, and these are the last lines.
    Tells(&'static [Move], &'static [(TaskId, u64, Fate)], &'static [i64], &'static str),
    /// After these lines the first attempt has read that x is 1, and nothing else.
    Reads(&'static [Move]),
    /// The history grows at the store of the clock.
    Grows,
}

/// What it shows, the text of a file, and what is done in its world.
pub(crate) type Row = (&'static str, &'static str, Script);

/// The last lines of a world behind the events in one run.
fn text_of_run(alloc: Global, world: &mut World<'_>, steps: &[(Event, Seen)]) -> Option<String> {
    let mut events = Vec::new(alloc);
    for (event, _) in steps {
        if events.push(*event).is_err() {
            return None;
        }
    }
    if world.run(events.as_slice()).is_err() {
        return None;
    }
    world.text().ok()
}

/// Whether the events are seen so one by one, and leave these last lines.
fn are_seen(world: &mut World<'_>, steps: &[(Event, Seen)], text: &str) -> bool {
    for (event, seen) in steps {
        if world.step(*event) != Ok(*seen) {
            return false;
        }
    }
    world.opaque();
    has_text(world, text)
}

/// Whether the events are seen so, and leave in one run what they leave one by one.
fn run_alike(
    alloc: Global,
    world: &mut World<'_>,
    other: &mut World<'_>,
    steps: &[(Event, Seen)],
) -> bool {
    match text_of_run(alloc, other, steps) {
        Some(text) => are_seen(world, steps, text.as_str()),
        None => false,
    }
}

/// So it is in worlds of the catalogue, of which the first is this.
fn go_alike(
    alloc: Global,
    world: &mut World<'_>,
    catalogue: &Catalogue,
    steps: &[(Event, Seen)],
) -> bool {
    match World::open(alloc, catalogue) {
        Ok(mut other) => run_alike(alloc, world, &mut other, steps),
        Err(_) => false,
    }
}

/// Whether none of these lines is refused.
pub(crate) fn plays(world: &mut World<'_>, lines: &[Move]) -> bool {
    for line in lines {
        if world.play(*line).is_err() {
            return false;
        }
    }
    true
}

/// Whether the script is so in the world.
fn follows(alloc: Global, world: &mut World<'_>, catalogue: &Catalogue, script: &Script) -> bool {
    match script {
        Script::Events(steps) => go_alike(alloc, world, catalogue, steps),
        Script::Behind(wanted) => is_put_behind(alloc, world, wanted),
        Script::Runs => runs_and_begins(world),
        Script::Tells(lines, begun, history, text) => {
            plays(world, lines)
                && has_attempts(world, begun)
                && has_history(world, history)
                && has_text(world, text)
        }
        Script::Reads(lines) => plays(world, lines) && has_log(world, X, 1),
        Script::Grows => grows_at_the_clock(world),
    }
}

/// Whether it is so in a world of the catalogue.
fn is_so_over(alloc: Global, catalogue: &Catalogue, script: &Script) -> bool {
    match World::open(alloc, catalogue) {
        Ok(mut world) => follows(alloc, &mut world, catalogue, script),
        Err(_) => false,
    }
}

/// Whether it is so in a world of the text's catalogue.
fn is_so(alloc: Global, text: &str, script: &Script) -> bool {
    match catalogue(alloc, text) {
        Some(catalogue) => is_so_over(alloc, &catalogue, script),
        None => false,
    }
}

#[test]
fn worlds_follow_their_scripts(rt: HostRuntime) {
    for rows in [moves::ROWS, telling::ROWS] {
        for (shows, text, script) in rows {
            assert!(rt; is_so(rt.alloc(), text, script), "{shows}");
        }
    }
}
