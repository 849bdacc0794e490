//! Events that take no memory. Both tests do the same, but that such events happen in one of them:
//! `hostile/all` counts that they make as many requests for memory.

use crate::parts::{X, Y, catalogue};
use std::alloc::Global;
use txn::{Catalogue, TaskId, VarId};
use world::World;
use world_law::{Event, Seen};

/// Twenty tasks that add two variables, and one that sets both.
const FILE: &str =
    "(var x 1)(var y 1)(tx sum (skip) (add x y))(tx both (seq (set x 2) (set y 2)) 0)\
    (run sum 20)(run both 1)";

const READERS: u32 = 20;

/// So many of them are dropped, and the others run again.
const DROPPED: u32 = 10;

const WRITER: TaskId = TaskId(20);

/// Whether the event is seen so.
fn sees(world: &mut World<'_>, event: Event, seen: Seen) -> bool {
    world.step(event) == Ok(seen)
}

/// Whether the task's attempt loads two of the words that it reads of the variable.
fn loads_two(world: &mut World<'_>, task: TaskId, x: VarId) -> bool {
    sees(world, Event::First(task, x), Seen::Loaded)
        && sees(world, Event::Value(task), Seen::Loaded)
}

/// Whether the task begins and reads the first variable.
fn begins(world: &mut World<'_>, task: TaskId) -> bool {
    sees(world, Event::Begin(task), Seen::Needs(X))
        && loads_two(world, task, X)
        && sees(world, Event::Second(task), Seen::Needs(Y))
}

/// Whether each task begins and reads the first variable, and the one that sets both asks to commit.
fn begin(world: &mut World<'_>) -> bool {
    for task in 0..READERS {
        if !begins(world, TaskId(task)) {
            return false;
        }
    }
    world.step(Event::Begin(WRITER)).is_ok() && sees(world, Event::Ask(WRITER), Seen::Commits(1))
}

/// Whether the task's attempt is stale at the second variable, runs again, and finds the first one changed.
fn runs_again(world: &mut World<'_>, task: TaskId) -> bool {
    sees(world, Event::Second(task), Seen::Stale)
        && sees(world, Event::Again(task), Seen::Checks(X))
        && loads_two(world, task, X)
        && sees(world, Event::Second(task), Seen::Changed)
}

/// Whether each of the others loads two words of the second variable.
fn load_two_each(world: &mut World<'_>) -> bool {
    for task in 0..READERS {
        if !loads_two(world, TaskId(task), Y) {
            return false;
        }
    }
    true
}

/// Whether the commit makes its stores.
fn commits(world: &mut World<'_>) -> bool {
    for _ in 0..6u32 {
        if !sees(world, Event::Word, Seen::Stored) {
            return false;
        }
    }
    sees(world, Event::Word, Seen::Committed(1))
}

/// Whether some of the others are dropped, and the rest run again.
fn are_dropped_or_run_again(world: &mut World<'_>) -> bool {
    for task in 0..READERS {
        let is_so = if task < DROPPED {
            sees(world, Event::Drop(TaskId(task)), Seen::Dropped)
        } else {
            runs_again(world, TaskId(task))
        };
        if !is_so {
            return false;
        }
    }
    true
}

fn goes_on(world: &mut World<'_>) -> bool {
    load_two_each(world) && commits(world) && are_dropped_or_run_again(world)
}

/// Whether all begin in a world of this catalogue, and go on where that is said.
fn plays_over(alloc: Global, catalogue: &Catalogue, is_more: bool) -> bool {
    match World::open(alloc, catalogue) {
        Ok(mut world) => begin(&mut world) && (!is_more || goes_on(&mut world)),
        Err(_) => false,
    }
}

fn plays(alloc: Global, is_more: bool) -> bool {
    match catalogue(alloc, FILE) {
        Some(catalogue) => plays_over(alloc, &catalogue, is_more),
        None => false,
    }
}

#[test]
fn stays(rt: HostRuntime) {
    assert!(rt; plays(rt.alloc(), false));
}

#[test]
fn moves(rt: HostRuntime) {
    assert!(rt; plays(rt.alloc(), true));
}
