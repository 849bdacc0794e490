//! What a refused event leaves of a world.

use crate::on_many::{Use, is_right_on};
use crate::parts::{A, B, MANY, VARIABLES};
use crate::uses::lines_after_refusal;
use std::alloc::Global;
use txn::{Catalogue, VarId};
use world::World;
use world_law::Event;

/// An event happens. Where it is refused the world's text is as it was, and then it can happen.
fn steps(alloc: Global, world: &mut World<'_>, event: Event) -> bool {
    let Ok(before) = world.text() else {
        return true;
    };
    let mut after = String::new(alloc);
    lines_after_refusal(&mut after, world, event).is_none()
        || before.as_str() == after.as_str() && world.step(event).is_ok()
}

/// So do these.
fn all_step(alloc: Global, world: &mut World<'_>, events: &[Event]) -> bool {
    for &event in events {
        if !steps(alloc, world, event) {
            return false;
        }
    }
    true
}

/// The first attempt reads all variables.
fn reads(alloc: Global, world: &mut World<'_>) -> bool {
    for x in 0..VARIABLES {
        let look = [Event::First(A, VarId(x)), Event::Value(A), Event::Second(A)];
        if !all_step(alloc, world, &look) {
            return false;
        }
    }
    true
}

const BEGUN: &[Event] = &[Event::Begin(A), Event::Begin(B)];

const OVER: &[Event] = &[Event::Ask(A), Event::Word, Event::Drop(B), Event::Begin(B)];

/// Two attempts, of which the first reads all variables and commits.
fn plays(alloc: Global, world: &mut World<'_>) -> bool {
    all_step(alloc, world, BEGUN) && reads(alloc, world) && all_step(alloc, world, OVER)
}

/// Opens a world, which then goes by its events: whether all is right, `None` where it is not opened.
pub(crate) fn opens(alloc: Global, catalogue: &Catalogue) -> Option<bool> {
    match World::open(alloc, catalogue) {
        Ok(mut world) => Some(plays(alloc, &mut world)),
        Err(_) => None,
    }
}

#[test]
fn a_refused_event_changes_nothing(rt: HostRuntime) {
    assert!(rt; is_right_on(rt.alloc(), MANY, Use::OpensWorlds));
}
