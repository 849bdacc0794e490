//! A long run of events.

use std::alloc::{AllocError, Global};
use txn::{Catalogue, TaskId, VarId};
use txn_text::read_file;
use world::World;
use world_law::{Event, Fate};

const FILE: &str =
    "(var x 5)(var y 5)(tx inc (seq (set x (add x 1)) (set y (add y 1))) x)(run inc 3000)";

/// The events of so many tasks that increment both variables, one after the other, each from its begin to its last
/// store.
fn events_of(alloc: Global, tasks: u32) -> Result<Vec<Event>, AllocError> {
    let mut events = Vec::new(alloc);
    for number in 0..tasks {
        let task = TaskId(number);
        events.extend_from_slice(&[
            Event::Begin(task),
            Event::First(task, VarId(0)),
            Event::Value(task),
            Event::Second(task),
            Event::First(task, VarId(1)),
            Event::Value(task),
            Event::Second(task),
            Event::Ask(task),
        ])?;
        events.extend_from_slice(&[Event::Word; 7])?;
    }
    Ok(events)
}

/// Whether a hundred commits happen in one run of these.
fn happen(world: &mut World<'_>, events: &[Event]) -> bool {
    world.run(events) == Ok(())
        && world.history().len() == 101
        && world.attempts() == 100
        && world.attempt(99).fate == Fate::Committed(100)
}

/// Whether so they do in the catalogue's world.
fn happen_in(alloc: Global, catalogue: &Catalogue, events: &[Event]) -> bool {
    match World::open(alloc, catalogue) {
        Ok(mut world) => happen(&mut world, events),
        Err(_) => false,
    }
}

/// Whether so they do in that of the file.
fn happen_in_file(alloc: Global, events: &[Event]) -> bool {
    match read_file(alloc, FILE.as_bytes()) {
        Ok(catalogue) => happen_in(alloc, &catalogue, events),
        Err(_) => false,
    }
}

/// Whether so 1,500 events do.
fn all_happen(alloc: Global) -> bool {
    match events_of(alloc, 100) {
        Ok(events) => events.len() == 1500 && happen_in_file(alloc, events.as_slice()),
        Err(_) => false,
    }
}

#[test]
fn a_run_of_1500_events_happens(rt: HostRuntime) {
    assert!(rt; all_happen(rt.alloc()));
}
