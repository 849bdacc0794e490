//! Batches: where a store ends, the next one begins.

use std::alloc::Global;
use std::process::Abort;
use std::sync::Wait;
use std::thread::Threads;
use stm_library::{Memory, NextFault, OpenGate, Options, Program, Store, run_tasks};

const FILE: &str = "(var x 5)(tx inc (set x (add x 1)) x)(run inc 2)";

/// The store's next one, with the program as it is.
fn next_store(alloc: Global, store: &Store) -> Result<Store, Memory> {
    let program = store.going_on()?;
    Store::open(alloc, program, 1, 0)
}

/// The program of the text.
fn read(rt: &impl Abort, alloc: Global, file: &str) -> Program {
    match Program::read(alloc, file.as_bytes()) {
        Ok(program) => program,
        Err(_) => panic!(rt; "no program"),
    }
}

/// A store in which both tasks of the file are done.
fn done(rt: &impl Abort, alloc: Global) -> Store {
    let Ok(mut store) = Store::open(alloc, read(rt, alloc, FILE), 0, 0) else {
        panic!(rt; "no store");
    };
    assert!(rt; store.report().is_ok());
    store
}

/// The store's x is 7 at first, and its tasks make it 9.
fn goes_on(rt: &impl Abort, store: &mut Store) {
    assert_eq!(rt; store.value("x"), Some((7, 0)));
    assert!(rt; store.report().is_ok());
    match store.values() {
        Ok(values) => assert_eq!(rt; values.as_slice(), [9].as_slice()),
        Err(_) => panic!(rt; "no memory"),
    }
}

#[test]
fn a_store_goes_on_where_another_ended(rt: HostRuntime) {
    let store = done(&rt, rt.alloc());
    match next_store(rt.alloc(), &store) {
        Ok(mut next) => goes_on(&rt, &mut next),
        Err(_) => panic!(rt; "no next store"),
    }
}

/// The variable x begins at 7 in the program.
fn begins_at_7(rt: &impl Abort, program: Program) {
    assert_eq!(rt; program.catalogue().initial(), [7].as_slice());
}

/// The program of this text begins where the store is, or is refused for this reason.
fn goes_on_as(
    rt: &impl Abort,
    alloc: Global,
    store: &Store,
    file: &str,
    refused: Option<NextFault>,
) {
    match store.going_on_as(read(rt, alloc, file)) {
        Ok(program) => {
            assert!(rt; refused.is_none());
            begins_at_7(rt, program);
        }
        Err(why) => assert!(rt; refused == Some(why)),
    }
}

/// Programs, and why they are refused where x is 7.
const OTHERS: &[(&str, Option<NextFault>)] = &[
    ("(var x 0)(tx halve (set x (div x 2)) x)(run halve 1)", None),
    ("(var y 0)", Some(NextFault::Variables)),
    ("(var x 0)(var y 0)", Some(NextFault::Variables)),
    (
        "(stm 2)(var x 0)(always small (lt x 7))",
        Some(NextFault::Broken),
    ),
];

#[test]
fn another_program_goes_on_if_it_may(rt: HostRuntime) {
    let store = done(&rt, rt.alloc());
    'others: for (file, refused) in OTHERS {
        goes_on_as(&rt, rt.alloc(), &store, file, *refused);
    }
}

/// The program goes on where all its tasks are done.
fn goes_on_from_its_report(
    rt: &(impl Threads + Wait + Sync + Abort),
    alloc: Global,
    program: Program,
) {
    let Some(options) = Options::new(1, 8, 0) else {
        panic!(rt; "no options");
    };
    let Ok(report) = run_tasks(rt, alloc, program.catalogue(), options, &OpenGate) else {
        panic!(rt; "no report");
    };
    match program.going_on(alloc, &report) {
        Ok(next) => begins_at_7(rt, next),
        Err(_) => panic!(rt; "no memory"),
    }
}

#[test]
fn a_program_goes_on_where_a_report_ended(rt: HostRuntime) {
    let program = read(&rt, rt.alloc(), FILE);
    goes_on_from_its_report(&rt, rt.alloc(), program);
}
