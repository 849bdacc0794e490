//! Stores at their limits: the most workers, no transaction, and no room.

use crate::texts::{MIXED, NOTHING, TWO, WAITS};
use std::alloc::Global;
use stm_store::{Lender, Program, Refused, Store};
use txn::{Outcome, TxId};

/// A store of the file, opened for so many workers, `None` where memory is refused.
fn opened(alloc: Global, file: &str, workers: usize) -> Option<Store> {
    let Ok(program) = Program::read(alloc, file.as_bytes()) else {
        return None;
    };
    if workers > 32 {
        return None;
    }
    Store::open(alloc, program, workers, 0).ok()
}

/// Whether the store's report is this text.
fn reports(store: &mut Store, text: &str) -> bool {
    match store.report() {
        Ok(report) => report.as_str() == text,
        Err(_) => false,
    }
}

/// Whether the store had a worker to hand out.
fn hires(store: &mut Store) -> bool {
    store.worker().is_some()
}

fn lends(store: &Store) -> bool {
    store.lender().is_some()
}

/// Whether there are 32 workers of the store, and a lender.
fn has_workers(store: &mut Store) -> bool {
    for _ in 0..32u32 {
        if !hires(store) {
            return false;
        }
    }
    !hires(store) && lends(store)
}

/// Whether there is no worker of the store, and so many turns are given by the lender.
fn gives(store: &mut Store, lender: &mut Lender, turns: u32) -> bool {
    !hires(store) && store.turns(lender, 200) == turns
}

/// Whether a lender of the first store gives its two turns, and those of the other one, which is of another program.
fn gives_in_both(store: &mut Store, other: &mut Store) -> bool {
    match store.lender() {
        Some(mut lender) => gives(store, &mut lender, 2) && gives(other, &mut lender, 83),
        None => false,
    }
}

fn gives_in_another(alloc: Global, store: &mut Store) -> bool {
    match opened(alloc, MIXED, 0) {
        Some(mut other) => gives_in_both(store, &mut other),
        None => false,
    }
}

/// Whether what the calls would end as is told, and nothing changes. `set` is the second transaction.
fn tells_ends(store: &mut Store, lender: &mut Lender) -> bool {
    store.catalogue().is_callable(TxId(0), &[])
        && store.catalogue().is_callable(TxId(1), &[])
        && store.outcome_now(lender, TxId(0), &[]) == Ok(Outcome::Retries)
        && store.outcome_now(lender, TxId(1), &[]) == Ok(Outcome::Returned(1))
        && store.counts().done == 0
        && reports(store, "base 0\nx 0 0\nnow 0\nx 0 0\nparked 0 t\nend\n")
}

fn tells_ends_by_a_lender(store: &mut Store) -> bool {
    match store.lender() {
        Some(mut lender) => tells_ends(store, &mut lender),
        None => false,
    }
}

/// Whether nobody is hired or lent to and nothing is ready, and a chapter passes.
fn has_nothing(store: &mut Store) -> bool {
    if hires(store) || lends(store) || store.take() != Err(Refused::NotReady) {
        return false;
    }
    store.begin_chapter();
    store.chapter() == 1 && store.tasks() == 0 && reports(store, "base 0\nnow 0\nend\n")
}

/// What is asked of a store.
enum Asked {
    HasWorkers,
    GivesInAnother,
    TellsEnds,
    HasNothing,
}

/// Whether that is so of a store of the file, opened for so many workers.
fn is_so(alloc: Global, file: &str, workers: usize, asked: &Asked) -> bool {
    let Some(mut store) = opened(alloc, file, workers) else {
        return false;
    };
    match asked {
        Asked::HasWorkers => has_workers(&mut store),
        Asked::GivesInAnother => gives_in_another(alloc, &mut store),
        Asked::TellsEnds => tells_ends_by_a_lender(&mut store),
        Asked::HasNothing => has_nothing(&mut store),
    }
}

const ROWS: &[(&str, &str, usize, Asked)] = &[
    ("a store has up to 32 workers", TWO, 32, Asked::HasWorkers),
    ("a store for no worker lends", TWO, 0, Asked::GivesInAnother),
    (
        "what would end is told and not entered",
        WAITS,
        0,
        Asked::TellsEnds,
    ),
    (
        "a program of nothing has neither",
        NOTHING,
        4,
        Asked::HasNothing,
    ),
];

#[test]
fn stores_at_their_limits(rt: HostRuntime) {
    for (shows, file, workers, asked) in ROWS {
        assert!(rt; is_so(rt.alloc(), file, *workers, asked), "{shows}");
    }
}
