//! Workers that are brought to a store: of it, of another chapter, and of other programs.

use crate::rows::{At, How, end, job};
use crate::texts::{ALIKE, GUARDED, OTHER, TWO, WAITS, WIDER};
use std::alloc::Global;
use stm_store::{End, Program, Refused, Store, Worker};

/// What is done with a store and a worker, with what it has to answer.
enum Act {
    /// The next task is this job's.
    Takes(At),
    /// The worker tries this job to its end.
    Tries(At),
    /// What the worker has tried is answered so.
    Brings(Result<How, Refused>),
    /// The job is entered by a turn.
    Serves(At),
    BeginsChapter,
}

/// The job of the first task that was declared.
const FIRST: At = At(0, 0, 0, 0);

/// The job of the second task that was declared.
const SECOND: At = At(1, 0, 1, 0);

const FIRST_ENTERED: Act = Act::Brings(Ok(How::Returns(1, 6)));

const SECOND_ENTERED: Act = Act::Brings(Ok(How::Returns(2, 7)));

/// A store of the file for a worker, with room for two tasks more.
fn opened(alloc: Global, file: &str) -> Option<Store> {
    let Ok(program) = Program::read(alloc, file.as_bytes()) else {
        return None;
    };
    if program.catalogue().tasks() > 2 {
        return None;
    }
    Store::open_with_room(alloc, program, 1, 0, 2).ok()
}

/// Whether the worker tries this job to its end.
fn tries(worker: &mut Worker, at: At) -> bool {
    let job = job(at);
    worker
        .catalogue()
        .is_callable(job.tx, job.arguments.as_slice())
        && worker.try_job(job) == Ok(())
}

/// Whether a turn of the job enters it.
fn enters(store: &mut Store, at: At) -> bool {
    let Some(mut lender) = store.lender() else {
        return false;
    };
    matches!(store.turn(&mut lender, job(at)), Ok(End::Entered(_)))
}

/// Whether it is answered so.
fn goes(store: &mut Store, worker: &mut Worker, act: &Act) -> bool {
    match act {
        Act::Takes(at) => store.take() == Ok(job(*at)),
        Act::Tries(at) => tries(worker, *at),
        Act::Brings(how) => store.bring(worker) == how.map(end),
        Act::Serves(at) => enters(store, *at),
        Act::BeginsChapter => {
            store.begin_chapter();
            true
        }
    }
}

/// The first of these that is not answered so, `None` where all are.
fn first_wrong(store: &mut Store, worker: &mut Worker, acts: &[Act]) -> Option<usize> {
    for place in 0..acts.len() {
        if !goes(store, worker, &acts[place]) {
            return Some(place);
        }
    }
    None
}

/// So it is with a worker of the other store.
fn first_wrong_of(store: &mut Store, other: &mut Store, acts: &[Act]) -> Option<usize> {
    match other.worker() {
        Some(mut worker) => first_wrong(store, &mut worker, acts),
        None => Some(0),
    }
}

/// So it is with its own worker.
fn first_wrong_of_own(store: &mut Store, acts: &[Act]) -> Option<usize> {
    match store.worker() {
        Some(mut worker) => first_wrong(store, &mut worker, acts),
        None => Some(0),
    }
}

/// Whose worker is brought: the store's own, or that of another store, of this file.
enum Whose {
    Own,
    Of(&'static str),
}

/// So it is with a store of the file, and that worker.
fn first_wrong_in(alloc: Global, file: &str, whose: &Whose, acts: &[Act]) -> Option<usize> {
    let Some(mut store) = opened(alloc, file) else {
        return Some(0);
    };
    let Whose::Of(other) = whose else {
        return first_wrong_of_own(&mut store, acts);
    };
    match opened(alloc, other) {
        Some(mut other) => first_wrong_of(&mut store, &mut other, acts),
        None => Some(0),
    }
}

const BROUGHT_ONCE: &[Act] = &[
    Act::Brings(Err(Refused::NotEnded)),
    // It was not taken.
    Act::Tries(FIRST),
    Act::Brings(Err(Refused::NotRunning)),
    Act::Takes(FIRST),
    Act::Tries(FIRST),
    FIRST_ENTERED,
    Act::Brings(Err(Refused::NotEnded)),
    Act::Tries(FIRST),
    Act::Brings(Err(Refused::NotRunning)),
];

const CHANGED_MEANWHILE: &[Act] = &[
    Act::Takes(FIRST),
    Act::Takes(SECOND),
    Act::Tries(SECOND),
    Act::Serves(FIRST),
    Act::Brings(Err(Refused::Stale)),
    Act::Tries(SECOND),
    SECOND_ENTERED,
];

const RETRIES: &[Act] = &[
    Act::Takes(FIRST),
    Act::Tries(FIRST),
    Act::Brings(Ok(How::Parks)),
    Act::Tries(FIRST),
    Act::Brings(Err(Refused::NotRunning)),
];

/// Another ticket, another transaction, another task and another chapter are each refused.
const OTHER_JOBS: &[Act] = &[
    Act::Takes(FIRST),
    Act::Tries(At(1, 0, 0, 0)),
    Act::Brings(Err(Refused::Gone)),
    Act::Tries(At(0, 0, 0, 1)),
    Act::Brings(Err(Refused::Gone)),
    Act::Tries(At(0, 0, 1, 0)),
    Act::Brings(Err(Refused::Gone)),
    Act::Tries(At(0, 1, 0, 0)),
    Act::Brings(Err(Refused::Gone)),
    Act::Tries(FIRST),
    Act::Brings(Ok(How::Parks)),
];

/// The job of a task that has the same number in the next chapter is refused there.
const EARLIER_CHAPTER: &[Act] = &[
    Act::Takes(FIRST),
    Act::BeginsChapter,
    Act::Takes(At(0, 1, 0, 0)),
    Act::Tries(FIRST),
    Act::Brings(Err(Refused::Gone)),
    Act::Tries(At(0, 1, 0, 0)),
    FIRST_ENTERED,
];

const OF_THE_SAME: &[Act] = &[Act::Takes(FIRST), Act::Tries(FIRST), FIRST_ENTERED];

const OF_ONE_THAT_DIFFERS: &[Act] = &[
    Act::Takes(FIRST),
    Act::Tries(FIRST),
    Act::Brings(Err(Refused::Stale)),
];

const OF_ANOTHER_TRANSACTION: &[Act] = &[
    Act::Takes(FIRST),
    Act::Tries(At(0, 0, 0, 1)),
    Act::Brings(Err(Refused::Gone)),
];

const OF_ANOTHER_PROGRAM: &[Act] = &[
    Act::Takes(FIRST),
    Act::Tries(FIRST),
    Act::Brings(Err(Refused::OtherProgram)),
];

/// What it shows, the file of the store, whose worker is brought, and what is done.
type Row = (&'static str, &'static str, Whose, &'static [Act]);

const ROWS: &[Row] = &[
    ("an attempt is brought once", TWO, Whose::Own, BROUGHT_ONCE),
    (
        "what was changed meanwhile is stale",
        TWO,
        Whose::Own,
        CHANGED_MEANWHILE,
    ),
    (
        "an attempt that retries is parked",
        WAITS,
        Whose::Own,
        RETRIES,
    ),
    (
        "a job is of its task and its ticket",
        WAITS,
        Whose::Own,
        OTHER_JOBS,
    ),
    (
        "a job of an earlier chapter is refused",
        TWO,
        Whose::Own,
        EARLIER_CHAPTER,
    ),
    (
        "a worker of another program is refused",
        TWO,
        Whose::Of(TWO),
        OF_THE_SAME,
    ),
    (
        "a worker of another program is refused",
        TWO,
        Whose::Of(ALIKE),
        OF_ONE_THAT_DIFFERS,
    ),
    (
        "a worker of another program is refused",
        TWO,
        Whose::Of(ALIKE),
        OF_ANOTHER_TRANSACTION,
    ),
    (
        "a worker of another program is refused",
        TWO,
        Whose::Of(OTHER),
        OF_ANOTHER_PROGRAM,
    ),
    (
        "a worker of another program is refused",
        TWO,
        Whose::Of(GUARDED),
        OF_ANOTHER_PROGRAM,
    ),
    (
        "a worker of another program is refused",
        TWO,
        Whose::Of(WIDER),
        OF_ANOTHER_PROGRAM,
    ),
];

#[test]
fn workers_are_brought_to_stores(rt: HostRuntime) {
    for (shows, file, whose, acts) in ROWS {
        assert_eq!(rt;
            first_wrong_in(rt.alloc(), file, whose, acts),
            None,
            "{shows}"
        );
    }
}
