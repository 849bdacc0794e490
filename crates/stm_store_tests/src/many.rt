//! A store that outlives its room many times.

use crate::lends::call;
use crate::rows::{Host, opened};
use crate::texts::MANY;
use stm_store::{End, Lender, Refused, Store, Ticket, Way};
use txn::TxId;

/// How many calls a chapter has room for.
const TASK_ROOM: usize = 1000;

/// Whether so many calls of the first transaction are entered one after another, and then there is no room.
fn fills(store: &mut Store, lender: &mut Lender, count: usize) -> bool {
    for _ in 0..count {
        match call(store, lender, TxId(0), Way::Waits) {
            Ok((_, End::Entered(_))) => {}
            _ => return false,
        }
    }
    matches!(
        call(store, lender, TxId(0), Way::Waits),
        Err(Refused::NoRoom)
    )
}

/// Whether the next task has this ticket, and is entered by it.
fn opens(store: &mut Store, lender: &mut Lender, ticket: Ticket) -> bool {
    if !store.catalogue().is_callable(TxId(1), &[]) || store.submit(TxId(1), &[]) != Ok(ticket) {
        return false;
    }
    match store.claim(ticket) {
        Ok(job) => matches!(store.turn(lender, job), Ok(End::Entered(_))),
        Err(_) => false,
    }
}

/// Whether the chapter of this number is filled beside 40 tasks that wait, and the next one begins.
fn fills_chapter(store: &mut Store, lender: &mut Lender, chapter: u64) -> bool {
    if store.chapter() != chapter || !fills(store, lender, TASK_ROOM) {
        return false;
    }
    store.begin_chapter();
    store.spare() == TASK_ROOM && store.tasks() == 40
}

/// Whether so many chapters are filled so, one after another.
fn fills_chapters(store: &mut Store, lender: &mut Lender, chapters: u64) -> bool {
    for chapter in 0..chapters {
        if !fills_chapter(store, lender, chapter) {
            return false;
        }
    }
    true
}

/// The tickets before the one that opens are those of the 40 tasks and of the 100,000 calls.
fn outlives(host: &mut Host) -> bool {
    let Host { store, lender } = host;
    store.turns(lender, 40) == 40
        && fills_chapters(store, lender, 100)
        && store.entered() == 100000
        && store.value("n") == Some((100000, 0))
        && opens(store, lender, Ticket(100040))
        && store.turns(lender, 100) == 40
        && store.value("out") == Some((4000000, 41))
}

/// 100,000 calls in chapters of 1,000, beside 40 tasks that wait all the time, and are then woken by their tickets.
#[test]
fn what_waits_stays_through_many_chapters(rt: HostRuntime) {
    match opened(rt.alloc(), MANY, 0, TASK_ROOM) {
        Some(mut host) => assert!(rt; outlives(&mut host)),
        None => panic!(rt; "no store"),
    }
}
