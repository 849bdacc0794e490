//! Calls for which a chapter has no room.

use crate::asking::{GET, PUT, asks, entry};
use crate::long::{begun, is_run, is_told};
use stm_desk::{Answer, Asked, Desk};
use stm_store::{Refused, Ticket, Worker};

/// The entry of the second chapter.
fn next_entry(ticket: u64, value: i64, number: u64, place: u64) -> Answer {
    let first = entry(ticket, value, number, place);
    Answer {
        ticket: first.ticket,
        outcome: first.outcome,
        chapter: 1,
        entry: first.entry,
        place: first.place,
    }
}

/// Whether the chapter of this number ends, and is kept.
fn turns(desk: &mut Desk, chapter: u64) -> bool {
    match desk.end_chapter() {
        Ok(ended) => ended.chapter == chapter && desk.kept(ended).is_ok(),
        Err(_) => false,
    }
}

/// Whether the call is answered that the chapter is full.
fn is_full(desk: &mut Desk) -> bool {
    asks(desk, GET, 43, Ok(Asked::ChapterFull))
}

/// The room for three is used up by calls that run.
fn runs_three(desk: &mut Desk) -> bool {
    begun(desk, PUT, 40).is_some()
        && begun(desk, GET, 41).is_some()
        && begun(desk, PUT, 42).is_some()
}

/// What ran has had its turn, and nothing is left to be evaluated.
fn tells_three(desk: &mut Desk) -> bool {
    is_told(desk, 40, entry(0, 8, 1, 0))
        && is_told(desk, 41, entry(1, 7, 2, 1))
        && is_told(desk, 42, entry(2, 8, 3, 2))
        && desk.told().is_none()
        && desk.next_due().is_none()
}

/// A fourth call runs in the next chapter.
fn runs_fourth(desk: &mut Desk) -> bool {
    match begun(desk, GET, 43) {
        Some(job) => is_run(desk, &job) && is_told(desk, 43, next_entry(3, 7, 1, 3)),
        None => false,
    }
}

pub(crate) fn makes_room(desk: &mut Desk) -> bool {
    runs_three(desk) && is_full(desk) && tells_three(desk) && turns(desk, 0) && runs_fourth(desk)
}

/// Calls that ran and wait now leave no room, also in the next chapter.
pub(crate) fn all_wait(desk: &mut Desk) -> bool {
    begun(desk, GET, 40).is_some()
        && begun(desk, GET, 41).is_some()
        && asks(desk, PUT, 42, Err(Refused::NoRoom))
        && desk.told().is_none()
        && turns(desk, 0)
        && asks(desk, PUT, 42, Err(Refused::NoRoom))
        && desk.leave(Ticket(1)) == Ok(())
        && is_full(desk)
        && turns(desk, 1)
        && begun(desk, PUT, 42).is_some()
}

/// Where a chapter was not kept what runs is left alone.
pub(crate) fn is_left_alone(desk: &mut Desk) -> bool {
    let Ok(ended) = desk.end_chapter() else {
        return false;
    };
    if desk.not_kept(ended).is_err() {
        return false;
    }
    let Some(job) = begun(desk, PUT, 40) else {
        return false;
    };
    asks(desk, PUT, 41, Err(Refused::NoRoom)) && is_run(desk, &job)
}

/// Where the host has a chapter and the present one is used up, what asks waits for the host.
pub(crate) fn waits_for_the_host(desk: &mut Desk, worker: &mut Worker) -> bool {
    let Ok(ended) = desk.end_chapter() else {
        return false;
    };
    begun(desk, PUT, 40).is_some()
        && is_full(desk)
        && desk.bring(worker) == Err(Refused::NotEnded)
        && is_told(desk, 40, next_entry(0, 8, 1, 0))
        && desk.kept(ended).is_ok()
        && turns(desk, 1)
        && begun(desk, GET, 43).is_some()
}
