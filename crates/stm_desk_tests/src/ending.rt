//! Chapters that end.

use crate::asking::{GET, PUT, asks, entry};
use stm_desk::{Answer, Asked, Desk, Ended};
use stm_store::{Refused, Ticket};

/// The entry of this chapter.
fn entry_in(chapter: u64, ticket: u64, value: i64, number: u64, place: u64) -> Answer {
    let first = entry(ticket, value, number, place);
    Answer {
        ticket: first.ticket,
        outcome: first.outcome,
        chapter,
        entry: first.entry,
        place: first.place,
    }
}

/// Whether the call of a desk that has room for two is answered that the chapter is full.
fn is_full(desk: &mut Desk) -> bool {
    asks(desk, GET, 42, Ok(Asked::ChapterFull))
}

/// The room for two is used up: the first call is entered, and the second waits.
fn fill(desk: &mut Desk, chapter: u64) -> bool {
    asks(
        desk,
        PUT,
        40,
        Ok(Asked::Ended(entry_in(chapter, 0, 8, 1, 0))),
    ) && asks(desk, PUT, 41, Ok(Asked::Waits(Ticket(1))))
}

/// Whether it is the chapter of this number.
fn is_chapter(ended: &Ended, chapter: u64) -> bool {
    ended.chapter == chapter && ended.file.is_ok() && ended.report.as_str().ends_with("end\n")
}

/// Whether the chapter of this number ends, and is kept.
fn turns(desk: &mut Desk, chapter: u64) -> bool {
    match desk.end_chapter() {
        Ok(ended) => is_chapter(&ended, chapter) && desk.kept(ended).is_ok(),
        Err(_) => false,
    }
}

/// Whether the chapter of this number ends, and is not kept.
fn loses(desk: &mut Desk, chapter: u64) -> bool {
    match desk.end_chapter() {
        Ok(ended) => is_chapter(&ended, chapter) && desk.not_kept(ended).is_ok(),
        Err(_) => false,
    }
}

/// Whether who waited with the second ticket is told of this entry.
fn tells(desk: &mut Desk, answer: Answer) -> bool {
    match desk.told() {
        Some(told) => { told.whose == 41 && told.ticket == Ticket(1) && told.answer == Ok(answer) }
        None => false,
    }
}

/// Who waits in a full chapter is entered in the next one, with its ticket.
pub(crate) fn comes_over(desk: &mut Desk) -> bool {
    let got = Ok(Asked::Ended(entry_in(1, 2, 7, 1, 1)));
    fill(desk, 0)
        && is_full(desk)
        && turns(desk, 0)
        && desk.told().is_none()
        && asks(desk, GET, 42, got)
        && tells(desk, entry_in(1, 1, 8, 2, 2))
        && turns(desk, 1)
        && turns(desk, 2)
        && desk.store().chapter() == 3
}

/// While the host has a chapter no other one ends, and what is full waits for the host.
fn is_out_once(desk: &mut Desk) -> bool {
    let Ok(first) = desk.end_chapter() else {
        return false;
    };
    matches!(desk.end_chapter(), Err(Refused::NotEnded))
        && desk.has_out(0)
        && !desk.has_out(1)
        && fill(desk, 1)
        && is_full(desk)
        && desk.not_kept(first).is_ok()
}

/// A full chapter has no room while one lies there that was not kept.
pub(crate) fn is_given_again(desk: &mut Desk) -> bool {
    is_out_once(desk)
        && asks(desk, GET, 42, Err(Refused::NoRoom))
        && turns(desk, 0)
        && is_full(desk)
        && turns(desk, 1)
        && desk.store().chapter() == 2
}

/// Where each place is of a task that waits a new chapter makes no room.
pub(crate) fn stays_full(desk: &mut Desk) -> bool {
    asks(desk, GET, 40, Ok(Asked::Waits(Ticket(0))))
        && asks(desk, PUT, 41, Err(Refused::NoRoom))
        && turns(desk, 0)
        && asks(desk, PUT, 41, Err(Refused::NoRoom))
}

/// A closed desk gives the chapter that was not kept, and its last one.
pub(crate) fn ends_closed(desk: &mut Desk) -> bool {
    if !loses(desk, 0) {
        return false;
    }
    desk.close();
    turns(desk, 0) && turns(desk, 1)
}

/// A chapter that the desk has not given is given back by `kept` and by `not_kept`.
pub(crate) fn keeps_its_own(one: &mut Desk, other: &mut Desk) -> bool {
    let Ok(first) = other.end_chapter() else {
        return false;
    };
    let Err(back) = one.kept(first) else {
        return false;
    };
    let Err(again) = one.not_kept(back) else {
        return false;
    };
    other.kept(again).is_ok() && turns(one, 0) && turns(other, 1)
}
