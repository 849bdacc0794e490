//! Desks of programs with tasks of their own, with no transaction, and with a file that gets long.

ghost use Rattle.std.specs.Prelude.{IfSome};
ghost use Rattle.stm_desk.specs.Asking.{IsStill};

use crate::asking::{GET, PUT, asks, closes, entry, knows, leaves, tells_once, tries};
use crate::ending::{comes_over, ends_closed, is_given_again, keeps_its_own, stays_full};
use crate::observing::{changes_nothing, knows_ends};
use std::alloc::Global;
use stm_desk::{Asked, Desk};
use stm_store::{Program, Refused, Store, Ticket, Way};
use txn::TxId;

/// A store of the program, with room for so many tasks more.
fn stored(alloc: Global, text: &str, room: usize) -> Option<Store>
    ensures { IfSome result IsStill }
{
    let program = Program::read(alloc, text.as_bytes()).ok()?;
    let tasks = program.catalogue().tasks();
    if tasks > 100 || room > 26_000 {
        return None;
    }
    match Store::open_with_room(alloc, program, 0, 0, room) {
        Ok(store) => Some(store),
        Err(_) => None,
    }
}

fn opened(alloc: Global, text: &str, room: usize) -> Option<Desk> {
    let store = stored(alloc, text, room)?;
    Some(Desk::open(alloc, store, Vec::new(alloc)))
}

/// Whether the chapter of this number ends with a file that can be read, and is kept.
fn turns(desk: &mut Desk, chapter: u64) -> bool {
    match desk.end_chapter() {
        Ok(ended) => { ended.chapter == chapter && ended.file.is_ok() && desk.kept(ended).is_ok() }
        Err(_) => false,
    }
}

/// A buffer for one number, with two tasks: the first waits, the second is entered as the desk opens.
const OWN: &str =
    "(var n 0) (tx get (if (eq n 0) (retry) (set n 0)) 7) (tx put (if (eq n 0) (set n 1) (retry)) 8) (tx see (skip) n) \
        (run get 1) (run see 1)";

/// What is woken of the file is entered, with a place in the history, and nobody is told.
fn wakes_its_own(desk: &mut Desk) -> bool {
    desk.leave(Ticket(0)) == Err(Refused::Gone)
        && asks(desk, PUT, 40, Ok(Asked::Ended(entry(2, 8, 2, 1))))
        && desk.store().value("n") == Some((0, 3))
        && asks(desk, PUT, 40, Ok(Asked::Ended(entry(3, 8, 4, 3))))
        && asks(desk, GET, 40, Ok(Asked::Ended(entry(4, 7, 5, 4))))
        && desk.told().is_none()
}

/// What waits of the file comes over, and is left alone by who closes.
fn carries_its_own(desk: &mut Desk) -> bool {
    if !turns(desk, 0) {
        return false;
    }
    desk.close();
    desk.told().is_none() && turns(desk, 1)
}

/// Whether nothing can be called, and all else can be done.
fn is_idle(desk: &mut Desk) -> bool {
    if !asks(desk, TxId(0), 40, Err(Refused::Unknown))
        || !tries(desk, TxId(0), 40, Err(Refused::Unknown))
    {
        return false;
    }
    desk.settle();
    desk.told().is_none()
        && desk.next_due().is_none()
        && turns(desk, 0)
        && desk.store().value("n") == Some((5, 0))
}

/// A transaction with a long name, so that few tasks make a long file.
const LONG: &str = "(var n 0) (tx up_by_one_in_so_many_calls_of_it (set n (add n 1)) n)";

/// The transaction is called so often.
fn is_called(desk: &mut Desk, times: usize) -> bool {
    for _ in 0..times {
        match desk.ask(TxId(0), &[], Way::Tries, 40) {
            Ok(Asked::Ended(_)) => {}
            _ => return false,
        }
    }
    true
}

/// Whether the first chapter ends with a file that is longer than one that has no tables may be, so that it says that
/// it is of the third form.
fn ends_with_a_long_file(desk: &mut Desk) -> bool {
    let Ok(ended) = desk.end_chapter() else {
        return false;
    };
    let is_of_third = match &ended.file {
        Ok(file) => file.len() > 1_048_576 && file.as_str().starts_with("(stm 3)"),
        Err(_) => false,
    };
    is_of_third && ended.report.as_str().ends_with("end\n") && desk.kept(ended).is_ok()
}

/// A chapter gets so long that its file is of the third form, and the next one begins.
fn gets_long(desk: &mut Desk) -> bool {
    is_called(desk, 26_000) && ends_with_a_long_file(desk) && turns(desk, 1)
}

/// What is asked of a desk.
enum Whether {
    TellsOnce,
    Leaves,
    Closes,
    Knows,
    ChangesNothing,
    KnowsEnds,
    ComesOver,
    IsGivenAgain,
    StaysFull,
    EndsClosed,
    WakesItsOwn,
    CarriesItsOwn,
    IsIdle,
    GetsLong,
}

/// Whether it is so of the desk.
fn is_so_of(desk: &mut Desk, whether: &Whether) -> bool {
    match whether {
        Whether::TellsOnce => tells_once(desk),
        Whether::Leaves => leaves(desk),
        Whether::Closes => closes(desk),
        Whether::Knows => knows(desk),
        Whether::ChangesNothing => changes_nothing(desk),
        Whether::KnowsEnds => knows_ends(desk),
        Whether::ComesOver => comes_over(desk),
        Whether::IsGivenAgain => is_given_again(desk),
        Whether::StaysFull => stays_full(desk),
        Whether::EndsClosed => ends_closed(desk),
        Whether::WakesItsOwn => wakes_its_own(desk),
        Whether::CarriesItsOwn => carries_its_own(desk),
        Whether::IsIdle => is_idle(desk),
        Whether::GetsLong => gets_long(desk),
    }
}

/// Whether it is so of a desk of the file, with room for so many calls.
fn is_so(alloc: Global, text: &str, room: usize, whether: &Whether) -> bool {
    match opened(alloc, text, room) {
        Some(mut desk) => is_so_of(&mut desk, whether),
        None => false,
    }
}

/// A buffer for one number.
const BUFFER: &str =
    "(var n 0) (tx get (if (eq n 0) (retry) (set n 0)) 7) (tx put (if (eq n 0) (set n 1) (retry)) 8)";

/// What it shows, a file, how many calls there is room for, and what is so.
const ROWS: &[(&str, &str, usize, Whether)] = &[
    ("who waits is told once", BUFFER, 9, Whether::TellsOnce),
    ("who leaves is not entered", BUFFER, 9, Whether::Leaves),
    ("what is closed takes no call", BUFFER, 9, Whether::Closes),
    (
        "what cannot be called is unknown",
        BUFFER,
        0,
        Whether::Knows,
    ),
    (
        "how a call would end changes nothing",
        BUFFER,
        1,
        Whether::ChangesNothing,
    ),
    (
        "how a call would end is told of what can be called",
        BUFFER,
        0,
        Whether::KnowsEnds,
    ),
    (
        "who waits is entered in the next chapter",
        BUFFER,
        2,
        Whether::ComesOver,
    ),
    (
        "what was not kept is given again",
        BUFFER,
        2,
        Whether::IsGivenAgain,
    ),
    (
        "what is full of those who wait has no room",
        BUFFER,
        1,
        Whether::StaysFull,
    ),
    (
        "a closed desk gives its last chapters",
        BUFFER,
        2,
        Whether::EndsClosed,
    ),
    ("a file has tasks of its own", OWN, 9, Whether::WakesItsOwn),
    (
        "what waits of a file comes over",
        OWN,
        0,
        Whether::CarriesItsOwn,
    ),
    (
        "nothing is called where there is no transaction",
        "(var n 5)",
        9,
        Whether::IsIdle,
    ),
    (
        "a long chapter has a file of the third form",
        LONG,
        26_000,
        Whether::GetsLong,
    ),
];

#[test]
fn desks_answer(rt: HostRuntime) {
    for (shows, text, room, whether) in ROWS {
        assert!(rt; is_so(rt.alloc(), text, *room, whether), "{shows}");
    }
}

/// Whether two desks take back what each gave.
fn keep_their_own(alloc: Global, one: &mut Desk) -> bool {
    match opened(alloc, BUFFER, 2) {
        Some(mut other) => keeps_its_own(one, &mut other),
        None => false,
    }
}

#[test]
fn a_desk_takes_back_what_it_gave(rt: HostRuntime) {
    match opened(rt.alloc(), BUFFER, 2) {
        Some(mut one) => assert!(rt; keep_their_own(rt.alloc(), &mut one)),
        None => panic!(rt; "the desk opens"),
    }
}
