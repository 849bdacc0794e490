//! Calls that wait, and are told.

use stm_desk::{Answer, Asked, Desk};
use stm_store::{Refused, Ticket, Way};
use txn::{Outcome, TxId};

pub(crate) const GET: TxId = TxId(0);

pub(crate) const PUT: TxId = TxId(1);

/// The entry of this number in the first chapter.
pub(crate) fn entry(ticket: u64, value: i64, entry: u64, place: u64) -> Answer {
    Answer {
        ticket: Ticket(ticket),
        outcome: Outcome::Returned(value),
        chapter: 0,
        entry,
        place,
    }
}

/// Whether a call that waits is answered so.
pub(crate) fn asks(desk: &mut Desk, tx: TxId, whose: u64, answer: Result<Asked, Refused>) -> bool {
    desk.ask(tx, &[], Way::Waits, whose) == answer
}

/// Whether a call that tries is answered so.
pub(crate) fn tries(desk: &mut Desk, tx: TxId, whose: u64, answer: Result<Asked, Refused>) -> bool {
    desk.ask(tx, &[], Way::Tries, whose) == answer
}

/// Whether who waited with the first ticket, 40, is told this next.
fn tells_first(desk: &mut Desk, answer: Result<Answer, Refused>) -> bool {
    match desk.told() {
        Some(told) => told.whose == 40 && told.ticket == Ticket(0) && told.answer == answer,
        None => false,
    }
}

/// Who waits is told once.
pub(crate) fn tells_once(desk: &mut Desk) -> bool {
    asks(desk, GET, 40, Ok(Asked::Waits(Ticket(0))))
        && desk.told().is_none()
        && asks(desk, PUT, 41, Ok(Asked::Ended(entry(1, 8, 1, 0))))
        && tells_first(desk, Ok(entry(0, 7, 2, 1)))
        && desk.told().is_none()
        && desk.store().value("n") == Some((0, 2))
}

/// Who leaves is not entered.
pub(crate) fn leaves(desk: &mut Desk) -> bool {
    asks(desk, GET, 40, Ok(Asked::Waits(Ticket(0))))
        && desk.leave(Ticket(0)) == Ok(())
        && desk.leave(Ticket(0)) == Err(Refused::Gone)
        && asks(desk, PUT, 41, Ok(Asked::Ended(entry(1, 8, 1, 1))))
        && desk.told().is_none()
}

/// What is closed takes no call.
pub(crate) fn closes(desk: &mut Desk) -> bool {
    if !tries(desk, GET, 40, Err(Refused::Retries))
        || !asks(desk, GET, 40, Ok(Asked::Waits(Ticket(0))))
    {
        return false;
    }
    desk.close();
    tells_first(desk, Err(Refused::Closed))
        && asks(desk, PUT, 41, Err(Refused::Closed))
        && desk.leave(Ticket(0)) == Err(Refused::Gone)
}

/// What cannot be called is unknown, and what can has no room.
pub(crate) fn knows(desk: &mut Desk) -> bool {
    asks(desk, TxId(2), 0, Err(Refused::Unknown))
        && desk.ask(GET, &[1], Way::Waits, 0) == Err(Refused::Unknown)
        && asks(desk, GET, 0, Err(Refused::NoRoom))
}
