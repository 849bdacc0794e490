//! How calls would end.

use crate::asking::{GET, PUT, asks};
use stm_desk::{Asked, Desk};
use stm_store::{Refused, Ticket};
use txn::{Outcome, TxId};

/// How a call would end changes nothing.
pub(crate) fn changes_nothing(desk: &mut Desk) -> bool {
    desk.outcome_now(GET, &[]) == Ok(Outcome::Retries)
        && desk.outcome_now(PUT, &[]) == Ok(Outcome::Returned(8))
        && desk.outcome_now(PUT, &[]) == Ok(Outcome::Returned(8))
        && desk.store().value("n") == Some((0, 0))
        && asks(desk, GET, 40, Ok(Asked::Waits(Ticket(0))))
        && desk.outcome_now(PUT, &[]) == Ok(Outcome::Returned(8))
        && desk.told().is_none()
}

/// It is told of what can be called, and of nothing where the desk is closed.
pub(crate) fn knows_ends(desk: &mut Desk) -> bool {
    if desk.outcome_now(TxId(2), &[]) != Err(Refused::Unknown)
        || desk.outcome_now(GET, &[1]) != Err(Refused::Unknown)
        || desk.outcome_now(PUT, &[]) != Ok(Outcome::Returned(8))
    {
        return false;
    }
    desk.close();
    desk.outcome_now(PUT, &[]) == Err(Refused::Closed)
        && desk.outcome_now(TxId(2), &[]) == Err(Refused::Closed)
}
