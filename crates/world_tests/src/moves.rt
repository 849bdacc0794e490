//! Events, one by one and in one run. More of them, and the lines of schedules, are played by `cases/world.cases`.

use crate::parts::{A, B, X, Y};
use crate::scripts::{Row, Script};
use txn::{AlwaysId, Fault, Outcome};
use world_law::{Event, Seen};

/// One task takes what x has, where x and y have to have 100 together; the other sets z.
const BREAKS: &str = "(stm 2)(var x 100)(var y 0)(var z 0)(always sum (eq (add x y) 100))\
    (tx leak (set x 0) x)(tx mark (set z 1) 0)(run leak 1)(run mark 1)";

/// One task adds x and y, which are both 1; the other sets y to 5.
const HALF: &str =
    "(var x 1)(var y 1)(tx sum (skip) (add x y))(tx sety (set y 5) 0)(run sum 1)(run sety 1)";

/// An attempt that breaks a condition reads what the condition needs, ends so amid the stores of
/// another, and commits after them, as a state that is the one before.
const BROKEN_COMMITS: &[(Event, Seen)] = &[
    (Event::Begin(A), Seen::Needs(Y)),
    (Event::Begin(B), Seen::Needs(X)),
    (Event::First(B, X), Seen::Loaded),
    (Event::Value(B), Seen::Loaded),
    (Event::Second(B), Seen::Needs(Y)),
    (Event::First(B, Y), Seen::Loaded),
    (Event::Value(B), Seen::Loaded),
    (Event::Second(B), Seen::Ended(Outcome::Returned(0))),
    (Event::Ask(B), Seen::Commits(1)),
    (Event::First(A, Y), Seen::Loaded),
    (Event::Word, Seen::Stored),
    (Event::Value(A), Seen::Loaded),
    (Event::Word, Seen::Stored),
    (
        Event::Second(A),
        Seen::Ended(Outcome::Thrown(Fault::Broken(AlwaysId(0)))),
    ),
    (Event::Ask(A), Seen::Idle),
    (Event::Word, Seen::Stored),
    (Event::Word, Seen::Committed(1)),
    (Event::Ask(A), Seen::Commits(2)),
    (Event::Word, Seen::Committed(2)),
];

/// A check event by event: its pairs are read in the order in which they were read first, and no
/// other variable is. Where a commit locks what is to be checked, it is stale, and runs again.
const CHECKS: &[(Event, Seen)] = &[
    (Event::Begin(A), Seen::Needs(X)),
    (Event::First(A, X), Seen::Loaded),
    (Event::Value(A), Seen::Loaded),
    (Event::Second(A), Seen::Needs(Y)),
    (Event::Begin(B), Seen::Ended(Outcome::Returned(0))),
    (Event::Ask(B), Seen::Commits(1)),
    (Event::Word, Seen::Stored),
    (Event::First(A, Y), Seen::Stale),
    (Event::Again(A), Seen::Checks(X)),
    (Event::First(A, Y), Seen::Idle),
    (Event::Ask(A), Seen::Idle),
    (Event::Again(A), Seen::Idle),
    (Event::First(A, X), Seen::Loaded),
    (Event::Value(A), Seen::Loaded),
    (Event::Second(A), Seen::Needs(Y)),
    (Event::First(A, Y), Seen::Stale),
    (Event::Word, Seen::Stored),
    (Event::Word, Seen::Stored),
    (Event::Word, Seen::Committed(1)),
    (Event::Again(A), Seen::Checks(X)),
    (Event::Drop(A), Seen::Dropped),
    (Event::Again(A), Seen::Idle),
];

pub(crate) const ROWS: &[Row] = &[
    (
        "a broken condition commits",
        BREAKS,
        Script::Events(BROKEN_COMMITS),
    ),
    ("a check load by load", HALF, Script::Events(CHECKS)),
];
