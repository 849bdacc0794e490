//! The line of each thing that can be seen, as `world` puts it.

use crate::parts::{X, Y, catalogue};
use std::alloc::Global;
use txn::{Catalogue, Fault, Outcome};
use world::put_seen;
use world_law::Seen;

/// Two variables.
const TWO: &str = "(var x 1)(var last 2)";

/// What is seen, and its line.
const LINES: [(Seen, &str); 19] = [
    (Seen::Idle, "7 idle\n"),
    (Seen::Needs(X), "7 needs x\n"),
    (Seen::Needs(Y), "7 needs last\n"),
    (Seen::Ended(Outcome::Returned(-6)), "7 ended returned -6\n"),
    (
        Seen::Ended(Outcome::Thrown(Fault::User(9))),
        "7 ended threw 9\n",
    ),
    (
        Seen::Ended(Outcome::Thrown(Fault::Overflow)),
        "7 ended overflow\n",
    ),
    (
        Seen::Ended(Outcome::Thrown(Fault::DivideByZero)),
        "7 ended zerodiv\n",
    ),
    (
        Seen::Ended(Outcome::Thrown(Fault::Outside)),
        "7 ended outside\n",
    ),
    (Seen::Ended(Outcome::Retries), "7 ended retries\n"),
    (Seen::Loaded, "7 loaded\n"),
    (Seen::Stale, "7 stale\n"),
    (Seen::Parked, "7 parked\n"),
    (Seen::Commits(3), "7 commits 3\n"),
    (Seen::Stored, "7 stored\n"),
    (Seen::Committed(65536), "7 committed 65536\n"),
    (Seen::Dropped, "7 dropped\n"),
    (Seen::Checks(X), "7 checks x\n"),
    (Seen::Checks(Y), "7 checks last\n"),
    (Seen::Changed, "7 changed\n"),
];

/// Whether line 7 of what is seen is this.
fn is_line(alloc: Global, catalogue: &Catalogue, seen: Seen, line: &str) -> bool {
    let mut text = String::new(alloc);
    put_seen(&mut text, catalogue, 7, seen).is_ok() && text.as_str() == line
}

/// The place of the first that has not its line.
fn first_wrong(alloc: Global, catalogue: &Catalogue) -> Option<usize> {
    for place in 0..LINES.len() {
        let (seen, line) = LINES[place];
        if !is_line(alloc, catalogue, seen, line) {
            return Some(place);
        }
    }
    None
}

/// Whether two lines, one behind the other, are these.
fn are_lines(alloc: Global, catalogue: &Catalogue, lines: &str) -> bool {
    let mut text = String::new(alloc);
    put_seen(&mut text, catalogue, 1, Seen::Spent).is_ok()
        && put_seen(&mut text, catalogue, 18446744073709551615, Seen::Idle).is_ok()
        && text.as_str() == lines
}

/// Whether that is so of a catalogue without a variable.
fn go_behind(alloc: Global) -> bool {
    match catalogue(alloc, "") {
        Some(none) => are_lines(alloc, &none, "1 memory\n18446744073709551615 idle\n"),
        None => false,
    }
}

#[test]
fn each_has_its_line(rt: HostRuntime) {
    match catalogue(rt.alloc(), TWO) {
        Some(two) => assert_eq!(rt; first_wrong(rt.alloc(), &two), None),
        None => panic!(rt; "no catalogue"),
    }
    assert!(rt; go_behind(rt.alloc()));
}
