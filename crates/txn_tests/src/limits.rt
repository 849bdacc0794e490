//! What `Catalogue::build` and `build_known` refuse, at each limit but that of costs, which `cases/` comes to.

use crate::bodies::{Body, Holds};
use crate::build::{Of, Rows, expect, expect_known};
use txn::names::is_name;
use txn::{BuildFault, TxId};

pub(crate) const NAME: Option<BuildFault> = Some(BuildFault::Name);

pub(crate) const LIMIT: Option<BuildFault> = Some(BuildFault::Limit);

const BROKEN: Option<BuildFault> = Some(BuildFault::Broken);

/// As long as a name may be.
pub(crate) const LONG: &str = "a2345678901234567890123456789012";

pub(crate) const LONGER: &str = "a23456789012345678901234567890123";

const NAMES_AND_IDS: &[(Of, Option<BuildFault>)] = &[
    (Of::Vars(&[("1x", 0)]), NAME),
    (Of::Vars(&[("x", 0), ("x", 1)]), NAME),
    (Of::Tx(Body::Sets), NAME),
    (Of::RunOfNone(65537), NAME),
    (Of::Runs(&[(TxId(0), &[], 1)]), None),
    (Of::Runs(&[(TxId(1), &[], 1)]), NAME),
    (Of::Runs(&[(TxId(0), &[], 2), (TxId(0), &[5], 1)]), NAME),
];

const KNOWN: &[(Of, Option<BuildFault>)] = &[
    (Of::Vars(&[("x", 5), ("y", -3)]), None),
    (Of::Vars(&[("1x", 0)]), NAME),
    (Of::Vars(&[("x", 0), ("x", 1)]), NAME),
    (Of::Vars(&[(LONGER, 0)]), LIMIT),
    (Of::ManyVars(256), None),
    (Of::ManyVars(257), LIMIT),
];

#[test]
fn known_ids_leave_names_and_limits(rt: HostRuntime) {
    expect_known(
        &rt,
        rt.alloc(),
        &[("known ids leave names and limits", KNOWN)],
    );
}

const LONG_NAMES: &[(Of, Option<BuildFault>)] = &[
    (Of::Vars(&[(LONG, 0)]), None),
    (Of::Vars(&[(LONGER, 0)]), LIMIT),
    (Of::Always(&[(LONG, Holds::Is(5))], Body::Skips), None),
    (Of::Always(&[(LONGER, Holds::Is(5))], Body::Skips), LIMIT),
];

const DEPTHS: &[(Of, Option<BuildFault>)] = &[
    (Of::Tx(Body::Deep(31)), None),
    (Of::Tx(Body::Deep(32)), LIMIT),
    (Of::Always(&[("a", Holds::Deep(31))], Body::Skips), None),
    (Of::Always(&[("a", Holds::Deep(32))], Body::Skips), LIMIT),
];

/// 256 variables and transactions, 64 conditions and 65,536 tasks.
const COUNTS: &[(Of, Option<BuildFault>)] = &[
    (Of::ManyVars(256), None),
    (Of::ManyVars(257), LIMIT),
    (Of::ManyTxs(256), None),
    (Of::ManyTxs(257), LIMIT),
    (Of::ManyAlways(0), None),
    (Of::ManyAlways(64), None),
    (Of::ManyAlways(65), LIMIT),
    (Of::Runs(&[(TxId(0), &[], 65536), (TxId(0), &[], 0)]), None),
    (Of::Runs(&[(TxId(0), &[], 65535), (TxId(0), &[], 2)]), LIMIT),
    (Of::Runs(&[(TxId(0), &[], 0), (TxId(0), &[], 65537)]), LIMIT),
];

/// A condition may be named as a variable or a transaction is: these names are apart.
const NAMES_OF_CONDITIONS: &[(Of, Option<BuildFault>)] = &[
    (Of::Always(&[("1a", Holds::Is(5))], Body::Skips), NAME),
    (Of::Always(&[("", Holds::Is(5))], Body::Skips), NAME),
    (
        Of::Always(&[("a", Holds::Is(5)), ("a", Holds::Is(5))], Body::Skips),
        NAME,
    ),
    (
        Of::Always(&[("a", Holds::Is(5)), ("b", Holds::Is(5))], Body::Skips),
        None,
    ),
    (
        Of::Always(&[("x", Holds::Is(5)), ("t", Holds::Is(5))], Body::Skips),
        None,
    ),
    (Of::Always(&[("a", Holds::Unknown)], Body::Skips), NAME),
];

/// Names and limits come before what is broken.
const TRUE_AT_FIRST: &[(Of, Option<BuildFault>)] = &[
    (Of::Always(&[("a", Holds::Is(5))], Body::Skips), None),
    (Of::Always(&[("a", Holds::Is(6))], Body::Skips), BROKEN),
    (Of::Always(&[("a", Holds::Faulty)], Body::Skips), BROKEN),
    (
        Of::Always(&[("a", Holds::Is(5)), ("b", Holds::Is(6))], Body::Skips),
        BROKEN,
    ),
    (
        Of::Always(&[("a", Holds::Is(6)), ("b", Holds::Is(5))], Body::Skips),
        BROKEN,
    ),
    (
        Of::Always(&[(LONGER, Holds::Is(5)), ("a", Holds::Is(6))], Body::Skips),
        LIMIT,
    ),
    (
        Of::Always(&[("1a", Holds::Is(5)), ("a", Holds::Is(6))], Body::Skips),
        NAME,
    ),
    (
        Of::Always(&[("a", Holds::Is(6)), ("a", Holds::Is(6))], Body::Skips),
        NAME,
    ),
];

const ALL: &[Rows] = &[
    ("names and ids come first", NAMES_AND_IDS),
    ("names have 32 bytes at most", LONG_NAMES),
    ("trees are 31 deep at most", DEPTHS),
    ("there are so many at most", COUNTS),
    ("names of conditions are their own", NAMES_OF_CONDITIONS),
    ("conditions are true at first", TRUE_AT_FIRST),
];

#[test]
fn catalogues_are_judged(rt: HostRuntime) {
    expect(&rt, rt.alloc(), ALL);
}

#[test]
fn names_begin_with_letters(rt: HostRuntime) {
    assert!(rt; LONG.len() == 32 && is_name(b"x_1") && !is_name(b"1x") && !is_name(b""));
}
