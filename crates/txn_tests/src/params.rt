//! The parameters of transactions: what `Catalogue::build` refuses of them, and what a catalogue tells.

use crate::bodies::{Body, Holds};
use crate::build::{Of, Rows, expect};
use crate::limits::{LIMIT, LONG, LONGER, NAME};
use txn::{BuildFault, ParamId};

const NAMES: &[(Of, Option<BuildFault>)] = &[
    (Of::Params(&["from", "to"], ParamId(1), &[]), None),
    (Of::Params(&["1st"], ParamId(0), &[]), NAME),
    (Of::Params(&[""], ParamId(0), &[]), NAME),
    (Of::Params(&["from", "from"], ParamId(1), &[]), NAME),
    (Of::Params(&["from", "x"], ParamId(1), &[]), NAME),
    (Of::Params(&["x1", "t"], ParamId(1), &[]), None),
];

const IDS: &[(Of, Option<BuildFault>)] = &[
    (Of::Params(&["from", "to"], ParamId(2), &[]), NAME),
    (Of::Params(&[], ParamId(0), &[]), NAME),
    (Of::Always(&[("a", Holds::Param)], Body::Skips), NAME),
];

const CALLS: &[(Of, Option<BuildFault>)] = &[
    (
        Of::Params(&["from", "to"], ParamId(1), &[&[3, -4], &[0, 0]]),
        None,
    ),
    (
        Of::Params(&["from", "to"], ParamId(1), &[&[3, -4], &[3]]),
        NAME,
    ),
    (
        Of::Params(&["from", "to"], ParamId(1), &[&[3, -4, 5]]),
        NAME,
    ),
    (Of::Params(&["from", "to"], ParamId(1), &[&[]]), NAME),
];

const EIGHT: &[&str] = &["a", "b", "c", "d", "e", "f", "g", "h"];

const NINE: &[&str] = &["a", "b", "c", "d", "e", "f", "g", "h", "i"];

const LIMITS: &[(Of, Option<BuildFault>)] = &[
    (
        Of::Params(EIGHT, ParamId(7), &[&[1, -2, 3, -4, 5, -6, 7, -8]]),
        None,
    ),
    (Of::Params(NINE, ParamId(8), &[]), LIMIT),
    (Of::Params(&[LONG], ParamId(0), &[]), None),
    (Of::Params(&[LONGER], ParamId(0), &[]), LIMIT),
    (Of::Params(&[LONGER, LONGER], ParamId(0), &[]), NAME),
];

const ALL: &[Rows] = &[
    ("names of parameters are their own", NAMES),
    ("parameters are known", IDS),
    ("each parameter has an argument", CALLS),
    ("parameters are eight at most", LIMITS),
];

#[test]
fn parameters_are_judged(rt: HostRuntime) {
    expect(&rt, rt.alloc(), ALL);
}
