//! Tables: what `Catalogue::build` refuses of them.

use crate::bodies::{Body, Holds, Read};
use crate::build::{Of, Rows, expect, expect_known};
use crate::limits::{LIMIT, LONG, LONGER, NAME};
use txn::{BuildFault, Span};

/// Behind x the two cells of `a`, and then the three of `b`.
const TWO: &[(&str, u32)] = &[("a", 2), ("b", 3)];

const A: Span = Span {
    first: 1,
    length: 2,
};

const B: Span = Span {
    first: 3,
    length: 3,
};

/// The cells of both.
const ALL: Span = Span {
    first: 1,
    length: 5,
};

/// The first cell of `a`.
const PART: Span = Span {
    first: 1,
    length: 1,
};

/// x, and the first cell of `a`.
const BEFORE: Span = Span {
    first: 0,
    length: 2,
};

/// As many cells as `b` has, behind it.
const BEHIND: Span = Span {
    first: 6,
    length: 3,
};

/// A table may be named as a variable or a transaction is: these names are apart.
const NAMES: &[(Of, Option<BuildFault>)] = &[
    (Of::Tables(&[], Body::Skips), None),
    (Of::Tables(TWO, Body::Skips), None),
    (Of::Tables(&[("x", 1), ("t", 1)], Body::Skips), None),
    (Of::Tables(&[(LONG, 1)], Body::Skips), None),
    (Of::Tables(&[("1a", 1)], Body::Skips), NAME),
    (Of::Tables(&[("", 1)], Body::Skips), NAME),
    (Of::Tables(&[("a", 1), ("a", 2)], Body::Skips), NAME),
    (
        Of::Tables(&[("a", 1), ("b", 1), ("a", 1)], Body::Skips),
        NAME,
    ),
    (Of::Tables(&[(LONGER, 1)], Body::Skips), LIMIT),
    (Of::Tables(&[(LONGER, 1), (LONGER, 1)], Body::Skips), NAME),
];

/// A table has a cell, and all have 1,048,576 at most; there are 64 tables at most.
const COUNTS: &[(Of, Option<BuildFault>)] = &[
    (Of::ManyTables(64), None),
    (Of::ManyTables(65), LIMIT),
    (Of::Tables(&[("a", 0)], Body::Skips), LIMIT),
    (Of::Tables(&[("a", 1_048_576)], Body::Skips), None),
    (Of::Tables(&[("a", 1_048_577)], Body::Skips), LIMIT),
    (
        Of::Tables(&[("a", 1_048_576), ("b", 1)], Body::Skips),
        LIMIT,
    ),
    (
        Of::Tables(&[("a", u32::MAX), ("b", u32::MAX)], Body::Skips),
        LIMIT,
    ),
];

/// Only the cells of a whole table are one.
const USES: &[(Of, Option<BuildFault>)] = &[
    (Of::Tables(TWO, Body::Throws(Read::First, A)), None),
    (Of::Tables(TWO, Body::Throws(Read::Sum, B)), None),
    (Of::Tables(TWO, Body::Throws(Read::Min, A)), None),
    (Of::Tables(TWO, Body::Throws(Read::Max, B)), None),
    (Of::Tables(TWO, Body::Puts(B)), None),
    (Of::TablesUnder(TWO, Holds::Reads(Read::Sum, A)), None),
    (Of::Tables(TWO, Body::Throws(Read::First, ALL)), NAME),
    (Of::Tables(TWO, Body::Throws(Read::First, PART)), NAME),
    (Of::Tables(TWO, Body::Throws(Read::Sum, BEFORE)), NAME),
    (Of::Tables(TWO, Body::Throws(Read::Min, BEHIND)), NAME),
    (Of::Tables(TWO, Body::Throws(Read::Max, ALL)), NAME),
    (Of::Tables(TWO, Body::Puts(ALL)), NAME),
    (Of::Tables(TWO, Body::Puts(BEHIND)), NAME),
    (Of::TablesUnder(TWO, Holds::Reads(Read::First, PART)), NAME),
    (Of::TablesUnder(TWO, Holds::Reads(Read::Sum, BEFORE)), NAME),
    (Of::Tables(&[], Body::Throws(Read::First, A)), NAME),
    (Of::Tables(&[], Body::Throws(Read::Sum, A)), NAME),
    (Of::Tables(&[], Body::Puts(A)), NAME),
    (Of::TablesUnder(&[], Holds::Reads(Read::Max, A)), NAME),
];

const ALL_OF_THEM: &[Rows] = &[
    ("names of tables are their own", NAMES),
    ("cells are a power of two at most", COUNTS),
    ("what is no table is unknown", USES),
];

#[test]
fn tables_are_judged(rt: HostRuntime) {
    expect(&rt, rt.alloc(), ALL_OF_THEM);
    expect_known(&rt, rt.alloc(), &[("names of tables are their own", NAMES)]);
}
