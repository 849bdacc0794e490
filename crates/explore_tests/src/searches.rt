//! What is asked of small files, and what is answered.

use crate::calls::{are_numbered, is_sighted};
use crate::graphs::is_drawn;
use crate::orders::{Seen, are_counted, is_explored, is_way};
use explore_search::InstanceId;
use std::alloc::Global;
use txn::Catalogue;
use txn_text::read_file;

/// What is asked of a file, and what is wanted.
enum Asked {
    /// What is found of at most so many configurations.
    Explored(u32, Seen),
    /// The graph of at most so many configurations: whether they are enough, and it is that of `STUCK`.
    Drawn(u32, bool),
    /// The way to the end of this number, if there is one.
    Way(usize, Option<&'static [InstanceId]>),
    /// Whether some order comes to where the first transaction returns this: then by the third instance to the second.
    Sighted(i64, bool),
    /// How many tasks each instance has.
    Counts(&'static [u32]),
    /// The transactions of the first instances with their first arguments, how many there are, the instances of the
    /// first tasks, and that of the last one.
    Numbered(&'static [(u32, i64)], usize, &'static [InstanceId], InstanceId),
}

const INCREMENT: &str = "(var x 5)(tx inc (set x (add x 1)) x)(run inc 2)";

/// Two tasks that each take one fork and then the other, in steps of their own.
const FORKS: &str = "(var a 0)(var b 0)(var p 0)(var q 0)\
    (tx pa (seq (if (eq a 0) (skip) (retry)) (set a 1) (set p 1)) 0)\
    (tx pb (seq (if (and (eq p 1) (eq b 0)) (skip) (retry)) (set a 0) (set p 2)) 0)\
    (tx qb (seq (if (eq b 0) (skip) (retry)) (set b 1) (set q 1)) 0)\
    (tx qa (seq (if (and (eq q 1) (eq a 0)) (skip) (retry)) (set b 0) (set q 2)) 0)\
    (run pa 1)(run pb 1)(run qb 1)(run qa 1)";

/// Two who pay six of ten each, and one who takes what is there and breaks the second condition.
const PAYERS: &str = "(stm 2)(var x 10)(always low (lt x 99))(always high (lt 0 x))\
        (tx pay (seq (if (lt x 6) (throw 1) (skip)) (set x (sub x 6))) x)(tx drain (set x 0) x)\
        (run pay 2)(run drain 1)";

/// Four tasks that add, three of them the same number, and one that sets.
const ADDERS: &str = "(stm 3)(var n 0)(tx set_to (k) (set n k) n)(tx add (k) (set n (add n k)) n)\
    (run add 2 1)(run add 1 5)(run set_to 1 7)(run add 1 1)";

/// Two who wait for different numbers, and one that gives one of them.
const WAITERS: &str =
    "(stm 3)(var n 0)(tx wait (k) (if (eq n k) (skip) (retry)) n)(tx give (k) (set n k) n)\
    (run wait 1 4)(run wait 2 9)(run give 1 9)";

/// A task after which another one waits for ever.
pub(crate) const STUCK: &str =
    "(var x -1)(tx no (if (lt x 0) (throw 4) (retry)) 0)(tx up (set x 2) x)(run no 1)(run up 1)";

const COUNTED: &str = "(tx a (skip) 0)(tx b (skip) 0)(tx c (skip) 0)(run c 2)(run a 1)(run c 3)";

const ROWS: &[(&str, &str, Asked)] = &[
    (
        "no more states are seen than are asked for: none",
        INCREMENT,
        Asked::Explored(0, Seen::More),
    ),
    (
        "no more states are seen than are asked for: one",
        INCREMENT,
        Asked::Explored(1, Seen::More),
    ),
    (
        "no more states are seen than are asked for: two",
        INCREMENT,
        Asked::Explored(2, Seen::More),
    ),
    (
        "three states are seen, and one end",
        INCREMENT,
        Asked::Explored(3, Seen::States(3, &[7], &[0])),
    ),
    (
        "as many tasks as there may be are explored",
        "(tx t (skip) 0)(run t 65536)",
        Asked::Explored(1_000_000, Seen::States(65537, &[], &[0])),
    ),
    (
        "the outcomes of each transaction are told",
        PAYERS,
        Asked::Explored(1_000_000, Seen::Payers),
    ),
    (
        "the way to where two wait is told",
        FORKS,
        Asked::Way(1, Some(&[InstanceId(0), InstanceId(2)])),
    ),
    ("there is no third end", FORKS, Asked::Way(2, None)),
    (
        "tasks are counted by instance",
        COUNTED,
        Asked::Counts(&[1, 5]),
    ),
    (
        "instances stand by transaction and then by first task",
        ADDERS,
        Asked::Numbered(
            &[(0, 7), (1, 1), (1, 5)],
            3,
            &[
                InstanceId(1),
                InstanceId(1),
                InstanceId(2),
                InstanceId(0),
                InstanceId(1),
            ],
            InstanceId(1),
        ),
    ),
    (
        "the way to where it shows names the instance",
        WAITERS,
        Asked::Sighted(9, true),
    ),
    (
        "no way leads to what never shows",
        WAITERS,
        Asked::Sighted(4, false),
    ),
    ("no graph has no state", STUCK, Asked::Drawn(0, false)),
    ("a graph has more than three", STUCK, Asked::Drawn(3, false)),
    (
        "the turns of each state are listed",
        STUCK,
        Asked::Drawn(4, true),
    ),
];

/// Whether this is answered of the catalogue.
fn is_answered(alloc: Global, catalogue: &Catalogue, asked: &Asked) -> bool {
    match asked {
        Asked::Explored(limit, seen) => is_explored(alloc, catalogue, *limit, seen),
        Asked::Drawn(limit, fits) => is_drawn(alloc, catalogue, *limit, *fits),
        Asked::Way(end, way) => is_way(alloc, catalogue, *end, *way),
        Asked::Sighted(value, somewhere) => is_sighted(alloc, catalogue, *value, *somewhere),
        Asked::Counts(counts) => are_counted(alloc, catalogue, counts),
        Asked::Numbered(calls, count, tasks, last) => {
            are_numbered(alloc, catalogue, calls, *count, tasks, *last)
        }
    }
}

/// Whether so it is of the file of this text.
fn is_answered_of(alloc: Global, text: &str, asked: &Asked) -> bool {
    match read_file(alloc, text.as_bytes()) {
        Ok(catalogue) => is_answered(alloc, &catalogue, asked),
        Err(_) => false,
    }
}

#[test]
fn files_are_searched(rt: HostRuntime) {
    for (what, text, asked) in ROWS {
        assert!(rt; is_answered_of(rt.alloc(), text, asked), "{what}");
    }
}
