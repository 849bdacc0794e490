//! How tasks are run by what their transactions weigh.

use std::alloc::Global;
use txn::weights::{Size, Weights, are_short, have_light, size_in, sizes_of};
use txn::{Catalogue, TxId};
use txn_text::read_file;

/// A transaction that only reads, in some 250 instructions, one that counts, and one that counts and weighs
/// some 1,500; many tasks of the first, and one of each other.
const THREE: &str =
    "(var x 5)(tx look (repeat 50 (if (lt x 0) (throw 1) (skip))) x)(tx inc (set x (add x 1)) x)\
    (tx far (seq (repeat 100 (if (lt x 0) (throw 1) (skip))) (set x (add x 1))) x)(run look 12)(run inc 1)(run far 1)";

/// These, and a transaction that waits, of which no task is run.
const FOUR: &str =
    "(var x 5)(tx look (repeat 50 (if (lt x 0) (throw 1) (skip))) x)(tx inc (set x (add x 1)) x)\
    (tx far (seq (repeat 100 (if (lt x 0) (throw 1) (skip))) (set x (add x 1))) x)(tx wait (retry) 0)\
    (run look 12)(run inc 1)(run far 1)";

/// From these on the first is light, and the last is long.
const BETWEEN: Weights = Weights {
    light: 60,
    long: 1_000,
};

/// What is so, a file, weights, the sizes of the first three and of one that is not there, whether some tasks are
/// light, and whether all are short.
type Row = (
    &'static str,
    &'static str,
    Weights,
    &'static [u8; 4],
    bool,
    bool,
);

const ROWS: &[Row] = &[
    (
        "short tasks between light ones are held",
        THREE,
        BETWEEN,
        b"ihll",
        true,
        false,
    ),
    (
        "where a task may wait none is held",
        FOUR,
        BETWEEN,
        b"isll",
        true,
        false,
    ),
    (
        "all are short where none is tried",
        THREE,
        Weights::NONE,
        b"sssl",
        false,
        true,
    ),
    (
        "all are long where each is tried",
        THREE,
        Weights::EACH,
        b"llll",
        false,
        false,
    ),
];

fn letter_of(size: Size) -> u8 {
    match size {
        Size::Short(_) => b's',
        Size::Held(_) => b'h',
        Size::Light(_) => b'i',
        Size::Long => b'l',
    }
}

/// Whether the sizes of these transactions are told so.
fn are_told(sizes: &[Size], letters: &[u8; 4]) -> bool {
    for (tx, letter) in [0, 1, 2, 9].into_iter().zip(*letters) {
        if letter_of(size_in(sizes, TxId(tx))) != letter {
            return false;
        }
    }
    true
}

/// Whether the tasks of the catalogue have these sizes.
fn have(
    alloc: Global,
    catalogue: &Catalogue,
    weights: Weights,
    letters: &[u8; 4],
    light: bool,
    short: bool,
) -> bool {
    match sizes_of(alloc, catalogue, weights) {
        Ok(sizes) => {
            are_told(sizes.as_slice(), letters)
                && have_light(sizes.as_slice()) == light
                && are_short(sizes.as_slice(), catalogue.runs()) == short
        }
        Err(_) => false,
    }
}

/// Whether so they have in the file of this text.
fn have_in(
    alloc: Global,
    text: &str,
    weights: Weights,
    letters: &[u8; 4],
    light: bool,
    short: bool,
) -> bool {
    match read_file(alloc, text.as_bytes()) {
        Ok(catalogue) => have(alloc, &catalogue, weights, letters, light, short),
        Err(_) => false,
    }
}

#[test]
fn tasks_have_their_sizes(rt: HostRuntime) {
    for &(what, text, weights, letters, light, short) in ROWS {
        assert!(rt;
            have_in(rt.alloc(), text, weights, letters, light, short),
            "{what}"
        );
    }
}
