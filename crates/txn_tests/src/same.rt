//! Equality of catalogues: two that were built apart are the same, and one difference anywhere tells.

ghost use Rattle.std.specs.Prelude.{◌≡◌, []};

use crate::parts::catalogue;
use std::alloc::Global;
use txn::{Arguments, Call, Catalogue, TxId};

const FIRST: &str = "(var x 5)(tx t (if (eq 0 0) (skip) (seq (retry) (retry))) 7)(run t 3)";

const SMALL: &str = "(stm 2)(var x 5)(always small (le x 5))";

const WHOLE: &str =
    "(stm 2)(var x 5)(var y -1)(always low (le x (add y 9)))(tx t (if (and (lt x 7) (not (eq y 0))) (orelse (seq \
        (set x (mul x 2)) (retry)) (throw (div x 3))) (repeat 4 (set y (rem y 2)))) (sub x y))(tx u (skip) 1)(run t 2)";

/// The same with two runs more.
const LONGER: &str =
    "(stm 2)(var x 5)(var y -1)(always low (le x (add y 9)))(tx t (if (and (lt x 7) (not (eq y 0))) (orelse (seq \
        (set x (mul x 2)) (retry)) (throw (div x 3))) (repeat 4 (set y (rem y 2)))) (sub x y))(tx u (skip) 1)(run \
        t 2)(run u 1)(run t 1)";

/// Of two parameters and two arguments.
const CALLED: &str = "(stm 3)(var x 5)(tx t (a b) (set x a) b)(run t 1 6 7)";

/// As many tasks as there may be but for one.
const FULL: &str = "(tx t (skip) 0)(run t 65535)";

/// How two catalogues are compared.
#[derive(Clone, Copy)]
enum How {
    Whole,
    ButRuns,
    /// The first is grown by a task of its second transaction and one of its first.
    GrownByTwo,
    /// The first is grown by a task of its first transaction, and then as long as the second.
    GrownByOne,
}

/// Each has two texts, and whether their catalogues are the same.
const ROWS: &[(How, &str, &str, bool)] = &[
    (How::Whole, FIRST, FIRST, true),
    (
        How::Whole,
        FIRST,
        "(var y 5)(tx t (if (eq 0 0) (skip) (seq (retry) (retry))) 7)(run t 3)",
        false,
    ),
    (
        How::Whole,
        FIRST,
        "(var x 6)(tx t (if (eq 0 0) (skip) (seq (retry) (retry))) 7)(run t 3)",
        false,
    ),
    (
        How::Whole,
        FIRST,
        "(var x 5)(tx t (if (eq 0 0) (skip) (seq (retry))) 7)(run t 3)",
        false,
    ),
    (
        How::Whole,
        FIRST,
        "(var x 5)(tx t (if (eq 0 0) (skip) (seq (retry) (retry) (retry))) 7)(run t 3)",
        false,
    ),
    (
        How::Whole,
        FIRST,
        "(var x 5)(tx t (if (eq 0 0) (skip) (seq (retry) (retry))) 8)(run t 3)",
        false,
    ),
    (
        How::Whole,
        FIRST,
        "(var x 5)(tx t (if (eq 0 0) (skip) (seq (retry) (retry))) 7)(run t 4)",
        false,
    ),
    (
        How::ButRuns,
        FIRST,
        "(var x 5)(tx t (if (eq 0 0) (skip) (seq (retry) (retry))) 7)(run t 4)(run t 1)",
        true,
    ),
    (
        How::ButRuns,
        FIRST,
        "(var x 6)(tx t (if (eq 0 0) (skip) (seq (retry) (retry))) 7)(run t 3)",
        false,
    ),
    (How::Whole, SMALL, SMALL, true),
    (
        How::Whole,
        SMALL,
        "(stm 2)(var x 5)(always small (le x 6))",
        false,
    ),
    (
        How::Whole,
        SMALL,
        "(stm 2)(var x 5)(always little (le x 5))",
        false,
    ),
    (How::Whole, CALLED, CALLED, true),
    (
        How::ButRuns,
        CALLED,
        "(stm 3)(var x 5)(tx t (a c) (set x a) c)(run t 1 6 7)",
        false,
    ),
    (
        How::ButRuns,
        CALLED,
        "(stm 3)(var x 5)(tx t (b a) (set x b) a)(run t 1 6 7)",
        false,
    ),
    (
        How::Whole,
        CALLED,
        "(stm 3)(var x 5)(tx t (a b) (set x a) b)(run t 1 6 8)",
        false,
    ),
    (How::GrownByTwo, WHOLE, LONGER, true),
    (How::GrownByTwo, WHOLE, WHOLE, false),
    (How::GrownByOne, FULL, "(tx t (skip) 0)(run t 65536)", true),
];

/// The call of the transaction with no arguments.
fn of(tx: TxId) -> Call
    ensures tx { result.tx ≡ tx }
    ensures none { result.arguments ≡ [] }
{
    Call {
        tx,
        arguments: Arguments::none(),
    }
}

/// Whether the catalogue, grown by a task of the second transaction and one of the first, is the other
/// one.
fn is_grown_by_two(alloc: Global, catalogue: &Catalogue, other: &Catalogue) -> Option<bool> {
    if !(catalogue.is_callable(TxId(0), &[]) && catalogue.is_callable(TxId(1), &[]))
        || catalogue.tasks() > 65534
    {
        return None;
    }
    match catalogue.grown(alloc, &[of(TxId(1)), of(TxId(0))]) {
        Ok(grown) => Some(grown.same(other)),
        Err(_) => None,
    }
}

/// Whether the catalogue, grown by a task of the first transaction, has as many tasks as the other.
fn is_grown_by_one(alloc: Global, catalogue: &Catalogue, other: &Catalogue) -> Option<bool> {
    if !catalogue.is_callable(TxId(0), &[]) || catalogue.tasks() > 65535 {
        return None;
    }
    match catalogue.grown(alloc, &[of(TxId(0))]) {
        Ok(grown) => Some(grown.tasks() == other.tasks()),
        Err(_) => None,
    }
}

/// Whether the catalogues are the same, `None` where memory is refused.
fn are_same(alloc: Global, how: How, first: &Catalogue, second: &Catalogue) -> Option<bool> {
    match how {
        How::Whole => Some(first.same(second)),
        How::ButRuns => Some(first.same_but_runs(second)),
        How::GrownByTwo => is_grown_by_two(alloc, first, second),
        How::GrownByOne => is_grown_by_one(alloc, first, second),
    }
}

/// Whether the catalogue and that of the text are, `None` where there is none.
fn is_same(alloc: Global, how: How, first: &Catalogue, text: &str) -> Option<bool> {
    match catalogue(alloc, text) {
        Some(second) => are_same(alloc, how, first, &second),
        None => None,
    }
}

/// Whether the catalogues of the texts are, `None` where there are none.
fn are_texts_same(alloc: Global, how: How, first: &str, second: &str) -> Option<bool> {
    match catalogue(alloc, first) {
        Some(first) => is_same(alloc, how, &first, second),
        None => None,
    }
}

#[test]
fn one_difference_anywhere_tells(rt: HostRuntime) {
    for place in 0..ROWS.len() {
        let (how, first, second, want) = ROWS[place];
        let found = are_texts_same(rt.alloc(), how, first, second);
        assert!(rt; found == Some(want), "row {place}");
    }
}
