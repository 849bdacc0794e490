//! What the steps of a transaction make of it: values worked out by hand.

use crate::parts::catalogue;
use std::alloc::Global;
use txn::limits::MAX_VALUES;
use txn::{AlwaysId, Catalogue, Fault, Outcome, TxId};
use txn_registers::registers::{compile, execute};
use txn_registers::standing::compile_conditions;

/// Whether the steps of the first transaction end so from the initial state, and leave this state.
fn ends_so(
    alloc: Global,
    catalogue: &Catalogue,
    arguments: &[i64],
    want: Outcome,
    left: &[i64],
) -> bool {
    if catalogue.tx_count() == 0 {
        return false;
    }
    let Ok(mut state) = catalogue.initial().to_vec(alloc) else {
        return false;
    };
    if state.len() > MAX_VALUES {
        return false;
    }
    let tx = catalogue.tx(TxId(0));
    let Ok(mut steps) = compile(alloc, tx) else {
        return false;
    };
    let Ok(mut tests) = compile_conditions(alloc, catalogue.always()) else {
        return false;
    };
    let mut notes = Vec::new(alloc);
    let ended = execute(
        &mut steps,
        &mut tests,
        arguments,
        tx,
        catalogue.always(),
        state.as_mut_slice(),
        &mut notes,
    );
    steps.fits && tests.fits && ended.ok() == Some(want) && state.as_slice() == left
}

/// Whether those of the text's first transaction do.
fn is_run(alloc: Global, text: &str, arguments: &[i64], want: Outcome, left: &[i64]) -> bool {
    match catalogue(alloc, text) {
        Some(catalogue) => ends_so(alloc, &catalogue, arguments, want, left),
        None => false,
    }
}

/// Transactions of x, which is 5.
const RUNS: &[(&str, Outcome, i64)] = &[
    ("(tx t (set x (add x 1)) x)", Outcome::Returned(6), 6),
    (
        "(tx t (seq (set x (mul x 3)) (set x (sub x 2))) (rem (div x 2) 4))",
        Outcome::Returned(2),
        13,
    ),
    ("(tx t (orelse (retry) (retry)) x)", Outcome::Retries, 5),
    (
        "(tx t (orelse (throw 7) (set x 1)) x)",
        Outcome::Thrown(Fault::User(7)),
        5,
    ),
    (
        "(tx t (orelse (seq (set x 9) (retry)) (skip)) x)",
        Outcome::Returned(5),
        5,
    ),
    (
        "(tx t (orelse (seq (set x 6) (orelse (seq (set x 7) (retry)) (retry))) (set x (add x 3))) x)",
        Outcome::Returned(8),
        8,
    ),
    (
        "(tx t (repeat 4 (set x (add x x))) x)",
        Outcome::Returned(80),
        80,
    ),
    (
        "(tx t (repeat 3 (repeat 2 (set x (add x 1)))) x)",
        Outcome::Returned(11),
        11,
    ),
    ("(tx t (repeat 0 (set x 0)) x)", Outcome::Returned(5), 5),
    (
        "(tx t (if (and (lt 4 x) (not (le 6 x))) (set x 1) (set x 2)) x)",
        Outcome::Returned(1),
        1,
    ),
    (
        "(tx t (if (or (eq x 6) (lt x 5)) (set x 1) (set x 2)) x)",
        Outcome::Returned(2),
        2,
    ),
    (
        "(tx t (set x 1) (div x 0))",
        Outcome::Thrown(Fault::DivideByZero),
        5,
    ),
    (
        "(tx t (set x 9223372036854775807) (add x 1))",
        Outcome::Thrown(Fault::Overflow),
        5,
    ),
];

#[test]
fn steps_end_and_leave_a_state(rt: HostRuntime) {
    for (text, want, left) in RUNS {
        let Ok(whole) = format!(in rt.alloc(); "(var x 5){text}") else {
            continue;
        };
        assert!(rt;
            is_run(rt.alloc(), whole.as_str(), &[], *want, &[*left]),
            "of {text}"
        );
    }
}

/// A bank of three accounts, whose first never falls below 10.
const BANK: &str = "(stm 3)(table acct 3 100)(always least (le 10 (at acct 0)))(tx pay (from to n) \
    (seq (if (lt (at acct from) n) (throw n) (skip)) (put acct from (sub (at acct from) n)) \
    (put acct to (add (at acct to) n))) (add (at acct from) (sum acct)))";

/// Payments: arguments, and what comes of them.
const PAYMENTS: &[([i64; 3], Outcome, [i64; 3])] = &[
    (
        [0, 1, 95],
        Outcome::Thrown(Fault::Broken(AlwaysId(0))),
        [100, 100, 100],
    ),
    ([0, 1, 60], Outcome::Returned(340), [40, 160, 100]),
    ([1, 1, 60], Outcome::Returned(400), [100, 100, 100]),
    (
        [0, 1, 101],
        Outcome::Thrown(Fault::User(101)),
        [100, 100, 100],
    ),
    ([0, 3, 1], Outcome::Thrown(Fault::Outside), [100, 100, 100]),
    ([-1, 0, 1], Outcome::Thrown(Fault::Outside), [100, 100, 100]),
];

#[test]
fn payments_end_as_they_should(rt: HostRuntime) {
    for (arguments, want, left) in PAYMENTS {
        assert!(rt; is_run(rt.alloc(), BANK, arguments, *want, left));
    }
}
