//! An attempt ends as the plain evaluation does.

use crate::parts::catalogue;
use attempt::{Attempt, Next};
use checker::evaluating::execute;
use std::alloc::Global;
use txn::{Catalogue, Outcome, TaskId};

const FIRST: TaskId = TaskId(0);

/// The answer that tells an outcome.
fn told(outcome: Outcome) -> Next {
    match outcome {
        Outcome::Returned(v) => Next::Returned(v),
        Outcome::Thrown(f) => Next::Thrown(f),
        Outcome::Retries => Next::Retry,
    }
}

/// How the attempt ends, which is told the state's values.
fn driven(attempt: &mut Attempt<'_>, state: &[i64]) -> Next {
    for _variable in 0..state.len() {
        let Next::Need(x) = attempt.advance() else {
            break;
        };
        match state.get(x.0 as usize) {
            Some(v) if attempt.supply(x, *v).is_ok() => {}
            _ => return Next::Memory,
        }
    }
    attempt.advance()
}

/// The state with the writes of an attempt stored in it.
fn with_writes(state: &mut [i64], attempt: &Attempt<'_>) {
    for (x, v) in attempt.writes() {
        if let Some(place) = state.get_mut(x.0 as usize) {
            *place = *v;
        }
    }
}

/// How an attempt of the first task ends in a state, where its writes are stored then.
fn attempt_ends(alloc: Global, catalogue: &Catalogue, state: &mut [i64]) -> Option<Next> {
    if catalogue.tasks() == 0 {
        return None;
    }
    let tx = catalogue.task_tx(FIRST);
    let mut attempt = Attempt::new(alloc, catalogue, tx, catalogue.task_arguments(FIRST));
    let next = driven(&mut attempt, state);
    with_writes(state, &attempt);
    Some(next)
}

/// Whether the plain evaluation of it ends so in this state of two variables, and leaves that of the other.
fn is_plain(
    alloc: Global,
    catalogue: &Catalogue,
    state: &mut Vec<i64>,
    next: Next,
    after: &[i64],
) -> bool {
    if catalogue.tasks() == 0 || catalogue.initial().len() != state.len() {
        return false;
    }
    let tx = catalogue.task_tx(FIRST);
    match execute(catalogue, FIRST, tx, state, &mut Vec::new(alloc)) {
        Ok(plain) => told(plain) == next && state.as_slice() == after,
        Err(_) => false,
    }
}

/// Whether an attempt of the first task ends as the plain evaluation, in the state after it.
fn is_alike(alloc: Global, catalogue: &Catalogue, x: i64, y: i64) -> bool {
    let mut stored = [x, y];
    let Some(next) = attempt_ends(alloc, catalogue, &mut stored) else {
        return false;
    };
    match vec![in alloc; x, y] {
        Ok(mut state) => is_plain(alloc, catalogue, &mut state, next, &stored),
        Err(_) => false,
    }
}

/// Some states of x and y.
const STATES: &[(i64, i64)] = &[
    (0, 0),
    (1, -1),
    (5, 0),
    (-7, 2),
    (i64::MAX, 1),
    (i64::MIN, -1),
];

/// Whether it is so from each of them.
fn are_alike(alloc: Global, text: &str) -> bool {
    let Some(catalogue) = catalogue(alloc, text) else {
        return false;
    };
    for (x, y) in STATES {
        if !is_alike(alloc, &catalogue, *x, *y) {
            return false;
        }
    }
    true
}

const TEXTS: &[&str] = &[
    // Conditions are tested as in the plain evaluation.
    "(stm 2)(var x 0)(var y 0)(always a (le x 3))(tx t (set x (add x 1)) x)(run t 1)",
    "(stm 2)(var x 1)(var y 0)(always a (eq 0 (rem y x)))(tx t (skip) 4)(run t 1)",
    "(stm 2)(var x 0)(var y 0)(always a (le x 0))(always b (le 0 (add x y)))(tx t (set y 1) y)(run t 1)",
    // Each kind of end.
    "(var x 0)(var y 0)(tx t (skip) 4)(run t 1)",
    "(var x 0)(var y 0)(tx t (set x (add x 1)) (add x y))(run t 1)",
    "(var x 0)(var y 0)(tx t (throw x) 0)(run t 1)",
    "(var x 0)(var y 0)(tx t (if (eq x 0) (retry) (set y x)) y)(run t 1)",
    // Branches and loops.
    "(var x 0)(var y 0)(tx t (orelse (seq (set x 1) (retry)) (skip)) x)(run t 1)",
    "(var x 0)(var y 0)(tx t (orelse (set x (add x 1)) (skip)) x)(run t 1)",
    "(var x 0)(var y 0)(tx t (orelse (throw y) (skip)) x)(run t 1)",
    "(var x 0)(var y 0)(tx t (repeat 3 (set x (add x 1))) x)(run t 1)",
    // Quotients, products and differences.
    "(var x 0)(var y 0)(tx t (skip) (div x y))(run t 1)",
    "(var x 0)(var y 0)(tx t (skip) (rem x y))(run t 1)",
    "(var x 0)(var y 0)(tx t (skip) (mul x y))(run t 1)",
    "(var x 0)(var y 0)(tx t (skip) (sub x y))(run t 1)",
    // What is fused, with results that fit and results that do not.
    "(var x 0)(var y 0)(tx t (set y (add x 3)) (sub y x))(run t 1)",
    "(var x 0)(var y 0)(tx t (set y (sub x 3)) (add y x))(run t 1)",
    "(var x 0)(var y 0)(tx t (set x (add x 9223372036854775807)) x)(run t 1)",
    "(var x 0)(var y 0)(tx t (set x (sub x -9223372036854775808)) x)(run t 1)",
    "(var x 0)(var y 0)(tx t (skip) (add (mul x 1) 1))(run t 1)",
    "(var x 0)(var y 0)(tx t (skip) (sub (mul x 1) 1))(run t 1)",
    "(var x 0)(var y 0)(tx t (skip) (add (mul x 1) y))(run t 1)",
    "(var x 0)(var y 0)(tx t (skip) (sub (mul x 1) y))(run t 1)",
    "(var x 0)(var y 0)(tx t (orelse (seq (set x (add y 1)) (retry)) (set y (sub x 1))) y)(run t 1)",
    "(var x 0)(var y 0)(tx t (if (eq x 1) (set y 7) (set y 8)) y)(run t 1)",
    "(var x 0)(var y 0)(tx t (if (lt x 1) (set y 7) (set y 8)) y)(run t 1)",
    "(var x 0)(var y 0)(tx t (if (le x 1) (set y 7) (set y 8)) y)(run t 1)",
    // A fault of a fused instruction in a condition is named as any other.
    "(stm 2)(var x 0)(var y 0)(always a (le 0 (add (mul x 1) 1)))(tx t (skip) 4)(run t 1)",
    "(stm 2)(var x 0)(var y 0)(always a (le (sub (mul x 1) 1) 8))(tx t (skip) 4)(run t 1)",
    "(stm 2)(var x 0)(var y 0)(always b (eq y y))(always a (le 0 (add (mul x 1) y)))(tx t (skip) 4)(run t 1)",
    "(stm 2)(var x 0)(var y 0)(always b (eq y y))(always a (le 0 (sub (mul x 1) y)))(tx t (skip) 4)(run t 1)",
];

#[test]
fn attempts_end_as_the_plain_evaluation(rt: HostRuntime) {
    for text in TEXTS {
        assert!(rt; are_alike(rt.alloc(), text), "of {text}");
    }
}
