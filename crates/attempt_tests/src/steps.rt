//! How many nodes an evaluation enters, worked out by hand, for each kind of expression, condition
//! and statement. The programs read no variable, so one `advance` does all.

use crate::play::{Row, Step, first_wrong_row};
use std::alloc::Global;

/// 1 for the body, and what is entered of the expression: nothing after a fault.
const OPERATORS: &[Row] = &[
    ("(tx t (skip) 7)", &[Step::Enter(2)]),
    ("(tx t (skip) (add 1 2))", &[Step::Enter(4)]),
    ("(tx t (skip) (sub 1 2))", &[Step::Enter(4)]),
    ("(tx t (skip) (mul 1 2))", &[Step::Enter(4)]),
    ("(tx t (skip) (div 1 2))", &[Step::Enter(4)]),
    ("(tx t (skip) (rem 1 2))", &[Step::Enter(4)]),
    ("(tx t (skip) (div 1 0))", &[Step::Enter(4)]),
    ("(tx t (skip) (add (div 1 0) 2))", &[Step::Enter(5)]),
    ("(tx t (skip) (add 2 (div 1 0)))", &[Step::Enter(6)]),
    (
        "(tx t (skip) (add 9223372036854775807 1))",
        &[Step::Enter(4)],
    ),
    (
        "(tx t (skip) (sub -9223372036854775808 1))",
        &[Step::Enter(4)],
    ),
];

pub(crate) fn first_wrong_operator(alloc: Global) -> Option<(usize, usize)> {
    first_wrong_row(alloc, OPERATORS)
}

/// 3 more than the condition enters where it is yes, and 4 where it is no.
const CONDITIONS: &[Row] = &[
    (
        "(tx t (if (eq 1 1) (skip) (seq (skip))) 0)",
        &[Step::Enter(6)],
    ),
    (
        "(tx t (if (eq 2 1) (skip) (seq (skip))) 0)",
        &[Step::Enter(7)],
    ),
    (
        "(tx t (if (lt 2 1) (skip) (seq (skip))) 0)",
        &[Step::Enter(7)],
    ),
    (
        "(tx t (if (le 2 1) (skip) (seq (skip))) 0)",
        &[Step::Enter(7)],
    ),
    (
        "(tx t (if (not (eq 1 1)) (skip) (seq (skip))) 0)",
        &[Step::Enter(8)],
    ),
    (
        "(tx t (if (and (eq 1 1) (eq 1 1)) (skip) (seq (skip))) 0)",
        &[Step::Enter(10)],
    ),
    (
        "(tx t (if (and (eq 2 1) (eq 1 1)) (skip) (seq (skip))) 0)",
        &[Step::Enter(8)],
    ),
    (
        "(tx t (if (or (eq 1 1) (eq 1 1)) (skip) (seq (skip))) 0)",
        &[Step::Enter(7)],
    ),
    (
        "(tx t (if (or (eq 2 1) (eq 1 1)) (skip) (seq (skip))) 0)",
        &[Step::Enter(10)],
    ),
    (
        "(tx t (if (or (eq 2 1) (eq 2 1)) (skip) (seq (skip))) 0)",
        &[Step::Enter(11)],
    ),
];

pub(crate) fn first_wrong_condition(alloc: Global) -> Option<(usize, usize)> {
    first_wrong_row(alloc, CONDITIONS)
}

/// 1 more than the body enters where it is done, else what it enters.
const STATEMENTS: &[Row] = &[
    ("(tx t (skip) 0)", &[Step::Enter(2)]),
    ("(var x 0)(tx t (set x 1) 0)", &[Step::Enter(3)]),
    ("(tx t (retry) 0)", &[Step::Enter(1)]),
    ("(tx t (throw 1) 0)", &[Step::Enter(2)]),
    ("(tx t (seq) 0)", &[Step::Enter(2)]),
    ("(tx t (seq (skip) (skip)) 0)", &[Step::Enter(4)]),
    ("(tx t (seq (retry) (skip)) 0)", &[Step::Enter(2)]),
    ("(tx t (seq (throw 1) (skip)) 0)", &[Step::Enter(3)]),
    ("(tx t (orelse (skip) (skip)) 0)", &[Step::Enter(3)]),
    ("(tx t (orelse (retry) (skip)) 0)", &[Step::Enter(4)]),
    ("(tx t (orelse (retry) (retry)) 0)", &[Step::Enter(3)]),
    ("(tx t (repeat 0 (skip)) 0)", &[Step::Enter(2)]),
    ("(tx t (repeat 1 (skip)) 0)", &[Step::Enter(3)]),
    ("(tx t (repeat 1000 (skip)) 0)", &[Step::Enter(1002)]),
    ("(tx t (repeat 9 (throw 1)) 0)", &[Step::Enter(3)]),
];

pub(crate) fn first_wrong_statement(alloc: Global) -> Option<(usize, usize)> {
    first_wrong_row(alloc, STATEMENTS)
}
