//! The own code of transactions, spelled out by hand.

use crate::getters::{Look, expect_all, expect_repeated};
use crate::parts::X;
use std::mem::size_of;
use txn::Op;

#[test]
fn an_instruction_has_16_bytes(rt: HostRuntime) {
    assert_eq!(rt; size_of::<Op>(), 16);
}

/// Files of one transaction, each with its code. A product and a quotient have no fused form, nor has
/// a number to the left.
const FUSED: &[(&str, &[Look])] = &[
    (
        "(var x 5)(tx t (set x (add x 1)) 0)",
        &[Look::Code(&[
            Op::StoreSum(3, 0, 0, 1),
            Op::SumInt(1, 1),
            Op::Sum(None),
            Op::Store(X),
            Op::Push(1, 0),
        ])],
    ),
    (
        "(var x 5)(tx t (set x (sub x 7)) 0)",
        &[Look::Code(&[
            Op::StoreDifference(3, 0, 0, 7),
            Op::DifferenceInt(1, 7),
            Op::Difference(None),
            Op::Store(X),
            Op::Push(1, 0),
        ])],
    ),
    (
        "(var x 5)(tx t (set x (sub (add x x) x)) 0)",
        &[Look::Code(&[
            Op::Load(4, X),
            Op::SumVar(1, X),
            Op::Sum(None),
            Op::DifferenceVar(1, X),
            Op::Difference(None),
            Op::Store(X),
            Op::Push(1, 0),
        ])],
    ),
    (
        "(var x 5)(tx t (set x (mul 2 x)) 0)",
        &[Look::Code(&[
            Op::Push(3, 2),
            Op::Load(1, X),
            Op::Product(None),
            Op::Store(X),
            Op::Push(1, 0),
        ])],
    ),
];

/// Sequences, branches, right sides and loops.
const PASSED: &[(&str, &[Look])] = &[
    (
        "(var x 5)(tx t (seq) 0)",
        &[Look::Code(&[Op::Nop(1), Op::Push(1, 0)])],
    ),
    (
        "(var x 5)(tx t (orelse (retry) (if (eq x 1) (skip) (throw x))) 0)",
        &[Look::Code(&[
            Op::Enter(1, 2),
            Op::Back(1),
            Op::Keep(8),
            Op::Load(3, X),
            Op::EqualInt(1, 1),
            Op::Equal,
            Op::Unless(2),
            Op::Nop(1),
            Op::Goto(2),
            Op::Load(2, X),
            Op::Toss,
            Op::Push(1, 0),
        ])],
    ),
    (
        "(var x 5)(tx t (repeat 3 (if (and (lt x 1) (le x 2)) (skip) (seq))) 0)",
        &[Look::Code(&[
            Op::Nop(1),
            Op::Begin(3, 12),
            Op::Load(4, X),
            Op::LessInt(1, 1),
            Op::Less,
            Op::AndTo(3),
            Op::Load(2, X),
            Op::AtMostInt(1, 2),
            Op::AtMost,
            Op::Unless(2),
            Op::Nop(1),
            Op::Goto(1),
            Op::Nop(1),
            Op::Again(11),
            Op::Push(1, 0),
        ])],
    ),
];

#[test]
fn transactions_have_their_code(rt: HostRuntime) {
    for rows in [FUSED, PASSED] {
        expect_all(&rt, rt.alloc(), rows);
    }
}

/// A transaction as deep as the limit allows: 63 instructions, of which the first is the deepest load.
const DEEPEST: &[(u32, &str)] = &[
    (1, "(var x 5)(tx t (set x "),
    (30, "(add "),
    (1, "x"),
    (30, " 1)"),
    (1, ") x)"),
];

#[test]
fn the_deepest_is_counted_at_its_first(rt: HostRuntime) {
    expect_repeated(
        &rt,
        rt.alloc(),
        DEEPEST,
        &[Look::Begins(63, Op::Load(32, X))],
    );
}
