//! Writes that take no memory. Both tests do the same, but that one of them writes two variables in turn
//! 50,949 times in a first branch, and the other once: `hostile/all` counts that they make as many
//! requests for memory.

use crate::parts::{X, Y};
use crate::play::{Step, first_wrong_in};
use attempt::Next;
use std::alloc::Global;
use std::process::Abort;

/// The branch writes both once.
const ONCE: &str =
    "(var x 5)(var y 5)(tx t (orelse (repeat 1 (repeat 1 (seq (set x 1) (set y 2)))) (skip)) x)";

const IS_DONE: &[Step] = &[
    Step::Advance(Next::Returned(1), 9),
    Step::Writes(&[(X, 1), (Y, 2)]),
];

/// The branch writes both 50,949 times.
const OFTEN: &str =
    "(var x 5)(var y 5)(tx t (orelse (repeat 999 (repeat 51 (seq (set x 1) (set y 2)))) (skip)) x)";

const IS_DONE_OFTEN: &[Step] = &[
    Step::Advance(Next::Returned(1), 255747),
    Step::Writes(&[(X, 1), (Y, 2)]),
];

fn plays(rt: &(impl Abort + Eprint), alloc: Global, text: &str, steps: &[Step]) {
    assert_eq!(rt; first_wrong_in(alloc, text, steps), None);
}

#[test]
fn stays(rt: HostRuntime) {
    plays(&rt, rt.alloc(), ONCE, IS_DONE);
}

#[test]
fn moves(rt: HostRuntime) {
    plays(&rt, rt.alloc(), OFTEN, IS_DONE_OFTEN);
}
