//! The arguments of a call, and when two calls are one.

use crate::parts::call;
use txn::limits::MAX_PARAMETERS;
use txn::{Arguments, Call, TxId};

/// As many as there may be.
const ALL: &[i64] = &[1, -2, 3, -4, 5, -6, 7, -8];

/// Each takes the place of those before it.
const IN_TURN: &[&[i64]] = &[&[], ALL, &[9, 0], &[], ALL];

/// Whether these are told, alone and in the place of others.
fn are_told(arguments: &mut Arguments, given: &[i64]) -> bool {
    if given.len() > MAX_PARAMETERS {
        return false;
    }
    arguments.set(given);
    let alone = Arguments::of(given);
    arguments.as_slice() == given && alone.as_slice() == given && *arguments == alone
}

#[test]
fn arguments_take_the_place_of_more(rt: HostRuntime) {
    let mut arguments = Arguments::none();
    assert!(rt; arguments.as_slice().is_empty() && arguments == Arguments::of(&[]));
    for given in IN_TURN {
        assert!(rt; are_told(&mut arguments, given));
    }
}

/// A call, and whether it is that of the second transaction with the arguments 5 and 0.
const CALLS: &[(TxId, &[i64], bool)] = &[
    (TxId(1), &[5, 0], true),
    (TxId(0), &[5, 0], false),
    (TxId(1), &[5, 1], false),
    (TxId(1), &[5], false),
    (TxId(1), &[5, 0, 0], false),
];

/// Whether a copy of the call has this transaction and these arguments, and the call is the other one as wanted.
fn compares(one: Call, other: Call, tx: TxId, arguments: &[i64], is_same: bool) -> bool {
    let copy = one;
    copy.tx == tx
        && copy.arguments.as_slice() == arguments
        && copy == one
        && (one == other) == is_same
}

#[test]
fn one_difference_between_calls_tells(rt: HostRuntime) {
    for &(tx, arguments, is_same) in CALLS {
        let first = call(TxId(1), &[5, 0]);
        assert!(rt; compares(call(tx, arguments), first, tx, arguments, is_same));
    }
}
