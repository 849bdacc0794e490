//! Schedules that are read.

use crate::parts::{PAIR, are_moves, catalogue};
use std::alloc::Global;
use txn::{Catalogue, Move, TaskId, VarId};

const X: VarId = VarId(0);

const Y: VarId = VarId(1);

const A: TaskId = TaskId(0);

const B: TaskId = TaskId(1);

/// Schedules of the pair, with their moves.
const SCHEDULES: &[(&[u8], &[Move])] = &[
    (b"", &[]),
    (
        b"begin 0\nread 0 x\nbegin 1\ncommit 1\nread 0 y\n",
        &[
            Move::Begin(A),
            Move::Read(A, X),
            Move::Begin(B),
            Move::Commit(B),
            Move::Read(A, Y),
        ],
    ),
    (
        b"begin 1\nask 1\nword\nbegin 0\nfirst 0 x\nword\nword\n",
        &[
            Move::Begin(B),
            Move::Ask(B),
            Move::Word,
            Move::Begin(A),
            Move::First(A, X),
            Move::Word,
            Move::Word,
        ],
    ),
    (
        b"word\ndrop 0\nbegin 0\nfirst 0 x\nvalue 0\nsecond 0\nbegin 1\n",
        &[
            Move::Word,
            Move::Drop(A),
            Move::Begin(A),
            Move::First(A, X),
            Move::Value(A),
            Move::Second(A),
            Move::Begin(B),
        ],
    ),
    (
        b"again 0\nmove 1\nagain 1\n",
        &[Move::Again(A), Move::Move(B), Move::Again(B)],
    ),
];

/// The first of them that is not read so, `None` where all are.
fn first_wrong(alloc: Global, catalogue: &Catalogue) -> Option<usize> {
    for place in 0..SCHEDULES.len() {
        let (text, wanted) = SCHEDULES[place];
        if !are_moves(alloc, catalogue, text, wanted) {
            return Some(place);
        }
    }
    None
}

#[test]
fn schedules_are_read(rt: HostRuntime) {
    match catalogue(rt.alloc(), PAIR) {
        Some(catalogue) => assert_eq!(rt; first_wrong(rt.alloc(), &catalogue), None),
        None => panic!(rt; "no catalogue"),
    }
}
