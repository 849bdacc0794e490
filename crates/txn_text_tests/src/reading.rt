//! Texts that are refused, by each kind.

use crate::parts::{Kind, fault};
use std::alloc::Global;
use txn_text::{ReadFault, laws, text_is_laid_out};

/// A text of each kind of fault: of a file, of a report of the two increments, and of a schedule of the pair.
const FAULTS: &[(Kind, &[u8], ReadFault)] = &[
    (Kind::File, b"(var x \xc8", ReadFault::BadByte),
    (Kind::File, b"(var x", ReadFault::Shape),
    (Kind::File, b"(var x 1)(var x 1)", ReadFault::Name),
    (Kind::File, b"(var x 9223372036854775808)", ReadFault::Limit),
    (Kind::File, b"(stm 2)(always a (lt 0 0))", ReadFault::Broken),
    (Kind::Report, b"end\t", ReadFault::BadByte),
    (
        Kind::Report,
        b"base 00\nx 5 0\nnow 0\nx 5 0\nend\n",
        ReadFault::Shape,
    ),
    (
        Kind::Report,
        b"base 0\ny 5 0\nnow 0\nx 5 0\nend\n",
        ReadFault::Name,
    ),
    (
        Kind::Report,
        b"base 65537\nx 5 0\nnow 0\nx 5 0\nend\n",
        ReadFault::Limit,
    ),
    (Kind::Schedule, b"word\t", ReadFault::BadByte),
    (Kind::Schedule, b"begin 0", ReadFault::Shape),
    (Kind::Schedule, b"begin 2\nread 0 z\n", ReadFault::Name),
    (Kind::Schedule, b"begin 2\n", ReadFault::Limit),
];

/// The first of them that is not refused so, `None` where all are.
fn first_wrong(alloc: Global) -> Option<usize> {
    for place in 0..FAULTS.len() {
        let (kind, text, want) = &FAULTS[place];
        if fault(alloc, kind, text) != Some(*want) {
            return Some(place);
        }
    }
    None
}

#[test]
fn texts_are_refused_by_each_kind(rt: HostRuntime) {
    assert_eq!(rt; first_wrong(rt.alloc()), None);
}

/// Whether the fault is told so.
fn is_told(alloc: Global, fault: ReadFault, text: &str) -> bool {
    match fault.to_string(alloc) {
        Ok(told) => told.as_str() == text,
        Err(_) => false,
    }
}

const NAMES: &[(ReadFault, &str)] = &[
    (ReadFault::TooLong, "F1 TooLong"),
    (ReadFault::BadByte, "F2 BadByte"),
    (ReadFault::Shape, "F3 Shape"),
    (ReadFault::Name, "F4 Name"),
    (ReadFault::Limit, "F5 Limit"),
    (ReadFault::Memory, "F6 Memory"),
    (ReadFault::Broken, "F7 Broken"),
];

#[test]
fn faults_have_names(rt: HostRuntime) {
    for (fault, text) in NAMES {
        assert!(rt; is_told(rt.alloc(), *fault, text), "of {text}");
    }
}

#[test]
fn laws_can_be_called(_rt: HostRuntime) {
    laws::spells_one();
    laws::faults_where_none_is_spelled();
    laws::faults_are_first();
    laws::atoms_stand_apart();
    laws::tokens_are_all();
    laws::gaps_are_nothing();
    laws::comments_end_with_lines();
    text_is_laid_out();
}
