//! What comes of a file of the second form, with a condition that has to stand, when a byte of it changes.

use crate::parts::file_fault;
use std::alloc::Global;
use txn_text::ReadFault;

/// A counter that stays below ten.
const COUNTER: &str =
    "(stm 2)(var x 5)(always low (le x 9))(tx inc (set x (add x 1)) x)(run inc 2)";

/// Whether the text is refused so with another byte at a place, where there is one.
fn is_refused(alloc: Global, text: &mut [u8], place: usize, byte: u8, want: ReadFault) -> bool {
    let Some(before) = text.get(place).copied() else {
        return false;
    };
    text[place] = byte;
    let fault = file_fault(alloc, text);
    text[place] = before;
    fault == Some(want)
}

/// A parenthesis in the place of another byte, or another byte in the place of one.
fn torn(byte: u8) -> u8 {
    if byte == b'(' || byte == b')' {
        b' '
    } else {
        b'('
    }
}

/// The first place where a tab, or a parenthesis that is gone or is one too many, is not told.
fn first_untold(alloc: Global, text: &mut [u8]) -> Option<usize> {
    for place in 0..text.len() {
        let other = torn(text[place]);
        if !is_refused(alloc, text, place, b'\t', ReadFault::BadByte)
            || !is_refused(alloc, text, place, other, ReadFault::Shape)
        {
            return Some(place);
        }
    }
    None
}

#[test]
fn changed_bytes_are_told(rt: HostRuntime) {
    match COUNTER.as_bytes().to_vec(rt.alloc()) {
        Ok(mut text) => assert_eq!(rt; first_untold(rt.alloc(), &mut text), None),
        Err(_) => panic!(rt; "no text"),
    }
}
