//! Reports of which a byte was changed.

use crate::checked_parts::{BROKEN, DIVISION, FILE, REPORT, failed};
use std::alloc::Global;

/// Whether the report is lawful with its own byte at this place, and not with any other.
fn tells_changes_at(alloc: Global, file: &str, text: &mut [u8], place: usize) -> bool {
    let Some(before) = text.get(place).copied() else {
        return false;
    };
    for byte in 0..=255u8 {
        text[place] = byte;
        match failed(alloc, file, text) {
            Some(part) if (part == 0) == (byte == before) => {}
            _ => return false,
        }
    }
    text[place] = before;
    true
}

/// The first place at which another byte leaves the report lawful, `None` where there is none.
fn first_untold(alloc: Global, file: &str, text: &mut [u8]) -> Option<usize> {
    for place in 0..text.len() {
        if !tells_changes_at(alloc, file, text, place) {
            return Some(place);
        }
    }
    None
}

/// So it is of a report of the file.
fn first_untold_of(alloc: Global, file: &str, report: &str) -> Option<usize> {
    match report.as_bytes().to_vec(alloc) {
        Ok(mut text) => first_untold(alloc, file, &mut text),
        Err(_) => Some(0),
    }
}

#[test]
fn every_change_of_one_byte_is_found(rt: HostRuntime) {
    for (file, report) in [(FILE, REPORT), (DIVISION, BROKEN)] {
        assert_eq!(rt; first_untold_of(rt.alloc(), file, report), None);
    }
}
