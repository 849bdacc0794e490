//! How much is read of what has more than the limit.

use commands::reading::{read_file_up_to, read_up_to};
use std::alloc::Global;
use std::cell::Cell;
use std::io::{self, Read};

/// A reader of these bytes, which are handed out in pieces of this length, and of so many spaces behind them, of which
/// it counts those that it hands out.
#[derive(Drop)]
struct Spaces<'a> {
    front: &'a [u8],
    piece: usize,
    left: usize,
    handed: &'a Cell<usize>,
}

impl Read for Spaces<'_> {
    fn read(&mut self, buf: &mut [u8]) -> io::Result<usize> {
        if self.front.is_empty() {
            let count = buf.len().min(self.left);
            buf[..count].fill(b' ');
            self.left -= count;
            self.handed.set(self.handed.get().saturating_add(count));
            return Ok(count);
        }
        let count = buf.len().min(self.front.len()).min(self.piece);
        buf[..count].copy_from_slice(&self.front[..count]);
        self.front = &self.front[count..];
        Ok(count)
    }
}

/// Whether of what begins so and then has so many spaces so many of these are read, and no more are taken: up to this
/// limit, or else up to that of the file that it is.
fn is_read(
    alloc: Global,
    front: &[u8],
    piece: usize,
    left: usize,
    limit: Option<u32>,
    count: usize,
) -> bool {
    let handed = Cell::new(0);
    let input = Spaces {
        front,
        piece,
        left,
        handed: &handed,
    };
    let read = match limit {
        Some(limit) => read_up_to(alloc, input, limit as usize),
        None => read_file_up_to(alloc, input),
    };
    let size = match read {
        Ok(bytes) => Some(bytes.len()),
        Err(_) => None,
    };
    size == Some(front.len().saturating_add(count)) && handed.get() == count
}

/// One byte past the limit is read, and no more, of a file, a schedule or a report.
#[test]
fn one_byte_past_the_limit_is_read(rt: HostRuntime) {
    for limit in [0u32, 1, 1_048_576, 8_388_608] {
        for (more, beyond) in [(0, 0), (1, 1), (5, 1)] {
            let size = (limit as usize).saturating_add(more);
            let count = (limit as usize).saturating_add(beyond);
            assert!(rt;
                is_read(rt.alloc(), b"", 1, size, Some(limit), count),
                "of {size}"
            );
        }
    }
}

/// How a file begins, and how many bytes it has at most.
const BEGUN: &[(&[u8], usize)] = &[
    (b"", 1_048_576),
    (b"(stm 2)", 1_048_576),
    (b"(stm 3", 1_048_576),
    (b"(stm  3)", 1_048_576),
    (b" (stm 3)", 1_048_576),
    (b"(stm 3)", 67_108_864),
    (b"(stm 3)(table a 2 0)", 67_108_864),
];

#[test]
fn one_byte_past_the_limit_of_a_file_is_read(rt: HostRuntime) {
    for &(front, limit) in BEGUN {
        let most = limit.saturating_sub(front.len()).saturating_add(1);
        for (piece, size, count) in [
            (1, 0, 0),
            (1, 100, 100),
            (3, 0, 0),
            (3, 100, 100),
            (1000, 0, 0),
            (1000, 100, 100),
            (2, most.saturating_add(5), most),
        ] {
            assert!(rt;
                is_read(rt.alloc(), front, piece, size, None, count),
                "of {size}"
            );
        }
    }
}
