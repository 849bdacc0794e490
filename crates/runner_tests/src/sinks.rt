//! Writers that fail once, are interrupted, or take little, and what a `run_interface` makes of them: nothing
//! is tried again after a failure.

use run_interface::{Out, RunFault, Sink, SinkFault, put_all, put_text};
use std::alloc::Global;
use std::io;
use std::io::{ErrorKind, Write};

/// A writer that fails so at its first call, and takes everything from then on.
#[derive(Drop)]
struct Once {
    kind: ErrorKind,
    calls: u32,
    taken: Vec<u8>,
}

impl Once {
    fn new(alloc: Global, kind: ErrorKind) -> Once {
        Once {
            kind,
            calls: 0,
            taken: Vec::new(alloc),
        }
    }

    fn call(&mut self) -> io::Result<()> {
        self.calls = self.calls.saturating_add(1);
        if self.calls == 1 {
            return Err(io::Error::from(self.kind));
        }
        Ok(())
    }
}

impl Write for Once {
    fn write(&mut self, piece: &[u8]) -> io::Result<usize> {
        self.call()?;
        self.taken.extend_from_slice(piece)?;
        Ok(piece.len())
    }

    fn flush(&mut self) -> io::Result<()> {
        self.call()
    }
}

/// Whether of the bytes nothing is written, by one call.
fn is_one_call(alloc: Global, kind: ErrorKind, bytes: &[u8]) -> bool {
    let mut out = Out::new(Once::new(alloc, kind));
    let put = put_all(&mut out, bytes);
    let told = (out.failures(), out.is_flushed());
    let once = out.into_inner();
    put == Err(SinkFault) && told == (1, false) && once.calls == 1 && once.taken.is_empty()
}

/// Whether of two puts of the text the first fails alone, and the second alone is written.
fn is_put_once(alloc: Global, kind: ErrorKind) -> bool {
    let mut out = Out::new(Once::new(alloc, kind));
    let first = out.put(b"text");
    let second = out.put(b"text");
    let failures = out.failures();
    let once = out.into_inner();
    (first, second) == (Err(SinkFault), Ok(4))
        && failures == 1
        && once.taken.as_slice() == b"text".as_slice()
}

#[test]
fn a_write_or_flush_that_fails_is_not_tried_again(rt: HostRuntime) {
    for kind in [ErrorKind::Other, ErrorKind::Interrupted] {
        assert!(rt;
            is_one_call(rt.alloc(), kind, b"text")
                && is_one_call(rt.alloc(), kind, b"")
                && is_put_once(rt.alloc(), kind)
        );
    }
}

/// A writer that takes one byte a call, until it has no room left.
#[derive(Drop)]
struct Short {
    room: usize,
    calls: u32,
}

impl Write for Short {
    fn write(&mut self, piece: &[u8]) -> io::Result<usize> {
        self.calls = self.calls.saturating_add(1);
        if piece.is_empty() || self.room == 0 {
            return Ok(0);
        }
        self.room -= 1;
        Ok(1)
    }

    fn flush(&mut self) -> io::Result<()> {
        Ok(())
    }
}

/// Whether four bytes where there is room for this many end so, by so many writes and failures.
fn are_put_so(room: usize, put: Result<(), SinkFault>, calls: u32, failures: u64) -> bool {
    let mut out = Out::new(Short { room, calls: 0 });
    let found = put_all(&mut out, b"text");
    let failed = out.failures();
    let short = out.into_inner();
    found == put && short.calls == calls && failed == failures
}

/// Whether a text of four bytes where there is room for this many is put so.
fn is_text_put(room: usize, put: Result<(), RunFault>) -> bool {
    let mut out = Out::new(Short { room, calls: 0 });
    let found = put_text(&mut out, "text");
    found == put && out.is_flushed() == put.is_ok()
}

#[test]
fn what_was_taken_is_not_written_again(rt: HostRuntime) {
    assert!(rt; are_put_so(4, Ok(()), 4, 0) && are_put_so(3, Err(SinkFault), 4, 1));
    assert!(rt; is_text_put(4, Ok(())) && is_text_put(3, Err(RunFault::Output)));
}
