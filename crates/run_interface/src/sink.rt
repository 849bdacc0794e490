//! Where bytes go.
//!
//! A `Sink` counts the calls that failed, so that a contract can say that a report was cut short
//! only because a write failed. `Out` is the sink over any writer. No write is tried again after
//! an error, an interruption included.

ghost use Rattle.std.specs.Prelude.{◌≡◌, ◌+◌, ◌≤◌, ℕ, Bool, true, false, List, Option, length, take, IfErr, IfOk, OnOk};
ghost use Rattle.std.specs.Prelude.{OnErr};
ghost use Rattle.std.specs.Io.KnownBytes.{WriteAppends, Keeps, Appends};
ghost use Rattle.run_interface.specs.Counts.{FewFailed, put_failures, flush_failures};
ghost use Rattle.run_interface.specs.Failures.{output_failures};
ghost use Rattle.run_interface.specs.declared.fault.RunFault.TheVariants as RunFault;

use crate::fault::RunFault;
use std::io::Write;
use std::marker::Model;

/// A write or a flush failed.
#[derive(Clone, Copy, Debug, PartialEq, Eq)]
pub struct SinkFault;

/// Where bytes go. At most 2^63 calls may fail.
pub trait Sink {
    /// The bytes taken so far, where they are known, as of a writer over memory.
    ghost bytes: { Self → Option (List ℕ) };

    /// How many calls failed: an `Err`, or a `put` of a piece that is not empty which took nothing.
    ghost failed: { Self → ℕ };

    /// Whether what was taken was sent on: no `put` came after the last `flush` that succeeded.
    ghost flushed: { Self → Bool };

    /// Takes a beginning of the piece, and tells how many bytes of it; nothing at an `Err`.
    fn put(&mut self, piece: &[u8]) -> Result<usize, SinkFault>
        requires { FewFailed (failed self.old) }
        ensures bound { IfOk result (λ n. n ≤ length piece.now) }
        ensures bytes { WriteAppends (bytes self.old) (bytes self.new) result piece.now }
        ensures failed { failed self.new ≡ failed self.old + put_failures result (length piece.now) }
        ensures flushed { flushed self.new ≡ false };

    /// Sends on what was taken.
    fn flush(&mut self) -> Result<(), SinkFault>
        requires { FewFailed (failed self.old) }
        ensures bytes { Keeps (bytes self.old) (bytes self.new) }
        ensures failed { failed self.new ≡ failed self.old + flush_failures result }
        ensures flushed { OnOk result (flushed self.new ≡ true) };
}

/// The sink over any writer: each call is one `write` or one `flush` of it.
#[derive(Drop)]
pub struct Out<W> {
    writer: W,
    failures: u64,
    flushed: bool,
}

impl<W> Model for Out<W> {
    ghost use Rattle.run_interface.specs.Outlet.{Outlet};

    ghost Value = { Outlet W };

    ghost view = { λ o. record { writer = o.writer; failures = o.failures; flushed = o.flushed } };
}

impl<W: Write> Out<W> {
    /// A sink of which no call failed yet, and none was a flush.
    pub fn new(writer: W) -> Out<W>
        ensures writer { result.writer ≡ writer }
        ensures none { result.failures ≡ 0 }
        ensures flushed { result.flushed ≡ false }
    {
        Out {
            writer,
            failures: 0,
            flushed: false,
        }
    }

    /// The writer.
    pub fn into_inner(self) -> W
        ensures { result ≡ self.writer }
    {
        let Out {
            writer,
            failures: _,
            flushed: _,
        } = self;
        writer
    }

    /// How many calls failed so far.
    pub fn failures(&self) -> u64
        ensures { result ≡ self.now.failures }
    {
        let Out { failures, .. } = self;
        *failures
    }

    /// Whether what was taken was sent on: no `put` came after the last `flush` that succeeded.
    pub fn is_flushed(&self) -> bool
        ensures { result ≡ self.now.flushed }
    {
        let Out { flushed, .. } = self;
        *flushed
    }
}

impl<W: Write> Sink for Out<W> {
    ghost bytes = { λ o. W.contents o.writer };

    ghost failed = { λ o. o.failures };

    ghost flushed = { λ o. o.flushed };

    fn put(&mut self, piece: &[u8]) -> Result<usize, SinkFault> {
        self.flushed = false;
        match self.writer.write(piece) {
            Ok(count) => {
                if count == 0 && !piece.is_empty() {
                    self.failures += 1;
                }
                Ok(count)
            }
            Err(_) => {
                self.failures += 1;
                Err(SinkFault)
            }
        }
    }

    fn flush(&mut self) -> Result<(), SinkFault> {
        match self.writer.flush() {
            Ok(()) => {
                self.flushed = true;
                Ok(())
            }
            Err(_) => {
                self.failures += 1;
                Err(SinkFault)
            }
        }
    }
}

/// Puts all bytes, and sends nothing on yet. At an `Err` a beginning of them was taken, and one call
/// failed.
pub fn put_bytes<S: Sink>(sink: &mut S, bytes: &[u8]) -> Result<(), SinkFault>
    requires { FewFailed (S.failed sink.old) }
    ensures all { OnOk result (Appends (S.bytes sink.old) (S.bytes sink.new) bytes.now) }
    ensures none_failed { OnOk result (S.failed sink.new ≡ S.failed sink.old) }
    ensures beginning { OnErr result ((n : ℕ) × Appends (S.bytes sink.old) (S.bytes sink.new) (take n bytes.now)) }
    ensures one_failed { OnErr result (S.failed sink.new ≡ S.failed sink.old + 1) }
{
    let mut rest = bytes;
    while !rest.is_empty() {
        let count = sink.put(rest)?;
        if count == 0 {
            return Err(SinkFault);
        }
        rest = &rest[count..];
    }
    Ok(())
}

/// Puts all bytes and flushes. At an `Err` a beginning of them was taken, and one call failed.
pub fn put_all<S: Sink>(sink: &mut S, bytes: &[u8]) -> Result<(), SinkFault>
    requires { FewFailed (S.failed sink.old) }
    ensures all { OnOk result (Appends (S.bytes sink.old) (S.bytes sink.new) bytes.now) }
    ensures flushed { OnOk result (S.flushed sink.new ≡ true) }
    ensures none_failed { OnOk result (S.failed sink.new ≡ S.failed sink.old) }
    ensures beginning { OnErr result ((n : ℕ) × Appends (S.bytes sink.old) (S.bytes sink.new) (take n bytes.now)) }
    ensures one_failed { OnErr result (S.failed sink.new ≡ S.failed sink.old + 1) }
{
    put_bytes(sink, bytes)?;
    match sink.flush() {
        Ok(()) => Ok(()),
        Err(fault) => Err(fault),
    }
}

/// Puts a text and flushes. `Output`: a call failed, the only one, and a beginning of the text was taken.
pub fn put_text<S: Sink>(sink: &mut S, text: &str) -> Result<(), RunFault>
    requires { FewFailed (S.failed sink.old) }
    ensures all { OnOk result (Appends (S.bytes sink.old) (S.bytes sink.new) text.now) }
    ensures flushed { OnOk result (S.flushed sink.new ≡ true) }
    ensures beginning { OnErr result ((n : ℕ) × Appends (S.bytes sink.old) (S.bytes sink.new) (take n text.now)) }
    ensures output { IfErr result (λ fault. fault ≡ RunFault.Output) }
    ensures failures { S.failed sink.new ≡ S.failed sink.old + output_failures result }
{
    match put_all(sink, text.as_bytes()) {
        Ok(()) => Ok(()),
        Err(_) => Err(RunFault::Output),
    }
}
