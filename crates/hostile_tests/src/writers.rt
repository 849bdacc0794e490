//! Reports and texts of worlds, written to writers that take one byte at a call and fail at one.

use crate::one_byte::{OneByte, Place, Trouble};
use runner::{OpenGate, Options, Out, RunFault, run_bytes};
use std::alloc::Global;
use std::sync::Wait;
use std::thread::Threads;
use world_runner::world_bytes;

const BUFFER: &str =
    "(var full 0)(var cell 0)(tx get (seq (if (eq full 0) (retry) (skip)) (set full 0)) cell)\
    (tx put (seq (if (eq full 1) (retry) (skip)) (set cell 42) (set full 1)) 0)(run get 1)(run put 1)";

const REPORT: &str =
    "base 0\nfull 0 0\ncell 0 0\nentry 1 1 put returned 0\nentry 2 0 get returned 42\nnow 2\n\
    full 0 2\ncell 42 1\nend\n";

const SCHEDULE: &str = "begin 0\nread 0 full\nbegin 1\nread 1 full\ncommit 1\ncommit 0\n";

const SEEN: &str =
    "1 needs full\n2 ended retries\n3 needs full\n4 ended returned 0\n5 committed 1\n6 stale\nnow 1\n\
    full 1 1\ncell 42 1\nattempt 0 0 stale full 0\nattempt 1 0 committed 1 full 0\nend\n";

/// What is written.
#[derive(Clone, Copy)]
enum Text {
    Report,
    World,
}

impl Text {
    /// The whole text.
    fn whole(self) -> &'static str {
        match self {
            Text::Report => REPORT,
            Text::World => SEEN,
        }
    }
}

/// How a text ends: in a fault or in none, behind so many failed calls, so many writes and so many flushes.
type End = (Option<RunFault>, u64, usize, usize);

/// Whether with trouble at a place the text ends so, and exactly this beginning is out.
fn ends_so(
    rt: &(impl Threads + Wait + Sync),
    alloc: Global,
    text: Text,
    writer: OneByte,
    end: End,
    beginning: &[u8],
) -> bool {
    let mut out = Out::new(writer);
    let file = BUFFER.as_bytes();
    let written = match (text, Options::new(1, 8, 0)) {
        (Text::Report, Some(options)) => run_bytes(rt, alloc, file, options, &OpenGate, &mut out),
        _ => world_bytes(alloc, file, SCHEDULE.as_bytes(), &mut out),
    };
    let failures = out.failures();
    let writer = out.into_inner();
    (written.err(), failures, writer.writes, writer.flushes) == end
        && writer.taken.as_slice() == beginning
}

/// Whether the text ends as it has to where trouble comes behind so many bytes: at a write, or at the flush behind all.
/// A flush takes nothing anyway, so with that trouble the whole text is out.
fn is_cut(
    rt: &(impl Threads + Wait + Sync),
    alloc: Global,
    text: Text,
    trouble: Trouble,
    taken: usize,
) -> bool {
    let bytes = text.whole().as_bytes();
    let Some(beginning) = bytes.get(..taken) else {
        return false;
    };
    let next = taken.saturating_add(1);
    let (place, end) = match trouble {
        _ if taken < bytes.len() => (Place::Write(next), (Some(RunFault::Output), 1, next, 0)),
        Trouble::TakesNothing => (Place::Flush, (None, 0, taken, 1)),
        _ => (Place::Flush, (Some(RunFault::Output), 1, taken, 1)),
    };
    let writer = OneByte::new(alloc, place, trouble);
    ends_so(rt, alloc, text, writer, end, beginning)
}

#[test]
fn a_text_is_cut_where_a_writer_fails(rt: HostRuntime) {
    for text in [Text::Report, Text::World] {
        for trouble in [
            Trouble::Fails,
            Trouble::IsInterrupted,
            Trouble::TakesNothing,
        ] {
            for taken in 0..=text.whole().len() {
                assert!(rt;
                    is_cut(&rt, rt.alloc(), text, trouble, taken),
                    "behind {taken}"
                );
            }
        }
    }
}
