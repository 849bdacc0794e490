//! From bytes to bytes where memory is refused on the way: nothing is written, or what has to be.

use crate::counts::written;
use checker::{Verdict, check};
use runner::{OpenGate, Out, RunFault};
use std::alloc::Global;
use std::sync::Wait;
use std::thread::Threads;
use txn_text::ReadFault;
use world_runner::world_bytes;

/// More than any text here is long.
const SINK_ROOM: usize = 512;

const INCREMENTS: &str = "(var x 5)(tx inc (set x (add x 1)) x)(run inc 2)";

const RETRY: &str = "(tx t (orelse (retry) (retry)) 0)(run t 1)";

const BUFFER: &str =
    "(var full 0)(var cell 0)(tx get (seq (if (eq full 0) (retry) (skip)) (set full 0)) cell)\
    (tx put (seq (if (eq full 1) (retry) (skip)) (set cell 42) (set full 1)) 0)(run get 1)(run put 1)";

const MOVES: &str =
    "(stm 2)(var a 100)(var b 0)(always sum (eq (add a b) 100))(always pos (le 0 a))\
    (tx move (seq (set a (sub a 60)) (set b (add b 60))) a)(tx leak (set a 0) a)(run move 2)(run leak 1)";

const DIVISION: &str = "(stm 2)(var x 1)(always ok (le 0 (div 1 x)))(tx z (set x 0) x)(run z 1)";

const PAIR: &str = "(var x 1)(var y 1)(tx sum (skip) (add x y))\
    (tx both (seq (set x 2) (set y 2)) 0)(run sum 1)(run both 1)";

const SCHEDULE: &str =
    "begin 1\nask 1\nword\nbegin 0\nfirst 0 x\nword\nword\nword\nword\nword\nbegin 0\nread 0 x\n\
    first 0 y\nword\n";

const SEEN: &str =
    "1 ended returned 0\n2 commits 1\n3 stored\n4 needs x\n5 stale\n6 stored\n7 stored\n8 stored\n\
    9 stored\n10 stored\n11 needs x\n12 needs y\n13 stale\n14 committed 1\nnow 1\nx 2 1\ny 2 1\n\
    attempt 1 0 committed 1\nattempt 0 0 stale\nattempt 0 1 stale x 2\nend\n";

/// Whether the report of the file is good for part 0, or else bad by this part, or memory is refused.
fn is_judged(alloc: Global, file: &str, part: u8, report: &[u8]) -> bool {
    match check(alloc, file.as_bytes(), report) {
        Ok(Verdict::Good) => part == 0,
        Ok(Verdict::Bad(found)) => found.number() == part,
        Err(fault) => fault == ReadFault::Memory,
    }
}

/// Whether of a run of the file that is refused memory nothing is written, and of any other a good report.
fn is_good(rt: &(impl Threads + Wait + Sync), alloc: Global, file: &str) -> bool {
    let mut room = [0u8; SINK_ROOM];
    match written(rt, alloc, file, 8, &OpenGate, room.as_mut_slice()) {
        Some(0) => true,
        Some(count) => match room.get(..count) {
            Some(report) => is_judged(alloc, file, 0, report),
            None => false,
        },
        None => false,
    }
}

#[test]
fn a_run_writes_nothing_or_a_good_report(rt: HostRuntime) {
    for file in [INCREMENTS, RETRY, BUFFER, MOVES, DIVISION] {
        assert!(rt; is_good(&rt, rt.alloc(), file), "of {file}");
    }
}

/// Whether the lines are those of the whole text, up to the first that tells that memory ran out.
fn is_seen(lines: &[u8]) -> bool {
    let mut wanted = SEEN.as_bytes().split(|byte| *byte == b'\n');
    for line in lines.split(|byte| *byte == b'\n') {
        if line.ends_with(b" memory") {
            return true;
        }
        if wanted.next() != Some(line) {
            return false;
        }
    }
    wanted.next().is_none()
}

/// Reports of two increments, each with the part that it fails first, and 0 where it is lawful.
const VERDICTS: &[(u8, &str)] = &[
    (
        0,
        "base 0\nx 5 0\nentry 1 0 inc returned 6\nentry 2 1 inc returned 7\nnow 2\nx 7 2\nend\n",
    ),
    (
        1,
        "base 0\nx 5 0\nentry 1 0 inc returned 6\nentry 2 1 inc returned 7\nnow 2\nx 7 2\n",
    ),
    (
        2,
        "base 0\nx 4 0\nentry 1 0 inc returned 6\nentry 2 1 inc returned 7\nnow 2\nx 7 2\nend\n",
    ),
    (
        3,
        "base 0\nx 5 0\nentry 1 0 inc returned 6\nentry 2 1 inc returned 8\nnow 2\nx 7 2\nend\n",
    ),
    (
        4,
        "base 0\nx 5 0\nentry 1 0 inc returned 6\nentry 2 1 inc returned 7\nnow 2\nx 7 1\nend\n",
    ),
    (
        5,
        "base 0\nx 5 0\nentry 1 0 inc returned 6\nentry 2 0 inc returned 7\nnow 2\nx 7 2\nend\n",
    ),
    (
        6,
        "base 0\nx 5 0\nentry 1 0 inc returned 6\nnow 1\nx 6 1\nparked 1 inc\nend\n",
    ),
    (
        0,
        "base 0\nx 5 0\nentry 1 0 inc returned 6\nnow 1\nx 6 1\nmemory 1 inc\nend\n",
    ),
];

/// Reports of a condition that is broken, likewise.
const CONDITIONS: &[(u8, &str)] = &[
    (
        0,
        "base 0\nx 1 0\nentry 1 0 z broke ok\nnow 1\nx 1 0\nend\n",
    ),
    (
        1,
        "base 0\nx 1 0\nentry 1 0 z broke no\nnow 1\nx 1 0\nend\n",
    ),
    (2, "base 1\nx 0 1\nnow 1\nx 0 1\nend\n"),
];

#[test]
fn a_check_has_its_verdict_or_none(rt: HostRuntime) {
    for (file, reports) in [(INCREMENTS, VERDICTS), (DIVISION, CONDITIONS)] {
        for &(part, report) in reports {
            assert!(rt;
                is_judged(rt.alloc(), file, part, report.as_bytes()),
                "of {report}"
            );
        }
    }
}

/// Plays the schedule. Why nothing is shown, and how many bytes were written.
fn play(alloc: Global, room: &mut [u8]) -> (Option<RunFault>, usize) {
    let size = room.len();
    let mut out = Out::new(room);
    let played = world_bytes(alloc, PAIR.as_bytes(), SCHEDULE.as_bytes(), &mut out);
    (played.err(), size.saturating_sub(out.into_inner().len()))
}

/// Whether of a schedule that is refused memory nothing is written, and of any other what is seen.
fn shows_what_is_seen(alloc: Global) -> bool {
    let mut room = [0u8; SINK_ROOM];
    let (fault, count) = play(alloc, room.as_mut_slice());
    match fault {
        Some(fault) => fault == RunFault::Memory && count == 0,
        None => match room.get(..count) {
            Some(lines) => is_seen(lines),
            None => false,
        },
    }
}

#[test]
fn a_schedule_shows_nothing_or_what_is_seen(rt: HostRuntime) {
    assert!(rt; shows_what_is_seen(rt.alloc()));
}
