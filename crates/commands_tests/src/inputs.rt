//! Each command of what readers have, on its happy path. The texts are those that the pages of the commands
//! show.

use crate::program::{EMPTY, FILE, NEXT, REPORT, SCHEDULE};
use command_line::Answer;
use commands::chapters::{check_chapter_inputs, explain_chapter_inputs};
use commands::checking::check_inputs;
use commands::explaining::{explain_input, explain_on_inputs, explain_schedule_inputs};
use commands::exploring::{explore_input, witness_input};
use commands::graphing::graph_input;
use commands::playing::play_inputs;
use commands::printing::{print_input, print_on_inputs};
use commands::running::run_input;
use file_chains::Next;
use run_interface::{Denials, Limit, Options, Out};
use runner::OpenGate;
use std::alloc::Global;
use std::sync::Wait;
use std::thread::Threads;

const SEEN: &[u8] = b"1 needs x\n2 ended returned 6\n3 committed 1\nnow 1\nx 6 1\n\
    attempt 0 0 committed 1 x 5\nend\n";

const GRAPH: &[u8] =
    b"digraph {\n  node [shape=box]\n  1 [label=\"x 5\\n\"]\n  2 [label=\"x 6\\n\"]\n  \
    3 [label=\"x 7\\n\", peripheries=2]\n  1 -> 2 [label=\"inc\\nreturned 6\"]\n  \
    2 -> 3 [label=\"inc\\nreturned 7\"]\n}\n";

const FOUND: &[u8] = b"states 3\ntx inc returned\nends 1\n1 x 7\nend\n";

/// Whether a file is run with this checkpoint, to this report.
fn is_run(
    rt: &(impl Threads + Wait + Sync),
    alloc: Global,
    checkpoint: u32,
    report: &[u8],
) -> bool {
    let Some(options) = Options::new(1, 8, checkpoint) else {
        return false;
    };
    let mut out = Out::new(Vec::new(alloc));
    let answer = run_input(rt, alloc, FILE, options, &OpenGate, &mut out);
    out.into_inner().as_slice() == report && answer == Answer::Done
}

#[test]
fn a_file_is_run(rt: HostRuntime) {
    assert!(rt; is_run(&rt, rt.alloc(), 0, REPORT));
    assert!(rt; is_run(&rt, rt.alloc(), 2, b"base 2\nx 7 2\nnow 2\nx 7 2\nend\n"));
}

/// What is done with what readers have.
enum What {
    Check,
    CheckChapter,
    Play,
    Print,
    Again,
    Chapter,
    Explore,
    Witness,
    Graph,
    Explain,
    ExplainReport,
    ExplainChapter,
    ExplainSchedule,
}

/// Each command, and what it writes.
const WRITTEN: &[(What, &[u8])] = &[
    (What::Check, b"good\n"),
    (What::CheckChapter, b"good\n"),
    (What::Play, SEEN),
    (
        What::Print,
        b"(var x 5)\n(tx inc (set x (add x 1)) x)\n(run inc 2)\n",
    ),
    (
        What::Again,
        b"(var x 7)\n(tx inc (set x (add x 1)) x)\n(run inc 2)\n",
    ),
    (What::Chapter, NEXT),
    (What::Explore, FOUND),
    (What::Witness, REPORT),
    (What::Graph, GRAPH),
    (What::Explain, b"good\n"),
    (What::ExplainReport, b"good\n"),
    (What::ExplainChapter, b"good\n"),
    (What::ExplainSchedule, b"good\n"),
];

/// Whether this is done and written.
fn is_done<R: Eprint + AllocGlobal>(rt: &R, what: &What, limit: Limit, text: &[u8]) -> bool {
    let alloc = rt.alloc();
    let mut out = Out::new(Vec::new(alloc));
    let answer = match what {
        What::Check => check_inputs(alloc, FILE, REPORT, &mut out),
        What::CheckChapter => check_chapter_inputs(alloc, NEXT, EMPTY, FILE, REPORT, &mut out),
        What::Play => play_inputs(alloc, FILE, SCHEDULE, &mut out),
        What::Print => print_input(alloc, FILE, &mut out),
        What::Again => print_on_inputs(alloc, FILE, REPORT, Next::Again, &mut out),
        What::Chapter => print_on_inputs(alloc, FILE, REPORT, Next::Chapter, &mut out),
        What::Explore => explore_input(rt, FILE, limit, Denials::none(), &mut out),
        What::Witness => witness_input(rt, FILE, limit, 0, &mut out),
        What::Graph => graph_input(alloc, FILE, limit, &mut out),
        What::Explain => explain_input(alloc, FILE, &mut out),
        What::ExplainReport => explain_on_inputs(alloc, FILE, REPORT, &mut out),
        What::ExplainChapter => explain_chapter_inputs(alloc, NEXT, EMPTY, FILE, REPORT, &mut out),
        What::ExplainSchedule => explain_schedule_inputs(alloc, FILE, SCHEDULE, &mut out),
    };
    out.into_inner().as_slice() == text && answer == Answer::Done
}

#[test]
fn each_command_of_what_readers_have_is_done(rt: HostRuntime) {
    let Some(limit) = Limit::new(10) else {
        panic!(rt; "no limit")
    };
    for (what, text) in WRITTEN {
        assert!(rt; is_done(&rt, what, limit, text));
    }
}
