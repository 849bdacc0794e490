//! The program: words and files in, a report and a status out.

ghost use Rattle.std.specs.Prelude.{◌≡◌, ◌≤◌, ◌+◌, true};
ghost use Rattle.run_interface.specs.Counts.{FewFailed};
ghost use Rattle.commands.specs.Files.{failed_calls};
ghost use Rattle.commands.specs.Program.{Did, SawOrders};

use crate::checking::check_as;
use crate::explaining::explain_as;
use crate::exploring::{explore_file, witness_file};
use crate::finding::find_as;
use crate::graphing::graph_file;
use crate::playing::play_files;
use crate::printing::print_as;
use crate::running::run_file;
use command_line::{Answer, Orders, Request, asked, tell_unread, told, words_given};
use run_interface::{Out, Sink};
use runner::{Gate, OpenGate};
use std::io;
use std::rt::{Env, Files};
use std::sync::Wait;
use std::thread::Threads;

/// Does what the command line asks for, and tells the status to end with: `status` of what `answer_to` answers to the
/// request that the words make, or of why they make none. Threads come from the first runtime, and all else from the
/// second.
pub fn run<T: Threads + Wait + Sync, R: Files + Env + Print + Eprint + AllocGlobal>(
    threads: &T,
    rt: &R,
) -> u8
    ensures { result ≤ 5 }
{
    run_by(threads, rt, &OpenGate)
}

/// The same where the workers of `stm run` come by this gate, as a test holds one.
pub fn run_by<T: Threads + Wait + Sync, R: Files + Env + Print + Eprint + AllocGlobal, G: Gate>(
    threads: &T,
    rt: &R,
    gate: &G,
) -> u8
    ensures { result ≤ 5 }
{
    told(rt, answer(threads, rt, gate))
}

/// Does what the command line asks for.
fn answer<T: Threads + Wait + Sync, R: Files + Env + Print + Eprint + AllocGlobal, G: Gate>(
    threads: &T,
    rt: &R,
    gate: &G,
) -> Answer {
    let words = match words_given(rt) {
        Ok(words) => words,
        Err(answer) => return answer,
    };
    match asked(rt, words.as_slice()) {
        Ok(request) => answered(threads, rt, &request, gate),
        Err(answer) => answer,
    }
}

/// Does what was asked for, and says which file could not be read. What it prints goes to the standard output as it is,
/// each put of the sink by one write.
fn answered<T: Threads + Wait + Sync, R: Files + Print + Eprint + AllocGlobal, G: Gate>(
    threads: &T,
    rt: &R,
    request: &Request<'_>,
    gate: &G,
) -> Answer {
    let mut out = Out::new(io::writer(rt));
    let answer = answer_to(threads, rt, request, gate, &mut out);
    tell_unread(rt, request, answer);
    answer
}

/// Does what was asked for, and writes what comes of it to the sink. No clause knows what the files at the paths of the
/// request have.
pub fn answer_to<T: Threads + Wait + Sync, R: Files + Eprint + AllocGlobal, G: Gate, S: Sink>(
    threads: &T,
    rt: &R,
    request: &Request<'_>,
    gate: &G,
    sink: &mut S,
) -> Answer
    requires { FewFailed (S.failed sink.old) }
    ensures did { Did request.now (S.bytes sink.old) (S.bytes sink.new) result }
    ensures flushed { result ≡ Answer.Done → S.flushed sink.new ≡ true }
    ensures failures { S.failed sink.new ≡ S.failed sink.old + failed_calls result }
{
    match request {
        Request::Run(run) => run_file(threads, rt, run.file, run.options, gate, sink),
        Request::Check(check) => check_as(rt, check, sink),
        Request::World(played) => play_files(rt, played.file, played.schedule, sink),
        Request::Print(print) => print_as(rt, print, sink),
        Request::Explore(orders) => orders_of(rt, orders, sink),
        Request::Explain(explain) => explain_as(rt, explain, sink),
    }
}

/// All orders of a file's tasks, their graph, or the one that was asked for.
#[inline(never)]
fn orders_of<R: Files + Eprint + AllocGlobal, S: Sink>(
    rt: &R,
    orders: &Orders<'_>,
    sink: &mut S,
) -> Answer
    requires { FewFailed (S.failed sink.old) }
    ensures saw { SawOrders orders.now orders.now.graph orders.now.to orders.now.find
        (S.bytes sink.old) (S.bytes sink.new) result }
    ensures flushed { result ≡ Answer.Done → S.flushed sink.new ≡ true }
    ensures failures { S.failed sink.new ≡ S.failed sink.old + failed_calls result }
{
    if orders.graph {
        return graph_file(rt, orders.file, orders.limit, sink);
    }
    match (orders.to, orders.find) {
        (Some(end), _) => witness_file(rt, orders.file, orders.limit, end, sink),
        (None, Some(find)) => find_as(rt, orders.file, orders.limit, find, sink),
        (None, None) => explore_file(rt, orders.file, orders.limit, orders.denied, sink),
    }
}
