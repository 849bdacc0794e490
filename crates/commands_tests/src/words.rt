//! The command line: what is asked for. Mistakes, what is told of them and help are played by `cases/words.cases`.

use crate::host::{Host, Prints, Reads};
use command_line::{Answer, Earlier, Explained, Find, Orders, Printed, Request, asked};
use run_interface::{Denial, Denials, Options};
use std::alloc::{AllocError, Global};

const PAIR: Earlier<'static> = Earlier {
    file: "c",
    report: "d",
};

const PAY: Find<'static> = Find {
    transaction: "pay",
    outcome: "threw",
};

/// What a line is answered by, of the file `a.stm`.
enum Wanted {
    /// It is run by so many workers, with so many tries and this checkpoint and seed.
    Run(u32, u32, u32, Option<u64>),
    /// This report of it is checked, behind this pair.
    Check(&'static str, Option<Earlier<'static>>),
    /// This schedule of it is played.
    World(&'static str),
    /// So many orders of it are seen, with a report to this end, as a graph or not, and this is sought.
    Explore(u32, Option<usize>, bool, Option<Find<'static>>),
    /// All orders are seen, and these are denied.
    Deny(&'static [Denial]),
    Print(Printed<'static>),
    Explain(Explained<'static>),
    /// This is printed, and nothing asked for.
    Shown(&'static str),
    /// The line is refused, and what is said begins so.
    Refused(&'static str),
}

const ROWS: &[(&str, Wanted)] = &[
    ("stm run a.stm", Wanted::Run(4, 8, 0, None)),
    (
        "stm run a.stm --workers 1 --tries 64",
        Wanted::Run(1, 64, 0, None),
    ),
    (
        "stm run --tries=1 --workers=16 a.stm",
        Wanted::Run(16, 1, 0, None),
    ),
    ("stm run a.stm --checkpoint 2", Wanted::Run(4, 8, 2, None)),
    (
        "stm run a.stm --checkpoint=65536 --workers 1",
        Wanted::Run(1, 8, 65536, None),
    ),
    ("stm run a.stm --seed 0", Wanted::Run(1, 8, 0, Some(0))),
    (
        "stm run a.stm --workers 1 --seed=7",
        Wanted::Run(1, 8, 0, Some(7)),
    ),
    (
        "stm run --seed 18446744073709551615 a.stm",
        Wanted::Run(1, 8, 0, Some(u64::MAX)),
    ),
    ("stm check a.stm a.report", Wanted::Check("a.report", None)),
    (
        "stm check a.stm b --after c d",
        Wanted::Check("b", Some(PAIR)),
    ),
    (
        "stm check --after c d a.stm b",
        Wanted::Check("b", Some(PAIR)),
    ),
    ("stm world a.stm a.schedule", Wanted::World("a.schedule")),
    (
        "stm explore a.stm",
        Wanted::Explore(1000000, None, false, None),
    ),
    (
        "stm explore a.stm --states 1 --to 1",
        Wanted::Explore(1, Some(0), false, None),
    ),
    (
        "stm explore --to=16777216 --states=16777216 a.stm",
        Wanted::Explore(16777216, Some(16777215), false, None),
    ),
    (
        "stm explore a.stm --dot",
        Wanted::Explore(1000000, None, true, None),
    ),
    (
        "stm explore --dot --states 7 a.stm",
        Wanted::Explore(7, None, true, None),
    ),
    (
        "stm explore a.stm --find pay threw",
        Wanted::Explore(1000000, None, false, Some(PAY)),
    ),
    (
        "stm explore --states 2 --find pay threw a.stm",
        Wanted::Explore(2, None, false, Some(PAY)),
    ),
    (
        "stm explore a.stm --deny parked",
        Wanted::Deny(&[Denial::Parked]),
    ),
    (
        "stm explore --deny threw --deny=broke a.stm --deny threw",
        Wanted::Deny(&[Denial::Threw, Denial::Broke]),
    ),
    (
        "stm explore --deny overflow --deny zerodiv a.stm",
        Wanted::Deny(&[Denial::Overflow, Denial::ZeroDiv]),
    ),
    (
        "stm explore --deny outside a.stm",
        Wanted::Deny(&[Denial::Outside]),
    ),
    ("stm print a.stm", Wanted::Print(Printed::File)),
    (
        "stm print a.stm --from b",
        Wanted::Print(Printed::From("b")),
    ),
    (
        "stm print --after=b a.stm",
        Wanted::Print(Printed::After("b")),
    ),
    ("stm explain a.stm", Wanted::Explain(Explained::File)),
    (
        "stm explain a.stm b",
        Wanted::Explain(Explained::Report("b")),
    ),
    (
        "stm explain a.stm b --after c d",
        Wanted::Explain(Explained::Chapter("b", PAIR)),
    ),
    (
        "stm explain a.stm --schedule c",
        Wanted::Explain(Explained::Schedule("c")),
    ),
    (
        "stm explain --schedule=c a.stm",
        Wanted::Explain(Explained::Schedule("c")),
    ),
    ("stm --version", Wanted::Shown("stm 0.3.0\n")),
    ("stm run a --tries 65", Wanted::Refused("error: ")),
];

/// The words of a command line.
fn words_of(alloc: Global, line: &str) -> Result<Vec<String>, AllocError> {
    let mut words = Vec::new(alloc);
    for word in line.split(' ') {
        words.push(String::from_str(alloc, word)?)?;
    }
    Ok(words)
}

/// Whether the options are these.
fn are(options: Options, workers: u32, tries: u32, checkpoint: u32, seed: Option<u64>) -> bool {
    options.workers() == workers
        && options.tries() == tries
        && options.checkpoint() == checkpoint
        && options.seed() == seed
}

/// Whether so many states are looked at, and these things of them are wanted.
fn are_orders(
    orders: &Orders<'_>,
    states: u32,
    to: Option<usize>,
    graph: bool,
    find: Option<Find<'_>>,
) -> bool {
    orders.file == "a.stm"
        && (orders.limit.states(), orders.to, orders.graph) == (states, to, graph)
        && orders.find == find
}

/// These together.
fn all_of(denied: &[Denial]) -> Denials {
    let mut all = Denials::none();
    for &denial in denied {
        all = all.with(denial);
    }
    all
}

/// Whether the request is the wanted one.
fn is_wanted(request: &Request<'_>, wanted: &Wanted) -> bool {
    match (request, wanted) {
        (Request::Run(run), Wanted::Run(workers, tries, checkpoint, seed)) => {
            run.file == "a.stm" && are(run.options, *workers, *tries, *checkpoint, *seed)
        }
        (Request::Check(check), Wanted::Check(report, after)) => {
            check.file == "a.stm" && check.report == *report && check.after == *after
        }
        (Request::World(played), Wanted::World(schedule)) => {
            played.file == "a.stm" && played.schedule == *schedule
        }
        (Request::Explore(orders), Wanted::Explore(states, to, graph, find)) => {
            are_orders(orders, *states, *to, *graph, *find) && orders.denied == Denials::none()
        }
        (Request::Explore(orders), Wanted::Deny(denied)) => {
            are_orders(orders, 1000000, None, false, None) && orders.denied == all_of(denied)
        }
        (Request::Print(print), Wanted::Print(what)) => {
            print.file == "a.stm" && print.what == *what
        }
        (Request::Explain(explain), Wanted::Explain(what)) => {
            explain.file == "a.stm" && explain.what == *what
        }
        _ => false,
    }
}

/// Whether the words make no request, and this is answered and told.
fn is_told(host: &Host<'_>, answer: Answer, wanted: &Wanted) -> bool {
    match wanted {
        Wanted::Shown(text) => answer == Answer::Done && host.took(text),
        Wanted::Refused(text) => answer == Answer::Refused && host.says(text) && host.took(""),
        _ => false,
    }
}

/// Whether the words are answered so.
fn are_answered(alloc: Global, words: &[String], wanted: &Wanted) -> bool {
    let host = Host::new(alloc, &[], b"", (Reads::AllBytes, Prints::All));
    match asked(&host, words) {
        Ok(request) => is_wanted(&request, wanted),
        Err(answer) => is_told(&host, answer, wanted),
    }
}

/// Whether so are those of the line.
fn is_answered(alloc: Global, line: &str, wanted: &Wanted) -> bool {
    match words_of(alloc, line) {
        Ok(words) => are_answered(alloc, words.as_slice(), wanted),
        Err(_) => false,
    }
}

#[test]
fn each_line_asks_for_what_it_says(rt: HostRuntime) {
    for (line, wanted) in ROWS {
        assert!(rt; is_answered(rt.alloc(), line, wanted), "of {line}");
    }
}
