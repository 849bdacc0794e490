//! The words of `stm explore`.

use crate::arguments::{Argument, command_of};
use crate::words::Request;
use clap::builder::ValueParser;
use clap::{ArgAction, ArgMatches, Command};
use run_interface::{Denial, Denials, Limit};
use std::alloc::{AllocError, Global};

/// A file of which all orders are to be seen.
#[derive(Drop)]
pub struct Orders<'a> {
    /// Its path.
    pub file: &'a str,
    /// How many states are looked at, at most.
    pub limit: Limit,
    /// The number of the end to which a report is wanted, counted from 0, if one is.
    pub to: Option<usize>,
    /// What is sought, if something is.
    pub find: Option<Find<'a>>,
    /// What no order is to come to.
    pub denied: Denials,
    /// Whether the graph of all orders is wanted in place of what is found.
    pub graph: bool,
}

/// What is sought of a transaction.
#[derive(Clone, Copy, PartialEq, Eq)]
pub struct Find<'a> {
    /// The transaction's name.
    pub transaction: &'a str,
    /// How its turn is to end, or that it parks, in words.
    pub outcome: &'a str,
}

const EXPLORE: &str =
    "Sees every order in which the tasks of a file can take their turns, and prints which results are \
     possible and which tasks can wait for ever.";

const FOUND: &str =
    "A state is the present values, and how many tasks of each call are done. Prints how many\n\
     states are reached, and then:\n\n    \
     tx NAME ..      how turns of it can end: returned, threw, overflow, zerodiv,\n                    \
     outside, broke CONDITION; parks if it waits at some end\n    \
     ends N          how many states have no turn left, each on a line of its own:\n    \
     1 x 7           the first, with its values: all tasks are done\n    \
     2 x 0 parked t 3    the second, where three tasks of t wait for ever\n\n\
     If more states are reached than --states allows it prints `more than N states`.\n\
     --to 2 prints a report, as stm run does, of a run that comes to the second end.\n\n\
     --find pay 'threw 1' prints that of a run that stops at such a turn of pay, or `never`. An\n\
     OUTCOME is returned V, threw V, overflow, zerodiv, outside, broke CONDITION, or its first\n\
     word alone; or parks: a task of it is left and would wait. In the report the tasks that\n\
     are left are parked if they would wait, otherwise on lines `memory`.\n\n\
     With --deny the text is the same. If some order comes to what is denied the status is 1,\n\
     and the standard error names the first, in the order parked, threw, broke, overflow, zerodiv,\n\
     outside:\n\n    \
     stm: denied: parked: see --to 2\n\n\
     --dot prints the graph of the states for Graphviz: a line for each state with its values, and\n\
     one for each turn. An end has a double border, and is filled if a task waits for ever.\n\n\
     Status: 0 done, 1 more states, never or denied, 2 the file is refused, 3 the command line is\n\
     refused, 4 a file cannot be read or the output cannot be written, 5 out of memory.\n\n\
     Example: stm explore examples/forks.stm; stm explore examples/forks.stm --to 1\n    \
     stm explore examples/forks.stm --dot | dot -Tsvg > forks.svg";

const TO: &str =
    "Prints the report of a run that comes to the end of this number, by as few turns as any order";

const FIND: &str =
    "Prints the report of a run whose last entry is a turn of the transaction TX that ends so, by as few turns \
     as any order";

const DENY: &str =
    "Ends with status 1 if some order comes to it: parked, an end at which a task waits, or a turn that ends \
     so; may be given more than once";

const DOT: &str =
    "Prints the graph of the states and turns in DOT, the language of Graphviz, if no more than 2000 states \
     are reached";

/// What can be denied.
const DENIALS: [&str; 6] = ["parked", "threw", "broke", "overflow", "zerodiv", "outside"];

const STATES: &str = "How many states are looked at, at most, 1 to 16777216";

/// The command `stm explore`.
#[inline(never)]
pub(crate) fn explore_command<'a>(alloc: Global) -> Result<Command<'a>, AllocError> {
    let range = (1, 16_777_216);
    let arguments = [
        Argument::required("FILE", "The path of the file whose orders are seen"),
        Argument::number_or("states", range, &["1000000"], STATES),
        Argument::number("to", &["K"], range, TO),
        finding(),
        deny(),
        dot(),
    ];
    command_of(alloc, "explore", EXPLORE, FOUND, &arguments)
}

/// The option `--find TX OUTCOME`, which no end goes with.
fn finding<'a>() -> Argument<'a> {
    Argument {
        conflicts: &["to"],
        ..Argument::option("find", &["TX", "OUTCOME"], FIND)
    }
}

/// The option `--deny WHAT`, which neither goes with.
fn deny<'a>() -> Argument<'a> {
    Argument {
        parser: ValueParser::Names(&DENIALS),
        action: ArgAction::Append,
        conflicts: &["to", "find"],
        ..Argument::option("deny", &["WHAT"], DENY)
    }
}

/// The option `--dot`, which no other of these goes with.
fn dot<'a>() -> Argument<'a> {
    Argument {
        parser: ValueParser::Bool,
        action: ArgAction::SetTrue,
        conflicts: &["to", "find", "deny"],
        ..Argument::option("dot", &[], DOT)
    }
}

/// What is denied by these words.
fn denied_by(words: &[&str]) -> Denials {
    let mut denied = Denials::none();
    for word in words {
        if let Some(denial) = Denial::named(word) {
            denied = denied.with(denial);
        }
    }
    denied
}

/// What is sought by these words, if something is.
fn sought_by<'a>(matches: &ArgMatches<'a>) -> Option<Find<'a>> {
    let words = matches.get_strs("find")?;
    let transaction = words.first().copied()?;
    let outcome = words.get(1).copied()?;
    Some(Find {
        transaction,
        outcome,
    })
}

/// What the words ask for.
pub(crate) fn wanted_orders<'a>(matches: &ArgMatches<'a>) -> Option<Request<'a>> {
    let file = matches.get_str("FILE")?;
    let states = matches.get_one::<u32>("states")?;
    let limit = Limit::new(states)?;
    let to = matches
        .get_one::<u32>("to")
        .map(|number| (number as usize).saturating_sub(1));
    let denied = denied_by(matches.get_strs("deny").unwrap_or(&[]));
    let graph = matches.get_flag("dot");
    Some(Request::Explore(Orders {
        file,
        limit,
        to,
        find: sought_by(matches),
        denied,
        graph,
    }))
}
