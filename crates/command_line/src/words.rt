//! The command line.

use crate::arguments::{Argument, command_of, described};
use crate::checking_words::{Check, check_command, wanted_check};
use crate::explaining_words::{Explain, explain_command, wanted_explanation};
use crate::exploring_words::{Orders, explore_command, wanted_orders};
use crate::printing_words::{Print, print_command, wanted_print};
use clap::error::ErrorKind;
use clap::parser::ValueSource;
use clap::{ArgMatches, Command, Error, value_parser};
use run_interface::{MAX_CHECKPOINT, MAX_TRIES, MAX_WORKERS, Options};
use std::alloc::{AllocError, Global};

/// What the command line asks for.
#[derive(Drop)]
pub enum Request<'a> {
    /// To run a file.
    Run(Run<'a>),
    /// To check a report.
    Check(Check<'a>),
    /// To play a schedule.
    World(Played<'a>),
    /// To print a file.
    Print(Print<'a>),
    /// To see all orders of a file's tasks.
    Explore(Orders<'a>),
    /// To explain a file, a report or a schedule.
    Explain(Explain<'a>),
}

/// A file to run.
#[derive(Drop)]
pub struct Run<'a> {
    /// Its path.
    pub file: &'a str,
    /// How it is run.
    pub options: Options,
}

/// A schedule to play.
#[derive(Drop)]
pub struct Played<'a> {
    /// The path of the file whose world it is played on.
    pub file: &'a str,
    /// Its own path.
    pub schedule: &'a str,
}

const VERSION: &str = "0.3.0";

const ABOUT: &str =
    "Software transactional memory with retry and orElse: runs the transactions of a file, reports what they \
     did, checks such reports, plays schedules on the stepped world, sees every order of a file's tasks, \
     prints files in canonical form, and says what is wrong with a file, a report or a schedule.";

const STATUSES: &str =
    "Status: 0 done, the report is good; 1 the report is not good, more states are reached\n\
     than may be looked at, no order comes to what is sought, or some order comes to what is\n\
     denied; 2 the file or the schedule is refused; 3 the command line is refused; 4 a file\n\
     cannot be read or the output cannot be written; 5 out of memory.\n\n\
     A file or a schedule is refused by the first kind of fault that applies to it, and the\n\
     standard error names it, as in `stm: file: F3 Shape`:\n\n    \
     F1 TooLong    more than 1048576 bytes; more than 67108864, if it begins with (stm 3)\n    \
     F2 BadByte    a byte that is neither a newline nor printable ASCII\n    \
     F3 Shape      not of the grammar of a file, or a line of no known form in a schedule\n    \
     F4 Name       a name that is declared twice, or not declared; a wrong number of arguments\n    \
     F5 Limit      a number, a count, a name or a cost past its limit\n    \
     F7 Broken     a standing condition that is not true of the initial values";

const RUN: &str =
    "Runs the tasks of a file and prints a report: the base, the journal, the present values and versions, \
     and the tasks that wait.";

const EXAMPLE: &str = "A file declares variables, transactions and runs:\n\n    \
     (var x 5)\n    \
     (tx inc (set x (add x 1)) x)\n    \
     (run inc 2)\n\n\
     In a file that begins with (stm 2) standing conditions may follow the variables. A\n\
     transaction that would leave one of them untrue has no effect:\n\n    \
     (always small (lt x 7))\n\n\
     In one that begins with (stm 3) each transaction also has a list of parameters, each run\n\
     gives their values after its count, and tables may follow the variables. This one has\n\
     1,000 cells that begin at 100:\n\n    \
     (table acct 1000 100)\n    \
     (tx grow (i n) (put acct i (add (at acct i) n)) (sum acct))\n    \
     (run grow 1 5 20)\n\n\
     The statements are skip, set, put, seq, if, repeat, retry, orelse and throw.\n\n\
     Status: 0 done, 2 the file is refused, 3 the command line is refused,\n\
     4 a file cannot be read or the output cannot be written, 5 out of memory.";

const WORLD: &str =
    "Plays a schedule on the stepped world of a file: one load and one store at a time, in the order that \
     you name, with no threads.";

const SCHEDULE: &str =
    "The path of the schedule to play: a line for each move. A is the number of a task,\n\
     counted from 0, and X a variable, or a cell as acct[5]:\n\n    \
     begin A       an attempt of the task begins: it loads the clock\n    \
     read A X      it reads the variable: first, value and second\n    \
     commit A      it asks to commit, and all its words are stored\n    \
     drop A        its attempt is dropped\n    \
     first A X     it loads the version of the variable\n    \
     value A       it loads the value\n    \
     second A      it loads the version again\n    \
     ask A         it has ended, and asks to commit\n    \
     word          the one that commits stores its next word\n    \
     again A       its stale attempt runs again: it loads the clock\n    \
     move A        again, and what it then checks is read";

const SEEN: &str =
    "Prints for each line its number and what is seen: idle, needs X, ended OUTCOME,\n\
     loaded, stale, parked, commits N, stored, committed N, dropped, memory, checks X or\n\
     changed.\n\
     Then the present number, values and versions, and each attempt with its task,\n\
     the number of the state that it reads, its fate, and what it has read.\n\n\
     Status: 0 done, 2 the file or the schedule is refused, 3 the command line is refused,\n\
     4 a file cannot be read or the output cannot be written, 5 out of memory.";

const WORKERS: &str = "How many workers run the tasks, 1 to 16";

const TRIES: &str = "After how many stale tries a task has its turn under the lock, 1 to 64";

const CHECKPOINT: &str =
    "After this many entries the journal begins anew from the values reached; at most 65536, and 0 for never";

const SEED: &str =
    "Draws the order of the tasks, for one worker: the same number, 0 to 2^64 - 1, draws the same order";

/// What is said of a seed with more than one worker.
const SEED_FOR_MANY: &str =
    "a seed draws the order for one worker: give --workers 1 with it, or none";

/// What is said where a number is out of its range.
const OUT_OF_RANGE: &str =
    "the number of workers must be 1 to 16, that of tries 1 to 64, that of the checkpoint at most 65536, and \
     that of states 1 to 16777216";

/// The names of the subcommands, in the order in which help lists them.
const NAMES: [&str; 6] = ["run", "check", "world", "explore", "print", "explain"];

/// The command `stm` with the subcommands that these words can come to: where the word behind the program's
/// name is that of a subcommand, this one alone, without the subcommand `help`.
///
/// Each subcommand takes memory and time whenever the program starts. Where one is named at once, all further
/// words are its own, and no text tells of another: subcommands are listed and suggested only where none is.
#[inline(never)]
fn command<'a>(alloc: Global, words: &[String]) -> Result<Command<'a>, AllocError> {
    let named = words.get(1).map_or("", |word| word.as_str());
    let all = !NAMES.contains(&named);
    let mut stm = root(alloc, all);
    for name in NAMES {
        if all || name == named {
            stm = with_subcommand(alloc, stm, name)?;
        }
    }
    Ok(stm)
}

/// The command with the subcommand of this name, too.
#[inline(never)]
fn with_subcommand<'a>(
    alloc: Global,
    stm: Command<'a>,
    name: &str,
) -> Result<Command<'a>, AllocError> {
    match subcommand(alloc, name) {
        Ok(one) => stm.subcommand(one),
        Err(error) => {
            drop(stm);
            Err(error)
        }
    }
}

/// The subcommand of one of these names.
fn subcommand<'a>(alloc: Global, name: &str) -> Result<Command<'a>, AllocError> {
    match name {
        "run" => run_command(alloc),
        "check" => check_command(alloc),
        "world" => world_command(alloc),
        "explore" => explore_command(alloc),
        "print" => print_command(alloc),
        _ => explain_command(alloc),
    }
}

/// The command `stm` without its subcommands, to which `clap` adds `help` or does not.
#[inline(never)]
fn root<'a>(alloc: Global, helps: bool) -> Command<'a> {
    described(alloc, "stm", ABOUT, STATUSES)
        .version(VERSION)
        .subcommand_required(true)
        .arg_required_else_help(true)
        .disable_help_subcommand(!helps)
}

/// The command `stm run`.
#[inline(never)]
fn run_command<'a>(alloc: Global) -> Result<Command<'a>, AllocError> {
    let arguments = [
        Argument::required("FILE", "The path of the file to run"),
        Argument::number_or("workers", (1, MAX_WORKERS), &["4"], WORKERS),
        Argument::number_or("tries", (1, MAX_TRIES), &["8"], TRIES),
        Argument::number_or("checkpoint", (0, MAX_CHECKPOINT), &["0"], CHECKPOINT),
        seed(),
    ];
    command_of(alloc, "run", RUN, EXAMPLE, &arguments)
}

/// The option `--seed N`.
fn seed<'a>() -> Argument<'a> {
    Argument {
        parser: value_parser!(u64),
        ..Argument::option("seed", &["N"], SEED)
    }
}

/// The command `stm world`.
#[inline(never)]
fn world_command<'a>(alloc: Global) -> Result<Command<'a>, AllocError> {
    let arguments = [
        Argument::required("FILE", "The path of the file whose tasks take part"),
        Argument {
            long_help: Some(SCHEDULE),
            ..Argument::required("SCHEDULE", "The path of the schedule to play")
        },
    ];
    command_of(alloc, "world", WORLD, SEEN, &arguments)
}

/// What the words ask for. An `Err` has the text to show: help or the version, where it was asked for,
/// or what is wrong with the words.
pub(crate) fn parse<'a>(alloc: Global, words: &'a [String]) -> Result<Request<'a>, Error> {
    let mut command = command(alloc, words)?;
    let request = request_by(&mut command, words);
    drop(command);
    request
}

/// What the words ask of this command.
fn request_by<'a>(command: &mut Command<'a>, words: &'a [String]) -> Result<Request<'a>, Error> {
    match request_in_range(command, words)? {
        Ok(request) => Ok(request),
        Err(why) => Err(command.error(ErrorKind::ValueValidation, why)?),
    }
}

/// What the words ask of this command, or what is wrong with their numbers.
fn request_in_range<'a>(
    command: &mut Command<'a>,
    words: &'a [String],
) -> Result<Result<Request<'a>, &'static str>, Error> {
    let matches = command.try_get_matches_from_mut(words)?;
    if draws_for_many(&matches) {
        return Ok(Err(SEED_FOR_MANY));
    }
    match request_of(&matches) {
        Some(request) => Ok(Ok(request)),
        None => Ok(Err(OUT_OF_RANGE)),
    }
}

/// What the subcommand that was given asks for. `None`: a number is out of its range.
fn request_of<'a>(matches: &ArgMatches<'a>) -> Option<Request<'a>> {
    let (name, words) = matches.subcommand()?;
    match name {
        "run" => wanted_run(words),
        "check" => wanted_check(words),
        "world" => wanted_world(words),
        "explore" => wanted_orders(words),
        "print" => wanted_print(words),
        "explain" => wanted_explanation(words),
        _ => None,
    }
}

/// Whether a run is asked for whose order is drawn, by more than one worker.
fn draws_for_many<'a>(matches: &ArgMatches<'a>) -> bool {
    let Some(("run", words)) = matches.subcommand() else {
        return false;
    };
    words.get_one::<u64>("seed").is_some() && workers_of(words) != Some(1)
}

/// How many workers are asked for: one, where the order is drawn and the words give no number.
fn workers_of<'a>(matches: &ArgMatches<'a>) -> Option<u32> {
    let given = matches.value_source("workers") == Some(ValueSource::CommandLine);
    if !given && matches.get_one::<u64>("seed").is_some() {
        return Some(1);
    }
    matches.get_one::<u32>("workers")
}

fn wanted_run<'a>(matches: &ArgMatches<'a>) -> Option<Request<'a>> {
    let file = matches.get_str("FILE")?;
    let workers = workers_of(matches)?;
    let tries = matches.get_one::<u32>("tries")?;
    let checkpoint = matches.get_one::<u32>("checkpoint")?;
    let mut options = Options::new(workers, tries, checkpoint)?;
    if let Some(seed) = matches.get_one::<u64>("seed") {
        options = options.with_seed(seed)?;
    }
    Some(Request::Run(Run { file, options }))
}

fn wanted_world<'a>(matches: &ArgMatches<'a>) -> Option<Request<'a>> {
    let file = matches.get_str("FILE")?;
    let schedule = matches.get_str("SCHEDULE")?;
    Some(Request::World(Played { file, schedule }))
}
