//! The words of `stm explain`.

use crate::arguments::{Argument, command_of};
use crate::checking_words::{Earlier, after, earlier_of};
use crate::words::Request;
use clap::{ArgMatches, Command};
use std::alloc::{AllocError, Global};

/// What is to be explained.
#[derive(Drop)]
pub struct Explain<'a> {
    /// The path of the file.
    pub file: &'a str,
    /// The file itself, or what is of it.
    pub what: Explained<'a>,
}

/// A file, or what is of a file.
#[derive(Clone, Copy, PartialEq, Eq)]
pub enum Explained<'a> {
    /// The file itself.
    File,
    /// A report of it, at this path.
    Report(&'a str),
    /// A report of it, at this path, and whether the file goes on behind an earlier pair.
    Chapter(&'a str, Earlier<'a>),
    /// A schedule of it, at this path.
    Schedule(&'a str),
}

const EXPLAIN: &str =
    "Says where and why a file or a schedule is refused, or which line of a report is the first that replay \
     does not have.";

const EXPLAINED: &str = "Prints `good`, or a line if the file is refused:\n\n    \
     line 3, column 12: F3 Shape: an expression is wanted: INT, NAME, ..; here stands )\n\n    \
     F1 TooLong  the first byte past the limit\n    \
     F2 BadByte  the first byte that no file may have\n    \
     F3 Shape    the first token with which the file is no longer the beginning of one\n    \
     F4 Name     the first name that is declared twice or not at all\n    \
     F5 Limit    a name, a number or a declaration that goes over a limit\n    \
     F7 Broken   the first standing condition that is not true of the initial values\n\n\
     With --schedule it says the same of a schedule of the file, if the file is read:\n\n    \
     line 2, column 8: F4 Name: no variable of this name is declared; here stands y\n\n    \
     F3 Shape    the first word that may not stand there, or a missing newline\n    \
     F4 Name     the first variable that is not declared, or cell that does not exist\n    \
     F5 Limit    the first task that the file does not have\n\n\
     If a report is not good it prints the verdict of stm check, the first wrong line, and\n\
     what replay has in its place:\n\n    \
     bad 3\n    \
     line 4: entry 2 1 inc returned 8\n    \
     replay has entry 2 1 inc returned 7\n\n\
     With --after it says the same of the earlier report, after the word `before`. If the file\n\
     does not go on where that report ended, it prints the first line that differs:\n\n    \
     bad 7\n    \
     (var x 7) is wanted; here stands (var x 5)\n\n\
     Lines and columns are counted from 1, columns in bytes.\n\n\
     Status: 0 good, 1 the report is not good, 2 a file or the schedule is refused,\n\
     3 the command line is refused, 4 a file cannot be read or the output cannot be written,\n\
     5 out of memory.\n\n\
     Example: stm explain a.stm; stm explain a.stm a.report;\n    \
     stm explain a.stm --schedule a.schedule";

const AFTER: &str =
    "The paths of file and report of the chapter before, where the report's file should go on";

/// The command `stm explain`.
#[inline(never)]
pub(crate) fn explain_command<'a>(alloc: Global) -> Result<Command<'a>, AllocError> {
    let arguments = [
        Argument::required("FILE", "The path of the file to explain"),
        Argument::optional(
            "REPORT",
            "The path of a report of it, to explain in its place",
        ),
        Argument {
            needs: &["REPORT"],
            ..after(AFTER)
        },
        schedule(),
    ];
    command_of(alloc, "explain", EXPLAIN, EXPLAINED, &arguments)
}

/// The option `--schedule SCHEDULE`, which no report goes with.
fn schedule<'a>() -> Argument<'a> {
    let help = "The path of a schedule of it, to explain in its place";
    Argument {
        conflicts: &["REPORT", "after"],
        ..Argument::option("schedule", &["SCHEDULE"], help)
    }
}

/// A report, alone or behind an earlier pair.
fn report_explained<'a>(report: &'a str, after: Option<Earlier<'a>>) -> Explained<'a> {
    match after {
        Some(earlier) => Explained::Chapter(report, earlier),
        None => Explained::Report(report),
    }
}

/// What the words ask for.
pub(crate) fn wanted_explanation<'a>(matches: &ArgMatches<'a>) -> Option<Request<'a>> {
    let file = matches.get_str("FILE")?;
    let what = match (matches.get_str("schedule"), matches.get_str("REPORT")) {
        (Some(schedule), _) => Explained::Schedule(schedule),
        (None, Some(report)) => report_explained(report, earlier_of(matches)),
        (None, None) => Explained::File,
    };
    Some(Request::Explain(Explain { file, what }))
}
