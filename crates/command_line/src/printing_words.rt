//! The words of `stm print`.

use crate::arguments::{Argument, command_of};
use crate::words::Request;
use clap::{ArgMatches, Command};
use std::alloc::{AllocError, Global};

/// A file to print.
#[derive(Drop)]
pub struct Print<'a> {
    /// Its path.
    pub file: &'a str,
    /// The file itself, or with what work goes on behind a report of it.
    pub what: Printed<'a>,
}

/// A file, or what comes behind it.
#[derive(Clone, Copy, PartialEq, Eq)]
pub enum Printed<'a> {
    /// The file itself.
    File,
    /// The file from the present values of the report at this path.
    From(&'a str),
    /// The file of the chapter that begins where the report at this path ended.
    After(&'a str),
}

const PRINT: &str =
    "Prints a file in canonical form: one form a line, one space between two tokens, no comments.";

const PRINTED: &str = "Printing what was printed changes nothing. Comments are left out.\n\n\
     With --from each variable and cell begins at its value at the report's present, so that\n\
     work goes on where the report ended. With --after it does so too, and there is a run of\n\
     one task for each task that the report lists as parked: the next chapter, as it begins.\n\
     The report has to be lawful for the file; otherwise `bad` and the first part that fails\n\
     are printed, as by `stm check`.\n\n\
     Status: 0 done, 1 the report is not good, 2 the file is refused, 3 the command line is\n\
     refused, 4 a file cannot be read or the output cannot be written, 5 out of memory.\n\n\
     Example: stm run a.stm > a.report; stm print a.stm --from a.report > b.stm\n    \
     stm print a.stm --after a.report > next.stm";

/// The command `stm print`.
#[inline(never)]
pub(crate) fn print_command<'a>(alloc: Global) -> Result<Command<'a>, AllocError> {
    let from =
        "The path of a report of the file, at whose present values variables and cells begin";
    let arguments = [
        Argument::required("FILE", "The path of the file to print"),
        Argument::option("from", &["REPORT"], from),
        after(),
    ];
    command_of(alloc, "print", PRINT, PRINTED, &arguments)
}

/// The option `--after REPORT`, which `--from` does not go with.
fn after<'a>() -> Argument<'a> {
    let help =
        "The path of a report of the file, where the next chapter begins, with the parked tasks";
    Argument {
        conflicts: &["from"],
        ..Argument::option("after", &["REPORT"], help)
    }
}

/// What the words ask for.
pub(crate) fn wanted_print<'a>(matches: &ArgMatches<'a>) -> Option<Request<'a>> {
    let file = matches.get_str("FILE")?;
    let what = match (matches.get_str("from"), matches.get_str("after")) {
        (Some(report), _) => Printed::From(report),
        (None, Some(report)) => Printed::After(report),
        (None, None) => Printed::File,
    };
    Some(Request::Print(Print { file, what }))
}
