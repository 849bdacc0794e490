//! The words of `stm check`, and of the pair behind which a file is to go on.

use crate::arguments::{Argument, command_of};
use crate::words::Request;
use clap::{ArgMatches, Command};
use std::alloc::{AllocError, Global};

/// A report to check.
#[derive(Drop)]
pub struct Check<'a> {
    /// The path of the file that it is of.
    pub file: &'a str,
    /// Its own path.
    pub report: &'a str,
    /// The pair behind which the file is to go on, if one is named.
    pub after: Option<Earlier<'a>>,
}

/// An earlier file, and a report of it.
#[derive(Clone, Copy, PartialEq, Eq)]
pub struct Earlier<'a> {
    /// The path of the file.
    pub file: &'a str,
    /// The path of the report.
    pub report: &'a str,
}

const CHECK: &str =
    "Checks a report of a file: replays its journal and says whether the report is lawful, without trusting \
     whoever made it.";

const VERDICTS: &str = "Prints `good`, or `bad` and the first part that fails:\n\n    \
     1  the text is no report of the file\n    \
     2  the base: of number 0 and not the initial values, or a version above its number\n    \
     3  an entry: its number, or its outcome in the replay\n    \
     4  the present number, values or versions: not those at the end of the replay\n    \
     5  the tasks: another's transaction, two lines, out of order, or not all accounted for\n    \
     6  a parked task, which would not retry on the present values\n\n\
     With --after the file is a chapter that begins where REPORT0, a report of FILE0, ended.\n\
     A lawful report is then `good` only if that is so:\n\n    \
     before bad K  REPORT0 is not lawful for FILE0, by the part K\n    \
     bad 7         the file does not declare the same as FILE0, a variable or cell does not\n                  \
     begin at its value at the present of REPORT0, or the first tasks are\n                  \
     not those of its parked lines\n\n\
     Status: 0 good, 1 bad, 2 a file is refused, 3 the command line is refused,\n\
     4 a file cannot be read or the output cannot be written, 5 out of memory.\n\n\
     Example: stm run a.stm > a.report; stm check a.stm a.report\n    \
     stm print a.stm --after a.report > b.stm; stm run b.stm > b.report\n    \
     stm check b.stm b.report --after a.stm a.report";

const AFTER: &str =
    "The paths of file and report of the chapter before, where this one should go on";

/// The command `stm check`.
#[inline(never)]
pub(crate) fn check_command<'a>(alloc: Global) -> Result<Command<'a>, AllocError> {
    let arguments = [
        Argument::required("FILE", "The path of the file that was run"),
        Argument::required("REPORT", "The path of the report of it"),
        after(AFTER),
    ];
    command_of(alloc, "check", CHECK, VERDICTS, &arguments)
}

/// The option `--after FILE0 REPORT0`.
pub(crate) fn after<'a>(help: &'a str) -> Argument<'a> {
    Argument::option("after", &["FILE0", "REPORT0"], help)
}

/// The pair that is named by `--after`, if one is.
pub(crate) fn earlier_of<'a>(matches: &ArgMatches<'a>) -> Option<Earlier<'a>> {
    let words = matches.get_strs("after")?;
    let file = words.first().copied()?;
    let report = words.get(1).copied()?;
    Some(Earlier { file, report })
}

/// What the words ask for.
pub(crate) fn wanted_check<'a>(matches: &ArgMatches<'a>) -> Option<Request<'a>> {
    let file = matches.get_str("FILE")?;
    let report = matches.get_str("REPORT")?;
    let after = earlier_of(matches);
    Some(Request::Check(Check {
        file,
        report,
        after,
    }))
}
