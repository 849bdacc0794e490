//! Which file could not be read.

use crate::answer::{Answer, Source};
use crate::words::Request;
use crate::{Check, Earlier, Explained, Printed};

/// Says on the standard error which file could not be read, by its path, where that is the answer to what was asked.
pub fn tell_unread<R: Eprint>(rt: &R, request: &Request<'_>, answer: Answer) {
    let Answer::Unreadable(source) = answer else {
        return;
    };
    let path = path_of(request, source);
    // The status says it too, where the standard error does not take the words.
    let _unheard = eprintln!(rt; "stm: cannot read {path}");
}

/// The path that the request has for this file.
fn path_of<'a>(request: &Request<'a>, source: Source) -> &'a str {
    match request {
        Request::Run(run) => run.file,
        Request::Check(check) => path_to_check(check, source),
        Request::World(played) => one_of(source, played.file, played.schedule),
        Request::Print(print) => match print.what {
            Printed::File => print.file,
            Printed::From(report) | Printed::After(report) => one_of(source, print.file, report),
        },
        Request::Explore(orders) => orders.file,
        Request::Explain(explain) => match explain.what {
            Explained::File => explain.file,
            Explained::Report(other) | Explained::Schedule(other) => {
                one_of(source, explain.file, other)
            }
            Explained::Chapter(report, earlier) => {
                one_of_chapter(source, explain.file, report, earlier)
            }
        },
    }
}

/// The same of what is to be checked.
fn path_to_check<'a>(check: &Check<'a>, source: Source) -> &'a str {
    match check.after {
        None => one_of(source, check.file, check.report),
        Some(earlier) => one_of_chapter(source, check.file, check.report, earlier),
    }
}

/// The path of the file, or else of what is of it.
fn one_of<'a>(source: Source, file: &'a str, other: &'a str) -> &'a str {
    match source {
        Source::File => file,
        _ => other,
    }
}

/// The path of one of the four of a chapter.
fn one_of_chapter<'a>(
    source: Source,
    file: &'a str,
    report: &'a str,
    earlier: Earlier<'a>,
) -> &'a str {
    match source {
        Source::EarlierFile => earlier.file,
        Source::EarlierReport => earlier.report,
        _ => one_of(source, file, report),
    }
}
