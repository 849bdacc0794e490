//! Reports that are read, and printed again as the same bytes.

use crate::parts::{INCREMENTS, catalogue};
use std::alloc::Global;
use text_line_reader::read_report;
use txn::{Catalogue, Fault, Outcome, Report, TaskId, TxId};
use txn_text::{ReadFault, print_report};

/// The report of a run of the two increments.
pub(crate) const REPORT: &str =
    "base 0\nx 5 0\nentry 1 0 inc returned 6\nentry 2 1 inc returned 7\nnow 2\nx 7 2\nend\n";

/// What is asked of a report that is read. Each that is read is printed as the same bytes.
enum Asked {
    /// It tells the two increments.
    Increments,
    /// It tells a parked task, and one that was given up.
    Tasks,
    /// Its one entry ended outside a table.
    Outside,
    /// It is refused so.
    Refused(ReadFault),
    Nothing,
}

/// A report of which an entry ended outside a table.
const OUTSIDE: &str = "base 0\nentry 1 0 t outside\nnow 1\nend\n";

const REPORTS: &[(&str, &str, Asked)] = &[
    (INCREMENTS, REPORT, Asked::Increments),
    (
        INCREMENTS,
        "base 2\nx 7 2\nnow 2\nx 7 2\nparked 0 inc\nmemory 1 inc\nend\n",
        Asked::Tasks,
    ),
    (
        INCREMENTS,
        "base 0\nx -9223372036854775808 0\nentry 1 1 inc overflow\nnow 1\nx 0 0\nend\n",
        Asked::Nothing,
    ),
    (
        INCREMENTS,
        "base 65536\nx 0 65536\nentry 0 0 inc zerodiv\nentry 7 1 inc threw -1\nnow 0\nx 0 0\nend\n",
        Asked::Nothing,
    ),
    // It is known where form 3 alone can say the file.
    (
        "(stm 3)(tx t (k) (skip) k)(run t 1 1)",
        OUTSIDE,
        Asked::Outside,
    ),
    (
        "(tx t (skip) 0)(run t 1)",
        OUTSIDE,
        Asked::Refused(ReadFault::Shape),
    ),
];

/// Whether the second of two entries is task 1's, of the first transaction, which returned 7.
fn tells_entries(report: &Report) -> bool {
    match report.entries.get(1) {
        Some(entry) => {
            report.entries.len() == 2
                && entry.task == TaskId(1)
                && entry.tx == TxId(0)
                && entry.outcome == Outcome::Returned(7)
        }
        None => false,
    }
}

fn tells_variables(report: &Report) -> bool {
    report.base == 0
        && report.base_vars.as_slice() == [(5, 0)].as_slice()
        && report.now == 2
        && report.now_vars.as_slice() == [(7, 2)].as_slice()
}

fn tells_tasks(report: &Report) -> bool {
    report.parked.as_slice() == [(TaskId(0), TxId(0))].as_slice()
        && report.memory.as_slice() == [(TaskId(1), TxId(0))].as_slice()
}

fn tells_outside(report: &Report) -> bool {
    match report.entries.first() {
        Some(entry) => entry.outcome == Outcome::Thrown(Fault::Outside),
        None => false,
    }
}

/// Whether that is so of a report that was read.
fn is_so_of(report: &Report, asked: &Asked) -> bool {
    match asked {
        Asked::Increments => tells_variables(report) && tells_entries(report),
        Asked::Tasks => tells_tasks(report),
        Asked::Outside => tells_outside(report),
        Asked::Refused(_) => false,
        Asked::Nothing => true,
    }
}

/// Whether that is so of the text, as a report of the catalogue's file.
fn is_read(alloc: Global, catalogue: &Catalogue, text: &str, asked: &Asked) -> bool {
    let report = match read_report(alloc, text.as_bytes(), catalogue) {
        Ok(report) => report,
        Err(fault) => return matches!(asked, Asked::Refused(wanted) if *wanted == fault),
    };
    match print_report(alloc, catalogue, &report) {
        Ok(printed) => printed.as_str() == text && is_so_of(&report, asked),
        Err(_) => false,
    }
}

/// Whether that is so of the text, as a report of the file.
fn is_so(alloc: Global, file: &str, text: &str, asked: &Asked) -> bool {
    match catalogue(alloc, file) {
        Some(catalogue) => is_read(alloc, &catalogue, text, asked),
        None => false,
    }
}

#[test]
fn reports_are_read_and_printed_again(rt: HostRuntime) {
    for (file, text, asked) in REPORTS {
        assert!(rt; is_so(rt.alloc(), file, text, asked), "of {text}");
    }
}
