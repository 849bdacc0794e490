//! The lines of a journal, and what is handed on of it.

ghost use Rattle.std.specs.Prelude.{◌≡◌};

use book::Book;
use book_storage::{PackedEntry, RunReport, entries_of};
use cells::Cells;
use std::alloc::Global;
use std::mem::size_of;
use txn::{AlwaysId, Catalogue, Entry, Fault, Memory, Outcome, Report, TaskId, TxId};
use txn_text::read_file;

/// The last task of the most that there are, of the last transaction of the most.
const LAST: Entry = Entry {
    number: 65_536,
    task: TaskId(65_535),
    tx: TxId(255),
    outcome: Outcome::Returned(i64::MIN),
};

/// An entry with this outcome.
fn ends(outcome: Outcome) -> Entry
    ensures number { result.number ≡ 2 }
    ensures task { result.task.0 ≡ 1 }
    ensures tx { result.tx.0 ≡ 3 }
{
    Entry {
        number: 2,
        task: TaskId(1),
        tx: TxId(3),
        outcome,
    }
}

/// Whether a line of an entry with this outcome tells it.
fn is_told(outcome: Outcome) -> bool {
    PackedEntry::new(ends(outcome)).entry() == ends(outcome)
}

const OUTCOMES: &[Outcome] = &[
    Outcome::Returned(i64::MAX),
    Outcome::Thrown(Fault::User(-7)),
    Outcome::Thrown(Fault::Overflow),
    Outcome::Thrown(Fault::DivideByZero),
    Outcome::Thrown(Fault::Outside),
    Outcome::Thrown(Fault::Broken(AlwaysId(63))),
    Outcome::Thrown(Fault::Broken(AlwaysId(u32::MAX))),
    Outcome::Retries,
];

#[test]
fn a_line_tells_each_outcome(rt: HostRuntime) {
    for outcome in OUTCOMES {
        assert!(rt; is_told(*outcome));
    }
    let is_last = PackedEntry::new(LAST).entry() == LAST;
    assert!(rt; is_last && size_of::<PackedEntry>() == 16);
}

/// A report of two entries and of no variable, with its journal in lines.
fn in_lines(alloc: Global) -> Result<RunReport, Memory> {
    let mut journal = Vec::new(alloc);
    journal.push(PackedEntry::new(ends(Outcome::Returned(5))))?;
    journal.push(PackedEntry::new(LAST))?;
    let rest = Report {
        base: 1,
        base_vars: Vec::new(alloc),
        entries: Vec::new(alloc),
        now: 65_536,
        now_vars: Vec::new(alloc),
        parked: Vec::new(alloc),
        memory: Vec::new(alloc),
    };
    Ok(RunReport { journal, rest })
}

/// Whether the lines become their entries, and the report has these.
fn become_entries(alloc: Global, run: RunReport) -> bool {
    let Ok(entries) = entries_of(alloc, &run.journal) else {
        return false;
    };
    let are_so = entries.as_slice() == [ends(Outcome::Returned(5)), LAST].as_slice();
    match run.report(alloc) {
        Ok(report) => are_so
            && report.entries == entries
            && (report.base, report.now) == (1, 65_536),
        Err(_) => false,
    }
}

#[test]
fn lines_become_their_entries(rt: HostRuntime) {
    match in_lines(rt.alloc()) {
        Ok(run) => assert!(rt; become_entries(rt.alloc(), run)),
        Err(_) => panic!(rt; "no lines"),
    }
}

/// Whether what is left of a book becomes what it told.
fn is_told_again(alloc: Global, told: &Report, left: RunReport) -> bool {
    let are_few = left.journal.len() == 1 && left.rest.entries.is_empty();
    match left.report(alloc) {
        Ok(report) => are_few && report == *told && (told.base, told.now) == (2, 3),
        Err(_) => false,
    }
}

/// Whether a book leaves what it tells.
fn leaves_what_it_tells(alloc: Global, mut book: Book<'_>) -> bool {
    book.drain(alloc, 2);
    let told = book.report(alloc);
    match (told, book.into_run_report(alloc)) {
        (Ok(told), Ok(left)) => is_told_again(alloc, &told, left),
        _ => false,
    }
}

/// So it is of a book of the catalogue.
fn is_left(alloc: Global, catalogue: &Catalogue) -> bool {
    let Ok((cells, publisher)) = Cells::unread(alloc, catalogue.initial()) else {
        return false;
    };
    match Book::open(alloc, catalogue, &cells, publisher) {
        Ok(book) => leaves_what_it_tells(alloc, book),
        Err(_) => false,
    }
}

const FOUR: &str =
    "(var x 5)(tx up (set x (add x 1)) x)(tx no (throw 7) 0)(tx wait (retry) 0)(run up 2)(run no 1)(run wait 1)";

#[test]
fn a_book_leaves_what_it_tells(rt: HostRuntime) {
    match read_file(rt.alloc(), FOUR.as_bytes()) {
        Ok(catalogue) => assert!(rt; is_left(rt.alloc(), &catalogue)),
        Err(_) => panic!(rt; "no catalogue"),
    }
}
