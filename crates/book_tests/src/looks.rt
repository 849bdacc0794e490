//! What is seen of a book, and what its report says.

use book::{Book, Counts, Standing};
use std::alloc::Global;
use txn::{Arguments, Call, Catalogue, Entry, Outcome, Report, TaskId, TxId, VarId};
use txn_text::read_file;

/// Something that a book shows.
pub(crate) enum Look {
    /// How many entries the journal has.
    Journal(usize),
    /// How many tasks there are.
    Tasks(usize),
    /// How many more may be submitted.
    Spare(usize),
    /// Whether the task runs the transaction.
    Runs(TaskId, TxId, bool),
    /// The arguments of the task, which there has to be.
    Given(TaskId, &'static [i64]),
    /// How many tasks are ready, running, parked, done and given up.
    Stand([usize; 5]),
    /// The present value of a variable, by itself and among all, and its version.
    Present(VarId, Option<(i64, u64)>),
    /// Whether the catalogue of a text is its own, and whether that declares what it does.
    IsFor(&'static str, bool, bool),
    /// How the task stands, and what its entry records.
    Task(TaskId, Standing, Option<Outcome>),
    /// How many entries there were in all chapters.
    EnteredInAll(u64),
    /// How many tasks its catalogue has, and the last run there, which gives no arguments.
    Grown(usize, (TxId, u32)),
    /// The last run of its catalogue: one task of the transaction with these arguments.
    GrownBy(TxId, &'static [i64]),
}

/// Something that the report of a book says.
pub(crate) enum Said {
    /// Of x: the number, value and version of the base, how many entries, and the number, value and
    /// version now.
    X((u64, i64, u64), usize, (u64, i64, u64)),
    Entries(&'static [Entry]),
    /// The tasks of the entries.
    Entered(&'static [TaskId]),
    Parked(&'static [(TaskId, TxId)]),
    Memory(&'static [(TaskId, TxId)]),
    /// How many variables, and what the last one is now, with its version.
    Last(usize, (i64, u64)),
    /// The number of the last entry.
    Now(u64),
}

/// Whether as many tasks are ready, running, parked, done and given up.
fn stand(book: &Book<'_>, wanted: &[usize; 5]) -> bool {
    let counts = Counts {
        ready: wanted[0],
        running: wanted[1],
        parked: wanted[2],
        done: wanted[3],
        given_up: wanted[4],
    };
    book.counts() == counts && book.is_idle() == (wanted[0] == 0 && wanted[1] == 0)
}

/// Whether it is for the catalogue of a text, and is declared by it, as wanted.
fn is_for(alloc: Global, book: &Book<'_>, text: &str, is_so: bool, declares: bool) -> bool {
    match read_file(alloc, text.as_bytes()) {
        Ok(other) => book.is_for(&other) == is_so && book.declares(&other) == declares,
        Err(_) => false,
    }
}

/// Whether the task, which there has to be, stands so, and its entry records this.
fn stands(book: &Book<'_>, task: TaskId, standing: Standing, outcome: Option<Outcome>) -> bool {
    (task.0 as usize) < book.tasks()
        && book.standing(task) == standing
        && book.outcome(task) == outcome
}

/// Whether the variable has this value and version, and that value among all present ones.
fn is_present(book: &Book<'_>, variable: VarId, wanted: &Option<(i64, u64)>) -> bool {
    let value = book.values().get(variable.0 as usize);
    let is_value = match wanted {
        Some(pair) => value == Some(&pair.0),
        None => value.is_none(),
    };
    book.present(variable) == *wanted && is_value
}

fn is_grown(alloc: Global, book: &Book<'_>, tasks: usize, last: (TxId, u32)) -> bool {
    let call = Call {
        tx: last.0,
        arguments: Arguments::none(),
    };
    match book.catalogue(alloc) {
        Ok(grown) => grown.tasks() == tasks && grown.runs().last() == Some(&(call, last.1)),
        Err(_) => false,
    }
}

/// Whether the last run of its catalogue is one task of the transaction with these arguments.
fn is_grown_by(alloc: Global, book: &Book<'_>, tx: TxId, arguments: &[i64]) -> bool {
    let Ok(grown) = book.catalogue(alloc) else {
        return false;
    };
    match grown.runs().last() {
        Some(run) => run.1 == 1 && run.0.tx == tx && run.0.arguments.as_slice() == arguments,
        None => false,
    }
}

/// Whether there is the task, and it has these arguments.
fn is_given(book: &Book<'_>, task: TaskId, arguments: &[i64]) -> bool {
    (task.0 as usize) < book.tasks() && book.task_arguments(task) == arguments
}

/// Whether the book shows this.
pub(crate) fn shows(alloc: Global, book: &Book<'_>, look: &Look) -> bool {
    match look {
        Look::Journal(count) => book.journal_len() == *count,
        Look::Tasks(count) => book.tasks() == *count,
        Look::Spare(count) => book.spare() == *count,
        Look::Runs(task, tx, is_so) => book.runs(*task, *tx) == *is_so,
        Look::Given(task, arguments) => is_given(book, *task, arguments),
        Look::Stand(wanted) => stand(book, wanted),
        Look::Present(variable, wanted) => is_present(book, *variable, wanted),
        Look::IsFor(text, is_so, declares) => is_for(alloc, book, text, *is_so, *declares),
        Look::Task(task, standing, outcome) => stands(book, *task, *standing, *outcome),
        Look::EnteredInAll(count) => book.entered() == *count,
        Look::Grown(tasks, last) => is_grown(alloc, book, *tasks, *last),
        Look::GrownBy(tx, arguments) => is_grown_by(alloc, book, *tx, arguments),
    }
}

/// Whether the entries are of these tasks.
fn are_of(entries: &[Entry], tasks: &[TaskId]) -> bool {
    for place in 0..entries.len() {
        if tasks.get(place) != Some(&entries[place].task) {
            return false;
        }
    }
    entries.len() == tasks.len()
}

fn tells_x(report: &Report, base: (u64, i64, u64), entries: usize, now: (u64, i64, u64)) -> bool {
    report.base == base.0
        && report.base_vars.first() == Some(&(base.1, base.2))
        && report.entries.len() == entries
        && report.now == now.0
        && report.now_vars.first() == Some(&(now.1, now.2))
}

fn tells(report: &Report, said: &Said) -> bool {
    match said {
        Said::X(base, entries, now) => tells_x(report, *base, *entries, *now),
        Said::Entries(entries) => report.entries.as_slice() == *entries,
        Said::Entered(tasks) => are_of(report.entries.as_slice(), tasks),
        Said::Parked(tasks) => report.parked.as_slice() == *tasks,
        Said::Memory(tasks) => report.memory.as_slice() == *tasks,
        Said::Last(count, last) => {
            report.now_vars.len() == *count && report.now_vars.last() == Some(last)
        }
        Said::Now(number) => report.now == *number,
    }
}

/// Whether the report of the book says this.
pub(crate) fn says(alloc: Global, book: &Book<'_>, said: &Said) -> bool {
    match book.report(alloc) {
        Ok(report) => tells(&report, said),
        Err(_) => false,
    }
}
