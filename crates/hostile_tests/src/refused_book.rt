//! What a refused opening, attempt, turn and report leave of a book.

use crate::on_many::{Use, is_right_on};
use crate::parts::{A, FAR, MANY};
use crate::uses::{entries_after_report, given_up_twice};
use attempt::{Attempt, Next};
use book::{Book, NotPlain, Serial};
use cells::Cells;
use std::alloc::Global;
use txn::{Catalogue, Report, TxId};

/// What is done with a book that was just opened.
#[derive(Clone, Copy)]
pub(crate) enum Script {
    Takes,
    GivesUp,
    Serves,
    ServesPlainly,
    Reports,
}

/// Opens a book of the catalogue, and follows the script: whether all is right, `None` where it is not opened.
pub(crate) fn over(alloc: Global, catalogue: &Catalogue, script: Script) -> Option<bool> {
    let (cells, publisher, passes) = Cells::open(alloc, catalogue.initial(), 0).ok()?;
    drop(passes);
    match Book::open(alloc, catalogue, &cells, publisher) {
        Ok(mut book) => Some(is_followed(alloc, &mut book, catalogue, script)),
        Err(_) => None,
    }
}

fn is_followed(alloc: Global, book: &mut Book<'_>, catalogue: &Catalogue, script: Script) -> bool {
    match script {
        Script::Takes => book.take() == Some(A),
        Script::GivesUp => gives_up(alloc, book, catalogue),
        Script::Serves => serves(alloc, book, catalogue),
        Script::ServesPlainly => serves_plainly(book, catalogue),
        Script::Reports => reports(alloc, book),
    }
}

/// Whether memory is refused to the attempt.
fn is_refused(attempt: &mut Attempt<'_>) -> bool {
    for _variable in 0..u8::MAX {
        match attempt.advance() {
            Next::Need(x) => {
                if attempt.supply(x, 6).is_err() {
                    return true;
                }
            }
            next => return next == Next::Memory,
        }
    }
    false
}

/// Where an attempt of task 0 is refused memory its task is given up, once.
fn gives_up(alloc: Global, book: &mut Book<'_>, catalogue: &Catalogue) -> bool {
    if catalogue.tasks() == 0 {
        return false;
    }
    let tx = catalogue.task_tx(A);
    let mut attempt = Attempt::new(alloc, catalogue, tx, catalogue.task_arguments(A));
    let is_refused = is_refused(&mut attempt);
    drop(attempt);
    !is_refused || given_up_twice(book) == Some((true, false)) && reports_given_up(alloc, book)
}

/// Whether the book reports task 0 given up, and no entry.
fn reports_given_up(alloc: Global, book: &Book<'_>) -> bool {
    match book.report(alloc) {
        Ok(report) => tells_given_up(&report),
        Err(_) => false,
    }
}

fn tells_given_up(report: &Report) -> bool {
    report.entries.is_empty() && report.memory.as_slice() == [(A, TxId(0))].as_slice()
}

/// A turn that is refused memory gives its task up, and changes nothing else.
fn serves(alloc: Global, book: &mut Book<'_>, catalogue: &Catalogue) -> bool {
    if book.take() != Some(A) || !book.is_for(catalogue) || book.tasks() == 0 {
        return false;
    }
    let how = book.serial(alloc, A);
    let is_given_up = how == Serial::Abandoned;
    (is_given_up || how == Serial::Committed(1))
        && (book.journal_len() == 0) == is_given_up
        && book.is_for(catalogue)
        && book.tasks() > 0
        && !book.give_up(A)
}

/// Whether these are the values of `FAR` at first.
fn is_at_first(values: &[i64]) -> bool {
    for place in 0..values.len() {
        if values[place] != if place == 0 { 290 } else { 6 } {
            return false;
        }
    }
    true
}

/// A plain turn that is refused memory changes nothing, and the second one commits, since one request is refused at
/// most.
fn serves_plainly(book: &mut Book<'_>, catalogue: &Catalogue) -> bool {
    if book.take() != Some(A) || !book.is_for(catalogue) || book.tasks() == 0 {
        return false;
    }
    let is_served = match book.turn_plainly(A) {
        Ok(_) => true,
        Err(why) => {
            why == NotPlain::Memory
                && book.journal_len() == 0
                && is_at_first(book.values())
                && book.is_for(catalogue)
                && book.tasks() > 0
                && book.turn_plainly(A).is_ok()
        }
    };
    is_served && book.journal_len() == 1
}

/// Of two reports one is refused at most, and the journal stays.
fn reports(alloc: Global, book: &mut Book<'_>) -> bool {
    book.drain(alloc, 0);
    let entries = book.journal_len();
    let (first, left) = entries_after_report(alloc, book);
    let (second, still_left) = entries_after_report(alloc, book);
    left == entries && still_left == entries && !(first && second)
}

/// What is so, the text of a catalogue, and what is done with it.
const USES: &[(&str, &str, Use)] = &[
    (
        "after a refused opening a book opens",
        MANY,
        Use::OpensBooks,
    ),
    (
        "a task without memory is given up once",
        MANY,
        Use::Book(Script::GivesUp),
    ),
    (
        "a turn without memory gives its task up",
        MANY,
        Use::Book(Script::Serves),
    ),
    (
        "a turn on far cells without memory gives its task up",
        FAR,
        Use::Book(Script::Serves),
    ),
    (
        "a plain turn without memory changes nothing",
        FAR,
        Use::Book(Script::ServesPlainly),
    ),
    (
        "a refused report leaves the journal",
        MANY,
        Use::Book(Script::Reports),
    ),
];

#[test]
fn a_refusal_leaves_the_book_as_it_has_to(rt: HostRuntime) {
    for &(what, text, how) in USES {
        assert!(rt; is_right_on(rt.alloc(), text, how), "{what}");
    }
}
