//! What a store shows.

use book::{Counts, Standing};
use checker::{Verdict, check};
use std::alloc::Global;
use stm_store::{ReportFault, Store, Ticket};
use txn::Outcome;

/// What a store is asked, with what it has to answer.
pub(crate) enum Look {
    Spare(usize),
    Tasks(usize),
    /// Whether the next chapter would have room.
    HasRoomNext(bool),
    /// How many are ready, running, parked, done and given up.
    Counts([usize; 5]),
    Chapter(u64),
    Entered(u64),
    Outcome(u64, Option<Outcome>),
    Standing(u64, Option<Standing>),
    Value(&'static str, Option<(i64, u64)>),
    /// The cell of this number in the table at this place.
    Cell(usize, u32, Option<(i64, u64)>),
    /// What is copied of the table at this place from the cell of this number on, into room for four.
    Cells(usize, u32, &'static [i64]),
    /// Its present values.
    Values(&'static [i64]),
    /// Its file is this text.
    File(&'static str),
    /// Its report, with no turn given, is this text.
    Report(&'static str),
    /// A task is ready or running.
    WorkLeft,
    /// Its file and its report are a pair that a check finds good.
    Good,
}

/// Whether its file and its report, with no turn given, are a pair that a check finds good.
fn agrees(alloc: Global, store: &Store) -> bool {
    let (Ok(file), Ok(report)) = (store.file(), store.report_now()) else {
        return false;
    };
    match check(alloc, file.as_bytes(), report.as_bytes()) {
        Ok(verdict) => verdict == Verdict::Good,
        Err(_) => false,
    }
}

fn has_counts(counts: Counts, wanted: [usize; 5]) -> bool {
    [
        counts.ready,
        counts.running,
        counts.parked,
        counts.done,
        counts.given_up,
    ] == wanted
}

fn has_values(store: &Store, values: &[i64]) -> bool {
    match store.values() {
        Ok(present) => present.as_slice() == values,
        Err(_) => false,
    }
}

/// Whether these are copied, and what is behind them stays.
fn has_cells(store: &Store, table: usize, from: u32, cells: &[i64]) -> bool {
    let mut room = [-9; 4];
    let count = store.cells(table, from, &mut room);
    count == cells.len()
        && room.starts_with(cells)
        && room.iter().skip(count).all(|value| *value == -9)
}

fn has_file(store: &Store, text: &str) -> bool {
    match store.file() {
        Ok(file) => file.as_str() == text,
        Err(_) => false,
    }
}

fn has_report(store: &Store, text: &str) -> bool {
    match store.report_now() {
        Ok(report) => report.as_str() == text,
        Err(_) => false,
    }
}

fn has_work_left(store: &Store) -> bool {
    match store.report_now() {
        Ok(_) => false,
        Err(fault) => fault == ReportFault::WorkLeft,
    }
}

/// Whether the store shows this.
pub(crate) fn shows(alloc: Global, store: &Store, look: &Look) -> bool {
    match look {
        Look::Spare(spare) => store.spare() == *spare,
        Look::Tasks(tasks) => store.tasks() == *tasks,
        Look::HasRoomNext(has) => store.has_room_next() == *has,
        Look::Counts(counts) => has_counts(store.counts(), *counts),
        Look::Chapter(chapter) => store.chapter() == *chapter,
        Look::Entered(entered) => store.entered() == *entered,
        Look::Outcome(ticket, outcome) => store.outcome_of(Ticket(*ticket)) == *outcome,
        Look::Standing(ticket, standing) => store.standing_of(Ticket(*ticket)) == *standing,
        Look::Value(name, value) => store.value(name) == *value,
        Look::Cell(table, index, cell) => store.cell(*table, *index) == *cell,
        Look::Cells(table, from, cells) => has_cells(store, *table, *from, cells),
        Look::Values(values) => has_values(store, values),
        Look::File(text) => has_file(store, text),
        Look::Report(text) => has_report(store, text),
        Look::WorkLeft => has_work_left(store),
        Look::Good => agrees(alloc, store),
    }
}
