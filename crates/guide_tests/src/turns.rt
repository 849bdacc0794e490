//! A book of one's own, turn by turn, with no other thread: take a task, let it have its turn, look at what became of
//! it.

use std::alloc::Global;
use stm_library::{Book, Catalogue, Cells, Memory, Report, Serial, TxId, read_file};

/// Each task has one turn, in order; then the report.
fn each_in_turn(alloc: Global, catalogue: &Catalogue) -> Result<Report, Memory> {
    let (cells, publisher) = Cells::unread(alloc, catalogue.initial())?;
    let mut book = Book::open(alloc, catalogue, &cells, publisher)?;
    for _turn in 0..1000 {
        let Some(task) = book.take() else {
            break;
        };
        match book.serial(alloc, task) {
            Serial::Committed(_number) => {}
            Serial::Parked => {}
            Serial::Abandoned => return Err(Memory),
            Serial::NotRunning => {}
        }
    }
    book.report(alloc)
}

/// All tasks have their turns, and then one task more of the transaction, which may wake others.
/// `None` where there is no such transaction, or there are as many tasks as there may be.
fn and_one_more(alloc: Global, catalogue: &Catalogue, tx: TxId) -> Result<Option<Report>, Memory> {
    if catalogue.tasks() == 65536 || !catalogue.is_callable(tx, &[]) {
        return Ok(None);
    }
    let (cells, publisher) = Cells::unread(alloc, catalogue.initial())?;
    let mut book = Book::open_with_room(alloc, catalogue, &cells, publisher, 1)?;
    book.drain(alloc, 0);
    let _task = book.submit(tx, &[]);
    book.drain(alloc, 0);
    Ok(Some(book.into_report(alloc)?))
}

const FILE: &str =
    "(var full 0)(tx get (if (eq full 0) (retry) (set full 0)) 0)(tx put (set full 1) 0)(run get 2)(run put 1)";

/// Whether of three tasks one is parked.
fn parks_one(alloc: Global, catalogue: &Catalogue) -> bool {
    match each_in_turn(alloc, catalogue) {
        Ok(report) => report.now == 2 && report.parked.len() == 1,
        Err(_) => false,
    }
}

#[test]
fn who_waits_is_parked(rt: HostRuntime) {
    match read_file(rt.alloc(), FILE.as_bytes()) {
        Ok(catalogue) => assert!(rt; parks_one(rt.alloc(), &catalogue)),
        Err(_) => panic!(rt; "no catalogue"),
    }
}

/// Whether it is woken by one that puts.
fn wakes_it(alloc: Global, catalogue: &Catalogue) -> bool {
    match and_one_more(alloc, catalogue, TxId(1)) {
        Ok(Some(report)) => report.now == 4 && report.parked.is_empty(),
        _ => false,
    }
}

#[test]
fn who_waits_is_woken_by_a_submitted_task(rt: HostRuntime) {
    match read_file(rt.alloc(), FILE.as_bytes()) {
        Ok(catalogue) => assert!(rt; wakes_it(rt.alloc(), &catalogue)),
        Err(_) => panic!(rt; "no catalogue"),
    }
}
