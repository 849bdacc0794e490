//! The texts of a file, and of a report that no run comes to.

ghost use Rattle.std.specs.Prelude.{◌≡◌, ◌+◌, IfOk, length};
ghost use Rattle.txn_programs.specs.Listing.{Listing, tasks};
ghost use Rattle.txn_programs.specs.LawfulReport.{FitsCatalogue};
ghost use Rattle.txn_programs.specs.Told.{told};

use std::alloc::{AllocError, Global};
use txn::{Catalogue, Entry, Fault, Outcome, Report, TaskId, TxId};
use txn_text::{print_file, print_report};

/// Whether the catalogue's file is printed so.
pub(crate) fn prints(alloc: Global, catalogue: &Catalogue, canonical: &str) -> bool {
    match print_file(alloc, catalogue) {
        Ok(text) => text.as_str() == canonical,
        Err(_) => false,
    }
}

/// The entry of a task of the first transaction, with the number that follows the task's.
fn entry(task: u32, outcome: Outcome) -> Entry
    ensures { result
        ≡ record { number = task + 1; task = record { 0 = task }; tx = record { 0 = 0 }; outcome = outcome } }
{
    Entry {
        number: u64::from(task) + 1,
        task: TaskId(task),
        tx: TxId(0),
        outcome,
    }
}

/// Five entries, one for each way to end, and two tasks that are left.
#[tactic(auto, using(txn_programs::proofs::Unwritten::none_begin))]
fn report(alloc: Global) -> Result<Report, AllocError>
    ensures { (l : Listing) → length l.initial ≡ 0 → length l.transactions ≡ 1 → length (tasks l) ≡ 7
        → IfOk result (λ r. FitsCatalogue l (told r)) }
{
    Ok(Report {
        base: 0,
        base_vars: Vec::new(alloc),
        entries: vec![in alloc;
            entry(0, Outcome::Returned(i64::MIN)),
            entry(1, Outcome::Thrown(Fault::User(-7))),
            entry(2, Outcome::Thrown(Fault::Overflow)),
            entry(3, Outcome::Thrown(Fault::DivideByZero)),
            entry(4, Outcome::Thrown(Fault::Outside)),
        ]?,
        now: 5,
        now_vars: Vec::new(alloc),
        parked: vec![in alloc; (TaskId(5), TxId(0))]?,
        memory: vec![in alloc; (TaskId(6), TxId(0))]?,
    })
}

/// Whether the report is printed so for a catalogue of seven tasks of one transaction.
pub(crate) fn is_report(alloc: Global, catalogue: &Catalogue, lines: &str) -> bool {
    if catalogue.initial().len() != 0 || catalogue.tx_count() != 1 || catalogue.tasks() != 7 {
        return false;
    }
    let Ok(report) = report(alloc) else {
        return false;
    };
    match print_report(alloc, catalogue, &report) {
        Ok(text) => text.as_str() == lines,
        Err(_) => false,
    }
}
