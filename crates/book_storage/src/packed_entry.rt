//! An entry of a journal in 16 bytes.

ghost use Rattle.std.specs.Prelude.{◌≡◌, ◌≤◌, ◌<◌};
ghost use Rattle.txn_programs.specs.declared.limits.TheConstants.{MAX_TASKS, MAX_TRANSACTIONS};

use std::marker::Model;
use txn_programs::{AlwaysId, Entry, Fault, Outcome, TaskId, TxId};

/// How a task ended; what is told with it is the packed entry's value.
#[derive(Clone, Copy)]
pub(crate) enum How {
    Returned,
    User,
    Overflow,
    DivideByZero,
    Broken,
    Outside,
    Retries,
}

/// An entry of a journal, in 16 bytes where an `Entry` has 40: no number of a journal is above the most
/// tasks that there are. A clause sees the entry.
#[derive(Drop)]
pub struct PackedEntry {
    /// What it returned or threw, or the number of the standing condition that it broke; else 0.
    value: i64,
    number: u32,
    task: u16,
    tx: u8,
    how: How,
}

impl Model for PackedEntry {
    ghost use Rattle.txn_programs.specs.declared.report.Entry.{Entry};

    ghost Value = { Entry };

    ghost use Rattle.book_storage.specs.PackedEntries.{entry_of, IsPacked};

    ghost view = { entry_of };

    ghost invariant = { IsPacked };
}

impl PackedEntry {
    /// The packed form of an entry whose numbers are below the limits.
    #[inline(always)]
    pub fn new(entry: Entry) -> PackedEntry
        requires number { entry.number ≤ MAX_TASKS }
        requires task { entry.task.0 < MAX_TASKS }
        requires tx { entry.tx.0 < MAX_TRANSACTIONS }
        ensures { result ≡ entry }
    {
        let (how, value) = match entry.outcome {
            Outcome::Returned(value) => (How::Returned, value),
            Outcome::Thrown(Fault::User(value)) => (How::User, value),
            Outcome::Thrown(Fault::Overflow) => (How::Overflow, 0),
            Outcome::Thrown(Fault::DivideByZero) => (How::DivideByZero, 0),
            Outcome::Thrown(Fault::Broken(condition)) => (How::Broken, i64::from(condition.0)),
            Outcome::Thrown(Fault::Outside) => (How::Outside, 0),
            Outcome::Retries => (How::Retries, 0),
        };
        PackedEntry {
            value,
            number: entry.number as u32,
            task: entry.task.0 as u16,
            tx: entry.tx.0 as u8,
            how,
        }
    }

    /// The entry that it tells.
    #[inline(always)]
    pub fn entry(&self) -> Entry
        ensures { result ≡ self.now }
    {
        let outcome = match self.how {
            How::Returned => Outcome::Returned(self.value),
            How::User => Outcome::Thrown(Fault::User(self.value)),
            How::Overflow => Outcome::Thrown(Fault::Overflow),
            How::DivideByZero => Outcome::Thrown(Fault::DivideByZero),
            How::Broken => Outcome::Thrown(Fault::Broken(AlwaysId(self.value as u32))),
            How::Outside => Outcome::Thrown(Fault::Outside),
            How::Retries => Outcome::Retries,
        };
        Entry {
            number: u64::from(self.number),
            task: TaskId(u32::from(self.task)),
            tx: TxId(u32::from(self.tx)),
            outcome,
        }
    }
}
