//! What does not hold of a report.

ghost use Rattle.std.specs.Prelude.{◌≡◌};
ghost use Rattle.explain_reports.specs.Flaws.{part_of};

use checker::Part;
use txn::{AlwaysId, Entry, Outcome, TxId};

/// A line of a report that names a task: which it is among those of its kind, counted from 0.
#[derive(Clone, Copy, PartialEq, Eq)]
pub enum TaskLine {
    Entry(usize),
    Parked(usize),
    Memory(usize),
}

/// The first thing that does not hold of a report, in the first part that does not hold. Variables
/// and entries are counted from 0.
#[derive(Clone, Copy, PartialEq, Eq)]
pub enum Flaw {
    /// This standing condition is not true on the base's values, and those before it are.
    Untrue(AlwaysId),
    /// The base has number 0, and this variable does not begin with this value, the file's, at
    /// version 0.
    Opening(usize, i64),
    /// This variable's version is above the base's number.
    Late(usize),
    /// In place of this entry replay has another: it has the next number, and ends as its
    /// transaction does there. That one is no entry where it retries.
    Entry(usize, Entry),
    /// The entries lead to this number.
    Number(u64),
    /// The entries lead to this value and version of this variable.
    Present(usize, i64, u64),
    /// The line's task runs this transaction, and not the one that it is named with.
    NotOwn(TaskLine, TxId),
    /// The line's task stands on a line before it.
    Again(TaskLine),
    /// The line's task is not larger than that of the line before it.
    Falls(TaskLine),
    /// The lines and the base account for too few tasks, or for too many.
    Count,
    /// This parked task's transaction does not retry on the present values, but ends so.
    Ends(usize, Outcome),
}

impl Flaw {
    /// The part of the report that it is in.
    pub fn part(self) -> Part
        ensures { result ≡ part_of self }
    {
        match self {
            Flaw::Untrue(_) | Flaw::Opening(..) | Flaw::Late(_) => Part::Base,
            Flaw::Entry(..) => Part::Entries,
            Flaw::Number(_) | Flaw::Present(..) => Part::Present,
            Flaw::NotOwn(..) | Flaw::Again(_) | Flaw::Falls(_) | Flaw::Count => Part::Tasks,
            Flaw::Ends(..) => Part::Parked,
        }
    }
}
