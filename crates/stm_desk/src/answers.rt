//! What a desk answers, and what its history lists.

use std::snapshot::Snapshot;
use stm_store::{Job, Refused, Ticket};
use txn::{Call, Outcome};

/// What became of a task.
#[derive(Clone, Copy, Debug, PartialEq, Eq)]
pub enum Became {
    /// It was entered: the call that it makes had this outcome.
    Entered(Call, Outcome),
    /// It was given up, and is entered nowhere.
    Left,
}

/// The entry of a call.
#[derive(Clone, Copy, Debug, PartialEq, Eq)]
pub struct Answer {
    /// Of the task that the call made.
    pub ticket: Ticket,
    pub outcome: Outcome,
    /// The chapter of the entry.
    pub chapter: u64,
    /// The number of the entry in its chapter.
    pub entry: u64,
    /// The place of the entry in the history, from 0.
    pub place: u64,
}

/// What came of a call at once.
#[derive(Clone, Copy, Debug, PartialEq, Eq)]
pub enum Asked {
    /// It was entered.
    Ended(Answer),
    /// It retries: its task, which has this ticket, waits for a change of what it read.
    Waits(Ticket),
    /// It is long: its task runs, and is evaluated by whoever asked, outside the desk.
    Runs(Job),
    /// The chapter has no room for its task, but the next one would have: `end_chapter` begins that, once the host said
    /// of the one before how it went. There is no task of it. Where only what ran left the room, that has had its turn.
    ChapterFull,
}

/// A long call that waited and whose task runs again: whoever waits evaluates it, outside the desk.
#[derive(Clone, Copy, Debug, PartialEq, Eq)]
pub struct Due {
    /// Whose call it is.
    pub whose: u64,
    pub job: Job,
}

/// What became of a call that waited.
#[derive(Drop)]
pub struct Told {
    /// Whose call it was.
    pub whose: u64,
    pub ticket: Ticket,
    /// Its entry; or why there is none and never will be.
    pub answer: Result<Answer, Refused>,
    pub call: Snapshot<Call>,
}
