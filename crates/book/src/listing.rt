//! The tasks that a report lists.

ghost use Rattle.std.specs.Prelude.{◌≡◌, ◌<◌, ◌≤◌, length, map, IfOk, All};
ghost use Rattle.txn_programs.specs.Listing.{tasks as listed_tasks};
ghost use Rattle.txn_programs.specs.declared.limits.TheConstants.{MAX_TASKS};
ghost use Rattle.book.specs.Standings.{bare};
ghost use Rattle.book.specs.Turns.{listed, is_parked, is_given_up};

use crate::chapter::Chapter;
use crate::task::Slot;
use std::alloc::{AllocError, Global};
use txn::{TaskId, TxId};

/// The parked tasks, each with its transaction.
pub fn parked(
    alloc: Global,
    chapter: &Chapter<'_>,
    tasks: &[Slot],
) -> Result<Vec<(TaskId, TxId)>, AllocError>
    requires size { length tasks.now ≡ length (listed_tasks chapter.now.listing) }
    requires few { length tasks.now ≤ MAX_TASKS }
    ensures tasks { IfOk result (λ v. v.items ≡ listed is_parked chapter.now.listing 0 (map bare tasks.now)) }
    ensures known { IfOk result (λ v. All (λ p. p.1.0 < length chapter.now.listing.transactions) v.items) }
{
    let mut found = Vec::new(alloc);
    for i in 0..tasks.len() {
        if is_parked(&tasks[i]) {
            let task = TaskId(i as u32);
            found.push((task, chapter.transaction(task)))?;
        }
    }
    Ok(found)
}

/// The given-up tasks, each with its transaction.
pub fn given_up(
    alloc: Global,
    chapter: &Chapter<'_>,
    tasks: &[Slot],
) -> Result<Vec<(TaskId, TxId)>, AllocError>
    requires size { length tasks.now ≡ length (listed_tasks chapter.now.listing) }
    requires few { length tasks.now ≤ MAX_TASKS }
    ensures tasks { IfOk result (λ v. v.items ≡ listed is_given_up chapter.now.listing 0 (map bare tasks.now)) }
    ensures known { IfOk result (λ v. All (λ p. p.1.0 < length chapter.now.listing.transactions) v.items) }
{
    let mut found = Vec::new(alloc);
    for i in 0..tasks.len() {
        if is_given_up(&tasks[i]) {
            let task = TaskId(i as u32);
            found.push((task, chapter.transaction(task)))?;
        }
    }
    Ok(found)
}

fn is_parked(task: &Slot) -> bool
    ensures { result ≡ is_parked (bare task.now) }
{
    matches!(task, Slot::Parked(_))
}

fn is_given_up(task: &Slot) -> bool
    ensures { result ≡ is_given_up (bare task.now) }
{
    matches!(task, Slot::GivenUp)
}
