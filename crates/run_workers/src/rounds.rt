//! The times under the lock of a worker that tries light tasks together.

ghost use Rattle.std.specs.Prelude.{◌≡◌, ◌≢◌, ◌⊎◌, ◌↔◌, ◌<◌, ◌≤◌, length, All, IfSome, IsTrue, None};
ghost use Rattle.txn_programs.specs.declared.limits.TheConstants.{MAX_VARIABLES};
ghost use Rattle.run_workers.specs.Standing.{HasTask, IsOver, NoneReady, ArePresent};
ghost use Rattle.run_workers.specs.declared.trials.How.{How};

use crate::gate::Gate;
use crate::held::hold;
use crate::shared::{Named, Naming, drop_task, end, next, present, size, turn};
use crate::trials::{How, Trial, are_busy, give_one};
use crate::waiting::lock;
use crate::worker::Crew;
use arrayvec::ArrayVec;
use attempt::Attempt;
use std::sync::Wait;
use txn::weights::Size;
use txn::{Catalogue, TaskId};
use txn_programs::limits::MAX_VARIABLES;

/// How many tasks are taken in one time under the lock at most.
const TAKES: u32 = 1_000;

/// How much the tasks that have their turns in it weigh together at most, but for the last one.
const ROUND_WEIGHT: u32 = 40_000;

/// The present values, as they were at some time under the lock, where there are so few.
pub(crate) type Values = ArrayVec<i64, MAX_VARIABLES>;

/// Whether a copy has room for all values.
pub(crate) fn has_room(catalogue: &Catalogue) -> bool
    ensures { IsTrue result ↔ (length catalogue.now.initial ≤ MAX_VARIABLES) }
{
    catalogue.initial().len() <= MAX_VARIABLES
}

/// Copies values, where a copy has room for all.
fn copy(from: &[i64], values: &mut Values)
    ensures { length from.now ≤ MAX_VARIABLES → values.new.items ≡ from.now }
{
    values.clear();
    if from.len() > MAX_VARIABLES {
        return;
    }
    match values.try_extend_from_slice(from) {
        Ok(()) => {}
        Err(_) => unreachable!(),
    }
}

/// Begins with a task that was taken, and takes the next ones, all in one time under the lock: a short one
/// has its turn at once or is held, a light one is given to a trial, and before any other one no more is
/// taken. What is left is a task that was taken and is still to be run, `None` if there is none.
pub(crate) fn begin<'b, R: Wait, G: Gate, N: Naming>(
    rt: &R,
    crew: &Crew<'_, 'b, G, N>,
    attempt: &mut Attempt<'b>,
    trials: &mut [Trial<'b, N>],
    values: &mut Values,
    first: TaskId,
) -> Option<TaskId>
    requires exists { HasTask N.catalogue first }
    ensures left { IfSome result (HasTask N.catalogue) }
    ensures values { length N.catalogue.initial ≤ MAX_VARIABLES → ArePresent N.catalogue values.new.items }
    ensures wide { length N.catalogue.initial ≤ MAX_VARIABLES
        → length values.new.items ≡ length N.catalogue.initial }
{
    let sizes = crew.sizes.as_slice();
    let mut named = lock(rt, crew.shared);
    let left = fill(&mut named, crew.every, sizes, attempt, trials, first);
    copy(present(&named), values);
    left
}

/// Brings what was tried to the book, and takes the next tasks as `begin` does, all in one time under the
/// lock.
pub(crate) fn round<'b, R: Wait, G: Gate, N: Naming>(
    rt: &R,
    crew: &Crew<'_, 'b, G, N>,
    attempt: &mut Attempt<'b>,
    trials: &mut [Trial<'b, N>],
    values: &mut Values,
) -> Option<TaskId>
    ensures left { IfSome result (HasTask N.catalogue) }
    ensures values { length N.catalogue.initial ≤ MAX_VARIABLES → ArePresent N.catalogue values.new.items }
    ensures wide { length N.catalogue.initial ≤ MAX_VARIABLES
        → length values.new.items ≡ length N.catalogue.initial }
{
    let sizes = crew.sizes.as_slice();
    let mut named = lock(rt, crew.shared);
    bring_all(&mut named, crew.every, crew.tries, attempt, trials);
    let left = refill(&mut named, crew.every, sizes, attempt, trials);
    copy(present(&named), values);
    left
}

/// Brings what was tried to the book, so that no trial has a task any more. A task that is to be tried has
/// its turn at once.
pub(crate) fn close<'b, R: Wait, G: Gate, N: Naming>(
    rt: &R,
    crew: &Crew<'_, 'b, G, N>,
    attempt: &mut Attempt<'b>,
    trials: &mut [Trial<'b, N>],
)
    ensures { All (λ t. t.how ≡ How.Idle) trials.new }
{
    let mut named = lock(rt, crew.shared);
    bring_all(&mut named, crew.every, 0, attempt, trials);
}

/// Brings what each trial came to to the book.
fn bring_all<'b, N: Naming>(
    named: &mut Named<'b, N>,
    every: u32,
    tries: u32,
    attempt: &mut Attempt<'b>,
    trials: &mut [Trial<'b, N>],
)
    requires every { every ≡ N.every }
    ensures idle { tries ≡ 0 → All (λ t. t.how ≡ How.Idle) trials.new }
{
    for trial in trials.iter_mut() {
        bring(named, every, tries, attempt, trial);
    }
}

/// Brings what a trial came to to the book. Where it was stale the task is to be tried once more, unless that
/// was the last of its tries, behind which it has its turn at once. A trial that has its task no more leaves
/// it over.
fn bring<'b, N: Naming>(
    named: &mut Named<'b, N>,
    every: u32,
    tries: u32,
    attempt: &mut Attempt<'b>,
    trial: &mut Trial<'b, N>,
)
    requires every { every ≡ N.every }
    ensures over { trial.old.how ≢ How.Idle → trial.new.how ≡ How.Idle → IsOver named.new.book trial.old.task }
    ensures rest { (trial.new.how ≡ How.Idle) ⊎ ((trial.new.how ≡ How.Begun) × (trial.new.stale < tries)) }
{
    match trial.how {
        How::Idle => return,
        How::Begun => {}
        How::Memory => {
            drop_task(named, trial.task);
            trial.how = How::Idle;
            return;
        }
        How::Ended => {
            if end(named, every, trial.task, &mut trial.attempt) {
                trial.how = How::Idle;
                return;
            }
            trial.stale = trial.stale.saturating_add(1);
        }
    }
    if trial.stale < tries {
        trial.how = How::Begun;
    } else {
        turn(named, every, attempt, trial.task);
        trial.how = How::Idle;
    }
}

/// Takes tasks as `begin` does, unless each trial has one.
fn refill<'b, N: Naming>(
    named: &mut Named<'b, N>,
    every: u32,
    sizes: &[Size],
    attempt: &mut Attempt<'b>,
    trials: &mut [Trial<'b, N>],
) -> Option<TaskId>
    requires every { every ≡ N.every }
    ensures left { IfSome result (HasTask N.catalogue) }
    ensures none { result ≡ None → NoneReady named.new.book ⊎ All (λ t. t.how ≢ How.Idle) trials.new }
{
    if are_busy(trials) {
        return None;
    }
    let first = next(named)?;
    fill(named, every, sizes, attempt, trials, first)
}

/// Takes tasks behind the first one, as `begin` says. None is left only where none is ready or each trial has
/// one.
fn fill<'b, N: Naming>(
    named: &mut Named<'b, N>,
    every: u32,
    sizes: &[Size],
    attempt: &mut Attempt<'b>,
    trials: &mut [Trial<'b, N>],
    first: TaskId,
) -> Option<TaskId>
    requires every { every ≡ N.every }
    requires exists { HasTask N.catalogue first }
    ensures left { IfSome result (HasTask N.catalogue) }
    ensures none { result ≡ None → NoneReady named.new.book ⊎ All (λ t. t.how ≢ How.Idle) trials.new }
{
    let mut task = first;
    let mut room = ROUND_WEIGHT;
    'takes: for _ in 0..TAKES {
        match size(named, sizes, task) {
            Size::Light(_) => {
                if !give_one(trials, task) {
                    return Some(task);
                }
            }
            Size::Short(weight) if room > 0 => {
                room = room.saturating_sub(weight);
                turn(named, every, attempt, task);
            }
            Size::Held(weight) if room > 0 => {
                room = room.saturating_sub(weight);
                hold(named, every, attempt, task);
            }
            Size::Short(_) | Size::Held(_) | Size::Long => return Some(task),
        }
        if are_busy(trials) {
            return None;
        }
        task = next(named)?;
    }
    Some(task)
}
