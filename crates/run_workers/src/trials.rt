//! Light tasks that a worker tries together, on a copy of the present values.
//!
//! A light task reads and writes nothing, so it makes no other one stale; what it costs beside the others
//! is the lock. So a worker takes some of them in one time under the lock, tries each with no lock held,
//! and brings their ends to the book in the next.

ghost use Rattle.std.specs.Prelude.{◌≡◌, ◌≢◌, length, true, All, IsTrue};
ghost use Rattle.std.specs.Coded.{codes};
ghost use Rattle.txn_programs.specs.Listing.{task_tx, task_program};
ghost use Rattle.attempt.specs.CodedProgram.{coded_program};
ghost use Rattle.attempt.specs.Room.{TakesMemory};
ghost use Rattle.run_workers.specs.Over.{is_over};
ghost use Rattle.run_workers.specs.Standing.{HasTask, ArePresent};
ghost use Rattle.run_workers.specs.declared.trials.How.{How};

use crate::gate::{Gate, Point, stop_at};
use crate::shared::Naming;
use attempt::Attempt;
use std::alloc::Global;
use std::marker::PhantomData;
use txn::{Catalogue, TaskId};

/// How many light tasks a worker has at once. More cost less of the lock, and more of them are stale.
const TOGETHER: usize = 6;

/// How a trial stands.
#[derive(Clone, Copy)]
pub(crate) enum How {
    /// It has no task.
    Idle,
    /// It has a task that is running, and is to be evaluated.
    Begun,
    /// Its attempt is an end of its task.
    Ended,
    /// A growth was refused: its task's transaction takes memory.
    Memory,
}

/// A light task, and its attempt.
#[derive(Drop)]
pub(crate) struct Trial<'b, N: Naming> {
    pub(crate) task: TaskId,
    pub(crate) attempt: Attempt<'b>,
    pub(crate) how: How,
    /// How many tries of the task were stale.
    pub(crate) stale: u32,
    of: PhantomData<N>,
    ghost exists: { HasTask N.catalogue task },
    ghost own: { how ≡ How.Ended
        → attempt.program ≡ task_program N.catalogue task } by { Prim.hlevel (codes, coded_program) },
    ghost known: { how ≡ How.Ended → attempt.variables ≡ length N.catalogue.initial },
    ghost over: { how ≡ How.Ended → is_over attempt.stand ≡ true },
    ghost short: { how ≡ How.Memory → TakesMemory N.catalogue (task_tx N.catalogue task) },
}

impl<'b, N: Naming> Trial<'b, N> {
    /// A trial with no task. The task that is named stands in for one.
    fn idle(alloc: Global, catalogue: &'b Catalogue, task: TaskId) -> Trial<'b, N>
        requires named { catalogue.now ≡ N.catalogue }
        requires exists { HasTask N.catalogue task }
    {
        let arguments = catalogue.task_arguments(task);
        Trial {
            task,
            attempt: Attempt::new(alloc, catalogue, catalogue.task_tx(task), arguments),
            how: How::Idle,
            stale: 0,
            of: PhantomData,
        }
    }

    /// It has this task from now on, which was taken.
    pub(crate) fn give(&mut self, task: TaskId)
        requires exists { HasTask N.catalogue task }
        ensures task { self.new.task ≡ task }
        ensures begun { self.new.how ≡ How.Begun }
        ensures untried { self.new.stale ≡ 0 }
    {
        self.how = How::Begun;
        self.task = task;
        self.stale = 0;
    }

    /// Brings its attempt to an end on these values, where it has a task.
    fn evaluate(&mut self, catalogue: &'b Catalogue, values: &[i64])
        requires named { catalogue.now ≡ N.catalogue }
        requires values { length values.now ≡ length catalogue.now.initial }
    {
        if self.how == How::Idle {
            return;
        }
        self.how = How::Begun;
        let task = self.task;
        let arguments = catalogue.task_arguments(task);
        self.attempt
            .restart(catalogue, catalogue.task_tx(task), arguments);
        match self.attempt.evaluate_on(values) {
            Ok(_) => self.how = How::Ended,
            Err(_) => self.how = How::Memory,
        }
    }
}

/// So many trials as a worker has, with no task. Where a growth was refused there are none.
pub(crate) fn idle_trials<'b, N: Naming>(
    alloc: Global,
    catalogue: &'b Catalogue,
    task: TaskId,
) -> Vec<Trial<'b, N>>
    requires named { catalogue.now ≡ N.catalogue }
    requires exists { HasTask N.catalogue task }
{
    let Ok(mut trials) = Vec::with_capacity(alloc, TOGETHER) else {
        return Vec::new(alloc);
    };
    for _ in 0..TOGETHER {
        // Fewer do as well.
        let _refused = trials.push(Trial::idle(alloc, catalogue, task));
    }
    trials
}

/// Whether none has a task.
pub(crate) fn are_idle<N: Naming>(trials: &[Trial<'_, N>]) -> bool
    ensures { IsTrue result → All (λ t. t.how ≡ How.Idle) trials.now }
{
    trials.iter().all(|trial| trial.how == How::Idle)
}

/// Whether each has a task, and there is one.
pub(crate) fn are_busy<N: Naming>(trials: &[Trial<'_, N>]) -> bool
    ensures { IsTrue result → All (λ t. t.how ≢ How.Idle) trials.now }
{
    !trials.is_empty() && trials.iter().all(|trial| trial.how != How::Idle)
}

/// Gives the task to a trial that has none: whether there was one.
pub(crate) fn give_one<N: Naming>(trials: &mut [Trial<'_, N>], task: TaskId) -> bool
    requires exists { HasTask N.catalogue task }
{
    for trial in trials.iter_mut() {
        if trial.how == How::Idle {
            trial.give(task);
            return true;
        }
    }
    false
}

/// Tries the task of each. A gate that is not open is told of a task before its first try, and of the end of
/// each.
pub(crate) fn evaluate_all<'b, G: Gate, N: Naming>(
    gate: &G,
    trials: &mut [Trial<'b, N>],
    catalogue: &'b Catalogue,
    values: &[i64],
)
    requires named { catalogue.now ≡ N.catalogue }
    requires present { ArePresent N.catalogue values.now }
    requires values { length values.now ≡ length catalogue.now.initial }
{
    for trial in trials.iter_mut() {
        if trial.how == How::Begun && trial.stale == 0 {
            stop_at(gate, Point::Taken, trial.task);
        }
        trial.evaluate(catalogue, values);
        if trial.how == How::Ended {
            stop_at(gate, Point::Ended, trial.task);
        }
    }
}
