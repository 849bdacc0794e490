//! The worker: it takes a task, tries it on what its pass reads, and brings the end to the book.
//!
//! It does so with long tasks alone: short ones have their turn under the lock, and light ones are tried together, on a
//! copy of the present values. A try whose pass could not move after a stale read, and an end that is stale,
//! are each one stale try; after so many of them the task has its turn under the lock. A try that moved
//! is none.

ghost use Rattle.std.specs.Prelude.{◌≡◌, [], length, false, All, IfSome, Some};
ghost use Rattle.std.specs.List.{list_any};
ghost use Rattle.std.specs.Coded.{codes};
ghost use Rattle.txn.specs.Codes.{coded_listing};
ghost use Rattle.txn_programs.specs.Listing.{task_tx};
ghost use Rattle.attempt.specs.Room.{TakesMemory};
ghost use Rattle.run_workers.specs.Standing.{HasTask};
ghost use Rattle.run_workers.specs.declared.shared.TryEnd.TheVariants.{Over, Memory};
ghost use Rattle.run_workers.specs.declared.trials.How.{How};
ghost use Rattle.txn.specs.Weighing.{is_light};

use crate::gate::{Gate, Point, stop_at};
use crate::rounds::{Values, begin, close, has_room, round};
use crate::shared::{Named, Naming, TryEnd, finish, give_up, serial, take};
use crate::trials::{Trial, are_idle, evaluate_all, idle_trials};
use crate::trying::attempt_on;
use crate::waiting::rest_after;
use attempt::Attempt;
use cells::{Cells, Pass};
use run_observer::Cut;
use std::alloc::Global;
use std::sync::{Mutex, Wait};
use txn::weights::{Size, have_light, size_in};
use txn::{Catalogue, TaskId};

/// After how many rounds a worker goes on as with a new task, so that the loop over them ends.
const ROUNDS: u32 = 1_000_000;

/// What the workers of a run share.
#[derive(Drop)]
pub(crate) struct Crew<'a, 'b, G: Gate, N: Naming> {
    pub(crate) alloc: Global,
    pub(crate) catalogue: &'b Catalogue,
    /// How tasks of each transaction are run.
    pub(crate) sizes: Vec<Size>,
    pub(crate) cells: &'a Cells,
    /// The book, behind its lock.
    pub(crate) shared: &'a Mutex<Named<'b, N>>,
    pub(crate) gate: &'a G,
    /// After how many stale tries a task is run under the lock.
    pub(crate) tries: u32,
    /// After how many journal entries a checkpoint is made, 0 for never.
    pub(crate) every: u32,
    ghost named: { catalogue.now ≡ N.catalogue } by { Prim.hlevel (codes, coded_listing) },
    ghost kept: { every ≡ N.every },
    ghost variables: { cells.now.variables ≡ length catalogue.now.initial },
}

/// The life of a worker: it gives the lowest ready task its tries until none is ready. It has one
/// attempt for life, which is restarted for each try, and its trials.
pub(crate) fn work<R: Wait, G: Gate, N: Naming>(rt: &R, crew: &Crew<'_, '_, G, N>, mut pass: Pass)
    requires own { pass.cells ≡ crew.now.cells.now }
{
    let Some(first) = take(rt, crew.shared) else {
        return;
    };
    let mut attempt = first_attempt(crew, first);
    let mut trials = first_trials(crew, first);
    serve(
        rt,
        crew,
        &mut pass,
        &mut attempt,
        trials.as_mut_slice(),
        first,
    );
}

/// Gives the task its tries, and then each next one, until none is ready.
fn serve<'b, R: Wait, G: Gate, N: Naming>(
    rt: &R,
    crew: &Crew<'_, 'b, G, N>,
    pass: &mut Pass,
    attempt: &mut Attempt<'b>,
    trials: &mut [Trial<'b, N>],
    first: TaskId,
)
    requires exists { HasTask N.catalogue first }
    requires own { pass.old.cells ≡ crew.now.cells.now }
{
    let mut task = first;
    for _ in rt.forever() {
        let Some(next) = pass_on(rt, crew, pass, attempt, trials, task) else {
            return;
        };
        task = next;
    }
}

/// Runs a task that was taken, as its size asks. The next task, `None` if none is ready.
fn pass_on<'b, R: Wait, G: Gate, N: Naming>(
    rt: &R,
    crew: &Crew<'_, 'b, G, N>,
    pass: &mut Pass,
    attempt: &mut Attempt<'b>,
    trials: &mut [Trial<'b, N>],
    task: TaskId,
) -> Option<TaskId>
    requires exists { HasTask N.catalogue task }
    requires own { pass.old.cells ≡ crew.now.cells.now }
    ensures own { pass.new.cells ≡ pass.old.cells }
    ensures next { IfSome result (HasTask N.catalogue) }
{
    let tx = crew.catalogue.task_tx(task);
    match size_in(crew.sizes.as_slice(), tx) {
        Size::Long => run_task(rt, crew, pass, attempt, task),
        Size::Light(_) if trials.is_empty() => run_task(rt, crew, pass, attempt, task),
        Size::Short(_) | Size::Held(_) | Size::Light(_) => {
            run_rounds(rt, crew, attempt, trials, task)
        }
    }
}

/// Runs a task that was taken, and then each next one that is not long: short ones by their turns under
/// the lock, light ones together, by tries between two times under it. The next task, `None` if none is
/// ready. No trial has a task then.
fn run_rounds<'b, R: Wait, G: Gate, N: Naming>(
    rt: &R,
    crew: &Crew<'_, 'b, G, N>,
    attempt: &mut Attempt<'b>,
    trials: &mut [Trial<'b, N>],
    first: TaskId,
) -> Option<TaskId>
    requires exists { HasTask N.catalogue first }
    ensures next { IfSome result (HasTask N.catalogue) }
    ensures idle { All (λ t. t.how ≡ How.Idle) trials.new }
{
    let mut values = Values::new();
    let mut left = begin(rt, crew, attempt, trials, &mut values, first);
    'rounds: for _ in 0..ROUNDS {
        if are_idle(trials) {
            return left;
        }
        if !has_room(crew.catalogue) {
            break;
        }
        evaluate_all(crew.gate, trials, crew.catalogue, values.as_slice());
        if left.is_some() {
            close(rt, crew, attempt, trials);
            return left;
        }
        left = round(rt, crew, attempt, trials, &mut values);
    }
    close(rt, crew, attempt, trials);
    match left {
        Some(task) => Some(task),
        None => take(rt, crew.shared),
    }
}

/// Its trials, where there are light tasks and a copy has room for all values; else none.
fn first_trials<'b, G: Gate, N: Naming>(
    crew: &Crew<'_, 'b, G, N>,
    task: TaskId,
) -> Vec<Trial<'b, N>>
    requires { HasTask N.catalogue task }
    ensures { list_any is_light crew.now.sizes.items ≡ false → result.items ≡ [] }
{
    if have_light(crew.sizes.as_slice()) && has_room(crew.catalogue) {
        return idle_trials(crew.alloc, crew.catalogue, task);
    }
    Vec::new(crew.alloc)
}

/// An attempt of the task's call.
fn first_attempt<'b, G: Gate, N: Naming>(crew: &Crew<'_, 'b, G, N>, task: TaskId) -> Attempt<'b>
    requires { HasTask N.catalogue task }
{
    let catalogue = crew.catalogue;
    let arguments = catalogue.task_arguments(task);
    Attempt::new(crew.alloc, catalogue, catalogue.task_tx(task), arguments)
}

/// Runs a task that was taken by tries of its own. The next task, `None` if none is ready.
fn run_task<'b, R: Wait, G: Gate, N: Naming>(
    rt: &R,
    crew: &Crew<'_, 'b, G, N>,
    pass: &mut Pass,
    attempt: &mut Attempt<'b>,
    task: TaskId,
) -> Option<TaskId>
    requires exists { HasTask N.catalogue task }
    requires own { pass.old.cells ≡ crew.now.cells.now }
    ensures own { pass.new.cells ≡ pass.old.cells }
    ensures next { IfSome result (HasTask N.catalogue) }
{
    stop_at(crew.gate, Point::Taken, task);
    let next = try_often(rt, crew, pass, attempt, task);
    stop_at(crew.gate, Point::Finished, task);
    if G::IS_OPEN {
        next
    } else {
        take(rt, crew.shared)
    }
}

/// All tries of a task, and then a turn under the lock. The task is over then. Under an open gate the next
/// one was taken at the same time under the lock, and is answered, `None` if none is ready. Under any other
/// none was: whoever is held at `Finished` has no task.
fn try_often<'b, R: Wait, G: Gate, N: Naming>(
    rt: &R,
    crew: &Crew<'_, 'b, G, N>,
    pass: &mut Pass,
    attempt: &mut Attempt<'b>,
    task: TaskId,
) -> Option<TaskId>
    requires exists { HasTask N.catalogue task }
    requires own { pass.old.cells ≡ crew.now.cells.now }
    ensures own { pass.new.cells ≡ pass.old.cells }
    ensures next { IfSome result (HasTask N.catalogue) }
{
    for stale in 0..crew.tries {
        match try_task(rt, crew, pass, attempt, task) {
            TryEnd::Over(next) => return next,
            TryEnd::Stale => {
                if stale + 1 < crew.tries {
                    rest_after(stale, crew.tries);
                }
            }
            TryEnd::Memory => return give_up(rt, crew.shared, task, G::IS_OPEN),
        }
    }
    serial(rt, crew.shared, crew.every, attempt, task, G::IS_OPEN)
}

/// One try: the attempt outside the lock, and its end. `Memory` only of a task whose transaction takes some.
fn try_task<'b, R: Wait, G: Gate, N: Naming>(
    rt: &R,
    crew: &Crew<'_, 'b, G, N>,
    pass: &mut Pass,
    attempt: &mut Attempt<'b>,
    task: TaskId,
) -> TryEnd
    requires exists { HasTask N.catalogue task }
    requires own { pass.old.cells ≡ crew.now.cells.now }
    ensures own { pass.new.cells ≡ pass.old.cells }
    ensures next { (t : TaskId) → result ≡ Over (Some t) → HasTask N.catalogue t }
    ensures memory { result ≡ Memory → TakesMemory N.catalogue (task_tx N.catalogue task) }
{
    let catalogue = crew.catalogue;
    match attempt_on(attempt, catalogue, task, crew.cells, pass, crew.gate) {
        Ok(_) => finish(rt, crew.shared, crew.every, task, attempt, G::IS_OPEN),
        Err(Cut::Stale) => TryEnd::Stale,
        Err(Cut::Memory) => TryEnd::Memory,
    }
}
