//! The report of a run that stops behind given turns.

ghost use Rattle.std.specs.Prelude.{◌≡◌, ◌<◌, IfOk, OnOk, Some, length, slice_get};
ghost use Rattle.txn_programs.specs.Told.{told};
ghost use Rattle.book.specs.Tasks.{Running};
ghost use Rattle.book.specs.View.{opened};
ghost use Rattle.explore_runner.specs.Giving.{GoesSomewhere};
ghost use Rattle.explore_law.specs.Orders.{first_config};
ghost use Rattle.explore_runner.specs.PuttingBy.{ArePutBy, PutsBy};
ghost use Rattle.explore_runner.specs.Stopping.{StopsAfter};

use crate::turns::take_turns;
use attempt::Attempt;
use book::{Book, Serial, Standing};
use cells::Cells;
use explore_search::InstanceId;
use std::alloc::Global;
use txn::{Catalogue, Memory, Outcome, Report, TaskId};

/// The report of a run that stops when its tasks have taken these turns: the entries are of these instances, in
/// this order. Of the tasks that are left, those that retry are parked, and those that would still have a turn are
/// given up. Of an instance's tasks the lowest takes the first turn. `Memory` only where a growth was refused.
///
/// It takes time for each task as its transaction does.
pub fn stopped(alloc: Global, catalogue: &Catalogue, turns: &[InstanceId]) -> Result<Report, Memory>
    requires { GoesSomewhere catalogue.now (first_config catalogue.now) turns.now }
    ensures { IfOk result (λ r. StopsAfter catalogue.now turns.now (told r)) }
{
    catalogue.rules();
    let (cells, publisher) = Cells::unread(alloc, catalogue.initial())?;
    let mut book = Book::open(alloc, catalogue, &cells, publisher)?;
    report_behind(alloc, &mut book, catalogue, turns)
}

/// Gives these turns in a book in which none was given, puts all other tasks by, and tells the book.
fn report_behind<'a>(
    alloc: Global,
    book: &mut Book<'a>,
    catalogue: &'a Catalogue,
    turns: &[InstanceId],
) -> Result<Report, Memory>
    requires opened { book.old ≡ opened catalogue.now book.old.cells 0 }
    requires goes { GoesSomewhere catalogue.now (first_config catalogue.now) turns.now }
    ensures { IfOk result (λ r. StopsAfter catalogue.now turns.now (told r)) }
{
    take_turns(alloc, book, catalogue, turns)?;
    stop(alloc, book, catalogue)?;
    book.law();
    book.report(alloc)
}

/// Puts each task by that is not done.
fn stop<'a>(alloc: Global, book: &mut Book<'a>, catalogue: &'a Catalogue) -> Result<(), Memory>
    requires { book.old.catalogue ≡ catalogue.now }
    ensures { OnOk result (ArePutBy book.old (length book.old.tasks) book.new) }
{
    book.law();
    'tasks: for task in 0..book.tasks() {
        put_by(alloc, book, catalogue, TaskId(task as u32))?;
    }
    Ok(())
}

/// Puts the task by: it is parked where it retries on the present values, and else given up. One that is done or was
/// put by stays so.
fn put_by<'a>(
    alloc: Global,
    book: &mut Book<'a>,
    catalogue: &'a Catalogue,
    task: TaskId,
) -> Result<(), Memory>
    requires exists { task.0 < length book.old.tasks }
    requires catalogue { book.old.catalogue ≡ catalogue.now }
    ensures { OnOk result (PutsBy book.old task book.new) }
{
    let _was_ready = book.claim(task);
    let Standing::Running = book.standing(task) else {
        return Ok(());
    };
    let tx = book.task_tx(task);
    let mut attempt = Attempt::new(alloc, catalogue, tx, book.task_arguments(task));
    put_running_by(&mut attempt, book, task)
}

/// Puts a running task by. What the attempt was one of before does not matter.
fn put_running_by<'a>(
    attempt: &mut Attempt<'a>,
    book: &mut Book<'a>,
    task: TaskId,
) -> Result<(), Memory>
    requires exists { task.0 < length book.old.tasks }
    requires runs { slice_get book.old.tasks task.0 ≡ Some Running }
    ensures { OnOk result (PutsBy book.old task book.new) }
{
    let tx = book.task_tx(task);
    let arguments = book.task_arguments(task);
    let Outcome::Retries = book.outcome_now(attempt, tx, arguments)? else {
        let _is_given_up = book.give_up(task);
        return Ok(());
    };
    match book.serial_lent(attempt, task) {
        Serial::Parked => Ok(()),
        Serial::Abandoned => Err(Memory),
        Serial::NotRunning | Serial::Committed(_) => unreachable!(),
    }
}
