//! Attempts that have ended, as the book wants them.

ghost use Rattle.std.specs.Prelude.{◌≡◌, ◌<◌, IsTrue, IfSome, length};
ghost use Rattle.book.specs.Turns.{IsEndOf};

use attempt::{Attempt, Next, Stand};
use book::{Book, Finish};
use std::alloc::Global;
use txn::{Catalogue, Outcome, TaskId, VarId};

/// Whether the book is of the catalogue's programs, and has the task.
pub(crate) fn has(book: &Book<'_>, catalogue: &Catalogue, task: TaskId) -> bool
    ensures { IsTrue result → task.0 < length book.now.tasks }
{
    book.declares(catalogue) && (task.0 as usize) < book.tasks()
}

/// Tells the attempt what it needs of these values. Whether it could be told.
fn is_told(attempt: &mut Attempt<'_>, values: &[i64]) -> bool
    ensures program { attempt.new.program ≡ attempt.old.program }
    ensures variables { attempt.new.variables ≡ attempt.old.variables }
{
    for _variable in 0..values.len() {
        let Next::Need(x) = attempt.advance() else {
            return true;
        };
        let Some(value) = values.get(x.0 as usize) else {
            return false;
        };
        if attempt.supply(x, *value).is_err() {
            return false;
        }
    }
    true
}

/// Whether the attempt has ended on these values.
fn is_over(attempt: &mut Attempt<'_>, values: &[i64]) -> bool
    ensures program { attempt.new.program ≡ attempt.old.program }
    ensures variables { attempt.new.variables ≡ attempt.old.variables }
    ensures ended { IsTrue result → (o : Outcome) × (attempt.new.stand ≡ Stand.Over o) }
{
    if !is_told(attempt, values) {
        return false;
    }
    match attempt.advance() {
        Next::Need(_) | Next::Memory => false,
        Next::Returned(_) | Next::Thrown(_) | Next::Retry => true,
    }
}

/// Whether the attempt, made anew one of the task, has ended on these values.
pub(crate) fn ends_anew<'c>(
    book: &Book<'_>,
    attempt: &mut Attempt<'c>,
    catalogue: &'c Catalogue,
    task: TaskId,
    values: &[i64],
) -> bool
    requires { task.0 < length book.now.tasks }
    ensures { IsTrue result → IsEndOf book.now.catalogue task attempt.new }
{
    if !book.declares(catalogue) {
        return false;
    }
    catalogue.rules();
    book.law();
    attempt.restart(catalogue, book.task_tx(task), book.task_arguments(task));
    is_over(attempt, values)
}

/// An attempt of a task of the book that has ended on these values.
fn ended<'c>(
    alloc: Global,
    book: &Book<'_>,
    catalogue: &'c Catalogue,
    task: TaskId,
    values: &[i64],
) -> Option<Attempt<'c>>
    requires { task.0 < length book.now.tasks }
    ensures { IfSome result (λ a. IsEndOf book.now.catalogue task a) }
{
    if !book.declares(catalogue) {
        return None;
    }
    book.law();
    let arguments = book.task_arguments(task);
    let mut attempt = Attempt::new(alloc, catalogue, book.task_tx(task), arguments);
    if ends_anew(book, &mut attempt, catalogue, task, values) {
        return Some(attempt);
    }
    drop(attempt);
    None
}

/// Whether each variable was logged with its value of these.
fn agrees(log: &[(VarId, i64)], values: &[i64]) -> bool {
    for pair in log {
        if values.get(pair.0.0 as usize) != Some(&pair.1) {
            return false;
        }
    }
    true
}

/// Whether an attempt of the task on these values has logged them and written so many variables, and
/// its end answers so.
pub(crate) fn ends(
    alloc: Global,
    book: &mut Book<'_>,
    catalogue: &Catalogue,
    task: TaskId,
    values: &[i64],
    sizes: (usize, usize),
    how: Finish,
) -> bool {
    if !has(book, catalogue, task) {
        return false;
    }
    match ended(alloc, book, catalogue, task, values) {
        Some(attempt) => {
            let agrees = agrees(attempt.log(), values);
            let found = (attempt.log().len(), attempt.writes().len());
            book.finish(task, attempt) == how && agrees && found == sizes
        }
        None => false,
    }
}
