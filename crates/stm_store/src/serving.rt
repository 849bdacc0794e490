//! Turns on a book, and ends of attempts, each with what its entry tells.

ghost use Rattle.std.specs.Prelude.{◌≡◌, ◌≢◌, ◌<◌, length};
ghost use Rattle.attempt.specs.Frame.{Agrees};
ghost use Rattle.book.specs.View.{IsRunning};
ghost use Rattle.book.specs.Recorded.{HasEntry};
ghost use Rattle.book.specs.Turns.{IsEndOf};
ghost use Rattle.stm_store.specs.Bringing.{Judged};
ghost use Rattle.stm_store.specs.Entering.{Enters, IsEntered};
ghost use Rattle.stm_store.specs.Shapes.{IsSameShape};
ghost use Rattle.stm_store.specs.Turning.{Ends, GivesTurns};

use crate::answers::{End, Entered, Refused};
use attempt::{Attempt, Stand};
use book::{Book, Finish, Serial};
use txn::{Outcome, TaskId};

/// What is told of a task that was entered with this number, by the attempt that ended for it: the journal
/// is not looked at.
fn told_by(attempt: &Attempt<'static>, number: u64) -> Entered
    requires ended { (o : Outcome) × (attempt.now.stand ≡ Stand.Over o) }
    ensures number { result.number ≡ number }
    ensures outcome { attempt.now.stand ≡ Stand.Over result.outcome }
{
    let Some(outcome) = attempt.outcome() else {
        unreachable!()
    };
    Entered { number, outcome }
}

/// What is told of a task that was entered with this number.
fn entered(book: &Book<'static>, task: TaskId, number: u64) -> Entered
    requires exists { task.0 < length book.now.tasks }
    requires entered { IsEntered book.now task }
    ensures number { result.number ≡ number }
    ensures outcome { HasEntry book.now task result.outcome }
{
    match book.outcome(task) {
        Some(outcome) => Entered { number, outcome },
        None => unreachable!(),
    }
}

/// A turn of a running task on the present values, and a checkpoint where one is due: how it ended. Where it can be a
/// plain one it is, and the attempt stays as it is.
#[inline(always)]
pub(crate) fn give_turn(
    book: &mut Book<'static>,
    attempt: &mut Attempt<'static>,
    every: u32,
    task: TaskId,
) -> End
    requires running { IsRunning book.old task }
    ensures ends { Ends every book.old task result book.new }
    ensures listing { book.new.catalogue ≡ book.old.catalogue }
    ensures shape { IsSameShape book.old book.new }
{
    book.law();
    let Ok((outcome, number)) = book.turn_plainly(task) else {
        return give_turn_by_attempt(book, attempt, every, task);
    };
    book.law();
    book.keep_short(every, Serial::Committed(number));
    End::Entered(Entered { number, outcome })
}

/// As `give_turn`, by the attempt.
#[inline(always)]
fn give_turn_by_attempt(
    book: &mut Book<'static>,
    attempt: &mut Attempt<'static>,
    every: u32,
    task: TaskId,
) -> End
    requires running { IsRunning book.old task }
    ensures ends { Ends every book.old task result book.new }
    ensures listing { book.new.catalogue ≡ book.old.catalogue }
    ensures shape { IsSameShape book.old book.new }
{
    book.law();
    let how = book.serial_lent(attempt, task);
    book.law();
    match how {
        Serial::Committed(number) => {
            let told = told_by(attempt, number);
            book.keep_short(every, how);
            End::Entered(told)
        }
        Serial::Parked => End::Parked,
        Serial::Abandoned => End::Abandoned,
        Serial::NotRunning => unreachable!(),
    }
}

/// An ended attempt of the task is brought to the book, and a checkpoint follows where one is due.
pub(crate) fn bring(
    book: &mut Book<'static>,
    attempt: &mut Attempt<'static>,
    every: u32,
    task: TaskId,
) -> Result<End, Refused>
    requires exists { task.0 < length book.old.tasks }
    requires ended { IsEndOf book.old.catalogue task attempt.old }
    ensures judged { Judged every book.old task attempt.old result book.new }
    ensures listing { book.new.catalogue ≡ book.old.catalogue }
    ensures shape { IsSameShape book.old book.new }
{
    book.law();
    let how = book.finish_lent(task, attempt);
    book.law();
    match how {
        Finish::Committed(number) => {
            let told = entered(book, task, number);
            book.keep_short(every, Serial::Committed(number));
            Ok(End::Entered(told))
        }
        Finish::Parked => Ok(End::Parked),
        Finish::Stale => Err(Refused::Stale),
        Finish::NotRunning => Err(Refused::NotRunning),
    }
}

/// An attempt of a running task that has ended on the present values, and does not retry: the task is
/// entered, and a checkpoint follows where one is due.
pub(crate) fn enter(
    book: &mut Book<'static>,
    attempt: &mut Attempt<'static>,
    every: u32,
    task: TaskId,
) -> Entered
    requires running { IsRunning book.old task }
    requires ended { IsEndOf book.old.catalogue task attempt.old }
    requires agrees { Agrees attempt.old.log book.old.present.state }
    requires ends { attempt.old.stand ≢ Stand.Over Outcome.Retries }
    ensures entered { Enters every book.old task result book.new }
    ensures listing { book.new.catalogue ≡ book.old.catalogue }
    ensures shape { IsSameShape book.old book.new }
{
    book.law();
    let how = book.finish_lent(task, attempt);
    book.law();
    match how {
        Finish::Committed(number) => {
            let told = entered(book, task, number);
            book.keep_short(every, Serial::Committed(number));
            told
        }
        Finish::NotRunning | Finish::Stale | Finish::Parked => unreachable!(),
    }
}

/// Gives the lowest ready task a turn on the present values, and then the next one, until so many
/// turns were given or none is ready: how many were given. The attempt is restarted for each.
pub(crate) fn give_turns(
    book: &mut Book<'static>,
    attempt: &mut Attempt<'static>,
    every: u32,
    most: u32,
) -> u32
    ensures given { GivesTurns every most book.old result book.new }
    ensures listing { book.new.catalogue ≡ book.old.catalogue }
    ensures shape { IsSameShape book.old book.new }
{
    let mut given = 0;
    while given < most {
        let Some(task) = book.take() else {
            return given;
        };
        let _end = give_turn(book, attempt, every, task);
        given += 1;
    }
    given
}
