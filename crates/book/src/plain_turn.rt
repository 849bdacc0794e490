//! Turns by plain evaluation: a transaction is evaluated in place on the present values, and no log is kept.

ghost use Rattle.std.specs.Prelude.{◌≡◌, ◌<◌, ◌≤◌, length, IfOk, IfErr, OnErr};
ghost use Rattle.txn_programs.specs.declared.limits.TheConstants.{MAX_VALUES};
ghost use Rattle.txn_programs.specs.Listing.{tasks, task_tx, task_arguments};
ghost use Rattle.attempt.specs.Room.{TakesMemory};
ghost use Rattle.book.specs.Turns.{CommitsAs, IsNotPlain, Served, TaskEndsPlainly};
ghost use Rattle.book.specs.View.{IsRunning};
ghost use Rattle.book.specs.Written.{EndsPlainly};

use crate::book::Book;
use crate::chapter::Chapter;
use crate::task::{NotPlain, Serial};
use crate::written::Written;
use attempt::Attempt;
use std::alloc::AllocError;
use std::mem;
use txn::{Outcome, TaskId, VarId};
use txn_evaluator::notes::undo;

/// How a task ends on the values, which stay as they are, and what it writes, unless a growth was refused.
fn end_plainly(
    written: &mut Written,
    chapter: &mut Chapter<'_>,
    task: TaskId,
    values: &mut Vec<i64>,
) -> Result<Outcome, AllocError>
    requires exists { task.0 < length (tasks chapter.old.listing) }
    requires values { length values.old.items ≡ length chapter.old.listing.initial }
    requires few { length values.old.items ≤ MAX_VALUES }
    ensures chapter { chapter.new ≡ chapter.old }
    ensures same { values.new.items ≡ values.old.items }
    ensures ends { IfOk result (λ how. EndsPlainly chapter.old.listing (task_tx chapter.old.listing task)
        (task_arguments chapter.old.listing task) values.old.items how written.new.writes.items) }
{
    let ended = chapter.execute(task, values, &mut written.notes);
    let listed = written.list(values);
    undo(values.as_mut_slice(), &mut written.notes, 0);
    let Ok(how) = ended else {
        return Err(AllocError);
    };
    if listed.is_err() {
        return Err(AllocError);
    }
    Ok(how)
}

impl<'a> Book<'a> {
    /// A turn of the task on the present values by plain evaluation: the outcome and the number of its entry, as
    /// `serial` would enter it; or why there is none, where nothing changed.
    #[inline(always)]
    pub fn turn_plainly(&mut self, task: TaskId) -> Result<(Outcome, u64), NotPlain>
        requires exists { task.0 < length self.old.tasks }
        ensures committed { IfOk result (λ r. CommitsAs self.old task r.0 r.1 self.new) }
        ensures refused { IfErr result (λ why. IsNotPlain self.old task why) }
        ensures unchanged { OnErr result (self.new ≡ self.old) }
        ensures catalogue { self.new.catalogue ≡ self.old.catalogue }
    {
        if !self.table.is_running(task) {
            return Err(NotPlain::NotRunning);
        }
        self.commit_plainly(task)
    }

    /// As `turn_plainly`, of a running task. It is a call, so that who asks for a turn stays short.
    #[inline(never)]
    fn commit_plainly(&mut self, task: TaskId) -> Result<(Outcome, u64), NotPlain>
        requires running { IsRunning self.old task }
        ensures committed { IfOk result (λ r. CommitsAs self.old task r.0 r.1 self.new) }
        ensures refused { IfErr result (λ why. IsNotPlain self.old task why) }
        ensures unchanged { OnErr result (self.new ≡ self.old) }
    {
        let Ok((how, writes)) = self.end_here(task) else {
            return Err(NotPlain::Memory);
        };
        if matches!(how, Outcome::Retries) {
            self.keep(writes);
            return Err(NotPlain::Retries);
        }
        let number = self.commit(task, how, &writes);
        self.keep(writes);
        Ok((how, number))
    }

    /// How a task ends by plain evaluation on the present values, and what it writes, unless a growth was refused.
    fn end_here(&mut self, task: TaskId) -> Result<(Outcome, Vec<(VarId, i64)>), AllocError>
        requires exists { task.0 < length self.old.tasks }
        ensures same { self.new ≡ self.old }
        ensures ends { IfOk result (λ r. TaskEndsPlainly self.old task r.0 r.1.items) }
    {
        let values = &mut self.present.values;
        let Ok(how) = end_plainly(&mut self.written, &mut self.chapter, task, values) else {
            return Err(AllocError);
        };
        let alloc = *self.written.writes.allocator();
        let writes = mem::replace(&mut self.written.writes, Vec::new(alloc));
        Ok((how, writes))
    }

    /// The room of what was written is kept for the next turn.
    fn keep(&mut self, writes: Vec<(VarId, i64)>)
        ensures { self.new ≡ self.old }
    {
        self.written.writes = writes;
    }

    /// As `serial_lent`, where the outcome of a commit need not be told: the turn is a plain one, and the attempt stays
    /// as it is. Only of a task that retries, or where memory was refused, the attempt tells how it ends.
    #[inline(always)]
    pub fn serve(&mut self, attempt: &mut Attempt<'a>, task: TaskId) -> Serial
        requires exists { task.0 < length self.old.tasks }
        ensures served { Served self.old task result self.new }
        ensures memory { result ≡ Serial.Abandoned → TakesMemory self.old.catalogue (task_tx self.old.catalogue task) }
        ensures catalogue { self.new.catalogue ≡ self.old.catalogue }
    {
        match self.turn_plainly(task) {
            Ok((_, number)) => Serial::Committed(number),
            Err(_) => self.serial_lent(attempt, task),
        }
    }
}
