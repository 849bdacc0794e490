//! The report of a run that takes given turns to an end.

ghost use Rattle.std.specs.Prelude.{◌≡◌, ◌<◌, List, [], ◌∷◌, ◌++◌, length, map, true, IfOk, OnOk};
ghost use Rattle.txn_programs.specs.Listing.{tasks};
ghost use Rattle.txn_programs.specs.Replay.{opening};
ghost use Rattle.txn_programs.specs.Told.{told};
ghost use Rattle.txn_programs.specs.LawfulReport.{LawfulReport};
ghost use Rattle.txn_programs.specs.declared.report.Entry.{Entry as EntryOf};
ghost use Rattle.book.specs.View.{opened};
ghost use Rattle.explore_law.specs.Instances.{instance_at};
ghost use Rattle.explore_law.specs.Orders.{Config, HasTurn, turned, first_config, Leads};
ghost use Rattle.explore_runner.specs.Ends.{EndsAt, LeadsToEnd};
ghost use Rattle.explore_runner.specs.Giving.{GoesSomewhere, HasGiven, IsGiving, IsTaken, config_of, entered_by};
ghost use Rattle.explore_runner.specs.Giving.{queues};

use crate::queues::{next, tasks_by_instance};
use book::{Book, Serial};
use cells::Cells;
use explore_search::InstanceId;
use std::alloc::Global;
use txn::{Catalogue, Memory, Report, TaskId};

/// The report of a run whose tasks take these turns, which have to lead to an end: the entries are
/// of these instances, in this order, and the tasks that are left are parked. Of an instance's
/// tasks the lowest takes the first turn. `Memory` only where a growth was refused.
///
/// It takes time for each task, and for each turn as its transaction does.
pub fn witness(alloc: Global, catalogue: &Catalogue, turns: &[InstanceId]) -> Result<Report, Memory>
    requires { LeadsToEnd catalogue.now turns.now }
    ensures ends { IfOk result (λ r. (p : Config) → Leads catalogue.now (first_config catalogue.now) turns.now p
        → EndsAt catalogue.now (told r) p) }
    ensures turns { IfOk result
        (λ r. entered_by catalogue.now (told r).entries ≡ map (instance_at catalogue.now) turns.now) }
{
    catalogue.rules();
    let (cells, publisher) = Cells::unread(alloc, catalogue.initial())?;
    let mut book = Book::open(alloc, catalogue, &cells, publisher)?;
    report_at_end(alloc, &mut book, catalogue, turns)
}

/// Gives these turns in a book in which none was given, and then tells it.
fn report_at_end(
    alloc: Global,
    book: &mut Book<'_>,
    catalogue: &Catalogue,
    turns: &[InstanceId],
) -> Result<Report, Memory>
    requires opened { book.old ≡ opened catalogue.now book.old.cells 0 }
    requires leads { LeadsToEnd catalogue.now turns.now }
    ensures ends { IfOk result (λ r. (p : Config) → Leads catalogue.now (first_config catalogue.now) turns.now p
        → EndsAt catalogue.now (told r) p) }
    ensures turns { IfOk result
        (λ r. entered_by catalogue.now (told r).entries ≡ map (instance_at catalogue.now) turns.now) }
{
    catalogue.rules();
    take_turns(alloc, book, catalogue, turns)?;
    close(alloc, book)
}

/// Gives these turns in a book in which none was given: each to the lowest task of its instance that is left.
pub(crate) fn take_turns(
    alloc: Global,
    book: &mut Book<'_>,
    catalogue: &Catalogue,
    turns: &[InstanceId],
) -> Result<(), Memory>
    requires opened { book.old ≡ opened catalogue.now book.old.cells 0 }
    requires goes { GoesSomewhere catalogue.now (first_config catalogue.now) turns.now }
    ensures { OnOk result (HasGiven catalogue.now turns.now book.new) }
{
    take_all(book, catalogue.tasks());
    let mut waiting = tasks_by_instance(alloc, catalogue)?;
    give_turns(alloc, book, &mut waiting, turns)
}

/// Takes all tasks of a book in which none was taken.
fn take_all(book: &mut Book<'_>, count: usize)
    requires opened { book.old ≡ opened book.old.catalogue book.old.cells 0 }
    requires count { count ≡ length (tasks book.old.catalogue) }
    ensures { IsTaken book.old.catalogue count book.new }
{
    'tasks: for _done in 0..count {
        // Each has its turn in time, so which one is taken now is not asked.
        let _task = book.take();
    }
}

/// Gives these turns, each to the lowest task of its instance that is left.
fn give_turns(
    alloc: Global,
    book: &mut Book<'_>,
    waiting: &mut Vec<Vec<u32>>,
    turns: &[InstanceId],
) -> Result<(), Memory>
    requires underway { IsGiving book.old (queues waiting.old.items) }
    requires leads { GoesSomewhere book.old.catalogue (config_of book.old (queues waiting.old.items)) turns.now }
    ensures underway { OnOk result (IsGiving book.new (queues waiting.new.items)) }
    ensures leads { OnOk result (Leads book.old.catalogue (config_of book.old (queues waiting.old.items)) turns.now
        (config_of book.new (queues waiting.new.items))) }
    ensures entered { OnOk result (entered_by book.old.catalogue book.new.journal
        ≡ entered_by book.old.catalogue book.old.journal ++ map (instance_at book.old.catalogue) turns.now) }
    ensures catalogue { OnOk result (book.new.catalogue ≡ book.old.catalogue) }
{
    'turns: for i in 0..turns.len() {
        give_turn(alloc, book, waiting, turns[i])?;
    }
    Ok(())
}

/// Gives the lowest task of the instance that is left its turn. It is a call of its own, so that the attempt, which is
/// large, lies on the stack only meanwhile.
#[inline(never)]
fn give_turn(
    alloc: Global,
    book: &mut Book<'_>,
    waiting: &mut Vec<Vec<u32>>,
    instance: InstanceId,
) -> Result<(), Memory>
    requires underway { IsGiving book.old (queues waiting.old.items) }
    requires turn { HasTurn book.old.catalogue (config_of book.old (queues waiting.old.items)) instance }
    ensures underway { OnOk result (IsGiving book.new (queues waiting.new.items)) }
    ensures turned { OnOk result (config_of book.new (queues waiting.new.items)
        ≡ turned book.old.catalogue (config_of book.old (queues waiting.old.items)) instance) }
    ensures entered { OnOk result (entered_by book.old.catalogue book.new.journal
        ≡ entered_by book.old.catalogue book.old.journal ++ instance_at book.old.catalogue instance ∷ []) }
    ensures catalogue { OnOk result (book.new.catalogue ≡ book.old.catalogue) }
{
    let Some(task) = next(waiting, instance) else {
        unreachable!()
    };
    match book.serial(alloc, TaskId(task)) {
        Serial::Committed(_) => Ok(()),
        Serial::Abandoned => Err(Memory),
        Serial::NotRunning | Serial::Parked => unreachable!(),
    }
}

/// Gives what is left a turn, and tells the book, if memory stopped no task.
fn close(alloc: Global, book: &mut Book<'_>) -> Result<Report, Memory>
    requires { book.old.base ≡ opening book.old.catalogue }
    ensures lawful { IfOk result (λ r. LawfulReport book.old.catalogue (told r)) }
    ensures opens { IfOk result (λ r. (told r).base ≡ 0) }
    ensures none_stopped { IfOk result (λ r. (told r).memory ≡ []) }
    ensures entries { IfOk result (λ r. (more : List EntryOf) × ((told r).entries ≡ book.old.journal ++ more)) }
{
    book.drain(alloc, 0);
    book.law();
    let report = book.report(alloc)?;
    if !report.memory.is_empty() {
        return Err(Memory);
    }
    Ok(report)
}
