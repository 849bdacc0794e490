//! The run whose order is drawn: by no worker, and so the same at each time.
//!
//! A generator that begins at the seed of the run, SplitMix64, gives a word before each turn. Modulo the number of
//! tasks it is a number, and the first ready task from there on has the turn, or else the lowest. So any ready task
//! can be drawn, and one behind some that are not ready more often than one behind another ready one.

ghost use Rattle.std.specs.Prelude.{◌≡◌, ◌≢◌, ◌<◌, ℕ, length, IfOk, Some, slice_get};
ghost use Rattle.rand_xoshiro.specs.SplitMix64.{mix_u64};
ghost use Rattle.txn_programs.specs.Listing.{tasks};
ghost use Rattle.txn_programs.specs.LawfulReport.{LawfulReport, BaseReached};
ghost use Rattle.book_storage.specs.PackedEntries.{told_run};
ghost use Rattle.book.specs.Tasks.{Running};
ghost use Rattle.book.specs.GivingUp.{GivesUpForMemory};
ghost use Rattle.book.specs.Turns.{IsIdle, TakenFrom};
ghost use Rattle.run_workers.specs.Drawing.{DrawnTurns, IsDrawn, drawn_number};
ghost use Rattle.run_workers.specs.GivingUp.{GaveUpForMemory};
ghost use Rattle.run_workers.specs.Journals.{KeepsShort};

use crate::shared::report;
use attempt::Attempt;
use book::Book;
use book_storage::RunReport;
use cells::Cells;
use rand_core::SeedableRng;
use rand_core::utils::NextWord;
use rand_xoshiro::SplitMix64;
use std::alloc::Global;
use txn::{Catalogue, Memory, TaskId};

/// Runs the tasks in the order that the seed draws, and reports. A checkpoint is made after `every` entries, 0 for
/// never.
pub(crate) fn run_drawn(
    alloc: Global,
    catalogue: &Catalogue,
    every: u32,
    seed: u64,
) -> Result<RunReport, Memory>
    ensures lawful { IfOk result (λ r. LawfulReport catalogue.now (told_run r)) }
    ensures reached { IfOk result (λ r. BaseReached catalogue.now (told_run r)) }
    ensures short { IfOk result (λ r. KeepsShort every (told_run r)) }
    ensures memory { IfOk result (λ r. GaveUpForMemory catalogue.now (told_run r)) }
    ensures drawn { IfOk result (λ r. IsDrawn catalogue.now every seed (told_run r)) }
{
    let (cells, publisher) = Cells::unread(alloc, catalogue.initial())?;
    let mut book = Book::open(alloc, catalogue, &cells, publisher)?;
    give_drawn(alloc, catalogue, &mut book, every, seed);
    report(alloc, book)
}

/// Gives one drawn task after another a turn, until none is ready. One attempt, which is restarted, serves them all.
fn give_drawn<'a>(
    alloc: Global,
    catalogue: &'a Catalogue,
    book: &mut Book<'a>,
    every: u32,
    seed: u64,
)
    requires own { book.old.catalogue ≡ catalogue.now }
    requires none_runs { (k : ℕ) → slice_get book.old.tasks k ≢ Some Running }
    ensures turns { (state : ℕ) × DrawnTurns every seed book.old state book.new }
    ensures idle { IsIdle book.new }
    ensures memory { GivesUpForMemory book.old → GivesUpForMemory book.new }
    ensures catalogue { book.new.catalogue ≡ book.old.catalogue }
{
    book.law();
    if catalogue.tasks() == 0 {
        return;
    }
    let first = TaskId(0);
    let arguments = catalogue.task_arguments(first);
    let mut attempt = Attempt::new(alloc, catalogue, catalogue.task_tx(first), arguments);
    give_turns(book, &mut attempt, every, seed);
}

/// The same by an attempt of the book's catalogue, where there are tasks.
fn give_turns<'a>(book: &mut Book<'a>, attempt: &mut Attempt<'a>, every: u32, seed: u64)
    requires some { 0 < length (tasks book.old.catalogue) }
    requires none_runs { (k : ℕ) → slice_get book.old.tasks k ≢ Some Running }
    ensures turns { (state : ℕ) × DrawnTurns every seed book.old state book.new }
    ensures idle { IsIdle book.new }
    ensures memory { GivesUpForMemory book.old → GivesUpForMemory book.new }
    ensures catalogue { book.new.catalogue ≡ book.old.catalogue }
{
    let mut draws = SplitMix64::seed_from_u64(seed);
    while let Some(task) = draw(book, &mut draws) {
        let how = book.serve(attempt, task);
        book.keep_short(every, how);
    }
}

/// The task that is drawn, which is then running. `None` exactly if none is ready.
fn draw(book: &mut Book<'_>, draws: &mut SplitMix64) -> Option<TaskId>
    requires { 0 < length (tasks book.old.catalogue) }
    ensures taken { TakenFrom (drawn_number draws.old book.old) book.old result book.new }
    ensures draws { draws.new ≡ (mix_u64 draws.old).1 }
    ensures catalogue { book.new.catalogue ≡ book.old.catalogue }
{
    let word: u64 = draws.next_word();
    let number = word % book.tasks() as u64;
    book.take_from(number as usize)
}
