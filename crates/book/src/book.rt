//! The book: how each task stands, the journal, and the present values.

ghost use Rattle.std.specs.Prelude.{◌≡◌, ◌≢◌, ◌<◌, ◌≤◌, ◌+◌, ◌∷◌, [], ℕ, length, map, IfOk, IsTrue, ◌↔◌};
ghost use Rattle.std.specs.Prelude.{MatchBool, vec_capacity, Some, slice_get, replicate};
ghost use Rattle.std.specs.Prelude.{OnErr};
ghost use Rattle.txn_programs.specs.declared.limits.TheConstants.{MAX_TASKS, MAX_VALUES};
ghost use Rattle.txn_words.specs.Stores.{with_changes};
ghost use Rattle.attempt.specs.Asking.{Known};
ghost use Rattle.attempt.specs.Frame.{Agrees};
ghost use Rattle.attempt.specs.Order.{Ascending, AllKnown};
ghost use Rattle.cells.specs.Passing.{MeetsBy};
ghost use Rattle.book.specs.Openings.{IsOpening};
ghost use Rattle.book.specs.Changed.{Follows};

use crate::chapter::Chapter;
use crate::clock::reach;
use crate::counting::Counts;
use crate::ending::bring_to_end;
use crate::journal::enter;
use crate::keeping::park;
use crate::listing::{given_up, parked};
use crate::since::Since;
use crate::standing::Standing;
use crate::stored::{Stored, openings, pair, pairs, rebase, start_anew, store};
use crate::table::TaskTable;
use crate::task::{Finish, Serial, is_committed};
use crate::validate::agrees;
use crate::written::Written;
use attempt::{Attempt, Next, frame};
use book_storage::{PackedEntry, RunReport, entries_of};
use cells::{Cells, Pass, Publisher, SharedCells};
use std::alloc::Global;
use std::marker::Model;
use txn::{Catalogue, Entry, Memory, Outcome, Report, TaskId, TxId, VarId};

/// The tasks of a catalogue, the journal of those that committed, and the present values. A clause sees a `BookView`.
/// At all times the journal replays from the base to the present, no task is entered twice, the program of each
/// parked task retries on the present values, the present values are the last state that was published, and every
/// state keeps the standing conditions.
pub struct Book<'a> {
    /// The catalogue of the present chapter.
    pub(crate) chapter: Chapter<'a>,
    cells: SharedCells<'a>,
    publisher: Publisher,
    base: Stored,
    journal: Vec<PackedEntry>,
    pub(crate) present: Stored,
    /// Which variables changed since when, where that is listed.
    since: Since,
    /// What the last plain turn wrote.
    pub(crate) written: Written,
    /// How each task stands.
    pub(crate) table: TaskTable,
    /// For how many tasks there is room in a chapter.
    room: usize,
    /// How many tasks more this chapter can have: all that there is room for, as far as the clock reaches.
    spare: usize,
    /// How many entries the chapters before this one had.
    before: u64,
}

/// Written by hand, so that its end is one call wherever a book is owned.
impl Drop for Book<'_> {
    fn drop(self) {
        let Book {
            chapter: _chapter,
            cells: _cells,
            publisher: _publisher,
            base: _base,
            journal: _journal,
            present: _present,
            since: _since,
            written: _written,
            table: _table,
            room: _,
            spare: _,
            before: _,
        } = self;
    }
}

impl<'a> Model for Book<'a> {
    ghost use Rattle.std.specs.Coded.{codes};
    ghost use Rattle.txn.specs.Codes.{coded_listing};
    ghost use Rattle.book.specs.View.{BookView};

    ghost Value = { BookView };

    ghost coded = { Prim.hlevel (codes, coded_listing) };

    ghost use Rattle.book.specs.BookInside.{book_of, IsKept};

    ghost view = { book_of };

    ghost invariant = { IsKept };
}

impl<'a> Book<'a> {
    ghost use Rattle.txn_programs.specs.Meaning.{outcome, after};
    ghost use Rattle.txn_programs.specs.Listing.{values, tasks, task_tx, task_arguments, task_program, IsCallable};
    ghost use Rattle.txn.specs.Grown.{SameProgram};
    ghost use Rattle.book.specs.Carrying.{carried};
    ghost use Rattle.book.specs.Chapters.{chapter_of, entered_in_all};
    ghost use Rattle.book.specs.Submitted.{Submits, SubmitsRunning};
    ghost use Rattle.book.specs.Counting.{AreCounts, IsPresent};
    ghost use Rattle.txn_programs.specs.declared.ast.Outcome as Outcome;
    ghost use Rattle.book.specs.Tasks as Task;
    ghost use Rattle.txn_programs.specs.Told.{told};
    ghost use Rattle.book_storage.specs.PackedEntries.{told_run};
    ghost use Rattle.book.specs.View.{opened, IsRunning, stands, committed, checkpointed};
    ghost use Rattle.book.specs.Turns.{Taken, TakenFrom, IsEndOf, EndsOn, EndsAs, Finished, IsLeft, Served};
    ghost use Rattle.book.specs.Turns.{Turn, Drains, kept_short, readied, IsIdle, without_journal, ReportIs};
    ghost use Rattle.book.specs.Turns.{left_parked};
    ghost use Rattle.book.specs.LawfulBook.{LawfulBook, BookFits, KeepsConditions, Waits};
    ghost use Rattle.book.specs.Waiting.{ParkedWait};
    ghost use Rattle.attempt.specs.Room.{TakesMemory};
    ghost use Rattle.book.specs.GivingUp.{GivesUpForMemory};
    ghost use Rattle.book.specs.Table.{IsWaiting};
    ghost use Rattle.book.specs.Recorded.{IsReady, IsRecorded, told_as};

    /// All tasks ready, number 0, the initial values, an empty journal. `Memory` only where a growth was refused.
    ///
    /// Room for how each task stands, for one entry a task, and for each variable's set of the tasks that wait for it
    /// is taken here, and for what each of these has read, so that no commit takes any.
    /// The cells and the publisher have to have been opened together on the catalogue's initial values, and nothing
    /// published since.
    pub fn open(
        alloc: Global,
        catalogue: &'a Catalogue,
        cells: &'a Cells,
        publisher: Publisher,
    ) -> Result<Book<'a>, Memory>
        requires own { publisher.cells ≡ cells.now }
        requires unused { publisher.history ≡ catalogue.now.initial ∷ [] }
        ensures { IfOk result (λ b. b ≡ opened catalogue.now cells.now 0) }
    {
        // To ask for the tasks is to be told that they are not too many.
        let _count = catalogue.tasks();
        Book::open_with_room(alloc, catalogue, cells, publisher, 0)
    }

    /// As `open`, with room for so many tasks more, which can be submitted.
    pub fn open_with_room(
        alloc: Global,
        catalogue: &'a Catalogue,
        cells: &'a Cells,
        publisher: Publisher,
        spare: usize,
    ) -> Result<Book<'a>, Memory>
        requires own { publisher.cells ≡ cells.now }
        requires unused { publisher.history ≡ catalogue.now.initial ∷ [] }
        requires few { length (tasks catalogue.now) + spare ≤ MAX_TASKS }
        ensures { IfOk result (λ b. b ≡ opened catalogue.now cells.now spare) }
    {
        Book::open_shared(alloc, catalogue, SharedCells::lent(cells), publisher, spare)
    }

    /// As `open_with_room`, over cells that may be counted: then they stay at least as long as the book.
    pub fn open_shared(
        alloc: Global,
        catalogue: &'a Catalogue,
        cells: SharedCells<'a>,
        publisher: Publisher,
        spare: usize,
    ) -> Result<Book<'a>, Memory>
        requires own { publisher.cells ≡ cells }
        requires unused { publisher.history ≡ catalogue.now.initial ∷ [] }
        requires few { length (tasks catalogue.now) + spare ≤ MAX_TASKS }
        ensures { IfOk result (λ b. b ≡ opened catalogue.now cells.entry spare) }
    {
        let count = catalogue.tasks();
        let variables = catalogue.initial().len();
        let room = count + spare;
        let chapter = Chapter::first(alloc, catalogue, room)?;
        let (base, present, since) = openings(alloc, catalogue)?;
        let journal = Vec::with_capacity(alloc, room)?;
        let written = Written::new(alloc)?;
        let table = TaskTable::open(alloc, count, spare, variables)?;
        Ok(Book::of_parts(
            chapter, cells, publisher, base, present, since, journal, written, table, spare,
        ))
    }

    /// The book of these parts, at the beginning of its first chapter.
    fn of_parts(
        chapter: Chapter<'a>,
        cells: SharedCells<'a>,
        publisher: Publisher,
        base: Stored,
        present: Stored,
        since: Since,
        journal: Vec<PackedEntry>,
        written: Written,
        table: TaskTable,
        spare: usize,
    ) -> Book<'a>
        requires own { publisher.cells ≡ cells }
        requires unused { publisher.history ≡ chapter.listing.initial ∷ [] }
        requires base { IsOpening chapter.listing base }
        requires present { IsOpening chapter.listing present }
        requires since { Follows base present since }
        requires journal { journal.items ≡ [] }
        requires journal_room { length (tasks chapter.listing) + spare ≤ vec_capacity journal }
        requires room { length (tasks chapter.listing) + spare ≤ chapter.room }
        requires few { length (tasks chapter.listing) + spare ≤ MAX_TASKS }
        requires few_values { length chapter.listing.initial ≤ MAX_VALUES }
        requires tasks { table.tasks ≡ replicate (length (tasks chapter.listing)) Task.Ready }
        requires spare { table.spare ≡ spare }
        requires variables { table.variables ≡ length chapter.listing.initial }
        ensures { result ≡ opened chapter.entry.listing cells.entry spare }
    {
        chapter.rules();
        let room = table.len() + spare;
        Book {
            chapter,
            cells,
            publisher,
            base,
            journal,
            present,
            since,
            written,
            table,
            room,
            spare,
            before: 0,
        }
    }

    /// A ready task of the transaction with these arguments more, with the next number. `None` and no change
    /// exactly if there is no room for it. It takes no memory.
    pub fn submit(&mut self, tx: TxId, arguments: &[i64]) -> Option<TaskId>
        requires { IsCallable self.old.catalogue tx arguments.now }
        ensures { Submits self.old (record { tx = tx; arguments = arguments.now }) result self.new }
    {
        if self.spare == 0 {
            return None;
        }
        self.chapter.rules();
        self.spare -= 1;
        self.chapter.add(tx, arguments);
        Some(self.table.add())
    }

    /// As `submit`, but the task is running: as if it had been claimed at once.
    #[inline(always)]
    pub fn submit_running(&mut self, tx: TxId, arguments: &[i64]) -> Option<TaskId>
        requires { IsCallable self.old.catalogue tx arguments.now }
        ensures { SubmitsRunning self.old (record { tx = tx; arguments = arguments.now }) result self.new }
    {
        let spare = self.spare;
        if spare == 0 {
            return None;
        }
        self.spare = spare - 1;
        let chapter = &mut self.chapter;
        chapter.rules();
        chapter.add(tx, arguments);
        Some(self.table.add_running())
    }

    /// How many tasks more can be submitted.
    pub fn spare(&self) -> usize
        ensures { result ≡ self.now.spare }
    {
        self.spare
    }

    /// The transaction that a task runs.
    pub fn task_tx(&self, task: TaskId) -> TxId
        requires { task.0 < length self.now.tasks }
        ensures value { result ≡ task_tx self.now.catalogue task }
        ensures own { slice_get (tasks self.now.catalogue) task.0 ≡ Some result }
        ensures known { result.0 < length self.now.catalogue.transactions }
    {
        self.chapter.transaction(task)
    }

    /// The arguments of a task, in the order of its transaction's parameters.
    pub fn task_arguments(&self, task: TaskId) -> &[i64]
        requires { task.0 < length self.now.tasks }
        ensures value { result.now ≡ task_arguments self.now.catalogue task }
        ensures each { IsCallable self.now.catalogue (task_tx self.now.catalogue task) result.now }
    {
        self.chapter.arguments(task)
    }

    /// Whether there is such a task, and it runs this transaction.
    pub fn runs(&self, task: TaskId, tx: TxId) -> bool
        ensures { IsTrue result ↔ (slice_get (tasks self.now.catalogue) task.0 ≡ Some tx) }
    {
        (task.0 as usize) < self.tasks() && self.task_tx(task).0 == tx.0
    }

    /// How many tasks the book has: those of its catalogue, and those that were submitted.
    pub fn tasks(&self) -> usize
        ensures value { result ≡ length self.now.tasks }
        ensures listed { result ≡ length (tasks self.now.catalogue) }
    {
        self.table.len()
    }

    /// How many tasks stand how. It looks at no task.
    pub fn counts(&self) -> Counts
        ensures { AreCounts self.now.tasks result }
    {
        let tally = self.table.tally();
        let running = tally.running as usize;
        let parked = tally.parked as usize;
        let given_up = tally.given_up as usize;
        let done = self.present.number as usize;
        let ready = self.table.len() - running - parked - given_up - done;
        Counts {
            ready,
            running,
            parked,
            done,
            given_up,
        }
    }

    /// How many tasks stay in the next chapter. It looks at no task.
    pub fn staying(&self) -> usize
        ensures { result ≡ length (carried self.now.tasks) }
    {
        // To look at a field is to be told what the type keeps: that there are not too many tasks.
        let _all = self.table.len();
        let counts = self.counts();
        counts.ready + counts.running + counts.parked
    }

    /// Whether no task is ready or running.
    pub fn is_idle(&self) -> bool
        ensures { IsTrue result ↔ IsIdle self.now }
    {
        let counts = self.counts();
        counts.ready == 0 && counts.running == 0
    }

    /// The present value of a variable, and its version: the number of the last entry that changed
    /// it, 0 where none did. `None` exactly where there is no such variable.
    pub fn present(&self, variable: VarId) -> Option<(i64, u64)>
        ensures { IsPresent self.now variable result }
    {
        let place = variable.0 as usize;
        if place >= self.present.values.len() {
            return None;
        }
        Some(pair(&self.present, place))
    }

    /// The present values, one for each variable, in their order.
    pub fn values(&self) -> &[i64]
        ensures value { result.now ≡ self.now.present.state }
        ensures wide { length result.now ≡ length self.now.catalogue.initial }
    {
        self.present.values.as_slice()
    }

    /// The catalogue that the book is of now: that which it was opened on, with a run of one task
    /// more for each task that was submitted. `Memory` only where a growth was refused.
    pub fn catalogue(&self, alloc: Global) -> Result<Catalogue, Memory>
        ensures { IfOk result (λ c. c ≡ self.now.catalogue) }
    {
        self.chapter.catalogue(alloc)
    }

    /// The lowest ready task, which is then running. `None` exactly if none is ready. It takes no memory.
    pub fn take(&mut self) -> Option<TaskId>
        ensures taken { Taken self.old result self.new }
        ensures catalogue { self.new.catalogue ≡ self.old.catalogue }
    {
        self.table.take()
    }

    /// The first ready task at or behind a number, or else the lowest, which is then running. `None` exactly if
    /// none is ready. It takes no memory.
    pub fn take_from(&mut self, number: usize) -> Option<TaskId>
        ensures taken { TakenFrom number self.old result self.new }
        ensures catalogue { self.new.catalogue ≡ self.old.catalogue }
    {
        self.table.take_from(number)
    }

    /// A ready task is running. `false` and no change where it was not ready. It takes no memory.
    pub fn claim(&mut self, task: TaskId) -> bool
        requires exists { task.0 < length self.old.tasks }
        ensures claimed { MatchBool result (IsReady self.old task × (self.new ≡ stands self.old task Task.Running))
            (¬ (IsReady self.old task) × (self.new ≡ self.old)) }
        ensures catalogue { self.new.catalogue ≡ self.old.catalogue }
    {
        if !self.table.is_ready(task) {
            return false;
        }
        self.table.claim(task);
        true
    }

    /// A ready or a parked task is given up: it will not be entered. `false` and no change where it was
    /// neither. It takes no memory.
    pub fn withdraw(&mut self, task: TaskId) -> bool
        requires exists { task.0 < length self.old.tasks }
        ensures withdrawn { MatchBool result
            (IsWaiting (slice_get self.old.tasks task.0) × (self.new ≡ stands self.old task Task.GivenUp))
            (¬ (IsWaiting (slice_get self.old.tasks task.0)) × (self.new ≡ self.old)) }
        ensures catalogue { self.new.catalogue ≡ self.old.catalogue }
    {
        self.table.withdraw(task)
    }

    /// How the task stands.
    pub fn standing(&self, task: TaskId) -> Standing
        requires { task.0 < length self.now.tasks }
        ensures { slice_get (map told_as self.now.tasks) task.0 ≡ Some result }
    {
        self.table.standing(task)
    }

    /// What the task's entry records. `None` exactly where the task is not done, or its entry is no
    /// longer in the journal. It takes no memory.
    pub fn outcome(&self, task: TaskId) -> Option<Outcome>
        requires exists { task.0 < length self.now.tasks }
        ensures { IsRecorded self.now task result }
    {
        let number = self.table.number_of(task)?;
        if number <= self.base.number {
            return None;
        }
        let place = (number - self.base.number - 1) as usize;
        Some(self.journal[place].entry().outcome)
    }

    /// The end of an attempt of the task: it commits or is parked where all that it read is still
    /// so, and else the answer is `Stale` and nothing changed. It takes no memory.
    ///
    /// A commit adds one entry and one state, raises the versions of exactly the variables that it
    /// changes, and makes ready exactly the parked tasks whose log names one of them.
    ///
    /// Each attempt is validated by value: every logged value has to be the present one. The
    /// task has to exist, and the attempt to be of its transaction and to have ended.
    pub fn finish(&mut self, task: TaskId, mut attempt: Attempt<'_>) -> Finish
        requires exists { task.0 < length self.old.tasks }
        requires ended { IsEndOf self.old.catalogue task attempt }
        ensures finished { Finished self.old task attempt.entry result self.new }
        ensures catalogue { self.new.catalogue ≡ self.old.catalogue }
    {
        self.finish_lent(task, &mut attempt)
    }

    /// As `finish`, of an attempt that the caller keeps, so that it can be restarted in the room that it has. Where
    /// the task is parked, and after a commit, it has answered once more; else it is as it was. With more than 256
    /// variables the book keeps the log of a task that is parked, and the attempt begins anew.
    pub fn finish_lent(&mut self, task: TaskId, attempt: &mut Attempt<'_>) -> Finish
        requires exists { task.0 < length self.old.tasks }
        requires ended { IsEndOf self.old.catalogue task attempt.old }
        ensures finished { Finished self.old task attempt.old result self.new }
        ensures left { IsLeft attempt.old result attempt.new }
        ensures catalogue { self.new.catalogue ≡ self.old.catalogue }
    {
        if !self.table.is_running(task) {
            return Finish::NotRunning;
        }
        if !agrees(attempt.log(), &self.present.values) {
            return Finish::Stale;
        }
        let how = match attempt.advance() {
            Next::Returned(value) => Outcome::Returned(value),
            Next::Thrown(fault) => Outcome::Thrown(fault),
            Next::Retry => {
                self.park(task, attempt);
                return Finish::Parked;
            }
            Next::Need(_) | Next::Memory => unreachable!(),
        };
        Finish::Committed(self.commit(task, how, attempt.writes()))
    }

    /// A turn of the task on the present values: it commits, or is parked where its program
    /// retries. If memory runs out, the task is given up, which one whose transaction takes none never is.
    pub fn serial(&mut self, alloc: Global, task: TaskId) -> Serial
        requires exists { task.0 < length self.old.tasks }
        ensures served { Served self.old task result self.new }
        ensures memory { result ≡ Serial.Abandoned → TakesMemory self.old.catalogue (task_tx self.old.catalogue task) }
        ensures catalogue { self.new.catalogue ≡ self.old.catalogue }
    {
        let chapter = &self.chapter;
        let tx = chapter.transaction(task);
        let mut attempt = Attempt::new(alloc, chapter.opened(), tx, chapter.arguments(task));
        self.serial_lent(&mut attempt, task)
    }

    /// As `serial`, by an attempt that the caller keeps, which is restarted for it. What it was an
    /// attempt of before does not matter. After a commit it has ended as the entry records.
    #[inline(always)]
    pub fn serial_lent(&mut self, attempt: &mut Attempt<'a>, task: TaskId) -> Serial
        requires exists { task.0 < length self.old.tasks }
        ensures served { Served self.old task result self.new }
        ensures ended { EndsAs self.old task result attempt.new }
        ensures memory { result ≡ Serial.Abandoned → TakesMemory self.old.catalogue (task_tx self.old.catalogue task) }
        ensures catalogue { self.new.catalogue ≡ self.old.catalogue }
    {
        if !self.table.is_running(task) {
            return Serial::NotRunning;
        }
        let tx = self.chapter.transaction(task);
        let arguments = self.chapter.arguments(task);
        let Ok(how) = bring_to_end(attempt, &self.chapter, tx, arguments, &self.present.values)
        else {
            // It runs, so it is given up.
            let _ = self.give_up(task);
            return Serial::Abandoned;
        };
        // It read the present values, so its log is not compared with them once more.
        let writes = attempt.writes();
        if matches!(how, Outcome::Retries) {
            // To ask for the log is to be told that it names each variable once.
            let _told = attempt.log();
            self.park(task, attempt);
            return Serial::Parked;
        }
        Serial::Committed(self.commit(task, how, writes))
    }

    /// How the transaction with these arguments ends on the present values, by an attempt that the caller
    /// keeps, which is restarted for it and ends so. The book stays as it is. `Memory` only where a growth was refused,
    /// which a transaction that takes none never meets.
    pub fn outcome_now(
        &self,
        attempt: &mut Attempt<'a>,
        tx: TxId,
        arguments: &[i64],
    ) -> Result<Outcome, Memory>
        requires { IsCallable self.now.catalogue tx arguments.now }
        ensures ends { IfOk result
            (λ how. EndsOn self.now.catalogue tx arguments.now self.now.present.state how attempt.new) }
        ensures memory { OnErr result (TakesMemory self.now.catalogue tx) }
    {
        bring_to_end(attempt, &self.chapter, tx, arguments, &self.present.values)
    }

    /// A running task is given up: it will not be entered. `false` and no change where it was not
    /// running. It takes no memory.
    pub fn give_up(&mut self, task: TaskId) -> bool
        requires exists { task.0 < length self.old.tasks }
        ensures given_up { MatchBool result (IsRunning self.old task × (self.new ≡ stands self.old task Task.GivenUp))
            (¬ (IsRunning self.old task) × (self.new ≡ self.old)) }
        ensures catalogue { self.new.catalogue ≡ self.old.catalogue }
    {
        if !self.table.is_running(task) {
            return false;
        }
        self.table.give_up(task);
        true
    }

    /// The base becomes the present number, values and versions, and the journal is empty. It takes no memory.
    pub fn checkpoint(&mut self)
        ensures checkpointed { self.new ≡ checkpointed self.old }
        ensures catalogue { self.new.catalogue ≡ self.old.catalogue }
    {
        rebase(&mut self.base, &self.present, &mut self.since);
        self.journal.clear();
    }

    /// A new chapter begins, where the present one is. Its catalogue declares the same, begins at the
    /// present values, and has a task for each that is ready, running or parked, in their order: a running
    /// one is ready, and a parked one waits as it did. Its number and all versions are 0, and its journal is
    /// empty. What was published, and each pass, stays as it is: the clock goes on. It takes no memory.
    pub fn begin_chapter(&mut self)
        ensures { self.new ≡ chapter_of self.old }
    {
        let count = self.staying();
        self.chapter
            .begin(&self.present.values, self.table.standings(), count);
        self.table.carry_on(count);
        self.before += self.present.number;
        self.spare = reach(self.before, self.room) - self.table.len();
        start_anew(&mut self.base, &mut self.present, &mut self.since);
        self.journal.clear();
    }

    /// How many entries there were in all chapters: the number that the clock of the cells tells.
    pub fn entered(&self) -> u64
        ensures { result ≡ entered_in_all self.now }
    {
        self.before + self.present.number
    }

    /// A checkpoint, where one is due after a turn that answered so: it committed, `every` is not
    /// 0, and the journal is at least `every` entries long.
    pub fn keep_short(&mut self, every: u32, how: Serial)
        ensures kept_short { self.new ≡ kept_short every how self.old }
        ensures catalogue { self.new.catalogue ≡ self.old.catalogue }
    {
        if is_committed(how) && every > 0 && self.journal.len() >= every as usize {
            self.checkpoint();
        }
    }

    /// Makes each running task ready, and then gives the lowest ready task a turn on the present
    /// values until none is ready. One attempt, which is restarted, serves them all.
    ///
    /// Where `every` is not 0, a commit that makes the journal at least `every` entries long is
    /// followed by a checkpoint. A turn that runs out of memory gives its task up, and that of a task whose
    /// transaction takes none never does.
    pub fn drain(&mut self, alloc: Global, every: u32)
        ensures turns { Drains every (readied self.old) self.new }
        ensures idle { IsIdle self.new }
        ensures memory { GivesUpForMemory self.old → GivesUpForMemory self.new }
        ensures catalogue { self.new.catalogue ≡ self.old.catalogue }
    {
        self.make_ready();
        let Some(first) = self.take() else {
            return;
        };
        let chapter = &self.chapter;
        let tx = chapter.transaction(first);
        let mut attempt = Attempt::new(alloc, chapter.opened(), tx, chapter.arguments(first));
        self.turn(&mut attempt, every, first);
        self.turns(&mut attempt, every);
    }

    /// Gives the lowest ready task a turn until none is ready, by an attempt that is restarted for each.
    #[inline(never)]
    fn turns(&mut self, attempt: &mut Attempt<'a>, every: u32)
        requires { (k : ℕ) → slice_get self.old.tasks k ≢ Some Task.Running }
        ensures turns { Drains every self.old self.new }
        ensures idle { IsIdle self.new }
        ensures memory { GivesUpForMemory self.old → GivesUpForMemory self.new }
    {
        while let Some(task) = self.take() {
            self.give_turn(attempt, every, task);
        }
    }

    /// Each running task is ready.
    pub fn make_ready(&mut self)
        ensures { self.new ≡ readied self.old }
    {
        self.table.ready_all();
    }

    /// The turn of a task that was taken, by an attempt that is restarted for it. It is a call, so that who makes
    /// the attempt is short, and makes it where it stays.
    #[inline(never)]
    fn turn(&mut self, attempt: &mut Attempt<'a>, every: u32, task: TaskId)
        requires { IsRunning self.old task }
        ensures turn { Turn every self.old task self.new }
        ensures memory { GivesUpForMemory self.old → GivesUpForMemory self.new }
    {
        self.give_turn(attempt, every, task);
    }

    /// As `turn`, where turns are given one after another.
    #[inline(always)]
    fn give_turn(&mut self, attempt: &mut Attempt<'a>, every: u32, task: TaskId)
        requires { IsRunning self.old task }
        ensures turn { Turn every self.old task self.new }
        ensures memory { GivesUpForMemory self.old → GivesUpForMemory self.new }
    {
        let how = self.serve(attempt, task);
        self.keep_short(every, how);
    }

    /// Tells a pass of the book's cells all that was published, by one load of the clock, and
    /// closes it. A begin after it is at the present values or later ones.
    pub fn meet(&mut self, pass: &mut Pass)
        requires own { pass.old.cells ≡ self.old.cells }
        ensures same { self.new ≡ self.old }
        ensures met { MeetsBy pass.old pass.new self.old.history }
    {
        self.publisher.meet(self.cells.get(), pass);
    }

    /// Whether the catalogue is the book's present one: the tasks that were submitted and the values at
    /// which the chapter begins included.
    pub fn is_for(&self, catalogue: &Catalogue) -> bool
        ensures { IsTrue result ↔ (self.now.catalogue ≡ catalogue.now) }
    {
        self.chapter.is(catalogue)
    }

    /// Whether the catalogue declares what the book's does, at whatever values it begins and whatever it
    /// runs: the same variables, the same standing conditions, the same transactions. `tasks` tells how many
    /// tasks the book has, and `runs` which transaction each of them runs.
    pub fn declares(&self, catalogue: &Catalogue) -> bool
        ensures { IsTrue result ↔ SameProgram self.now.catalogue catalogue.now }
    {
        self.chapter.opened().same_program(catalogue)
    }

    /// How many entries the journal has.
    pub fn journal_len(&self) -> usize
        ensures { result ≡ length self.now.journal }
    {
        self.journal.len()
    }

    /// What the book tells: base, journal, present values, and the parked and the given-up tasks,
    /// both ascending, each with its own transaction. `Memory` only where a growth was refused.
    pub fn report(&self, alloc: Global) -> Result<Report, Memory>
        ensures { IfOk result (λ r. ReportIs self.now (told r)) }
    {
        let mut report = self.all_but_entries(alloc)?;
        report.entries = entries_of(alloc, &self.journal)?;
        Ok(report)
    }

    /// As `report`, of a book that ends with it.
    pub fn into_report(self, alloc: Global) -> Result<Report, Memory>
        ensures { IfOk result (λ r. ReportIs self.entry (told r)) }
    {
        self.into_run_report(alloc)?.report(alloc)
    }

    /// As `into_report`, with the journal in the lines in which the book kept it: the report takes them
    /// over, where the others make an entry of each.
    pub fn into_run_report(self, alloc: Global) -> Result<RunReport, Memory>
        ensures { IfOk result (λ r. ReportIs self.entry (told_run r)) }
    {
        let rest = self.all_but_entries(alloc)?;
        let Book {
            chapter: _chapter,
            cells: _cells,
            publisher: _publisher,
            base: _base,
            journal,
            present: _present,
            since: _since,
            written: _written,
            table: _table,
            room: _,
            spare: _,
            before: _,
        } = self;
        Ok(RunReport { journal, rest })
    }

    /// The report but for its entries.
    fn all_but_entries(&self, alloc: Global) -> Result<Report, Memory>
        ensures { IfOk result (λ r. ReportIs (without_journal self.now) (told r)) }
    {
        Ok(Report {
            base: self.base.number,
            base_vars: pairs(alloc, &self.base)?,
            entries: Vec::new(alloc),
            now: self.present.number,
            now_vars: pairs(alloc, &self.present)?,
            parked: parked(alloc, &self.chapter, self.table.standings())?,
            memory: given_up(alloc, &self.chapter, self.table.standings())?,
        })
    }

    /// What every book keeps: among it, that no state it holds or published breaks a standing
    /// condition, that it published a state for each number up to the present one, and that no parked
    /// task could end before a variable that it read changes. It does nothing: its contract is the law.
    pub fn law(&self)
        ensures lawful { LawfulBook self.now }
        ensures fits { BookFits self.now }
        ensures upheld { KeepsConditions self.now }
        ensures numbered { length self.now.history ≡ entered_in_all self.now + 1 }
        ensures valued { values self.now.catalogue ≡ length self.now.catalogue.initial }
        ensures waits { ParkedWait self.now }
    {
        // Its law: a program that retries over a log does so on each state that agrees with the log.
        frame();
        // What its catalogue keeps, and with it, since a field is looked at, what the type does.
        self.chapter.rules();
    }

    /// The task waits for a change of a logged variable.
    fn park(&mut self, task: TaskId, attempt: &mut Attempt<'_>)
        requires running { IsRunning self.old task }
        requires waits { Waits self.old.catalogue self.old.present.state task attempt.old.log }
        requires variables { attempt.old.variables ≡ length self.old.catalogue.initial }
        ensures parked { self.new ≡ stands self.old task (Task.Parked attempt.old.log) }
        ensures left { attempt.new ≡ left_parked attempt.old }
    {
        park(&mut self.table, task, attempt);
    }

    /// The task commits with this outcome and these writes. The number of its entry.
    pub(crate) fn commit(&mut self, task: TaskId, how: Outcome, writes: &[(VarId, i64)]) -> u64
        requires running { IsRunning self.old task }
        requires outcome { how ≡ outcome (task_program self.old.catalogue task) self.old.present.state }
        requires after { after (task_program self.old.catalogue task) self.old.present.state
            ≡ with_changes self.old.present.state writes.now }
        requires ends { how ≢ Outcome.Retries }
        requires ascending { Ascending writes.now }
        requires known { AllKnown (length self.old.catalogue.initial) writes.now }
        ensures number { result ≡ self.old.present.number + 1 }
        ensures committed { self.new ≡ committed self.old task }
    {
        // Its law: a program that retries over a log does so on each state that agrees with the log.
        frame();
        // Its law: there are few transactions, so that a line has room for the number of each.
        self.chapter.rules();
        let number = self.present.number + 1;
        let tx = self.chapter.transaction(task);
        let values = self.present.values.as_slice();
        self.publisher.publish(self.cells.get(), writes, values);
        self.table.finish(task, number);
        self.table.wake(writes, values);
        store(
            &mut self.present,
            number,
            writes,
            &self.base,
            &mut self.since,
        );
        self.present.number = number;
        enter(
            &mut self.journal,
            Entry {
                number,
                task,
                tx,
                outcome: how,
            },
        );
        number
    }
}
