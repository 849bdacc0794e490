//! The catalogue of a chapter: what the catalogue that the book was opened on declares, the values at
//! which the chapter begins, and the calls of its tasks.

ghost use Rattle.std.specs.Prelude.{true, IsTrue, ◌↔◌, ◌≡◌, ◌<◌, ◌≤◌, ◌++◌, ◌∷◌, [], length, map, drop, IfOk, OnOk};
ghost use Rattle.std.specs.Prelude.{Some, slice_get, vec_capacity};
ghost use Rattle.txn_programs.specs.declared.limits.TheConstants.{MAX_TASKS};
ghost use Rattle.txn_programs.specs.Listing.{values, calls, tasks, task_tx, task_arguments, task_program, IsCallable};
ghost use Rattle.txn_programs.specs.Meaning.{outcome, after};
ghost use Rattle.txn_programs.specs.Standing.{Upholds};
ghost use Rattle.txn_programs.specs.Names.{names_hold};
ghost use Rattle.txn_programs.specs.Limits.{limits_hold};
ghost use Rattle.txn.specs.Grown.{grown, SameProgram};
ghost use Rattle.txn_evaluator.specs.Notes.{undone, AreInside};
ghost use Rattle.book.specs.Standings.{bare};
ghost use Rattle.book.specs.Carrying.{carried, staying};
ghost use Rattle.book.specs.ChapterInside.{one_each, HoldsEach};
ghost use Rattle.txn.specs.Values.{begun};

use crate::calls::Calls;
use crate::steps::{Steps, execute_call, steps_of};
use crate::task::Slot;
use std::alloc::{AllocError, Global};
use std::marker::Model;
use txn::{Call, Catalogue, Memory, Outcome, TaskId, TxId, begun};
use txn_declarations::same::{same_runs, same_values};
use txn_evaluator::notes::Note;

/// The catalogue of a chapter. A clause sees what it lists, and for how many tasks there is room.
#[derive(Drop)]
pub struct Chapter<'a> {
    /// The catalogue that the book was opened on.
    opened: &'a Catalogue,
    /// Whether this is the first chapter, which has the runs and the initial values of that catalogue.
    is_first: bool,
    /// The values at which a later chapter begins, in room that the first one leaves empty.
    later: Vec<i64>,
    /// What each task calls.
    calls: Calls,
    /// The steps of that catalogue, which are those of every chapter.
    steps: Steps,
}

impl<'a> Model for Chapter<'a> {
    ghost use Rattle.std.specs.Coded.{codes};
    ghost use Rattle.txn.specs.Codes.{coded_listing};
    ghost use Rattle.book.specs.Chapters.{ChapterView};

    ghost Value = { ChapterView };

    ghost coded = { Prim.hlevel (codes, coded_listing) };

    ghost use Rattle.book.specs.ChapterInside.{chapter_view, IsKept};

    ghost view = { chapter_view };

    ghost invariant = { IsKept };
}

impl<'a> Chapter<'a> {
    /// The first chapter: the catalogue itself, with room for so many tasks in all.
    pub fn first(
        alloc: Global,
        opened: &'a Catalogue,
        room: usize,
    ) -> Result<Chapter<'a>, AllocError>
        requires fits { length (tasks opened.now) ≤ room }
        requires few { room ≤ MAX_TASKS }
        ensures listing { IfOk result (λ c. c.listing ≡ opened.now) }
        ensures room { IfOk result (λ c. c.room ≡ room) }
    {
        opened.rules();
        Ok(Chapter {
            opened,
            is_first: true,
            later: Vec::with_capacity(alloc, opened.initial().len())?,
            calls: calls_of(alloc, opened, room)?,
            steps: steps_of(alloc, opened)?,
        })
    }

    /// The catalogue that the book was opened on, whose transactions are those of every chapter.
    pub fn opened(&self) -> &'a Catalogue
        ensures same { SameProgram result.now self.now.listing }
        ensures wide { length result.now.initial ≡ length self.now.listing.initial }
    {
        self.opened
    }

    /// What the chapter's catalogue keeps. It does nothing: its contract is the law.
    pub fn rules(&self)
        ensures valued { values self.now.listing ≡ length self.now.listing.initial }
        ensures names { names_hold self.now.listing ≡ true }
        ensures limits { limits_hold self.now.listing ≡ true }
        ensures upheld { Upholds self.now.listing self.now.listing.initial }
        ensures few { length (tasks self.now.listing) ≤ MAX_TASKS }
    {
        self.opened.rules();
        let _count = self.calls.len();
    }

    /// The transaction of a task.
    pub fn transaction(&self, task: TaskId) -> TxId
        requires { task.0 < length (tasks self.now.listing) }
        ensures value { result ≡ task_tx self.now.listing task }
        ensures own { slice_get (tasks self.now.listing) task.0 ≡ Some result }
        ensures known { result.0 < length self.now.listing.transactions }
    {
        self.calls.transaction(task.0 as usize)
    }

    /// The arguments of a task.
    pub fn arguments(&self, task: TaskId) -> &[i64]
        requires { task.0 < length (tasks self.now.listing) }
        ensures value { result.now ≡ task_arguments self.now.listing task }
        ensures each { IsCallable self.now.listing (task_tx self.now.listing task) result.now }
    {
        self.calls.arguments(task.0 as usize)
    }

    /// How a task ends on the values, where the values after it stand then, and the notes hold what it wrote.
    #[inline(always)]
    pub fn execute(
        &mut self,
        task: TaskId,
        values: &mut Vec<i64>,
        notes: &mut Vec<Note>,
    ) -> Result<Outcome, AllocError>
        requires exists { task.0 < length (tasks self.old.listing) }
        requires values { length values.old.items ≡ length self.old.listing.initial }
        ensures same { self.new ≡ self.old }
        ensures outcome { IfOk result (λ o. o ≡ outcome (task_program self.old.listing task) values.old.items) }
        ensures after { OnOk result (values.new.items ≡ after (task_program self.old.listing task) values.old.items) }
        ensures undone { undone notes.new.items values.new.items ≡ values.old.items }
        ensures inside { AreInside (length values.new.items) notes.new.items }
        ensures sized { length values.new.items ≡ length values.old.items }
    {
        let place = task.0 as usize;
        let tx = self.calls.transaction(place);
        let arguments = self.calls.arguments(place);
        execute_call(&mut self.steps, self.opened, tx, arguments, values, notes)
    }

    /// A task of the transaction with these arguments more, for which there is room.
    pub fn add(&mut self, tx: TxId, arguments: &[i64])
        requires known { IsCallable self.old.listing tx arguments.now }
        requires room { length (tasks self.old.listing) < self.old.room }
        ensures listing { self.new.listing
            ≡ grown self.old.listing (record { tx = tx; arguments = arguments.now } ∷ []) }
        ensures room { self.new.room ≡ self.old.room }
    {
        self.calls.add(tx, arguments);
    }

    /// The next chapter begins, at these values, with those tasks that stay, which are so many. It takes
    /// no memory.
    pub fn begin(&mut self, values: &[i64], standings: &[Slot], count: usize)
        requires each { length standings.now ≡ length (tasks self.old.listing) }
        requires count { count ≡ length (carried (map bare standings.now)) }
        requires wide { length values.now ≡ length self.old.listing.initial }
        requires upheld { Upholds self.old.listing values.now }
        ensures listing { self.new.listing
            ≡ begun self.old.listing values.now (staying (calls self.old.listing) (map bare standings.now)) }
        ensures room { self.new.room ≡ self.old.room }
    {
        self.is_first = false;
        put(&mut self.later, values);
        self.calls.keep_staying(standings, count);
    }

    /// Whether the catalogue says the same.
    pub fn is(&self, catalogue: &Catalogue) -> bool
        ensures { IsTrue result ↔ (self.now.listing ≡ catalogue.now) }
    {
        if !self.opened.same_program(catalogue) {
            return false;
        }
        if !same_values(self.initial(), catalogue.initial()) {
            return false;
        }
        self.has_runs(catalogue.runs())
    }

    /// The values at which the chapter begins.
    fn initial(&self) -> &[i64]
        ensures { result.now ≡ self.now.listing.initial }
    {
        if self.is_first {
            return self.opened.initial();
        }
        &self.later
    }

    /// Whether its runs are these.
    fn has_runs(&self, runs: &[(Call, u32)]) -> bool
        ensures { IsTrue result ↔ (self.now.listing.runs ≡ runs.now) }
    {
        if self.is_first {
            return are_declared_and(runs, self.opened.runs(), &self.calls, self.opened.tasks());
        }
        are_one_each(runs, &self.calls, 0)
    }

    /// A catalogue that says the same. `Memory` only where a growth was refused.
    pub fn catalogue(&self, alloc: Global) -> Result<Catalogue, Memory>
        ensures { IfOk result (λ c. c ≡ self.now.listing) }
    {
        if self.is_first {
            let more = behind(alloc, &self.calls, self.opened.tasks())?;
            return self.opened.grown(alloc, &more);
        }
        let calls = behind(alloc, &self.calls, 0)?;
        begun(alloc, self.opened, &self.later, &calls)
    }
}

/// Whether the runs are those that were declared, and then one of one task for each call behind so many.
fn are_declared_and(
    runs: &[(Call, u32)],
    declared: &[(Call, u32)],
    calls: &Calls,
    from: usize,
) -> bool
    requires { from ≤ length calls.now.calls }
    ensures { IsTrue result ↔ (runs.now ≡ declared.now ++ one_each (drop from calls.now.calls)) }
{
    let count = declared.len();
    if runs.len() < count {
        return false;
    }
    if !same_runs(&runs[..count], declared) {
        return false;
    }
    are_one_each(&runs[count..], calls, from)
}

/// Whether the runs are one of one task for each call behind so many.
fn are_one_each(runs: &[(Call, u32)], calls: &Calls, from: usize) -> bool
    requires { from ≤ length calls.now.calls }
    ensures { IsTrue result ↔ (runs.now ≡ one_each (drop from calls.now.calls)) }
{
    if runs.len() != calls.len() - from {
        return false;
    }
    for i in 0..runs.len() {
        if !is_one(&runs[i], calls, from + i) {
            return false;
        }
    }
    true
}

/// Whether the run is one of one task for this task's call.
fn is_one(run: &(Call, u32), calls: &Calls, task: usize) -> bool
    requires { task < length calls.now.calls }
    ensures { IsTrue result ↔ ((slice_get calls.now.calls task ≡ Some run.now.0) × (run.now.1 ≡ 1)) }
{
    run.1 == 1
        && run.0.tx.0 == calls.transaction(task).0
        && same_values(run.0.arguments.as_slice(), calls.arguments(task))
}

/// The calls behind so many.
fn behind(alloc: Global, calls: &Calls, from: usize) -> Result<Vec<Call>, AllocError>
    requires { from ≤ length calls.now.calls }
    ensures { IfOk result (λ v. v.items ≡ drop from calls.now.calls) }
{
    let mut more = Vec::with_capacity(alloc, calls.len() - from)?;
    for task in from..calls.len() {
        more.push(calls.call(task))?;
    }
    Ok(more)
}

/// These values in place of those that stood there. There is room for them.
fn put(later: &mut Vec<i64>, values: &[i64])
    requires { length values.now ≤ vec_capacity later.old }
    ensures values { later.new.items ≡ values.now }
    ensures capacity { vec_capacity later.old ≤ vec_capacity later.new }
{
    later.clear();
    match later.extend_from_slice(values) {
        Ok(()) => {}
        Err(_) => unreachable!(),
    }
}

/// The calls of the catalogue's tasks, with room for so many. There is room for the arguments of any call of it.
fn calls_of(alloc: Global, catalogue: &Catalogue, room: usize) -> Result<Calls, AllocError>
    requires fits { length (tasks catalogue.now) ≤ room }
    requires few { room ≤ MAX_TASKS }
    ensures calls { IfOk result (λ c. c.calls ≡ calls catalogue.now) }
    ensures room { IfOk result (λ c. c.room ≡ room) }
    ensures row_room { IfOk result (λ c. HoldsEach catalogue.now c.width) }
{
    let mut calls = Calls::with_room(alloc, catalogue.most_parameters(), room)?;
    for i in 0..catalogue.tasks() {
        let task = TaskId(i as u32);
        calls.add(catalogue.task_tx(task), catalogue.task_arguments(task));
    }
    Ok(calls)
}
