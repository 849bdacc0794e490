//! The book behind its lock: one function for each time under the lock.
//!
//! What a lock holds is known by its type alone. So the type says of which catalogue the book is, and
//! how short its journal is kept: a run picks a name, and the name has the run's catalogue and after
//! how many entries a checkpoint is made.

ghost use Rattle.std.specs.Prelude.{◌≡◌, ◌≢◌, ◌<◌, ◌≤◌, ℕ, [], ◌∷◌, length, All, IfOk, IfSome, IsTrue, None, Some};
ghost use Rattle.std.specs.Coded.{codes};
ghost use Rattle.std.proofs.Props.{props};
ghost use Rattle.txn.specs.Codes.{coded_listing};
ghost use Rattle.txn_programs.specs.Listing.{Listing, tasks, task_tx};
ghost use Rattle.book_storage.specs.PackedEntries.{told_run};
ghost use Rattle.txn_programs.specs.LawfulReport.{LawfulReport, BaseReached};
ghost use Rattle.attempt.specs.Room.{TakesMemory};
ghost use Rattle.book.specs.GivingUp.{GivesUpForMemory};
ghost use Rattle.book.specs.Turns.{IsEndOf, IsIdle, ReportIs};
ghost use Rattle.run_workers.specs.GivingUp.{GaveUpForMemory};
ghost use Rattle.run_workers.specs.Journals.{IsShort, KeepsShort};
ghost use Rattle.run_workers.specs.Standing.{HasTask, IsOver, NoneReady, ArePresent};
ghost use Rattle.run_workers.specs.declared.held.TheConstants.{HELD};
ghost use Rattle.run_workers.specs.declared.shared.TryEnd.TheVariants.{Over, Memory as ShortOfMemory};

use crate::held::HELD;
use crate::waiting::lock;
use arrayvec::ArrayVec;
use attempt::Attempt;
use book::{Book, Finish, Serial};
use book_storage::RunReport;
use cells::{Cells, Publisher};
use std::alloc::Global;
use std::marker::{Brand, PhantomData};
use std::sync::{Mutex, Wait};
use txn::weights::{Size, size_in};
use txn::{Catalogue, Memory, TaskId};

/// Which catalogue a run is of, and after how many entries a checkpoint is made, 0 for never. Each
/// run picks both.
pub(crate) trait Naming: Send {
    ghost catalogue: { Listing };

    ghost every: { ℕ };
}

impl Naming for Brand {
    ghost catalogue = { record { names = []; tables = []; initial = []; always = []; transactions = []; runs = [] } };

    ghost every = { 0 };
}

/// A book of the run's catalogue, with a journal as short as the run keeps it. It has given no task up whose
/// transaction takes no memory.
#[derive(Drop)]
pub(crate) struct Named<'a, N: Naming> {
    book: Book<'a>,
    /// Tasks that were taken, and wait for their turns.
    pub(crate) held: ArrayVec<TaskId, HELD>,
    of: PhantomData<N>,
    ghost of_catalogue: { book.catalogue ≡ N.catalogue } by { Prim.hlevel (codes, coded_listing) },
    ghost short: { IsShort N.every book.base.number (length book.journal) },
    ghost given_up: { GivesUpForMemory book },
    ghost exist: { All (λ t. t.0 < length (tasks N.catalogue)) held.items } by { Prim.hlevel props },
    ghost room: { length held.items < HELD },
}

/// How a try ended.
#[derive(Clone, Copy)]
pub(crate) enum TryEnd {
    /// The task is over: no worker has it any more. The next one, where it was taken at the same time under
    /// the lock.
    Over(Option<TaskId>),
    /// What was read is no longer so. The task is still running.
    Stale,
    /// A growth was refused. The task is still running.
    Memory,
}

/// The book of the run's catalogue, with its name.
pub(crate) fn open<'a, N: Naming>(
    alloc: Global,
    catalogue: &'a Catalogue,
    cells: &'a Cells,
    publisher: Publisher,
) -> Result<Named<'a, N>, Memory>
    requires named { catalogue.now ≡ N.catalogue }
    requires own { publisher.cells ≡ cells.now }
    requires unused { publisher.history ≡ catalogue.now.initial ∷ [] }
{
    let book = Book::open(alloc, catalogue, cells, publisher)?;
    Ok(Named {
        book,
        held: ArrayVec::new(),
        of: PhantomData,
    })
}

/// Takes a task of the run's catalogue, the lowest ready one. `None` if none is ready.
pub(crate) fn take<R: Wait, N: Naming>(rt: &R, shared: &Mutex<Named<'_, N>>) -> Option<TaskId>
    ensures { IfSome result (HasTask N.catalogue) }
{
    let mut named = lock(rt, shared);
    next(&mut named)
}

/// The lowest ready task, which is then running. `None` only if none is ready.
pub(crate) fn next<N: Naming>(named: &mut Named<'_, N>) -> Option<TaskId>
    ensures exists { IfSome result (HasTask N.catalogue) }
    ensures none { result ≡ None → NoneReady named.new.book }
{
    let book = &mut named.book;
    book.law();
    book.take()
}

/// The next task, where it is to be taken at the same time under the lock.
fn next_at_once<N: Naming>(named: &mut Named<'_, N>, at_once: bool) -> Option<TaskId>
    ensures { IfSome result (HasTask N.catalogue) }
{
    if at_once { next(named) } else { None }
}

/// Gives a task up whose transaction takes memory. The next one, where it is to be taken at once.
pub(crate) fn give_up<R: Wait, N: Naming>(
    rt: &R,
    shared: &Mutex<Named<'_, N>>,
    task: TaskId,
    at_once: bool,
) -> Option<TaskId>
    requires exists { HasTask N.catalogue task }
    requires memory { TakesMemory N.catalogue (task_tx N.catalogue task) }
    ensures { IfSome result (HasTask N.catalogue) }
{
    let mut named = lock(rt, shared);
    drop_task(&mut named, task);
    next_at_once(&mut named, at_once)
}

/// A task is given up, so that it is over. Its transaction has to be one that takes memory.
pub(crate) fn drop_task<N: Naming>(named: &mut Named<'_, N>, task: TaskId)
    requires exists { HasTask N.catalogue task }
    requires memory { TakesMemory N.catalogue (task_tx N.catalogue task) }
    ensures { IsOver named.new.book task }
{
    let book = &mut named.book;
    book.law();
    book.give_up(task);
}

/// Brings the end of an attempt to the book; the worker keeps the attempt. Where the task is over, and the
/// next one is to be taken at once, that is done before the lock is let go.
pub(crate) fn finish<R: Wait, N: Naming>(
    rt: &R,
    shared: &Mutex<Named<'_, N>>,
    every: u32,
    task: TaskId,
    attempt: &mut Attempt<'_>,
    at_once: bool,
) -> TryEnd
    requires every { every ≡ N.every }
    requires exists { HasTask N.catalogue task }
    requires ended { IsEndOf N.catalogue task attempt.old }
    ensures next { (t : TaskId) → result ≡ Over (Some t) → HasTask N.catalogue t }
    ensures memory { result ≢ ShortOfMemory }
{
    let mut named = lock(rt, shared);
    if end(&mut named, every, task, attempt) {
        TryEnd::Over(next_at_once(&mut named, at_once))
    } else {
        TryEnd::Stale
    }
}

/// Brings the end of an attempt to the book: whether the task is over then. Where it is not, what was read
/// is no longer so. A commit that makes the journal long enough is followed by a checkpoint.
pub(crate) fn end<N: Naming>(
    named: &mut Named<'_, N>,
    every: u32,
    task: TaskId,
    attempt: &mut Attempt<'_>,
) -> bool
    requires every { every ≡ N.every }
    requires exists { HasTask N.catalogue task }
    requires ended { IsEndOf N.catalogue task attempt.old }
    ensures { IsTrue result → IsOver named.new.book task }
{
    let book = &mut named.book;
    book.law();
    match book.finish_lent(task, attempt) {
        Finish::Stale => false,
        Finish::NotRunning | Finish::Parked => true,
        Finish::Committed(number) => {
            book.keep_short(every, Serial::Committed(number));
            true
        }
    }
}

/// A turn of a task on the present values, under the lock, by an attempt that is restarted for it. The next
/// one, where it is to be taken at once.
#[inline(never)]
pub(crate) fn serial<'b, R: Wait, N: Naming>(
    rt: &R,
    shared: &Mutex<Named<'b, N>>,
    every: u32,
    attempt: &mut Attempt<'b>,
    task: TaskId,
    at_once: bool,
) -> Option<TaskId>
    requires every { every ≡ N.every }
    requires exists { HasTask N.catalogue task }
    ensures { IfSome result (HasTask N.catalogue) }
{
    let mut named = lock(rt, shared);
    turn(&mut named, every, attempt, task);
    next_at_once(&mut named, at_once)
}

/// The present values, one for each variable and each cell.
pub(crate) fn present<'n, N: Naming>(named: &'n Named<'_, N>) -> &'n [i64]
    ensures present { ArePresent N.catalogue result.now }
    ensures wide { length result.now ≡ length N.catalogue.initial }
{
    let book = &named.book;
    book.law();
    book.values()
}

/// How a task is run, by these.
pub(crate) fn size<N: Naming>(named: &Named<'_, N>, sizes: &[Size], task: TaskId) -> Size
    requires { HasTask N.catalogue task }
{
    let book = &named.book;
    book.law();
    size_in(sizes, book.task_tx(task))
}

/// The turn of a task, behind which it is over, and a checkpoint where one is due.
pub(crate) fn turn<'b, N: Naming>(
    named: &mut Named<'b, N>,
    every: u32,
    attempt: &mut Attempt<'b>,
    task: TaskId,
)
    requires every { every ≡ N.every }
    requires exists { HasTask N.catalogue task }
    ensures { IsOver named.new.book task }
{
    let book = &mut named.book;
    book.law();
    let how = book.serve(attempt, task);
    book.keep_short(every, how);
}

/// Gives what is left a turn, and tells the book.
pub(crate) fn settle<N: Naming>(
    alloc: Global,
    every: u32,
    named: Named<'_, N>,
) -> Result<RunReport, Memory>
    requires every { every ≡ N.every }
    ensures lawful { IfOk result (λ r. LawfulReport N.catalogue (told_run r)) }
    ensures reached { IfOk result (λ r. BaseReached N.catalogue (told_run r)) }
    ensures short { IfOk result (λ r. KeepsShort N.every (told_run r)) }
    ensures memory { IfOk result (λ r. GaveUpForMemory N.catalogue (told_run r)) }
{
    let Named {
        mut book,
        held: _,
        of: _,
    } = named;
    book.law();
    book.drain(alloc, every);
    report(alloc, book)
}

/// The report of a book with no task ready or running, which takes its journal over.
pub(crate) fn report(alloc: Global, book: Book<'_>) -> Result<RunReport, Memory>
    requires { IsIdle book }
    ensures lawful { IfOk result (λ r. LawfulReport book.entry.catalogue (told_run r)) }
    ensures reached { IfOk result (λ r. BaseReached book.entry.catalogue (told_run r)) }
    ensures is { IfOk result (λ r. ReportIs book.entry (told_run r)) }
{
    book.law();
    book.into_run_report(alloc)
}
