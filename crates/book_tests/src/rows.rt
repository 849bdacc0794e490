//! Rows of steps of a book that was just opened, each with what it has to answer.

ghost use Rattle.std.specs.Prelude.{◌≡◌, ◌∷◌, [], length, All, IfOk};

use crate::attempts::{ends, has};
use crate::beside::goes_beside;
use crate::lent::{Lent, first_not_lent};
use crate::looks::{Look, Said, says, shows};
use crate::{arguments, beside, chapters, lent, plain, results, scripts, submitting};
use book::{Book, Finish, NotPlain, Serial};
use cells::{Cells, Pass, Publisher};
use std::alloc::Global;
use txn::{Catalogue, Memory, Outcome, TaskId, TxId};
use txn_text::read_file;

/// A step, with what it has to answer.
pub(crate) enum Step {
    /// The next task is this one, or none is ready.
    Takes(Option<TaskId>),
    /// The first task from this number on, or else the lowest, is this one, or none is ready.
    TakesFrom(usize, Option<TaskId>),
    /// A turn of the task answers so.
    Turns(TaskId, Serial),
    /// A plain turn of the task answers so.
    TurnsPlainly(TaskId, Result<(Outcome, u64), NotPlain>),
    /// To give the task up answers so.
    GivesUp(TaskId, bool),
    /// To claim the task answers so.
    Claims(TaskId, bool),
    /// To withdraw the task answers so.
    Withdraws(TaskId, bool),
    /// The next chapter begins.
    BeginsChapter,
    /// An attempt of the task on these values logs and writes so many variables, and its end answers
    /// so.
    Ends(TaskId, &'static [i64], (usize, usize), Finish),
    /// A drain, with a checkpoint at so many entries.
    Drains(u32),
    Checkpoints,
    /// To submit the transaction answers so.
    Submits(TxId, Option<TaskId>),
    /// To submit the transaction as a running task answers so.
    SubmitsRunning(TxId, Option<TaskId>),
    /// To submit the transaction with these arguments answers so.
    Calls(TxId, &'static [i64], Option<TaskId>),
    /// To submit it with these as a running task answers so.
    CallsRunning(TxId, &'static [i64], Option<TaskId>),
    /// The transaction is submitted until there are so many tasks.
    Fills(TxId, u32),
    /// The book shows this.
    Shows(Look),
    /// Its report says this.
    Says(Said),
}

/// Whether to submit the transaction with these arguments answers so.
fn submits(
    book: &mut Book<'_>,
    catalogue: &Catalogue,
    tx: TxId,
    arguments: &[i64],
    task: Option<TaskId>,
) -> bool {
    if !book.declares(catalogue) || !catalogue.is_callable(tx, arguments) {
        return false;
    }
    book.submit(tx, arguments) == task
}

/// Whether to submit the transaction with these arguments as a running task answers so.
fn submits_running(
    book: &mut Book<'_>,
    catalogue: &Catalogue,
    tx: TxId,
    arguments: &[i64],
    task: Option<TaskId>,
) -> bool {
    if !book.declares(catalogue) || !catalogue.is_callable(tx, arguments) {
        return false;
    }
    book.submit_running(tx, arguments) == task
}

/// Whether the transaction can be submitted until there are so many tasks, the first of these is 1.
fn fills(book: &mut Book<'_>, catalogue: &Catalogue, tx: TxId, tasks: u32) -> bool {
    for task in 1..tasks {
        if !submits(book, catalogue, tx, &[], Some(TaskId(task))) {
            return false;
        }
    }
    true
}

/// Whether a turn of the task answers so.
fn turns(
    alloc: Global,
    book: &mut Book<'_>,
    catalogue: &Catalogue,
    task: TaskId,
    how: Serial,
) -> bool {
    has(book, catalogue, task) && book.serial(alloc, task) == how
}

/// Whether a plain turn of the task answers so.
fn turns_plainly(
    book: &mut Book<'_>,
    catalogue: &Catalogue,
    task: TaskId,
    how: Result<(Outcome, u64), NotPlain>,
) -> bool {
    has(book, catalogue, task) && book.turn_plainly(task) == how
}

/// Whether to give the task up answers so.
fn gives_up(book: &mut Book<'_>, catalogue: &Catalogue, task: TaskId, how: bool) -> bool {
    has(book, catalogue, task) && book.give_up(task) == how
}

/// Whether to claim the task answers so.
fn claims(book: &mut Book<'_>, catalogue: &Catalogue, task: TaskId, how: bool) -> bool {
    has(book, catalogue, task) && book.claim(task) == how
}

/// Whether to withdraw the task answers so.
fn withdraws(book: &mut Book<'_>, catalogue: &Catalogue, task: TaskId, how: bool) -> bool {
    has(book, catalogue, task) && book.withdraw(task) == how
}

/// Whether the step is answered so.
fn goes(alloc: Global, book: &mut Book<'_>, catalogue: &Catalogue, step: &Step) -> bool {
    match step {
        Step::Takes(task) => book.take() == *task,
        Step::TakesFrom(number, task) => book.take_from(*number) == *task,
        Step::Turns(task, how) => turns(alloc, book, catalogue, *task, *how),
        Step::TurnsPlainly(task, how) => turns_plainly(book, catalogue, *task, *how),
        Step::GivesUp(task, how) => gives_up(book, catalogue, *task, *how),
        Step::Claims(task, how) => claims(book, catalogue, *task, *how),
        Step::Withdraws(task, how) => withdraws(book, catalogue, *task, *how),
        Step::BeginsChapter => {
            book.begin_chapter();
            true
        }
        Step::Ends(task, values, sizes, how) => {
            ends(alloc, book, catalogue, *task, values, *sizes, *how)
        }
        Step::Drains(every) => {
            book.drain(alloc, *every);
            true
        }
        Step::Checkpoints => {
            book.checkpoint();
            true
        }
        Step::Submits(tx, task) => submits(book, catalogue, *tx, &[], *task),
        Step::SubmitsRunning(tx, task) => submits_running(book, catalogue, *tx, &[], *task),
        Step::Calls(tx, arguments, task) => submits(book, catalogue, *tx, arguments, *task),
        Step::CallsRunning(tx, arguments, task) => {
            submits_running(book, catalogue, *tx, arguments, *task)
        }
        Step::Fills(tx, tasks) => fills(book, catalogue, *tx, *tasks),
        Step::Shows(look) => shows(alloc, book, look),
        Step::Says(said) => says(alloc, book, said),
    }
}

/// The first of these steps that does not go so, `None` where all do.
pub(crate) fn first_wrong_step(
    alloc: Global,
    book: &mut Book<'_>,
    catalogue: &Catalogue,
    steps: &[Step],
) -> Option<usize> {
    for place in 0..steps.len() {
        if !goes(alloc, book, catalogue, &steps[place]) {
            return Some(place);
        }
    }
    None
}

/// What is done with a book that was just opened.
pub(crate) enum What {
    /// These steps.
    Steps(&'static [Step]),
    /// One attempt is lent for each of these.
    Lends(&'static [Lent]),
    /// Passes are read beside it.
    Beside,
}

/// A book of the catalogue, with room for so many tasks more where that is said.
fn opened<'a>(
    alloc: Global,
    catalogue: &'a Catalogue,
    cells: &'a Cells,
    publisher: Publisher,
    spare: Option<usize>,
) -> Result<Book<'a>, Memory>
    requires own { publisher.cells ≡ cells.now }
    requires unused { publisher.history ≡ catalogue.now.initial ∷ [] }
    ensures { IfOk result (λ b. b.cells ≡ cells.now) }
{
    match spare {
        Some(spare) if spare <= 65536 - catalogue.tasks() => {
            Book::open_with_room(alloc, catalogue, cells, publisher, spare)
        }
        _ => Book::open(alloc, catalogue, cells, publisher),
    }
}

/// The first of what is done that does not go as it has to.
fn first_wrong_of(
    alloc: Global,
    book: &mut Book<'_>,
    catalogue: &Catalogue,
    cells: &Cells,
    passes: &mut Vec<Pass>,
    what: &What,
) -> Option<usize>
    requires own { All (λ p. p.cells ≡ cells.now) passes.old.items }
    requires book { book.old.cells ≡ cells.now }
    requires variables { cells.now.variables ≡ length catalogue.now.initial }
{
    match what {
        What::Steps(steps) => first_wrong_step(alloc, book, catalogue, steps),
        What::Lends(rows) => first_not_lent(alloc, book, catalogue, rows),
        What::Beside if goes_beside(alloc, book, catalogue, cells, passes) => None,
        What::Beside => Some(0),
    }
}

/// So it is of a book over these cells.
fn first_wrong_over(
    alloc: Global,
    catalogue: &Catalogue,
    cells: &Cells,
    publisher: Publisher,
    passes: &mut Vec<Pass>,
    spare: Option<usize>,
    what: &What,
) -> Option<usize>
    requires own { publisher.cells ≡ cells.now }
    requires unused { publisher.history ≡ catalogue.now.initial ∷ [] }
    requires passes { All (λ p. p.cells ≡ cells.now) passes.old.items }
    requires variables { cells.now.variables ≡ length catalogue.now.initial }
{
    match opened(alloc, catalogue, cells, publisher, spare) {
        Ok(mut book) => first_wrong_of(alloc, &mut book, catalogue, cells, passes, what),
        Err(_) => Some(0),
    }
}

/// So it is of a book of the catalogue.
fn first_wrong(
    alloc: Global,
    catalogue: &Catalogue,
    spare: Option<usize>,
    what: &What,
) -> Option<usize> {
    match Cells::open(alloc, catalogue.initial(), 3) {
        Ok((cells, publisher, mut passes)) => {
            first_wrong_over(
                alloc,
                catalogue,
                &cells,
                publisher,
                &mut passes,
                spare,
                what,
            )
        }
        Err(_) => Some(0),
    }
}

/// So it is of a book of the text's catalogue, which is opened with room for so many tasks more where that is said.
pub(crate) fn first_wrong_in(
    alloc: Global,
    text: &str,
    spare: Option<usize>,
    what: &What,
) -> Option<usize> {
    match read_file(alloc, text.as_bytes()) {
        Ok(catalogue) => first_wrong(alloc, &catalogue, spare, what),
        Err(_) => Some(0),
    }
}

/// What it shows, the text of a file, how many tasks more there is room for where that is said, and what is done.
pub(crate) type Row = (&'static str, &'static str, Option<usize>, What);

/// The first row that does not go so, and its first step.
pub(crate) fn first_wrong_row(alloc: Global, rows: &[Row]) -> Option<(usize, usize)> {
    for place in 0..rows.len() {
        let (_, text, spare, what) = &rows[place];
        if let Some(step) = first_wrong_in(alloc, text, *spare, what) {
            return Some((place, step));
        }
    }
    None
}

/// It is so of the rows of each file by itself: what a table takes to prove grows with the square of its length.
#[test]
fn books_go_by_their_steps(rt: HostRuntime) {
    let alloc = rt.alloc();
    let found = [
        ("arguments", arguments::first_wrong(alloc)),
        ("beside", beside::first_wrong(alloc)),
        ("chapters", chapters::first_wrong(alloc)),
        ("lent", lent::first_wrong_lent(alloc)),
        ("plain", plain::first_wrong(alloc)),
        ("results", results::first_wrong(alloc)),
        ("scripts", scripts::first_wrong(alloc)),
        ("more scripts", scripts::first_wrong_of_more(alloc)),
        ("submitting", submitting::first_wrong(alloc)),
    ];
    for (of, wrong) in found {
        assert_eq!(rt; wrong, None, "{of}");
    }
}
