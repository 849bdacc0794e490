//! Rows of calls on a store that was just opened, each with what it has to answer.

use crate::lends::{call, has, turn};
use crate::looks::{Look, shows};
use crate::{calling, chapters, tables, tasks, waits};
use std::alloc::Global;
use std::process::Abort;
use stm_store::{End, Entered, Job, Lender, Program, Refused, Store, Ticket, Way};
use txn::{Arguments, Fault, Outcome, TaskId, TxId};

/// A job: its ticket, its chapter, the number of its task there, and its transaction.
#[derive(Clone, Copy)]
pub(crate) struct At(pub u64, pub u64, pub u32, pub u32);

/// How a turn ended: the number of its entry, with what it returned or threw; or it parked.
#[derive(Clone, Copy)]
pub(crate) enum How {
    Returns(u64, i64),
    Throws(u64, Fault),
    Parks,
}

/// A call, with what it has to answer.
pub(crate) enum Step {
    Submits(TxId, Result<u64, Refused>),
    Takes(Result<At, Refused>),
    Claims(u64, Result<At, Refused>),
    GivesUp(u64, Result<(), Refused>),
    /// A turn of this job.
    Serves(At, Result<How, Refused>),
    /// A turn of the lowest ready task.
    Turns(Result<(At, How), Refused>),
    /// At most so many turns, and how many were given.
    Gives(u32, u32),
    Calls(TxId, Result<(At, How), Refused>),
    TriesToCall(TxId, Result<(At, How), Refused>),
    Checkpoints,
    BeginsChapter,
    /// The store shows this.
    Shows(Look),
}

/// The job at these numbers.
pub(crate) fn job(at: At) -> Job {
    Job {
        ticket: Ticket(at.0),
        chapter: at.1,
        task: TaskId(at.2),
        tx: TxId(at.3),
        arguments: Arguments::none(),
    }
}

/// A task that was entered with this number, and returned this.
fn returned(number: u64, value: i64) -> Entered {
    Entered {
        number,
        outcome: Outcome::Returned(value),
    }
}

pub(crate) fn end(how: How) -> End {
    match how {
        How::Returns(number, value) => End::Entered(returned(number, value)),
        How::Throws(number, fault) => End::Entered(Entered {
            number,
            outcome: Outcome::Thrown(fault),
        }),
        How::Parks => End::Parked,
    }
}

/// A store, with who lends it an attempt.
#[derive(Drop)]
pub(crate) struct Host {
    pub(crate) store: Store,
    pub(crate) lender: Lender,
}

/// Whether to submit the transaction is answered so.
fn submits(store: &mut Store, tx: TxId, ticket: Result<u64, Refused>) -> bool {
    has(store, tx) && store.submit(tx, &[]) == ticket.map(Ticket)
}

/// Whether the call on one task is answered so.
fn asks(host: &mut Host, step: &Step) -> bool {
    let store = &mut host.store;
    match step {
        Step::Submits(tx, ticket) => submits(store, *tx, *ticket),
        Step::Takes(at) => store.take() == at.map(job),
        Step::Claims(ticket, at) => store.claim(Ticket(*ticket)) == at.map(job),
        Step::GivesUp(ticket, how) => store.give_up(Ticket(*ticket)) == *how,
        Step::Serves(at, how) => store.turn(&mut host.lender, job(*at)) == how.map(end),
        _ => false,
    }
}

/// Whether a turn of this task was answered so.
fn is_turn(answer: Result<(Job, End), Refused>, wanted: Result<(At, How), Refused>) -> bool {
    match (answer, wanted) {
        (Ok((of, came)), Ok((at, how))) => of == job(at) && came == end(how),
        (Err(why), Err(refused)) => why == refused,
        _ => false,
    }
}

/// Whether the step is answered so.
fn goes(alloc: Global, host: &mut Host, step: &Step) -> bool {
    let Host { store, lender } = host;
    match step {
        Step::Turns(how) => is_turn(turn(store, lender), *how),
        Step::Gives(most, given) => store.turns(lender, *most) == *given,
        Step::Calls(tx, how) => is_turn(call(store, lender, *tx, Way::Waits), *how),
        Step::TriesToCall(tx, how) => is_turn(call(store, lender, *tx, Way::Tries), *how),
        Step::Checkpoints => {
            store.checkpoint();
            true
        }
        Step::BeginsChapter => {
            store.begin_chapter();
            true
        }
        Step::Shows(look) => shows(alloc, store, look),
        _ => asks(host, step),
    }
}

/// A store of the file, for so many workers and with room for so many tasks more, and a lender. `None` where memory is
/// refused, or they are more than the tests ask for.
pub(crate) fn opened(alloc: Global, file: &str, workers: usize, spare: usize) -> Option<Host> {
    let Ok(program) = Program::read(alloc, file.as_bytes()) else {
        return None;
    };
    if workers > 32 || spare > 1000 || program.catalogue().tasks() > 1000 {
        return None;
    }
    match Store::open_with_room(alloc, program, workers, 0, spare) {
        Ok(store) => lent(store),
        Err(_) => None,
    }
}

/// The store with a lender of it.
fn lent(store: Store) -> Option<Host> {
    match store.lender() {
        Some(lender) => Some(Host { store, lender }),
        None => None,
    }
}

/// The first of these steps that the host does not go by, `None` where it goes by all.
fn first_wrong(alloc: Global, host: &mut Host, steps: &[Step]) -> Option<usize> {
    for place in 0..steps.len() {
        if !goes(alloc, host, &steps[place]) {
            return Some(place);
        }
    }
    None
}

/// The first of these steps that is not answered so by a store of the file with room for so many tasks more, for so
/// many workers.
fn first_wrong_of(
    alloc: Global,
    file: &str,
    workers: usize,
    spare: usize,
    steps: &[Step],
) -> Option<usize> {
    match opened(alloc, file, workers, spare) {
        Some(mut host) => first_wrong(alloc, &mut host, steps),
        None => Some(0),
    }
}

/// What it shows, the text of a file, how many tasks more there is room for, and the steps.
pub(crate) type Row = (&'static str, &'static str, usize, &'static [Step]);

/// The first row that is not answered so, for so many workers, and its first step.
pub(crate) fn first_wrong_row(
    alloc: Global,
    workers: usize,
    rows: &[Row],
) -> Option<(usize, usize)> {
    for place in 0..rows.len() {
        let (_, file, spare, steps) = rows[place];
        if let Some(step) = first_wrong_of(alloc, file, workers, spare, steps) {
            return Some((place, step));
        }
    }
    None
}

/// The rows of each file are answered so, for so many workers. Each file's are a table of their own: what one takes to
/// prove grows with the square of its length.
fn expect(rt: &(impl Abort + Eprint), alloc: Global, workers: usize) {
    let found = [
        ("calling", calling::first_wrong(alloc, workers)),
        ("chapters", chapters::first_wrong(alloc, workers)),
        ("tables", tables::first_wrong(alloc, workers)),
        ("tasks", tasks::first_wrong(alloc, workers)),
        ("waits", waits::first_wrong(alloc, workers)),
    ];
    for (of, wrong) in found {
        assert_eq!(rt; wrong, None, "{of}");
    }
}

#[test]
fn stores_whose_cells_nobody_reads(rt: HostRuntime) {
    expect(&rt, rt.alloc(), 0);
}

#[test]
fn stores_whose_cells_a_worker_reads(rt: HostRuntime) {
    expect(&rt, rt.alloc(), 1);
}
