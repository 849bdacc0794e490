//! Long calls, which are evaluated by whoever asks.

ghost use Rattle.std.specs.Prelude.{IfSome};
ghost use Rattle.stm_desk.specs.Asking.{IsStill};

use crate::asking::{GET, PUT, asks, entry, tries};
use crate::room::{all_wait, is_left_alone, makes_room, waits_for_the_host};
use std::alloc::Global;
use stm_desk::{Answer, Asked, Desk};
use stm_store::{Job, Program, Refused, Store, Ticket, Way, Worker};
use txn::TxId;

/// A buffer for one number; `put` is long, and `get` too.
const BUFFER: &[u8] =
    b"(var n 0) (tx get (if (eq n 0) (retry) (set n 0)) 7) (tx put (if (eq n 0) (set n 1) (retry)) 8)";

/// A store of the buffer, for one worker.
fn stored(alloc: Global, room: usize) -> Option<Store>
    ensures { IfSome result IsStill }
{
    let program = Program::read(alloc, BUFFER).ok()?;
    let tasks = program.catalogue().tasks();
    if tasks != 0 || room > 100 {
        return None;
    }
    Store::open_with_room(alloc, program, 1, 0, room).ok()
}

fn opened(alloc: Global, room: usize) -> Option<(Desk, Worker)> {
    let mut store = stored(alloc, room)?;
    let worker = store.worker()?;
    let mut long = Vec::new(alloc);
    long.push(true).ok()?;
    long.push(true).ok()?;
    Some((Desk::open(alloc, store, long), worker))
}

/// The job of a call that is begun.
pub(crate) fn begun(desk: &mut Desk, tx: TxId, whose: u64) -> Option<Job> {
    match desk.ask(tx, &[], Way::Waits, whose) {
        Ok(Asked::Runs(job)) => Some(job),
        _ => None,
    }
}

/// Whether the worker evaluated the job, and the desk took what came of it.
fn is_brought(desk: &mut Desk, worker: &mut Worker, job: Job) -> bool {
    if !worker
        .catalogue()
        .is_callable(job.tx, job.arguments.as_slice())
    {
        return false;
    }
    worker.try_job(job).is_ok() && desk.bring(worker).is_ok()
}

/// Whether this is told next.
pub(crate) fn is_told(desk: &mut Desk, whose: u64, answer: Answer) -> bool {
    match desk.told() {
        Some(told) => told.whose == whose && told.answer == Ok(answer),
        None => false,
    }
}

/// Whether this is told next to 40.
fn tells_first(desk: &mut Desk, answer: Result<Answer, Refused>) -> bool {
    match desk.told() {
        Some(told) => told.whose == 40 && told.answer == answer,
        None => false,
    }
}

/// Who asks evaluates.
fn evaluates(desk: &mut Desk, worker: &mut Worker) -> bool {
    let Some(job) = begun(desk, PUT, 40) else {
        return false;
    };
    job.ticket == Ticket(0)
        && is_brought(desk, worker, job)
        && tells_first(desk, Ok(entry(0, 8, 1, 0)))
        && desk.bring(worker) == Err(Refused::NotEnded)
}

/// Whether the call begins, and is brought.
fn is_done(desk: &mut Desk, worker: &mut Worker, tx: TxId, whose: u64) -> bool {
    match begun(desk, tx, whose) {
        Some(job) => is_brought(desk, worker, job),
        None => false,
    }
}

/// Whether the next one that runs again is whose, and is brought.
fn goes_on(desk: &mut Desk, worker: &mut Worker, whose: u64) -> bool {
    match desk.next_due() {
        Some(due) => due.whose == whose && is_brought(desk, worker, due.job),
        None => false,
    }
}

/// Who is woken evaluates again.
fn evaluates_again(desk: &mut Desk, worker: &mut Worker) -> bool {
    is_done(desk, worker, GET, 40)
        && desk.told().is_none()
        && desk.next_due().is_none()
        && is_done(desk, worker, PUT, 41)
        && goes_on(desk, worker, 40)
        && desk.next_due().is_none()
        && is_told(desk, 41, entry(1, 8, 1, 0))
        && is_told(desk, 40, entry(0, 7, 2, 1))
}

/// Whether the job had its turn at the desk.
pub(crate) fn is_run(desk: &mut Desk, job: &Job) -> bool {
    if !desk
        .store()
        .catalogue()
        .is_callable(job.tx, job.arguments.as_slice())
    {
        return false;
    }
    desk.run_now(*job).is_ok()
}

/// Whether the worker evaluated the job to its end.
fn is_tried(worker: &mut Worker, job: &Job) -> bool {
    worker
        .catalogue()
        .is_callable(job.tx, job.arguments.as_slice())
        && worker.try_job(*job).is_ok()
}

/// Whether the job has its turn at the desk, and none a second time.
fn runs_once(desk: &mut Desk, job: &Job) -> bool {
    is_run(desk, job) && !is_run(desk, job)
}

/// What is stale runs here.
fn runs_what_is_stale(desk: &mut Desk, worker: &mut Worker) -> bool {
    let Some(first) = begun(desk, PUT, 40) else {
        return false;
    };
    let Some(second) = begun(desk, GET, 41) else {
        return false;
    };
    is_tried(worker, &second)
        && is_run(desk, &first)
        && matches!(desk.bring(worker), Err(Refused::Stale))
        && runs_once(desk, &second)
        && desk.store().value("n") == Some((0, 2))
}

/// Who leaves a long call is not entered.
fn leaves(desk: &mut Desk, worker: &mut Worker) -> bool {
    let Some(job) = begun(desk, PUT, 40) else {
        return false;
    };
    worker.ended().is_none()
        && desk.leave(job.ticket) == Ok(())
        && !is_brought(desk, worker, job)
        && desk.told().is_none()
        && desk.store().value("n") == Some((0, 0))
}

/// What runs is shut out too.
fn is_shut_out(desk: &mut Desk, worker: &mut Worker) -> bool {
    let Some(job) = begun(desk, PUT, 40) else {
        return false;
    };
    desk.close();
    tells_first(desk, Err(Refused::Closed))
        && !is_brought(desk, worker, job)
        && desk.next_due() == None
}

/// Where there is no room none begins.
fn has_no_room(desk: &mut Desk) -> bool {
    asks(desk, PUT, 40, Err(Refused::NoRoom)) && tries(desk, GET, 40, Err(Refused::Retries))
}

/// Whether the first chapter ends.
fn is_over(desk: &mut Desk) -> bool {
    match desk.end_chapter() {
        Ok(ended) => ended.chapter == 0 && desk.kept(ended).is_ok(),
        Err(_) => false,
    }
}

/// What runs has its turn before a chapter ends.
fn ends_with_turns(desk: &mut Desk, worker: &mut Worker) -> bool {
    let (Some(get), Some(put)) = (begun(desk, GET, 40), begun(desk, PUT, 41)) else {
        return false;
    };
    is_over(desk)
        && !is_brought(desk, worker, get)
        && !is_brought(desk, worker, put)
        && desk.next_due() == None
        && is_told(desk, 41, entry(1, 8, 1, 0))
        && is_told(desk, 40, entry(0, 7, 2, 1))
        && desk.told().is_none()
}

/// Whether the store's report is told as of now.
fn is_reported(desk: &Desk) -> bool {
    match desk.store().report_now() {
        Ok(text) => text.as_str().ends_with("end\n"),
        Err(_) => false,
    }
}

/// What runs has its turn before a report, which can be told then.
fn settles(desk: &mut Desk) -> bool {
    if begun(desk, GET, 40).is_none() || begun(desk, PUT, 41).is_none() || is_reported(desk) {
        return false;
    }
    desk.settle();
    is_reported(desk)
        && desk.next_due().is_none()
        && is_told(desk, 41, entry(1, 8, 1, 0))
        && is_told(desk, 40, entry(0, 7, 2, 1))
        && desk.told().is_none()
}

/// What is asked of a desk of which all calls are long, and a worker.
enum Whether {
    Evaluates,
    EvaluatesAgain,
    RunsWhatIsStale,
    Leaves,
    IsShutOut,
    HasNoRoom,
    EndsWithTurns,
    Settles,
    MakesRoom,
    AllWait,
    IsLeftAlone,
    WaitsForTheHost,
}

/// Whether it is so of the desk and the worker.
fn is_so_of(desk: &mut Desk, worker: &mut Worker, whether: &Whether) -> bool {
    match whether {
        Whether::Evaluates => evaluates(desk, worker),
        Whether::EvaluatesAgain => evaluates_again(desk, worker),
        Whether::RunsWhatIsStale => runs_what_is_stale(desk, worker),
        Whether::Leaves => leaves(desk, worker),
        Whether::IsShutOut => is_shut_out(desk, worker),
        Whether::HasNoRoom => has_no_room(desk),
        Whether::EndsWithTurns => ends_with_turns(desk, worker),
        Whether::Settles => settles(desk),
        Whether::MakesRoom => makes_room(desk),
        Whether::AllWait => all_wait(desk),
        Whether::IsLeftAlone => is_left_alone(desk),
        Whether::WaitsForTheHost => waits_for_the_host(desk, worker),
    }
}

/// Whether it is so of a desk with room for so many calls.
fn is_so(alloc: Global, room: usize, whether: &Whether) -> bool {
    match opened(alloc, room) {
        Some((mut desk, mut worker)) => is_so_of(&mut desk, &mut worker, whether),
        None => false,
    }
}

/// What it shows, how many calls there is room for, and what is so.
const ROWS: &[(&str, usize, Whether)] = &[
    ("who asks evaluates", 9, Whether::Evaluates),
    ("who is woken evaluates again", 9, Whether::EvaluatesAgain),
    ("what is stale runs here", 9, Whether::RunsWhatIsStale),
    ("who leaves a long call is not entered", 9, Whether::Leaves),
    ("what runs is shut out too", 9, Whether::IsShutOut),
    ("where there is no room none begins", 0, Whether::HasNoRoom),
    (
        "what runs has its turn before a chapter ends",
        2,
        Whether::EndsWithTurns,
    ),
    (
        "what runs has its turn before a report",
        9,
        Whether::Settles,
    ),
    ("what runs leaves its place", 3, Whether::MakesRoom),
    ("there is no room only where all wait", 2, Whether::AllWait),
    (
        "what runs goes on while a chapter lies there",
        1,
        Whether::IsLeftAlone,
    ),
    (
        "a full chapter waits for the one before",
        1,
        Whether::WaitsForTheHost,
    ),
];

#[test]
fn long_calls_are_answered(rt: HostRuntime) {
    for (shows, room, whether) in ROWS {
        assert!(rt; is_so(rt.alloc(), *room, whether), "{shows}");
    }
}
