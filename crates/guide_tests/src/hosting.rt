//! A store of one's own: a worker tries a task with no lock, and the store, which a lock would guard, is brought the
//! end.

ghost use Rattle.std.specs.Prelude.{◌≡◌, ◌≤◌};
ghost use Rattle.txn_programs.specs.Listing.{IsCallable};

use std::alloc::{AllocError, Global};
use std::process::Abort;
use stm_library::{
    End, Entered, Job, Lender, Outcome, Program, ReadFault, Refused, Store, TxId, Worker,
};

/// How often a task is tried with no lock before it has its turn under the lock.
const TRIES: u32 = 8;

/// Tries a task that was taken, with no lock, and brings each end under the host's lock. Where others changed
/// meanwhile what it read it is tried again, and after some tries it has its turn under the lock.
fn serve(
    store: &mut Store,
    worker: &mut Worker,
    lender: &mut Lender,
    job: Job,
) -> Result<End, Refused>
    requires same { worker.old.catalogue.now ≡ store.old.catalogue.now }
    requires known { IsCallable worker.old.catalogue.now job.tx job.arguments }
    ensures { worker.new.catalogue.now ≡ store.new.catalogue.now }
{
    let job = &job;
    for _ in 0..TRIES {
        if worker.try_job(*job).is_err() {
            continue;
        }
        match store.bring(worker) {
            Err(Refused::Stale) => {}
            // It was entered, or waits. Else somebody gave it up, or a chapter has ended: it is not ours any more.
            came => return came,
        }
    }
    store.turn(lender, *job)
}

/// What a host prints of a task that was entered.
pub(crate) fn told(alloc: Global, entered: Entered) -> Result<String, AllocError> {
    match entered.outcome {
        Outcome::Returned(value) => format!(in alloc; "{}: returned {value}", entered.number),
        Outcome::Thrown(fault) => format!(in alloc; "{}: threw {fault:?}", entered.number),
        Outcome::Retries => String::from_str(alloc, "never entered"),
    }
}

/// What a host prints of a task that was served.
fn line(alloc: Global, came: Result<End, Refused>) -> Result<String, AllocError> {
    match came {
        Ok(End::Entered(entered)) => told(alloc, entered),
        Ok(End::Parked) => String::from_str(alloc, "waits"),
        Ok(End::Abandoned) => String::from_str(alloc, "given up as memory ran out"),
        Err(_) => String::from_str(alloc, "not ours"),
    }
}

/// The next ready task is served: what a host prints of it, or `None` where none is ready.
fn step(
    alloc: Global,
    store: &mut Store,
    worker: &mut Worker,
    lender: &mut Lender,
) -> Result<Option<String>, AllocError>
    requires { worker.old.catalogue.now ≡ store.old.catalogue.now }
    ensures { worker.new.catalogue.now ≡ store.new.catalogue.now }
{
    let Ok(job) = store.take() else {
        return Ok(None);
    };
    Ok(Some(line(alloc, serve(store, worker, lender, job))?))
}

const FILE: &str =
    "(var x 5)(tx inc (set x (add x 1)) x)(tx wait (if (lt x 9) (retry) (skip)) x)(run inc 1)(run wait 1)";

/// A store of the file, for so many workers.
fn opened(rt: &impl Abort, alloc: Global, workers: usize, every: u32) -> Store
    requires { workers ≤ 32 }
{
    let Ok(program) = Program::read(alloc, FILE.as_bytes()) else {
        panic!(rt; "no program");
    };
    match Store::open(alloc, program, workers, every) {
        Ok(store) => store,
        Err(_) => panic!(rt; "no store"),
    }
}

/// A worker of the store.
fn hired(rt: &impl Abort, store: &mut Store) -> Worker
    ensures { result.catalogue.now ≡ store.new.catalogue.now }
{
    match store.worker() {
        Some(worker) => worker,
        None => panic!(rt; "no worker"),
    }
}

/// A lender of the store.
fn lent(rt: &impl Abort, store: &Store) -> Lender {
    match store.lender() {
        Some(lender) => lender,
        None => panic!(rt; "no lender"),
    }
}

/// The next step prints this.
fn prints(
    rt: &(impl Abort + Eprint),
    alloc: Global,
    store: &mut Store,
    worker: &mut Worker,
    lender: &mut Lender,
    wanted: &str,
)
    requires { worker.old.catalogue.now ≡ store.old.catalogue.now }
    ensures { worker.new.catalogue.now ≡ store.new.catalogue.now }
{
    match step(alloc, store, worker, lender) {
        Ok(Some(text)) => assert!(rt; text.as_str() == wanted, "{text}"),
        _ => panic!(rt; "no step"),
    }
}

/// A look at the first transaction answers this.
fn looks(rt: &impl Abort, worker: &mut Worker, seen: Outcome) {
    if !worker.catalogue().is_callable(TxId(0), &[]) {
        panic!(rt; "no transaction");
    }
    assert!(rt; worker.observe(TxId(0), &[]) == Ok(seen));
}

/// The store's report is this text.
fn reports(rt: &impl Abort, store: &mut Store, wanted: &str) {
    match store.report() {
        Ok(text) => assert!(rt; text.as_str() == wanted),
        Err(_) => panic!(rt; "no memory"),
    }
}

/// One task is entered and one waits; then nothing is ready.
fn is_worked_on(
    rt: &(impl Abort + Eprint),
    alloc: Global,
    store: &mut Store,
    worker: &mut Worker,
    lender: &mut Lender,
)
    requires { worker.old.catalogue.now ≡ store.old.catalogue.now }
{
    prints(rt, alloc, store, worker, lender, "1: returned 6");
    prints(rt, alloc, store, worker, lender, "waits");
    assert!(rt; store.take() == Err(Refused::NotReady));
    looks(rt, worker, Outcome::Returned(7));
    let text = "base 0\nx 5 0\nentry 1 0 inc returned 6\nnow 1\nx 6 1\nparked 1 wait\nend\n";
    reports(rt, store, text);
}

#[test]
fn a_store_is_worked_on(rt: HostRuntime) {
    let mut store = opened(&rt, rt.alloc(), 1, 0);
    let mut worker = hired(&rt, &mut store);
    let mut lender = lent(&rt, &store);
    is_worked_on(&rt, rt.alloc(), &mut store, &mut worker, &mut lender);
}

/// The report with no turn given is this text.
fn tells(rt: &impl Abort, store: &Store, wanted: &str) {
    match store.report_now() {
        Ok(text) => assert!(rt; text.as_str() == wanted),
        Err(_) => panic!(rt; "work is left"),
    }
}

/// None is given, then one, then the other, and then none is ready.
fn turns_are_given(rt: &impl Abort, store: &mut Store, lender: &mut Lender) {
    assert!(rt; store.turns(lender, 0) == 0);
    assert!(rt; store.report_now().is_err());
    assert!(rt; store.turns(lender, 1) == 1);
    assert!(rt; store.report_now().is_err());
    assert!(rt; store.turns(lender, u32::MAX) == 1);
    assert!(rt; store.turns(lender, u32::MAX) == 0);
    let text = "base 1\nx 6 1\nnow 1\nx 6 1\nparked 1 wait\nend\n";
    tells(rt, store, text);
}

#[test]
fn turns_are_given_under_the_lock(rt: HostRuntime) {
    let mut store = opened(&rt, rt.alloc(), 1, 1);
    let mut lender = lent(&rt, &store);
    turns_are_given(&rt, &mut store, &mut lender);
}

/// A task that was taken is given up once, and has no turn afterwards.
fn is_given_up(rt: &impl Abort, store: &mut Store, lender: &mut Lender) {
    let Ok(job) = store.take() else {
        panic!(rt; "no task");
    };
    assert!(rt; store.give_up(job.ticket) == Ok(()));
    assert!(rt; store.give_up(job.ticket) == Err(Refused::Gone));
    assert!(rt; store.turn(lender, job) == Err(Refused::NotRunning));
}

#[test]
fn a_host_meets_the_limits(rt: HostRuntime) {
    let alloc = rt.alloc();
    assert!(rt; matches!(Program::read(alloc, b"("), Err(ReadFault::Shape)));
    let mut store = opened(&rt, alloc, 0, 1);
    assert!(rt; store.worker().is_none());
    let mut lender = lent(&rt, &store);
    is_given_up(&rt, &mut store, &mut lender);
    store.checkpoint();
    let text = "base 0\nx 5 0\nnow 0\nx 5 0\nparked 1 wait\nmemory 0 inc\nend\n";
    reports(&rt, &mut store, text);
}
