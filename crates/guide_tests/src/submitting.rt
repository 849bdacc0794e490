//! Tasks that come in while a store is worked on.

ghost use Rattle.std.specs.Prelude.{◌≡◌};

use std::alloc::Global;
use std::process::Abort;
use stm_library::{
    Arguments, Counts, End, Entered, Job, Outcome, Program, Refused, ReportFault, Store, TaskId,
    Ticket, TxId, Verdict, Worker, check,
};

const FILE: &str =
    "(var full 0)(tx get (if (eq full 0) (retry) (set full 0)) full)(tx put (set full 1) full)(run get 1)";

/// A task of the transaction of this name comes in: its ticket. `Unknown` where there is no such transaction,
/// `NoRoom` where there is no room.
fn comes_in(store: &mut Store, name: &str) -> Result<Ticket, Refused>
    ensures { store.new.catalogue.now ≡ store.old.catalogue.now }
{
    let Some(tx) = store.catalogue().tx_id(name) else {
        return Err(Refused::Unknown);
    };
    if !store.catalogue().is_callable(tx, &[]) {
        return Err(Refused::Unknown);
    }
    store.submit(tx, &[])
}

/// A store of the file with room for so many tasks more, and its worker.
fn opened(rt: &impl Abort, alloc: Global, spare: usize) -> (Store, Worker)
    ensures { result.1.catalogue.now ≡ result.0.catalogue.now }
{
    let Ok(program) = Program::read(alloc, FILE.as_bytes()) else {
        panic!(rt; "no program");
    };
    assert!(rt; program.catalogue().tasks() == 1 && spare <= 2);
    let Ok(mut store) = Store::open_with_room(alloc, program, 1, 0, spare) else {
        panic!(rt; "no store");
    };
    let Some(worker) = store.worker() else {
        panic!(rt; "no worker");
    };
    (store, worker)
}

/// The next job is this one, and its end is this.
fn ends(rt: &impl Abort, store: &mut Store, worker: &mut Worker, job: Job, came: End)
    requires { worker.old.catalogue.now ≡ store.old.catalogue.now }
    ensures { worker.new.catalogue.now ≡ store.new.catalogue.now }
{
    let Ok(taken) = store.take() else {
        panic!(rt; "no job");
    };
    assert!(rt; taken == job);
    assert!(rt; worker.try_job(taken) == Ok(()));
    assert!(rt; store.bring(worker) == Ok(came));
}

const GET: TxId = TxId(0);

const PUT: TxId = TxId(1);

/// The job of a task of the first chapter, whose ticket is its number.
fn job(task: u32, tx: TxId) -> Job {
    Job {
        ticket: Ticket(u64::from(task)),
        chapter: 0,
        task: TaskId(task),
        tx,
        arguments: Arguments::none(),
    }
}

/// It is entered with this number, and returned this.
fn entered(number: u64, value: i64) -> End {
    End::Entered(Entered {
        number,
        outcome: Outcome::Returned(value),
    })
}

/// The store's file and its report are a pair that a check finds good.
fn agree(rt: &impl Abort, alloc: Global, store: &mut Store) {
    let (Ok(report), Ok(file)) = (store.report(), store.file()) else {
        panic!(rt; "no text");
    };
    match check(alloc, file.as_bytes(), report.as_bytes()) {
        Ok(verdict) => assert!(rt; verdict == Verdict::Good),
        Err(_) => panic!(rt; "no verdict"),
    }
}

/// The first task is taken, and two come in: then there is no room for more.
fn two_come_in(rt: &impl Abort, store: &mut Store)
    ensures { store.new.catalogue.now ≡ store.old.catalogue.now }
{
    let first = job(0, GET);
    assert!(rt; store.take() == Ok(first));
    assert!(rt; comes_in(store, "put") == Ok(Ticket(1)));
    assert!(rt; comes_in(store, "get") == Ok(Ticket(2)));
    assert!(rt; comes_in(store, "get") == Err(Refused::NoRoom));
    assert!(rt; comes_in(store, "none") == Err(Refused::Unknown));
    assert!(rt; (store.tasks(), store.spare()) == (3, 0));
}

/// What the store tells while one task is ready, one is running and one is done.
fn tells_of_three(rt: &impl Abort, store: &mut Store) {
    assert!(rt; store.value("full") == Some((1, 1)));
    assert!(rt; store.value("empty") == None);
    let counts = Counts {
        ready: 1,
        running: 1,
        parked: 0,
        done: 1,
        given_up: 0,
    };
    assert!(rt; store.counts() == counts);
    assert!(rt; matches!(store.report_now(), Err(ReportFault::WorkLeft)));
}

/// The file ends with the run that it had, and those that came in.
fn lists_three(rt: &impl Abort, store: &Store) {
    match store.file() {
        Ok(file) => assert!(rt;
            file.as_str()
                .ends_with("(run get 1)\n(run put 1)\n(run get 1)\n")
        ),
        Err(_) => panic!(rt; "no file"),
    }
}

/// Two come in, one of them is entered, and the store tells all three.
fn come_in(rt: &impl Abort, alloc: Global, store: &mut Store, worker: &mut Worker)
    requires { worker.old.catalogue.now ≡ store.old.catalogue.now }
{
    two_come_in(rt, store);
    let put = job(1, PUT);
    ends(rt, store, worker, put, entered(1, 1));
    tells_of_three(rt, store);
    agree(rt, alloc, store);
    assert!(rt; store.report_now().is_ok());
    lists_three(rt, store);
}

#[test]
fn tasks_come_in_while_others_run(rt: HostRuntime) {
    let (mut store, mut worker) = opened(&rt, rt.alloc(), 2);
    come_in(&rt, rt.alloc(), &mut store, &mut worker);
}

/// One waits, and is entered behind one that comes in.
fn is_woken(rt: &impl Abort, alloc: Global, store: &mut Store, worker: &mut Worker)
    requires { worker.old.catalogue.now ≡ store.old.catalogue.now }
{
    ends(rt, store, worker, job(0, GET), End::Parked);
    assert!(rt; store.take() == Err(Refused::NotReady));
    assert!(rt; store.report_now().is_ok());
    assert!(rt; comes_in(store, "put") == Ok(Ticket(1)));
    ends(rt, store, worker, job(1, PUT), entered(1, 1));
    ends(rt, store, worker, job(0, GET), entered(2, 0));
    agree(rt, alloc, store);
}

#[test]
fn a_task_that_comes_in_wakes_those_that_wait(rt: HostRuntime) {
    let (mut store, mut worker) = opened(&rt, rt.alloc(), 1);
    is_woken(&rt, rt.alloc(), &mut store, &mut worker);
}

/// The worker tries this job to its end.
fn tries(rt: &impl Abort, worker: &mut Worker, job: Job)
    ensures { worker.new.catalogue.now ≡ worker.old.catalogue.now }
{
    assert!(rt;
        worker
            .catalogue()
            .is_callable(job.tx, job.arguments.as_slice())
    );
    assert!(rt; worker.try_job(job) == Ok(()));
}

/// What the worker ends of a task that the store does not have, or not taken, is not brought.
fn is_not_brought(rt: &impl Abort, store: &mut Store, worker: &mut Worker) {
    assert!(rt; store.bring(worker) == Err(Refused::NotEnded));
    tries(rt, worker, job(1, PUT));
    assert!(rt; store.bring(worker) == Err(Refused::Gone));
    assert!(rt; comes_in(store, "get") == Ok(Ticket(1)));
    tries(rt, worker, job(1, PUT));
    assert!(rt; store.bring(worker) == Err(Refused::Gone));
    assert!(rt; store.bring(worker) == Err(Refused::NotEnded));
}

#[test]
fn a_task_of_another_store_is_not_brought(rt: HostRuntime) {
    let (mut store, mut worker) = opened(&rt, rt.alloc(), 1);
    is_not_brought(&rt, &mut store, &mut worker);
}
