//! A host that asks a store for transactions, and prints what each of them answers.

ghost use Rattle.std.specs.Prelude.{[]};
ghost use Rattle.txn_programs.specs.Listing.{IsCallable};

use crate::hosting::told;
use std::alloc::{AllocError, Global};
use std::process::Abort;
use stm_library::{End, Lender, Program, Refused, Store, Ticket, TxId, Way};

/// What a host prints of a task's turn.
fn line(alloc: Global, ticket: Ticket, end: End) -> Result<String, AllocError> {
    match end {
        End::Entered(entered) => told(alloc, entered),
        End::Parked => format!(in alloc; "{} waits", ticket.0),
        End::Abandoned => format!(in alloc; "{} given up", ticket.0),
    }
}

/// Asks for the transaction, which has its turn at once, and tells what a host prints of it.
fn ask(
    alloc: Global,
    store: &mut Store,
    lender: &mut Lender,
    tx: TxId,
    way: Way,
) -> Result<String, AllocError>
    requires { IsCallable store.old.catalogue.now tx [] }
{
    match store.call(lender, tx, &[], way) {
        Ok((job, end)) => line(alloc, job.ticket, end),
        Err(Refused::Retries) => String::from_str(alloc, "not now"),
        Err(_) => String::from_str(alloc, "no room"),
    }
}

/// Gives a task that was woken its turn: what a host prints of it, or `None` where none is ready.
fn next(
    alloc: Global,
    store: &mut Store,
    lender: &mut Lender,
) -> Result<Option<String>, AllocError> {
    let Ok(job) = store.take() else {
        return Ok(None);
    };
    let ticket = job.ticket;
    match store.turn(lender, job) {
        Ok(end) => Ok(Some(line(alloc, ticket, end)?)),
        Err(_) => Ok(None),
    }
}

const FILE: &str =
    "(var full 0)(tx get (if (eq full 0) (retry) (set full 0)) 7)(tx put (if (eq full 0) (set full 1) (throw 9)) 1)";

/// The store answers this where it is asked for the transaction of this name.
fn answers(
    rt: &(impl Abort + Eprint),
    alloc: Global,
    store: &mut Store,
    lender: &mut Lender,
    name: &str,
    way: Way,
    wanted: &str,
) {
    let Some(tx) = store.catalogue().tx_id(name) else {
        panic!(rt; "no transaction")
    };
    assert!(rt; store.catalogue().is_callable(tx, &[]));
    match ask(alloc, store, lender, tx, way) {
        Ok(text) => assert!(rt; text.as_str() == wanted, "{text}"),
        Err(_) => panic!(rt; "no memory"),
    }
}

/// What was woken answers this.
fn goes_on(
    rt: &(impl Abort + Eprint),
    alloc: Global,
    store: &mut Store,
    lender: &mut Lender,
    wanted: &str,
) {
    match next(alloc, store, lender) {
        Ok(Some(text)) => assert!(rt; text.as_str() == wanted, "{text}"),
        _ => panic!(rt; "none is ready"),
    }
}

/// A store of the file with room for three tasks.
fn opened(rt: &impl Abort, alloc: Global) -> Store {
    let Ok(program) = Program::read(alloc, FILE.as_bytes()) else {
        panic!(rt; "no program")
    };
    assert!(rt; program.catalogue().tasks() == 0);
    match Store::open_with_room(alloc, program, 0, 0, 3) {
        Ok(store) => store,
        Err(_) => panic!(rt; "no store"),
    }
}

/// Each way in which a call ends, and what becomes of one that waits; then a chapter ends, and there is room again.
fn is_answered(rt: &(impl Abort + Eprint), alloc: Global, store: &mut Store, lender: &mut Lender) {
    answers(rt, alloc, store, lender, "get", Way::Tries, "not now");
    answers(rt, alloc, store, lender, "get", Way::Waits, "0 waits");
    answers(rt, alloc, store, lender, "put", Way::Waits, "1: returned 1");
    answers(
        rt,
        alloc,
        store,
        lender,
        "put",
        Way::Tries,
        "2: threw User(9)",
    );
    answers(rt, alloc, store, lender, "put", Way::Waits, "no room");
    goes_on(rt, alloc, store, lender, "3: returned 7");
    store.begin_chapter();
    answers(rt, alloc, store, lender, "get", Way::Waits, "3 waits");
    assert!(rt; store.give_up(Ticket(3)) == Ok(()));
    assert!(rt; store.give_up(Ticket(3)) == Err(Refused::Gone));
}

#[test]
fn a_host_is_answered(rt: HostRuntime) {
    let alloc = rt.alloc();
    let mut store = opened(&rt, alloc);
    match store.lender() {
        Some(mut lender) => is_answered(&rt, alloc, &mut store, &mut lender),
        None => panic!(rt; "no lender"),
    }
}
