//! What is seen of a service.

ghost use Rattle.std.specs.Prelude.{◌≡◌};
ghost use Rattle.stm_desk.specs.Asking.{IsStill};

use checker::{Verdict, check};
use std::alloc::Global;
use std::marker::Brand;
use std::process::Abort;
use std::sync::Wait;
use stm_service::{Front, Naming, Opened, Refused, Service};
use stm_store::{Program, Store};
use txn::{Outcome, TxId};

/// Three accounts; `wait` retries until a hundred were paid.
const BANK: &str = "(stm 3) (var paid 0) (table acct 3 10) \
    (tx pay (n) (seq (put acct 2 (sub (at acct 2) n)) (put acct 1 (add (at acct 1) n)) (set paid n)) (at acct 1)) \
    (tx wait () (if (lt paid 100) (retry) (skip)) paid)";

const PAY: TxId = TxId(0);

const WAIT: TxId = TxId(1);

/// What is looked at.
#[derive(Clone, Copy)]
enum Look {
    Values,
    Numbers,
    Outcomes,
    Texts,
}

/// The values once ten were paid.
fn shows_values<R: Wait, N: Naming>(rt: &R, service: &Service<N>, front: &mut Front<N>) -> bool {
    let mut cells = [0; 4];
    service.value(rt, "paid", front) == Some((10, 1))
        && service.value(rt, "acct[1]", front) == Some((20, 1))
        && service.value(rt, "acct[3]", front) == None
        && service.value(rt, "lost", front) == None
        && service.cell(rt, 0, 0, front) == Some((10, 0))
        && service.cell(rt, 0, 3, front) == None
        && service.cell(rt, 1, 0, front) == None
        && service.cells(rt, 0, 1, &mut cells, front) == 2
        && cells == [20, 0, 0, 0]
        && service.cells(rt, 1, 0, &mut cells, front) == 0
}

/// One entry, in the first chapter.
fn shows_numbers<R: Wait, N: Naming>(rt: &R, service: &Service<N>, front: &mut Front<N>) -> bool {
    let counts = service.counts(rt, front);
    service.chapter(rt, front) == 0
        && service.entered(rt, front) == 1
        && counts.done == 1
        && counts.ready == 0
        && counts.running == 0
        && counts.parked == 0
        && counts.given_up == 0
}

/// Nothing comes of asking how a call would end.
fn shows_outcomes<R: Wait, N: Naming>(rt: &R, service: &Service<N>, front: &mut Front<N>) -> bool {
    let before = service.outcome_now(rt, PAY, &[5], front) == Ok(Outcome::Returned(25))
        && service.outcome_now(rt, PAY, &[5], front) == Ok(Outcome::Returned(25))
        && service.outcome_now(rt, WAIT, &[], front) == Ok(Outcome::Retries)
        && service.outcome_now(rt, WAIT, &[1], front) == Err(Refused::Unknown)
        && service.outcome_now(rt, TxId(2), &[], front) == Err(Refused::Unknown);
    service.close(rt);
    before && service.outcome_now(rt, WAIT, &[], front) == Err(Refused::Closed)
}

/// A pair that a check finds good, and nothing more once it is closed.
fn shows_texts<R: Wait, N: Naming>(
    rt: &R,
    alloc: Global,
    service: &Service<N>,
    front: &mut Front<N>,
) -> bool {
    let Ok(file) = service.file(rt, front) else {
        return false;
    };
    service.close(rt);
    let Ok(report) = service.report(rt, front) else {
        return false;
    };
    let verdict = check(alloc, file.as_bytes(), report.as_bytes());
    service.entered(rt, front) == 1 && matches!(verdict, Ok(Verdict::Good))
}

fn is_seen<R: Wait, N: Naming>(
    rt: &R,
    alloc: Global,
    service: &Service<N>,
    front: &mut Front<N>,
    look: Look,
) -> bool {
    if service.atomically(rt, PAY, &[10], front).is_err() {
        return false;
    }
    match look {
        Look::Values => shows_values(rt, service, front),
        Look::Numbers => shows_numbers(rt, service, front),
        Look::Outcomes => shows_outcomes(rt, service, front),
        Look::Texts => shows_texts(rt, alloc, service, front),
    }
}

fn is_seen_of<R: Wait, N: Naming>(
    rt: &R,
    alloc: Global,
    store: Store,
    opened: Opened,
    look: Look,
) -> bool
    requires named { store.catalogue.now ≡ N.catalogue }
    requires placed { store.book.present.state ≡ N.first }
    requires book { opened.seen.book ≡ N.book }
    requires still { IsStill store }
{
    let (service, mut front) = Service::<N>::open(rt, alloc, store, opened);
    is_seen(rt, alloc, &service, &mut front, look)
}

/// Whether what is wanted is seen of a bank in which ten were paid.
fn looked<R: Wait + Abort>(rt: &R, alloc: Global, look: Look) -> bool {
    let Ok(program) = Program::read(alloc, BANK.as_bytes()) else {
        return false;
    };
    let tasks = program.catalogue().tasks();
    assert!(rt; tasks == 0);
    let Ok(store) = Store::open_with_room(alloc, program, 0, 0, 8) else {
        return false;
    };
    is_seen_of::<_, Brand>(rt, alloc, store, Opened::new(), look)
}

#[test]
fn values_are_those_of_the_last_entry(rt: HostRuntime) {
    assert!(rt; looked(&rt, rt.alloc(), Look::Values));
}

#[test]
fn one_entry_is_counted(rt: HostRuntime) {
    assert!(rt; looked(&rt, rt.alloc(), Look::Numbers));
}

#[test]
fn nothing_comes_of_asking(rt: HostRuntime) {
    assert!(rt; looked(&rt, rt.alloc(), Look::Outcomes));
}

#[test]
fn file_and_report_are_a_pair(rt: HostRuntime) {
    assert!(rt; looked(&rt, rt.alloc(), Look::Texts));
}
