//! Threads that call a service side by side.

ghost use Rattle.std.specs.Prelude.{◌≡◌, IfSome};
ghost use Rattle.stm_desk.specs.Asking.{IsStill};

use crate::answered::{Answered, NOTHING, Step};
use crate::keepers::{decline, keep, keep_all};
use std::alloc::{AllocError, Global};
use std::marker::Brand;
use std::process::Abort;
use std::sync::Wait;
use std::thread;
use std::thread::{Threads, map_indices};
use std::time::{Clock, Duration};
use stm_service::{Front, Naming, Opened, Service, both};
use stm_store::{Program, Store};
use txn::{Arguments, Call, TxId};

/// How a test opens its service.
#[derive(Clone, Copy)]
pub(crate) struct Opening {
    pub(crate) file: &'static str,
    pub(crate) room: usize,
    pub(crate) workers: usize,
    /// Whether its chapters are kept.
    pub(crate) keeps: bool,
}

/// What each thread was answered, and how the service stands then.
#[derive(Drop)]
pub(crate) struct Ended {
    pub(crate) answered: Vec<Answered>,
    /// The report, empty where none was told.
    pub(crate) report: String,
    pub(crate) chapter: u64,
    pub(crate) entered: u64,
}

impl Ended {
    /// What this thread was answered.
    pub(crate) fn of(&self, thread: usize) -> Answered {
        match self.answered.get(thread) {
            Some(answered) => *answered,
            None => NOTHING,
        }
    }

    /// What all of them were answered together.
    pub(crate) fn all(&self) -> Answered {
        let mut all = NOTHING;
        for answered in &self.answered {
            all.add(answered);
        }
        all
    }
}

/// Two calls, the second by whoever was shown what the first had seen.
fn call_both<R: Wait, N: Naming>(
    rt: &R,
    service: &Service<N>,
    calls: (Call, Call),
    front: &mut Front<N>,
    answered: &mut Answered,
) {
    let mut other = front.again();
    if let Some((one, two)) = both(rt, service, calls, front, &mut other) {
        answered.note(Ok(one));
        answered.note(Ok(two));
    }
    front.learn(&other);
}

/// A call with no arguments.
fn call_of(tx: TxId) -> Call {
    Call {
        tx,
        arguments: Arguments::of(&[]),
    }
}

/// Each kind of call, with this argument.
fn give_each<R: Wait + Clock, N: Naming>(
    rt: &R,
    service: &Service<N>,
    tx: TxId,
    argument: i64,
    front: &mut Front<N>,
    answered: &mut Answered,
) {
    let time = Duration::from_micros(0);
    answered.note(service.atomically(rt, tx, &[argument], front));
    answered.note(service.try_atomically(rt, tx, &[argument], front));
    answered.note(service.atomically_within(rt, time, tx, &[argument], front));
}

fn wait_until<R: Wait + Clock, N: Naming>(
    rt: &R,
    service: &Service<N>,
    count: usize,
    front: &mut Front<N>,
) {
    for _ in rt.forever() {
        if service.counts(rt, front).parked == count {
            return;
        }
        thread::sleep(rt, Duration::from_millis(2));
    }
}

/// Closes the service, and asks for its file and its report: how many entries came of that.
fn entered_late<R: Wait, N: Naming>(rt: &R, service: &Service<N>, front: &mut Front<N>) -> i64 {
    service.close(rt);
    let before = service.entered(rt, front);
    let _file = service.file(rt, front);
    let _report = service.report(rt, front);
    service
        .entered(rt, front)
        .wrapping_sub(before)
        .cast_signed()
}

/// One step of a thread.
fn play<R: Wait + Clock, N: Naming>(
    rt: &R,
    alloc: Global,
    service: &Service<N>,
    step: Step,
    front: &mut Front<N>,
    answered: &mut Answered,
) {
    match step {
        Step::Calls(tx, times) => {
            for _ in 0..times {
                answered.note(service.atomically(rt, tx, &[], front));
            }
        }
        Step::Tries(tx, times) => {
            for _ in 0..times {
                answered.note(service.try_atomically(rt, tx, &[], front));
            }
        }
        Step::Within(more, tx, times) => {
            for i in 0..times {
                let time = Duration::from_micros(more.wrapping_mul(u64::from(i)));
                answered.note(service.atomically_within(rt, time, tx, &[], front));
            }
        }
        Step::Gives(tx, argument) => {
            answered.note(service.atomically(rt, tx, &[argument], front));
        }
        Step::GivesEach(tx, argument) => give_each(rt, service, tx, argument, front, answered),
        Step::Both(one, two) => {
            call_both(rt, service, (call_of(one), call_of(two)), front, answered);
        }
        Step::UntilWaiting(count) => wait_until(rt, service, count, front),
        Step::Closes => service.close(rt),
        Step::ClosesAndAsks => answered.late = entered_late(rt, service, front),
        _ => play_with_chapters(rt, alloc, service, step, front, answered),
    }
}

/// The same of the steps of a service whose chapters are kept.
fn play_with_chapters<R: Wait + Clock, N: Naming>(
    rt: &R,
    alloc: Global,
    service: &Service<N>,
    step: Step,
    front: &mut Front<N>,
    answered: &mut Answered,
) {
    match step {
        Step::GivesOften(tx, argument, times) => {
            for _ in 0..times {
                answered.note(service.atomically(rt, tx, &[argument], front));
            }
        }
        Step::GivesUntilRefused(tx, argument) => {
            give_until_refused(rt, service, tx, argument, front, answered);
        }
        Step::Keeps(times) => keep(rt, alloc, service, times, answered),
        Step::Declines(tx, argument) => decline(rt, alloc, service, tx, argument, front, answered),
        Step::KeepsAll => keep_all(rt, alloc, service, answered),
        _ => {}
    }
}

/// Calls with this argument until one is refused, and closes the service then.
fn give_until_refused<R: Wait, N: Naming>(
    rt: &R,
    service: &Service<N>,
    tx: TxId,
    argument: i64,
    front: &mut Front<N>,
    answered: &mut Answered,
) {
    for _ in rt.forever() {
        let answer = service.atomically(rt, tx, &[argument], front);
        answered.note(answer);
        if answer.is_err() {
            service.close(rt);
            return;
        }
    }
}

/// A step of one of the threads.
#[derive(Clone, Copy)]
struct Act {
    thread: usize,
    step: Step,
}

/// The steps of a thread more.
fn add_steps(acts: &mut Vec<Act>, thread: usize, steps: &[Step]) -> Result<(), AllocError> {
    for step in steps {
        acts.push(Act {
            thread,
            step: *step,
        })?;
    }
    Ok(())
}

/// The steps of all threads.
fn acts_of(alloc: Global, threads: &[&[Step]]) -> Result<Vec<Act>, AllocError> {
    let mut acts = Vec::new(alloc);
    for thread in 0..threads.len() {
        add_steps(&mut acts, thread, threads[thread])?;
    }
    Ok(acts)
}

/// All steps of this thread, which has seen this.
fn play_all<R: Wait + Clock, N: Naming>(
    rt: &R,
    alloc: Global,
    service: &Service<N>,
    first: &Front<N>,
    acts: &[Act],
    thread: usize,
) -> Answered {
    let mut front = first.again();
    let mut answered = NOTHING;
    for act in acts.iter() {
        if act.thread == thread {
            play(rt, alloc, service, act.step, &mut front, &mut answered);
        }
    }
    front.law();
    answered
}

/// What so many threads are answered, side by side, from what was seen before.
fn side_by_side<R: Threads + Wait + Clock + Sync, N: Naming + Sync>(
    rt: &R,
    alloc: Global,
    service: &Service<N>,
    first: &Front<N>,
    acts: &[Act],
    count: usize,
) -> Vec<Answered> {
    let all = map_indices(
        rt,
        alloc,
        count,
        &|i| play_all(rt, alloc, service, first, acts, i),
    );
    match all {
        Ok(all) => all,
        Err(_) => Vec::new(alloc),
    }
}

/// The threads call the service side by side, and it is looked at when all are done.
fn ended_by<R: Threads + Wait + Clock + Abort + Sync, N: Naming + Sync>(
    rt: &R,
    alloc: Global,
    service: &Service<N>,
    first: Front<N>,
    threads: &[&[Step]],
) -> Ended {
    let Ok(acts) = acts_of(alloc, threads) else {
        panic!(rt; "no memory");
    };
    let answered = side_by_side(rt, alloc, service, &first, acts.as_slice(), threads.len());
    let mut front = first;
    let report = match service.report(rt, &mut front) {
        Ok(report) => report,
        Err(_) => String::new(alloc),
    };
    Ended {
        answered,
        report,
        chapter: service.chapter(rt, &mut front),
        entered: service.entered(rt, &mut front),
    }
}

fn played_by<R: Threads + Wait + Clock + Abort + Sync, N: Naming + Sync>(
    rt: &R,
    alloc: Global,
    store: Store,
    opened: Opened,
    keeps: bool,
    threads: &[&[Step]],
) -> Ended
    requires named { store.catalogue.now ≡ N.catalogue }
    requires placed { store.book.present.state ≡ N.first }
    requires book { opened.seen.book ≡ N.book }
    requires still { IsStill store }
    requires fresh { store.book.catalogue.initial ≡ N.first }
{
    let (service, first) = if keeps {
        Service::<N>::open_keeping(rt, alloc, store, opened)
    } else {
        Service::<N>::open(rt, alloc, store, opened)
    };
    ended_by(rt, alloc, &service, first, threads)
}

/// A store with the workers and the room.
fn stored(alloc: Global, opening: Opening) -> Option<Store>
    ensures still { IfSome result IsStill }
    ensures fresh { IfSome result (λ s. s.book.catalogue.initial ≡ s.book.present.state) }
{
    let program = Program::read(alloc, opening.file.as_bytes()).ok()?;
    let Opening {
        file: _,
        room,
        workers,
        keeps: _,
    } = opening;
    if workers > 32 || room > 65_536 {
        return None;
    }
    if program.catalogue().tasks() + room > 65_536 {
        return None;
    }
    match Store::open_with_room(alloc, program, workers, 0, room) {
        Ok(store) => Some(store),
        Err(_) => None,
    }
}

/// What threads are answered that call a service, each by its steps.
pub(crate) fn played<R: Threads + Wait + Clock + Abort + Sync>(
    rt: &R,
    alloc: Global,
    opening: Opening,
    threads: &[&[Step]],
) -> Ended {
    let Some(store) = stored(alloc, opening) else {
        panic!(rt; "no store");
    };
    played_by::<_, Brand>(rt, alloc, store, Opened::new(), opening.keeps, threads)
}
