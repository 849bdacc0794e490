//! Calls from any thread.

ghost use Rattle.std.specs.Prelude.{◌≡◌, ◌≢◌, [], true, false, Err, IfSome, None};
ghost use Rattle.std.specs.Coded.{codes};
ghost use Rattle.txn.specs.Codes.{coded_listing};
ghost use Rattle.txn_programs.specs.Listing.{IsCallable};
ghost use Rattle.stm_store.specs.declared.answers.Refused.TheVariants as Refused;
ghost use Rattle.stm_store.specs.declared.answers.Way.TheVariants as Way;
ghost use Rattle.stm_desk.specs.Asking.{IsStill};
ghost use Rattle.stm_desk.specs.History.{Begins};
ghost use Rattle.stm_service.specs.Telling.{IsAnswered, IsTold};

use crate::behind::{Begun, Behind};
use crate::front::{Front, Opened};
use crate::long::{long_ones, workers_of};
use crate::name::Naming;
use crate::seat::Awaited;
use std::alloc::Global;
use std::sync::{Condvar, Mutex, Wait};
use stm_desk::Answer;
use stm_store::{Refused, Store, Way, Worker};
use txn::{Arguments, Call, Catalogue, TxId};

/// A store that threads share: each call runs a transaction as one atomic step, and is told where in the one history
/// of the service its entry stands.
#[derive(Drop)]
pub struct Service<N: Naming> {
    pub(crate) catalogue: &'static Catalogue,
    /// Whether its host keeps the chapters.
    pub(crate) keeps: bool,
    pub(crate) behind: Mutex<Behind<N>>,
    /// It rings where the host can take a chapter.
    pub(crate) ended: Condvar,
    /// It rings where the host has said how it went with one.
    pub(crate) said: Condvar,
    /// By which threads evaluate long calls; those that are idle.
    pub(crate) workers: Mutex<Vec<Worker>>,
    ghost named: { catalogue.now ≡ N.catalogue } by { Prim.hlevel (codes, coded_listing) },
}

impl<N: Naming> Service<N> {
    /// The service of a store, whose ready tasks have had their turns then, and a front that has seen nothing of it.
    /// None of the store's tasks may be running. Chapters begin by themselves, and nobody keeps them.
    ///
    /// The workers that the store has left are the service's: by each of them one thread at a time evaluates a long
    /// call, by its weight, beside what others commit. Of a store with none all are evaluated under the lock.
    ///
    /// A host is generic in the name `N`, and calls itself with the store's program and values, and with the history
    /// that it opened, for it.
    pub fn open<R: Wait>(
        rt: &R,
        alloc: Global,
        store: Store,
        opened: Opened,
    ) -> (Service<N>, Front<N>)
        requires named { store.catalogue.now ≡ N.catalogue }
        requires placed { store.book.present.state ≡ N.first }
        requires book { opened.seen.book ≡ N.book }
        requires still { IsStill store }
        ensures keeps { result.0.keeps ≡ false }
        ensures front { result.1 ≡ [] }
    {
        Service::open_as(rt, alloc, store, opened, false)
    }

    /// As `open`, of a service whose host keeps the chapters: it takes each that ended by `told_chapter`, and says by
    /// `chapter_kept` or `chapter_not_kept` how it went. Until then there is room for one chapter more; who calls where
    /// that is full too waits until the host has said so. Of the store nothing may have been entered in its present
    /// chapter.
    pub fn open_keeping<R: Wait>(
        rt: &R,
        alloc: Global,
        store: Store,
        opened: Opened,
    ) -> (Service<N>, Front<N>)
        requires named { store.catalogue.now ≡ N.catalogue }
        requires placed { store.book.present.state ≡ N.first }
        requires book { opened.seen.book ≡ N.book }
        requires still { IsStill store }
        requires fresh { store.book.catalogue.initial ≡ N.first }
        ensures keeps { result.0.keeps ≡ true }
        ensures front { result.1 ≡ [] }
    {
        Service::open_as(rt, alloc, store, opened, true)
    }

    fn open_as<R: Wait>(
        rt: &R,
        alloc: Global,
        store: Store,
        opened: Opened,
        are_kept: bool,
    ) -> (Service<N>, Front<N>)
        requires named { store.catalogue.now ≡ N.catalogue }
        requires placed { store.book.present.state ≡ N.first }
        requires book { opened.seen.book ≡ N.book }
        requires still { IsStill store }
        requires fresh { are_kept ≡ true → store.book.catalogue.initial ≡ N.first }
        ensures keeps { result.0.keeps ≡ are_kept }
        ensures front { result.1 ≡ [] }
    {
        let mut store = store;
        let catalogue = store.catalogue();
        let workers = workers_of(alloc, &mut store);
        let long = long_ones(alloc, catalogue, workers.len());
        let (behind, front) = Behind::new(rt, alloc, store, long, opened, are_kept);
        let service = Service {
            catalogue,
            keeps: are_kept,
            behind: Mutex::new(behind),
            ended: Condvar::new(),
            said: Condvar::new(),
            workers: Mutex::new(workers),
        };
        (service, front)
    }

    /// Runs the transaction with these arguments as one atomic step. Where it retries the calling thread waits until
    /// its task has been entered. The answer is its entry, which stands in the history behind all that the front had
    /// seen; the front has then seen it.
    ///
    /// A short transaction runs under the lock. A long one is evaluated by the calling thread beside what others commit,
    /// and again when it is woken: the lock is taken only to submit and to enter it. It runs under the lock where no
    /// worker is idle, where others changed what it read in eight tries, and where, before it is entered, a chapter
    /// ends or the report or the file is asked for.
    ///
    /// `Unknown` exactly where there is no such transaction, or it has not as many parameters as there are arguments.
    /// `Memory`: a growth was refused, and its task was given up, which the front has then seen. `NoRoom`: each place
    /// is of a task that waits; where a chapter is full, but the next one has room, that one begins. It is also
    /// answered where the chapter is full, and the host did not keep the one before, or memory for the texts of this
    /// one was refused. `Closed`: the service is closed. It is never another one.
    pub fn atomically<R: Wait>(
        &self,
        rt: &R,
        tx: TxId,
        arguments: &[i64],
        front: &mut Front<N>,
    ) -> Result<Answer, Refused>
        ensures answered { ∥ IsAnswered N.catalogue N.first front.old
            (record { tx = tx; arguments = arguments.now }) Way.Waits result front.new ∥₁ }
        ensures grows { Begins front.old front.new }
        ensures unknown { ¬ (IsCallable N.catalogue tx arguments.now) → result ≡ Err Refused.Unknown }
    {
        self.call(rt, tx, arguments, Way::Waits, front)
    }

    /// As `atomically`, but where the transaction retries the answer is `Retries`: it is not entered and never will
    /// be, and retries on the values to which the history leads that the front has then seen. A long one runs under the
    /// lock too.
    pub fn try_atomically<R: Wait>(
        &self,
        rt: &R,
        tx: TxId,
        arguments: &[i64],
        front: &mut Front<N>,
    ) -> Result<Answer, Refused>
        ensures answered { ∥ IsAnswered N.catalogue N.first front.old
            (record { tx = tx; arguments = arguments.now }) Way.Tries result front.new ∥₁ }
        ensures grows { Begins front.old front.new }
        ensures unknown { ¬ (IsCallable N.catalogue tx arguments.now) → result ≡ Err Refused.Unknown }
    {
        self.call(rt, tx, arguments, Way::Tries, front)
    }

    /// Nothing is entered from now on: each call that waits is answered `Closed`, and so is every later one. What was
    /// entered stays.
    pub fn close<R: Wait>(&self, rt: &R) {
        self.behind.lock(rt).close(rt);
        self.said.notify_all();
        self.ended.notify_all();
    }

    /// Both, by the way.
    fn call<R: Wait>(
        &self,
        rt: &R,
        tx: TxId,
        arguments: &[i64],
        way: Way,
        front: &mut Front<N>,
    ) -> Result<Answer, Refused>
        ensures answered { ∥ IsAnswered N.catalogue N.first front.old
            (record { tx = tx; arguments = arguments.now }) way result front.new ∥₁ }
        ensures grows { Begins front.old front.new }
        ensures unknown { ¬ (IsCallable N.catalogue tx arguments.now) → result ≡ Err Refused.Unknown }
    {
        self.catalogue.rules();
        if !self.catalogue.is_callable(tx, arguments) {
            return Err(Refused::Unknown);
        }
        let call = Call {
            tx,
            arguments: Arguments::of(arguments),
        };
        self.call_known(rt, &call, way, front)
    }

    /// The same of a call that can be made.
    fn call_known<R: Wait>(
        &self,
        rt: &R,
        call: &Call,
        way: Way,
        front: &mut Front<N>,
    ) -> Result<Answer, Refused>
        ensures answered { ∥ IsAnswered N.catalogue N.first front.old call.now way result front.new ∥₁ }
        ensures grows { Begins front.old front.new }
    {
        for _ in rt.forever() {
            if let Some(answer) = self.call_once(rt, call, way, front) {
                return answer;
            }
        }
        unreachable!()
    }

    /// The same. `None` where it is to be made again, and the caller has seen nothing more.
    fn call_once<R: Wait>(
        &self,
        rt: &R,
        call: &Call,
        way: Way,
        front: &mut Front<N>,
    ) -> Option<Result<Answer, Refused>>
        ensures answered { IfSome result
            (λ answer. ∥ IsAnswered N.catalogue N.first front.old call.now way answer front.new ∥₁) }
        ensures grows { Begins front.old front.new }
        ensures again { result ≡ None → front.new ≡ front.old }
    {
        let begun = self.behind.lock(rt).call(rt, call, way, front);
        match begun {
            Begun::Ended(answer) => Some(Ok(answer)),
            Begun::Waits(awaited, bell) => Some(self.wait_for(rt, &awaited, &bell, front)),
            Begun::Refused(why) => Some(Err(why)),
            Begun::Again => {
                self.ended.notify_all();
                None
            }
            Begun::Later(sayings) => {
                if self.wait_for_host(rt, sayings) {
                    None
                } else {
                    Some(Err(Refused::NoRoom))
                }
            }
        }
    }

    /// Waits until the call is told what became of it; a long one its thread evaluates.
    fn wait_for<R: Wait>(
        &self,
        rt: &R,
        awaited: &Awaited,
        bell: &Condvar,
        front: &mut Front<N>,
    ) -> Result<Answer, Refused>
        ensures told { ∥ IsTold front.new awaited.now.ticket awaited.now.call result ∥₁ }
        ensures grows { Begins front.old front.new }
    {
        let mut behind = self.behind.lock(rt);
        let mut tries = 0;
        for _ in rt.forever() {
            if let Some(answer) = behind.look(awaited, front) {
                return answer;
            }
            behind = match behind.job_of(awaited) {
                Some(job) => self.go_on(rt, behind, &job, &mut tries),
                None => {
                    tries = 0;
                    bell.wait(rt, behind)
                }
            };
        }
        unreachable!()
    }
}
