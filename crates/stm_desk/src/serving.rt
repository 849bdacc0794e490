//! The turns of a desk: of the tasks that calls woke, and of long ones, which are evaluated outside it.

ghost use Rattle.std.specs.Prelude.{◌≡◌, ◌≢◌, [], ◌∷◌, ◌++◌, None, true, false, IfErr, OnErr, OnOk};
ghost use Rattle.txn_programs.specs.Listing.{IsCallable};
ghost use Rattle.stm_store.specs.Keeping.{HasBrought, KeepsTasks};
ghost use Rattle.stm_desk.specs.Asking.{GoesOn, IsSame, IsServed, IsStill};
ghost use Rattle.stm_desk.specs.Ending.{Settled};
ghost use Rattle.stm_desk.specs.Running.{AreAwaited, AwaitedBut, HadTurn, HandsNothingOut, HandsOut};
ghost use Rattle.stm_desk.specs.Running.{HasBroughtTo, IsHanded, IsLong, LendsOut, RefusesTurn};
ghost use Rattle.stm_desk.specs.Serving.{IsLighter};
ghost use Rattle.stm_desk.specs.Waiting.{HandsOn, waiting_at};

use crate::answers::Due;
use crate::long::is_long;
use crate::noting::settle;
use crate::waiters::Waiters;
use crate::work::Work;
use std::collections::VecDeque;
use stm_store::{Job, Refused, Worker};

/// Hands a running task to whoever waits for it, where its transaction is long. `false` and no change where it is
/// short, nobody waits for it, or a growth was refused: then its turn is given here. So it is where nothing is to be
/// handed out.
fn hand_out(
    hands: bool,
    long: &[bool],
    waiters: &Waiters,
    due: &mut VecDeque<Job>,
    job: &Job,
) -> bool
    ensures handed { result ≡ true → (due.new.items ≡ due.old.items ++ job.now ∷ [])
        × (waiting_at waiters.now job.now.ticket.0 ≢ None) × (hands ≡ true) × IsLong long.now job.now.tx }
    ensures kept { result ≡ false → due.new.items ≡ due.old.items }
{
    hands && is_long(long, job.tx) && waiters.has(job.ticket) && due.push_back(*job).is_ok()
}

impl Work {
    /// Gives the ready tasks their turns, the lowest first, until none is ready: who waits for one is to be told what
    /// became of it, or evaluates it, where it is long.
    pub(crate) fn serve(&mut self)
        ensures served { IsServed self.new.store }
        ensures awaited { AreAwaited self.old.store self.old.waiters → AreAwaited self.new.store self.new.waiters }
        ensures hands_on { HandsOn self.old.waiters self.new.waiters }
        ensures hands_out { HandsOut self.old self.new }
        ensures kept { KeepsTasks self.old.store self.new.store }
        ensures goes_on { GoesOn self.old self.new }
    {
        while self.serve_next(true) {}
    }

    /// Each task that runs has its turn here, and each that is ready, also what is long: so none is ready or running,
    /// and none is to be handed out.
    pub(crate) fn serve_all(&mut self)
        ensures served { IsServed self.new.store }
        ensures settled { Settled self.old self.new }
        ensures kept { KeepsTasks self.old.store self.new.store }
    {
        self.store.make_ready();
        while self.serve_next(false) {}
        self.due.clear();
    }

    /// The lowest ready task has its turn; or, where `hands`, it is handed to whoever waits for it. `false` and no
    /// change where none is ready.
    fn serve_next(&mut self, hands: bool) -> bool
        ensures still { hands ≡ false → IsStill self.old.store → IsStill self.new.store }
        ensures served { result ≡ false → IsServed self.new.store }
        ensures lighter { result ≡ true → IsLighter self.old.store self.new.store }
        ensures awaited { AreAwaited self.old.store self.old.waiters → AreAwaited self.new.store self.new.waiters }
        ensures hands_on { HandsOn self.old.waiters self.new.waiters }
        ensures lends { LendsOut self.old self.new }
        ensures kept { KeepsTasks self.old.store self.new.store }
        ensures goes_on { GoesOn self.old self.new }
    {
        self.store.law();
        let Ok(job) = self.store.take() else {
            return false;
        };
        if hand_out(hands, &self.long, &self.waiters, &mut self.due, &job) {
            return true;
        }
        match self.turn(job) {
            Ok(()) => true,
            Err(_) => unreachable!(),
        }
    }

    /// The running task of the job has its turn on the present values: who waits for it is to be told what became of
    /// it, or waits on, where it retries. `Gone` exactly where there is no such job in the present chapter,
    /// `NotRunning` exactly where its task does not run; then nothing changed.
    pub(crate) fn turn(&mut self, job: Job) -> Result<(), Refused>
        requires known { IsCallable self.old.store.catalogue.now job.tx job.arguments }
        ensures turned { OnOk result (HadTurn self.old job self.new) }
        ensures refused { IfErr result (λ why. RefusesTurn self.old.store job why) }
        ensures same { OnErr result (IsSame self.old self.new) }
        ensures awaited { OnOk result (AwaitedBut self.old.store self.old.waiters job.task
            → AreAwaited self.new.store self.new.waiters) }
        ensures hands_on { HandsOn self.old.waiters self.new.waiters }
        ensures hands_out { HandsNothingOut self.old self.new }
        ensures kept { KeepsTasks self.old.store self.new.store }
        ensures goes_on { GoesOn self.old self.new }
    {
        self.store.law();
        let Some(lender) = &mut self.lender else {
            unreachable!()
        };
        match self.store.turn(lender, job) {
            Ok(end) => {
                settle(
                    &mut self.history,
                    &mut self.places,
                    &mut self.waiters,
                    &job,
                    &end,
                );
                Ok(())
            }
            Err(why) => Err(why),
        }
    }

    /// A worker's ended attempt is brought to the store: who waits for its task is to be told of its entry, or waits
    /// on, where it retries. Else nothing changed but the worker, and why as `Store::bring` has it.
    pub(crate) fn bring(&mut self, worker: &mut Worker) -> Result<(), Refused>
        ensures brought { HasBroughtTo self.old worker.old result self.new }
        ensures worker { HasBrought worker.old worker.new }
        ensures awaited { AreAwaited self.old.store self.old.waiters → AreAwaited self.new.store self.new.waiters }
        ensures hands_on { HandsOn self.old.waiters self.new.waiters }
        ensures hands_out { HandsNothingOut self.old self.new }
        ensures kept { KeepsTasks self.old.store self.new.store }
        ensures goes_on { GoesOn self.old self.new }
    {
        let Some(job) = worker.ended() else {
            return Err(Refused::NotEnded);
        };
        self.store.law();
        match self.store.bring(worker) {
            Ok(end) => {
                settle(
                    &mut self.history,
                    &mut self.places,
                    &mut self.waiters,
                    &job,
                    &end,
                );
                Ok(())
            }
            Err(why) => Err(why),
        }
    }

    /// The next running task that is handed out, and to whom. `None` exactly where there is none.
    pub(crate) fn next_due(&mut self) -> Option<Due>
        ensures handed { IsHanded self.old result self.new }
        ensures store { self.new.store ≡ self.old.store }
        ensures waiters { self.new.waiters ≡ self.old.waiters }
        ensures history { self.new.history.items ≡ self.old.history.items }
        ensures first { self.new.first.value ≡ self.old.first.value }
        ensures closed { self.new.closed ≡ self.old.closed }
        ensures last { self.new.last ≡ self.old.last }
        ensures long { self.new.long.items ≡ self.old.long.items }
    {
        while let Some(job) = self.due.pop_front() {
            if let Some(whose) = self.waiters.whose(job.ticket) {
                return Some(Due { whose, job });
            }
        }
        None
    }
}
