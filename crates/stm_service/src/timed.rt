//! Calls that wait for a time at most.

ghost use Rattle.std.specs.Prelude.{◌≡◌, Err, IfSome, None};
ghost use Rattle.txn_programs.specs.Listing.{IsCallable};
ghost use Rattle.stm_store.specs.declared.answers.Refused.TheVariants as Refused;
ghost use Rattle.stm_desk.specs.History.{Begins};
ghost use Rattle.stm_service.specs.Telling.{IsAnsweredWithin, IsToldWithin};

use crate::behind::Begun;
use crate::front::Front;
use crate::name::Naming;
use crate::seat::Awaited;
use crate::service::Service;
use std::sync::{Condvar, Wait};
use std::time::{Clock, Duration, Instant};
use stm_desk::Answer;
use stm_store::{Refused, Way};
use txn::{Arguments, Call, TxId};

/// The time that a call may take.
#[derive(Clone, Copy)]
pub(crate) struct Time {
    /// `None` where the clock could not be read.
    start: Option<Instant>,
    length: Duration,
}

impl Time {
    /// So long from now on.
    pub(crate) fn from_now(clock: &impl Clock, length: Duration) -> Time {
        Time {
            start: Instant::now(clock).ok(),
            length,
        }
    }

    /// How much of it is left. `None` where it is up, or the clock cannot be read.
    pub(crate) fn left(&self, clock: &impl Clock) -> Option<Duration> {
        let left = self.length.checked_sub(self.start?.elapsed(clock).ok()?)?;
        if left.is_zero() { None } else { Some(left) }
    }
}

impl<N: Naming> Service<N> {
    /// As `atomically`, for at most this time: then the answer is `TimedOut`, and its task was given up, which the
    /// front has then seen. Where its task was entered before, its entry is the answer. While a long one is evaluated
    /// nobody looks at the time, but what came of it is not entered once its time is up. Where the time is up while it
    /// waits for the host to say how it went with a chapter, there is no task of it, and the answer is `NoRoom`.
    pub fn atomically_within<R: Wait + Clock>(
        &self,
        rt: &R,
        time: Duration,
        tx: TxId,
        arguments: &[i64],
        front: &mut Front<N>,
    ) -> Result<Answer, Refused>
        ensures answered { ∥ IsAnsweredWithin N.catalogue N.first front.old
            (record { tx = tx; arguments = arguments.now }) result front.new ∥₁ }
        ensures grows { Begins front.old front.new }
        ensures unknown { ¬ (IsCallable N.catalogue tx arguments.now) → result ≡ Err Refused.Unknown }
    {
        let time = Time::from_now(rt, time);
        self.catalogue.rules();
        if !self.catalogue.is_callable(tx, arguments) {
            return Err(Refused::Unknown);
        }
        let call = Call {
            tx,
            arguments: Arguments::of(arguments),
        };
        self.call_within(rt, &call, time, front)
    }

    /// The same of a call that can be made.
    fn call_within<R: Wait + Clock>(
        &self,
        rt: &R,
        call: &Call,
        time: Time,
        front: &mut Front<N>,
    ) -> Result<Answer, Refused>
        ensures answered { ∥ IsAnsweredWithin N.catalogue N.first front.old call.now result front.new ∥₁ }
        ensures grows { Begins front.old front.new }
    {
        for _ in rt.forever() {
            if let Some(answer) = self.try_within(rt, call, time, front) {
                return answer;
            }
        }
        unreachable!()
    }

    /// The same. `None` where it is to be made again, and the caller has seen nothing more.
    fn try_within<R: Wait + Clock>(
        &self,
        rt: &R,
        call: &Call,
        time: Time,
        front: &mut Front<N>,
    ) -> Option<Result<Answer, Refused>>
        ensures answered { IfSome result
            (λ answer. ∥ IsAnsweredWithin N.catalogue N.first front.old call.now answer front.new ∥₁) }
        ensures grows { Begins front.old front.new }
        ensures again { result ≡ None → front.new ≡ front.old }
    {
        let begun = self.behind.lock(rt).call(rt, call, Way::Waits, front);
        match begun {
            Begun::Ended(answer) => Some(Ok(answer)),
            Begun::Waits(awaited, bell) => Some(self.wait_within(rt, &awaited, &bell, time, front)),
            Begun::Refused(why) => Some(Err(why)),
            Begun::Again => {
                self.ended.notify_all();
                None
            }
            Begun::Later(sayings) => {
                if self.wait_for_host_within(rt, sayings, time) {
                    None
                } else {
                    Some(Err(Refused::NoRoom))
                }
            }
        }
    }

    /// Waits until the call is told what became of it, or its time is up; a long one its thread evaluates.
    fn wait_within<R: Wait + Clock>(
        &self,
        rt: &R,
        awaited: &Awaited,
        bell: &Condvar,
        time: Time,
        front: &mut Front<N>,
    ) -> Result<Answer, Refused>
        ensures told { ∥ IsToldWithin front.new awaited.now.ticket awaited.now.call result ∥₁ }
        ensures grows { Begins front.old front.new }
    {
        let mut behind = self.behind.lock(rt);
        let mut tries = 0;
        for _ in rt.forever() {
            if let Some(answer) = behind.look(awaited, front) {
                return answer;
            }
            let Some(left) = time.left(rt) else {
                if behind.give_up(rt, awaited, front) {
                    return Err(Refused::TimedOut);
                }
                behind = bell.wait(rt, behind);
                continue;
            };
            behind = match behind.job_of(awaited) {
                Some(job) => self.go_on_within(rt, behind, &job, &mut tries, time),
                None => {
                    tries = 0;
                    bell.wait_timeout(rt, behind, left).0
                }
            };
        }
        unreachable!()
    }
}
