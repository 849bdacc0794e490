//! The chapters of a service that its host is told of, and what it says of them.

ghost use Rattle.std.specs.Prelude.{◌≡◌, ◌⊎◌, true, false, Err, IfErr, IfOk};
ghost use Rattle.stm_store.specs.declared.answers.Refused.TheVariants as Refused;
ghost use Rattle.stm_service.specs.Keeping.{IsChapter};

use crate::chapter::{Chapter, Kept};
use crate::name::Naming;
use crate::service::Service;
use crate::timed::Time;
use std::sync::Wait;
use std::time::{Clock, Duration};
use stm_store::Refused;

impl<N: Naming> Service<N> {
    /// The chapter that ended next, for the host to keep: it waits until there is one. The host has one at a time, and
    /// says by `chapter_kept` or `chapter_not_kept` how it went with it; one that it did not keep is told again.
    ///
    /// `Closed`: the service is closed, and each chapter that ended was kept; of the last one, which does not end, ask
    /// for the file and the report. `NotEnded` exactly where the service was not opened by `open_keeping`.
    pub fn told_chapter<R: Wait>(&self, rt: &R) -> Result<Chapter<N>, Refused>
        ensures told { IfOk result (λ c. ∥ IsChapter N.catalogue N.first c.began c.until c.ended ∥₁) }
        ensures none { self.now.keeps ≡ false → result ≡ Err Refused.NotEnded }
        ensures refused { self.now.keeps ≡ true → IfErr result (λ why. why ≡ Refused.Closed) }
    {
        if !self.keeps {
            return Err(Refused::NotEnded);
        }
        let mut behind = self.behind.lock(rt);
        for _ in rt.forever() {
            if let Some(taken) = behind.take_chapter() {
                return taken;
            }
            behind = self.ended.wait(rt, behind);
        }
        unreachable!()
    }

    /// As `told_chapter`, for at most this time: then the answer is `TimedOut`.
    pub fn told_chapter_within<R: Wait + Clock>(
        &self,
        rt: &R,
        time: Duration,
    ) -> Result<Chapter<N>, Refused>
        ensures told { IfOk result (λ c. ∥ IsChapter N.catalogue N.first c.began c.until c.ended ∥₁) }
        ensures none { self.now.keeps ≡ false → result ≡ Err Refused.NotEnded }
        ensures refused { self.now.keeps ≡ true
            → IfErr result (λ why. (why ≡ Refused.Closed) ⊎ (why ≡ Refused.TimedOut)) }
    {
        if !self.keeps {
            return Err(Refused::NotEnded);
        }
        let time = Time::from_now(rt, time);
        let mut behind = self.behind.lock(rt);
        for _ in rt.forever() {
            if let Some(taken) = behind.take_chapter() {
                return taken;
            }
            let Some(left) = time.left(rt) else {
                return Err(Refused::TimedOut);
            };
            behind = self.ended.wait_timeout(rt, behind, left).0;
        }
        unreachable!()
    }

    /// The host kept the chapter: whoever waits for that goes on. The answer says by which the next one is known to
    /// follow. `Err` where it is not the one that the host has of this service; then nothing changed.
    pub fn chapter_kept<R: Wait>(&self, rt: &R, chapter: Chapter<N>) -> Result<Kept<N>, Chapter<N>>
        ensures chapter { IfOk result (λ kept. kept.ended.value ≡ chapter.ended) }
        ensures until { IfOk result (λ kept. kept.until ≡ chapter.until) }
        ensures back { IfErr result (λ back. back ≡ chapter) }
    {
        let kept = self.behind.lock(rt).chapter_kept(chapter);
        self.said.notify_all();
        self.ended.notify_all();
        kept
    }

    /// The host did not keep the chapter: it is told again, and whoever waits for it is answered `NoRoom`. `Err` where
    /// it is not the one that the host has of this service; then nothing changed.
    pub fn chapter_not_kept<R: Wait>(&self, rt: &R, chapter: Chapter<N>) -> Result<(), Chapter<N>>
        ensures back { IfErr result (λ back. back ≡ chapter) }
    {
        let not_kept = self.behind.lock(rt).chapter_not_kept(chapter);
        self.said.notify_all();
        self.ended.notify_all();
        not_kept
    }

    /// Waits until the host has said how it went with a chapter more often than this, or the service is closed. `false`
    /// where it did not keep one.
    pub(crate) fn wait_for_host<R: Wait>(&self, rt: &R, sayings: u64) -> bool {
        let mut behind = self.behind.lock(rt);
        for _ in rt.forever() {
            if let Some(was_kept) = behind.said_since(sayings) {
                return was_kept;
            }
            behind = self.said.wait(rt, behind);
        }
        unreachable!()
    }

    /// The same, for at most this time: then `false`.
    pub(crate) fn wait_for_host_within<R: Wait + Clock>(
        &self,
        rt: &R,
        sayings: u64,
        time: Time,
    ) -> bool {
        let mut behind = self.behind.lock(rt);
        for _ in rt.forever() {
            if let Some(was_kept) = behind.said_since(sayings) {
                return was_kept;
            }
            let Some(left) = time.left(rt) else {
                return false;
            };
            behind = self.said.wait_timeout(rt, behind, left).0;
        }
        unreachable!()
    }
}
