//! The chapters of a service that end, where its host keeps them.

ghost use Rattle.std.specs.Prelude.{◌≡◌, true};
ghost use Rattle.stm_desk.specs.History.{History};
ghost use Rattle.stm_service.specs.Keeping.{IsChapter};

use crate::front::Front;
use crate::name::Naming;
use std::snapshot::Snapshot;
use stm_desk::Ended;
use stm_store::Refused;

/// A chapter that ended, for its host to keep. The host says how it went by `Service::chapter_kept` or
/// `Service::chapter_not_kept`; until then there is room for one chapter more.
#[derive(Drop)]
pub struct Chapter<N: Naming> {
    /// Its number, its file and its report, a pair that a check finds good.
    pub ended: Ended,
    /// What there was to be seen when it began: its file begins at the values to which that leads.
    pub began: Front<N>,
    /// What there was to be seen when it ended: its report ends at the values to which that leads.
    pub until: Front<N>,
    pub ghost told: { ∥ IsChapter N.catalogue N.first began until ended ∥₁ },
}

/// What is known of a chapter that was kept, once its texts are gone.
#[derive(Drop)]
pub struct Kept<N: Naming> {
    /// The chapter, for contracts to speak of.
    pub ended: Snapshot<Ended>,
    /// What there was to be seen when it ended.
    pub until: Front<N>,
    pub ghost told: { ∥ ((began : History) × IsChapter N.catalogue N.first began until ended.value) ∥₁ },
}

impl<N: Naming> Chapter<N> {
    ghost use Rattle.stm_service.specs.Keeping.{Follows};

    /// Whether it began where the earlier one ended: then its file declares the same as that one's, and begins at the
    /// values at which that one's report ends. It is so of each chapter and the one that was kept before it.
    pub fn follows(&self, earlier: &Kept<N>) -> bool
        ensures began { result ≡ true → self.now.began ≡ earlier.now.until }
        ensures goes_on { result ≡ true → ∥ Follows earlier.now.ended.value self.now.ended ∥₁ }
    {
        self.began.covers(&earlier.until) && earlier.until.covers(&self.began)
    }

    /// Its number.
    pub fn number(&self) -> u64
        ensures { result ≡ self.now.ended.chapter }
    {
        self.ended.chapter
    }

    /// What is known of it once it is kept.
    pub(crate) fn remembered(&self) -> Kept<N>
        ensures chapter { result.ended.value ≡ self.now.ended }
        ensures until { result.until ≡ self.now.until }
    {
        Kept {
            ended: Snapshot::of(&self.ended),
            until: self.until.again(),
        }
    }
}

/// How it stands with the chapters that end.
#[derive(Drop)]
pub(crate) struct Shelf<N: Naming> {
    /// Whether the host keeps them.
    pub(crate) are_kept: bool,
    /// The one that the host is to take.
    pub(crate) offered: Option<Chapter<N>>,
    /// Whether the host has one, and did not say yet how it went.
    is_out: bool,
    /// How often the host has said how it went with one, and whether it kept the last of these.
    sayings: u64,
    was_kept: bool,
    is_closed: bool,
}

impl<N: Naming> Shelf<N> {
    ghost use Rattle.std.specs.Prelude.{Some, IfSome, IfOk, IfErr};
    ghost use Rattle.stm_store.specs.declared.answers.Refused.TheVariants as Refused;

    /// None has ended.
    pub(crate) fn new(are_kept: bool) -> Shelf<N>
        ensures { result.are_kept ≡ are_kept }
    {
        Shelf {
            are_kept,
            offered: None,
            is_out: false,
            sayings: 0,
            was_kept: false,
            is_closed: false,
        }
    }

    /// The host is to take this one.
    pub(crate) fn offer(&mut self, chapter: Chapter<N>)
        ensures offered { self.new.offered ≡ Some chapter }
        ensures kept { self.new.are_kept ≡ self.old.are_kept }
    {
        self.offered = Some(chapter);
    }

    /// The one that the host has from now on. `None` and no change where there is none yet. `Closed`: there never will
    /// be one.
    pub(crate) fn take(&mut self) -> Option<Result<Chapter<N>, Refused>>
        ensures taken { IfSome result (λ r. IfOk r (λ chapter. self.old.offered ≡ Some chapter)) }
        ensures refused { IfSome result (λ r. IfErr r (λ why. why ≡ Refused.Closed)) }
        ensures kept { self.new.are_kept ≡ self.old.are_kept }
    {
        if let Some(chapter) = self.offered.take() {
            self.is_out = true;
            return Some(Ok(chapter));
        }
        if self.is_closed && !self.is_out {
            return Some(Err(Refused::Closed));
        }
        None
    }

    /// The host has said whether it kept the one that it had.
    pub(crate) fn say(&mut self, was_kept: bool)
        ensures offered { self.new.offered ≡ self.old.offered }
        ensures kept { self.new.are_kept ≡ self.old.are_kept }
    {
        self.is_out = false;
        self.sayings = self.sayings.wrapping_add(1);
        self.was_kept = was_kept;
    }

    /// Nothing is entered any more. Who waits for the host does so no longer.
    pub(crate) fn close(&mut self)
        ensures offered { self.new.offered ≡ self.old.offered }
        ensures kept { self.new.are_kept ≡ self.old.are_kept }
    {
        self.is_closed = true;
        self.sayings = self.sayings.wrapping_add(1);
        self.was_kept = true;
    }

    /// How often the host has said how it went.
    pub(crate) fn sayings(&self) -> u64 {
        self.sayings
    }

    /// Whether it kept one since it had said so this often, or the service was closed. `None` where it has said
    /// nothing since.
    pub(crate) fn said_since(&self, sayings: u64) -> Option<bool> {
        if self.sayings == sayings {
            None
        } else {
            Some(self.was_kept)
        }
    }
}
