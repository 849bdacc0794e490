//! Chapters that ended, and what became of the last one.

ghost use Rattle.std.specs.Prelude.{◌≡◌, ◌↔◌, IfOk, IsTrue, string_bytes};
ghost use Rattle.book.specs.Turns.{IsIdle};
ghost use Rattle.book.specs.View.{BookView};
ghost use Rattle.stm_store.specs.Telling.{IsTextOf};
ghost use Rattle.stm_desk.specs.Telling.{IsFileTold, TellsOf};

use std::mem;
use stm_store::{FileFault, ReportFault, Store};
use txn::Memory;

/// A file would be longer than a file may be.
#[derive(Clone, Copy, Debug, PartialEq, Eq)]
pub struct TooLong;

/// A chapter that ended, for its host to keep.
#[derive(Drop)]
pub struct Ended {
    /// Its number.
    pub chapter: u64,
    /// The text of its file.
    pub file: Result<String, TooLong>,
    /// The text of its report. With the file it is a pair that a check finds good.
    pub report: String,
    pub ghost told: { ∥ ((b : BookView) × TellsOf b file report) ∥₁ },
}

/// What became of the chapter that ended last.
#[derive(Drop)]
pub(crate) enum Last {
    /// It was kept, or none has ended yet.
    Kept,
    /// The host has it, and did not say yet whether it was kept.
    Out(u64),
    NotKept(Ended),
}

impl Last {
    ghost use Rattle.std.specs.Prelude.{◌≢◌, ℕ, true, false, IfSome, None};
    ghost use Rattle.stm_desk.specs.Ending.{IsNotKept};
    ghost use Rattle.stm_desk.specs.declared.ended.Ended.{Ended};
    ghost use Rattle.stm_desk.specs.declared.ended.Last.TheVariants as Last;

    /// Whether the host has the chapter of this number.
    pub(crate) fn is_out(&self, chapter: u64) -> bool
        ensures { IsTrue result ↔ (self.now ≡ Last.Out chapter) }
    {
        match self {
            Last::Kept | Last::NotKept(_) => false,
            Last::Out(number) => *number == chapter,
        }
    }

    /// Whether the host has any.
    pub(crate) fn is_any_out(&self) -> bool
        ensures out { result ≡ true → (e : ℕ) × (self.now ≡ Last.Out e) }
        ensures none { result ≡ false → (e : ℕ) → self.now ≢ Last.Out e }
    {
        matches!(self, Last::Out(_))
    }

    /// Whether it was kept, or none has ended.
    pub(crate) fn is_kept(&self) -> bool
        ensures { IsTrue result ↔ (self.now ≡ Last.Kept) }
    {
        matches!(self, Last::Kept)
    }

    /// Whether it was not kept.
    pub(crate) fn is_not_kept(&self) -> bool
        ensures { IsTrue result ↔ IsNotKept self.now }
    {
        matches!(self, Last::NotKept(_))
    }

    /// Where it was not kept, the host has it again. `None` and no change elsewhere.
    pub(crate) fn again(&mut self) -> Option<Ended>
        ensures some { IfSome result
            (λ e. (self.old ≡ Last.NotKept e) × (self.new ≡ Last.Out e.chapter)) }
        ensures none { result ≡ None
            → (self.new ≡ self.old) × ((e : Ended) → self.old ≢ Last.NotKept e) }
    {
        if !self.is_not_kept() {
            return None;
        }
        let Last::NotKept(ended) = mem::replace(self, Last::Kept) else {
            unreachable!()
        };
        *self = Last::Out(ended.chapter);
        Some(ended)
    }
}

/// What is told of the chapter of a store with no task ready or running. `Memory` only where a growth was refused.
pub(crate) fn ended_now(store: &Store) -> Result<Ended, Memory>
    requires { IsIdle store.now.book }
    ensures number { IfOk result (λ e. e.chapter ≡ store.now.chapter) }
    ensures tells { IfOk result (λ e. TellsOf store.now.book e.file e.report) }
{
    let file = file_of(store)?;
    let report = report_of(store)?;
    Ok(Ended {
        chapter: store.chapter(),
        file,
        report,
    })
}

/// The file of the present chapter.
fn file_of(store: &Store) -> Result<Result<String, TooLong>, Memory>
    ensures { IfOk result (IsFileTold store.now.book) }
{
    match store.file() {
        Ok(text) => Ok(Ok(text)),
        Err(FileFault::TooLong) => Ok(Err(TooLong)),
        Err(FileFault::Memory) => Err(Memory),
    }
}

/// The report of the present chapter.
fn report_of(store: &Store) -> Result<String, Memory>
    requires { IsIdle store.now.book }
    ensures { IfOk result (λ text. IsTextOf store.now.book (string_bytes text)) }
{
    match store.report_now() {
        Ok(text) => Ok(text),
        Err(ReportFault::Memory) => Err(Memory),
        Err(ReportFault::WorkLeft) => unreachable!(),
    }
}
