//! What the calls on a desk answer: of which task, and to whom.

ghost use Rattle.std.specs.Prelude.{◌≡◌, ◌<◌, ◌^◌, IfOk, IfSome, Some};
ghost use Rattle.stm_c.specs.DeskAnswers.{answer_asked, by_place, due_as, job_asked, nobody_due, nobody_told};
ghost use Rattle.stm_c.specs.DeskAnswers.{nothing_due, nothing_told, told_as, IsTicketed, IsToldWith};

use crate::answers::{Answer, about, bare, refusal};
use crate::codes::{
    CHAPTER_FULL, EMPTY, NOT_READY, RETRIES, RUNNING, code_of, code_of_outcome, number,
    value_of_outcome,
};
use crate::jobs::{Taken, no_job, taken_as};
use stm_desk::{Asked, Due, Told};
use stm_store::Refused;

/// Whose call waited, and what became of it.
#[repr(C)]
#[derive(Clone, Copy)]
pub struct AnswerTo {
    pub whose: u64,
    pub answer: Answer,
}

/// Whose call waits, and the job of its task, which is to be evaluated.
#[repr(C)]
#[derive(Clone, Copy)]
pub struct JobFor {
    pub whose: u64,
    pub job: Taken,
}

/// The entry of a call, at its place in the history of all.
fn by_place(entry: &stm_desk::Answer) -> Answer
    requires { entry.now.ticket.0 < 2 ^ 63 }
    ensures { result ≡ by_place entry.now }
{
    Answer {
        ticket: number(entry.ticket),
        code: code_of_outcome(entry.outcome),
        value: value_of_outcome(entry.outcome),
        chapter: entry.chapter,
        entry: entry.entry,
        place: entry.place,
    }
}

/// What came of a call at once: how it ended, at which place; 1 with a ticket: it waits; 14: it is long, and its task
/// runs; 17: the chapter is full. Else why no task was made.
pub(crate) fn asked(chapter: u64, how: &Result<Asked, Refused>) -> Answer
    requires { IfOk how.now IsTicketed }
    ensures { result ≡ answer_asked chapter how.now }
{
    match how {
        Ok(Asked::Ended(entry)) => by_place(entry),
        Ok(Asked::Waits(ticket)) => about(number(*ticket), chapter, RETRIES),
        Ok(Asked::Runs(job)) => about(number(job.ticket), chapter, RUNNING),
        Ok(Asked::ChapterFull) => bare(CHAPTER_FULL),
        Err(why) => refusal(*why),
    }
}

/// The job of a call that is long, where it is one.
pub(crate) fn lend_job(how: &Result<Asked, Refused>, job: &mut Taken)
    requires { IfOk how.now IsTicketed }
    ensures { job.new ≡ job_asked job.old how.now }
{
    if let Ok(Asked::Runs(found)) = how {
        *job = taken_as(Ok(*found));
    }
}

/// What became of a call that waited; nobody, and -26, where nothing is to be told.
pub(crate) fn told(found: Option<Told>) -> AnswerTo
    requires { IfSome found IsToldWith }
    ensures { result ≡ told_as found }
{
    match found {
        Some(found) => told_to(&found),
        None => nobody_told(NOT_READY),
    }
}

fn told_to(found: &Told) -> AnswerTo
    requires { IsToldWith found.now }
    ensures { result ≡ told_as (Some found.now) }
{
    AnswerTo {
        whose: found.whose,
        answer: match &found.answer {
            Ok(entry) => by_place(entry),
            Err(why) => about(number(found.ticket), 0, code_of(*why)),
        },
    }
}

fn nobody_told(why: i32) -> AnswerTo
    ensures { result ≡ nobody_told why }
{
    AnswerTo {
        whose: 0,
        answer: bare(why),
    }
}

/// The handle is empty.
pub(crate) fn nothing_told() -> AnswerTo
    ensures { result ≡ nothing_told }
{
    nobody_told(EMPTY)
}

/// The job of a long call that waits; nobody, and -26 in its ticket's place, where none is to be evaluated.
pub(crate) fn due(found: Option<Due>) -> JobFor
    requires { IfSome found (λ d. d.job.ticket.0 < 2 ^ 63) }
    ensures { result ≡ due_as found }
{
    match found {
        Some(due) => JobFor {
            whose: due.whose,
            job: taken_as(Ok(due.job)),
        },
        None => nobody_due(NOT_READY),
    }
}

fn nobody_due(why: i32) -> JobFor
    ensures { result ≡ nobody_due why }
{
    JobFor {
        whose: 0,
        job: no_job(why),
    }
}

/// The handle is empty.
pub(crate) fn nothing_due() -> JobFor
    ensures { result ≡ nothing_due }
{
    nobody_due(EMPTY)
}
