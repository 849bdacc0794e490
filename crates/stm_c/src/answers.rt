//! What a call that is about a task answers: which task, and what came of it; or why nothing was done.

ghost use Rattle.std.specs.Prelude.{◌≡◌, ◌<◌, ◌^◌, IfOk, IfSome, OnOk};
ghost use Rattle.stm_c.specs.Answers.{about, answer_brought, answer_called, answer_observed, answer_of, answer_outcome};
ghost use Rattle.stm_c.specs.Answers.{answer_standing, bare, by_entry, nothing_held, refusal};

use crate::codes::{
    EMPTY, GIVEN_UP, NO_ENTRY, READY, RETRIES, RUNNING, code_of, code_of_outcome, number,
    value_of_outcome,
};
use book::Standing;
use stm_store::{End, Entered, Job, Refused};
use txn::Outcome;

/// The ticket of the task that it is about, -1 where there is none; a code; what was returned or thrown, or the number
/// of a condition; the chapter in which the task is; the number of its entry there; and, of a call of a desk, the
/// place of the entry in the history of all, from 0. Each is 0 where there is none.
#[repr(C)]
#[derive(Clone, Copy)]
pub struct Answer {
    pub ticket: i64,
    pub code: i32,
    pub value: i64,
    pub chapter: u64,
    pub entry: u64,
    pub place: u64,
}

/// A code, and no task.
pub(crate) fn bare(code: i32) -> Answer
    ensures { result ≡ bare code }
{
    Answer {
        ticket: -1,
        code,
        value: 0,
        chapter: 0,
        entry: 0,
        place: 0,
    }
}

/// The handle is empty.
pub(crate) fn empty() -> Answer
    ensures { result ≡ nothing_held }
{
    bare(EMPTY)
}

/// Why nothing was done.
pub(crate) fn refusal(why: Refused) -> Answer
    ensures { result ≡ refusal why }
{
    bare(code_of(why))
}

/// A task, and a code.
pub(crate) fn about(ticket: i64, chapter: u64, code: i32) -> Answer
    ensures { result ≡ about ticket chapter code }
{
    Answer {
        ticket,
        code,
        value: 0,
        chapter,
        entry: 0,
        place: 0,
    }
}

/// A task, by what its entry says.
fn by_entry(ticket: i64, chapter: u64, entered: Entered) -> Answer
    ensures { result ≡ by_entry ticket chapter entered }
{
    Answer {
        ticket,
        code: code_of_outcome(entered.outcome),
        value: value_of_outcome(entered.outcome),
        chapter,
        entry: entered.number,
        place: 0,
    }
}

/// What came of a turn of the task: how it ended, with the number of its entry; 1 parked; 4 given up as memory ran out.
/// Else why it had none.
pub(crate) fn answer_of(ticket: i64, chapter: u64, how: Result<End, Refused>) -> Answer
    ensures { result ≡ answer_of ticket chapter how }
{
    match how {
        Ok(End::Entered(entered)) => by_entry(ticket, chapter, entered),
        Ok(End::Parked) => about(ticket, chapter, RETRIES),
        Ok(End::Abandoned) => about(ticket, chapter, GIVEN_UP),
        Err(why) => refusal(why),
    }
}

/// As `answer_of`, of the task that a call made.
pub(crate) fn called(how: Result<(Job, End), Refused>) -> Answer
    requires { IfOk how (λ t. t.0.ticket.0 < 2 ^ 63) }
    ensures { result ≡ answer_called how }
{
    match how {
        Ok((job, end)) => answer_of(number(job.ticket), job.chapter, Ok(end)),
        Err(why) => refusal(why),
    }
}

/// As `answer_of`, of the job that a worker had ended, if it had one.
pub(crate) fn brought(job: Option<Job>, how: Result<End, Refused>) -> Answer
    requires { IfSome job (λ j. OnOk how (j.ticket.0 < 2 ^ 63)) }
    ensures { result ≡ answer_brought job how }
{
    match (job, how) {
        (Some(job), Ok(end)) => answer_of(number(job.ticket), job.chapter, Ok(end)),
        (Some(_), Err(why)) => refusal(why),
        (None, _) => refusal(Refused::NotEnded),
    }
}

/// How a task stands: 0 done, with the number of its entry; 1 parked; 4 given up; 13 ready; 14 running.
pub(crate) fn stands(ticket: i64, chapter: u64, how: Option<Standing>) -> Answer
    ensures { result ≡ answer_standing ticket chapter how }
{
    match how {
        Some(Standing::Ready) => about(ticket, chapter, READY),
        Some(Standing::Running) => about(ticket, chapter, RUNNING),
        Some(Standing::Parked) => about(ticket, chapter, RETRIES),
        Some(Standing::Done(number)) => Answer {
            ticket,
            code: 0,
            value: 0,
            chapter,
            entry: number,
            place: 0,
        },
        Some(Standing::GivenUp) => about(ticket, chapter, GIVEN_UP),
        None => refusal(Refused::Gone),
    }
}

/// What the entry of a task that stands so records; 12 where the journal has none.
pub(crate) fn recorded(
    ticket: i64,
    chapter: u64,
    how: Option<Standing>,
    outcome: Option<Outcome>,
) -> Answer
    ensures { result ≡ answer_outcome ticket chapter how outcome }
{
    match (how, outcome) {
        (Some(Standing::Done(number)), Some(outcome)) => {
            by_entry(ticket, chapter, Entered { number, outcome })
        }
        (Some(_), _) => about(ticket, chapter, NO_ENTRY),
        (None, _) => refusal(Refused::Gone),
    }
}

/// How a call would end; else why that is not known.
pub(crate) fn observed(how: Result<Outcome, Refused>) -> Answer
    ensures { result ≡ answer_observed how }
{
    match how {
        Ok(outcome) => Answer {
            ticket: -1,
            code: code_of_outcome(outcome),
            value: value_of_outcome(outcome),
            chapter: 0,
            entry: 0,
            place: 0,
        },
        Err(why) => refusal(why),
    }
}
