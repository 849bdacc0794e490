//! Steps of a history.

ghost use Rattle.std.specs.Prelude.{◌≡◌, ◌<◌, ◌+◌, ◌^◌, ◌++◌, ◌∷◌, []};
ghost use Rattle.stm_desk.specs.Asking.{answer_of, call_of};
ghost use Rattle.stm_desk.specs.Settling.{Settles};

use crate::answers::{Answer, Became};
use crate::waiters::Waiters;
use ghost_log::Log;
use stm_store::{End, Entered, Job, Refused, Ticket};
use txn::Call;

/// Adds what became of a task to the history.
#[inline(always)]
pub(crate) fn note(
    history: &mut Log<Ticket, Became>,
    places: &mut u64,
    ticket: Ticket,
    what: &Became,
)
    requires { places.old + 1 < 2 ^ 64 }
    ensures history { history.new.items ≡ history.old.items ++ (ticket, what.now) ∷ [] }
    ensures places { places.new ≡ places.old + 1 }
{
    *history = history.and(&ticket, what);
    *places += 1;
}

/// The call that the task of the job makes.
pub(crate) fn call_of(job: &Job) -> Call
    ensures { result ≡ call_of job.now }
{
    Call {
        tx: job.tx,
        arguments: job.arguments,
    }
}

/// What is told of the job's task, which was entered at this place.
pub(crate) fn answer_of(job: &Job, entered: &Entered, place: u64) -> Answer
    ensures { result ≡ answer_of job.now entered.now place }
{
    Answer {
        ticket: job.ticket,
        outcome: entered.outcome,
        chapter: job.chapter,
        entry: entered.number,
        place,
    }
}

/// What a turn made of the job's task is noted, and told to whoever waits for it. Where it was parked nothing is.
pub(crate) fn settle(
    history: &mut Log<Ticket, Became>,
    places: &mut u64,
    waiters: &mut Waiters,
    job: &Job,
    end: &End,
)
    requires { places.old + 1 < 2 ^ 64 }
    ensures { Settles (history.old.items, places.old, waiters.old) job.now end.now
        (history.new.items, places.new, waiters.new) }
{
    match end {
        End::Entered(entered) => {
            let answer = answer_of(job, entered, *places);
            let what = Became::Entered(call_of(job), entered.outcome);
            note(history, places, job.ticket, &what);
            waiters.tell(job.ticket, Ok(answer));
        }
        End::Abandoned => {
            note(history, places, job.ticket, &Became::Left);
            waiters.tell(job.ticket, Err(Refused::Memory));
        }
        End::Parked => {}
    }
}
