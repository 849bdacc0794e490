//! A job as C holds it.

ghost use Rattle.std.specs.Prelude.{◌≡◌, ◌<◌, ◌≤◌, ◌^◌, IfOk, Ok, length};
ghost use Rattle.txn_programs.specs.declared.limits.TheConstants.{MAX_PARAMETERS};
ghost use Rattle.stm_c.specs.Jobs.{IsJobTold, in_places, no_task_of, taken_as};

use crate::codes::{code_of, number};
use stm_store::{Job, Refused, Ticket};
use txn::limits::MAX_PARAMETERS;
use txn::{Arguments, TaskId, TxId};

/// A task that was taken: its ticket, or why there is none; in which chapter, its number there, and the call that
/// it makes: its transaction, and so many arguments, with 0 behind them.
#[repr(C)]
#[derive(Clone, Copy)]
pub struct Taken {
    pub ticket: i64,
    pub chapter: u64,
    pub task: u32,
    pub tx: u32,
    pub count: usize,
    pub arguments: [i64; MAX_PARAMETERS],
}

/// No job, and why.
pub(crate) fn no_job(why: i32) -> Taken
    ensures { result ≡ no_task_of why }
{
    Taken {
        ticket: i64::from(why),
        chapter: 0,
        task: 0,
        tx: 0,
        count: 0,
        arguments: [0; MAX_PARAMETERS],
    }
}

/// A job, or why there is none.
pub(crate) fn taken_as(job: Result<Job, Refused>) -> Taken
    requires { IfOk job (λ j. j.ticket.0 < 2 ^ 63) }
    ensures { result ≡ taken_as job }
{
    match job {
        Ok(job) => in_c(job),
        Err(why) => no_job(code_of(why)),
    }
}

/// A job, with its arguments at the begin of their places.
fn in_c(job: Job) -> Taken
    requires { job.ticket.0 < 2 ^ 63 }
    ensures { result ≡ taken_as (Ok job) }
{
    Taken {
        ticket: number(job.ticket),
        chapter: job.chapter,
        task: job.task.0,
        tx: job.tx.0,
        count: job.arguments.as_slice().len(),
        arguments: in_places(job.arguments.as_slice()),
    }
}

fn in_places(given: &[i64]) -> [i64; MAX_PARAMETERS]
    requires { length given.now ≤ MAX_PARAMETERS }
    ensures { result ≡ in_places given.now }
{
    let mut places = [0; MAX_PARAMETERS];
    places[..given.len()].copy_from_slice(given);
    places
}

/// The job that a host tells. `None` where no task has such a ticket, or no call so many arguments.
pub(crate) fn job_of(told: &Taken) -> Option<Job>
    ensures { IsJobTold told.now result }
{
    if told.ticket < 0 || told.count > MAX_PARAMETERS {
        return None;
    }
    Some(Job {
        ticket: Ticket(told.ticket as u64),
        chapter: told.chapter,
        task: TaskId(told.task),
        tx: TxId(told.tx),
        arguments: Arguments::of(&told.arguments[..told.count]),
    })
}
