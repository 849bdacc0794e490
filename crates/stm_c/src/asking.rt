//! Calls on a desk, as a handle: under the host's lock.

ghost use Rattle.std.specs.Prelude.{◌≡◌, None, pos};
ghost use Rattle.stm_c.specs.Answers.{nothing_held};
ghost use Rattle.stm_c.specs.ByTicket.{OnTicket};
ghost use Rattle.stm_c.specs.DeskAnswers.{nothing_told};
ghost use Rattle.stm_c.specs.DeskCalls.{AsksFor, Closes, LeavesTicket, TellsEndOf, TellsNext, call_with};
ghost use Rattle.stm_c.specs.Held.{On};

use crate::answers::{Answer, empty, observed};
use crate::codes::{EMPTY, GONE, done, way_of};
use crate::desk_answers::{AnswerTo, asked, lend_job, nothing_told, told};
use crate::desk_handle::DeskHandle;
use crate::jobs::Taken;
use crate::tasks::ticket_of;
use stm_desk::Desk;
use txn::TxId;

/// A call: a task of its own, which has its turn at once; then all that it woke have theirs. How it ended, with the
/// place of its entry. 1 with a ticket: it waits; 1 with the ticket -1: a try retries, and nothing was entered. 14: it
/// is long, and its task runs: `job` has its job, which the host evaluates. 17: the chapter has no room, and is to end
/// before it is asked again. -19: the desk is closed; -9: there is no such transaction, or it wants another number of
/// arguments; -14: no room; -6: out of memory; -12: the handle is empty. `job` stays with any answer but 14.
#[unsafe(no_mangle)]
pub extern "C" fn stm_desk_ask(
    desk: &mut DeskHandle,
    tx: u32,
    arguments: &[i64],
    way: u32,
    whose: u64,
    job: &mut Taken,
) -> Answer
    ensures asked { On desk.old.value desk.new.value nothing_held result
        (λ old answer new. AsksFor old (call_with tx arguments.now) way whose job.old answer job.new new) }
    ensures kept { desk.old.value ≡ None → job.new ≡ job.old }
{
    let Some(held) = desk.get_mut() else {
        return empty();
    };
    ask(held, tx, arguments, way, whose, job)
}

fn ask(desk: &mut Desk, tx: u32, arguments: &[i64], way: u32, whose: u64, job: &mut Taken) -> Answer
    ensures { AsksFor desk.old (call_with tx arguments.now) way whose job.old result job.new desk.new }
{
    desk.store().law();
    let chapter = desk.store().chapter();
    let how = desk.ask(TxId(tx), arguments, way_of(way), whose);
    lend_job(&how, job);
    asked(chapter, &how)
}

/// How a call of the transaction would end on the present values: nothing is entered, and nothing changes. 1: it
/// retries. -19: the desk is closed; -9: there is no such transaction, or it wants another number of arguments;
/// -6: out of memory; -12: the handle is empty.
#[unsafe(no_mangle)]
pub extern "C" fn stm_desk_outcome_now(desk: &mut DeskHandle, tx: u32, arguments: &[i64]) -> Answer
    ensures { On desk.old.value desk.new.value nothing_held result
        (λ old answer new. TellsEndOf old tx arguments.now answer new) }
{
    let Some(held) = desk.get_mut() else {
        return empty();
    };
    outcome_now(held, tx, arguments)
}

fn outcome_now(desk: &mut Desk, tx: u32, arguments: &[i64]) -> Answer
    ensures { TellsEndOf desk.old tx arguments.now result desk.new }
{
    observed(desk.outcome_now(TxId(tx), arguments))
}

/// What became of a call that waited, and whose it is: it is told once. -26, and nobody's: nothing is to be told. -12:
/// the handle is empty.
#[unsafe(no_mangle)]
pub extern "C" fn stm_desk_next_told(desk: &mut DeskHandle) -> AnswerTo
    ensures { On desk.old.value desk.new.value nothing_told result (λ old answer new. TellsNext old answer new) }
{
    let Some(held) = desk.get_mut() else {
        return nothing_told();
    };
    next_told(held)
}

fn next_told(desk: &mut Desk) -> AnswerTo
    ensures { TellsNext desk.old result desk.new }
{
    desk.law();
    desk.store().law();
    told(desk.told())
}

/// Whoever waits with the ticket does so no longer: 0, and the task is given up. -18, and no change: nobody waits so.
/// -12: the handle is empty.
#[unsafe(no_mangle)]
pub extern "C" fn stm_desk_leave(desk: &mut DeskHandle, ticket: i64) -> i32
    ensures { On desk.old.value desk.new.value EMPTY result
        (λ old answer new. OnTicket ticket GONE answer old new (LeavesTicket old answer new)) }
{
    let Some(held) = desk.get_mut() else {
        return EMPTY;
    };
    leave(held, ticket)
}

fn leave(desk: &mut Desk, ticket: i64) -> i32
    ensures { OnTicket ticket GONE result desk.old desk.new (LeavesTicket desk.old result desk.new) }
{
    match ticket_of(ticket) {
        Some(ticket) => done(desk.leave(ticket)),
        None => GONE,
    }
}

/// Each call that waits is told that the desk is closed, and nothing is entered from now on: 0. -12: the handle is
/// empty.
#[unsafe(no_mangle)]
pub extern "C" fn stm_desk_close(desk: &mut DeskHandle) -> i32
    ensures { On desk.old.value desk.new.value EMPTY result
        (λ old answer new. (answer ≡ pos 0) × Closes old new) }
{
    let Some(held) = desk.get_mut() else {
        return EMPTY;
    };
    held.close();
    0
}
