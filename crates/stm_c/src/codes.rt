//! What the calls answer in numbers: 0 or more where they did what they are for, else why not.

ghost use Rattle.std.specs.Prelude.{◌≡◌, ◌≢◌, ◌<◌, ◌^◌, IfOk, pos, negsuc};
ghost use Rattle.stm_c.specs.Numbers.{IsFileFault, code_of_outcome, number_of_done, number_of_fault, number_of_part};
ghost use Rattle.stm_c.specs.Numbers.{number_of_refused, number_of_schedule_fault, number_of_ticket, ticket_told};
ghost use Rattle.stm_c.specs.Numbers.{value_of_outcome, way_told};

use checker::Part;
use stm_store::{Refused, Ticket, Way};
use txn::{Fault, Outcome};
use txn_text::ReadFault;

/// The file would be longer than a file may be.
pub(crate) const FILE_TOO_LONG: i32 = -1;
/// Out of memory.
pub(crate) const MEMORY: i32 = -6;
/// The room is too short; how long it has to be was written.
pub(crate) const SHORT: i32 = -8;
/// There is no such transaction, variable, table or cell; or the transaction has another number of parameters.
pub(crate) const UNKNOWN: i32 = -9;
/// More workers than a store can have, or than it was opened for; or no transaction to work on.
pub(crate) const NO_WORKER: i32 = -10;
/// The worker has no ended attempt to bring.
pub(crate) const NOT_ENDED: i32 = -11;
/// The handle is empty.
pub(crate) const EMPTY: i32 = -12;
/// The handle that is to hold what is made holds something.
pub(crate) const FULL: i32 = -13;
/// There is no room for another task; or there would be more tasks than there may be.
pub(crate) const NO_ROOM: i32 = -14;
/// A task is ready or running, and the report could not account for it.
pub(crate) const WORK_LEFT: i32 = -15;
/// The number of states to look at is not from 1 to 16,777,216.
pub(crate) const STATES: i32 = -16;
/// The worker is of a program that says otherwise of the transaction.
pub(crate) const OTHER_PROGRAM: i32 = -17;
/// The present chapter has no such task any more, or there never was one.
pub(crate) const GONE: i32 = -18;
/// The service is closed.
pub(crate) const CLOSED: i32 = -19;
/// The time of the call is up.
pub(crate) const TIMED_OUT: i32 = -20;
/// No task is ready, or the one that is wanted is not.
pub(crate) const NOT_READY: i32 = -26;
/// The program retries: the task is parked, or a call was not made.
pub(crate) const RETRIES: i32 = 1;
/// What was read is no longer so.
pub(crate) const STALE: i32 = 2;
/// The task is not running.
pub(crate) const NOT_RUNNING: i32 = 3;
/// The task is given up.
pub(crate) const GIVEN_UP: i32 = 4;
/// More states are reached than were asked for.
pub(crate) const MORE: i32 = 9;
/// There is no end of that number.
pub(crate) const NO_END: i32 = 10;
/// The journal has no entry of the task.
pub(crate) const NO_ENTRY: i32 = 12;
/// The chapter has no room for another task, and is to end first.
pub(crate) const CHAPTER_FULL: i32 = 17;
/// The task is ready.
pub(crate) const READY: i32 = 13;
/// The task is running.
pub(crate) const RUNNING: i32 = 14;

/// Why a file is refused. Never 0.
pub(crate) fn file_fault(fault: ReadFault) -> i32
    ensures never { result ≢ pos 0 }
    ensures room { result ≢ SHORT }
    ensures among { IsFileFault result }
    ensures number { result ≡ number_of_fault fault }
{
    match fault {
        ReadFault::TooLong => -1,
        ReadFault::BadByte => -2,
        ReadFault::Shape => -3,
        ReadFault::Name => -4,
        ReadFault::Limit => -5,
        ReadFault::Memory => MEMORY,
        ReadFault::Broken => -7,
    }
}

/// Why a schedule is refused. Never 0.
pub(crate) fn schedule_fault(fault: ReadFault) -> i32
    ensures never { result ≢ pos 0 }
    ensures room { result ≢ SHORT }
    ensures number { result ≡ number_of_schedule_fault fault }
{
    match fault {
        ReadFault::TooLong => -21,
        ReadFault::BadByte => -22,
        ReadFault::Shape => -23,
        ReadFault::Name => -24,
        ReadFault::Limit => -25,
        ReadFault::Memory => MEMORY,
        ReadFault::Broken => -27,
    }
}

/// The part of a report that does not hold. Never 0.
pub(crate) fn bad_part(part: Part) -> i32
    ensures never { result ≢ pos 0 }
    ensures number { result ≡ number_of_part part }
{
    match part {
        Part::Text => 101,
        Part::Base => 102,
        Part::Entries => 103,
        Part::Present => 104,
        Part::Tasks => 105,
        Part::Parked => 106,
    }
}

/// Why a call of a store did nothing. Never 0.
pub(crate) fn code_of(why: Refused) -> i32
    ensures never { result ≢ pos 0 }
    ensures number { result ≡ number_of_refused why }
{
    match why {
        Refused::Unknown => UNKNOWN,
        Refused::Gone => GONE,
        Refused::NotReady => NOT_READY,
        Refused::NotRunning => NOT_RUNNING,
        Refused::NotEnded => NOT_ENDED,
        Refused::OtherProgram => OTHER_PROGRAM,
        Refused::Stale => STALE,
        Refused::NoRoom => NO_ROOM,
        Refused::Retries => RETRIES,
        Refused::Memory => MEMORY,
        Refused::Closed => CLOSED,
        Refused::TimedOut => TIMED_OUT,
    }
}

/// 0 done, else why not.
pub(crate) fn done(how: Result<(), Refused>) -> i32
    ensures { result ≡ number_of_done how }
{
    match how {
        Ok(()) => 0,
        Err(why) => code_of(why),
    }
}

/// 0 returned; 1 retries; 5 thrown by the program; 6 overflow; 7 division by zero; 8 a standing condition broken;
/// 16 a cell outside its table.
pub(crate) fn code_of_outcome(outcome: Outcome) -> i32
    ensures { result ≡ code_of_outcome outcome }
{
    match outcome {
        Outcome::Returned(_) => 0,
        Outcome::Retries => RETRIES,
        Outcome::Thrown(Fault::User(_)) => 5,
        Outcome::Thrown(Fault::Overflow) => 6,
        Outcome::Thrown(Fault::DivideByZero) => 7,
        Outcome::Thrown(Fault::Broken(_)) => 8,
        Outcome::Thrown(Fault::Outside) => 16,
    }
}

/// What was returned or thrown, or the number of the condition; else 0.
pub(crate) fn value_of_outcome(outcome: Outcome) -> i64
    ensures { result ≡ value_of_outcome outcome }
{
    match outcome {
        Outcome::Returned(value) => value,
        Outcome::Retries => 0,
        Outcome::Thrown(Fault::User(value)) => value,
        Outcome::Thrown(Fault::Overflow) => 0,
        Outcome::Thrown(Fault::DivideByZero) => 0,
        Outcome::Thrown(Fault::Broken(condition)) => i64::from(condition.0),
        Outcome::Thrown(Fault::Outside) => 0,
    }
}

/// The number of a ticket.
pub(crate) fn number(ticket: Ticket) -> i64
    requires { ticket.0 < 2 ^ 63 }
    ensures { result ≡ number_of_ticket ticket }
{
    ticket.0 as i64
}

/// The ticket of a task that was submitted, or why none was.
pub(crate) fn submitted(ticket: Result<Ticket, Refused>) -> i64
    requires { IfOk ticket (λ t. t.0 < 2 ^ 63) }
    ensures { result ≡ ticket_told ticket }
{
    match ticket {
        Ok(ticket) => number(ticket),
        Err(why) => i64::from(code_of(why)),
    }
}

/// A call waits where the number is 0, else it is a try.
pub(crate) fn way_of(way: u32) -> Way
    ensures { result ≡ way_told way }
{
    match way {
        0 => Way::Waits,
        _ => Way::Tries,
    }
}
