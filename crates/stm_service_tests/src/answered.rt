//! What a thread does, and what it was answered.

use stm_service::{Answer, Refused};
use txn::{Fault, Outcome, TxId};

/// What a thread does.
#[derive(Clone, Copy)]
pub(crate) enum Step {
    /// Calls so often, and waits each time.
    Calls(TxId, u32),
    /// Calls so often, and never waits.
    Tries(TxId, u32),
    /// Calls so often, the first time with no time, and each other time with so many microseconds more.
    Within(u64, TxId, u32),
    /// Calls once, with this argument.
    Gives(TxId, i64),
    /// Makes each kind of call with this argument.
    GivesEach(TxId, i64),
    /// Calls once each, the second by whoever was shown what the first had seen.
    Both(TxId, TxId),
    /// Goes on when so many tasks wait.
    UntilWaiting(usize),
    Closes,
    /// Closes the service, and asks for its file and its report: notes how many entries came of that.
    ClosesAndAsks,
    /// Calls with this argument, so often.
    GivesOften(TxId, i64, u32),
    /// Calls with this argument, until a call is refused; then it closes the service.
    GivesUntilRefused(TxId, i64),
    /// Takes so many chapters, one after another, and keeps them.
    Keeps(u32),
    /// Takes what ends and keeps nothing, until the service is closed: then it keeps the last.
    Declines(TxId, i64),
    /// Keeps all that ends, until the service is closed.
    KeepsAll,
}

/// What a thread was answered, or all of them.
#[derive(Clone, Copy, Debug, PartialEq, Eq)]
pub(crate) struct Answered {
    /// How many calls returned, and the sum of what they did.
    pub(crate) returned: i64,
    pub(crate) sum: i64,
    /// How many threw a value, and the sum of these.
    pub(crate) thrown: i64,
    pub(crate) sum_thrown: i64,
    pub(crate) closed: i64,
    pub(crate) no_room: i64,
    pub(crate) unknown: i64,
    pub(crate) retried: i64,
    pub(crate) timed_out: i64,
    pub(crate) others: i64,
    /// How many entries there were after the service was closed.
    pub(crate) late: i64,
    /// How many answers do not stand behind the thread's answer before.
    pub(crate) before: i64,
    /// How many chapters it kept; how many of them follow the one that it kept before, and of how many file and report
    /// are a pair.
    pub(crate) kept: i64,
    pub(crate) following: i64,
    pub(crate) good: i64,
    /// How often it was told a chapter that it did not keep.
    pub(crate) declined: i64,
    /// Why it was told no chapter more.
    pub(crate) untold: Option<Refused>,
    pub(crate) last: Option<u64>,
}

/// Nothing was answered.
pub(crate) const NOTHING: Answered = Answered {
    returned: 0,
    sum: 0,
    thrown: 0,
    sum_thrown: 0,
    closed: 0,
    no_room: 0,
    unknown: 0,
    retried: 0,
    timed_out: 0,
    others: 0,
    late: 0,
    before: 0,
    kept: 0,
    following: 0,
    good: 0,
    declined: 0,
    untold: None,
    last: None,
};

pub(crate) fn one_more(count: &mut i64) {
    *count = count.wrapping_add(1);
}

impl Answered {
    /// An answer more.
    pub(crate) fn note(&mut self, answer: Result<Answer, Refused>) {
        match answer {
            Ok(answer) => {
                self.note_place(answer.place);
                self.note_outcome(answer.outcome);
            }
            Err(why) => self.note_reason(why),
        }
    }

    fn note_place(&mut self, place: u64) {
        if matches!(self.last, Some(last) if last >= place) {
            one_more(&mut self.before);
        }
        self.last = Some(place);
    }

    fn note_outcome(&mut self, outcome: Outcome) {
        match outcome {
            Outcome::Returned(value) => {
                one_more(&mut self.returned);
                self.sum = self.sum.wrapping_add(value);
            }
            Outcome::Thrown(Fault::User(value)) => {
                one_more(&mut self.thrown);
                self.sum_thrown = self.sum_thrown.wrapping_add(value);
            }
            _ => one_more(&mut self.others),
        }
    }

    fn note_reason(&mut self, why: Refused) {
        match why {
            Refused::Closed => one_more(&mut self.closed),
            Refused::NoRoom => one_more(&mut self.no_room),
            Refused::Unknown => one_more(&mut self.unknown),
            Refused::Retries => one_more(&mut self.retried),
            Refused::TimedOut => one_more(&mut self.timed_out),
            _ => one_more(&mut self.others),
        }
    }

    /// What another thread was answered too.
    pub(crate) fn add(&mut self, other: &Answered) {
        self.returned = self.returned.wrapping_add(other.returned);
        self.sum = self.sum.wrapping_add(other.sum);
        self.thrown = self.thrown.wrapping_add(other.thrown);
        self.sum_thrown = self.sum_thrown.wrapping_add(other.sum_thrown);
        self.closed = self.closed.wrapping_add(other.closed);
        self.no_room = self.no_room.wrapping_add(other.no_room);
        self.unknown = self.unknown.wrapping_add(other.unknown);
        self.retried = self.retried.wrapping_add(other.retried);
        self.timed_out = self.timed_out.wrapping_add(other.timed_out);
        self.others = self.others.wrapping_add(other.others);
        self.late = self.late.wrapping_add(other.late);
        self.before = self.before.wrapping_add(other.before);
        self.kept = self.kept.wrapping_add(other.kept);
        self.following = self.following.wrapping_add(other.following);
        self.good = self.good.wrapping_add(other.good);
        self.declined = self.declined.wrapping_add(other.declined);
        self.untold = self.untold.or(other.untold);
        self.last = None;
    }
}
