//! Rows of tests: what threads do side by side, and what they are answered.

use crate::answered::{Answered, NOTHING, Step};
use crate::played::{Ended, Opening, played};
use std::alloc::Global;
use std::process::Abort;
use std::sync::Wait;
use std::thread::Threads;
use std::time::Clock;

/// What threads do, and what is wanted of it.
#[derive(Clone, Copy)]
pub(crate) struct Row {
    pub(crate) name: &'static str,
    pub(crate) opening: Opening,
    pub(crate) threads: &'static [&'static [Step]],
    pub(crate) wanted: Wanted,
}

/// What is wanted of a row.
#[derive(Clone, Copy)]
pub(crate) enum Wanted {
    /// So many calls return, with this sum, and nothing else is answered or entered.
    Returns(i64, i64),
    /// All threads together are answered this, and so many were entered.
    Exactly(Answered, u64),
    /// They are answered this, and this is the number of the present chapter.
    Chapters(Answered, u64),
    /// They are answered this, and this is the report.
    Reports(Answered, &'static str),
    /// Each call of so many returns the number of its own entry, or is told why there is none.
    Numbered(i64),
}

/// The sum of the numbers from 1 to this one.
pub(crate) fn sum_to(last: i64) -> i64 {
    last.wrapping_mul(last.wrapping_add(1)).wrapping_div(2)
}

/// Whether all that came of it is as wanted.
fn is_wanted(ended: &Ended, wanted: Wanted) -> bool {
    let all = ended.all();
    match wanted {
        Wanted::Returns(returned, sum) => {
            let answered = Answered {
                returned,
                sum,
                ..NOTHING
            };
            all == answered && ended.entered.cast_signed() == returned
        }
        Wanted::Exactly(answered, entered) => all == answered && ended.entered == entered,
        Wanted::Chapters(answered, chapter) => all == answered && ended.chapter == chapter,
        Wanted::Reports(answered, report) => all == answered && ended.report.as_str() == report,
        Wanted::Numbered(calls) => {
            let refused = all.closed.wrapping_add(all.timed_out);
            all.returned.wrapping_add(refused) == calls
                && all.sum == sum_to(all.returned)
                && ended.entered.cast_signed() == all.returned
                && all.late == 0
                && all.before == 0
        }
    }
}

/// The first row of which something else came than is wanted.
pub(crate) fn wrong<R: Threads + Wait + Clock + Abort + Sync>(
    rt: &R,
    alloc: Global,
    rows: &[Row],
) -> Option<&'static str> {
    for row in rows {
        let ended = played(rt, alloc, row.opening, row.threads);
        if !is_wanted(&ended, row.wanted) {
            return Some(row.name);
        }
    }
    None
}
