//! Where bytes stop being the beginning of a schedule.

ghost use Rattle.std.specs.Prelude.{◌≡◌, ◌≤◌, ◌+◌, ◌-◌, true, length};
ghost use Rattle.explain_schedules.specs.Words.{lacks};
ghost use Rattle.explain_schedules.specs.Places.{IsStop};
ghost use Rattle.explain_schedules.specs.Walking.{IsWalked};

use crate::line::{Wanted, line_of, split_once};

/// Where bytes stop being the beginning of a schedule.
#[derive(Clone, Copy)]
pub(crate) struct Stop {
    pub place: usize,
    pub wanted: Wanted,
}

/// How many bytes stand before the rest.
pub(crate) fn gone(bytes: &[u8], rest: &[u8]) -> usize
    requires { length rest.now ≤ length bytes.now }
    ensures { result + length rest.now ≡ length bytes.now }
{
    bytes.len() - rest.len()
}

/// The place of the first word that is none of a schedule's there, or of the end, where what is
/// missing there is a newline. Where `cells` is true, lines may name cells.
pub(crate) fn first_stop(bytes: &[u8], cells: bool) -> Stop
    ensures stop { IsStop cells bytes.now result.place result.wanted }
    ensures bound { result.place ≤ length bytes.now }
{
    let mut rest = bytes;
    'lines: while let Some((line, after)) = split_once(rest, b'\n') {
        if let Err(wrong) = line_of(line, cells) {
            return Stop {
                place: gone(bytes, rest) + wrong.at,
                wanted: wrong.wanted,
            };
        }
        rest = after;
    }
    last_stop(bytes, rest, cells)
}

/// The same, where no newline is left.
fn last_stop(bytes: &[u8], rest: &[u8], cells: bool) -> Stop
    requires walked { IsWalked cells bytes.now rest.now }
    requires ends { lacks 10 rest.now ≡ true }
    ensures stop { IsStop cells bytes.now result.place result.wanted }
    ensures bound { result.place ≤ length bytes.now }
{
    match line_of(rest, cells) {
        Ok(_) => Stop {
            place: bytes.len(),
            wanted: Wanted::Newline,
        },
        Err(wrong) => Stop {
            place: gone(bytes, rest) + wrong.at,
            wanted: wrong.wanted,
        },
    }
}
