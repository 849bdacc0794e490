//! A chapter that ended, as a handle: its number and its texts, for one thread at a time.

ghost use Rattle.std.specs.Prelude.{◌≡◌, ◌≢◌, ◌⊎◌, None, pos};
ghost use Rattle.stm_c.specs.EndedTexts.{IsFileOfEnded, IsReportOfEnded, IsTooLongFor};
ghost use Rattle.stm_c.specs.Held.{Asked};
ghost use Rattle.stm_c.specs.Rooms.{Holds, TooShort};

use crate::codes::{EMPTY, FILE_TOO_LONG, SHORT};
use crate::ended_handle::EndedHandle;
use crate::writing::copy;
use std::alloc::Global;
use stm_desk::Ended;

/// The number of the chapter. 0 of an empty handle.
#[unsafe(no_mangle)]
pub extern "C" fn stm_ended_chapter(ended: &mut EndedHandle) -> u64
    ensures value { Asked ended.old.value 0 result (λ held n. n ≡ held.chapter) }
    ensures stays { ended.new.value ≡ ended.old.value }
{
    let Some(held) = ended.get_mut() else {
        return 0;
    };
    held.chapter
}

/// Copies the chapter's file into the room: 0, and `wanted` is how long it is. -1: it would be longer than a file may
/// be;
/// -8: the room is too short, and `wanted` is how much is needed; -12: the handle is empty.
#[unsafe(no_mangle)]
pub extern "C" fn stm_ended_file(
    ended: &mut EndedHandle,
    room: &mut [u8],
    wanted: &mut usize,
) -> i32
    ensures done { Asked ended.old.value EMPTY result
        (λ held answer. answer ≡ pos 0 → Holds (IsFileOfEnded held) room.old room.new wanted.new) }
    ensures too_short { Asked ended.old.value EMPTY result
        (λ held answer. answer ≡ SHORT → TooShort (IsFileOfEnded held) room.old room.new wanted.new) }
    ensures long { Asked ended.old.value EMPTY result
        (λ held answer. answer ≡ FILE_TOO_LONG → IsTooLongFor held) }
    ensures answers { Asked ended.old.value EMPTY result
        (λ held answer. (answer ≡ pos 0) ⊎ (answer ≡ SHORT) ⊎ (answer ≡ FILE_TOO_LONG)) }
    ensures none { result ≢ pos 0 → result ≢ SHORT → wanted.new ≡ 0 }
    ensures kept { result ≢ pos 0 → room.new ≡ room.old }
    ensures stays { ended.new.value ≡ ended.old.value }
{
    *wanted = 0;
    let Some(held) = ended.get_mut() else {
        return EMPTY;
    };
    file_of(held, room, wanted)
}

fn file_of(ended: &Ended, room: &mut [u8], wanted: &mut usize) -> i32
    ensures done { result ≡ pos 0 → Holds (IsFileOfEnded ended.now) room.old room.new wanted.new }
    ensures too_short { result ≡ SHORT → TooShort (IsFileOfEnded ended.now) room.old room.new wanted.new }
    ensures long { result ≡ FILE_TOO_LONG → IsTooLongFor ended.now }
    ensures answers { (result ≡ pos 0) ⊎ (result ≡ SHORT) ⊎ (result ≡ FILE_TOO_LONG) }
    ensures none { result ≢ pos 0 → result ≢ SHORT → wanted.new ≡ wanted.old }
    ensures kept { result ≢ pos 0 → room.new ≡ room.old }
{
    match &ended.file {
        Ok(text) => copy(text.as_bytes(), room, wanted),
        Err(_) => FILE_TOO_LONG,
    }
}

/// Copies the chapter's report into the room: 0, and `wanted` is how long it is. -8: the room is too short, and
/// `wanted` is how much is needed; -12: the handle is empty.
#[unsafe(no_mangle)]
pub extern "C" fn stm_ended_report(
    ended: &mut EndedHandle,
    room: &mut [u8],
    wanted: &mut usize,
) -> i32
    ensures done { Asked ended.old.value EMPTY result
        (λ held answer. answer ≡ pos 0 → Holds (IsReportOfEnded held) room.old room.new wanted.new) }
    ensures too_short { Asked ended.old.value EMPTY result
        (λ held answer. answer ≡ SHORT → TooShort (IsReportOfEnded held) room.old room.new wanted.new) }
    ensures answers { Asked ended.old.value EMPTY result
        (λ held answer. (answer ≡ pos 0) ⊎ (answer ≡ SHORT)) }
    ensures none { result ≢ pos 0 → result ≢ SHORT → wanted.new ≡ 0 }
    ensures kept { result ≢ pos 0 → room.new ≡ room.old }
    ensures stays { ended.new.value ≡ ended.old.value }
{
    *wanted = 0;
    let Some(held) = ended.get_mut() else {
        return EMPTY;
    };
    copy(held.report.as_bytes(), room, wanted)
}

/// Lets a chapter go; its handle is empty afterwards. An empty one stays so.
#[unsafe(no_mangle)]
pub extern "C" fn stm_ended_free(alloc: Global, ended: &mut EndedHandle)
    ensures { ended.new.value ≡ None }
{
    drop(ended.take(alloc));
}
