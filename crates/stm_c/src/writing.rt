//! Where a text goes: into the room that the host lends.

ghost use Rattle.std.specs.Prelude.{◌≡◌, ◌≢◌, ◌≤◌, ◌<◌, ◌++◌, ◌⊎◌, pos, drop, length};

use crate::codes::SHORT;

/// Copies the text to the begin of the room, where it fits; what is behind it stays. How long the
/// text is goes to `wanted` in any case.
pub(crate) fn copy(text: &[u8], room: &mut [u8], wanted: &mut usize) -> i32
    ensures wanted { wanted.new ≡ length text.now }
    ensures fits { length text.now ≤ length room.old → result ≡ pos 0 }
    ensures done { result ≡ pos 0 → room.new ≡ text.now ++ drop (length text.now) room.old }
    ensures too_short { length room.old < length text.now → (result ≡ SHORT) × (room.new ≡ room.old) }
    ensures answers { (result ≡ pos 0) ⊎ (result ≡ SHORT) }
    ensures why { result ≡ SHORT → (length room.old < length text.now) × (room.new ≡ room.old) }
{
    *wanted = text.len();
    if text.len() > room.len() {
        return SHORT;
    }
    room[..text.len()].copy_from_slice(text);
    0
}

/// As `copy`, but for the answer where the text was copied, which is this one.
pub(crate) fn copied_as(done: i32, text: &[u8], room: &mut [u8], wanted: &mut usize) -> i32
    ensures wanted { wanted.new ≡ length text.now }
    ensures fits { length text.now ≤ length room.old
        → (result ≡ done) × (room.new ≡ text.now ++ drop (length text.now) room.old) }
    ensures too_short { length room.old < length text.now → (result ≡ SHORT) × (room.new ≡ room.old) }
    ensures why { result ≢ done → (result ≡ SHORT) × (length room.old < length text.now) × (room.new ≡ room.old) }
{
    match copy(text, room, wanted) {
        0 => done,
        short => short,
    }
}
