//! How far the clock of a book's cells reaches.

ghost use Rattle.std.specs.Prelude.{◌≡◌, ◌≤◌, ◌-◌, min};
ghost use Rattle.book.specs.Chapters.{most_entries};

/// How many entries a life of a book can have: so far the clock of its cells counts.
const MOST_ENTRIES: u64 = 1 << 62;

/// The room of a chapter, as far as the clock reaches after so many entries.
pub fn reach(entered: u64, room: usize) -> usize
    requires { entered ≤ most_entries }
    ensures { result ≡ min room (most_entries - entered) }
{
    let left = MOST_ENTRIES - entered;
    if (room as u64) < left {
        room
    } else {
        left as usize
    }
}
