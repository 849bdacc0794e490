//! Notes of what was before a write, by which a retry goes back.
//!
//! At each variable stands a hint: the place of its last note. A note keeps the hint that was before it,
//! so that going back restores that too.

ghost use Rattle.std.specs.Prelude.{◌≡◌, ◌≤◌, true, false, ℕ, drop, length, take};
ghost use Rattle.attempt_writes.specs.Known.{Known};
ghost use Rattle.attempt_writes.specs.Notes.{undone, AreHinted, AreInside, AreListed, AreNotedListed, HasNote, IsOther};

use txn_programs::VarId;

/// A variable that a live first branch wrote, its own write before, and the hint before.
#[derive(Clone, Copy)]
pub struct Note {
    pub x: VarId,
    pub earlier: u32,
    pub old: Option<i64>,
}

/// How many notes there is room for: a place is kept in 32 bits. No program has so many writes.
pub const MAX_NOTES: usize = 4_294_967_296;

/// Whether the note at a place is the variable's, and the place from `low` on and below `high`.
pub fn has_note(notes: &[Note], low: usize, high: usize, place: u32, x: VarId) -> bool
    ensures here { result ≡ true → HasNote low high notes.now x }
    ensures other { result ≡ false → IsOther low high notes.now place x }
{
    let place = place as usize;
    match notes.get(place) {
        Some(note) => low <= place && place < high && note.x.0 == x.0,
        None => false,
    }
}

/// Goes back in a table by the notes from `height` on, the last first, and drops them.
#[inline(always)]
pub fn undo(table: &mut [Option<i64>], notes: &mut Vec<Note>, noted: &mut [u32], height: usize)
    requires within { height ≤ length notes.old.items }
    requires inside { AreInside (length table.old) notes.old.items }
    requires hints { length noted.old ≡ length table.old }
    requires hinted { AreHinted 0 notes.old.items noted.old }
    ensures wide { length table.new ≡ length table.old }
    ensures hints { length noted.new ≡ length noted.old }
    ensures height { length notes.new.items ≡ height }
    ensures front { notes.new.items ≡ take height notes.old.items }
    ensures hinted { AreHinted 0 notes.new.items noted.new }
    ensures undone { (h : ℕ) → h ≤ height
        → undone (drop h notes.new.items) table.new ≡ undone (drop h notes.old.items) table.old }
    ensures noted { (pairs : Known) → AreNotedListed pairs notes.old.items → AreNotedListed pairs notes.new.items }
    ensures listed { (pairs : Known) → AreNotedListed pairs notes.old.items → AreListed pairs table.old
        → AreListed pairs table.new }
{
    while notes.len() > height {
        match notes.pop() {
            Some(note) => {
                let Note { x, earlier, old } = note;
                table[x.0 as usize] = old;
                noted[x.0 as usize] = earlier;
            }
            None => unreachable!(),
        }
    }
}
