//! Notes of what a run wrote, by which it is undone.
//!
//! Each write notes its place with the value before. Undone from behind, the notes lead back to the state that
//! there was when the first of them was made, so that no state is copied for a run that may have to go back.

ghost use Rattle.std.specs.Prelude.{◌≡◌, ◌<◌, ◌≤◌, length, drop, take, slice_set, OnOk};
ghost use Rattle.txn_evaluator.specs.Notes.{undone, AreInside, LeadBack};

use std::alloc::AllocError;

/// Where in a state a value was written, and the value before.
#[derive(Clone, Copy)]
pub struct Note {
    pub place: usize,
    pub old: i64,
}

/// Writes the value at a place, and notes what it was. Where the notes have no room nothing is written.
pub(crate) fn write(
    state: &mut [i64],
    notes: &mut Vec<Note>,
    place: usize,
    v: i64,
) -> Result<(), AllocError>
    requires { place < length state.old }
    ensures written { OnOk result (state.new ≡ slice_set state.old place v) }
    ensures back { LeadBack notes.old.items state.old notes.new.items state.new }
{
    let old = state[place];
    notes.push(Note { place, old })?;
    state[place] = v;
    Ok(())
}

/// Puts the value from before back in its place.
fn put_back(state: &mut [i64], note: Note)
    requires { note.place < length state.old }
    ensures { state.new ≡ slice_set state.old note.place note.old }
{
    state[note.place] = note.old;
}

/// Undoes the writes that were noted since there were so many notes, the last one first, and forgets their notes.
pub fn undo(state: &mut [i64], notes: &mut Vec<Note>, height: usize)
    requires within { height ≤ length notes.old.items }
    requires inside { AreInside (length state.old) (drop height notes.old.items) }
    ensures state { state.new ≡ undone (drop height notes.old.items) state.old }
    ensures notes { notes.new.items ≡ take height notes.old.items }
{
    while notes.len() > height {
        match notes.pop() {
            Some(note) => put_back(state, note),
            None => unreachable!(),
        }
    }
}
