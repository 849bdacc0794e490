//! What a run in place wrote, as the writes of a commit.

ghost use Rattle.std.specs.Prelude.{◌≡◌, ◌<◌, ◌≤◌, ℕ, length, map, All, Contains, OnOk};
ghost use Rattle.std.specs.List.Sorted.{IsStrictlySortedBy};
ghost use Rattle.std.specs.Ordering.{nat_cmp};
ghost use Rattle.txn_programs.specs.declared.limits.TheConstants.{MAX_VALUES};
ghost use Rattle.txn_evaluator.specs.Notes.{AreInside};
ghost use Rattle.book.specs.Written.{TellNoted, place_of, write_at};

use std::alloc::{AllocError, Global};
use txn::VarId;
use txn_evaluator::notes::Note;

/// So many writes of a run take no memory.
const FEW: usize = 64;

/// What a run noted, and what it wrote, in room that is kept from one run to the next. A run that writes more often
/// than one before it takes more.
#[derive(Drop)]
pub struct Written {
    /// The notes of the run.
    pub notes: Vec<Note>,
    /// The places that were noted.
    places: Vec<u32>,
    /// Each place with the value that the run left there.
    pub writes: Vec<(VarId, i64)>,
}

impl Written {
    /// Nothing is written, and there is room for a few writes.
    pub fn new(alloc: Global) -> Result<Written, AllocError> {
        Ok(Written {
            notes: Vec::with_capacity(alloc, FEW)?,
            places: Vec::with_capacity(alloc, FEW)?,
            writes: Vec::with_capacity(alloc, FEW)?,
        })
    }

    /// Lists the noted places with their values, ascending, each once.
    pub fn list(&mut self, values: &[i64]) -> Result<(), AllocError>
        requires inside { AreInside (length values.now) self.old.notes.items }
        requires few { length values.now ≤ MAX_VALUES }
        ensures notes { self.new.notes.items ≡ self.old.notes.items }
        ensures listed { OnOk result (TellNoted self.old.notes.items values.now self.new.writes.items) }
    {
        list_places(&self.notes, &mut self.places)?;
        put_in_order(&mut self.places);
        list_writes(&self.places, values, &mut self.writes)
    }
}

/// Lists the places that were noted, in the order of the notes.
fn list_places(notes: &[Note], places: &mut Vec<u32>) -> Result<(), AllocError>
    requires { AreInside MAX_VALUES notes.now }
    ensures { OnOk result (places.new.items ≡ map place_of notes.now) }
{
    places.clear();
    for note in notes {
        places.push(note.place as u32)?;
    }
    Ok(())
}

/// The places ascending, each once. It takes no memory.
fn put_in_order(places: &mut Vec<u32>)
    ensures ascending { IsStrictlySortedBy nat_cmp places.new.items }
    ensures all { (x : ℕ) → Contains places.old.items x → Contains places.new.items x }
    ensures known { (n : ℕ) → All (λ x. x < n) places.old.items → All (λ x. x < n) places.new.items }
{
    places.sort_unstable();
    places.dedup();
}

/// Lists each place with its value.
fn list_writes(
    places: &[u32],
    values: &[i64],
    writes: &mut Vec<(VarId, i64)>,
) -> Result<(), AllocError>
    requires { All (λ x. x < length values.now) places.now }
    ensures { OnOk result (writes.new.items ≡ map (write_at values.now) places.now) }
{
    writes.clear();
    for place in places {
        writes.push((VarId(*place), values[*place as usize]))?;
    }
    Ok(())
}
