//! The own writes of far variables: those that have no place in a table of values.
//!
//! Each has a line, in the order of first writes, which a `NumberIndex` finds. A write in a live first
//! branch is noted, and a retry goes back by the notes, as in the table.

ghost use Rattle.std.specs.Prelude.{◌≡◌, ◌≢◌, ◌<◌, ◌≤◌, ◌++◌, ◌∷◌, [], None, Some, true, false};
ghost use Rattle.std.specs.Prelude.{ℕ, ℤ, List, Option};
ghost use Rattle.std.specs.Prelude.{◌+◌, vec_capacity, drop, length, slice_get, slice_set, IsOk, IfOk, OnOk, OnErr};
ghost use Rattle.attempt_writes.specs.FarWrites.{far_at, far_now, AreFar};
ghost use Rattle.attempt_writes.specs.Known.{known_at, write};
ghost use Rattle.attempt_writes.specs.Notes.{undone, value_in, AreHinted, AreInside, HasNote};
ghost use Rattle.attempt_writes.specs.NumberIndex.{IsAbsent};

use crate::note::{MAX_NOTES, Note, has_note, undo};
use crate::number_index::NumberIndex;
use crate::sorted_lines::{list_lines, put_in_front, sort_lines};
use std::alloc::{AllocError, Global};
use std::marker::Model;
use txn_programs::VarId;
use txn_programs::limits::{MAX_VALUES, MAX_VARIABLES};

/// Notes what a line's value was, unless no branch is live, or it is noted from `height` on, where the
/// innermost begins.
fn note_line(
    height: Option<usize>,
    notes: &mut Vec<Note>,
    noted: &mut [u32],
    line: VarId,
    old: Option<i64>,
) -> Result<(), AllocError>
    requires small { line.0 < length noted.old }
    requires hinted { AreHinted 0 notes.old.items noted.old }
    requires few { length notes.old.items ≤ MAX_NOTES }
    ensures hints { length noted.new ≡ length noted.old }
    ensures hinted { AreHinted 0 notes.new.items noted.new }
    ensures few { length notes.new.items ≤ MAX_NOTES }
    ensures inside { AreInside (length noted.old) notes.old.items → AreInside (length noted.old) notes.new.items }
    ensures more { length notes.old.items ≤ length notes.new.items }
    ensures ok { OnOk result ((h : ℕ) → (g : ℕ) → height ≡ Some g → h ≤ g → g ≤ length notes.old.items
        → (table : List (Option ℤ)) (v : ℤ) → line.0 < length table → value_in table line ≡ old
        → undone (drop h notes.new.items) (slice_set table line.0 (Some v)) ≡ undone (drop h notes.old.items) table) }
    ensures err { OnErr result (notes.new.items ≡ notes.old.items) }
    ensures again { (g : ℕ) → height ≡ Some g → HasNote g (length notes.old.items) notes.old.items line → IsOk result }
    ensures in_place { height ≡ None → IsOk result }
{
    let height = match height {
        Some(height) => height,
        None => return Ok(()),
    };
    let place = notes.len();
    let earlier = noted[line.0 as usize];
    if has_note(notes.as_slice(), height, place, earlier, line) {
        return Ok(());
    }
    if place == MAX_NOTES {
        return Err(AllocError);
    }
    notes.push(Note {
        x: line,
        earlier,
        old,
    })?;
    noted[line.0 as usize] = place as u32;
    Ok(())
}

/// One line more, with no value, for a variable that has none.
#[cold]
#[inline(never)]
fn add_line(
    numbers: &mut NumberIndex,
    table: &mut Vec<Option<i64>>,
    noted: &mut Vec<u32>,
    pairs: &mut Vec<(VarId, i64)>,
    x: VarId,
) -> Result<(), AllocError>
    requires known { x.0 < MAX_VALUES }
    requires new { IsAbsent numbers.old x.0 }
    ensures numbers { OnOk result (numbers.new ≡ numbers.old ++ x.0 ∷ []) }
    ensures table { OnOk result (table.new.items ≡ table.old.items ++ None ∷ []) }
    ensures noted { OnOk result (noted.new.items ≡ noted.old.items ++ 0 ∷ []) }
    ensures room { OnOk result (MAX_VARIABLES + length numbers.new ≤ vec_capacity pairs.new) }
    ensures more_room { vec_capacity pairs.old ≤ vec_capacity pairs.new }
    ensures same_numbers { OnErr result (numbers.new ≡ numbers.old) }
    ensures same_table { OnErr result (table.new.items ≡ table.old.items) }
    ensures same_noted { OnErr result (noted.new.items ≡ noted.old.items) }
{
    pairs.clear();
    pairs.reserve(MAX_VARIABLES + 1 + numbers.len())?;
    table.reserve(1)?;
    noted.reserve(1)?;
    numbers.push(x.0)?;
    match table.push(None) {
        Ok(()) => {}
        Err(_) => unreachable!(),
    }
    match noted.push(0) {
        Ok(()) => {}
        Err(_) => unreachable!(),
    }
    Ok(())
}

/// Own writes of far variables. A clause sees the lines and the notes.
#[derive(Drop)]
pub struct FarWrites {
    /// The variables, in the order of first writes.
    numbers: NumberIndex,
    /// The value of each line, if it has one.
    table: Vec<Option<i64>>,
    /// At each line the place of its last note, where it has one; else any number.
    noted: Vec<u32>,
    notes: Vec<Note>,
    /// All pairs as of `settle`; there is room for as many as there may be.
    pairs: Vec<(VarId, i64)>,
}

impl Model for FarWrites {
    ghost use Rattle.attempt_writes.specs.FarWrites.{Far};
    ghost use Rattle.attempt_writes.specs.FarWritesInside.{HaveLines};

    ghost Value = { Far };

    ghost view = { λ f.
        record { numbers = f.numbers; table = f.table.items; notes = f.notes.items; pairs = f.pairs.items } };

    ghost invariant = { HaveLines };
}

impl FarWrites {
    /// No writes. It takes no memory.
    pub fn new(alloc: Global) -> FarWrites
        ensures numbers { result.numbers ≡ [] }
        ensures notes { result.notes ≡ [] }
    {
        FarWrites {
            numbers: NumberIndex::new(alloc),
            table: Vec::new(alloc),
            noted: Vec::new(alloc),
            notes: Vec::new(alloc),
            pairs: Vec::new(alloc),
        }
    }

    /// How many notes there are.
    pub fn height(&self) -> usize
        ensures { result ≡ length self.now.notes }
    {
        self.notes.len()
    }

    /// The value of a variable's own write, if there is one.
    #[cold]
    #[inline(never)]
    pub fn find(&self, x: VarId) -> Option<i64>
        ensures { result ≡ known_at (far_now self.now) x }
    {
        match self.numbers.find(x.0) {
            Some(k) => self.table[k],
            None => None,
        }
    }

    /// The line of a variable, which is added where it has none.
    pub fn line_of(&mut self, x: VarId) -> Result<usize, AllocError>
        requires known { x.0 < MAX_VALUES }
        ensures here { IfOk result (λ k. slice_get self.new.numbers k ≡ Some x.0) }
        ensures now { far_now self.new ≡ far_now self.old }
        ensures before { (h : ℕ) → far_at h self.new ≡ far_at h self.old }
        ensures notes { self.new.notes ≡ self.old.notes }
        ensures some { OnOk result (0 < length self.new.numbers) }
        ensures same { OnErr result (self.new.numbers ≡ self.old.numbers) }
        ensures far { AreFar self.old.numbers → MAX_VARIABLES ≤ x.0 → AreFar self.new.numbers }
        ensures again { OnErr result (IsAbsent self.old.numbers x.0) }
    {
        match self.numbers.find(x.0) {
            Some(k) => Ok(k),
            None => {
                let k = self.table.len();
                add_line(
                    &mut self.numbers,
                    &mut self.table,
                    &mut self.noted,
                    &mut self.pairs,
                    x,
                )?;
                Ok(k)
            }
        }
    }

    /// Writes the variable of a line. What it was is noted where a first branch is live, the innermost
    /// from `height` on, unless it is noted there.
    pub fn put(&mut self, height: Option<usize>, k: usize, v: i64) -> Result<(), AllocError>
        requires line { k < length self.old.numbers }
        requires within { (g : ℕ) → height ≡ Some g → g ≤ length self.old.notes }
        ensures now { OnOk result ((x : VarId) → slice_get self.old.numbers k ≡ Some x.0
            → far_now self.new ≡ write (far_now self.old) x v) }
        ensures before { OnOk result
            ((h : ℕ) (g : ℕ) → height ≡ Some g → h ≤ g → far_at h self.new ≡ far_at h self.old) }
        ensures numbers { self.new.numbers ≡ self.old.numbers }
        ensures more { length self.old.notes ≤ length self.new.notes }
        ensures refused { OnErr result (self.new ≡ self.old) }
        ensures again { (x : VarId) (g : ℕ) → slice_get self.old.numbers k ≡ Some x.0 → height ≡ Some g
            → known_at (far_now self.old) x ≢ known_at (far_at g self.old) x → IsOk result }
        ensures in_place { height ≡ None → IsOk result }
    {
        let few = self.numbers.len();
        let line = VarId(k as u32);
        let old = self.table[k];
        note_line(
            height,
            &mut self.notes,
            self.noted.as_mut_slice(),
            line,
            old,
        )?;
        self.table[k] = Some(v);
        Ok(())
    }

    /// Goes back to when there were so many notes.
    pub fn back(&mut self, height: usize)
        requires { height ≤ length self.old.notes }
        ensures now { far_now self.new ≡ far_at height self.old }
        ensures before { (h : ℕ) → h ≤ height → far_at h self.new ≡ far_at h self.old }
        ensures numbers { self.new.numbers ≡ self.old.numbers }
        ensures notes { length self.new.notes ≡ height }
    {
        undo(
            self.table.as_mut_slice(),
            &mut self.notes,
            self.noted.as_mut_slice(),
            height,
        );
    }

    /// All pairs as of the last `settle`.
    pub fn pairs(&self) -> &[(VarId, i64)]
        ensures { result.now ≡ self.now.pairs }
    {
        self.pairs.as_slice()
    }

    /// Makes the pairs those that are near and then those of the far writes, ascending. It takes no memory.
    #[cold]
    #[inline(never)]
    pub fn settle(&mut self, near: &[(VarId, i64)])
        requires few { length near.now ≤ MAX_VARIABLES }
        requires some { 0 < length self.old.numbers }
        ensures pairs { self.new.pairs ≡ near.now ++ far_now self.old }
        ensures now { far_now self.new ≡ far_now self.old }
        ensures numbers { self.new.numbers ≡ self.old.numbers }
    {
        self.notes.clear();
        self.pairs.clear();
        list_lines(
            self.numbers.as_slice(),
            self.table.as_slice(),
            &mut self.pairs,
        );
        sort_lines(self.pairs.as_mut_slice());
        put_in_front(&mut self.pairs, near);
    }

    /// Drops all, and keeps the room.
    #[cold]
    #[inline(never)]
    pub fn clear(&mut self)
        ensures numbers { self.new.numbers ≡ [] }
        ensures notes { self.new.notes ≡ [] }
    {
        self.numbers.clear();
        self.table.clear();
        self.noted.clear();
        self.notes.clear();
        self.pairs.clear();
    }
}
