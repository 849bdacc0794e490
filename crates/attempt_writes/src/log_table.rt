//! What an attempt was told, found in constant time.

ghost use Rattle.std.specs.Prelude.{◌≡◌, ◌<◌, ◌≤◌, ◌+◌, ◌*◌, ◌++◌, ◌∷◌, [], None, false, length};
ghost use Rattle.std.specs.Prelude.{take, slice_get, slice_set, IsOk, IfOk, OnOk, OnErr};
ghost use Rattle.attempt_writes.specs.Known.{known_at};
ghost use Rattle.attempt_writes.specs.Places.{pair_value};

use crate::far_places::FarPlaces;
use crate::layer::Layer;
use smallvec::SmallVec;
use std::alloc::{AllocError, Global};
use std::marker::Model;
use std::mem;
use txn_programs::limits::{MAX_VALUES, MAX_VARIABLES};
use txn_programs::{Memory, VarId};

/// Variables with a value each, in the order of supply. A clause sees the pairs.
#[derive(Drop)]
pub struct LogTable {
    /// The first of these are the pairs; the others are blank, so that a pair more is put with no
    /// move of what is there.
    lines: Layer,
    /// How many pairs there are. Where they lie is not looked at for it, nor for the room.
    count: usize,
    /// How many lines there are.
    room: usize,
    /// Whether a far variable was logged since the log was empty: one with no place in the table.
    is_wide: bool,
    /// At each variable's number the place of its pair, where it has one; else any number.
    places: [u32; MAX_VARIABLES],
    /// The places of the far variables.
    far: FarPlaces,
}

impl Model for LogTable {
    ghost use Rattle.std.specs.Prelude.{take};
    ghost use Rattle.attempt_writes.specs.Known.{Known};

    ghost Value = { Known };

    ghost view = { λ l. take l.count l.lines.items };

    ghost use Rattle.attempt_writes.specs.LogTableInside.{IsKept};

    ghost invariant = { IsKept };
}

/// A line that is no pair yet.
const BLANK: (VarId, i64) = (VarId(0), 0);

/// The value of the pair at a place, if it is the variable's. Most often the place is behind all
/// pairs, and they are not looked at.
#[inline(always)]
fn look(lines: &Layer, count: usize, place: usize, x: VarId) -> Option<i64>
    requires { count ≤ length lines.now.items }
    ensures { result ≡ pair_value (slice_get (take count lines.now.items) place) x }
{
    if place >= count {
        return None;
    }
    let pairs = &lines.as_slice()[..count];
    let (y, v) = *pairs.get(place)?;
    if y.0 == x.0 { Some(v) } else { None }
}

/// Twice as many lines: how many there are then. It is a call of its own, so that putting a pair is
/// short enough to be inlined where a value is read.
#[cold]
#[inline(never)]
fn make_room(lines: &mut Layer) -> Result<usize, AllocError>
    requires some { 0 < length lines.old.items }
    requires few { length lines.old.items ≤ MAX_VALUES }
    ensures room { IfOk result (λ room. room ≡ length lines.new.items) }
    ensures twice { IfOk result (λ room. room ≡ 2 * length lines.old.items) }
    ensures front { take (length lines.old.items) lines.new.items ≡ lines.old.items }
    ensures refused { OnErr result (lines.new.items ≡ lines.old.items) }
{
    let room = 2 * lines.len();
    lines.resize(room, BLANK)?;
    Ok(room)
}

/// A pair in the line at this place.
#[inline(always)]
fn put(lines: &mut Layer, place: usize, pair: (VarId, i64))
    requires { place < length lines.old.items }
    ensures { lines.new.items ≡ slice_set lines.old.items place pair }
{
    lines.as_mut_slice()[place] = pair;
}

/// One pair more, behind so many.
#[inline(always)]
fn append(
    lines: &mut Layer,
    count: usize,
    room: &mut usize,
    pair: (VarId, i64),
) -> Result<(), AllocError>
    requires room { room.old ≡ length lines.old.items }
    requires within { count ≤ room.old }
    requires some { 0 < room.old }
    requires few { count < MAX_VALUES }
    ensures ok { OnOk result (take (count + 1) lines.new.items ≡ take count lines.old.items ++ pair ∷ []) }
    ensures refused { OnErr result (lines.new.items ≡ lines.old.items) }
    ensures within { OnOk result (count < room.new) }
    ensures room { room.new ≡ length lines.new.items }
    ensures more { room.old ≤ room.new }
    ensures succeeds { count < room.old → IsOk result }
{
    if count >= *room {
        *room = make_room(lines)?;
    }
    put(lines, count, pair);
    Ok(())
}

/// The pairs alone, of which there are so many: the blank lines are cut off.
fn cut(mut lines: Layer, count: usize) -> Layer
    ensures { result.items ≡ take count lines.items }
{
    lines.truncate(count);
    lines
}

/// Drops the places of the far variables. Most often none was logged, and they are not looked at.
#[inline(always)]
fn forget_far(far: &mut FarPlaces, is_wide: &mut bool)
    requires { is_wide.old ≡ false → far.old ≡ [] }
    ensures far { far.new ≡ [] }
    ensures narrow { is_wide.new ≡ false }
{
    if *is_wide {
        far.clear();
        *is_wide = false;
    }
}

impl LogTable {
    /// An empty log. It takes no memory.
    pub fn new(alloc: Global) -> LogTable
        ensures { result ≡ [] }
    {
        LogTable {
            lines: SmallVec::from_buf(alloc, [BLANK; 8]),
            count: 0,
            room: 8,
            is_wide: false,
            places: [0; MAX_VARIABLES],
            far: FarPlaces::new(alloc),
        }
    }

    /// The pairs, in the order of supply.
    pub fn as_slice(&self) -> &[(VarId, i64)]
        ensures { result.now ≡ self.now }
    {
        &self.lines.as_slice()[..self.count]
    }

    /// How many pairs there are.
    pub fn len(&self) -> usize
        ensures value { result ≡ length self.now }
        ensures few { result ≤ MAX_VALUES }
    {
        self.count
    }

    /// The pairs alone.
    pub fn into_pairs(self) -> Layer
        ensures { result.items ≡ self }
    {
        cut(self.lines, self.count)
    }

    /// The pairs alone; the log is empty then. It takes no memory.
    pub fn take_pairs(&mut self) -> Layer
        ensures pairs { result.items ≡ self.old }
        ensures emptied { self.new ≡ [] }
    {
        let alloc = *self.lines.allocator();
        let count = mem::replace(&mut self.count, 0);
        self.room = 8;
        forget_far(&mut self.far, &mut self.is_wide);
        let lines = mem::replace(&mut self.lines, SmallVec::from_buf(alloc, [BLANK; 8]));
        cut(lines, count)
    }

    /// Drops all, and keeps the room.
    #[inline(always)]
    pub fn clear(&mut self)
        ensures { self.new ≡ [] }
    {
        self.count = 0;
        forget_far(&mut self.far, &mut self.is_wide);
    }

    /// The value of a variable, if it is there.
    #[inline(always)]
    pub fn find(&self, x: VarId) -> Option<i64>
        ensures { result ≡ known_at self.now x }
    {
        if x.0 as usize >= MAX_VARIABLES {
            return self.find_far(x);
        }
        look(
            &self.lines,
            self.count,
            self.places[x.0 as usize] as usize,
            x,
        )
    }

    /// The value of a far variable, if it is there.
    #[cold]
    #[inline(never)]
    fn find_far(&self, x: VarId) -> Option<i64>
        requires { MAX_VARIABLES ≤ x.0 }
        ensures { result ≡ known_at self.now x }
    {
        match self.far.find(x.0) {
            Some(place) => look(&self.lines, self.count, place, x),
            None => None,
        }
    }

    /// One pair more, of a variable that is not there.
    #[inline(always)]
    pub fn push(&mut self, x: VarId, v: i64) -> Result<(), Memory>
        requires known { x.0 < MAX_VALUES }
        requires new { known_at self.old x ≡ None }
        ensures ok { OnOk result (self.new ≡ self.old ++ (x, v) ∷ []) }
        ensures refused { OnErr result (self.new ≡ self.old) }
        ensures in_place { length self.old < 8 → IsOk result }
    {
        if x.0 as usize >= MAX_VARIABLES {
            return self.push_far(x, v);
        }
        let place = self.count;
        append(&mut self.lines, place, &mut self.room, (x, v))?;
        self.count = place + 1;
        self.places[x.0 as usize] = place as u32;
        Ok(())
    }

    /// One pair more, of a far variable that is not there.
    #[cold]
    #[inline(never)]
    fn push_far(&mut self, x: VarId, v: i64) -> Result<(), Memory>
        requires far { MAX_VARIABLES ≤ x.0 }
        requires known { x.0 < MAX_VALUES }
        requires new { known_at self.old x ≡ None }
        ensures ok { OnOk result (self.new ≡ self.old ++ (x, v) ∷ []) }
        ensures refused { OnErr result (self.new ≡ self.old) }
        ensures in_place { length self.old < 8 → IsOk result }
    {
        let place = self.count;
        append(&mut self.lines, place, &mut self.room, (x, v))?;
        self.far.push(x.0, place)?;
        self.is_wide = true;
        self.count = place + 1;
        Ok(())
    }
}
