//! The writes of a transaction, by variable, and the live first branches of `orelse`s.
//!
//! A table has at each variable's number the value of its own write. In a live first branch each
//! variable is noted at its first write, with what it was before; a retry goes back by the notes.

ghost use Rattle.std.specs.Prelude.{◌≡◌, ◌<◌, ◌≤◌, ◌+◌, ◌++◌, ◌∷◌, [], None, true, false, ℕ, ℤ};
ghost use Rattle.std.specs.Prelude.{List, Option, drop, length, reverse, Some, take, insert};
ghost use Rattle.std.specs.Prelude.{slice_get, slice_set, IsOk, IfOk, IfErr, IfSome, OnOk, OnErr};
ghost use Rattle.attempt_writes.specs.Known.{Known, known_at, write};
ghost use Rattle.attempt_writes.specs.Own.{Marked, marks_of, value_in, valued, undone, AreApart, AreHinted, AreInside};
ghost use Rattle.attempt_writes.specs.Own.{AreListed, AreNested, AreNotedListed, AreOnce, GoesBack, HasNote};
ghost use Rattle.attempt_writes.specs.Own.{IsChangedInner, IsListed, IsNoted, IsNotedInner, IsOther, LeavesInner};
ghost use Rattle.attempt_writes.specs.FarWrites.{far_at, far_now};
ghost use Rattle.attempt_writes.specs.declared.written.Branch.{Branch};
ghost use Rattle.attempt_writes.specs.Order.{AllBefore, AllKnown, Ascending};

use crate::far_writes::FarWrites;
use crate::note::{MAX_NOTES, Note, has_note, undo};
use arrayvec::ArrayVec;
use std::alloc::{AllocError, Global};
use std::marker::Model;
use txn_programs::VarId;
use txn_programs::limits::{MAX_VALUES, MAX_VARIABLES};

/// How many pairs at the front are of earlier variables: by halves, and it finds them all.
fn front(pairs: &[(VarId, i64)], x: VarId) -> usize
    requires { Ascending pairs.now }
    ensures within { result ≤ length pairs.now }
    ensures before { AllBefore x (take result pairs.now) }
{
    let mut low = 0;
    let mut high = pairs.len();
    while low < high {
        let middle = low + (high - low) / 2;
        if pairs[middle].0.0 < x.0 {
            low = middle + 1;
        } else {
            high = middle;
        }
    }
    low
}

/// Where a variable is, or where it would come: most often that is at the end.
fn place(pairs: &[(VarId, i64)], x: VarId) -> Result<usize, usize>
    requires { Ascending pairs.now }
    ensures taken { IfOk result
        (λ i. (i < length pairs.now) × ((v : ℤ) → slice_set pairs.now i (x, v) ≡ write pairs.now x v)) }
    ensures free { IfErr result
        (λ i. (i ≤ length pairs.now) × ((v : ℤ) → insert pairs.now i (x, v) ≡ write pairs.now x v)) }
    ensures known { IfOk result
        (λ i. (p : VarId × ℤ) → slice_get pairs.now i ≡ Some p → known_at pairs.now x ≡ Some p.1) }
    ensures unknown { OnErr result (known_at pairs.now x ≡ None) }
{
    let len = pairs.len();
    if len > 0 {
        let last = pairs[len - 1].0;
        if last.0 == x.0 {
            return Ok(len - 1);
        }
        if last.0 < x.0 {
            return Err(len);
        }
    }
    let mut i = front(pairs, x);
    while i < pairs.len() {
        let y = pairs[i].0;
        if y.0 == x.0 {
            return Ok(i);
        }
        if x.0 < y.0 {
            return Err(i);
        }
        i += 1;
    }
    Err(i)
}

/// Variables that were written, ascending, with a value each.
type Pairs = ArrayVec<(VarId, i64), MAX_VARIABLES>;

/// What a table has at a variable's number.
#[inline(always)]
fn look(table: &[Option<i64>], x: VarId) -> Option<i64>
    ensures { result ≡ value_in table.now x }
{
    *table.get(x.0 as usize)?
}

/// Whether a variable comes behind all that are there, as it does most often.
fn is_behind(pairs: &[(VarId, i64)], x: VarId) -> bool
    requires { Ascending pairs.now }
    ensures { result ≡ true → (v : ℤ) → pairs.now ++ (x, v) ∷ [] ≡ write pairs.now x v }
{
    let len = pairs.len();
    if len == 0 {
        return true;
    }
    pairs[len - 1].0.0 < x.0
}

/// Lists a variable at its place, unless it is listed.
#[inline(never)]
fn list_at_place(pairs: &mut Pairs, x: VarId, v: i64)
    requires ascending { Ascending pairs.old.items }
    requires known { AllKnown MAX_VARIABLES pairs.old.items }
    requires small { x.0 < MAX_VARIABLES }
    ensures ascending { Ascending pairs.new.items }
    ensures known { AllKnown MAX_VARIABLES pairs.new.items }
    ensures here { IsListed pairs.new.items x }
    ensures still { (y : VarId) → IsListed pairs.old.items y → IsListed pairs.new.items y }
{
    match place(pairs.as_slice(), x) {
        Ok(_) => {}
        Err(i) => pairs.insert(i, (x, v)),
    }
}

/// Lists a variable, unless it is listed: it is where it had a value before.
#[inline(always)]
fn list(pairs: &mut Pairs, old: Option<i64>, x: VarId, v: i64)
    requires ascending { Ascending pairs.old.items }
    requires known { AllKnown MAX_VARIABLES pairs.old.items }
    requires small { x.0 < MAX_VARIABLES }
    requires there { (u : ℤ) → old ≡ Some u → IsListed pairs.old.items x }
    ensures ascending { Ascending pairs.new.items }
    ensures known { AllKnown MAX_VARIABLES pairs.new.items }
    ensures here { IsListed pairs.new.items x }
    ensures still { (y : VarId) → IsListed pairs.old.items y → IsListed pairs.new.items y }
{
    if old.is_some() {
        return;
    }
    if is_behind(pairs.as_slice(), x) {
        pairs.push((x, v));
    } else {
        list_at_place(pairs, x, v);
    }
}

/// Gives each pair the value of the table, and moves those that have one to the front: how many.
fn gather(pairs: &mut [(VarId, i64)], table: &[Option<i64>]) -> usize
    ensures within { result ≤ length pairs.old }
    ensures same { length pairs.new ≡ length pairs.old }
    ensures front { take result pairs.new ≡ valued pairs.old table.now }
{
    let mut kept = 0;
    let mut i = 0;
    while i < pairs.len() {
        let x = pairs[i].0;
        if let Some(v) = look(table, x) {
            pairs[kept] = (x, v);
            kept += 1;
        }
        i += 1;
    }
    kept
}

/// Unlists all, and takes the value of each out of a table.
fn forget(table: &mut [Option<i64>], pairs: &mut Pairs)
    requires known { AllKnown (length table.old) pairs.old.items }
    requires listed { AreListed pairs.old.items table.old }
    ensures wide { length table.new ≡ length table.old }
    ensures nothing { AreListed [] table.new }
    ensures none { pairs.new.items ≡ [] }
{
    while let Some(pair) = pairs.pop() {
        table[pair.0.0 as usize] = None;
    }
}

/// How many loops there is room for.
pub const LOOP_ROOM: usize = 32;

/// The turns that are left of each loop.
pub type Loops = ArrayVec<u32, LOOP_ROOM>;

/// A live first branch: where it begins, how many instructions further the second one does, how
/// many notes there were, and of far writes, and how many loops were kept.
#[derive(Clone, Copy)]
pub struct Branch {
    pub begin: usize,
    pub passed: usize,
    pub height: usize,
    pub far: usize,
    pub floor: usize,
}

/// Where the second branch is: it begins so many instructions behind the begin of the first.
#[derive(Clone, Copy)]
pub struct Second {
    pub begin: usize,
    pub passed: usize,
}

/// Keeps the loops behind those that are kept; then there is none.
#[cold]
#[inline(never)]
fn keep_loops(loops: &mut Loops, kept: &mut Vec<u32>) -> Result<(), AllocError>
    ensures kept { OnOk result (kept.new.items ≡ kept.old.items ++ loops.old.items) }
    ensures loops { OnOk result (loops.new.items ≡ []) }
    ensures err { OnErr result (kept.new.items ≡ kept.old.items) }
    ensures more { length kept.old.items ≤ length kept.new.items }
    ensures room { length kept.new.items ≤ length kept.old.items + LOOP_ROOM }
{
    kept.extend_from_slice(loops.as_slice())?;
    loops.clear();
    Ok(())
}

/// The loops that were kept from `floor` on, in place of those that there are; then they are no
/// longer kept. Most often there is none, and nothing is copied.
#[inline(always)]
fn take_up(loops: &mut Loops, kept: &mut Vec<u32>, floor: usize)
    requires within { floor ≤ length kept.old.items }
    requires room { length kept.old.items ≤ floor + LOOP_ROOM }
    ensures loops { loops.new.items ≡ drop floor kept.old.items }
    ensures kept { kept.new.items ≡ take floor kept.old.items }
{
    if kept.len() == floor && loops.is_empty() {
        return;
    }
    take_up_some(loops, kept, floor);
}

/// The same, where there are loops, or some are kept.
#[cold]
#[inline(never)]
fn take_up_some(loops: &mut Loops, kept: &mut Vec<u32>, floor: usize)
    requires within { floor ≤ length kept.old.items }
    requires room { length kept.old.items ≤ floor + LOOP_ROOM }
    ensures loops { loops.new.items ≡ drop floor kept.old.items }
    ensures kept { kept.new.items ≡ take floor kept.old.items }
{
    loops.clear();
    match loops.try_extend_from_slice(&kept[floor..]) {
        Ok(()) => {}
        Err(_) => unreachable!(),
    }
    kept.truncate(floor);
}

/// Notes what a variable was, unless no branch is live, as most often, or it is noted in the innermost.
#[inline(always)]
fn note_in_branch(
    branches: &[Branch],
    notes: &mut Vec<Note>,
    noted: &mut [u32],
    x: VarId,
    old: Option<i64>,
) -> Result<(), AllocError>
    requires small { x.0 < length noted.old }
    requires nested { AreNested (length notes.old.items) (reverse branches.now) }
    requires few { length notes.old.items ≤ MAX_NOTES }
    requires hinted { AreHinted 0 notes.old.items noted.old }
    requires once { AreOnce notes.old.items (reverse branches.now) }
    ensures hints { length noted.new ≡ length noted.old }
    ensures ok { OnOk result (IsNoted branches.now x old notes.old.items notes.new.items) }
    ensures err { OnErr result (notes.new.items ≡ notes.old.items) }
    ensures few { length notes.new.items ≤ MAX_NOTES }
    ensures hinted { AreHinted 0 notes.new.items noted.new }
    ensures once { AreOnce notes.new.items (reverse branches.now) }
    ensures in_place { branches.now ≡ [] → IsOk result }
    ensures again { IsNotedInner (reverse branches.now) notes.old.items x
        → IsOk result × (notes.new.items ≡ notes.old.items) }
{
    let height = match branches.last() {
        Some(branch) => branch.height,
        None => return Ok(()),
    };
    let place = notes.len();
    let earlier = noted[x.0 as usize];
    if has_note(notes.as_slice(), height, place, earlier, x) {
        return Ok(());
    }
    if place == MAX_NOTES {
        return Err(AllocError);
    }
    notes.push(Note { x, earlier, old })?;
    noted[x.0 as usize] = place as u32;
    Ok(())
}

/// Leaves each variable its first note of those from `low` on: how many notes there are then.
fn join(notes: &mut [Note], noted: &mut [u32], low: usize, height: usize) -> usize
    requires within { height ≤ length notes.old }
    requires below { low ≤ height }
    requires inside { AreInside (length noted.old) notes.old }
    requires few { length notes.old ≤ MAX_NOTES }
    requires hinted { AreHinted 0 notes.old noted.old }
    requires inner { AreApart (drop height notes.old) }
    requires outer { AreApart (drop low (take height notes.old)) }
    ensures hints { length noted.new ≡ length noted.old }
    ensures same { length notes.new ≡ length notes.old }
    ensures within { result ≤ length notes.new }
    ensures above { height ≤ result }
    ensures front { take height notes.new ≡ take height notes.old }
    ensures hinted { AreHinted 0 (take result notes.new) noted.new }
    ensures apart { AreApart (drop low (take result notes.new)) }
    ensures undone { (h : ℕ) → h ≤ low → (table : List (Option ℤ))
        → undone (drop h (take result notes.new)) table ≡ undone (drop h notes.old) table }
    ensures noted { (pairs : Known) → AreNotedListed pairs notes.old → AreNotedListed pairs (take result notes.new) }
{
    let mut kept = height;
    let mut i = height;
    while i < notes.len() {
        let note = notes[i];
        i += 1;
        if has_note(notes, low, kept, note.earlier, note.x) {
            noted[note.x.0 as usize] = note.earlier;
        } else {
            notes[kept] = note;
            noted[note.x.0 as usize] = kept as u32;
            kept += 1;
        }
    }
    kept
}

/// Leaves the notes of a branch that is done, from `height` on, to the branch around it.
fn merge(branches: &[Branch], notes: &mut Vec<Note>, noted: &mut [u32], height: usize)
    requires within { height ≤ length notes.old.items }
    requires nested { AreNested height (reverse branches.now) }
    requires inside { AreInside (length noted.old) notes.old.items }
    requires few { length notes.old.items ≤ MAX_NOTES }
    requires hinted { AreHinted 0 notes.old.items noted.old }
    requires inner { AreApart (drop height notes.old.items) }
    requires outer { AreOnce (take height notes.old.items) (reverse branches.now) }
    ensures hints { length noted.new ≡ length noted.old }
    ensures few { length notes.new.items ≤ MAX_NOTES }
    ensures hinted { AreHinted 0 notes.new.items noted.new }
    ensures once { AreOnce notes.new.items (reverse branches.now) }
    ensures marks { (kept : List ℕ) (table : List (Option ℤ))
        → marks_of (reverse branches.now) notes.new.items kept table
        ≡ marks_of (reverse branches.now) notes.old.items kept table }
    ensures nested { AreNested (length notes.new.items) (reverse branches.now) }
    ensures noted { (pairs : Known) → AreNotedListed pairs notes.old.items → AreNotedListed pairs notes.new.items }
{
    match branches.last() {
        Some(outer) => {
            let kept = join(notes.as_mut_slice(), noted, outer.height, height);
            notes.truncate(kept);
        }
        None => notes.clear(),
    }
}

/// How many far notes there were where the innermost live branch began, if one is live.
fn innermost_far(branches: &[Branch]) -> Option<usize>
    ensures none { branches.now ≡ [] → result ≡ None }
    ensures some { (b : Branch) (outer : List Branch) → reverse branches.now ≡ b ∷ outer → result ≡ Some b.far }
{
    match branches.last() {
        Some(branch) => Some(branch.far),
        None => None,
    }
}

/// Goes back in the far writes. Most often there are none, and nothing is looked at.
#[inline(always)]
fn go_back_far(far: &mut FarWrites, is_wide: bool, height: usize)
    requires within { height ≤ length far.old.notes }
    requires narrow { is_wide ≡ false → far.old.numbers ≡ [] }
    ensures now { far_now far.new ≡ far_at height far.old }
    ensures before { (h : ℕ) → h ≤ height → far_at h far.new ≡ far_at h far.old }
    ensures numbers { far.new.numbers ≡ far.old.numbers }
    ensures notes { height ≤ length far.new.notes }
{
    if is_wide {
        far.back(height);
    }
}

/// Makes the far pairs those that are near and then those of the far writes, if there are far writes.
#[inline(always)]
fn settle_far(far: &mut FarWrites, is_wide: bool, near: &[(VarId, i64)])
    requires few { length near.now ≤ MAX_VARIABLES }
    requires some { is_wide ≡ true → 0 < length far.old.numbers }
    ensures pairs { is_wide ≡ true → far.new.pairs ≡ near.now ++ far_now far.old }
    ensures now { far_now far.new ≡ far_now far.old }
    ensures numbers { far.new.numbers ≡ far.old.numbers }
{
    if is_wide {
        far.settle(near);
    }
}

/// Drops the far writes, if there are any.
#[inline(always)]
fn forget_far(far: &mut FarWrites, is_wide: &mut bool)
    requires { is_wide.old ≡ false → far.old.numbers ≡ [] }
    ensures numbers { far.new.numbers ≡ [] }
    ensures narrow { is_wide.new ≡ false }
{
    if *is_wide {
        far.clear();
        *is_wide = false;
    }
}

/// Own writes. A clause sees `Own`.
#[derive(Drop)]
pub struct Writes {
    /// At each variable's number the value of its own write.
    table: [Option<i64>; MAX_VARIABLES],
    /// At each variable's number the place of its last note, where it has one; else any number.
    noted: [u32; MAX_VARIABLES],
    /// Each variable that was written, ascending, also where a retry went back behind it; its value
    /// as of `settle`.
    pairs: Pairs,
    notes: Vec<Note>,
    branches: Vec<Branch>,
    /// The loops to go back to, those of the outer branches first.
    kept: Vec<u32>,
    /// Whether a far variable was written since all was dropped.
    is_wide: bool,
    /// The own writes of far variables.
    far: FarWrites,
}

impl Model for Writes {
    ghost use Rattle.attempt_writes.specs.Own.{Own, owned, IsKept};

    ghost Value = { Own };

    ghost view = { owned };

    ghost invariant = { IsKept };
}

impl Writes {
    /// No writes, and no live branch. It takes no memory.
    pub fn new(alloc: Global) -> Writes
        ensures writes { result.writes ≡ [] }
        ensures marks { result.marks ≡ [] }
        ensures pairs { result.pairs ≡ [] }
    {
        Writes {
            table: [None; MAX_VARIABLES],
            noted: [0; MAX_VARIABLES],
            pairs: ArrayVec::new(),
            notes: Vec::new(alloc),
            branches: Vec::new(alloc),
            kept: Vec::new(alloc),
            is_wide: false,
            far: FarWrites::new(alloc),
        }
    }

    /// The pairs as of the last `settle` or `clear`.
    pub fn as_slice(&self) -> &[(VarId, i64)]
        ensures { result.now ≡ self.now.pairs }
    {
        if self.is_wide {
            self.far.pairs()
        } else {
            self.pairs.as_slice()
        }
    }

    /// The value of a variable's own write, if there is one.
    #[inline(always)]
    pub fn find(&self, x: VarId) -> Option<i64>
        ensures { result ≡ known_at self.now.writes x }
    {
        if x.0 as usize >= MAX_VARIABLES {
            return self.far.find(x);
        }
        if self.pairs.is_empty() {
            return None;
        }
        look(&self.table, x)
    }

    /// Writes a variable. Of a near one it takes memory in a live first branch alone; none is taken where
    /// the branch has changed the variable already. Refused, writes and branches are as they were.
    #[inline(always)]
    pub fn put(&mut self, x: VarId, v: i64) -> Result<(), AllocError>
        requires { x.0 < MAX_VALUES }
        ensures value { OnOk result (self.new.writes ≡ write self.old.writes x v) }
        ensures marks { self.new.marks ≡ self.old.marks }
        ensures refused { OnErr result (self.new.writes ≡ self.old.writes) }
        ensures in_place { self.old.marks ≡ [] → x.0 < MAX_VARIABLES → IsOk result }
        ensures again { IsChangedInner self.old.marks self.old.writes x → IsOk result }
    {
        if x.0 as usize >= MAX_VARIABLES {
            return self.put_far(x, v);
        }
        let old = self.table[x.0 as usize];
        note_in_branch(
            self.branches.as_slice(),
            &mut self.notes,
            &mut self.noted,
            x,
            old,
        )?;
        list(&mut self.pairs, old, x, v);
        self.table[x.0 as usize] = Some(v);
        Ok(())
    }

    /// Writes a far variable.
    #[cold]
    #[inline(never)]
    fn put_far(&mut self, x: VarId, v: i64) -> Result<(), AllocError>
        requires far { MAX_VARIABLES ≤ x.0 }
        requires known { x.0 < MAX_VALUES }
        ensures value { OnOk result (self.new.writes ≡ write self.old.writes x v) }
        ensures marks { self.new.marks ≡ self.old.marks }
        ensures refused { OnErr result (self.new.writes ≡ self.old.writes) }
        ensures again { IsChangedInner self.old.marks self.old.writes x → IsOk result }
    {
        let k = self.far.line_of(x)?;
        self.is_wide = true;
        let height = innermost_far(self.branches.as_slice());
        self.far.put(height, k, v)
    }

    /// A first branch begins: the loops are kept to go back to, and none is live in it.
    #[inline(always)]
    pub fn enter(
        &mut self,
        begin: usize,
        passed: usize,
        loops: &mut Loops,
    ) -> Result<(), AllocError>
        ensures marks { OnOk result
            (self.new.marks ≡ Marked (begin + passed) (reverse loops.old.items) self.old.writes ∷ self.old.marks) }
        ensures writes { OnOk result (self.new.writes ≡ self.old.writes) }
        ensures loops { OnOk result (loops.new.items ≡ []) }
    {
        let height = self.notes.len();
        let far = self.far.height();
        let floor = self.kept.len();
        self.branches.push(Branch {
            begin,
            passed,
            height,
            far,
            floor,
        })?;
        if loops.is_empty() {
            return Ok(());
        }
        keep_loops(loops, &mut self.kept)?;
        Ok(())
    }

    /// The innermost first branch is done, and its loops are those to go on with: whether there is one.
    #[inline(never)]
    pub fn keep(&mut self, loops: &mut Loops) -> bool
        ensures left { result ≡ true → LeavesInner self.old.marks (reverse loops.new.items) self.new.marks }
        ensures none { result ≡ false → self.old.marks ≡ [] }
        ensures writes { self.new.writes ≡ self.old.writes }
    {
        let Some(branch) = self.branches.pop() else {
            return false;
        };
        merge(
            self.branches.as_slice(),
            &mut self.notes,
            &mut self.noted,
            branch.height,
        );
        take_up(loops, &mut self.kept, branch.floor);
        true
    }

    /// The innermost first branch retried: all that it wrote is as it was before, and its loops are
    /// those to go on with. None where no branch is live.
    #[inline(always)]
    pub fn back(&mut self, loops: &mut Loops) -> Option<Second>
        ensures some { IfSome result (λ s. GoesBack self.old.marks (s.begin + s.passed)
            (reverse loops.new.items) self.new.writes self.new.marks) }
        ensures none { result ≡ None → (self.old.marks ≡ []) × (self.new ≡ self.old) }
    {
        let branch = self.branches.pop()?;
        undo(
            &mut self.table,
            &mut self.notes,
            &mut self.noted,
            branch.height,
        );
        go_back_far(&mut self.far, self.is_wide, branch.far);
        take_up(loops, &mut self.kept, branch.floor);
        Some(Second {
            begin: branch.begin,
            passed: branch.passed,
        })
    }

    /// Makes the pairs those of the own writes, and ends all live branches.
    #[inline(always)]
    pub fn settle(&mut self)
        ensures writes { self.new.writes ≡ self.old.writes }
        ensures marks { self.new.marks ≡ [] }
        ensures pairs { self.new.pairs ≡ self.old.writes }
    {
        if self.pairs.is_empty() && self.branches.is_empty() && !self.is_wide {
            return;
        }
        self.settle_some();
    }

    /// The same, where something was written or a branch is live.
    #[inline(never)]
    fn settle_some(&mut self)
        ensures writes { self.new.writes ≡ self.old.writes }
        ensures marks { self.new.marks ≡ [] }
        ensures pairs { self.new.pairs ≡ self.old.writes }
    {
        let kept = gather(self.pairs.as_mut_slice(), &self.table);
        self.pairs.truncate(kept);
        self.notes.clear();
        self.branches.clear();
        self.kept.clear();
        settle_far(&mut self.far, self.is_wide, self.pairs.as_slice());
    }

    /// Drops all.
    #[inline(always)]
    pub fn clear(&mut self)
        ensures writes { self.new.writes ≡ [] }
        ensures marks { self.new.marks ≡ [] }
        ensures pairs { self.new.pairs ≡ [] }
    {
        forget(&mut self.table, &mut self.pairs);
        self.notes.clear();
        self.branches.clear();
        self.kept.clear();
        forget_far(&mut self.far, &mut self.is_wide);
    }
}
