//! The calls of a chapter's tasks, in room that is taken once.
//!
//! The arguments of a call stand in a row of their own, which is as wide as the catalogue's calls need at
//! most. Where none of them has an argument, there are no rows, and they take neither memory nor time.

ghost use Rattle.std.specs.Prelude.{◌≡◌, ◌≢◌, ◌<◌, ◌≤◌, ◌+◌, ◌*◌, ◌++◌, ◌∷◌, [], ℕ, length, map, take, drop};
ghost use Rattle.std.specs.Prelude.{IfOk, Some, slice_get, slice_set, slice_index, slice_index_or, vec_len, pos};
ghost use Rattle.std.specs.Prelude.{vec_capacity};
ghost use Rattle.txn_programs.specs.declared.arguments.Call as calls;
ghost use Rattle.txn_programs.specs.declared.limits.TheConstants.{MAX_PARAMETERS, MAX_TASKS};
ghost use Rattle.book.specs.Standings.{bare};
ghost use Rattle.book.specs.Carrying.{carried, staying};
ghost use Rattle.book.specs.Calls.{with_calls};

use crate::task::{Slot, stays};
use std::alloc::{AllocError, Global};
use std::marker::Model;
use txn::{Arguments, Call, TxId};

/// The calls of tasks, in their order. A clause sees the calls, how many arguments each of them can have,
/// and for how many there is room.
#[derive(Drop)]
pub struct Calls {
    /// The transaction of each call.
    transactions: Vec<TxId>,
    /// How many arguments each call has: a number for each that there is room for, where there are rows.
    counts: Vec<u8>,
    /// A row for each call that there is room for, with the arguments at its beginning.
    rows: Vec<i64>,
    /// How many numbers a row has.
    width: usize,
    room: usize,
}

impl Model for Calls {
    ghost use Rattle.std.specs.Coded.{codes};
    ghost use Rattle.txn.specs.Codes.{coded_call};
    ghost use Rattle.book.specs.Calls.{CallsView};

    ghost Value = { CallsView };

    ghost coded = { Prim.hlevel (codes, coded_call) };

    ghost use Rattle.book.specs.CallsInside.{calls_view, IsKept};

    ghost view = { calls_view };

    ghost invariant = { IsKept };
}

impl Calls {
    /// No calls, and room for so many, each with so many arguments at most. It is the one call that takes
    /// memory.
    pub fn with_room(alloc: Global, width: usize, room: usize) -> Result<Calls, AllocError>
        requires narrow { width ≤ MAX_PARAMETERS }
        requires few { room ≤ MAX_TASKS }
        ensures { IfOk result (λ c. c ≡ record { calls = []; width = width; room = room }) }
    {
        let rows = if width == 0 { 0 } else { room };
        Ok(Calls {
            transactions: Vec::with_capacity(alloc, room)?,
            counts: vec![in alloc; 0; rows]?,
            rows: vec![in alloc; 0; rows * width]?,
            width,
            room,
        })
    }

    /// How many calls there are.
    pub fn len(&self) -> usize
        ensures { result ≡ length self.now.calls }
    {
        self.transactions.len()
    }

    /// The transaction of a task's call.
    pub fn transaction(&self, task: usize) -> TxId
        requires { task < length self.now.calls }
        ensures { slice_get (map (λ c. c.tx) self.now.calls) task ≡ Some result }
    {
        self.transactions[task]
    }

    /// The arguments of a task's call.
    pub fn arguments(&self, task: usize) -> &[i64]
        requires { task < length self.now.calls }
        ensures value { slice_get (map (λ c. c.arguments) self.now.calls) task ≡ Some result.now }
        ensures few { length result.now ≤ MAX_PARAMETERS }
    {
        if self.width == 0 {
            return &[];
        }
        let count = self.counts[task] as usize;
        row_of(&self.rows, self.width, task, count)
    }

    /// A task's call.
    pub fn call(&self, task: usize) -> Call
        requires { task < length self.now.calls }
        ensures { slice_get self.now.calls task ≡ Some result }
    {
        Call {
            tx: self.transaction(task),
            arguments: Arguments::of(self.arguments(task)),
        }
    }

    /// A call more, for which there is room.
    pub fn add(&mut self, tx: TxId, arguments: &[i64])
        requires room { length self.old.calls < self.old.room }
        requires fits { length arguments.now ≤ self.old.width }
        ensures { self.new ≡ with_calls self.old
            (self.old.calls ++ record { tx = tx; arguments = arguments.now } ∷ []) }
    {
        let task = self.transactions.len();
        note(&mut self.transactions, tx);
        if self.width == 0 {
            return;
        }
        put_row(
            &mut self.counts,
            &mut self.rows,
            self.width,
            task,
            arguments,
        );
    }

    /// The calls of the tasks that stay, in their order. They are so many, and behind the last of them it
    /// looks at no task.
    pub fn keep_staying(&mut self, standings: &[Slot], count: usize)
        requires each { length standings.now ≡ length self.old.calls }
        requires count { count ≡ length (carried (map bare standings.now)) }
        ensures { self.new ≡ with_calls self.old (staying self.old.calls (map bare standings.now)) }
    {
        if count == standings.len() {
            return;
        }
        let mut kept = 0;
        let mut task = 0;
        'tasks: while kept < count {
            if stays(&standings[task]) {
                self.copy(task, kept);
                kept += 1;
            }
            task += 1;
        }
        self.cut(kept);
    }

    /// The task of the second number has the call of the first.
    fn copy(&mut self, from: usize, to: usize)
        requires from { from < length self.old.calls }
        requires to { to ≤ from }
        ensures { (call : calls.Call) → slice_get self.old.calls from ≡ Some call
            → self.new ≡ with_calls self.old (slice_set self.old.calls to call) }
    {
        let tx = self.transactions[from];
        put(&mut self.transactions, to, tx);
        if self.width == 0 {
            return;
        }
        copy_row(&mut self.counts, &mut self.rows, self.width, from, to);
    }

    /// The first so many calls.
    fn cut(&mut self, count: usize)
        ensures { self.new ≡ with_calls self.old (take count self.old.calls) }
    {
        self.transactions.truncate(count);
    }
}

/// Adds a transaction, for which there is room.
fn note(transactions: &mut Vec<TxId>, tx: TxId)
    requires { vec_len transactions.old < vec_capacity transactions.old }
    ensures items { transactions.new.items ≡ transactions.old.items ++ tx ∷ [] }
    ensures capacity { vec_capacity transactions.old ≤ vec_capacity transactions.new }
{
    match transactions.push(tx) {
        Ok(()) => {}
        Err(_) => unreachable!(),
    }
}

/// The transaction stands there.
fn put(transactions: &mut Vec<TxId>, at: usize, tx: TxId)
    requires { at < length transactions.old.items }
    ensures items { transactions.new.items ≡ slice_set transactions.old.items at tx }
    ensures capacity { vec_capacity transactions.new ≡ vec_capacity transactions.old }
{
    transactions[at] = tx;
}

/// The first numbers of a row.
fn row_of(rows: &[i64], width: usize, row: usize, count: usize) -> &[i64]
    requires { row * width + count ≤ length rows.now }
    ensures { result.now ≡ take count (drop (row * width) rows.now) }
{
    let start = row * width;
    &rows[start..start + count]
}

/// The arguments stand at the beginning of a row, and all other rows are as they were.
fn put_row(counts: &mut Vec<u8>, rows: &mut Vec<i64>, width: usize, row: usize, arguments: &[i64])
    requires fits { length arguments.now ≤ width }
    requires narrow { width ≤ MAX_PARAMETERS }
    requires counted { row < length counts.old.items }
    requires whole { row * width + width ≤ length rows.old.items }
    ensures counts { counts.new.items ≡ slice_set counts.old.items row (length arguments.now) }
    ensures row { take (length arguments.now) (drop (row * width) rows.new.items) ≡ arguments.now }
    ensures size { length rows.new.items ≡ length rows.old.items }
    ensures before { (k : ℕ) → k < row * width
        → slice_index_or rows.new.items k (pos 0) ≡ slice_index_or rows.old.items k (pos 0) }
    ensures after { (k : ℕ) → row * width + width ≤ k
        → slice_index_or rows.new.items k (pos 0) ≡ slice_index_or rows.old.items k (pos 0) }
{
    let start = row * width;
    let count = arguments.len();
    counts[row] = count as u8;
    rows[start..start + count].copy_from_slice(arguments);
}

/// A row is that of a higher number, and all others are as they were.
fn copy_row(counts: &mut Vec<u8>, rows: &mut Vec<i64>, width: usize, from: usize, to: usize)
    requires below { to ≤ from }
    requires counted { from < length counts.old.items }
    requires whole { from * width + width ≤ length rows.old.items }
    ensures counts { counts.new.items ≡ slice_set counts.old.items to (slice_index counts.old.items from) }
    ensures row { (n : ℕ) → n ≤ width
        → take n (drop (to * width) rows.new.items) ≡ take n (drop (from * width) rows.old.items) }
    ensures size { length rows.new.items ≡ length rows.old.items }
    ensures before { (k : ℕ) → k < to * width
        → slice_index_or rows.new.items k (pos 0) ≡ slice_index_or rows.old.items k (pos 0) }
    ensures after { (k : ℕ) → to * width + width ≤ k
        → slice_index_or rows.new.items k (pos 0) ≡ slice_index_or rows.old.items k (pos 0) }
{
    counts[to] = counts[from];
    let start = from * width;
    rows.copy_within(start..start + width, to * width);
}
