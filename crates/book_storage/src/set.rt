//! A set of numbers below a bound.

ghost use Rattle.std.specs.Prelude.{◌≡◌, ◌<◌, ◌≤◌, Some, true, false, length, replicate, ◌++◌};
ghost use Rattle.std.specs.Prelude.{◌-◌, IfOk, IsTrue, ◌↔◌, MatchOption, slice_get, slice_set};
ghost use Rattle.book_storage.specs.Members.{IsLowest, HasNone, IsLowestWord, HasNoneFrom, IsLowestFrom};
ghost use Rattle.book_storage.specs.Levels.{Covers, HasNoBitFrom, IsNextBit};

use crate::level::{clear, first, has, lowest_bits, next_in_word, of_first, reach, set};
use std::alloc::{AllocError, Global};
use std::marker::Model;

/// The most room that a set can have: three levels of 64.
pub const MAX_ROOM: usize = 262_144;

/// A set of numbers below its room. A clause sees a flag for each of these numbers.
#[derive(Drop)]
pub struct TaskSet {
    room: usize,
    /// A bit for each number, as far up as numbers have come.
    numbers: Vec<u64>,
    /// A bit for each word of `numbers` that is not 0.
    words: Vec<u64>,
    /// A bit for each word of `words` that is not 0.
    top: [u64; 1],
}

impl Model for TaskSet {
    ghost use Rattle.std.specs.Prelude.{List, Bool};
    ghost use Rattle.book_storage.specs.SetInside.{flags_of, IsKept};

    ghost Value = { List Bool };

    ghost view = { flags_of };

    ghost invariant = { IsKept };
}

impl TaskSet {
    /// The empty set, with room for the numbers below `room`.
    pub fn with_room(alloc: Global, room: usize) -> Result<TaskSet, AllocError>
        requires { room ≤ MAX_ROOM }
        ensures { IfOk result (λ s. s ≡ replicate room false) }
    {
        TaskSet::of_first(alloc, 0, room)
    }

    /// The set of the numbers below `count`, with room for those below `room`. It takes memory: a bit
    /// for each number that there is room for, a bit for each of these words, each in whole words.
    pub fn of_first(alloc: Global, count: usize, room: usize) -> Result<TaskSet, AllocError>
        requires count { count ≤ room }
        requires room { room ≤ MAX_ROOM }
        ensures { IfOk result (λ s. s ≡ replicate count true ++ replicate (room - count) false) }
    {
        let numbers = of_first(alloc, count, room)?;
        let mut words = of_first(alloc, count.div_ceil(64), room.div_ceil(64))?;
        reach(&mut words, room.div_ceil(64));
        let top = lowest_bits(count.div_ceil(64).div_ceil(64));
        Ok(TaskSet {
            room,
            numbers,
            words,
            top: [top],
        })
    }

    /// The number is in the set.
    pub fn insert(&mut self, number: usize)
        requires { number < length self.old }
        ensures { self.new ≡ slice_set self.old number true }
    {
        reach(&mut self.numbers, number + 1);
        set(&mut self.numbers, number);
        set(&mut self.words, number / 64);
        set(&mut self.top, number / 64 / 64);
    }

    /// The number is not in the set.
    pub fn remove(&mut self, number: usize)
        requires { number < length self.old }
        ensures { self.new ≡ slice_set self.old number false }
    {
        if number / 64 >= self.numbers.len() {
            return;
        }
        if !clear(&mut self.numbers, number) {
            return;
        }
        if !clear(&mut self.words, number / 64) {
            return;
        }
        clear(&mut self.top, number / 64 / 64);
    }

    /// Whether the number is in the set.
    pub fn contains(&self, number: usize) -> bool
        requires { number < length self.now }
        ensures { slice_get self.now number ≡ Some result }
    {
        if number / 64 >= self.numbers.len() {
            return false;
        }
        has(&self.numbers, number)
    }

    /// The lowest number of the set, `None` exactly if it is empty.
    pub fn lowest(&self) -> Option<usize>
        ensures { MatchOption result (HasNone self.now) (IsLowest self.now) }
    {
        if self.top[0] == 0 {
            return None;
        }
        let group = first(&self.top, 0);
        let word = first(&self.words, group);
        Some(first(&self.numbers, word))
    }

    /// The lowest number of the set that is not below `number`, `None` exactly if there is none.
    pub fn first_from(&self, number: usize) -> Option<usize>
        ensures { MatchOption result (HasNoneFrom self.now number) (IsLowestFrom self.now number) }
    {
        if let Some(found) = next_in_word(&self.numbers, number) {
            return Some(found);
        }
        let Some(word) = next_word(&self.words, &self.top, number / 64 + 1) else {
            return None;
        };
        next_in_word(&self.numbers, word * 64)
    }

    /// The first of 64 numbers, from a multiple of 64 on, the lowest that have one in the set, and a
    /// word with a bit for each of them that is in the set. `None` exactly if the set is empty.
    pub fn lowest_word(&self) -> Option<(usize, u64)>
        ensures { MatchOption result (HasNone self.now) (λ p. IsLowestWord self.now p.0 p.1) }
    {
        if self.top[0] == 0 {
            return None;
        }
        let row = first(&self.top, 0);
        let word = first(&self.words, row);
        Some((word * 64, self.numbers[word]))
    }

    /// Whether no number is in the set.
    pub fn is_empty(&self) -> bool
        ensures { IsTrue result ↔ HasNone self.now }
    {
        self.lowest().is_none()
    }
}

/// The first bit that is set, from this one on, of a row that has one word above it.
fn next_word(words: &[u64], top: &[u64], word: usize) -> Option<usize>
    requires few { length words.now ≤ 64 }
    requires one { length top.now ≡ 1 }
    requires over { Covers top.now words.now }
    ensures { MatchOption result (HasNoBitFrom words.now word) (IsNextBit words.now word) }
{
    if let Some(found) = next_in_word(words, word) {
        return Some(found);
    }
    let Some(row) = next_in_word(top, word / 64 + 1) else {
        return None;
    };
    next_in_word(words, row * 64)
}
