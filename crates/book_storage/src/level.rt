//! One level of a set: a row of bits in words of 64.

ghost use Rattle.std.specs.Prelude.{◌≡◌, ◌≢◌, ℕ, ◌<◌, ◌≤◌, ◌-◌, ◌*◌, ◌/◌, ◌^◌, ◌++◌, ◌∷◌, []};
ghost use Rattle.std.specs.Prelude.{length, max, nat_eq, slice_index, IfOk, MatchOption, vec_len, vec_capacity};
ghost use Rattle.std.specs.Int.{div_ceil};
ghost use Rattle.book_storage.specs.Levels.{has, with_bit, without_bit, AreFirst, IsFirstWord, IsFirstBit};
ghost use Rattle.book_storage.specs.Levels.{IsBareFrom, IsNextBit};

use std::alloc::{AllocError, Global};

/// A word of which the lowest so many bits are set.
pub fn lowest_bits(count: usize) -> u64
    requires { count ≤ 64 }
    ensures { result ≡ 2 ^ count - 1 }
{
    if count == 64 {
        u64::MAX
    } else {
        (1 << count) - 1
    }
}

/// A row that reaches as far as its first `count` bits, which are set, with room for so many bits.
pub fn of_first(alloc: Global, count: usize, room: usize) -> Result<Vec<u64>, AllocError>
    requires { count ≤ room }
    ensures len { IfOk result (λ words. length words.items ≡ div_ceil count 64) }
    ensures first { IfOk result (λ words. AreFirst count words.items) }
    ensures room { IfOk result (λ words. div_ceil room 64 ≤ vec_capacity words) }
{
    let mut words = Vec::with_capacity(alloc, room.div_ceil(64))?;
    for word in 0..count.div_ceil(64) {
        add(&mut words, lowest_bits((count - word * 64).min(64)));
    }
    Ok(words)
}

/// A word more, for which there is room.
fn add(words: &mut Vec<u64>, word: u64)
    requires { vec_len words.old < vec_capacity words.old }
    ensures added { words.new.items ≡ words.old.items ++ word ∷ [] }
    ensures capacity { vec_capacity words.old ≤ vec_capacity words.new }
{
    match words.push(word) {
        Ok(()) => {}
        Err(_) => unreachable!(),
    }
}

/// The row reaches as far as so many bits, and no bit more is set. There is room for them.
pub fn reach(words: &mut Vec<u64>, bits: usize)
    requires { div_ceil bits 64 ≤ vec_capacity words.old }
    ensures reached { div_ceil bits 64 ≤ length words.new.items }
    ensures no_longer { length words.new.items ≤ max (length words.old.items) (div_ceil bits 64) }
    ensures same { (w : ℕ) → slice_index words.new.items w ≡ slice_index words.old.items w }
    ensures capacity { vec_capacity words.old ≤ vec_capacity words.new }
{
    while words.len() < bits.div_ceil(64) {
        add(words, 0);
    }
}

/// Whether the bit is set.
pub fn has(words: &[u64], bit: usize) -> bool
    requires { bit / 64 < length words.now }
    ensures { result ≡ has words.now bit }
{
    words[bit / 64] >> (bit % 64) & 1 == 1
}

/// Sets the bit.
pub fn set(words: &mut [u64], bit: usize)
    requires { bit / 64 < length words.old }
    ensures { words.new ≡ with_bit words.old bit }
{
    words[bit / 64] |= 1 << (bit % 64);
}

/// Clears the bit. Whether its word is 0 then.
pub fn clear(words: &mut [u64], bit: usize) -> bool
    requires { bit / 64 < length words.old }
    ensures cleared { words.new ≡ without_bit words.old bit }
    ensures empty { result ≡ nat_eq (slice_index words.new (bit / 64)) 0 }
{
    words[bit / 64] &= !(1 << (bit % 64));
    words[bit / 64] == 0
}

/// The first bit that is set, where this is the first word that is not 0.
pub fn first(words: &[u64], word: usize) -> usize
    requires few { length words.now ≤ 4096 }
    requires first { IsFirstWord words.now word }
    ensures { IsFirstBit words.now result }
{
    word * 64 + words[word].trailing_zeros() as usize
}

/// The first bit of its word that is set, from this one on. `None` exactly if no such bit is.
pub fn next_in_word(words: &[u64], bit: usize) -> Option<usize>
    requires { length words.now ≤ 4096 }
    ensures { MatchOption result (IsBareFrom words.now bit)
        (λ b. IsNextBit words.now bit b × (b / 64 ≡ bit / 64)) }
{
    if bit / 64 >= words.len() {
        return None;
    }
    let rest = words[bit / 64] >> (bit % 64);
    if rest == 0 {
        return None;
    }
    Some(bit + rest.trailing_zeros() as usize)
}
