//! Numbers, each found by itself in constant time.
//!
//! While there are few, each is looked at. Beyond that the low bits of a number say its bucket: a head
//! is one more than the place of its bucket's newest number, a link one more than that of the number
//! before it in the bucket, and 0 where there is none. Heads and links are written once a number comes
//! and never cleared: a head that is left over from earlier numbers counts only where a number of its
//! bucket stands at its place.

ghost use Rattle.std.specs.Prelude.{◌≡◌, ◌≢◌, ℕ, ◌<◌, ◌≤◌, ◌+◌, ◌++◌, ◌∷◌, [], None, length, max};
ghost use Rattle.std.specs.Prelude.{slice_get, slice_index, IsOk, IfOk, IfSome, OnOk, OnErr};
ghost use Rattle.attempt_writes.specs.NumberIndex.{AreHeads, IsAbsent, IsFound, IsNewest, bucket_of};

use smallvec::SmallVec;
use std::alloc::{AllocError, Global};
use std::marker::Model;
use txn_programs::limits::MAX_VALUES;

/// How many numbers are looked at one by one: they lie in the index itself.
const FEW: usize = 8;

/// A list of distinct numbers, in the order of coming. A clause sees the list.
#[derive(Drop)]
pub struct NumberIndex {
    numbers: SmallVec<u32, FEW>,
    /// None while there never were more than a few numbers.
    heads: Vec<u32>,
    /// As many as heads, of which those of the numbers count.
    links: Vec<u32>,
}

impl Model for NumberIndex {
    ghost use Rattle.std.specs.Prelude.{List, ℕ};

    ghost Value = { List ℕ };

    ghost view = { λ a. a.numbers.items };

    ghost use Rattle.attempt_writes.specs.NumberIndexInside.{IsIndexed};

    ghost invariant = { IsIndexed };
}

/// The bucket of a number, where there are so many: a power of two, so that each is some number's.
#[inline(always)]
fn bucket(number: u32, buckets: usize) -> usize
    requires { 0 < buckets }
    ensures value { result ≡ bucket_of buckets number }
    ensures within { result < buckets }
{
    number as usize & (buckets - 1)
}

/// One more than the place of the newest of the first so many numbers in a bucket, or 0 where none is in it.
fn newest(numbers: &[u32], count: usize, heads: &[u32], b: usize) -> usize
    requires within { count ≤ length numbers.now }
    requires heads { AreHeads (length heads.now) numbers.now count heads.now }
    requires bucket { b < length heads.now }
    ensures { IsNewest (length heads.now) numbers.now count b result }
{
    let head = heads[b] as usize;
    if head == 0 || head > count {
        return 0;
    }
    if bucket(numbers[head - 1], heads.len()) == b {
        head
    } else {
        0
    }
}

/// The place of a number, by a look at each.
fn look_at_each(numbers: &[u32], number: u32) -> Option<usize>
    ensures there { IfSome result (λ k. slice_get numbers.now k ≡ Some number) }
    ensures nowhere { result ≡ None → IsAbsent numbers.now number }
{
    for (k, other) in numbers.iter().enumerate() {
        if *other == number {
            return Some(k);
        }
    }
    None
}

/// The place of a number, by the heads and the links.
fn follow(numbers: &[u32], heads: &[u32], links: &[u32], number: u32) -> Option<usize>
    requires some { 0 < length heads.now }
    requires found { IsFound numbers.now (length numbers.now) heads.now links.now }
    ensures there { IfSome result (λ k. slice_get numbers.now k ≡ Some number) }
    ensures nowhere { result ≡ None → IsAbsent numbers.now number }
{
    let b = bucket(number, heads.len());
    let mut at = newest(numbers, numbers.len(), heads, b);
    while at > 0 {
        if numbers[at - 1] == number {
            return Some(at - 1);
        }
        at = links[at - 1] as usize;
    }
    None
}

/// One more of the numbers goes into its bucket, if there are buckets.
fn enter(numbers: &[u32], count: usize, heads: &mut Vec<u32>, links: &mut Vec<u32>)
    requires more { count < length numbers.now }
    requires few { length numbers.now ≤ MAX_VALUES }
    requires room { count < max FEW (length heads.old.items) }
    requires found { IsFound numbers.now count heads.old.items links.old.items }
    ensures found { IsFound numbers.now (count + 1) heads.new.items links.new.items }
    ensures heads { length heads.new.items ≡ length heads.old.items }
{
    if heads.is_empty() {
        return;
    }
    let b = bucket(numbers[count], heads.len());
    links[count] = newest(numbers, count, heads, b) as u32;
    heads[b] = (count + 1) as u32;
}

/// Twice as many buckets, and each number goes into its own.
#[cold]
#[inline(never)]
fn make_room(
    alloc: Global,
    numbers: &[u32],
    heads: &mut Vec<u32>,
    links: &mut Vec<u32>,
) -> Result<(), AllocError>
    requires few { length numbers.now ≤ MAX_VALUES }
    requires found { IsFound numbers.now (length numbers.now) heads.old.items links.old.items }
    ensures found { IsFound numbers.now (length numbers.now) heads.new.items links.new.items }
    ensures room { OnOk result (length numbers.now < length heads.new.items) }
    ensures refused { OnErr result (heads.new.items ≡ heads.old.items) }
{
    let room = 2 * heads.len().max(FEW);
    let mut new_heads = vec![in alloc; 0; room]?;
    let mut new_links = vec![in alloc; 0; room]?;
    for count in 0..numbers.len() {
        enter(numbers, count, &mut new_heads, &mut new_links);
    }
    *heads = new_heads;
    *links = new_links;
    Ok(())
}

/// Makes room for one number more, if there is none.
fn have_room(
    alloc: Global,
    numbers: &[u32],
    heads: &mut Vec<u32>,
    links: &mut Vec<u32>,
) -> Result<(), AllocError>
    requires few { length numbers.now ≤ MAX_VALUES }
    requires found { IsFound numbers.now (length numbers.now) heads.old.items links.old.items }
    ensures found { IsFound numbers.now (length numbers.now) heads.new.items links.new.items }
    ensures room { OnOk result (length numbers.now < max FEW (length heads.new.items)) }
    ensures in_place { length numbers.now < FEW → IsOk result }
{
    if numbers.len() < heads.len().max(FEW) {
        return Ok(());
    }
    make_room(alloc, numbers, heads, links)
}

impl NumberIndex {
    /// An empty list. It takes no memory.
    pub fn new(alloc: Global) -> NumberIndex
        ensures { result ≡ [] }
    {
        NumberIndex {
            numbers: SmallVec::new(alloc),
            heads: Vec::new(alloc),
            links: Vec::new(alloc),
        }
    }

    /// How many numbers there are.
    pub fn len(&self) -> usize
        ensures value { result ≡ length self.now }
        ensures few { result ≤ MAX_VALUES }
    {
        self.numbers.len()
    }

    /// The numbers.
    pub fn as_slice(&self) -> &[u32]
        ensures { result.now ≡ self.now }
    {
        self.numbers.as_slice()
    }

    /// The place of a number in the list, if it is there.
    pub fn find(&self, number: u32) -> Option<usize>
        ensures there { IfSome result (λ k. slice_get self.now k ≡ Some number) }
        ensures only { IfSome result (λ k. (j : ℕ) → slice_get self.now j ≡ Some number → j ≡ k) }
        ensures nowhere { result ≡ None → IsAbsent self.now number }
    {
        if self.heads.is_empty() {
            look_at_each(self.numbers.as_slice(), number)
        } else {
            follow(self.numbers.as_slice(), &self.heads, &self.links, number)
        }
    }

    /// One number more, that is not there. Refused, the list is as it was. The first eight take no memory.
    pub fn push(&mut self, number: u32) -> Result<(), AllocError>
        requires known { number < MAX_VALUES }
        requires new { IsAbsent self.old number }
        ensures ok { OnOk result (self.new ≡ self.old ++ number ∷ []) }
        ensures refused { OnErr result (self.new ≡ self.old) }
        ensures in_place { length self.old < 8 → IsOk result }
    {
        let alloc = *self.numbers.allocator();
        have_room(
            alloc,
            self.numbers.as_slice(),
            &mut self.heads,
            &mut self.links,
        )?;
        let count = self.numbers.len();
        self.numbers.push(number)?;
        enter(
            self.numbers.as_slice(),
            count,
            &mut self.heads,
            &mut self.links,
        );
        Ok(())
    }

    /// Drops all, and keeps the room. What is left over of heads and links does not matter.
    pub fn clear(&mut self)
        ensures { self.new ≡ [] }
    {
        self.numbers.clear();
    }
}
