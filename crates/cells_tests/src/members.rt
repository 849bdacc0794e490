//! Which numbers are in a `book_storage`, and which is the lowest, by values worked out by hand.

ghost use Rattle.std.specs.Prelude.{◌≡◌, ◌<◌, ◌≤◌, length};

use book_storage::{MAX_ROOM, TaskSet};
use std::alloc::Global;

/// Whether the set has what was inserted, up to its removal.
fn has_what_was_inserted(set: &mut TaskSet) -> bool
    requires { length set.old ≡ 5_000 }
    ensures { length set.new ≡ 5_000 }
{
    let was_empty = set.is_empty();
    set.insert(64);
    let has_one = set.contains(64) && !set.contains(0) && !set.contains(63);
    set.remove(64);
    was_empty && has_one && !set.contains(64) && set.is_empty()
}

/// Whether the lowest is found at each level: 64 is in the second word, 4,096 under the second word of words.
fn finds_the_lowest(set: &mut TaskSet) -> bool
    requires { length set.old ≡ 5_000 }
    ensures { length set.new ≡ 5_000 }
{
    set.insert(4_096);
    let last = set.lowest();
    set.insert(64);
    let middle = set.lowest();
    set.insert(3);
    let first = set.lowest();
    set.remove(3);
    last == Some(4_096) && middle == Some(64) && first == Some(3)
}

/// Whether the next is found at each level, where these two are in the set.
fn finds_the_next(set: &mut TaskSet) -> bool
    requires { length set.old ≡ 5_000 }
    ensures { length set.new ≡ 5_000 }
{
    set.remove(64);
    let next = set.lowest();
    set.remove(4_096);
    next == Some(4_096) && set.lowest() == None
}

/// Whether the first number of a word keeps its word's bit while another is left.
fn forgets_no_neighbour(set: &mut TaskSet) -> bool
    requires { length set.old ≡ 5_000 }
    ensures { length set.new ≡ 5_000 }
{
    set.insert(4_999);
    set.insert(4_992);
    set.remove(4_992);
    set.remove(1);
    let lowest = set.lowest();
    set.remove(4_999);
    lowest == Some(4_999)
}

/// Whether the lowest word is told: 64 numbers at a time, from a multiple of 64 on.
fn tells_the_lowest_word(set: &mut TaskSet) -> bool
    requires { length set.old ≡ 5_000 }
    ensures { length set.new ≡ 5_000 }
{
    let none = set.lowest_word();
    set.insert(4_096);
    set.insert(4_159);
    let last = set.lowest_word();
    set.insert(65);
    let middle = set.lowest_word();
    set.insert(0);
    let first = set.lowest_word();
    none == None
        && last == Some((4_096, 1 << 63 | 1))
        && middle == Some((64, 2))
        && first == Some((0, 1))
}

/// Whether in an empty set the lowest from a number on is found.
fn finds_the_lowest_from(set: &mut TaskSet) -> bool
    requires { length set.old ≡ 5_000 }
{
    let none = set.first_from(0);
    set.insert(4_096);
    set.insert(64);
    set.insert(3);
    none.is_none()
        && set.first_from(0) == Some(3)
        && set.first_from(3) == Some(3)
        && set.first_from(4) == Some(64)
        && set.first_from(64) == Some(64)
        && set.first_from(65) == Some(4_096)
        && set.first_from(4_096) == Some(4_096)
        && set.first_from(4_097).is_none()
        && set.first_from(usize::MAX).is_none()
}

/// Whether all that is so of an empty set, one after another.
fn is_a_set(set: &mut TaskSet) -> bool
    requires { length set.old ≡ 5_000 }
    ensures { length set.new ≡ 5_000 }
{
    has_what_was_inserted(set)
        && finds_the_lowest(set)
        && finds_the_next(set)
        && forgets_no_neighbour(set)
        && tells_the_lowest_word(set)
}

#[test]
fn numbers_are_found_at_each_level(rt: HostRuntime) {
    match TaskSet::with_room(rt.alloc(), 5_000) {
        Ok(mut set) => assert!(rt; is_a_set(&mut set)),
        Err(_) => panic!(rt; "no room"),
    }
    match TaskSet::with_room(rt.alloc(), 5_000) {
        Ok(mut set) => assert!(rt; finds_the_lowest_from(&mut set)),
        Err(_) => panic!(rt; "no room"),
    }
}

/// Whether the last number that there is room for is found.
fn finds_the_last(alloc: Global) -> bool {
    let Ok(mut set) = TaskSet::with_room(alloc, MAX_ROOM) else {
        return false;
    };
    set.insert(262_143);
    set.lowest() == Some(262_143)
        && set.first_from(64) == Some(262_143)
        && set.first_from(262_144).is_none()
}

/// Whether a set without room is empty.
fn has_no_room(alloc: Global) -> bool {
    match TaskSet::with_room(alloc, 0) {
        Ok(set) => set.lowest() == None && set.is_empty(),
        Err(_) => false,
    }
}

/// Whether a set has the first numbers: 4,097 are 64 words and one number more.
fn has_the_first(alloc: Global) -> bool {
    match TaskSet::of_first(alloc, 4_097, 5_000) {
        Ok(set) => {
            set.lowest_word() == Some((0, u64::MAX))
                && set.contains(64)
                && set.contains(4_096)
                && !set.contains(4_097)
                && !set.contains(4_999)
        }
        Err(_) => false,
    }
}

/// Whether a set of two numbers is empty behind both.
fn has_two(alloc: Global) -> bool {
    let Ok(mut set) = TaskSet::of_first(alloc, 2, 5_000) else {
        return false;
    };
    set.remove(0);
    let lowest = set.lowest();
    set.remove(1);
    lowest == Some(1) && set.is_empty()
}

/// Whether a set of as many numbers as there is room for has this one, and the lowest is 0.
fn is_full(alloc: Global, room: usize, last: usize) -> bool
    requires room { room ≤ MAX_ROOM }
    requires last { last < room }
{
    match TaskSet::of_first(alloc, room, room) {
        Ok(set) => set.lowest() == Some(0) && set.contains(last),
        Err(_) => false,
    }
}

#[test]
fn numbers_are_found_at_the_limits(rt: HostRuntime) {
    let alloc = rt.alloc();
    let are_found = finds_the_last(alloc) && has_no_room(alloc) && has_the_first(alloc);
    assert!(rt; are_found && has_two(alloc));
    assert!(rt; is_full(alloc, MAX_ROOM, 262_143) && is_full(alloc, 64, 63));
    match TaskSet::of_first(alloc, 0, 64) {
        Ok(set) => assert!(rt; set.is_empty()),
        Err(_) => panic!(rt; "no room"),
    }
}
