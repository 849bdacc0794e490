//! Numbers that are found by themselves.

use attempt_writes::NumberIndex;
use txn::limits::MAX_VALUES;

/// Whether the list has no such number, takes it, and finds it at its end then.
fn lists(numbers: &mut NumberIndex, number: u32) -> bool {
    if number as usize >= MAX_VALUES {
        return false;
    }
    let place = numbers.len();
    match numbers.find(number) {
        Some(_) => false,
        None => numbers.push(number).is_ok() && numbers.find(number) == Some(place),
    }
}

/// A hundred numbers of one bucket, one after another, which are cleared then.
fn lists_a_bucket(numbers: &mut NumberIndex, round: u8) -> bool {
    let round = u32::from(round);
    for k in 0..100 {
        if !lists(numbers, 64 * k + round) {
            return false;
        }
    }
    let found = numbers.len() == 100
        && numbers.find(64 + round) == Some(1)
        && numbers.find(65 + round).is_none();
    numbers.clear();
    found && numbers.len() == 0 && numbers.find(round).is_none()
}

/// Whether each of a hundred thousand numbers is taken.
fn lists_many(numbers: &mut NumberIndex) -> bool {
    for number in 300..100_300 {
        if !lists(numbers, number) {
            return false;
        }
    }
    numbers.len() == 100_000
}

/// Whether each of them is found where it stands, and its neighbours are not.
fn finds_many(numbers: &NumberIndex) -> bool {
    for number in 300..100_300u32 {
        if numbers.find(number) != Some((number - 300) as usize) {
            return false;
        }
    }
    numbers.find(299).is_none() && numbers.find(100_300).is_none()
}

/// Whether the highest number that there may be is taken, and the lowest.
fn lists_the_highest(numbers: &mut NumberIndex) -> bool {
    numbers.clear();
    lists(numbers, 1_048_831)
        && lists(numbers, 0)
        && numbers.find(1_048_831) == Some(0)
        && numbers.find(1_048_830).is_none()
}

#[test]
fn numbers_are_found_at_their_places(rt: HostRuntime) {
    let mut numbers = NumberIndex::new(rt.alloc());
    let are_found = lists_a_bucket(&mut numbers, 0)
        && lists_a_bucket(&mut numbers, 1)
        && lists_a_bucket(&mut numbers, 2)
        && lists_many(&mut numbers)
        && finds_many(&numbers)
        && lists_the_highest(&mut numbers);
    assert!(rt; are_found);
}
