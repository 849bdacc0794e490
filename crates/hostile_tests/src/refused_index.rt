//! What a refused growth of a list of numbers leaves.

use attempt_writes::NumberIndex;
use txn::limits::MAX_VALUES;

/// Whether so many numbers from 200 on are in the list, and the next one is not.
fn has_all(numbers: &NumberIndex, count: u32) -> bool {
    for k in 0..count.min(1000) {
        if numbers.find(200 + k) != Some(k as usize) {
            return false;
        }
    }
    numbers.len() == count as usize && numbers.find(200 + count.min(1000)).is_none()
}

/// Lists the next number, and once more where it is refused. Whether a refused push left the list as it was,
/// and the next one succeeds.
fn grows(numbers: &mut NumberIndex, count: u32) -> bool {
    let number = 200 + count.min(1000);
    if number as usize >= MAX_VALUES || !has_all(numbers, count) {
        return false;
    }
    match numbers.find(number) {
        Some(_) => false,
        None => {
            if numbers.push(number).is_ok() {
                return true;
            }
            has_all(numbers, count) && numbers.push(number).is_ok()
        }
    }
}

/// Whether it is so for each of 120 numbers.
fn keeps_all(numbers: &mut NumberIndex) -> bool {
    for count in 0..120 {
        if !grows(numbers, count) {
            return false;
        }
    }
    has_all(numbers, 120)
}

#[test]
fn a_list_keeps_its_numbers(rt: HostRuntime) {
    let mut numbers = NumberIndex::new(rt.alloc());
    let keeps = keeps_all(&mut numbers);
    drop(numbers);
    assert!(&rt; keeps);
}
