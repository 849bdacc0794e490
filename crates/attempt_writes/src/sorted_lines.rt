//! The lines of far variables as pairs in order.

ghost use Rattle.std.specs.Prelude.{◌≡◌, ◌+◌, ◌<◌, ◌≤◌, ◌++◌, [], length, vec_len, vec_capacity};
ghost use Rattle.std.specs.List.Sorted.{IsNonDecreasingBy, IsPermutation};
ghost use Rattle.attempt_writes.specs.FarWrites.{in_lines, listed_if};

use txn_programs::VarId;

/// Lists a line, if it has a value.
fn list_line(pairs: &mut Vec<(VarId, i64)>, number: u32, value: Option<i64>)
    requires room { vec_len pairs.old < vec_capacity pairs.old }
    ensures items { pairs.new.items ≡ pairs.old.items ++ listed_if number value [] }
    ensures len { vec_len pairs.new ≤ vec_len pairs.old + 1 }
    ensures capacity { vec_capacity pairs.old ≤ vec_capacity pairs.new }
{
    match value {
        None => {}
        Some(v) => match pairs.push((VarId(number), v)) {
            Ok(()) => {}
            Err(_) => unreachable!(),
        },
    }
}

/// Lists each line that has a value, in the order of lines.
pub fn list_lines(numbers: &[u32], table: &[Option<i64>], pairs: &mut Vec<(VarId, i64)>)
    requires each { length table.now ≡ length numbers.now }
    requires room { vec_len pairs.old + length numbers.now ≤ vec_capacity pairs.old }
    ensures listed { pairs.new.items ≡ pairs.old.items ++ in_lines numbers.now table.now }
    ensures len { vec_len pairs.new ≤ vec_len pairs.old + length numbers.now }
    ensures capacity { vec_capacity pairs.old ≤ vec_capacity pairs.new }
{
    for k in 0..numbers.len() {
        list_line(pairs, numbers[k], table[k]);
    }
}

/// Sorts pairs by variable. It takes no memory.
pub fn sort_lines(lines: &mut [(VarId, i64)])
    ensures same { IsPermutation lines.old lines.new }
    ensures sorted { IsNonDecreasingBy (λ p. p.0.0) lines.new }
{
    lines.sort_unstable_by_key(|p| p.0.0);
}

/// Puts pairs before those that there are.
pub fn put_in_front(pairs: &mut Vec<(VarId, i64)>, near: &[(VarId, i64)])
    requires room { vec_len pairs.old + length near.now ≤ vec_capacity pairs.old }
    ensures items { pairs.new.items ≡ near.now ++ pairs.old.items }
    ensures capacity { vec_capacity pairs.old ≤ vec_capacity pairs.new }
{
    match pairs.extend_from_slice(near) {
        Ok(()) => {}
        Err(_) => unreachable!(),
    }
    pairs.as_mut_slice().rotate_right(near.len());
}
