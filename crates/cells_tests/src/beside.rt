//! A reader beside a publisher, in two threads.

ghost use Rattle.std.specs.Prelude.{◌≡◌, ◌≤◌, [], ◌∷◌, pos, IfSome};
ghost use Rattle.txn_words.specs.Words.{state_value, StartsWith};
ghost use Rattle.cells.specs.Passing.{at};

use crate::parts::{X, Y};
use cells::{Cells, Pass, Publisher, Read};
use std::thread::join;

/// Publishes states in which both variables have one value.
pub(crate) fn publish_some(cells: &Cells, mut publisher: Publisher, count: u32) -> Publisher
    requires own { publisher.cells ≡ cells.now }
    requires start { publisher.history ≡ (pos 1 ∷ pos 1 ∷ []) ∷ [] }
    ensures own { result.cells ≡ publisher.cells }
{
    for n in 0..count {
        let value = i64::from(n) + 2;
        publisher.publish(cells, &[(X, value), (Y, value)], &[value - 1, value - 1]);
    }
    publisher
}

/// Two reads of one begin, where neither is stale: the values of one state that the pass has seen.
fn read_pair(cells: &Cells, pass: &mut Pass) -> Option<(i64, i64)>
    requires own { pass.old.cells ≡ cells.now }
    requires variables { 2 ≤ cells.now.variables }
    ensures own { pass.new.cells ≡ pass.old.cells }
    ensures later { StartsWith pass.new.seen pass.old.seen }
    ensures values { IfSome result (λ r.
        (r.0 ≡ state_value (at pass.new) 0) × (r.1 ≡ state_value (at pass.new) 1)) }
{
    pass.begin(cells);
    let Read::Value(x) = pass.read(cells, X) else {
        return None;
    };
    let Read::Value(y) = pass.read(cells, Y) else {
        return None;
    };
    Some((x, y))
}

/// Whether each pair of reads of one begin gave one value.
fn read_some(cells: &Cells, mut pass: Pass, count: u32) -> bool
    requires own { pass.cells ≡ cells.now }
    requires variables { 2 ≤ cells.now.variables }
{
    for _ in 0..count {
        if let Some((x, y)) = read_pair(cells, &mut pass) {
            if x != y {
                return false;
            }
        }
    }
    true
}

#[test]
fn reads_beside_a_publisher_are_of_one_state(rt: HostRuntime) {
    let Ok((cells, publisher, mut passes)) = Cells::open(rt.alloc(), &[1, 1], 1) else {
        panic!(rt; "no cells")
    };
    let Some(pass) = passes.pop() else {
        panic!(rt; "no pass")
    };
    let shared = &cells;
    let (publisher, same) = join(
        &rt,
        move || -> Publisher
            requires { (publisher.cells ≡ shared.now) × (publisher.history ≡ (pos 1 ∷ pos 1 ∷ []) ∷ []) }
        { publish_some(shared, publisher, 1000) },
        move || -> bool
            requires { (pass.cells ≡ shared.now) × (2 ≤ shared.now.variables) }
        { read_some(shared, pass, 1000) },
    );
    assert!(rt; same && publisher.number() == 1000);
}
