//! Cells of more values than there may be variables.

ghost use Rattle.std.specs.Prelude.{◌≡◌, ◌<◌, ◌≤◌, ◌^◌, length};
ghost use Rattle.txn_words.specs.Words.{last_state};

use crate::parts::{X, begins, sees};
use cells::{Cells, Publisher};
use std::alloc::Global;
use txn::VarId;
use txn::limits::MAX_VALUES;

/// Publishes that a variable is 9.
fn publish_nine(cells: &Cells, publisher: &mut Publisher, x: VarId, values: &[i64])
    requires own { publisher.old.cells ≡ cells.now }
    requires present { values.now ≡ last_state publisher.old.history }
    requires exists { x.0 < length (last_state publisher.old.history) }
    requires room { length publisher.old.history ≤ 2 ^ 62 }
    ensures own { publisher.new.cells ≡ publisher.old.cells }
{
    publisher.publish(cells, &[(x, 9)], values);
}

/// Whether of these values, which are 7, the last becomes 9: a pass reads it, and the first as it was.
fn last_changes(alloc: Global, values: &[i64]) -> bool
    requires some { 2 ≤ length values.now }
    requires few { length values.now ≤ MAX_VALUES }
{
    let Ok((cells, mut publisher, mut passes)) = Cells::open(alloc, values, 1) else {
        return false;
    };
    let last = VarId((values.len() - 1) as u32);
    publish_nine(&cells, &mut publisher, last, values);
    let pass = &mut passes[0];
    begins(&cells, pass);
    sees(&cells, pass, last, 9) && sees(&cells, pass, X, 7)
}

/// Whether it is so of so many values.
fn last_of_many_changes(alloc: Global, count: usize) -> bool
    requires some { 2 ≤ count }
    requires few { count ≤ MAX_VALUES }
{
    match vec![in alloc; 7; count] {
        Ok(values) => last_changes(alloc, &values),
        Err(_) => false,
    }
}

#[test]
fn the_last_of_many_values_changes(rt: HostRuntime) {
    assert!(rt; last_of_many_changes(rt.alloc(), 257));
    assert!(rt; last_of_many_changes(rt.alloc(), MAX_VALUES));
}
