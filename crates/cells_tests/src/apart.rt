//! Publishes and reads one after another.

ghost use Rattle.std.specs.Prelude.{◌≡◌, ◌+◌, ◌<◌, ◌≤◌, [], ◌∷◌, pos, length};
ghost use Rattle.cells.specs.Publishing.{stores_of};

use crate::extending::{is_told_with_nothing, moves_over_y};
use crate::parts::{X, Y, begins, is_stale, publish_six, sees, sees_both};
use cells::{Cells, Pass, Publisher};
use txn::VarId;

/// Publishes that x and y, which are both 1, are both 2.
fn publish_twos(cells: &Cells, publisher: &mut Publisher)
    requires own { publisher.old.cells ≡ cells.now }
    requires start { publisher.old.history ≡ (pos 1 ∷ pos 1 ∷ []) ∷ [] }
    ensures own { publisher.new.cells ≡ publisher.old.cells }
    ensures twos { publisher.new.history ≡ (pos 1 ∷ pos 1 ∷ []) ∷ (pos 2 ∷ pos 2 ∷ []) ∷ [] }
{
    publisher.publish(cells, &[(X, 2), (Y, 2)], &[1, 1]);
}

/// Publishes that x and y, which are both 2, are both 2.
fn publish_nothing(cells: &Cells, publisher: &mut Publisher)
    requires own { publisher.old.cells ≡ cells.now }
    requires start { publisher.old.history ≡ (pos 1 ∷ pos 1 ∷ []) ∷ (pos 2 ∷ pos 2 ∷ []) ∷ [] }
    ensures own { publisher.new.cells ≡ publisher.old.cells }
    ensures stores { publisher.new.stores ≡ publisher.old.stores + stores_of cells.now 0 }
{
    publisher.publish(cells, &[(X, 2), (Y, 2)], &[2, 2]);
}

/// Whether what a pass that is open reads of the state before the twos is stale, and the twos are read after the next
/// begin, beside a publish that changes nothing, and after it.
fn twos_are_later(cells: &Cells, publisher: &mut Publisher, pass: &mut Pass) -> bool
    requires own { pass.old.cells ≡ cells.now }
    requires publisher { publisher.old.cells ≡ cells.now }
    requires start { publisher.old.history ≡ (pos 1 ∷ pos 1 ∷ []) ∷ [] }
    requires variables { cells.now.variables ≡ 2 }
{
    let was_open = pass.is_open();
    begins(cells, pass);
    publish_twos(cells, publisher);
    if was_open || !is_stale(cells, pass, X) {
        return false;
    }
    begins(cells, pass);
    if !sees_both(cells, pass, 2, 2) || publisher.number() != 1 {
        return false;
    }
    publish_nothing(cells, publisher);
    if !sees_both(cells, pass, 2, 2) || publisher.number() != 2 {
        return false;
    }
    begins(cells, pass);
    sees_both(cells, pass, 2, 2)
}

#[test]
fn a_read_of_a_later_state_is_stale_where_that_changed(rt: HostRuntime) {
    match Cells::open(rt.alloc(), &[1, 1], 1) {
        Ok((cells, mut publisher, mut passes)) => {
            assert!(rt; twos_are_later(&cells, &mut publisher, &mut passes[0]));
        }
        Err(_) => panic!(rt; "no cells"),
    }
}

/// Publishes that y, which is 4, is 5.
fn publish_five(cells: &Cells, publisher: &mut Publisher)
    requires own { publisher.old.cells ≡ cells.now }
    requires start { publisher.old.history ≡ (pos 3 ∷ pos 4 ∷ []) ∷ [] }
    ensures own { publisher.new.cells ≡ publisher.old.cells }
    ensures five { publisher.new.history ≡ (pos 3 ∷ pos 4 ∷ []) ∷ (pos 3 ∷ pos 5 ∷ []) ∷ [] }
{
    publisher.publish(cells, &[(Y, 5)], &[3, 4]);
}

/// Whether an unchanged variable is read beside a later state, and a pass moves where its log is still so.
fn x_is_read_beside_y(cells: &Cells, publisher: &mut Publisher, pass: &mut Pass) -> bool
    requires own { pass.old.cells ≡ cells.now }
    requires publisher { publisher.old.cells ≡ cells.now }
    requires start { publisher.old.history ≡ (pos 3 ∷ pos 4 ∷ []) ∷ [] }
    requires variables { cells.now.variables ≡ 2 }
{
    if !is_told_with_nothing(cells, pass) {
        return false;
    }
    begins(cells, pass);
    publish_five(cells, publisher);
    sees(cells, pass, X, 3) && is_stale(cells, pass, Y) && moves_over_y(cells, publisher, pass)
}

#[test]
fn an_unchanged_variable_is_read_beside_a_later_state(rt: HostRuntime) {
    match Cells::open(rt.alloc(), &[3, 4], 1) {
        Ok((cells, mut publisher, mut passes)) => {
            assert!(rt; x_is_read_beside_y(&cells, &mut publisher, &mut passes[0]));
        }
        Err(_) => panic!(rt; "no cells"),
    }
}

/// Whether a meeting brings a pass to the present.
pub(crate) fn six_is_met(cells: &Cells, publisher: &mut Publisher, pass: &mut Pass) -> bool
    requires own { pass.old.cells ≡ cells.now }
    requires publisher { publisher.old.cells ≡ cells.now }
    requires start { publisher.old.history ≡ (pos 5 ∷ []) ∷ [] }
    requires variables { cells.now.variables ≡ 1 }
{
    begins(cells, pass);
    publish_six(cells, publisher);
    publisher.meet(cells, pass);
    let was_open = pass.is_open();
    begins(cells, pass);
    !was_open && sees(cells, pass, X, 6)
}

/// Whether these are the values of x, y and the last.
fn sees_three(cells: &Cells, pass: &mut Pass, last: VarId, values: [i64; 3]) -> bool
    requires own { pass.old.cells ≡ cells.now }
    requires exist { 2 ≤ cells.now.variables }
    requires last { last.0 < cells.now.variables }
    ensures own { pass.new.cells ≡ pass.old.cells }
{
    begins(cells, pass);
    sees_both(cells, pass, values[0], values[1]) && sees(cells, pass, last, values[2])
}

#[test]
fn the_least_and_the_greatest_values_are_kept(rt: HostRuntime) {
    let first = [i64::MIN, -1, i64::MAX];
    let Ok((cells, mut publisher, mut passes)) = Cells::open(rt.alloc(), &first, 1) else {
        panic!(rt; "no cells")
    };
    let are_first = sees_three(&cells, &mut passes[0], VarId(2), first);
    publisher.publish(
        &cells,
        &[(X, i64::MAX), (Y, i64::MIN), (VarId(2), -1)],
        &first,
    );
    let second = [i64::MAX, i64::MIN, -1];
    assert!(rt; are_first && sees_three(&cells, &mut passes[0], VarId(2), second));
}

#[test]
fn no_variables_and_no_readers_are_allowed(rt: HostRuntime) {
    let Ok((cells, mut publisher, passes)) = Cells::open(rt.alloc(), &[], 0) else {
        panic!(rt; "no cells")
    };
    publisher.publish(&cells, &[], &[]);
    assert!(rt; publisher.number() == 1 && passes.is_empty());
}

#[test]
fn as_many_variables_and_readers_as_may_be(rt: HostRuntime) {
    let Ok((cells, mut publisher, mut passes)) = Cells::open(rt.alloc(), &[7; 256], 32) else {
        panic!(rt; "no cells")
    };
    let last = VarId(255);
    publisher.publish(&cells, &[(X, 8), (last, 9)], &[7; 256]);
    let are_seen = sees_three(&cells, &mut passes[31], last, [8, 7, 9]);
    assert!(rt; are_seen && passes.len() == 32);
}
