//! Publishes to cells that nobody reads.

ghost use Rattle.std.specs.Prelude.{◌≡◌, ◌+◌, false, [], ◌∷◌, pos, length};
ghost use Rattle.txn_words.specs.Words.{last_state};

use crate::parts::{X, Y};
use cells::{Cells, Publisher};
use txn::VarId;

/// Publishes that x and y, which are both 1, are both 2, then no change, and then that y is 3. No
/// word is stored.
fn publish_thrice(cells: &Cells, publisher: &mut Publisher)
    requires own { publisher.old.cells ≡ cells.now }
    requires unread { cells.now.are_read ≡ false }
    requires start { publisher.old.history ≡ (pos 1 ∷ pos 1 ∷ []) ∷ [] }
    ensures history { publisher.new.history
        ≡ (pos 1 ∷ pos 1 ∷ []) ∷ (pos 2 ∷ pos 2 ∷ []) ∷ (pos 2 ∷ pos 2 ∷ []) ∷ (pos 2 ∷ pos 3 ∷ []) ∷ [] }
    ensures stores { publisher.new.stores ≡ publisher.old.stores }
{
    publisher.publish(cells, &[(X, 2), (Y, 2)], &[1, 1]);
    publisher.publish(cells, &[], &[2, 2]);
    publisher.publish(cells, &[(Y, 3)], &[2, 2]);
}

#[test]
fn each_publish_is_counted(rt: HostRuntime) {
    let Ok((cells, mut publisher)) = Cells::unread(rt.alloc(), &[1, 1]) else {
        panic!(rt; "no cells")
    };
    let before = publisher.number();
    publish_thrice(&cells, &mut publisher);
    assert!(rt; before == 0 && publisher.number() == 3);
}

#[test]
fn no_variables_are_allowed(rt: HostRuntime) {
    let Ok((cells, mut publisher)) = Cells::unread(rt.alloc(), &[]) else {
        panic!(rt; "no cells")
    };
    publisher.publish(&cells, &[], &[]);
    assert!(rt; publisher.number() == 1);
}

#[test]
fn as_many_variables_as_may_be(rt: HostRuntime) {
    let Ok((cells, mut publisher)) = Cells::unread(rt.alloc(), &[7; 256]) else {
        panic!(rt; "no cells")
    };
    publisher.publish(&cells, &[(X, 8), (VarId(255), 9)], &[7; 256]);
    assert!(rt; publisher.number() == 1);
}
