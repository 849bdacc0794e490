//! What a caller can rest on: how many words a begin, a meeting and reads load, and what is open
//! after them.

ghost use Rattle.std.specs.Prelude.{◌≡◌, ◌+◌, ◌<◌, ◌≤◌, [], ◌∷◌, pos, true, false};

use crate::apart::six_is_met;
use crate::parts::X;
use cells::{Cells, Pass, Publisher, Read};
use txn::VarId;

/// A begin and a meeting after it: the clock is loaded twice, no other word is, and the pass is
/// closed.
fn begin_and_meet(cells: &Cells, publisher: &mut Publisher, pass: &mut Pass)
    requires publisher { publisher.old.cells ≡ cells.now }
    requires pass { pass.old.cells ≡ cells.now }
    ensures clock { pass.new.clock_loads ≡ pass.old.clock_loads + 2 }
    ensures words { pass.new.word_loads ≡ pass.old.word_loads }
    ensures closed { pass.new.open_now ≡ false }
    ensures own { (pass.new.cells ≡ pass.old.cells) × (publisher.new ≡ publisher.old) }
    ensures present { pass.new.seen ≡ publisher.old.history }
{
    pass.begin(cells);
    publisher.meet(cells, pass);
}

/// Two reads: at most six loads of words, and none of the clock.
fn read_twice(cells: &Cells, pass: &mut Pass, x: VarId) -> Option<(i64, i64)>
    requires own { pass.old.cells ≡ cells.now }
    requires open { pass.old.open_now ≡ true }
    requires exists { x.0 < cells.now.variables }
    ensures words { pass.new.word_loads ≤ pass.old.word_loads + 6 }
    ensures clock { pass.new.clock_loads ≡ pass.old.clock_loads }
    ensures own { pass.new.cells ≡ pass.old.cells }
{
    let Read::Value(first) = pass.read(cells, x) else {
        return None;
    };
    let Read::Value(second) = pass.read(cells, x) else {
        return None;
    };
    Some((first, second))
}

/// Whether a begin and a meeting close the pass, and two reads of the next begin agree; then a meeting brings it to the
/// present.
fn are_so(cells: &Cells, publisher: &mut Publisher, pass: &mut Pass) -> bool
    requires publisher { publisher.old.cells ≡ cells.now }
    requires start { publisher.old.history ≡ (pos 5 ∷ []) ∷ [] }
    requires pass { pass.old.cells ≡ cells.now }
    requires one { cells.now.variables ≡ 1 }
{
    begin_and_meet(cells, publisher, pass);
    let was_open = pass.is_open();
    pass.begin(cells);
    !was_open && read_twice(cells, pass, X) == Some((5, 5)) && six_is_met(cells, publisher, pass)
}

#[test]
fn a_meeting_closes_the_pass_and_two_reads_of_one_begin_agree(rt: HostRuntime) {
    match Cells::open(rt.alloc(), &[5], 1) {
        Ok((cells, mut publisher, mut passes)) => {
            assert!(rt; are_so(&cells, &mut publisher, &mut passes[0]));
        }
        Err(_) => panic!(rt; "no cells"),
    }
}
