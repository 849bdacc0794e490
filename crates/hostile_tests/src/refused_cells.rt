//! What a refused opening of cells leaves.

ghost use Rattle.std.specs.Prelude.{◌≡◌, [], ◌∷◌, pos};

use cells::{Cells, Publisher, Read};
use std::alloc::Global;
use txn::VarId;

/// What a pass of new cells reads, `None` where the opening is refused.
fn read(alloc: Global) -> Option<Read> {
    let (cells, _, mut passes) = Cells::open(alloc, &[5], 3).ok()?;
    let pass = &mut passes[2];
    pass.begin(&cells);
    Some(pass.read(&cells, VarId(0)))
}

/// Publishes that the variable, which is 5, is 6.
fn publish(cells: &Cells, publisher: &mut Publisher)
    requires own { publisher.old.cells ≡ cells.now }
    requires start { publisher.old.history ≡ (pos 5 ∷ []) ∷ [] }
{
    publisher.publish(cells, &[(VarId(0), 6)], &[5]);
}

/// How many states were published to new cells that nobody reads, `None` where the opening is refused.
fn number(alloc: Global) -> Option<u64> {
    let (cells, mut publisher) = Cells::unread(alloc, &[5]).ok()?;
    publish(&cells, &mut publisher);
    Some(publisher.number())
}

#[test]
fn after_a_refused_opening_cells_open(rt: HostRuntime) {
    let alloc = rt.alloc();
    let five = Some(Read::Value(5));
    assert!(rt; read(alloc) == five || read(alloc) == five);
    assert!(rt; number(alloc) == Some(1) || number(alloc) == Some(1));
}
