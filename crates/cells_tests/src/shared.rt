//! Cells that are lent, and cells that are counted: whoever has them reads them.

ghost use Rattle.std.specs.Prelude.{◌≡◌, ◌<◌, [], ◌∷◌, pos};

use crate::parts::{X, begins, publish_six, sees};
use cells::{Cells, Pass, Publisher, SharedCells};
use std::alloc::Global;

/// Whether a begin at these cells and a read see 6.
fn sees_six(shared: &SharedCells<'_>, pass: &mut Pass) -> bool
    requires own { pass.old.cells ≡ shared.now }
    requires exists { 0 < shared.now.variables }
{
    let cells = shared.get();
    begins(cells, pass);
    sees(cells, pass, X, 6)
}

#[test]
fn lent_cells_are_published_to_and_read(rt: HostRuntime) {
    let Ok((cells, mut publisher, mut passes)) = Cells::open(rt.alloc(), &[5], 1) else {
        panic!(rt; "no cells")
    };
    let shared = SharedCells::lent(&cells);
    let is_lent = match shared.again() {
        Ok(again) => {
            publish_six(shared.get(), &mut publisher);
            sees_six(&again, &mut passes[0])
        }
        Err(_) => false,
    };
    assert!(rt; is_lent);
}

/// Whether counted cells stay with the last who has them.
fn stay(alloc: Global, cells: Cells, publisher: &mut Publisher, pass: &mut Pass) -> bool
    requires publisher { publisher.old.cells ≡ cells }
    requires start { publisher.old.history ≡ (pos 5 ∷ []) ∷ [] }
    requires pass { pass.old.cells ≡ cells }
    requires one { cells.variables ≡ 1 }
{
    let Ok(first) = SharedCells::counted(alloc, cells) else {
        return false;
    };
    let Ok(second) = first.again() else {
        return false;
    };
    publish_six(first.get(), publisher);
    drop(first);
    sees_six(&second, pass)
}

#[test]
fn counted_cells_stay_with_the_last_who_has_them(rt: HostRuntime) {
    match Cells::open(rt.alloc(), &[5], 1) {
        Ok((cells, mut publisher, mut passes)) => {
            assert!(rt; stay(rt.alloc(), cells, &mut publisher, &mut passes[0]));
        }
        Err(_) => panic!(rt; "no cells"),
    }
}
