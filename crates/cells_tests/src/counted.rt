//! Calls of cells that take no memory. Both tests do the same, but that such calls are made in one of
//! them: `hostile/all` counts that they make as many requests for memory.

ghost use Rattle.std.specs.Prelude.{◌≡◌, [], ◌∷◌, pos};

use crate::parts::X;
use cells::{Cells, Extend, Pass, Publisher, Read};
use std::alloc::Global;

/// Whether a pass reads that x is 5, x becomes 6, and the pass finds what it read changed.
fn publishes(cells: &Cells, publisher: &mut Publisher, pass: &mut Pass) -> bool
    requires publisher { publisher.old.cells ≡ cells.now }
    requires start { publisher.old.history ≡ (pos 5 ∷ []) ∷ [] }
    requires pass { pass.old.cells ≡ cells.now }
    requires one { cells.now.variables ≡ 1 }
{
    pass.begin(cells);
    let first = pass.read(cells, X);
    publisher.publish(cells, &[(X, 6)], &[5]);
    let second = pass.extend(cells, &[(X, 5)]);
    publisher.meet(cells, pass);
    first == Read::Value(5) && second == Extend::Changed
}

/// Whether cells are opened, and that is so where it is asked for.
fn is_so(alloc: Global, publishes_too: bool) -> bool {
    match Cells::open(alloc, &[5], 1) {
        Ok((cells, mut publisher, mut passes)) => {
            !publishes_too || publishes(&cells, &mut publisher, &mut passes[0])
        }
        Err(_) => false,
    }
}

#[test]
fn stays(rt: HostRuntime) {
    assert!(rt; is_so(rt.alloc(), false));
}

#[test]
fn moves(rt: HostRuntime) {
    assert!(rt; is_so(rt.alloc(), true));
}
