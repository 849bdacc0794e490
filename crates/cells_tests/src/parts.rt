//! The variables of the tests, and reads that are compared.

ghost use Rattle.std.specs.Prelude.{◌≡◌, ◌<◌, ◌≤◌, [], ◌∷◌, pos};

use cells::{Cells, Pass, Publisher, Read};
use txn::VarId;

pub(crate) const X: VarId = VarId(0);

pub(crate) const Y: VarId = VarId(1);

/// Whether a read of a pass that is open gives this value, and the pass stays open.
pub(crate) fn sees(cells: &Cells, pass: &mut Pass, x: VarId, value: i64) -> bool
    requires own { pass.old.cells ≡ cells.now }
    requires exists { x.0 < cells.now.variables }
    ensures own { pass.new.cells ≡ pass.old.cells }
{
    pass.is_open() && pass.read(cells, x) == Read::Value(value) && pass.is_open()
}

/// Whether so it is of x and of y.
pub(crate) fn sees_both(cells: &Cells, pass: &mut Pass, x: i64, y: i64) -> bool
    requires own { pass.old.cells ≡ cells.now }
    requires exist { 2 ≤ cells.now.variables }
    ensures own { pass.new.cells ≡ pass.old.cells }
{
    sees(cells, pass, X, x) && sees(cells, pass, Y, y)
}

/// Whether a read of a pass that is open is stale, and closes it.
pub(crate) fn is_stale(cells: &Cells, pass: &mut Pass, x: VarId) -> bool
    requires own { pass.old.cells ≡ cells.now }
    requires exists { x.0 < cells.now.variables }
    ensures own { pass.new.cells ≡ pass.old.cells }
{
    pass.is_open() && pass.read(cells, x) == Read::Stale && !pass.is_open()
}

/// The pass begins.
pub(crate) fn begins(cells: &Cells, pass: &mut Pass)
    requires own { pass.old.cells ≡ cells.now }
    ensures own { pass.new.cells ≡ pass.old.cells }
{
    pass.begin(cells);
}

/// Publishes that x, which is 5, is 6.
pub(crate) fn publish_six(cells: &Cells, publisher: &mut Publisher)
    requires own { publisher.old.cells ≡ cells.now }
    requires start { publisher.old.history ≡ (pos 5 ∷ []) ∷ [] }
    ensures own { publisher.new.cells ≡ publisher.old.cells }
{
    publisher.publish(cells, &[(X, 6)], &[5]);
}
