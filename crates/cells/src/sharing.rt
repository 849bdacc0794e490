//! Cells as whoever uses them for long has them: lent, or counted.
ghost use Rattle.std.specs.Prelude.{◌≡◌, IfOk};

use crate::cells::Cells;
use std::alloc::Global;
use std::marker::Model;
use std::sync::Arc;
use txn_programs::Memory;

/// Cells that are lent by their owner, or that are counted: counted ones are let go with the last
/// of their holders, in whichever thread that is.
///
/// A caller sees which cells they are.
pub struct SharedCells<'a> {
    held: Held<'a>,
}

/// Written by hand, so that its end is one call wherever they are owned.
impl Drop for SharedCells<'_> {
    fn drop(self) {
        let SharedCells { held: _held } = self;
    }
}

/// How they are held.
#[derive(Drop)]
pub(crate) enum Held<'a> {
    /// By a borrow.
    Lent(&'a Cells),
    /// With all others that have them.
    Counted(Arc<Cells, Global>),
}

impl<'a> Model for SharedCells<'a> {
    ghost use Rattle.cells.specs.Cells.{CellsId};
    ghost use Rattle.cells.specs.Sharing.{held_cells};

    ghost Value = { CellsId };

    ghost view = { λ s. held_cells s.held };
}

impl<'a> SharedCells<'a> {
    /// These cells, as long as they are lent. It takes no memory.
    pub fn lent(cells: &'a Cells) -> SharedCells<'a>
        ensures { result ≡ cells.now }
    {
        SharedCells {
            held: Held::Lent(cells),
        }
    }

    /// These cells, for as long as anybody has them. `Memory` only where a growth was refused; then
    /// the cells are let go.
    pub fn counted(alloc: Global, cells: Cells) -> Result<SharedCells<'a>, Memory>
        ensures { IfOk result (λ s. s ≡ cells) }
    {
        match Arc::new(alloc, cells) {
            Ok(cells) => Ok(SharedCells {
                held: Held::Counted(cells),
            }),
            Err(_) => Err(Memory),
        }
    }

    /// The same cells for one holder more. It takes no memory, and `Memory` is answered only where
    /// 2^63 holders have them.
    pub fn again(&self) -> Result<SharedCells<'a>, Memory>
        ensures { IfOk result (λ s. s ≡ self.now) }
    {
        let held = match &self.held {
            Held::Lent(cells) => Held::Lent(*cells),
            Held::Counted(cells) => Held::Counted(Arc::try_clone(cells)?),
        };
        Ok(SharedCells { held })
    }

    /// The cells, to read them or publish to them.
    #[inline(always)]
    pub fn get(&self) -> &Cells
        ensures { result.now ≡ self.now }
    {
        match &self.held {
            Held::Lent(cells) => *cells,
            Held::Counted(cells) => &**cells,
        }
    }
}
