//! The shared words.
use crate::board::Board;
use std::marker::Model;

/// A clock, and a version word and a value word for each variable, which threads share by a `&`.
///
/// A caller sees which cells they are (`cells`), and how many variables they have.
pub struct Cells {
    pub(crate) board: Board,
}

/// Written by hand, so that its end is one call wherever cells are owned.
impl Drop for Cells {
    fn drop(self) {
        let Cells { board: _board } = self;
    }
}

impl Model for Cells {
    ghost use Rattle.cells.specs.Cells.{CellsId};

    ghost Value = { CellsId };

    ghost view = { λ c. c.board };
}
