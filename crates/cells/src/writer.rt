//! What publishes by stores in words that readers load.
ghost use Rattle.std.specs.Prelude.{◌≡◌, ◌+◌, ◌*◌, ◌^◌, ◌≤◌, [], ◌∷◌, ◌++◌, length};
ghost use Rattle.txn_words.specs.Words.{last_state};
ghost use Rattle.txn_words.specs.Stores.{with_changes};
ghost use Rattle.cells.specs.Passing.{MeetsBy};
ghost use Rattle.cells.specs.Publishing.{stores_of, AreWrites, changes_of};

use crate::cells::Cells;
use crate::pass::Pass;
use crate::sight::Sight;
use crate::stores::{lock_all, release_all, store_all};
use atomic_table::Seat;
use std::marker::Model;
use txn_programs::VarId;

/// The publisher of cells that are read: it stores each change in the words.
#[derive(Drop)]
pub(crate) struct Writer {
    pub(crate) seat: Seat<(), Sight>,
    pub(crate) number: u64,
}

impl Model for Writer {
    ghost use Rattle.std.specs.Prelude.{◌≡◌};
    ghost use Rattle.cells.specs.Sight.{publishing, commit_of};
    ghost use Rattle.cells.specs.Publishing.{Publishing, published, IsResting};

    ghost Value = { Publishing };

    ghost view = { λ p. published p.seat.table_id (commit_of p.seat.me.0) };

    ghost invariant = { λ p.
        (p.seat.me.0 ≡ publishing (commit_of p.seat.me.0))
        × IsResting (commit_of p.seat.me.0) p.number };
}

impl Writer {
    /// The number of the last state.
    pub(crate) fn number(&self) -> u64
        ensures { result + 1 ≡ length self.now.history }
    {
        self.number
    }

    /// Adds one state to the history, the last one, which has these values, with these writes, by
    /// `3k + 1` stores where `k` of them change a value. The publisher has to be that of these cells.
    pub(crate) fn publish(&mut self, cells: &Cells, writes: &[(VarId, i64)], values: &[i64])
        requires own { self.old.cells ≡ cells.now }
        requires present { values.now ≡ last_state self.old.history }
        requires writes { AreWrites (last_state self.old.history) writes.now }
        requires room { length self.old.history ≤ 2 ^ 62 }
        ensures cells { self.new.cells ≡ self.old.cells }
        ensures history { self.new.history
            ≡ self.old.history ++ with_changes (last_state self.old.history) writes.now ∷ [] }
        ensures stores { self.new.stores ≡ self.old.stores + stores_of self.old.cells
            (length (changes_of (last_state self.old.history) writes.now)) }
    {
        let board = &cells.board;
        let number = self.number + 1;
        lock_all(board, &mut self.seat, writes, values);
        store_all(board, &mut self.seat, writes, values);
        board.store_clock(&mut self.seat, number);
        release_all(board, &mut self.seat, writes, values, number);
        self.number = number;
    }

    /// Tells a pass the whole history, by one load of the clock, and closes it. Both have to be of
    /// these cells.
    pub(crate) fn meet(&mut self, cells: &Cells, pass: &mut Pass)
        requires own { self.old.cells ≡ cells.now }
        requires pass { pass.old.cells ≡ cells.now }
        ensures same { self.new ≡ self.old }
        ensures met { MeetsBy pass.old pass.new self.old.history }
    {
        cells.board.meet(&mut self.seat, &mut pass.seat);
        pass.ready = false;
    }
}
