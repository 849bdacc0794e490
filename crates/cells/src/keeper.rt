//! What publishes to cells that nobody reads.
ghost use Rattle.std.specs.Prelude.{◌≡◌, ◌+◌, ◌^◌, ◌≤◌, [], ◌∷◌, ◌++◌, false, length};
ghost use Rattle.txn_words.specs.Words.{last_state};
ghost use Rattle.txn_words.specs.Stores.{with_changes};
ghost use Rattle.cells.specs.Publishing.{stores_of, changes_of};

use crate::cells::Cells;
use crate::history::History;
use std::marker::Model;
use std::snapshot::Snapshot;
use txn_programs::VarId;

/// The publisher of cells that nobody reads. It keeps the number of the last state, and the states
/// for clauses alone. It stores no word.
#[derive(Drop)]
pub(crate) struct Keeper {
    cells: Snapshot<Cells>,
    number: u64,
    history: History,
}

impl Model for Keeper {
    ghost use Rattle.cells.specs.Publishing.{Publishing, IsUnread};

    ghost Value = { Publishing };

    ghost view = { λ k. record { cells = k.cells.value; history = k.history; stores = 0 } };

    ghost invariant = { λ k. IsUnread k.cells.value k.history k.number };
}

impl Keeper {
    /// The publisher of these cells, to which nothing but these values was published.
    pub(crate) fn open(cells: &Cells, values: &[i64]) -> Keeper
        requires unread { cells.now.are_read ≡ false }
        ensures { result ≡ record { cells = cells.now; history = values.now ∷ []; stores = 0 } }
    {
        Keeper {
            cells: Snapshot::of(cells),
            number: 0,
            history: History::open(values),
        }
    }

    /// Nobody reads its cells. It does nothing: its contract is the law.
    pub(crate) fn unread_law(&self)
        ensures { self.now.cells.are_read ≡ false }
    {
        // To look at a field is to be told what the type keeps.
        let _ = &self.number;
    }

    /// The number of the last state.
    pub(crate) fn number(&self) -> u64
        ensures { result + 1 ≡ length self.now.history }
    {
        self.number
    }

    /// Adds one state to the history, the last one with these writes.
    pub(crate) fn publish(&mut self, writes: &[(VarId, i64)])
        requires room { length self.old.history ≤ 2 ^ 62 }
        ensures cells { self.new.cells ≡ self.old.cells }
        ensures history { self.new.history
            ≡ self.old.history ++ with_changes (last_state self.old.history) writes.now ∷ [] }
        ensures stores { self.new.stores ≡ self.old.stores + stores_of self.old.cells
            (length (changes_of (last_state self.old.history) writes.now)) }
    {
        self.history.add(writes);
        self.number += 1;
    }
}
