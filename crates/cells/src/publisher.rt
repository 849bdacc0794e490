//! What changes the cells, one state at a time.
ghost use Rattle.std.specs.Prelude.{◌≡◌, ◌+◌, ◌*◌, ◌^◌, ◌≤◌, [], ◌∷◌, ◌++◌, length};
ghost use Rattle.txn_words.specs.Words.{last_state};
ghost use Rattle.txn_words.specs.Stores.{with_changes};
ghost use Rattle.cells.specs.Passing.{MeetsBy};
ghost use Rattle.cells.specs.Publishing.{stores_of, AreWrites, changes_of};

use crate::cells::Cells;
use crate::keeper::Keeper;
use crate::pass::Pass;
use crate::writer::Writer;
use std::marker::Model;
use txn_programs::VarId;

/// The one that may change the cells.
///
/// A caller sees its cells, the history of all states that it published, the oldest first, and how
/// many words it has stored.
pub struct Publisher {
    pub(crate) how: How,
}

/// Written by hand, so that its end is one call wherever a publisher is owned.
impl Drop for Publisher {
    fn drop(self) {
        let Publisher { how: _how } = self;
    }
}

/// How it publishes.
#[derive(Drop)]
pub(crate) enum How {
    /// By stores in words that readers load.
    Stores(Writer),
    /// By no store, since nobody reads.
    Keeps(Keeper),
}

impl Model for Publisher {
    ghost use Rattle.cells.specs.Publishing.{Publishing};
    ghost use Rattle.cells.specs.Publishers.{seen_of};

    ghost Value = { Publishing };

    ghost view = { λ p. seen_of p.how };
}

impl Publisher {
    /// The number of the last state: how many states were published after the first.
    pub fn number(&self) -> u64
        ensures { result + 1 ≡ length self.now.history }
    {
        match &self.how {
            How::Stores(writer) => writer.number(),
            How::Keeps(keeper) => keeper.number(),
        }
    }

    /// Adds one state to the history: the last one, which has these values, with these writes, of
    /// which there may be none. It always succeeds, by `3k + 1` stores where `k` of the writes change
    /// a value, and by none where nobody reads.
    ///
    /// The variables have to exist and to ascend, and fewer than 2^62 states may have been published
    /// before. The publisher has to be that of these cells.
    pub fn publish(&mut self, cells: &Cells, writes: &[(VarId, i64)], values: &[i64])
        requires own { self.old.cells ≡ cells.now }
        requires present { values.now ≡ last_state self.old.history }
        requires writes { AreWrites (last_state self.old.history) writes.now }
        requires room { length self.old.history ≤ 2 ^ 62 }
        ensures cells { self.new.cells ≡ self.old.cells }
        ensures history { self.new.history
            ≡ self.old.history ++ with_changes (last_state self.old.history) writes.now ∷ [] }
        ensures stores { self.new.stores ≡ self.old.stores + stores_of self.old.cells
            (length (changes_of (last_state self.old.history) writes.now)) }
    {
        match &mut self.how {
            How::Stores(writer) => writer.publish(cells, writes, values),
            How::Keeps(keeper) => keeper.publish(writes),
        }
    }

    /// Tells a pass the whole history, by one load of the clock, and closes it. A begin after it is
    /// at the present state or a later one.
    ///
    /// Without a meeting nothing is promised of how far behind a pass is. Both have to be of these
    /// cells.
    pub fn meet(&mut self, cells: &Cells, pass: &mut Pass)
        requires own { self.old.cells ≡ cells.now }
        requires pass { pass.old.cells ≡ cells.now }
        ensures same { self.new ≡ self.old }
        ensures met { MeetsBy pass.old pass.new self.old.history }
    {
        match &mut self.how {
            How::Stores(writer) => writer.meet(cells, pass),
            How::Keeps(keeper) => {
                // There is no pass of such cells.
                keeper.unread_law();
                pass.read_law();
                unreachable!()
            }
        }
    }
}
