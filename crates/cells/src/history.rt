//! The history of states, for clauses alone.
ghost use Rattle.std.specs.Prelude.{◌≡◌, [], ◌∷◌, ◌++◌};
ghost use Rattle.txn_words.specs.Words.{last_state};
ghost use Rattle.txn_words.specs.Stores.{with_changes};
ghost use Rattle.cells.specs.History.{earlier, latest};

use std::marker::Model;
use std::mem;
use std::snapshot::Snapshot;
use txn_programs::VarId;

/// A list of states, the oldest first, that clauses alone see. It has no bytes, so it costs nothing
/// when it runs.
#[derive(Drop)]
pub(crate) struct History {
    past: Snapshot<Past>,
}

/// The states that there were, told by how the last of them came about.
#[derive(Drop)]
pub(crate) enum Past {
    /// There is one state, of no variable.
    Empty,
    /// The last state has one variable more, of this value.
    Grown(Snapshot<Past>, i64),
    /// The last state stands twice.
    Again(Snapshot<Past>),
    /// A variable of the last state has this value.
    Put(Snapshot<Past>, VarId, i64),
}

impl Model for History {
    ghost use Rattle.std.specs.Prelude.{List, ℤ};
    ghost use Rattle.cells.specs.History.{states};

    ghost Value = { List (List ℤ) };

    ghost view = { λ h. states h.past.value };
}

impl History {
    /// One state, these values.
    pub(crate) fn open(values: &[i64]) -> History
        ensures { result ≡ values.now ∷ [] }
    {
        let mut past = Snapshot::of(&Past::Empty);
        for value in values {
            past = Snapshot::of(&Past::Grown(past, *value));
        }
        History { past }
    }

    /// One state more: the last one, with these writes.
    pub(crate) fn add(&mut self, writes: &[(VarId, i64)])
        ensures { self.new ≡ self.old ++ with_changes (last_state self.old) writes.now ∷ [] }
    {
        let past = mem::replace(&mut self.past, Snapshot::of(&Past::Empty));
        self.past = put(Snapshot::of(&Past::Again(past)), writes);
    }
}

/// The last state has these writes.
fn put(first: Snapshot<Past>, writes: &[(VarId, i64)]) -> Snapshot<Past>
    ensures earlier { earlier result.value ≡ earlier first.value }
    ensures latest { latest result.value ≡ with_changes (latest first.value) writes.now }
{
    let mut past = first;
    for write in writes {
        past = Snapshot::of(&Past::Put(past, write.0, write.1));
    }
    past
}
