//! What reads the cells, with no lock.
ghost use Rattle.std.specs.Prelude.{◌≡◌, ℕ, ◌<◌, true, false, length};
ghost use Rattle.txn_words.specs.Stores.{id_of};
ghost use Rattle.cells.specs.Passing.{at, BeginsBy, ReadsBy, ExtendsBy};
ghost use Rattle.cells.specs.Answers.{IsReadBy, IsExtendedBy};

use crate::cells::Cells;
use crate::sight::Sight;
use atomic_table::Seat;
use std::marker::Model;
use txn_programs::VarId;

/// What a read answers.
#[derive(Clone, Copy, Debug, PartialEq, Eq)]
pub enum Read {
    /// The variable's value in the state of the last begin or extension.
    Value(i64),
    /// The variable was changed since the last begin or extension, or is just being changed.
    Stale,
}

/// What an extension answers.
#[derive(Clone, Copy, Debug, PartialEq, Eq)]
pub enum Extend {
    /// Each logged value is that of the new moment.
    Moved,
    /// Some logged value is not that of the new moment.
    Changed,
    /// The read of a logged variable was stale.
    Stale,
}

/// A reader of the cells. It is open from a `begin`, or an `extend` that moved, until a read is
/// stale, until a logged value has changed, or until it meets the publisher.
///
/// A caller sees what it has loaded: how much of the history it knows of (`seen`), how often it
/// loaded the clock and other words, what the last begin or extension loaded from the clock (`rv`),
/// and the variable and the loads of the last read since then. State `rv` of what was seen is the
/// state of the last begin or extension (`at`).
pub struct Pass {
    pub(crate) seat: Seat<(), Sight>,
    pub(crate) rv: u64,
    pub(crate) ready: bool,
}

/// Written by hand, so that its end is one call wherever a pass is owned.
impl Drop for Pass {
    fn drop(self) {
        let Pass {
            seat: _seat,
            rv: _,
            ready: _,
        } = self;
    }
}

impl Model for Pass {
    ghost use Rattle.cells.specs.Sight.{record_of};
    ghost use Rattle.cells.specs.Passing.{Passing, passing};
    ghost use Rattle.cells.specs.Private.{IsReading};

    ghost Value = { Passing };

    ghost view = { λ p. passing p.seat.table_id p.ready (record_of p.seat.me.0) };

    ghost invariant = { λ p. IsReading p.seat p.rv };
}

impl Pass {
    /// What every pass keeps: the state of its last begin or extension has a value for each
    /// variable. It does nothing: its contract is the law.
    pub fn law(&self)
        ensures { length (at self.now) ≡ self.now.cells.variables }
    {
        // To look at a field is to be told what the type keeps.
        let _ = &self.ready;
    }

    /// Its cells are read. It does nothing: its contract is the law.
    pub(crate) fn read_law(&self)
        ensures { self.now.cells.are_read ≡ true }
    {
        let _ = &self.ready;
    }

    /// Whether the pass may read.
    pub fn is_open(&self) -> bool
        ensures { result ≡ self.now.open_now }
    {
        self.ready
    }

    /// Begins anew, by one load of the clock. The pass is open, and until the next begin or
    /// extension its reads are of the state whose number was loaded.
    ///
    /// That is the last state at that moment, so it is never older than one that this pass knew of
    /// before. The pass has to be one of these cells.
    pub fn begin(&mut self, cells: &Cells)
        requires own { self.old.cells ≡ cells.now }
        ensures { BeginsBy self.old self.new }
    {
        let number = cells.board.load_clock(&mut self.seat);
        self.rv = number;
        self.ready = true;
    }

    /// Reads a variable by the rule of TL2, in at most three loads: its version word, its value
    /// word, and its version word again. It takes no lock and waits for nobody.
    ///
    /// A `Value` is the variable's value in the state of the last begin or extension. `Stale` comes
    /// only where the version word was locked or later than that state, or had changed when it was
    /// loaded again; it closes the pass until the next begin, or extension that moves. The pass has
    /// to be one of these cells and open, and the variable has to exist.
    pub fn read(&mut self, cells: &Cells, x: VarId) -> Read
        requires own { self.old.cells ≡ cells.now }
        requires open { self.old.open_now ≡ true }
        requires exists { x.0 < cells.now.variables }
        ensures stays { ReadsBy self.old self.new x.0 }
        ensures answer { IsReadBy self.old self.new x.0 result }
    {
        let x = x.0 as usize;
        let board = &cells.board;
        self.ready = false;
        let first = board.load_version(&mut self.seat, x);
        if first % 2 != 0 || first / 2 > self.rv {
            return Read::Stale;
        }
        let value = board.load_value(&mut self.seat, x);
        let second = board.load_version_again(&mut self.seat, x);
        if second != first {
            return Read::Stale;
        }
        self.ready = true;
        Read::Value(value.cast_signed())
    }
    /// Moves to the present moment, where what was read before is still so: it loads the clock as
    /// `begin` does, and reads each variable of the log in order, up to the first that is stale or
    /// has another value than the logged one. It takes no lock, waits for nobody and takes no memory.
    ///
    /// `Moved`: each logged value is that of the new state, and the pass is open. `Changed`: the
    /// variable that was read last has another value in the new state than the logged one.
    /// `Stale`: its read was stale. Both close the pass, and all before it in the log is as logged.
    /// The pass has to be one of these cells, and may be open or closed; the variables have to
    /// exist.
    pub fn extend(&mut self, cells: &Cells, log: &[(VarId, i64)]) -> Extend
        requires own { self.old.cells ≡ cells.now }
        requires exist { (i : ℕ) → i < length log.now → id_of log.now i < cells.now.variables }
        ensures moment { ExtendsBy self.old self.new log.now }
        ensures answer { IsExtendedBy self.new log.now result }
    {
        self.begin(cells);
        for entry in log {
            let Read::Value(value) = self.read(cells, entry.0) else {
                return Extend::Stale;
            };
            if value != entry.1 {
                self.close();
                return Extend::Changed;
            }
        }
        Extend::Moved
    }

    /// Closes the pass.
    fn close(&mut self)
        ensures { self.new ≡ record self.old { open_now = false } }
    {
        self.ready = false;
    }
}
