//! What a transaction would end as, read beside the commits.

ghost use Rattle.std.specs.Prelude.{◌≡◌, ℕ, ◌+◌, ◌*◌, ◌<◌, ◌≤◌, length, true, false, OnOk, OnErr, IfOk, IfErr};
ghost use Rattle.txn_programs.specs.Listing.{IsCallable};
ghost use Rattle.txn_words.specs.Words.{StartsWith};
ghost use Rattle.txn_words.specs.Stores.{id_of};
ghost use Rattle.txn_programs.specs.Meaning.{value_at};
ghost use Rattle.attempt.specs.Frame.{Agrees};
ghost use Rattle.attempt.specs.View.{supplied};
ghost use Rattle.cells.specs.Passing.{at};
ghost use Rattle.cells.specs.Answers.{AgreesUpTo};
ghost use Rattle.run_observer.specs.Observing.{ObservesBy, IsObserved, TellsBy, MovesOn, IsCutFrom};

use crate::evaluating::evaluate;
use crate::reading::peek;
use attempt::{Attempt, Stand};
use cells::{Cells, Extend, Pass, Read};
use std::alloc::Global;
use txn::{Catalogue, Outcome, TxId, VarId};

/// What observing a transaction answers.
#[derive(Clone, Copy, Debug, PartialEq, Eq)]
pub enum Observed {
    /// How the transaction ends on the state at which the pass is.
    Outcome(Outcome),
    /// A variable that the transaction needs was changed meanwhile, or was just being changed, and
    /// the pass could not move: a variable that was read before was changed too, or one was
    /// changed again.
    Stale,
    /// A growth was refused.
    Memory,
}

/// How the transaction with these arguments ends on one state of the cells, which others may be changing
/// meanwhile.
///
/// It begins the pass, by one load of the clock, and makes an attempt on what the pass then reads.
/// Where a read is stale, it moves the pass by what the attempt has read, and reads once more.
/// `Outcome` is the transaction's outcome on the state at which the pass then is, all of it, and
/// the pass is open. `Stale` where the pass could not move: the loads of the last read, or the
/// value that they gave, show why, and the pass is closed. `Memory` only where a growth was
/// refused, which a transaction without an `orelse` that writes no cell never meets over at most eight
/// variables and cells; the pass is open. Nothing is written, no lock is taken, and it waits for nobody.
///
/// The pass has to be one of these cells, the cells have to have a variable for each of the
/// catalogue's, and the transaction has to exist and to have as many parameters as there are arguments.
pub fn observe(
    alloc: Global,
    cells: &Cells,
    pass: &mut Pass,
    catalogue: &Catalogue,
    tx: TxId,
    arguments: &[i64],
) -> Observed
    requires known { IsCallable catalogue.now tx arguments.now }
    requires own { pass.old.cells ≡ cells.now }
    requires variables { cells.now.variables ≡ length catalogue.now.initial }
    ensures observes { ObservesBy pass.old pass.new }
    ensures answer { IsObserved catalogue.now tx arguments.now pass.old pass.new result }
{
    let mut attempt = Attempt::new(alloc, catalogue, tx, arguments);
    match evaluate(&mut attempt, catalogue, tx, arguments, cells, pass) {
        Ok(outcome) => Observed::Outcome(outcome),
        Err(Cut::Stale) => Observed::Stale,
        Err(Cut::Memory) => Observed::Memory,
    }
}

/// Why an attempt was told nothing.
#[derive(Clone, Copy, Debug, PartialEq, Eq)]
pub enum Cut {
    /// A read was stale, and the pass could not move.
    Stale,
    /// A growth was refused.
    Memory,
}

/// Reads the variable that the attempt needs, and tells the attempt its value. Where the read is
/// stale, or the pass is closed already, the pass is extended by the attempt's log, and where it
/// moved, the variable is read once more. So what the attempt has read stays what it is in one state.
///
/// `Stale` where the extension did not move, or the second read was stale too: the pass is closed,
/// and its last read shows why. `Memory` only where the log had to grow and couldn't, which the first
/// eight variables and cells never meet; the pass is open. Where it answers an error the attempt is as
/// it was. The pass has to be one of these cells, and the variables have to exist.
pub fn tell(attempt: &mut Attempt<'_>, x: VarId, cells: &Cells, pass: &mut Pass) -> Result<(), Cut>
    requires needed { attempt.old.stand ≡ Stand.Needs x }
    requires own { pass.old.cells ≡ cells.now }
    requires exists { x.0 < cells.now.variables }
    requires variables { attempt.old.variables ≤ cells.now.variables }
    ensures reads { TellsBy pass.old pass.new attempt.old.log }
    ensures open { OnOk result ((pass.new.open_now ≡ true) × (pass.new.variable ≡ x.0)) }
    ensures told { OnOk result (attempt.new ≡ supplied attempt.old x (value_at (at pass.new) x)) }
    ensures agrees { OnOk result (Agrees attempt.old.log (at pass.old) → Agrees attempt.new.log (at pass.new)) }
    ensures refused { OnErr result (attempt.new ≡ attempt.old) }
    ensures stale { IfErr result (λ why. why ≡ Cut.Stale → IsCutFrom pass.old pass.new attempt.old.log) }
    ensures memory { IfErr result
        (λ why. why ≡ Cut.Memory → (pass.new.open_now ≡ true) × (8 ≤ length attempt.old.log)) }
{
    let value = match peek(cells, pass, x) {
        Some(value) => value,
        None => read_later(attempt.log(), x, cells, pass)?,
    };
    match attempt.supply(x, value) {
        Ok(()) => Ok(()),
        Err(_) => Err(Cut::Memory),
    }
}

/// Extends the pass, which is closed, by what was read before, and reads the variable at the new moment.
/// The answer is its value there, where all that was read before is as it was.
fn read_later(log: &[(VarId, i64)], x: VarId, cells: &Cells, pass: &mut Pass) -> Result<i64, Cut>
    requires own { pass.old.cells ≡ cells.now }
    requires closed { pass.old.open_now ≡ false }
    requires exists { x.0 < cells.now.variables }
    requires variables { (i : ℕ) → i < length log.now → id_of log.now i < cells.now.variables }
    ensures cells { pass.new.cells ≡ pass.old.cells }
    ensures seen { StartsWith pass.new.seen pass.old.seen }
    ensures few { pass.new.word_loads ≤ pass.old.word_loads + 3 * (length log.now + 1) }
    ensures moves { MovesOn pass.old pass.new }
    ensures open { OnOk result ((pass.new.open_now ≡ true) × (pass.new.variable ≡ x.0)) }
    ensures value { IfOk result (λ v. v ≡ value_at (at pass.new) x) }
    ensures agrees { OnOk result (AgreesUpTo log.now (at pass.new) (length log.now)) }
    ensures stale { IfErr result (λ why. (why ≡ Cut.Stale) × IsCutFrom pass.old pass.new log.now) }
{
    match pass.extend(cells, log) {
        Extend::Moved => {}
        Extend::Changed | Extend::Stale => return Err(Cut::Stale),
    }
    match pass.read(cells, x) {
        Read::Value(value) => Ok(value),
        Read::Stale => Err(Cut::Stale),
    }
}
