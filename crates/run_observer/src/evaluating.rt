//! An attempt of a transaction on what a pass reads.

ghost use Rattle.std.specs.Prelude.{◌≡◌, length, true, IfOk, OnOk, IfErr};
ghost use Rattle.txn_programs.specs.Listing.{IsCallable};
ghost use Rattle.cells.specs.Passing.{at};
ghost use Rattle.run_observer.specs.Observing.{ObservesBy, IsStaleFrom, EvaluatesTo, LacksMemory};

use crate::observation::{Cut, tell};
use crate::reading::advance_on;
use crate::watching::{Unwatched, Watch};
use attempt::{Attempt, Next};
use cells::{Cells, Pass};
use txn::{Catalogue, Outcome, TxId};

/// Restarts the attempt as one of the transaction with these arguments, as many as it has parameters, and
/// brings it to its end on one state of the cells: that of the begin of the pass, or the last to which the
/// pass moved. What it needs it reads as it goes on; where a read is stale, the pass is moved by what the
/// attempt has read.
///
/// `Stale` where a read was and the pass could not move, which closed the pass. `Memory` only where
/// a growth was refused: the attempt is spent, or needs a variable for whose value its log has no
/// room, and the pass is open. The pass has to be one of these cells, and the cells
/// have to have a variable for each of the catalogue's.
pub fn evaluate<'c>(
    attempt: &mut Attempt<'c>,
    catalogue: &'c Catalogue,
    tx: TxId,
    arguments: &[i64],
    cells: &Cells,
    pass: &mut Pass,
) -> Result<Outcome, Cut>
    requires known { IsCallable catalogue.now tx arguments.now }
    requires own { pass.old.cells ≡ cells.now }
    requires variables { cells.now.variables ≡ length catalogue.now.initial }
    ensures observes { ObservesBy pass.old pass.new }
    ensures ended { IfOk result (λ how. EvaluatesTo catalogue.now tx arguments.now (at pass.new) how attempt.new) }
    ensures open { OnOk result (pass.new.open_now ≡ true) }
    ensures stale { IfErr result (λ why. why ≡ Cut.Stale → IsStaleFrom pass.old pass.new) }
    ensures memory { IfErr result
        (λ why. why ≡ Cut.Memory → (pass.new.open_now ≡ true) × LacksMemory catalogue.now tx attempt.new) }
{
    evaluate_by(attempt, catalogue, tx, arguments, cells, pass, &Unwatched)
}

/// As `evaluate`, with a watch, which is told of each variable that the attempt needs before it is read: once,
/// also where it is then read once more.
pub fn evaluate_by<'c, W: Watch>(
    attempt: &mut Attempt<'c>,
    catalogue: &'c Catalogue,
    tx: TxId,
    arguments: &[i64],
    cells: &Cells,
    pass: &mut Pass,
    watch: &W,
) -> Result<Outcome, Cut>
    requires known { IsCallable catalogue.now tx arguments.now }
    requires own { pass.old.cells ≡ cells.now }
    requires variables { cells.now.variables ≡ length catalogue.now.initial }
    ensures observes { ObservesBy pass.old pass.new }
    ensures ended { IfOk result (λ how. EvaluatesTo catalogue.now tx arguments.now (at pass.new) how attempt.new) }
    ensures open { OnOk result (pass.new.open_now ≡ true) }
    ensures stale { IfErr result (λ why. why ≡ Cut.Stale → IsStaleFrom pass.old pass.new) }
    ensures memory { IfErr result
        (λ why. why ≡ Cut.Memory → (pass.new.open_now ≡ true) × LacksMemory catalogue.now tx attempt.new) }
{
    pass.begin(cells);
    attempt.restart(catalogue, tx, arguments);
    let variables = catalogue.initial().len();
    'needs: loop {
        pass.law();
        let x = match advance_on(attempt, variables, cells, pass, watch) {
            Next::Need(x) => x,
            Next::Returned(v) => return Ok(Outcome::Returned(v)),
            Next::Thrown(fault) => return Ok(Outcome::Thrown(fault)),
            Next::Retry => return Ok(Outcome::Retries),
            Next::Memory => return Err(Cut::Memory),
        };
        match tell(attempt, x, cells, pass) {
            Ok(()) => {}
            Err(Cut::Stale) => return Err(Cut::Stale),
            Err(Cut::Memory) => return Err(Cut::Memory),
        }
    }
}
