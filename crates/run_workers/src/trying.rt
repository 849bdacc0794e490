//! An attempt of a task on what a pass reads.

ghost use Rattle.std.specs.Prelude.{◌≡◌, length, true, IfErr, IfOk};
ghost use Rattle.cells.specs.Passing.{at};
ghost use Rattle.txn_programs.specs.Listing.{task_tx, task_arguments};
ghost use Rattle.run_workers.specs.Standing.{HasTask};
ghost use Rattle.run_observer.specs.Observing.{ObservesBy, IsStaleFrom, EvaluatesTo, LacksMemory};

use crate::gate::{Gate, Point, stop_at};
use attempt::Attempt;
use cells::{Cells, Pass};
use run_observer::{Cut, Watch, evaluate_by};
use txn::{Catalogue, Outcome, TaskId, VarId};

/// The gate, which is told of what the attempt of a task needs.
#[derive(Drop)]
struct AtNeeds<'g, G: Gate> {
    gate: &'g G,
    task: TaskId,
}

impl<'g, G: Gate> Watch for AtNeeds<'g, G> {
    #[inline(always)]
    fn needs(&self, _x: VarId) {
        if !G::IS_OPEN {
            self.gate.at(Point::Needs, self.task);
        }
    }
}

/// Restarts the attempt as one of the task's call, and brings it to its end on one state of
/// the cells: that of the begin of the pass, or the last to which the pass moved. A gate that is not
/// open is told of each need before it is read, and of the end.
///
/// `Stale` where a read was and the pass could not move, which closed the pass. `Memory` only where
/// a growth was refused: the attempt is spent, or needs a variable for whose value its log has no
/// room, and the pass is open. The pass has to be one of these cells, and the cells
/// have to have a variable for each of the catalogue's.
pub(crate) fn attempt_on<'c, G: Gate>(
    attempt: &mut Attempt<'c>,
    catalogue: &'c Catalogue,
    task: TaskId,
    cells: &Cells,
    pass: &mut Pass,
    gate: &G,
) -> Result<Outcome, Cut>
    requires known { HasTask catalogue.now task }
    requires own { pass.old.cells ≡ cells.now }
    requires variables { cells.now.variables ≡ length catalogue.now.initial }
    ensures observes { ObservesBy pass.old pass.new }
    ensures ended { IfOk result
        (λ how. EvaluatesTo catalogue.now (task_tx catalogue.now task) (task_arguments catalogue.now task)
        (at pass.new) how attempt.new) }
    ensures stale { IfErr result (λ why. why ≡ Cut.Stale → IsStaleFrom pass.old pass.new) }
    ensures memory { IfErr result
        (λ why. why ≡ Cut.Memory
        → (pass.new.open_now ≡ true) × LacksMemory catalogue.now (task_tx catalogue.now task) attempt.new) }
{
    let watch = AtNeeds { gate, task };
    let tx = catalogue.task_tx(task);
    let arguments = catalogue.task_arguments(task);
    let ended = evaluate_by(attempt, catalogue, tx, arguments, cells, pass, &watch);
    if ended.is_ok() {
        stop_at(gate, Point::Ended, task);
    }
    ended
}
