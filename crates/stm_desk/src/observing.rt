//! How a call would end.

ghost use Rattle.std.specs.Prelude.{◌≡◌, Ok, Err, IfOk, OnErr};
ghost use Rattle.attempt.specs.Room.{TakesMemory};
ghost use Rattle.txn_programs.specs.Listing.{IsCallable};
ghost use Rattle.stm_desk.specs.Observing.{EndsNow, IsAsBefore, TellsEnd};

use crate::desk::Desk;
use crate::work::Work;
use stm_store::Refused;
use txn::{Memory, Outcome, TxId};

impl Desk {
    /// How the call would end on the present values: it is entered nowhere, no task is made, and nothing changes.
    ///
    /// `Closed` exactly where the desk is closed; else `Unknown` exactly where there is no such transaction, or it has
    /// not as many parameters as there are arguments. `Memory`: a growth was refused, which a transaction that takes
    /// none never meets. It is never another one.
    pub fn outcome_now(&mut self, tx: TxId, arguments: &[i64]) -> Result<Outcome, Refused>
        ensures tells { TellsEnd self.old tx arguments.now result }
        ensures stays { IsAsBefore self.old.work self.new.work }
    {
        if self.work.closed {
            return Err(Refused::Closed);
        }
        let catalogue = self.work.store.catalogue();
        catalogue.rules();
        if !catalogue.is_callable(tx, arguments) {
            return Err(Refused::Unknown);
        }
        match self.work.outcome_now(tx, arguments) {
            Ok(outcome) => Ok(outcome),
            Err(_) => Err(Refused::Memory),
        }
    }
}

impl Work {
    /// How a call that can be made would end.
    pub(crate) fn outcome_now(&mut self, tx: TxId, arguments: &[i64]) -> Result<Outcome, Memory>
        requires known { IsCallable self.old.store.catalogue.now tx arguments.now }
        ensures ends { IfOk result (λ how. EndsNow self.old.store tx arguments.now how) }
        ensures memory { OnErr result (TakesMemory self.old.store.book.catalogue tx) }
        ensures stays { IsAsBefore self.old self.new }
    {
        self.store.law();
        let Some(lender) = &mut self.lender else {
            unreachable!()
        };
        self.store.outcome_now(lender, tx, arguments)
    }
}
