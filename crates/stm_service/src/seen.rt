//! What the lock guards, as it is looked at.

ghost use Rattle.std.specs.Prelude.{◌≡◌, false, true, IfOk, Ok, string_bytes};
ghost use Rattle.txn_programs.specs.Listing.{IsCallable};
ghost use Rattle.book.specs.Turns.{IsIdle};
ghost use Rattle.stm_store.specs.Telling.{IsTextOf};
ghost use Rattle.stm_desk.specs.History.{Begins};
ghost use Rattle.stm_service.specs.Looking.{IsStoreOf, WouldEnd};

use crate::behind::Behind;
use crate::front::Front;
use crate::name::Naming;
use std::sync::Wait;
use stm_store::{Refused, ReportFault, Store};
use txn::{Memory, Outcome, TxId};

impl<N: Naming> Behind<N> {
    /// Whoever looks is shown all that there is. `false` and no change where more was seen, which is never so.
    pub(crate) fn show(&self, front: &mut Front<N>) -> bool
        ensures shown { result ≡ true → front.new ≡ self.now.front }
        ensures kept { result ≡ false → front.new ≡ front.old }
        ensures grows { Begins front.old front.new }
    {
        if !self.front.covers(front) {
            return false;
        }
        *front = self.front.again();
        true
    }

    /// The store, at the end of what is shown.
    pub(crate) fn store(&self) -> &Store
        ensures of { IsStoreOf N.catalogue N.first self.now.front result.now }
        ensures here { result.now ≡ self.now.desk.work.store }
    {
        self.desk.store()
    }

    /// What is long and runs has its turn here, and whoever looks, who has seen all, is shown what came of it: so
    /// nothing is ready or runs. Of a closed service nothing runs, so nothing is entered then.
    pub(crate) fn settle<R: Wait>(&mut self, rt: &R, front: &mut Front<N>)
        requires { front.old ≡ self.old.front }
        ensures idle { IsIdle self.new.desk.work.store.book }
        ensures shown { front.new ≡ self.new.front }
        ensures grows { Begins front.old front.new }
        ensures closed { self.old.closed ≡ true → front.new ≡ front.old }
    {
        if self.closed {
            return;
        }
        self.desk.settle();
        self.front.add(rt, &self.head, &self.desk);
        self.hand_out();
        *front = self.front.again();
    }

    /// How a call would end on the present values. Nothing is entered. `Memory` only where its transaction takes some,
    /// and `Closed`: nothing can be called any more.
    pub(crate) fn outcome_now(&self, tx: TxId, arguments: &[i64]) -> Result<Outcome, Refused>
        requires known { IsCallable N.catalogue tx arguments.now }
        ensures { ∥ WouldEnd N.catalogue N.first self.now.front
            (record { tx = tx; arguments = arguments.now }) result ∥₁ }
    {
        if self.closed {
            return Err(Refused::Closed);
        }
        let store = self.store();
        let Some(mut lender) = store.lender() else {
            unreachable!()
        };
        match store.outcome_now(&mut lender, tx, arguments) {
            Ok(outcome) => Ok(outcome),
            Err(_) => Err(Refused::Memory),
        }
    }

    /// The report, where no task is ready or runs.
    pub(crate) fn report(&self) -> Result<String, Memory>
        requires { IsIdle self.now.desk.work.store.book }
        ensures { IfOk result (λ text. IsTextOf self.now.desk.work.store.book (string_bytes text)) }
    {
        match self.desk.store().report_now() {
            Ok(text) => Ok(text),
            Err(ReportFault::Memory) => Err(Memory),
            Err(ReportFault::WorkLeft) => unreachable!(),
        }
    }
}
