//! What is seen of a service: its store, at the end of the history, which whoever looks has then seen.

ghost use Rattle.std.specs.Prelude.{◌≡◌, Err, IfOk, Some, string_bytes};
ghost use Rattle.std.specs.Sync.Mutex.{mutex_guard_value};
ghost use Rattle.txn_programs.specs.Listing.{IsCallable, spans};
ghost use Rattle.text_line_reader.specs.CellNames.{cell_at};
ghost use Rattle.txn_text.specs.Canonical.{file_text};
ghost use Rattle.book.specs.Chapters.{entered_in_all};
ghost use Rattle.book.specs.Counting.{AreCounts};
ghost use Rattle.book.specs.Turns.{IsIdle};
ghost use Rattle.stm_store.specs.Naming.{span_at, value_named};
ghost use Rattle.stm_store.specs.Telling.{CopiesCells, IsCellOf, IsFileOf, IsTextOf, IsTooLong, IsValueOf};
ghost use Rattle.stm_store.specs.declared.answers.Refused.TheVariants as Refused;
ghost use Rattle.stm_store.specs.declared.telling.FileFault.TheVariants as FileFault;
ghost use Rattle.stm_desk.specs.History.{Begins, led};
ghost use Rattle.stm_service.specs.Looking.{CopiesFrom, IsSeen, IsStoreOf, IsValueIn, WouldEnd};

use crate::behind::Behind;
use crate::front::Front;
use crate::name::Naming;
use crate::service::Service;
use book::Counts;
use std::sync::{MutexGuard, Wait};
use stm_store::{FileFault, Refused};
use txn::{Memory, Outcome, TxId};

impl<N: Naming> Service<N> {
    /// The present value of the variable of this name, or of the cell that is written so, `acct[5]`, and its version:
    /// the number of the last entry of the chapter that changed it, 0 where none did. `None` exactly where there is
    /// neither.
    pub fn value<R: Wait>(&self, rt: &R, name: &str, front: &mut Front<N>) -> Option<(i64, u64)>
        ensures value { ∥ IsValueIn (led N.catalogue N.first front.new) (value_named N.catalogue name.now) result ∥₁ }
        ensures seen { IsSeen N.catalogue N.first front.new (λ s. IsValueOf s.book name.now result) }
        ensures grows { Begins front.old front.new }
    {
        self.shown(rt, front).store().value(name)
    }

    /// As `value`, of the cell of this number in a table, which is named by its place among the tables. `None` exactly
    /// where there is no such cell.
    pub fn cell<R: Wait>(
        &self,
        rt: &R,
        table: usize,
        index: u32,
        front: &mut Front<N>,
    ) -> Option<(i64, u64)>
        ensures value { ∥ IsValueIn (led N.catalogue N.first front.new)
            (cell_at (spans N.catalogue) (Some table) index) result ∥₁ }
        ensures seen { IsSeen N.catalogue N.first front.new (λ s. IsCellOf s.book table index result) }
        ensures grows { Begins front.old front.new }
    {
        self.shown(rt, front).store().cell(table, index)
    }

    /// Copies the present values of a table's cells, from the one of this number on, to the begin of `out`: as many as
    /// there are and there is room for. All are of one state. It answers how many: 0 also where there is no such table.
    pub fn cells<R: Wait>(
        &self,
        rt: &R,
        table: usize,
        from: u32,
        out: &mut [i64],
        front: &mut Front<N>,
    ) -> usize
        ensures values { ∥ CopiesFrom (led N.catalogue N.first front.new) (span_at N.catalogue table)
            from out.old result out.new ∥₁ }
        ensures grows { Begins front.old front.new }
    {
        self.shown(rt, front).store().cells(table, from, out)
    }

    /// The number of the present chapter, from 0 on.
    pub fn chapter<R: Wait>(&self, rt: &R, front: &mut Front<N>) -> u64
        ensures seen { IsSeen N.catalogue N.first front.new (λ s. result ≡ s.chapter) }
        ensures grows { Begins front.old front.new }
    {
        self.shown(rt, front).store().chapter()
    }

    /// How many entries there were in all chapters.
    pub fn entered<R: Wait>(&self, rt: &R, front: &mut Front<N>) -> u64
        ensures seen { IsSeen N.catalogue N.first front.new (λ s. result ≡ entered_in_all s.book) }
        ensures grows { Begins front.old front.new }
    {
        self.shown(rt, front).store().entered()
    }

    /// How many tasks of the present chapter stand how.
    pub fn counts<R: Wait>(&self, rt: &R, front: &mut Front<N>) -> Counts
        ensures seen { IsSeen N.catalogue N.first front.new (λ s. AreCounts s.book.tasks result) }
        ensures grows { Begins front.old front.new }
    {
        self.shown(rt, front).store().counts()
    }

    /// How a call of the transaction with these arguments would end on the present values; it may retry there. Nothing
    /// is entered.
    ///
    /// `Unknown` exactly where there is no such transaction, or it has not as many parameters as there are arguments.
    /// `Memory`: a growth was refused, which only a transaction that takes memory meets. `Closed`: the service is
    /// closed. It is never another one.
    pub fn outcome_now<R: Wait>(
        &self,
        rt: &R,
        tx: TxId,
        arguments: &[i64],
        front: &mut Front<N>,
    ) -> Result<Outcome, Refused>
        ensures ends { ∥ WouldEnd N.catalogue N.first front.new
            (record { tx = tx; arguments = arguments.now }) result ∥₁ }
        ensures unknown { ¬ (IsCallable N.catalogue tx arguments.now) → result ≡ Err Refused.Unknown }
        ensures grows { Begins front.old front.new }
    {
        if !self.catalogue.is_callable(tx, arguments) {
            return Err(Refused::Unknown);
        }
        self.shown(rt, front).outcome_now(tx, arguments)
    }

    /// The report of the present chapter at this moment: what is long and runs has its turn first, and is entered, or
    /// waits; once the service is closed nothing runs, and nothing is entered. `Memory` only if a growth was refused.
    pub fn report<R: Wait>(&self, rt: &R, front: &mut Front<N>) -> Result<String, Memory>
        ensures seen { IfOk result (λ text. IsSeen N.catalogue N.first front.new
            (λ s. IsIdle s.book × IsTextOf s.book (string_bytes text))) }
        ensures grows { Begins front.old front.new }
    {
        self.settled(rt, front).report()
    }

    /// The file of the present chapter at this moment, as `report`: with that, where nothing comes between, it is a
    /// pair that a check finds good. `TooLong` only where no reader would take it, `Memory` only where a growth was
    /// refused.
    pub fn file<R: Wait>(&self, rt: &R, front: &mut Front<N>) -> Result<String, FileFault>
        ensures seen { IfOk result (λ text. IsSeen N.catalogue N.first front.new
            (λ s. IsIdle s.book × IsFileOf s.book (string_bytes text))) }
        ensures long { result ≡ Err FileFault.TooLong
            → IsSeen N.catalogue N.first front.new (λ s. IsTooLong (file_text s.book.catalogue)) }
        ensures grows { Begins front.old front.new }
    {
        self.settled(rt, front).store().file()
    }

    /// What is behind the lock, of which the caller was shown all that there is.
    fn shown<'a, R: Wait>(&'a self, rt: &R, front: &mut Front<N>) -> MutexGuard<'a, Behind<N>>
        ensures shown { (mutex_guard_value result).front ≡ front.new }
        ensures grows { Begins front.old front.new }
    {
        for _ in rt.forever() {
            let behind = self.behind.lock(rt);
            if behind.show(front) {
                return behind;
            }
        }
        unreachable!()
    }

    /// The same, when what was long and ran has had its turn.
    fn settled<'a, R: Wait>(&'a self, rt: &R, front: &mut Front<N>) -> MutexGuard<'a, Behind<N>>
        ensures shown { (mutex_guard_value result).front ≡ front.new }
        ensures idle { IsIdle (mutex_guard_value result).desk.work.store.book }
        ensures grows { Begins front.old front.new }
    {
        let mut behind = self.shown(rt, front);
        behind.settle(rt, front);
        behind
    }
}
