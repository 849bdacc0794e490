//! Long calls: whoever asks evaluates the transaction by a worker, outside the desk, and brings what came of it.

ghost use Rattle.std.specs.Prelude.{◌≡◌, ◌↔◌, IsTrue, false, true};
ghost use Rattle.txn_programs.specs.Listing.{IsCallable};
ghost use Rattle.stm_store.specs.declared.answers.Way.TheVariants as Way;
ghost use Rattle.stm_desk.specs.Asking.{GoesOn, IsServed, StaysInChapter};
ghost use Rattle.stm_desk.specs.Running.{AreAwaited, IsBegun, IsLong};

use crate::answers::Asked;
use crate::work::Work;
use stm_store::{Refused, Way};
use txn::{Call, TxId};

/// Whether the transaction is long.
pub(crate) fn is_long(long: &[bool], tx: TxId) -> bool
    ensures { IsTrue result ↔ IsLong long.now tx }
{
    match long.get(tx.0 as usize) {
        Some(marked) => *marked,
        None => false,
    }
}

/// Whether whoever calls evaluates the transaction: it is long, and the call waits.
pub(crate) fn is_begun(long: &[bool], way: Way, tx: TxId) -> bool
    ensures begun { result ≡ true → (way ≡ Way.Waits) × IsLong long.now tx }
    ensures here { result ≡ false → way ≡ Way.Waits → IsLong long.now tx → ⊥ }
{
    matches!(way, Way::Waits) && is_long(long, tx)
}

impl Work {
    /// A task of the call more, which runs: whoever asked evaluates it, and waits for it. `NoRoom`, and where the
    /// chapter is full: there is no task of it. `Memory`: the task is given up.
    pub(crate) fn begin(&mut self, call: &Call, whose: u64) -> Result<Asked, Refused>
        requires known { IsCallable self.old.store.catalogue.now call.now.tx call.now.arguments }
        ensures begun { IsBegun self.old call.now whose result self.new }
        ensures served { IsServed self.old.store → IsServed self.new.store }
        ensures awaited { AreAwaited self.old.store self.old.waiters → AreAwaited self.new.store self.new.waiters }
        ensures within { StaysInChapter self.old.store self.new.store }
        ensures goes_on { GoesOn self.old self.new }
    {
        self.store.law();
        let ticket = match self.store.submit(call.tx, call.arguments.as_slice()) {
            Ok(ticket) => ticket,
            Err(_) => return self.turned_away(),
        };
        match self.waiters.seat(ticket, whose, call) {
            Ok(()) => match self.store.claim(ticket) {
                Ok(job) => Ok(Asked::Runs(job)),
                Err(_) => unreachable!(),
            },
            Err(_) => {
                self.give_up(ticket);
                Err(Refused::Memory)
            }
        }
    }
}
