//! Turns and calls by a lender, of a store that may have no such transaction.

ghost use Rattle.std.specs.Prelude.{◌↔◌, [], IsTrue};
ghost use Rattle.txn_programs.specs.Listing.{IsCallable};

use stm_store::{End, Job, Lender, Refused, Store, Way};
use txn::TxId;

/// Whether the transaction can be called without arguments.
pub(crate) fn has(store: &Store, tx: TxId) -> bool
    ensures { IsTrue result ↔ IsCallable store.now.catalogue.now tx [] }
{
    store.catalogue().is_callable(tx, &[])
}

/// The lowest ready task has its turn: which it is, and what came of it.
pub(crate) fn turn(store: &mut Store, lender: &mut Lender) -> Result<(Job, End), Refused> {
    let job = store.take()?;
    let same = job;
    let end = store.turn(lender, same)?;
    Ok((job, end))
}

/// What a call of the transaction answers. `Unknown` where there is no such transaction.
pub(crate) fn call(
    store: &mut Store,
    lender: &mut Lender,
    tx: TxId,
    way: Way,
) -> Result<(Job, End), Refused> {
    if !has(store, tx) {
        return Err(Refused::Unknown);
    }
    store.call(lender, tx, &[], way)
}
