//! A catalogue's transactions and standing conditions as steps, made once for all turns.

ghost use Rattle.std.specs.Prelude.{◌≡◌, ◌<◌, length, IfOk, OnOk};
ghost use Rattle.txn_programs.specs.Listing.{call_program};
ghost use Rattle.txn_programs.specs.Meaning.{outcome, after};
ghost use Rattle.txn_evaluator.specs.Notes.{undone, AreInside};
ghost use Rattle.book.specs.Steps.{AreStepsOf};

use std::alloc::{AllocError, Global};
use txn::{Catalogue, Outcome, TxId};
use txn_evaluator::notes::Note;
use txn_registers::registers::{Compiled, compile, execute};
use txn_registers::standing::compile_conditions;

/// The steps of each transaction and those of the standing conditions, with the registers that they are done on.
pub struct Steps {
    /// Those of each transaction, in declared order.
    transactions: Vec<Compiled>,
    /// Those of the standing conditions.
    conditions: Compiled,
}

/// Written by hand, so that its end is one call wherever a chapter is owned.
impl Drop for Steps {
    fn drop(self) {
        let Steps {
            transactions: _transactions,
            conditions: _conditions,
        } = self;
    }
}

/// The steps of a catalogue.
pub fn steps_of(alloc: Global, catalogue: &Catalogue) -> Result<Steps, AllocError>
    ensures { IfOk result (λ s. AreStepsOf s catalogue.now) }
{
    catalogue.rules();
    let mut transactions = Vec::with_capacity(alloc, catalogue.tx_count())?;
    'transactions: for tx in 0..catalogue.tx_count() as u32 {
        transactions.push(compile(alloc, catalogue.tx(TxId(tx)))?)?;
    }
    let conditions = compile_conditions(alloc, catalogue.always())?;
    Ok(Steps {
        transactions,
        conditions,
    })
}

/// How a transaction ends with these arguments on the values, where the values after it stand then, and the notes hold
/// what it wrote.
#[inline(always)]
pub fn execute_call(
    steps: &mut Steps,
    catalogue: &Catalogue,
    tx: TxId,
    arguments: &[i64],
    values: &mut Vec<i64>,
    notes: &mut Vec<Note>,
) -> Result<Outcome, AllocError>
    requires steps { AreStepsOf steps.old catalogue.now }
    requires known { tx.0 < length catalogue.now.transactions }
    requires values { length values.old.items ≡ length catalogue.now.initial }
    ensures outcome { IfOk result (λ o. o ≡ outcome (call_program catalogue.now tx arguments.now) values.old.items) }
    ensures after { OnOk result
        (values.new.items ≡ after (call_program catalogue.now tx arguments.now) values.old.items) }
    ensures undone { undone notes.new.items values.new.items ≡ values.old.items }
    ensures inside { AreInside (length values.new.items) notes.new.items }
    ensures sized { length values.new.items ≡ length values.old.items }
    ensures steps { AreStepsOf steps.new catalogue.now }
{
    catalogue.rules();
    execute(
        &mut steps.transactions[tx.0 as usize],
        &mut steps.conditions,
        arguments,
        catalogue.tx(tx),
        catalogue.always(),
        values.as_mut_slice(),
        notes,
    )
}
