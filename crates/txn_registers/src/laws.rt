//! What the steps of a transaction are worth.

ghost use Rattle.txn_registers.specs.Correct.{StepsTheorem};

/// The steps of a transaction, done on a frame that begins with its arguments and constants, end as the transaction
/// with these arguments does. It does nothing: its contract is the law.
pub fn answers()
    ensures { StepsTheorem }
{}
