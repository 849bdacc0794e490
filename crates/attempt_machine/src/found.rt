//! What stops an evaluation over a log.

use txn_programs::{Fault, Outcome, VarId};

/// Why an evaluation over a log stops.
#[derive(Clone, Copy)]
pub enum Halt {
    /// It needs a variable that is neither written nor logged.
    Need(VarId),
    Fails(Fault),
}

/// What an evaluation found: the variable that it needs, or how the transaction ends.
#[derive(Clone, Copy)]
pub enum Found {
    Need(VarId),
    End(Outcome),
}
