//! Who is told of what an attempt needs.

use txn::VarId;

/// Is told of each variable that an attempt needs, before it is read. Who waits there holds the attempt, and
/// nothing else: what is read beside it goes on.
pub trait Watch {
    fn needs(&self, x: VarId);
}

/// Nobody is told.
pub struct Unwatched;

impl Watch for Unwatched {
    #[inline(always)]
    fn needs(&self, _x: VarId) {}
}
