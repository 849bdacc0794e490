//! Variables with a value each, as they lie in memory.

use smallvec::SmallVec;
use txn_programs::VarId;

/// Up to eight pairs lie in the value itself.
pub type Layer = SmallVec<(VarId, i64), 8>;
