//! Where a machine reads the variables that it needs.

ghost use Rattle.std.specs.Prelude.{◌≡◌, ◌<◌, Bool, true, length, IfSome, IsSome};
ghost use Rattle.txn_programs.specs.Meaning.{State, value_at};

use txn_programs::VarId;

/// Where variables are read, each when it is needed. A read leaves the values, and what else is to
/// be kept.
pub trait Reader {
    /// The values that are read, one for each variable.
    ghost values: { Self → State };

    /// What a read leaves as it was, beside the values.
    ghost Kept: { Type 0 };

    ghost kept: { Self → Self.Kept };

    /// Whether it is open: a read that gives a value leaves it so.
    ghost is_open: { Self → Bool };

    /// Whether each variable that has one of the values can always be read.
    ghost reads_all: { Bool };

    /// A variable's value, if it can be read now.
    fn read(&mut self, x: VarId) -> Option<i64>
        ensures value { IfSome result (λ v. (x.0 < length (values self.old)) × (v ≡ value_at (values self.old) x)) }
        ensures all { reads_all ≡ true → x.0 < length (values self.old) → IsSome result }
        ensures open { IfSome result (λ _. is_open self.new ≡ true) }
        ensures values { values self.new ≡ values self.old }
        ensures kept { kept self.new ≡ kept self.old };
}

/// The values themselves: each variable that has one of them is read.
impl<'v> Reader for &'v [i64] {
    ghost values = { λ s. s.now };

    ghost Kept = { Unit {0} };

    ghost kept = { λ _. tt };

    ghost is_open = { λ _. true };

    ghost reads_all = { true };

    #[inline(always)]
    fn read(&mut self, x: VarId) -> Option<i64> {
        self.get(x.0 as usize).copied()
    }
}
