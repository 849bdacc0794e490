//! What a call gives its transaction.

ghost use Rattle.std.specs.Prelude.{◌≡◌, ◌≤◌, ◌-◌, ◌++◌, [], length, replicate, pos};
ghost use Rattle.txn_programs.specs.declared.limits.TheConstants.{MAX_PARAMETERS};

use crate::ast::TxId;
use crate::limits::MAX_PARAMETERS;
use std::marker::Model;

/// The arguments of a call, in the order of the parameters, in a place of a fixed size: they take no memory. A
/// clause sees the numbers.
#[derive(Clone, Copy, Debug, PartialEq, Eq)]
pub struct Arguments {
    /// 0 behind the count.
    values: [i64; MAX_PARAMETERS],
    count: usize,
}

impl Model for Arguments {
    ghost use Rattle.std.specs.Prelude.{List, ℤ};
    ghost use Rattle.std.specs.Coded.{coded_list, coded_ℤ};

    ghost Value = { List ℤ };

    ghost coded = { coded_list coded_ℤ };

    ghost use Rattle.txn_programs.specs.ArgumentsInside.{given, IsKept, fields, only_fields};

    ghost view = { given };

    ghost invariant = { IsKept };

    ghost inverse = { fields };

    ghost inverse_ok = { only_fields };
}

impl Arguments {
    /// No arguments.
    pub fn none() -> Arguments
        ensures { result ≡ [] }
    {
        Arguments {
            values: [0; MAX_PARAMETERS],
            count: 0,
        }
    }

    /// These numbers, of which there are at most `MAX_PARAMETERS`.
    pub fn of(numbers: &[i64]) -> Arguments
        requires { length numbers.now ≤ MAX_PARAMETERS }
        ensures { result ≡ numbers.now }
    {
        let mut arguments = Arguments::none();
        arguments.set(numbers);
        arguments
    }

    /// Puts these numbers, of which there are at most `MAX_PARAMETERS`, in the place of those before.
    pub fn set(&mut self, numbers: &[i64])
        requires { length numbers.now ≤ MAX_PARAMETERS }
        ensures { self.new ≡ numbers.now }
    {
        self.count = numbers.len();
        self.values = padded(numbers);
    }

    /// The numbers, in the order of the parameters.
    pub fn as_slice(&self) -> &[i64]
        ensures value { result.now ≡ self.now }
        ensures few { length result.now ≤ MAX_PARAMETERS }
    {
        &self.values[..self.count]
    }
}

/// The numbers, with 0 behind them. A few are written out: a call that moves them would take longer.
#[inline(always)]
fn padded(numbers: &[i64]) -> [i64; MAX_PARAMETERS]
    requires { length numbers.now ≤ MAX_PARAMETERS }
    ensures { result ≡ numbers.now ++ replicate (MAX_PARAMETERS - length numbers.now) (pos 0) }
{
    match *numbers {
        [] => [0; MAX_PARAMETERS],
        [a] => [a, 0, 0, 0, 0, 0, 0, 0],
        [a, b] => [a, b, 0, 0, 0, 0, 0, 0],
        [a, b, c] => [a, b, c, 0, 0, 0, 0, 0],
        _ => copied(numbers),
    }
}

/// The numbers, with 0 behind them, by one call.
fn copied(numbers: &[i64]) -> [i64; MAX_PARAMETERS]
    requires { length numbers.now ≤ MAX_PARAMETERS }
    ensures { result ≡ numbers.now ++ replicate (MAX_PARAMETERS - length numbers.now) (pos 0) }
{
    let mut values = [0; MAX_PARAMETERS];
    values[..numbers.len()].copy_from_slice(numbers);
    values
}

/// A transaction with its arguments.
#[derive(Clone, Copy, Debug, PartialEq, Eq)]
pub struct Call {
    pub tx: TxId,
    pub arguments: Arguments,
}
