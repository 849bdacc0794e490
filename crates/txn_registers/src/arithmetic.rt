//! What the steps of operators leave.

ghost use Rattle.std.specs.Prelude.{◌≡◌};
ghost use Rattle.txn_programs.specs.Arithmetic.{sum_of, difference_of, product_of, quotient_of, remainder_of};

use txn_programs::Fault;

#[inline(always)]
pub(crate) fn sum(x: i64, y: i64) -> Result<i64, Fault>
    ensures { result ≡ sum_of x y }
{
    x.checked_add(y).ok_or(Fault::Overflow)
}

#[inline(always)]
pub(crate) fn difference(x: i64, y: i64) -> Result<i64, Fault>
    ensures { result ≡ difference_of x y }
{
    x.checked_sub(y).ok_or(Fault::Overflow)
}

#[inline(always)]
pub(crate) fn product(x: i64, y: i64) -> Result<i64, Fault>
    ensures { result ≡ product_of x y }
{
    x.checked_mul(y).ok_or(Fault::Overflow)
}

#[inline(always)]
pub(crate) fn quotient(x: i64, y: i64) -> Result<i64, Fault>
    ensures { result ≡ quotient_of x y }
{
    if y == 0 {
        Err(Fault::DivideByZero)
    } else {
        x.checked_div(y).ok_or(Fault::Overflow)
    }
}

#[inline(always)]
pub(crate) fn remainder(x: i64, y: i64) -> Result<i64, Fault>
    ensures { result ≡ remainder_of x y }
{
    if y == 0 {
        Err(Fault::DivideByZero)
    } else {
        x.checked_rem(y).ok_or(Fault::Overflow)
    }
}
