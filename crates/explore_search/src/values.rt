//! Values one behind another: each in two bytes while all of them fit, and in eight from then on.

ghost use Rattle.std.specs.Prelude.{◌≡◌, ◌+◌, ◌≤◌, [], ◌++◌, length, take, drop, true, IfOk, OnOk, OnErr};
ghost use Rattle.std.specs.Bool.{Decides};
ghost use Rattle.explore_search.specs.Packed.{numbers};

use crate::rows::{part, replace_end, same_values};
use crate::search::copy;
use std::alloc::{AllocError, Global};

/// Values in few bytes.
#[derive(Drop)]
pub(crate) enum Values {
    Narrow(Vec<i16>),
    Wide(Vec<i64>),
}

impl Values {
    /// How many there are.
    pub(crate) fn len(&self) -> usize
        ensures { result ≡ length (numbers self.now) }
    {
        match self {
            Values::Narrow(list) => list.len(),
            Values::Wide(list) => list.len(),
        }
    }

    /// Copies so many of them, from one on.
    pub(crate) fn read(
        &self,
        from: usize,
        count: usize,
        into: &mut Vec<i64>,
    ) -> Result<(), AllocError>
        requires { from + count ≤ length (numbers self.now) }
        ensures { OnOk result (into.new.items ≡ take count (drop from (numbers self.now))) }
    {
        match self {
            Values::Narrow(list) => widen(part(list, from, count), into),
            Values::Wide(list) => copy(into, part(list, from, count)),
        }
    }

    /// Whether so many of them, from one on, are these.
    pub(crate) fn are_at(&self, from: usize, count: usize, values: &[i64]) -> bool
        requires { from + count ≤ length (numbers self.now) }
        ensures { Decides result (take count (drop from (numbers self.now)) ≡ values.now) }
    {
        match self {
            Values::Narrow(list) => same(part(list, from, count), values),
            Values::Wide(list) => same_values(part(list, from, count), values),
        }
    }

    /// Puts these in place of what stands from `keep` on; only takes that away where a growth was refused.
    pub(crate) fn replace_end(
        &mut self,
        alloc: Global,
        scratch: &mut Vec<i16>,
        keep: usize,
        end: &[i64],
    ) -> Result<(), AllocError>
        requires { keep ≤ length (numbers self.old) }
        ensures ok { OnOk result (numbers self.new ≡ take keep (numbers self.old) ++ end.now) }
        ensures refused { OnErr result (numbers self.new ≡ take keep (numbers self.old) ++ []) }
    {
        let wide = match self {
            Values::Wide(list) => return replace_end(list, keep, end),
            Values::Narrow(list) => {
                list.truncate(keep);
                if narrow(end, scratch)? {
                    return list.extend_from_slice(scratch);
                }
                widened(alloc, list, end)?
            }
        };
        *self = Values::Wide(wide);
        Ok(())
    }
}

/// The values in eight bytes each, and more behind them.
fn widened(alloc: Global, list: &[i16], end: &[i64]) -> Result<Vec<i64>, AllocError>
    ensures { IfOk result (λ wide. wide.items ≡ list.now ++ end.now) }
{
    let mut wide = Vec::new(alloc);
    widen(list, &mut wide)?;
    wide.extend_from_slice(end)?;
    Ok(wide)
}

/// Copies the values.
fn widen(list: &[i16], into: &mut Vec<i64>) -> Result<(), AllocError>
    ensures { OnOk result (into.new.items ≡ list.now) }
{
    into.clear();
    into.reserve(list.len())?;
    'values: for value in list {
        into.push(i64::from(*value))?;
    }
    Ok(())
}

/// Copies the values in two bytes each, if all of them fit.
fn narrow(values: &[i64], into: &mut Vec<i16>) -> Result<bool, AllocError>
    ensures { IfOk result (λ fits. fits ≡ true → into.new.items ≡ values.now) }
{
    into.clear();
    'values: for value in values {
        let Ok(small) = i16::try_from(*value) else {
            return Ok(false);
        };
        into.push(small)?;
    }
    Ok(true)
}

/// Whether both are the same values.
fn same(some: &[i16], others: &[i64]) -> bool
    ensures { Decides result (some.now ≡ others.now) }
{
    if some.len() != others.len() {
        return false;
    }
    'values: for i in 0..some.len() {
        if i64::from(some[i]) != others[i] {
            return false;
        }
    }
    true
}
