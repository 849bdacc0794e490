//! Counts one behind another: each in one byte while all of them fit, and in four from then on.

ghost use Rattle.std.specs.Prelude.{◌≡◌, ◌+◌, ◌≤◌, [], ◌++◌, length, take, drop, true, IfOk, OnOk, OnErr};
ghost use Rattle.std.specs.Bool.{Decides};
ghost use Rattle.explore_search.specs.Packed.{counts};

use crate::rows::{part, replace_end, same_counts};
use crate::search::copy;
use std::alloc::{AllocError, Global};

/// Counts in few bytes.
#[derive(Drop)]
pub(crate) enum Lefts {
    Narrow(Vec<u8>),
    Wide(Vec<u32>),
}

impl Lefts {
    /// How many there are.
    pub(crate) fn len(&self) -> usize
        ensures { result ≡ length (counts self.now) }
    {
        match self {
            Lefts::Narrow(list) => list.len(),
            Lefts::Wide(list) => list.len(),
        }
    }

    /// Copies so many of them, from one on.
    pub(crate) fn read(
        &self,
        from: usize,
        count: usize,
        into: &mut Vec<u32>,
    ) -> Result<(), AllocError>
        requires { from + count ≤ length (counts self.now) }
        ensures { OnOk result (into.new.items ≡ take count (drop from (counts self.now))) }
    {
        match self {
            Lefts::Narrow(list) => widen(part(list, from, count), into),
            Lefts::Wide(list) => copy(into, part(list, from, count)),
        }
    }

    /// Whether so many of them, from one on, are these.
    pub(crate) fn are_at(&self, from: usize, count: usize, left: &[u32]) -> bool
        requires { from + count ≤ length (counts self.now) }
        ensures { Decides result (take count (drop from (counts self.now)) ≡ left.now) }
    {
        match self {
            Lefts::Narrow(list) => same(part(list, from, count), left),
            Lefts::Wide(list) => same_counts(part(list, from, count), left),
        }
    }

    /// Puts these in place of what stands from `keep` on; only takes that away where a growth was refused.
    pub(crate) fn replace_end(
        &mut self,
        alloc: Global,
        scratch: &mut Vec<u8>,
        keep: usize,
        end: &[u32],
    ) -> Result<(), AllocError>
        requires { keep ≤ length (counts self.old) }
        ensures ok { OnOk result (counts self.new ≡ take keep (counts self.old) ++ end.now) }
        ensures refused { OnErr result (counts self.new ≡ take keep (counts self.old) ++ []) }
    {
        let wide = match self {
            Lefts::Wide(list) => return replace_end(list, keep, end),
            Lefts::Narrow(list) => {
                list.truncate(keep);
                if narrow(end, scratch)? {
                    return list.extend_from_slice(scratch);
                }
                widened(alloc, list, end)?
            }
        };
        *self = Lefts::Wide(wide);
        Ok(())
    }
}

/// The counts in four bytes each, and more behind them.
fn widened(alloc: Global, list: &[u8], end: &[u32]) -> Result<Vec<u32>, AllocError>
    ensures { IfOk result (λ wide. wide.items ≡ list.now ++ end.now) }
{
    let mut wide = Vec::new(alloc);
    widen(list, &mut wide)?;
    wide.extend_from_slice(end)?;
    Ok(wide)
}

/// Copies the counts.
fn widen(list: &[u8], into: &mut Vec<u32>) -> Result<(), AllocError>
    ensures { OnOk result (into.new.items ≡ list.now) }
{
    into.clear();
    into.reserve(list.len())?;
    'counts: for count in list {
        into.push(u32::from(*count))?;
    }
    Ok(())
}

/// Copies the counts in one byte each, if all of them fit.
fn narrow(left: &[u32], into: &mut Vec<u8>) -> Result<bool, AllocError>
    ensures { IfOk result (λ fits. fits ≡ true → into.new.items ≡ left.now) }
{
    into.clear();
    'counts: for count in left {
        let Ok(small) = u8::try_from(*count) else {
            return Ok(false);
        };
        into.push(small)?;
    }
    Ok(true)
}

/// Whether both are the same counts.
fn same(some: &[u8], others: &[u32]) -> bool
    ensures { Decides result (some.now ≡ others.now) }
{
    if some.len() != others.len() {
        return false;
    }
    'counts: for i in 0..some.len() {
        if u32::from(some[i]) != others[i] {
            return false;
        }
    }
    true
}
