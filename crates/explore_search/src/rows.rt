//! Configs one behind another: the numbers of a configuration lie in flat rows.

ghost use Rattle.std.specs.Prelude.{◌≡◌, ◌+◌, ◌<◌, ◌≤◌, ◌^◌, [], ◌∷◌, ◌++◌, length};
ghost use Rattle.std.specs.Prelude.{take, drop, slice_index_or, OnOk, OnErr};
ghost use Rattle.std.specs.Bool.{Decides};
ghost use Rattle.explore_law.specs.Explored.{end_config};
ghost use Rattle.explore_search.specs.Shelf.{nowhere, config, behind};

use crate::lefts::Lefts;
use crate::values::Values;
use explore_law::End;
use std::alloc::{AllocError, Global};
use std::marker::Model;

/// Configs in the order found. A clause sees a `Shelf`.
#[derive(Drop)]
pub(crate) struct Rows {
    variables: usize,
    counts: usize,
    count: usize,
    /// The values of the first configuration, then those of the second, and so on.
    values: Values,
    /// And so the counts.
    lefts: Lefts,
    /// Where those of one configuration are made narrow.
    narrow_values: Vec<i16>,
    narrow_left: Vec<u8>,
    alloc: Global,
}

impl Model for Rows {
    ghost use Rattle.explore_search.specs.Shelf.{Shelf, coded_shelf};

    ghost Value = { Shelf };

    ghost coded = { coded_shelf };

    ghost use Rattle.explore_search.specs.Inside.{viewed, IsKept};

    ghost view = { viewed };

    ghost invariant = { IsKept };
}

impl Rows {
    /// No configuration yet, of configurations of so many values and so many counts.
    pub(crate) fn new(alloc: Global, variables: usize, counts: usize) -> Rows
        ensures { result ≡ record { variables = variables; counts = counts; configs = [] } }
    {
        Rows {
            variables,
            counts,
            count: 0,
            values: Values::Narrow(Vec::new(alloc)),
            lefts: Lefts::Narrow(Vec::new(alloc)),
            narrow_values: Vec::new(alloc),
            narrow_left: Vec::new(alloc),
            alloc,
        }
    }

    /// How many configurations there are.
    pub(crate) fn len(&self) -> usize
        ensures { result ≡ length self.now.configs }
    {
        self.count
    }

    /// Copies the configuration of this number.
    pub(crate) fn read(&self, i: usize, into: &mut End) -> Result<(), AllocError>
        requires { i < length self.now.configs }
        ensures { OnOk result (end_config into.new ≡ slice_index_or self.now.configs i nowhere) }
    {
        // To look at a field is to be told what the type keeps.
        let _sizes = (self.values.len(), self.lefts.len());
        let variables = self.variables;
        let counts = self.counts;
        self.values
            .read(i * variables, variables, &mut into.values)?;
        self.lefts.read(i * counts, counts, &mut into.waiting)
    }

    /// Whether the configuration of this number has these values and counts.
    pub(crate) fn is_at(&self, i: usize, values: &[i64], left: &[u32]) -> bool
        requires { i < length self.now.configs }
        ensures { Decides result (slice_index_or self.now.configs i nowhere ≡ config values.now left.now) }
    {
        // To look at a field is to be told what the type keeps.
        let _sizes = (self.values.len(), self.lefts.len());
        let variables = self.variables;
        let counts = self.counts;
        self.values.are_at(i * variables, variables, values)
            && self.lefts.are_at(i * counts, counts, left)
    }

    /// Lists a configuration behind the others. Refused where a growth was; then nothing changed.
    pub(crate) fn push(&mut self, values: &[i64], left: &[u32]) -> Result<(), AllocError>
        requires variables { length values.now ≡ self.old.variables }
        requires counts { length left.now ≡ self.old.counts }
        requires room { length self.old.configs + 1 < 2 ^ 32 }
        ensures added { OnOk result (self.new ≡ behind self.old (config values.now left.now)) }
        ensures refused { OnErr result (self.new ≡ self.old) }
    {
        let count = self.count;
        // To look at a field is to be told what the type keeps.
        let _sizes = (self.values.len(), self.lefts.len());
        let alloc = self.alloc;
        let kept = count * self.variables;
        self.values
            .replace_end(alloc, &mut self.narrow_values, kept, values)?;
        let kept = count * self.counts;
        self.lefts
            .replace_end(alloc, &mut self.narrow_left, kept, left)?;
        self.count = count + 1;
        Ok(())
    }
}

pub(crate) fn same_values(some: &[i64], others: &[i64]) -> bool
    ensures { Decides result (some.now ≡ others.now) }
{
    some == others
}

pub(crate) fn same_counts(some: &[u32], others: &[u32]) -> bool
    ensures { Decides result (some.now ≡ others.now) }
{
    some == others
}

/// So many elements of the list, from one on.
pub(crate) fn part<T>(list: &[T], from: usize, count: usize) -> &[T]
    requires { from + count ≤ length list.now }
    ensures { result.now ≡ take count (drop from list.now) }
{
    let rest = &list[from..];
    &rest[..count]
}

/// Puts these in place of what stands from `keep` on; only takes that away where a growth was refused.
pub(crate) fn replace_end<T: Copy + Drop>(
    list: &mut Vec<T>,
    keep: usize,
    end: &[T],
) -> Result<(), AllocError>
    requires { keep ≤ length list.old.items }
    ensures ok { OnOk result (list.new.items ≡ take keep list.old.items ++ end.now) }
    ensures refused { OnErr result (list.new.items ≡ take keep list.old.items ++ []) }
{
    list.truncate(keep);
    list.extend_from_slice(end)
}
