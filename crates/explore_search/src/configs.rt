//! A list of configurations, each once, in the order found.
//!
//! A configuration is looked up in the bucket of its hash: the bucket knows its last configuration, and each
//! configuration the one before it in its bucket. How many buckets there are is settled when the list is made.

ghost use Rattle.std.specs.Prelude.{◌≡◌, ◌+◌, ◌<◌, ◌≤◌, ◌^◌, [], ◌++◌, length, take};
ghost use Rattle.std.specs.Prelude.{slice_index_or, IfNone, IfOk, IfSome, OnOk, OnErr};
ghost use Rattle.std.specs.Bool.{Decides};
ghost use Rattle.std.specs.List.{Contains};
ghost use Rattle.explore_search.specs.Bucket.{bucket_of};
ghost use Rattle.explore_law.specs.Explored.{IsOnce, end_config};
ghost use Rattle.explore_search.specs.Indexed.{IsIndexed, IsLinked, LeadsToAll};
ghost use Rattle.explore_search.specs.Shelf.{Adds, nowhere, config};

use crate::hash::bucket;
use crate::rows::Rows;
use explore_law::End;
use std::alloc::{AllocError, Global};
use std::marker::Model;

/// Configs, each once, in the order found. A clause sees a `Shelf`.
pub struct Configs {
    rows: Rows,
    /// For each bucket one more than the number of its last configuration, or 0.
    heads: Vec<u32>,
    /// For each configuration one more than the number of the configuration before it in its bucket, or 0.
    links: Vec<u32>,
}

impl Model for Configs {
    ghost use Rattle.explore_search.specs.Shelf.{Shelf, coded_shelf};
    ghost use Rattle.explore_search.specs.Indexed.{IsIndexed};

    ghost Value = { Shelf };

    ghost coded = { coded_shelf };

    ghost view = { λ p. p.rows };

    ghost invariant = { λ p. IsIndexed p.rows.configs p.heads.items p.links.items };
}

/// Written by hand, so that its end is one call wherever a list is owned.
impl Drop for Configs {
    fn drop(self) {
        let Configs {
            rows: _rows,
            heads: _heads,
            links: _links,
        } = self;
    }
}

impl Configs {
    /// No configuration yet, of configurations of so many values and so many counts, with room for a fast look-up
    /// of about as many configurations as there are buckets. `Err` where a growth was refused.
    pub fn new(
        alloc: Global,
        variables: usize,
        counts: usize,
        buckets: usize,
    ) -> Result<Configs, AllocError>
        requires { 0 < buckets }
        ensures { IfOk result (λ p. p ≡ record { variables = variables; counts = counts; configs = [] }) }
    {
        Ok(Configs {
            rows: Rows::new(alloc, variables, counts),
            heads: vec![in alloc; 0; buckets]?,
            links: Vec::new(alloc),
        })
    }

    /// How many configurations there are.
    pub fn len(&self) -> usize
        ensures { result ≡ length self.now.configs }
    {
        self.rows.len()
    }

    /// Copies the configuration of this number. Refused where a growth was.
    pub fn read(&self, i: usize, into: &mut End) -> Result<(), AllocError>
        requires { i < length self.now.configs }
        ensures { OnOk result (end_config into.new ≡ slice_index_or self.now.configs i nowhere) }
    {
        self.rows.read(i, into)
    }

    /// Whether the configuration of this number has these values and counts.
    pub fn is_at(&self, i: usize, values: &[i64], left: &[u32]) -> bool
        requires { i < length self.now.configs }
        ensures { Decides result (slice_index_or self.now.configs i nowhere ≡ config values.now left.now) }
    {
        self.rows.is_at(i, values, left)
    }

    /// The number of the configuration of these values and counts, if it is listed.
    pub fn number_of(&self, values: &[i64], left: &[u32]) -> Option<usize>
        ensures low { IfSome result (λ i. i < length self.now.configs) }
        ensures found { IfSome result (λ i. slice_index_or self.now.configs i nowhere ≡ config values.now left.now) }
        ensures none { IfNone result (Contains self.now.configs (config values.now left.now) → ⊥) }
    {
        let buckets = self.heads.len();
        let head = self.heads[bucket(values, left, buckets)];
        listed_at(
            &self.rows,
            self.links.as_slice(),
            head,
            buckets,
            values,
            left,
        )
    }

    /// No configuration is listed twice. It does nothing: its contract is the law.
    pub fn law(&self)
        ensures { IsOnce self.now.configs }
    {
        // To look at a field is to be told what the type keeps.
        let _links = self.links.len();
    }

    /// Lists the configuration of these values and counts behind the others, unless it is listed.
    ///
    /// Refused where a growth was; then nothing changed.
    pub fn insert(&mut self, values: &[i64], left: &[u32]) -> Result<(), AllocError>
        requires variables { length values.now ≡ self.old.variables }
        requires counts { length left.now ≡ self.old.counts }
        requires room { length self.old.configs + 1 < 2 ^ 32 }
        ensures added { OnOk result (Adds self.old self.new (config values.now left.now)) }
        ensures refused { OnErr result (self.new ≡ self.old) }
    {
        let buckets = self.heads.len();
        let bucket = bucket(values, left, buckets);
        let head = self.heads[bucket];
        let number = listed_at(
            &self.rows,
            self.links.as_slice(),
            head,
            buckets,
            values,
            left,
        );
        if number.is_some() {
            return Ok(());
        }
        let count = self.rows.len();
        self.links.push(head)?;
        if let Err(refused) = self.rows.push(values, left) {
            self.links.truncate(count);
            return Err(refused);
        }
        self.heads[bucket] = count as u32 + 1;
        Ok(())
    }
}

/// The number of the configuration of these values and counts, if it is one of those that the links lead to.
fn listed_at(
    rows: &Rows,
    links: &[u32],
    head: u32,
    buckets: usize,
    values: &[i64],
    left: &[u32],
) -> Option<usize>
    requires linked { IsLinked buckets rows.now.configs links.now }
    requires leads { LeadsToAll buckets rows.now.configs head (bucket_of buckets values.now left.now) }
    ensures low { IfSome result (λ i. i < length rows.now.configs) }
    ensures found { IfSome result (λ i. slice_index_or rows.now.configs i nowhere ≡ config values.now left.now) }
    ensures none { IfNone result (Contains rows.now.configs (config values.now left.now) → ⊥) }
{
    let mut next = head;
    'next: while next > 0 {
        let i = next as usize - 1;
        if rows.is_at(i, values, left) {
            return Some(i);
        }
        next = links[i];
    }
    None
}
