//! The options of a run.

ghost use Rattle.std.specs.Prelude.{◌≡◌, ◌≤◌, ◌↔◌, None, Some, IsSome, IfSome};
ghost use Rattle.run_interface.specs.Settings.{AreAllowed};

use std::marker::Model;

/// The most workers of a run.
pub const MAX_WORKERS: u32 = 16;

/// The most stale attempts of a task before it is run under the lock.
pub const MAX_TRIES: u32 = 64;

/// The most journal entries after which the base moves to the present values.
pub const MAX_CHECKPOINT: u32 = 65536;

/// How tasks are run. A clause sees the numbers.
#[derive(Clone, Copy, Debug, PartialEq, Eq)]
pub struct Options {
    workers: u32,
    tries: u32,
    checkpoint: u32,
    seed: Option<u64>,
}

impl Model for Options {
    ghost use Rattle.run_interface.specs.Settings.{Settings, AreAllowed};

    ghost Value = { Settings };

    ghost view = { λ o. record { workers = o.workers; tries = o.tries; checkpoint = o.checkpoint; seed = o.seed } };

    ghost invariant = { λ o. AreAllowed
        (record { workers = o.workers; tries = o.tries; checkpoint = o.checkpoint; seed = o.seed }) };

    ghost inverse = { λ s. record { workers = s.workers; tries = s.tries; checkpoint = s.checkpoint; seed = s.seed } };
}

impl Options {
    /// Those of a run whose order is not drawn. `None` unless `workers` is from 1 to 16, `tries` from 1 to 64, and
    /// `checkpoint` at most 65,536.
    pub fn new(workers: u32, tries: u32, checkpoint: u32) -> Option<Options>
        ensures taken { IsSome result
            ↔ AreAllowed (record { workers = workers; tries = tries; checkpoint = checkpoint; seed = None }) }
        ensures value { IfSome result
            (λ o. o ≡ record { workers = workers; tries = tries; checkpoint = checkpoint; seed = None }) }
    {
        if workers < 1
            || workers > MAX_WORKERS
            || tries < 1
            || tries > MAX_TRIES
            || checkpoint > MAX_CHECKPOINT
        {
            return None;
        }
        Some(Options {
            workers,
            tries,
            checkpoint,
            seed: None,
        })
    }

    /// The same, but the order of the tasks is drawn by a generator that begins at this number. `None` exactly where
    /// there is more than one worker.
    pub fn with_seed(self, seed: u64) -> Option<Options>
        ensures taken { IsSome result ↔ (self.workers ≡ 1) }
        ensures value { IfSome result (λ o. o ≡ record self { seed = Some seed }) }
    {
        if self.workers != 1 {
            return None;
        }
        Some(Options {
            workers: self.workers,
            tries: self.tries,
            checkpoint: self.checkpoint,
            seed: Some(seed),
        })
    }

    /// All bounds of the numbers. It does nothing: its contract is the law.
    pub fn law(&self)
        ensures { AreAllowed self.now }
    {
        // To look at a field is to be told what the type keeps.
        let _workers = self.workers;
    }

    /// How many workers run the tasks.
    pub fn workers(&self) -> u32
        ensures value { result ≡ self.now.workers }
        ensures few { result ≤ MAX_WORKERS }
    {
        self.workers
    }

    /// After how many stale attempts a task is run under the lock.
    pub fn tries(&self) -> u32
        ensures { result ≡ self.now.tries }
    {
        self.tries
    }

    /// After how many journal entries the base moves to the present values, 0 for never.
    pub fn checkpoint(&self) -> u32
        ensures { result ≡ self.now.checkpoint }
    {
        self.checkpoint
    }

    /// Where the order of the tasks is drawn, the number that the generator begins at.
    pub fn seed(&self) -> Option<u64>
        ensures { result ≡ self.now.seed }
    {
        self.seed
    }
}
