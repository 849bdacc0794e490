//! The log of an attempt, kept after it.

ghost use Rattle.std.specs.Prelude.{◌≡◌, []};
ghost use Rattle.attempt_writes.specs.Order.{Apart};

use attempt_writes::Layer;
use std::alloc::Global;
use std::marker::Model;
use std::mem;
use txn::VarId;

/// What an attempt was told: each variable once, in the order of supply. A clause sees the pairs.
#[derive(Drop)]
pub struct Log {
    pub(crate) pairs: Layer,
}

impl Model for Log {
    ghost use Rattle.attempt_machine.specs.Asking.{Known};

    ghost Value = { Known };

    ghost view = { λ l. l.pairs.items };

    ghost use Rattle.attempt_writes.specs.Order.{Apart};

    ghost invariant = { λ l. Apart l.pairs.items };
}

impl Log {
    /// The log of these pairs.
    pub fn of(pairs: Layer) -> Log
        requires { Apart pairs.items }
        ensures { result ≡ pairs.items }
    {
        Log { pairs }
    }

    /// No pairs. It takes no memory.
    pub fn none(alloc: Global) -> Log
        ensures { result ≡ [] }
    {
        Log {
            pairs: Layer::new(alloc),
        }
    }

    /// The pairs, and none stay here. It takes no memory.
    pub fn take(&mut self) -> Log
        ensures pairs { result ≡ self.old }
        ensures emptied { self.new ≡ [] }
    {
        let alloc = *self.pairs.allocator();
        Log {
            pairs: mem::replace(&mut self.pairs, Layer::new(alloc)),
        }
    }

    /// The pairs, in the order of supply.
    pub fn as_slice(&self) -> &[(VarId, i64)]
        ensures value { result.now ≡ self.now }
        ensures apart { Apart result.now }
    {
        self.pairs.as_slice()
    }
}
