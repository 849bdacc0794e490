//! How many states are looked at, at most.

ghost use Rattle.std.specs.Prelude.{◌≡◌, ◌≤◌, ◌↔◌, IsSome, IfSome};
ghost use Rattle.run_interface.specs.Bounds.{IsAllowed};

use std::marker::Model;

/// How many states are looked at, at most. A clause sees the number.
#[derive(Clone, Copy, Debug, PartialEq, Eq)]
pub struct Limit {
    states: u32,
}

impl Model for Limit {
    ghost use Rattle.std.specs.Prelude.{ℕ};
    ghost use Rattle.run_interface.specs.Bounds.{IsAllowed};

    ghost Value = { ℕ };

    ghost view = { λ l. l.states };

    ghost invariant = { λ l. IsAllowed l.states };

    ghost inverse = { λ n. record { states = n } };
}

impl Limit {
    /// `None` unless it is from 1 to 16,777,216.
    pub fn new(states: u32) -> Option<Limit>
        ensures taken { IsSome result ↔ IsAllowed states }
        ensures value { IfSome result (λ l. l ≡ states) }
    {
        if states < 1 || states > 16_777_216 {
            return None;
        }
        Some(Limit { states })
    }

    /// The bounds of the number. It does nothing: its contract is the law.
    pub fn law(&self)
        ensures { IsAllowed self.now }
    {
        // To look at the field is to be told what the type keeps.
        let _states = self.states;
    }

    /// The number.
    pub fn states(&self) -> u32
        ensures value { result ≡ self.now }
        ensures few { result ≤ 16777216 }
    {
        self.states
    }
}
