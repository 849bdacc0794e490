//! What a seat at the shared words knows.
use std::marker::Model;

/// What a seat knows: of the publisher, all that it stored; of a reader, all that it loaded. The
/// rule and the steps speak of it, and no value of it is ever made.
pub struct Sight {}

impl Model for Sight {
    ghost use Rattle.cells.specs.Sight.{Sight, nothing};

    ghost Value = { Sight };

    ghost view = { λ _. nothing };
}
