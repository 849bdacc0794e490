//! The places of far variables: those that a table of places has none for.

ghost use Rattle.std.specs.Prelude.{◌≡◌, ◌<◌, ◌++◌, ◌∷◌, [], None, length, slice_get, IsOk, OnOk, OnErr};
ghost use Rattle.attempt_writes.specs.FarPlaces.{far_place};

use crate::number_index::NumberIndex;
use smallvec::SmallVec;
use std::alloc::{AllocError, Global};
use std::marker::Model;
use txn_programs::limits::MAX_VALUES;

/// Distinct numbers with a place each, in the order of coming. A clause sees the pairs.
#[derive(Drop)]
pub struct FarPlaces {
    numbers: NumberIndex,
    places: SmallVec<u32, 8>,
}

impl Model for FarPlaces {
    ghost use Rattle.std.specs.Prelude.{List, ℕ, ◌≡◌, length};
    ghost use Rattle.attempt_writes.specs.FarPlaces.{with_places};
    ghost use Rattle.attempt_writes.specs.FarPlacesInside.{HavePlaces};

    ghost Value = { List (ℕ × ℕ) };

    ghost view = { λ f. with_places f.numbers f.places.items };

    ghost invariant = { HavePlaces };
}

/// The place at an index, if there is one.
fn place_at(places: &[u32], k: usize) -> Option<usize>
    ensures { result ≡ slice_get places.now k }
{
    let place = *places.get(k)?;
    Some(place as usize)
}

impl FarPlaces {
    /// No numbers. It takes no memory.
    pub fn new(alloc: Global) -> FarPlaces
        ensures { result ≡ [] }
    {
        FarPlaces {
            numbers: NumberIndex::new(alloc),
            places: SmallVec::new(alloc),
        }
    }

    /// The place of a number, if it is there.
    pub fn find(&self, number: u32) -> Option<usize>
        ensures { result ≡ far_place self.now number }
    {
        match self.numbers.find(number) {
            Some(k) => place_at(self.places.as_slice(), k),
            None => None,
        }
    }

    /// One number more, that is not there. Refused, all is as it was. The first eight take no memory.
    pub fn push(&mut self, number: u32, place: usize) -> Result<(), AllocError>
        requires known { number < MAX_VALUES }
        requires new { far_place self.old number ≡ None }
        requires place { place < MAX_VALUES }
        ensures ok { OnOk result (self.new ≡ self.old ++ (number, place) ∷ []) }
        ensures refused { OnErr result (self.new ≡ self.old) }
        ensures in_place { length self.old < 8 → IsOk result }
    {
        self.places.reserve(1)?;
        self.numbers.push(number)?;
        self.places.push_reserved(place as u32);
        Ok(())
    }

    /// Drops all, and keeps the room.
    #[cold]
    #[inline(never)]
    pub fn clear(&mut self)
        ensures { self.new ≡ [] }
    {
        self.numbers.clear();
        self.places.clear();
    }
}
