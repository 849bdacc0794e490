//! Laws of what the shared words mean: they hold the definitions in `specs/Words.antt` and
//! `specs/Loads.antt` that no other contract needs whole. The functions do nothing, as in `laws`.

ghost use Rattle.std.specs.Prelude.{◌≡◌, ◌≤◌, ℕ, ℤ, List, length, slice_index};
ghost use Rattle.txn_words.specs.Words.{IsLastChange, version_word};
ghost use Rattle.txn_words.specs.Loads.{PassRecord, ReaderHolds};

/// A variable has one last change: no two numbers are that of the last state at which it changed.
pub fn last_change_is_one()
    ensures { (h : List (List ℤ)) (x v w : ℕ) → IsLastChange h x v → IsLastChange h x w → v ≡ w }
{}

/// A version word never sinks below what a reader loaded of it, the first time and the second.
pub fn versions_do_not_sink()
    ensures first { (words : List ℕ) (h : List (List ℤ)) (r : PassRecord) → ReaderHolds words h r
        → 1 ≤ length r.loads → slice_index r.loads 0 ≤ slice_index words (version_word r.variable) }
    ensures second { (words : List ℕ) (h : List (List ℤ)) (r : PassRecord) → ReaderHolds words h r
        → 3 ≤ length r.loads → slice_index r.loads 2 ≤ slice_index words (version_word r.variable) }
{}
