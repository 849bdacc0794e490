//! The versions after an entry.

ghost use Rattle.std.specs.Prelude.{◌≡◌, ◌<◌, length, map, get_or, pos, set, if◌then◌else◌, IfOk, OnOk};
ghost use Rattle.std.specs.Ordering.{int_eq};
ghost use Rattle.txn_programs.specs.Replay.{versions_after};
ghost use Rattle.txn_evaluator.specs.Notes.{AreInside, undone};

use std::alloc::{AllocError, Global};
use txn_evaluator::notes::Note;

/// The version at a place.
fn version_at(versions: &[u64], place: usize) -> u64
    requires { place < length versions.now }
    ensures { result ≡ get_or versions.now place 0 }
{
    versions[place]
}

/// The version at each place that was noted.
fn versions_of(alloc: Global, notes: &[Note], versions: &[u64]) -> Result<Vec<u64>, AllocError>
    requires { AreInside (length versions.now) notes.now }
    ensures { IfOk result (λ v. v.items ≡ map (λ n. get_or versions.now n.place 0) notes.now) }
{
    let mut found = Vec::new(alloc);
    'notes: for note in notes {
        found.push(version_at(versions, note.place))?;
    }
    Ok(found)
}

/// Sets the version at a place that was noted: to that from before where the value is the one from before too, else
/// to the number.
fn settle(number: u64, note: Note, before: u64, values: &[i64], versions: &mut Vec<u64>)
    requires inside { note.place < length values.now }
    requires sizes { length versions.old.items ≡ length values.now }
    ensures { versions.new.items
        ≡ set versions.old.items note.place
        (if int_eq note.old (get_or values.now note.place (pos 0)) then before else number) }
{
    let Note { place, old } = note;
    if old == values[place] {
        versions[place] = before;
    } else {
        versions[place] = number;
    }
}

/// Sets the version of each variable to the number that has another value than before, where these are the values
/// that were reached and the notes tell what was written. It takes the time of the notes.
pub fn raise(
    number: u64,
    notes: &[Note],
    values: &[i64],
    versions: &mut Vec<u64>,
) -> Result<(), AllocError>
    requires inside { AreInside (length values.now) notes.now }
    requires sizes { length versions.old.items ≡ length values.now }
    ensures raised { OnOk result (versions.new.items
        ≡ versions_after number (undone notes.now values.now) values.now versions.old.items) }
    ensures sized { length versions.new.items ≡ length versions.old.items }
{
    let before = versions_of(*versions.allocator(), notes, versions)?;
    let mut left = notes.len();
    'notes: while left > 0 {
        left -= 1;
        settle(number, notes[left], before[left], values, versions);
    }
    Ok(())
}
