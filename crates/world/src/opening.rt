//! The world as it opens.

ghost use Rattle.std.specs.Prelude.{◌≡◌, ◌≤◌, length, replicate, None, IfOk};
ghost use Rattle.txn_programs.specs.declared.limits.TheConstants.{MAX_VALUES};
ghost use Rattle.world_law.specs.World.{IsOpening};
ghost use Rattle.world.specs.Opening.{AreOpeningWords};
ghost use Rattle.world.specs.Inside.{Kept, world_of};

use crate::scene::Scene;
use std::alloc::{AllocError, Global};
use txn::{Catalogue, Memory};

/// The scene of a catalogue in which nothing has happened.
pub fn first_scene<'a>(alloc: Global, catalogue: &'a Catalogue) -> Result<Scene<'a>, Memory>
    ensures catalogue { IfOk result (λ s. s.catalogue.now ≡ catalogue.now) }
    ensures kept { IfOk result (λ s. Kept s) }
    ensures opening { IfOk result (λ s. IsOpening catalogue.now (world_of s)) }
{
    let initial = catalogue.initial();
    let words = opening_words(alloc, initial)?;
    let mut state = Vec::with_capacity(alloc, initial.len())?;
    state.extend_from_slice(initial)?;
    let states = vec![in alloc; state]?;
    let latest = no_attempts(alloc, catalogue.tasks())?;
    Ok(Scene {
        catalogue,
        words,
        states,
        count: 1,
        trials: Vec::new(alloc),
        latest,
        committer: None,
    })
}

/// The words of these values: the clock and each version are 0.
fn opening_words(alloc: Global, values: &[i64]) -> Result<Vec<u64>, AllocError>
    requires { length values.now ≤ MAX_VALUES }
    ensures { IfOk result (λ v. AreOpeningWords values.now v.items) }
{
    let mut words = Vec::with_capacity(alloc, 2 * values.len() + 1)?;
    words.push(0)?;
    for value in values {
        words.push(0)?;
        words.push(value.cast_unsigned())?;
    }
    Ok(words)
}

/// No attempt for each task.
fn no_attempts(alloc: Global, tasks: usize) -> Result<Vec<Option<usize>>, AllocError>
    ensures { IfOk result (λ v. v.items ≡ replicate tasks None) }
{
    let mut latest = Vec::with_capacity(alloc, tasks)?;
    for _ in 0..tasks {
        latest.push(None)?;
    }
    Ok(latest)
}
