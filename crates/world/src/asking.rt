//! An attempt that has ended asks to commit.

ghost use Rattle.std.specs.Prelude.{◌≡◌, ◌<◌, ◌≤◌, length, None, IfOk, OnErr, Decides};
ghost use Rattle.txn_programs.specs.declared.limits.TheConstants.{MAX_VALUES};
ghost use Rattle.attempt.specs.Order.{AllKnown};
ghost use Rattle.attempt.specs.Frame.{Agrees, store};
ghost use Rattle.world_law.specs.World.{differences};
ghost use Rattle.world_law.specs.declared.events.Event.TheVariants.{Ask};
ghost use Rattle.world.specs.Inside.{Kept, Leads, Stays};
ghost use Rattle.world.specs.Asks.{FindsEnded, AgreesAt, CanCommit, BecomesCommitter};

use crate::scene::{Publishing, Scene, running};
use attempt::Next;
use std::alloc::{AllocError, Global};
use txn::{Memory, TaskId, VarId};
use world_law::{Fate, Seen};

/// The attempt of a task, which has ended, asks to commit. `Memory` where there is no room for the
/// state that it would make; then nothing changed.
pub fn ask(scene: &mut Scene, task: TaskId) -> Result<Seen, Memory>
    requires { Kept scene.old }
    ensures ok { IfOk result (λ s. Leads scene.old (Ask task) s scene.new) }
    ensures refused { OnErr result (Stays scene.old scene.new) }
{
    if scene.committer.is_some() {
        return Ok(Seen::Idle);
    }
    match ended(scene, task) {
        Some((place, retried)) => {
            if !agrees_at(scene, place) {
                scene.trials[place].fate = Fate::Stale;
                return Ok(Seen::Stale);
            }
            if retried {
                scene.trials[place].fate = Fate::Parked;
                return Ok(Seen::Parked);
            }
            let seen = commit(scene, place)?;
            Ok(seen)
        }
        None => Ok(Seen::Idle),
    }
}

/// The place of the running attempt of a task, if it has one that has ended, and whether that
/// retried.
fn ended(scene: &Scene, task: TaskId) -> Option<(usize, bool)>
    requires { Kept scene.now }
    ensures { FindsEnded scene.now task result }
{
    let place = running(scene, task)?;
    match scene.trials[place].at {
        Next::Returned(_) => Some((place, false)),
        Next::Thrown(_) => Some((place, false)),
        Next::Retry => Some((place, true)),
        _ => None,
    }
}

/// Whether what the attempt at this place read is so in the last state.
fn agrees_at(scene: &Scene, place: usize) -> bool
    requires kept { Kept scene.now }
    requires place { place < length scene.now.trials.items }
    ensures { AgreesAt scene.now place result }
{
    let trial = &scene.trials[place];
    let last = &scene.states[scene.count - 1];
    agrees(trial.attempt.log(), last)
}

/// The attempt at this place becomes the committer.
fn commit(scene: &mut Scene, place: usize) -> Result<Seen, Memory>
    requires kept { Kept scene.old }
    requires can { CanCommit scene.old place }
    ensures ok { IfOk result (λ s. BecomesCommitter scene.old place s scene.new) }
    ensures refused { OnErr result (Stays scene.old scene.new) }
{
    // To ask for them is to be told that they are not too many.
    let _few = scene.catalogue.initial().len();
    let alloc = *scene.words.allocator();
    let last = &scene.states[scene.count - 1];
    let next = written(alloc, last, scene.trials[place].attempt.writes())?;
    let changes = changes(alloc, last, &next)?;
    scene.states.push(next)?;
    let number = scene.count as u64;
    scene.committer = Some(Publishing {
        place,
        number,
        changes,
        stored: 0,
    });
    Ok(Seen::Commits(number))
}

/// Whether each logged variable has its logged value.
fn agrees(log: &[(VarId, i64)], state: &[i64]) -> bool
    requires { AllKnown (length state.now) log.now }
    ensures { Decides result (Agrees log.now state.now) }
{
    for pair in log {
        if state[pair.0.0 as usize] != pair.1 {
            return false;
        }
    }
    true
}

/// The state with these writes stored in it.
fn written(alloc: Global, state: &[i64], writes: &[(VarId, i64)]) -> Result<Vec<i64>, AllocError>
    requires { AllKnown (length state.now) writes.now }
    ensures { IfOk result (λ v. v.items ≡ store writes.now state.now) }
{
    let mut next = Vec::with_capacity(alloc, state.len())?;
    next.extend_from_slice(state)?;
    let count = writes.len();
    for done in 0..count {
        let pair = writes[count - 1 - done];
        next[pair.0.0 as usize] = pair.1;
    }
    Ok(next)
}

/// The variables whose values differ, with their new values.
fn changes(alloc: Global, before: &[i64], after: &[i64]) -> Result<Vec<(VarId, i64)>, AllocError>
    requires few { length before.now ≤ MAX_VALUES }
    requires same { length after.now ≡ length before.now }
    ensures { IfOk result (λ v. v.items ≡ differences 0 before.now after.now) }
{
    let mut changes = Vec::new(alloc);
    for x in 0..before.len() {
        if before[x] != after[x] {
            changes.push((VarId(x as u32), after[x]))?;
        }
    }
    Ok(changes)
}
