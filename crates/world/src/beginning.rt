//! An attempt begins.

ghost use Rattle.std.specs.Prelude.{◌≡◌, ◌≢◌, IfOk, OnErr, Decides};
ghost use Rattle.attempt.specs.Room.{NeedsNoMemory};
ghost use Rattle.txn_programs.specs.Listing.{task_program};
ghost use Rattle.world_law.specs.World.{CanBegin};
ghost use Rattle.world_law.specs.declared.events.Event.TheVariants.{Begin};
ghost use Rattle.world_law.specs.declared.events.Seen.TheVariants as seen;
ghost use Rattle.world.specs.Inside.{Kept, Leads, Stays, listing, world_of};

use crate::scene::Scene;
use crate::trial::{first_asked, lives};
use txn::{Memory, TaskId};
use world_law::Seen;

/// An attempt of a task begins. `Memory` where it has no room; then nothing changed. It is not
/// spent where its program needs no memory.
pub fn begin(scene: &mut Scene, task: TaskId) -> Result<Seen, Memory>
    requires { Kept scene.old }
    ensures ok { IfOk result (λ s. Leads scene.old (Begin task) s scene.new) }
    ensures refused { OnErr result (Stays scene.old scene.new) }
    ensures in_place { NeedsNoMemory (task_program (listing scene.old) task) → IfOk result (λ s. s ≢ seen.Spent) }
{
    if !can_begin(scene, task) {
        return Ok(Seen::Idle);
    }
    let place = scene.trials.len();
    let alloc = *scene.words.allocator();
    let (trial, seen) = first_asked(alloc, scene.catalogue, task, scene.words[0])?;
    scene.trials.push(trial)?;
    scene.latest[task.0 as usize] = Some(place);
    Ok(seen)
}

/// Whether the task exists, and has no running attempt and none that committed.
fn can_begin(scene: &Scene, task: TaskId) -> bool
    requires { Kept scene.now }
    ensures { Decides result (CanBegin (listing scene.now) (world_of scene.now) task) }
{
    if task.0 as usize >= scene.latest.len() {
        return false;
    }
    match scene.latest[task.0 as usize] {
        Some(place) => !lives(scene.trials[place].fate),
        None => true,
    }
}
