//! The three loads of a read.

ghost use Rattle.std.specs.Prelude.{◌≡◌, ◌≢◌, IfOk, OnErr, IsOk};
ghost use Rattle.attempt.specs.Room.{NeedsNoMemory};
ghost use Rattle.txn_programs.specs.Listing.{task_program};
ghost use Rattle.world.specs.Inside.{Kept, Leads, Stays, listing, world_of};
ghost use Rattle.world.specs.Runs.{IsChecking};
ghost use Rattle.world_law.specs.declared.events.Event.TheVariants.{First, Value, Second};
ghost use Rattle.world_law.specs.declared.events.Seen.TheVariants as seen;

use crate::scene::{Scene, reading};
use txn::{Memory, TaskId, VarId};
use world_law::Seen;

/// The attempt of a task begins to read a variable. It takes no memory.
pub fn first(scene: &mut Scene, task: TaskId, x: VarId) -> Seen
    requires { Kept scene.old }
    ensures { Leads scene.old (First task x) result scene.new }
{
    match reading(scene, task) {
        Some((place, needed)) => {
            if needed.0 != x.0 {
                return Seen::Idle;
            }
            let version = scene.words[2 * x.0 as usize + 1];
            scene.trials[place].load_first(version)
        }
        None => Seen::Idle,
    }
}

/// The attempt of a task goes on with its read. It takes no memory.
pub fn value(scene: &mut Scene, task: TaskId) -> Seen
    requires { Kept scene.old }
    ensures { Leads scene.old (Value task) result scene.new }
{
    match reading(scene, task) {
        Some((place, x)) => {
            let bits = scene.words[2 * x.0 as usize + 2];
            scene.trials[place].load_value(bits)
        }
        None => Seen::Idle,
    }
}

/// The attempt of a task ends its read. `Memory` where its log can't grow; then nothing changed.
/// While it checks that does not come. It is not spent where its program needs no memory.
pub fn second(scene: &mut Scene, task: TaskId) -> Result<Seen, Memory>
    requires { Kept scene.old }
    ensures ok { IfOk result (λ s. Leads scene.old (Second task) s scene.new) }
    ensures refused { OnErr result (Stays scene.old scene.new) }
    ensures checks { IsChecking (world_of scene.old) task → IsOk result }
    ensures in_place { NeedsNoMemory (task_program (listing scene.old) task) → IfOk result (λ s. s ≢ seen.Spent) }
{
    match reading(scene, task) {
        Some((place, x)) => {
            let version = scene.words[2 * x.0 as usize + 1];
            let seen = scene.trials[place].load_second(x, version)?;
            Ok(seen)
        }
        None => Ok(Seen::Idle),
    }
}
