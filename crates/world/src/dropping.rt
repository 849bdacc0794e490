//! An attempt is dropped.

ghost use Rattle.std.specs.Prelude.{◌≡◌};
ghost use Rattle.world.specs.Inside.{Kept, Leads};
ghost use Rattle.world_law.specs.declared.events.Event.TheVariants.{Drop};

use crate::scene::{Scene, is_committer, running};
use txn::TaskId;
use world_law::{Fate, Seen};

/// The attempt of a task is dropped. It takes no memory.
pub fn drop_attempt(scene: &mut Scene, task: TaskId) -> Seen
    requires { Kept scene.old }
    ensures { Leads scene.old (Drop task) result scene.new }
{
    match running(scene, task) {
        Some(place) => {
            if is_committer(&scene.committer, place) {
                return Seen::Idle;
            }
            scene.trials[place].fate = Fate::Dropped;
            Seen::Dropped
        }
        None => Seen::Idle,
    }
}
