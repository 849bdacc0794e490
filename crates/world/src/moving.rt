//! A stale attempt runs again.

ghost use Rattle.std.specs.Prelude.{◌≡◌};
ghost use Rattle.world_law.specs.declared.events.Event.TheVariants.{Again};
ghost use Rattle.world.specs.Inside.{Kept, Leads, FindsStale};

use crate::scene::Scene;
use txn::TaskId;
use world_law::Seen;

/// The latest attempt of a task, which became stale at a load, runs again: it loads the clock, and
/// checks whether all that it read is so in that state too. It takes no memory.
pub fn again(scene: &mut Scene, task: TaskId) -> Seen
    requires { Kept scene.old }
    ensures { Leads scene.old (Again task) result scene.new }
{
    match stale(scene, task) {
        Some(place) => {
            let clock = scene.words[0];
            scene.trials[place].go_again(clock)
        }
        None => Seen::Idle,
    }
}

/// The place of the latest attempt of a task, if that became stale at a load.
fn stale(scene: &Scene, task: TaskId) -> Option<usize>
    requires { Kept scene.now }
    ensures { FindsStale scene.now task result }
{
    if task.0 as usize >= scene.latest.len() {
        return None;
    }
    match scene.latest[task.0 as usize] {
        Some(place) => {
            if scene.trials[place].may_go_again() {
                Some(place)
            } else {
                None
            }
        }
        None => None,
    }
}
