//! Attempts that are finished keep their logs alone.

ghost use Rattle.std.specs.Prelude.{◌≡◌, ◌<◌, ℕ, Option, length, Decides};
ghost use Rattle.world_law.specs.declared.events.Event.{Event};
ghost use Rattle.world.specs.Inside.{Kept, Stays, IsFinished, IsLetGo, concerned, latest_of};

use crate::scene::Scene;
use txn::TaskId;
use world_law::{Event, Fate};

/// The place of the attempt that an event is about, if there is one: the latest of its task, or the
/// one that commits.
pub fn concerned(scene: &Scene, event: Event) -> Option<usize>
    ensures { result ≡ concerned scene.now event }
{
    match event {
        Event::Begin(task) => latest(scene, task),
        Event::First(task, _) => latest(scene, task),
        Event::Value(task) => latest(scene, task),
        Event::Second(task) => latest(scene, task),
        Event::Ask(task) => latest(scene, task),
        Event::Word => match &scene.committer {
            Some(publishing) => Some(publishing.place),
            None => None,
        },
        Event::Drop(task) => latest(scene, task),
        Event::Again(task) => latest(scene, task),
    }
}

/// The place of the latest attempt of a task, if it has one.
fn latest(scene: &Scene, task: TaskId) -> Option<usize>
    ensures { result ≡ latest_of scene.now task }
{
    if (task.0 as usize) < scene.latest.len() {
        scene.latest[task.0 as usize]
    } else {
        None
    }
}

/// Where the attempt at this place is finished, it keeps its log alone. That takes no memory.
pub fn settle(scene: &mut Scene, place: Option<usize>)
    requires { Kept scene.old }
    ensures stays { Stays scene.old scene.new }
    ensures let_go { IsLetGo scene.new place }
    ensures others { (other : Option ℕ) → IsLetGo scene.old other → IsLetGo scene.new other }
    ensures about { (event : Event) → concerned scene.new event ≡ concerned scene.old event }
{
    let Some(place) = place else {
        return;
    };
    if place >= scene.trials.len() {
        return;
    }
    if is_finished(scene, place) {
        scene.trials[place].shorten();
    }
}

/// Whether the attempt at this place neither runs nor can run again.
fn is_finished(scene: &Scene, place: usize) -> bool
    requires kept { Kept scene.now }
    requires place { place < length scene.now.trials.items }
    ensures { Decides result (IsFinished scene.now place) }
{
    let trial = &scene.trials[place];
    match trial.fate {
        Fate::Running => false,
        Fate::Stale => {
            !trial.movable
                || match scene.latest[trial.task.0 as usize] {
                    Some(latest) => latest != place,
                    None => true,
                }
        }
        _ => true,
    }
}
