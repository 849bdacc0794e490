//! All that changes in a world.

ghost use Rattle.std.specs.Prelude.{◌≡◌, Decides};
ghost use Rattle.world.specs.Inside.{Kept, FindsRunning, FindsReading, IsOwner};

use crate::trial::Trial;
use txn::{Catalogue, TaskId, VarId};
use world_law::Fate;

/// The attempt that commits: where it stands, the number of its state, what changes, and how many
/// of its stores are done.
#[derive(Drop)]
pub struct Publishing {
    pub place: usize,
    pub number: u64,
    pub changes: Vec<(VarId, i64)>,
    pub stored: usize,
}

/// What a world is of, and what changes in it. The history is the first `count` of the states; one
/// more is ready while an attempt commits and has not stored the clock. `latest` has for each task
/// its latest attempt.
#[derive(Drop)]
pub struct Scene<'a> {
    pub catalogue: &'a Catalogue,
    pub words: Vec<u64>,
    pub states: Vec<Vec<i64>>,
    pub count: usize,
    pub trials: Vec<Trial<'a>>,
    pub latest: Vec<Option<usize>>,
    pub committer: Option<Publishing>,
}

/// The place of the running attempt of a task, if it has one.
pub fn running(scene: &Scene, task: TaskId) -> Option<usize>
    requires { Kept scene.now }
    ensures { FindsRunning scene.now task result }
{
    if task.0 as usize >= scene.latest.len() {
        return None;
    }
    match scene.latest[task.0 as usize] {
        Some(place) => match scene.trials[place].fate {
            Fate::Running => Some(place),
            _ => None,
        },
        None => None,
    }
}

/// The place of the running attempt of a task, if it has one that reads a variable, and that
/// variable.
pub fn reading(scene: &Scene, task: TaskId) -> Option<(usize, VarId)>
    requires { Kept scene.now }
    ensures { FindsReading scene.now task result }
{
    let place = running(scene, task)?;
    match scene.trials[place].wants() {
        Some(x) => Some((place, x)),
        None => None,
    }
}

/// Whether the committer is of the attempt at this place.
pub fn is_committer(committer: &Option<Publishing>, place: usize) -> bool
    ensures { Decides result (IsOwner committer.now place) }
{
    match committer {
        Some(publishing) => publishing.place == place,
        None => false,
    }
}
