//! What a world tells of itself.

ghost use Rattle.std.specs.Prelude.{◌≡◌, ◌<◌, length, map};
ghost use Rattle.world.specs.Inside.{Kept, state_items, world_of};
ghost use Rattle.world.specs.Telling.{Tells};

use crate::Scene;
use txn::{TaskId, VarId};
use world_law::Fate;

/// An attempt that began: its task, the number of the state that it reads, what it has read, in
/// this order, and what became of it.
#[derive(Clone, Copy)]
pub struct Begun<'a> {
    pub task: TaskId,
    pub rv: u64,
    pub log: &'a [(VarId, i64)],
    pub fate: Fate,
}

/// The states of the history.
pub(crate) fn states<'s>(scene: &'s Scene<'_>) -> &'s [Vec<i64>]
    requires { Kept scene.now }
    ensures value { map state_items result.now ≡ (world_of scene.now).history }
    ensures some { 0 < length result.now }
{
    &scene.states[..scene.count]
}

/// The attempt at a place.
pub(crate) fn begun_at<'s>(scene: &'s Scene<'_>, place: usize) -> Begun<'s>
    requires { place < length (world_of scene.now).attempts }
    ensures { Tells (world_of scene.now) place result.task result.rv result.log.now result.fate }
{
    let trial = &scene.trials[place];
    Begun {
        task: trial.task,
        rv: trial.rv,
        log: trial.attempt.log(),
        fate: trial.fate,
    }
}
