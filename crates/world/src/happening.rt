//! One event happens.

ghost use Rattle.std.specs.Prelude.{◌≡◌, ◌≢◌, IfOk, OnOk, OnErr, IsOk};
ghost use Rattle.world_law.specs.Next.{Reachable};
ghost use Rattle.world_law.specs.declared.events.Seen.TheVariants as seen;
ghost use Rattle.world.specs.Runs.{TakesNone, EndsCheck, EvaluatesFree};
ghost use Rattle.world.specs.Inside.{Kept, Leads, Stays, IsLetGo, concerned, listing, world_of};

use crate::asking::ask;
use crate::beginning::begin;
use crate::dropping::drop_attempt;
use crate::finishing::{concerned, settle};
use crate::moving::again;
use crate::reading::{first, second, value};
use crate::scene::Scene;
use crate::storing::word;
use txn::Memory;
use world_law::{Event, Seen};

/// One event happens, and what is finished then keeps its log alone: the attempt that the event was
/// about before it, and the one that it is about behind it. At `Memory` nothing changed.
pub fn happen(scene: &mut Scene, event: Event) -> Result<Seen, Memory>
    requires kept { Kept scene.old }
    requires reached { Reachable (listing scene.old) (world_of scene.old) }
    ensures ok { IfOk result (λ s. Leads scene.old event s scene.new) }
    ensures before { OnOk result (IsLetGo scene.new (concerned scene.old event)) }
    ensures after { OnOk result (IsLetGo scene.new (concerned scene.new event)) }
    ensures refused { OnErr result (Stays scene.old scene.new) }
    ensures sure { TakesNone event → IsOk result }
    ensures checks { EndsCheck (world_of scene.old) event → IsOk result }
    ensures in_place { EvaluatesFree (listing scene.old) event → IfOk result (λ s. s ≢ seen.Spent) }
{
    let before = concerned(scene, event);
    let seen = dispatch(scene, event)?;
    settle(scene, before);
    let after = concerned(scene, event);
    settle(scene, after);
    Ok(seen)
}

/// Each event is a function of its own.
fn dispatch(scene: &mut Scene, event: Event) -> Result<Seen, Memory>
    requires kept { Kept scene.old }
    requires reached { Reachable (listing scene.old) (world_of scene.old) }
    ensures ok { IfOk result (λ s. Leads scene.old event s scene.new) }
    ensures refused { OnErr result (Stays scene.old scene.new) }
    ensures sure { TakesNone event → IsOk result }
    ensures checks { EndsCheck (world_of scene.old) event → IsOk result }
    ensures in_place { EvaluatesFree (listing scene.old) event → IfOk result (λ s. s ≢ seen.Spent) }
{
    match event {
        Event::Begin(task) => begin(scene, task),
        Event::First(task, x) => Ok(first(scene, task, x)),
        Event::Value(task) => Ok(value(scene, task)),
        Event::Second(task) => second(scene, task),
        Event::Ask(task) => ask(scene, task),
        Event::Word => Ok(word(scene)),
        Event::Drop(task) => Ok(drop_attempt(scene, task)),
        Event::Again(task) => Ok(again(scene, task)),
    }
}
