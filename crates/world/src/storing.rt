//! The stores of the attempt that commits.

ghost use Rattle.std.specs.Prelude.{◌≡◌, ◌+◌, ◌*◌, ◌^◌, ◌<◌, ◌≤◌, length, Some, None};
ghost use Rattle.std.specs.List.{slice_get};
ghost use Rattle.txn_programs.specs.declared.limits.TheConstants.{MAX_VALUES};
ghost use Rattle.world_law.specs.World.{stores, Writes};
ghost use Rattle.world_law.specs.Next.{Reachable};
ghost use Rattle.world_law.specs.declared.events.Event.TheVariants.{Word};
ghost use Rattle.world.specs.Inside.{Kept, Leads, listing, world_of};
ghost use Rattle.world.specs.Steps.{count_after, MayWrite, with_committer};

use crate::scene::{Publishing, Scene};
use world_law::{Fate, Seen, Store};

/// The attempt that commits makes its next store. It takes no memory.
pub fn word(scene: &mut Scene) -> Seen
    requires kept { Kept scene.old }
    requires reached { Reachable (listing scene.old) (world_of scene.old) }
    ensures { Leads scene.old Word result scene.new }
{
    match scene.committer.take() {
        Some(publishing) => make_next(scene, publishing),
        None => Seen::Idle,
    }
}

/// The next store of a commit that was taken out of the scene.
fn make_next(scene: &mut Scene, mut publishing: Publishing) -> Seen
    requires none { scene.old.committer ≡ None }
    requires kept { Kept (with_committer scene.old publishing) }
    requires reached { Reachable (listing scene.old) (world_of (with_committer scene.old publishing)) }
    ensures { Leads (with_committer scene.old publishing) Word result scene.new }
{
    scene.catalogue.rules();
    // To ask for them is to be told that they are not too many.
    let _few = scene.catalogue.initial().len();
    let store = next_store(&publishing);
    let number = publishing.number;
    write(&mut scene.words, store, number);
    scene.count = counted(scene.count, store);
    if publishing.stored == 3 * publishing.changes.len() {
        scene.trials[publishing.place].fate = Fate::Committed(number);
        return Seen::Committed(number);
    }
    publishing.stored += 1;
    scene.committer = Some(publishing);
    Seen::Stored
}

/// The next store of a commit.
fn next_store(publishing: &Publishing) -> Store
    requires few { length publishing.now.changes.items ≤ MAX_VALUES }
    requires under { publishing.now.stored < 3 * length publishing.now.changes.items + 1 }
    ensures { slice_get (stores publishing.now.changes.items) publishing.now.stored ≡ Some result }
{
    let count = publishing.changes.len();
    let stored = publishing.stored;
    if stored < count {
        return Store::Lock(publishing.changes[stored].0);
    }
    if stored < 2 * count {
        let change = publishing.changes[stored - count];
        return Store::Put(change.0, change.1);
    }
    if stored == 2 * count {
        return Store::Tick;
    }
    Store::Free(publishing.changes[stored - 2 * count - 1].0)
}

/// Makes a store of the commit of this number.
fn write(words: &mut Vec<u64>, store: Store, number: u64)
    requires { MayWrite store number words.old.items }
    ensures { Writes store number words.old.items words.new.items }
{
    match store {
        Store::Lock(x) => words[2 * x.0 as usize + 1] += 1,
        Store::Put(x, v) => words[2 * x.0 as usize + 2] = v.cast_unsigned(),
        Store::Tick => words[0] = number,
        Store::Free(x) => words[2 * x.0 as usize + 1] = 2 * number,
    }
}

/// How many states there are after a store.
fn counted(count: usize, store: Store) -> usize
    requires { count + 1 < 2 ^ 64 }
    ensures { result ≡ count_after store count }
{
    match store {
        Store::Tick => count + 1,
        _ => count,
    }
}
