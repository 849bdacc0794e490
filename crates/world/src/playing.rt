//! One line of a schedule.

ghost use Rattle.std.specs.Prelude.{◌≡◌, IfOk, OnErr, IsOk};
ghost use Rattle.world.specs.Lines.{Reads, ReadsPart, Commits, Moves, Plays, PlaysPart};
ghost use Rattle.world.specs.Lines.{PlaysFree, PlaysCheck, IsCommitting, StoresLast};
ghost use Rattle.world.specs.Runs.{IsChecking};

use crate::world::World;
use txn::{Memory, Move, TaskId, VarId};
use world_law::{Event, Seen};

/// A line of a schedule: its events happen one after another, and the answer of the last is told.
pub(crate) fn play(world: &mut World<'_>, line: Move) -> Result<Seen, Memory>
    ensures listing { world.new.listing ≡ world.old.listing }
    ensures ok { IfOk result (λ s. Plays world.old.listing world.old.world line s world.new.world) }
    ensures refused { OnErr result (PlaysPart world.old.listing world.old.world line world.new.world) }
    ensures sure { PlaysFree line → IsOk result }
    ensures checks { PlaysCheck world.old.world line → IsOk result }
{
    match line {
        Move::Begin(task) => world.step(Event::Begin(task)),
        Move::Read(task, x) => read(world, task, x),
        Move::Commit(task) => commit(world, task),
        Move::Drop(task) => world.step(Event::Drop(task)),
        Move::First(task, x) => world.step(Event::First(task, x)),
        Move::Value(task) => world.step(Event::Value(task)),
        Move::Second(task) => world.step(Event::Second(task)),
        Move::Ask(task) => world.step(Event::Ask(task)),
        Move::Word => world.step(Event::Word),
        Move::Again(task) => world.step(Event::Again(task)),
        Move::Move(task) => move_on(world, task),
    }
}

/// The three loads of a read, the latter two where the first was loaded.
fn read(world: &mut World<'_>, task: TaskId, x: VarId) -> Result<Seen, Memory>
    ensures listing { world.new.listing ≡ world.old.listing }
    ensures ok { IfOk result (λ s. Reads world.old.listing world.old.world task x s world.new.world) }
    ensures refused { OnErr result (ReadsPart world.old.listing world.old.world task x world.new.world) }
    ensures sure { IsChecking world.old.world task → IsOk result }
{
    match world.step(Event::First(task, x))? {
        Seen::Loaded => {
            world.step(Event::Value(task))?;
            world.step(Event::Second(task))
        }
        seen => Ok(seen),
    }
}

/// The stale attempt runs again, and while it checks a variable that is read. It is never refused.
fn move_on(world: &mut World<'_>, task: TaskId) -> Result<Seen, Memory>
    ensures listing { world.new.listing ≡ world.old.listing }
    ensures ok { IfOk result (λ s. Moves world.old.listing world.old.world task s world.new.world) }
    ensures sure { IsOk result }
{
    let mut seen = world.step(Event::Again(task))?;
    'checks: loop {
        match seen {
            Seen::Checks(x) => seen = read(world, task, x)?,
            _ => return Ok(seen),
        }
    }
}

/// The question whether to commit, and then all stores of the commit.
fn commit(world: &mut World<'_>, task: TaskId) -> Result<Seen, Memory>
    ensures listing { world.new.listing ≡ world.old.listing }
    ensures ok { IfOk result (λ s. Commits world.old.listing world.old.world task s world.new.world) }
    ensures refused { OnErr result (world.new.world ≡ world.old.world) }
{
    let seen = world.step(Event::Ask(task))?;
    match seen {
        Seen::Commits(number) => store_all(world, number),
        _ => Ok(seen),
    }
}

/// All stores of the commit of this number.
fn store_all(world: &mut World<'_>, number: u64) -> Result<Seen, Memory>
    requires { IsCommitting world.old.world number }
    ensures listing { world.new.listing ≡ world.old.listing }
    ensures ok { IfOk result (λ s. StoresLast world.old.listing number world.old.world s world.new.world) }
    ensures sure { IsOk result }
{
    'stores: loop {
        let seen = world.step(Event::Word)?;
        match seen {
            Seen::Stored => {}
            _ => return Ok(seen),
        }
    }
}
