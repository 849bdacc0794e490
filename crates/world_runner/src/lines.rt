//! A schedule's moves, played one after another.

ghost use Rattle.std.specs.Prelude.{◌≡◌, IfOk, OnOk, string_bytes};
ghost use Rattle.world_runner.specs.Playing.{IsTextOf, PutsLines};

use std::alloc::Global;
use txn::{Catalogue, Memory, Move};
use world::{World, put_seen};

/// About as many bytes as a line has.
const LINE: usize = 24;

/// The text of a schedule that is played from the beginning: what is seen of each line, and then
/// the world that it led to. `Err` means that a growth was refused.
pub(crate) fn played(alloc: Global, catalogue: &Catalogue, moves: &[Move]) -> Result<String, Memory>
    ensures { IfOk result (λ text. IsTextOf catalogue.now moves.now (string_bytes text)) }
{
    let mut out = String::with_capacity(alloc, moves.len().saturating_mul(LINE))?;
    let mut world = World::open(alloc, catalogue)?;
    put_lines(&mut out, &mut world, catalogue, moves)?;
    world.put_text(&mut out)?;
    Ok(out)
}

/// Plays the moves, and puts what is seen of each behind the text, as a line.
fn put_lines(
    out: &mut String,
    world: &mut World<'_>,
    catalogue: &Catalogue,
    moves: &[Move],
) -> Result<(), Memory>
    requires { world.old.listing ≡ catalogue.now }
    ensures of { world.new.listing ≡ catalogue.now }
    ensures lines { OnOk result (PutsLines catalogue.now world.old.world moves.now world.new.world
        (string_bytes out.old) (string_bytes out.new)) }
{
    'moves: for (i, line) in moves.iter().enumerate() {
        let seen = world.play(*line)?;
        put_seen(out, catalogue, i as u64 + 1, seen)?;
    }
    Ok(())
}
