//! The last lines of a world.

ghost use Rattle.std.specs.Prelude.{◌≡◌, OnOk, string_bytes};
ghost use Rattle.world.specs.Inside.{Kept, listing, world_of};
ghost use Rattle.world.specs.WorldText.{PutsWorld};

use crate::Scene;
use crate::attempts::put_attempts;
use crate::present::present;
use crate::telling::states;
use std::alloc::AllocError;
use text_report_printer::{put_number, put_values};

/// Puts the last lines of the world behind the text: the line `now` with the number of the last
/// state, the variables and the cells that were written with their values and versions in it, the
/// attempts in the order in which they began, and the line `end`.
pub(crate) fn put_world(out: &mut String, scene: &Scene<'_>) -> Result<(), AllocError>
    requires { Kept scene.now }
    ensures { OnOk result
        (PutsWorld (listing scene.now) (world_of scene.now) (string_bytes out.old) (string_bytes out.new)) }
{
    let catalogue = scene.catalogue;
    catalogue.rules();
    let history = states(scene);
    let alloc = *scene.words.allocator();
    let vars = present(alloc, history, catalogue.initial().len())?;
    put_number(out, "now", history.len() as u64 - 1)?;
    put_values(out, catalogue, &vars)?;
    put_attempts(out, scene)?;
    out.push_str("end\n")?;
    Ok(())
}
