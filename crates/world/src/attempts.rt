//! The lines of the attempts.

ghost use Rattle.std.specs.Prelude.{◌≡◌, ◌++◌, OnOk, string_bytes};
ghost use Rattle.std.specs.List.{flat_map};
ghost use Rattle.world.specs.Inside.{listing, world_of};
ghost use Rattle.world.specs.WorldText.{fate_text, pair_text, told_line, attempt_line};

use crate::Scene;
use crate::telling::{Begun, begun_at};
use std::alloc::AllocError;
use std::fmt::Write;
use text_report_printer::put_value_name;
use txn::{Catalogue, VarId};
use world_law::Fate;

fn put_fate(out: &mut String, fate: Fate) -> Result<(), AllocError>
    ensures { OnOk result (string_bytes out.new ≡ string_bytes out.old ++ fate_text fate) }
{
    match fate {
        Fate::Running => out.push_str("running")?,
        Fate::Committed(n) => write!(out, "committed {n}")?,
        Fate::Parked => out.push_str("parked")?,
        Fate::Stale => out.push_str("stale")?,
        Fate::Dropped => out.push_str("dropped")?,
        Fate::Spent => out.push_str("memory")?,
    }
    Ok(())
}

fn put_pair(out: &mut String, catalogue: &Catalogue, x: VarId, value: i64) -> Result<(), AllocError>
    ensures { OnOk result (string_bytes out.new ≡ string_bytes out.old ++ pair_text catalogue.now (x, value)) }
{
    out.push_str(" ")?;
    put_value_name(out, catalogue, x.0 as usize)?;
    write!(out, " {value}")
}

fn put_log(out: &mut String, catalogue: &Catalogue, log: &[(VarId, i64)]) -> Result<(), AllocError>
    ensures { OnOk result (string_bytes out.new ≡ string_bytes out.old ++ flat_map (pair_text catalogue.now) log.now) }
{
    'pairs: for (x, value) in log {
        put_pair(out, catalogue, *x, *value)?;
    }
    Ok(())
}

fn put_attempt(out: &mut String, catalogue: &Catalogue, y: &Begun<'_>) -> Result<(), AllocError>
    ensures { OnOk result (string_bytes out.new
        ≡ string_bytes out.old
        ++ told_line catalogue.now y.entry.now.task y.entry.now.rv y.entry.now.log.now y.entry.now.fate) }
{
    let task = y.task.0;
    let rv = y.rv;
    write!(out, "attempt {task} {rv} ")?;
    put_fate(out, y.fate)?;
    put_log(out, catalogue, y.log)?;
    out.push_str("\n")?;
    Ok(())
}

/// Puts the lines of all attempts behind the text, in the order in which they began.
pub(crate) fn put_attempts(out: &mut String, scene: &Scene<'_>) -> Result<(), AllocError>
    ensures { OnOk result (string_bytes out.new
        ≡ string_bytes out.old ++ flat_map (attempt_line (listing scene.now)) (world_of scene.now).attempts) }
{
    'attempts: for place in 0..scene.trials.len() {
        put_attempt(out, scene.catalogue, &begun_at(scene, place))?;
    }
    Ok(())
}
