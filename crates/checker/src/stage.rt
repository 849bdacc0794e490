//! A stage of the replay.

ghost use Rattle.std.specs.Prelude.{◌≡◌, ◌↔◌, IfOk, IsTrue, map};
ghost use Rattle.txn_programs.specs.Told.{snapshot_at};
ghost use Rattle.checker.specs.View.{view};

use std::alloc::{AllocError, Global};

/// A number, with the values and versions that stand at it.
#[derive(Drop)]
pub struct Stage {
    pub number: u64,
    pub values: Vec<i64>,
    pub versions: Vec<u64>,
}

/// The values that a report's lines tell of the variables.
pub fn values_of(alloc: Global, vars: &[(i64, u64)]) -> Result<Vec<i64>, AllocError>
    ensures { IfOk result (λ v. v.items ≡ map (λ x. x.0) vars.now) }
{
    vars.iter().map(|v| v.0).collect(alloc)
}

fn versions_of(alloc: Global, vars: &[(i64, u64)]) -> Result<Vec<u64>, AllocError>
    ensures { IfOk result (λ v. v.items ≡ map (λ x. x.1) vars.now) }
{
    vars.iter().map(|v| v.1).collect(alloc)
}

/// The stage of this number that a report's lines tell.
pub fn stage_at(alloc: Global, number: u64, vars: &[(i64, u64)]) -> Result<Stage, AllocError>
    ensures { IfOk result (λ s. view s ≡ snapshot_at number vars.now) }
{
    let values = values_of(alloc, vars)?;
    let versions = versions_of(alloc, vars)?;
    Ok(Stage {
        number,
        values,
        versions,
    })
}

/// Whether the values are the same.
pub(crate) fn same_values(a: &[i64], b: &[i64]) -> bool
    ensures { IsTrue result ↔ (a.now ≡ b.now) }
{
    a == b
}

fn same_versions(a: &[u64], b: &[u64]) -> bool
    ensures { IsTrue result ↔ (a.now ≡ b.now) }
{
    a == b
}

/// Whether two stages are the same.
pub(crate) fn are_same(a: &Stage, b: &Stage) -> bool
    ensures { IsTrue result ↔ (view a.now ≡ view b.now) }
{
    if a.number != b.number {
        return false;
    }
    if !same_values(a.values.as_slice(), b.values.as_slice()) {
        return false;
    }
    same_versions(a.versions.as_slice(), b.versions.as_slice())
}
