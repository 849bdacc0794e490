//! The base of a report.

ghost use Rattle.std.specs.Prelude.{◌≡◌, ◌≤◌, ◌↔◌, IsTrue, All, length};
ghost use Rattle.txn_programs.specs.Scope.{ConditionsKnown};
ghost use Rattle.txn_programs.specs.Standing.{AllTrue, Upholds};
ghost use Rattle.txn_programs.specs.Told.{told, snapshot_at};
ghost use Rattle.txn_evaluator.specs.Always.{conditions_of};
ghost use Rattle.checker.specs.View.{view};
ghost use Rattle.checker.specs.Parts.{BaseHolds};

use crate::stage::{Stage, same_values};
use txn::evaluate::standing_truth;
use txn::{Catalogue, Cond, Report};

/// Whether no version is above the number.
fn are_recent(vars: &[(i64, u64)], number: u64) -> bool
    ensures { IsTrue result ↔ All (λ v. v.1 ≤ number) vars.now }
{
    vars.iter().all(|v| v.1 <= number)
}

/// Whether each condition is true of the values.
fn are_true(always: &[(String, Cond)], values: &[i64]) -> bool
    requires { ConditionsKnown (length values.now) (conditions_of always.now) }
    ensures { IsTrue result ↔ AllTrue (conditions_of always.now) values.now }
{
    'conditions: for (_, condition) in always {
        match standing_truth(condition, values) {
            Ok(true) => {}
            _ => return false,
        }
    }
    true
}

/// Whether each standing condition is true of the values.
fn conditions_hold(catalogue: &Catalogue, base: &Stage) -> bool
    requires { length base.now.values.items ≡ length catalogue.now.initial }
    ensures { IsTrue result ↔ Upholds catalogue.now (view base.now).state }
{
    are_true(catalogue.always(), &base.values)
}

/// Whether the base of a report is one to begin from.
pub(crate) fn base_holds(catalogue: &Catalogue, report: &Report, base: &Stage) -> bool
    requires told { view base.now ≡ snapshot_at report.now.base report.now.base_vars.items }
    requires values { length base.now.values.items ≡ length catalogue.now.initial }
    ensures { IsTrue result ↔ BaseHolds catalogue.now (told report.entry.now) }
{
    if !are_recent(&report.base_vars, report.base) {
        return false;
    }
    if !conditions_hold(catalogue, base) {
        return false;
    }
    if report.base != 0 {
        return true;
    }
    same_values(&base.values, catalogue.initial())
}
