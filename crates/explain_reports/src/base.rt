//! The base of a report.

ghost use Rattle.std.specs.Prelude.{◌≡◌, ◌≢◌, ◌≤◌, ◌<◌, ◌↔◌, IsTrue, length, slice_get, Some};
ghost use Rattle.txn_programs.specs.Scope.{ConditionsKnown};
ghost use Rattle.txn_programs.specs.Told.{told, snapshot_at};
ghost use Rattle.txn_evaluator.specs.Always.{conditions_of};
ghost use Rattle.checker.specs.declared.verdict.Part.TheVariants.{Base};
ghost use Rattle.explain_reports.specs.First.{IsSearched};
ghost use Rattle.explain_reports.specs.Parts.{Opens, IsRecent, IsTrueOf};
ghost use Rattle.explain_reports.specs.Flaws.{IsPartJudged};
ghost use Rattle.checker.specs.View.{view};

use crate::flaw::Flaw;
use checker::stage::Stage;
use txn::evaluate::standing_truth;
use txn::{AlwaysId, Catalogue, Cond, Report};

/// Whether a variable begins with this value.
fn opens(variable: &(i64, u64), value: i64) -> bool
    ensures { IsTrue result ↔ (value ≡ variable.now.0) × (variable.now.1 ≡ 0) }
{
    variable.0 == value && variable.1 == 0
}

/// The first variable that does not begin with its initial value at version 0.
fn first_unopened(vars: &[(i64, u64)], values: &[i64]) -> Option<usize>
    requires { length values.now ≡ length vars.now }
    ensures { IsSearched (Opens values.now) vars.now result }
{
    'vars: for (i, variable) in vars.iter().enumerate() {
        if !opens(variable, values[i]) {
            return Some(i);
        }
    }
    None
}

/// The first variable whose version is above the number.
fn first_late(vars: &[(i64, u64)], number: u64) -> Option<usize>
    ensures { IsSearched (IsRecent number) vars.now result }
{
    'vars: for (i, variable) in vars.iter().enumerate() {
        if variable.1 > number {
            return Some(i);
        }
    }
    None
}

/// The first condition that is not true of the values.
fn first_untrue(always: &[(String, Cond)], values: &[i64]) -> Option<usize>
    requires { ConditionsKnown (length values.now) (conditions_of always.now) }
    ensures { IsSearched (IsTrueOf values.now) (conditions_of always.now) result }
{
    'conditions: for (i, (_, condition)) in always.iter().enumerate() {
        match standing_truth(condition, values) {
            Ok(true) => {}
            _ => return Some(i),
        }
    }
    None
}

/// What is not so of a base of number 0.
fn opening_flaw(catalogue: &Catalogue, report: &Report) -> Option<Flaw>
    requires opening { report.now.base ≡ 0 }
    requires sized { length report.now.base_vars.items ≡ length catalogue.now.initial }
    ensures { IsPartJudged catalogue.now (told report.entry.now) Base result }
{
    catalogue.rules();
    let initial = catalogue.initial();
    match first_unopened(&report.base_vars, initial) {
        Some(i) => Some(Flaw::Opening(i, initial[i])),
        None => None,
    }
}

/// What is not so of a base of a later number.
fn later_flaw(catalogue: &Catalogue, report: &Report, base: &Stage) -> Option<Flaw>
    requires later { report.now.base ≢ 0 }
    requires told { view base.now ≡ snapshot_at report.now.base report.now.base_vars.items }
    requires sized { length base.now.values.items ≡ length catalogue.now.initial }
    ensures { IsPartJudged catalogue.now (told report.entry.now) Base result }
{
    match first_untrue(catalogue.always(), &base.values) {
        Some(i) => Some(Flaw::Untrue(AlwaysId(i as u32))),
        None => match first_late(&report.base_vars, report.base) {
            Some(i) => Some(Flaw::Late(i)),
            None => None,
        },
    }
}

/// What is not so of the base of a report: of number 0 the first variable that does not begin as
/// the file says; of a later one the first standing condition that is not true, else the first
/// variable whose version is too large.
pub(crate) fn base_flaw(catalogue: &Catalogue, report: &Report, base: &Stage) -> Option<Flaw>
    requires told { view base.now ≡ snapshot_at report.now.base report.now.base_vars.items }
    requires sized { length base.now.values.items ≡ length catalogue.now.initial }
    requires vars { length report.now.base_vars.items ≡ length catalogue.now.initial }
    ensures { IsPartJudged catalogue.now (told report.entry.now) Base result }
{
    if report.base == 0 {
        opening_flaw(catalogue, report)
    } else {
        later_flaw(catalogue, report, base)
    }
}
