//! The present of a report.

ghost use Rattle.std.specs.Prelude.{◌≡◌, ◌↔◌, IsTrue, length};
ghost use Rattle.txn_programs.specs.Told.{told};
ghost use Rattle.checker.specs.declared.verdict.Part.TheVariants.{Present};
ghost use Rattle.explain_reports.specs.First.{IsSearched};
ghost use Rattle.explain_reports.specs.Parts.{StandsAt};
ghost use Rattle.explain_reports.specs.Flaws.{IsPartJudged, reached};
ghost use Rattle.checker.specs.View.{view};

use crate::flaw::Flaw;
use checker::stage::Stage;
use txn::{Catalogue, Report};

/// Whether a variable has this value and version.
fn has(variable: &(i64, u64), value: i64, version: u64) -> bool
    ensures { IsTrue result ↔ (value ≡ variable.now.0) × (version ≡ variable.now.1) }
{
    variable.0 == value && variable.1 == version
}

/// The first variable that has not the stage's value and version.
fn first_other(vars: &[(i64, u64)], stage: &Stage) -> Option<usize>
    requires values { length stage.now.values.items ≡ length vars.now }
    requires versions { length stage.now.versions.items ≡ length vars.now }
    ensures { IsSearched (StandsAt (view stage.now)) vars.now result }
{
    'vars: for (i, variable) in vars.iter().enumerate() {
        if !has(variable, stage.values[i], stage.versions[i]) {
            return Some(i);
        }
    }
    None
}

/// What is not so of the present of a report whose entries lead to the stage: the number, else the
/// first variable that differs.
pub(crate) fn present_flaw(catalogue: &Catalogue, report: &Report, stage: &Stage) -> Option<Flaw>
    requires led { view stage.now ≡ reached catalogue.now (told report.now) }
    requires values { length stage.now.values.items ≡ length catalogue.now.initial }
    requires versions { length stage.now.versions.items ≡ length catalogue.now.initial }
    requires sized { length report.now.now_vars.items ≡ length catalogue.now.initial }
    ensures { IsPartJudged catalogue.now (told report.entry.now) Present result }
{
    catalogue.rules();
    if report.now != stage.number {
        return Some(Flaw::Number(stage.number));
    }
    match first_other(&report.now_vars, stage) {
        Some(i) => Some(Flaw::Present(i, stage.values[i], stage.versions[i])),
        None => None,
    }
}
