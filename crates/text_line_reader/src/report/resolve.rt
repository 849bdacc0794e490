//! From the words of a report to what it tells: names as ids, and integers as numbers.

ghost use Rattle.std.specs.Prelude.{◌≡◌, ◌⊎◌, All, FitsSigned, IfErr, OnOk, drop, length};
ghost use Rattle.std.specs.Int.{w64};
ghost use Rattle.std.specs.List.{list_all};
ghost use Rattle.txn_programs.specs.Listing.{spans};
ghost use Rattle.txn_programs.specs.Told.{told};
ghost use Rattle.text_words.specs.Answers.{Gives};
ghost use Rattle.text_words.specs.declared.fault.ReadFault.TheVariants.{Name, Limit};
ghost use Rattle.text_line_reader.specs.ReportResolving.{named_as, is_known, condition_known, variables_known};
ghost use Rattle.text_line_reader.specs.ReportResolving.{transactions_known, names_known, count_in, tx_id, always_id};
ghost use Rattle.text_line_reader.specs.ReportResolving.{variable_told, outcome_told, entry_told, task_told, told_of};
ghost use Rattle.text_line_reader.specs.ReportResolving.{resolved};
ghost use Rattle.text_line_reader.specs.Rows.{each};
ghost use Rattle.text_line_reader.specs.ReportView.{view_variable, view_variables, view_ending, view_entry};
ghost use Rattle.text_line_reader.specs.ReportView.{view_entries};
ghost use Rattle.text_line_reader.specs.ReportView.{view_task, view_tasks, view_raw};

use crate::cells::spans_of;
use crate::report::cells::{cells_known, cells_told, values_told};
use crate::report::raw::{RawEnding, RawEntry, RawReport, RawTask, RawVariable};
use crate::{Count, task_id};
use std::alloc::Global;
use text_words::ReadFault;
use txn::limits::MAX_TASKS;
use txn::{AlwaysId, Catalogue, Entry, Fault, Outcome, Report, Span, TaskId, TxId, VarId};

/// Whether each line has the name of the variable at its place.
fn named_as(catalogue: &Catalogue, vars: &[RawVariable<'_>]) -> bool
    requires { length vars.now ≡ length catalogue.now.names }
    ensures { result ≡ named_as catalogue.now.names (view_variables vars.now) }
{
    catalogue.rules();
    'vars: for (i, v) in vars.iter().enumerate() {
        if v.name != catalogue.var_name(VarId(i as u32)) {
            return false;
        }
    }
    true
}

fn is_known(catalogue: &Catalogue, name: &str) -> bool
    ensures { result ≡ is_known catalogue.now name.now }
{
    catalogue.tx_id(name).is_some()
}

fn entries_known(catalogue: &Catalogue, entries: &[RawEntry<'_>]) -> bool
    ensures { result ≡ list_all (λ e. is_known catalogue.now (view_entry e).name) entries.now }
{
    entries.iter().all(|e| is_known(catalogue, e.name))
}

fn tasks_known(catalogue: &Catalogue, tasks: &[RawTask<'_>]) -> bool
    ensures { result ≡ list_all (λ t. is_known catalogue.now (view_task t).name) tasks.now }
{
    tasks.iter().all(|t| is_known(catalogue, t.name))
}

/// Whether it is no broken condition, or one of the catalogue's.
fn condition_known(catalogue: &Catalogue, ending: RawEnding<'_>) -> bool
    ensures { result ≡ condition_known catalogue.now (view_ending ending.entry) }
{
    match ending {
        RawEnding::Broke(name) => catalogue.always_id(name).is_some(),
        RawEnding::Returned(_)
        | RawEnding::Threw(_)
        | RawEnding::Overflow
        | RawEnding::DivideByZero
        | RawEnding::Outside => true,
    }
}

fn conditions_known(catalogue: &Catalogue, entries: &[RawEntry<'_>]) -> bool
    ensures { result ≡ list_all (λ e. condition_known catalogue.now (view_entry e).ending) entries.now }
{
    entries.iter().all(|e| condition_known(catalogue, e.ending))
}

/// Whether each variable's lines have its name, and those of cells name cells in their order.
#[tactic(auto, unfolding(crate::specs::ReportResolving::variables_known))]
fn variables_known(catalogue: &Catalogue, tables: &[Span], report: &RawReport<'_>) -> bool
    requires tables { tables.now ≡ spans catalogue.now }
    requires base { length report.now.base_vars.items ≡ length catalogue.now.names }
    requires current { length report.now.now_vars.items ≡ length catalogue.now.names }
    ensures { result ≡ variables_known catalogue.now (view_raw report.entry.now) }
{
    named_as(catalogue, &report.base_vars)
        && named_as(catalogue, &report.now_vars)
        && cells_known(catalogue, tables, &report.base_cells)
        && cells_known(catalogue, tables, &report.now_cells)
}

/// Whether only the catalogue's transactions are named.
fn transactions_known(catalogue: &Catalogue, report: &RawReport<'_>) -> bool
    ensures { result ≡ transactions_known catalogue.now (view_raw report.entry.now) }
{
    let entries = entries_known(catalogue, &report.entries);
    let parked = tasks_known(catalogue, &report.parked);
    let memory = tasks_known(catalogue, &report.memory);
    if !entries {
        return false;
    }
    if !parked {
        return false;
    }
    memory
}

/// Whether all names are known.
#[tactic(auto, unfolding(crate::specs::ReportResolving::names_known))]
fn names_known(catalogue: &Catalogue, tables: &[Span], report: &RawReport<'_>) -> bool
    requires tables { tables.now ≡ spans catalogue.now }
    requires base { length report.now.base_vars.items ≡ length catalogue.now.names }
    requires current { length report.now.now_vars.items ≡ length catalogue.now.names }
    ensures { result ≡ names_known catalogue.now (view_raw report.entry.now) }
{
    if !variables_known(catalogue, tables, report) {
        return false;
    }
    if !transactions_known(catalogue, report) {
        return false;
    }
    conditions_known(catalogue, &report.entries)
}

/// A number or a version.
pub(crate) fn count_in(count: Count<'_>) -> Result<u64, ReadFault>
    ensures value { Gives (λ x. x) result (count_in count.entry.text.now) }
    ensures kind { IfErr result (λ e. e ≡ Limit) }
{
    count.below(MAX_TASKS as u64 + 1)
}

#[tactic(auto, unfolding(crate::specs::ReportResolving::tx_id))]
fn tx_id(catalogue: &Catalogue, name: &str) -> Result<TxId, ReadFault>
    ensures value { Gives (λ x. x) result (tx_id catalogue.now name.now) }
    ensures kind { IfErr result (λ e. e ≡ Name) }
{
    catalogue.tx_id(name).ok_or(ReadFault::Name)
}

#[tactic(auto, unfolding(crate::specs::ReportResolving::always_id))]
fn always_id(catalogue: &Catalogue, name: &str) -> Result<AlwaysId, ReadFault>
    ensures value { Gives (λ x. x) result (always_id catalogue.now name.now) }
    ensures kind { IfErr result (λ e. e ≡ Name) }
{
    catalogue.always_id(name).ok_or(ReadFault::Name)
}

#[tactic(auto, unfolding(crate::specs::ReportResolving::variable_told))]
fn variable_told(v: RawVariable<'_>) -> Result<(i64, u64), ReadFault>
    ensures value { Gives (λ x. x) result (variable_told (view_variable v.entry)) }
    ensures kind { IfErr result (λ e. e ≡ Limit) }
{
    let value = v.value.number()?;
    let version = count_in(v.version)?;
    Ok((value, version))
}

/// The variables, with room for so many values.
fn variables_told(
    alloc: Global,
    room: usize,
    vars: &[RawVariable<'_>],
) -> Result<Vec<(i64, u64)>, ReadFault>
    ensures { Gives (λ x. x.items) result (each variable_told (view_variables vars.now)) }
{
    let mut made = Vec::with_capacity(alloc, room)?;
    'vars: for v in vars {
        made.push(variable_told(*v)?)?;
    }
    Ok(made)
}

fn outcome_told(catalogue: &Catalogue, ending: RawEnding<'_>) -> Result<Outcome, ReadFault>
    ensures value { Gives (λ x. x) result (outcome_told catalogue.now (view_ending ending.entry)) }
    ensures kind { IfErr result (λ e. (e ≡ Name) ⊎ (e ≡ Limit)) }
{
    match ending {
        RawEnding::Returned(value) => {
            let value = value.number()?;
            Ok(Outcome::Returned(value))
        }
        RawEnding::Threw(value) => {
            let value = value.number()?;
            Ok(Outcome::Thrown(Fault::User(value)))
        }
        RawEnding::Overflow => Ok(Outcome::Thrown(Fault::Overflow)),
        RawEnding::DivideByZero => Ok(Outcome::Thrown(Fault::DivideByZero)),
        RawEnding::Outside => Ok(Outcome::Thrown(Fault::Outside)),
        RawEnding::Broke(name) => {
            let id = always_id(catalogue, name)?;
            Ok(Outcome::Thrown(Fault::Broken(id)))
        }
    }
}

#[tactic(auto, unfolding(crate::specs::ReportResolving::entry_told))]
fn entry_told(catalogue: &Catalogue, e: RawEntry<'_>) -> Result<Entry, ReadFault>
    ensures value { Gives (λ x. x) result (entry_told catalogue.now (view_entry e.entry)) }
    ensures kind { IfErr result (λ e. (e ≡ Name) ⊎ (e ≡ Limit)) }
{
    let number = count_in(e.number)?;
    let task = task_id(catalogue, e.task)?;
    let tx = tx_id(catalogue, e.name)?;
    let outcome = outcome_told(catalogue, e.ending)?;
    Ok(Entry {
        number,
        task,
        tx,
        outcome,
    })
}

fn entries_told(
    alloc: Global,
    catalogue: &Catalogue,
    entries: &[RawEntry<'_>],
) -> Result<Vec<Entry>, ReadFault>
    ensures { Gives (λ x. x.items) result (each (entry_told catalogue.now) (view_entries entries.now)) }
{
    let mut made = Vec::with_capacity(alloc, entries.len())?;
    'entries: for e in entries {
        made.push(entry_told(catalogue, *e)?)?;
    }
    Ok(made)
}

#[tactic(auto, unfolding(crate::specs::ReportResolving::task_told))]
fn task_told(catalogue: &Catalogue, t: RawTask<'_>) -> Result<(TaskId, TxId), ReadFault>
    ensures value { Gives (λ x. x) result (task_told catalogue.now (view_task t.entry)) }
    ensures kind { IfErr result (λ e. (e ≡ Name) ⊎ (e ≡ Limit)) }
{
    let task = task_id(catalogue, t.task)?;
    let tx = tx_id(catalogue, t.name)?;
    Ok((task, tx))
}

fn tasks_told(
    alloc: Global,
    catalogue: &Catalogue,
    tasks: &[RawTask<'_>],
) -> Result<Vec<(TaskId, TxId)>, ReadFault>
    ensures { Gives (λ x. x.items) result (each (task_told catalogue.now) (view_tasks tasks.now)) }
{
    let mut made = Vec::with_capacity(alloc, tasks.len())?;
    'tasks: for t in tasks {
        made.push(task_told(catalogue, *t)?)?;
    }
    Ok(made)
}

/// What a report tells, whose names are known.
#[tactic(auto, unfolding(crate::specs::ReportResolving::told_of))]
fn told_of(
    alloc: Global,
    catalogue: &Catalogue,
    tables: &[Span],
    report: &RawReport<'_>,
) -> Result<Report, ReadFault>
    requires { tables.now ≡ spans catalogue.now }
    ensures value { Gives told result (told_of catalogue.now (view_raw report.entry.now)) }
    ensures fit { OnOk result (All (FitsSigned w64) (drop (length catalogue.now.names) catalogue.now.initial)) }
{
    let values = catalogue.initial().len();
    let base = count_in(report.base)?;
    let base_vars = variables_told(alloc, values, &report.base_vars)?;
    let base_cells = cells_told(alloc, catalogue, tables, &report.base_cells)?;
    let entries = entries_told(alloc, catalogue, &report.entries)?;
    let now = count_in(report.now)?;
    let now_vars = variables_told(alloc, values, &report.now_vars)?;
    let now_cells = cells_told(alloc, catalogue, tables, &report.now_cells)?;
    let parked = tasks_told(alloc, catalogue, &report.parked)?;
    let memory = tasks_told(alloc, catalogue, &report.memory)?;
    let base_vars = values_told(catalogue, base_vars, &base_cells)?;
    let now_vars = values_told(catalogue, now_vars, &now_cells)?;
    Ok(Report {
        base,
        base_vars,
        entries,
        now,
        now_vars,
        parked,
        memory,
    })
}

/// What a report tells: its names are judged first, and then its numbers.
#[tactic(auto, unfolding(crate::specs::ReportResolving::resolved))]
pub(crate) fn resolved(
    alloc: Global,
    catalogue: &Catalogue,
    report: &RawReport<'_>,
) -> Result<Report, ReadFault>
    requires base { length report.now.base_vars.items ≡ length catalogue.now.names }
    requires current { length report.now.now_vars.items ≡ length catalogue.now.names }
    ensures value { Gives told result (resolved catalogue.now (view_raw report.entry.now)) }
    ensures fit { OnOk result (All (FitsSigned w64) (drop (length catalogue.now.names) catalogue.now.initial)) }
{
    let tables = spans_of(alloc, catalogue)?;
    if names_known(catalogue, &tables, report) {
        told_of(alloc, catalogue, &tables, report)
    } else {
        Err(ReadFault::Name)
    }
}
