//! The text of a report.

ghost use Rattle.std.specs.Prelude.{◌≡◌, ◌<◌, ◌≤◌, ◌+◌, ◌*◌, [], ◌∷◌, ◌++◌, All, FitsSigned, IfOk, IsOk, OnOk, codes};
ghost use Rattle.std.specs.Prelude.{length, string_bytes, string_capacity, string_len};
ghost use Rattle.std.specs.Fmt.{decimal};
ghost use Rattle.std.specs.Int.{w64};
ghost use Rattle.std.specs.List.{flat_map};
ghost use Rattle.txn_programs.specs.declared.limits.TheConstants.{MAX_NAME, MAX_VARIABLES};
ghost use Rattle.txn_programs.specs.LawfulReport.{FitsCatalogue};
ghost use Rattle.txn_programs.specs.Listing.{cells};
ghost use Rattle.txn_programs.specs.Told.{told};
ghost use Rattle.text_words.specs.Words.{line};
ghost use Rattle.text_report_printer.specs.ReportText.{variable_line, variable_lines, outcome_text, entry_line};
ghost use Rattle.text_report_printer.specs.ReportText.{task_line, report_text, CountsTasks};
ghost use Rattle.text_report_printer.specs.ReportFits.{OutcomeFits, OutcomesFit, ReportFits, ValuesFit};
ghost use Rattle.text_report_printer.specs.declared.report.TheConstants.{LONGEST};

use crate::cells::put_values;
use crate::line::LineEnd;
use crate::names::{transaction_name, variable_name};
use std::alloc::{AllocError, Global};
use txn::{Catalogue, Entry, Fault, Memory, Outcome, Report, TaskId, TxId};

/// About as many bytes as a line has.
const LINE: usize = 40;

/// No line is longer: so many bytes of room are enough for each.
pub const LONGEST: usize = 128;

/// The text of a report of a catalogue, which fits it: the line `base`, a line for each variable
/// in declared order, a line for each cell that an entry wrote, the entries, the line `now`, the
/// lines of variables and cells again, the parked tasks, the tasks given up as memory ran out, and
/// the line `end`. Each line ends with a newline, and one space stands between two words. `Err`
/// means that memory was refused.
pub fn print_report(alloc: Global, catalogue: &Catalogue, report: &Report) -> Result<String, Memory>
    requires { FitsCatalogue catalogue.now (told report.now) }
    ensures text { IfOk result (λ s. string_bytes s ≡ report_text catalogue.now (told report.entry.now)) }
    ensures at_most { CountsTasks (told report.entry.now) → IfOk result (λ s. length (string_bytes s)
        ≤ 8388608 + 160 * cells catalogue.now) }
    ensures fits { OnOk result (ReportFits (told report.entry.now)) }
{
    catalogue.rules();
    let mut out = String::with_capacity(alloc, room(catalogue, report))?;
    put_report(&mut out, catalogue, report)?;
    values_fit(report);
    Ok(out)
}

fn put_report(out: &mut String, catalogue: &Catalogue, report: &Report) -> Result<(), AllocError>
    requires { FitsCatalogue catalogue.now (told report.now) }
    ensures { OnOk result
        (string_bytes out.new ≡ string_bytes out.old ++ report_text catalogue.now (told report.entry.now)) }
{
    catalogue.rules();
    put_number(out, "base", report.base)?;
    put_values(out, catalogue, &report.base_vars)?;
    put_entries(out, catalogue, &report.entries)?;
    put_number(out, "now", report.now)?;
    put_values(out, catalogue, &report.now_vars)?;
    put_tasks(out, catalogue, "parked", &report.parked)?;
    put_tasks(out, catalogue, "memory", &report.memory)?;
    out.push_str("end\n")?;
    Ok(())
}

/// How many of these an entry wrote.
fn written(vars: &[(i64, u64)]) -> usize {
    let mut count: usize = 0;
    for (_, version) in vars {
        if *version != 0 {
            count = count.saturating_add(1);
        }
    }
    count
}

/// About as many bytes as the text has.
fn room(catalogue: &Catalogue, report: &Report) -> usize {
    let lines = report
        .entries
        .len()
        .saturating_add(report.parked.len())
        .saturating_add(report.memory.len())
        .saturating_add(written(&report.base_vars))
        .saturating_add(written(&report.now_vars))
        .saturating_add(2 * catalogue.var_count());
    lines.saturating_add(3).saturating_mul(LINE)
}

/// Puts the line of a word and a number behind the text.
pub fn put_number(out: &mut String, word: &str, number: u64) -> Result<(), AllocError>
    ensures text { OnOk result (string_bytes out.new ≡ string_bytes out.old ++ line (word.now ∷ decimal number ∷ [])) }
    ensures room { string_len out.old + (length word.now + 22) ≤ string_capacity out.old → IsOk result }
    ensures len { OnOk result (string_len out.new ≤ string_len out.old + (length word.now + 22)) }
    ensures capacity { string_capacity out.old ≤ string_capacity out.new }
{
    let mut rest = LineEnd::new();
    rest.byte(b'\n');
    rest.number(number);
    rest.byte(b' ');
    out.push_str(word)?;
    out.push_str(rest.text())
}

fn put_variable(out: &mut String, name: &str, variable: &(i64, u64)) -> Result<(), AllocError>
    requires { length name.now ≤ MAX_NAME }
    ensures text { OnOk result (string_bytes out.new ≡ string_bytes out.old ++ variable_line name.now variable.now) }
    ensures fits { FitsSigned w64 variable.now.0 }
    ensures room { string_len out.old + LONGEST ≤ string_capacity out.old → IsOk result }
    ensures len { OnOk result (string_len out.new ≤ string_len out.old + LONGEST) }
    ensures capacity { string_capacity out.old ≤ string_capacity out.new }
{
    let (value, version) = *variable;
    let mut line = LineEnd::new();
    line.byte(b'\n');
    line.number(version);
    line.byte(b' ');
    line.signed(value);
    line.byte(b' ');
    line.word(name);
    out.push_str(line.text())
}

/// Puts a line for each variable behind the text, in declared order: its name, its value and its
/// version. With room for so many lines it takes no memory.
pub fn put_variables(
    out: &mut String,
    catalogue: &Catalogue,
    vars: &[(i64, u64)],
) -> Result<(), AllocError>
    requires few { length vars.now ≤ MAX_VARIABLES }
    requires named { length vars.now ≡ length catalogue.now.names }
    ensures text { OnOk result
        (string_bytes out.new ≡ string_bytes out.old ++ variable_lines catalogue.now.names vars.now) }
    ensures fits { OnOk result (ValuesFit vars.now) }
    ensures room { string_len out.old + LONGEST * length vars.now ≤ string_capacity out.old → IsOk result }
    ensures len { OnOk result (string_len out.new ≤ string_len out.old + LONGEST * length vars.now) }
    ensures capacity { string_capacity out.old ≤ string_capacity out.new }
{
    'vars: for (i, variable) in vars.iter().enumerate() {
        put_variable(out, variable_name(catalogue, i), variable)?;
    }
    Ok(())
}

/// Puts how a transaction ended behind the text: a standing condition that it broke is told by its
/// name, and by nothing where the catalogue has no such condition.
pub fn put_outcome(
    out: &mut String,
    catalogue: &Catalogue,
    outcome: Outcome,
) -> Result<(), AllocError>
    ensures text { OnOk result (string_bytes out.new ≡ string_bytes out.old ++ outcome_text catalogue.now outcome) }
    ensures fits { OnOk result (OutcomeFits outcome) }
{
    let mut end = LineEnd::new();
    end.outcome(catalogue, outcome);
    out.push_str(end.text())
}

/// Puts the line of an entry behind the text. With room for one line it takes no memory.
#[inline(always)]
pub fn put_entry(out: &mut String, catalogue: &Catalogue, entry: &Entry) -> Result<(), AllocError>
    requires { entry.now.tx.0 < length catalogue.now.transactions }
    ensures text { OnOk result (string_bytes out.new ≡ string_bytes out.old ++ entry_line catalogue.now entry.now) }
    ensures fits { OnOk result (OutcomeFits entry.now.outcome) }
    ensures room { string_len out.old + LONGEST ≤ string_capacity out.old → IsOk result }
    ensures len { OnOk result (string_len out.new ≤ string_len out.old + LONGEST) }
    ensures capacity { string_capacity out.old ≤ string_capacity out.new }
{
    let mut line = LineEnd::new();
    line.byte(b'\n');
    line.outcome(catalogue, entry.outcome);
    line.byte(b' ');
    line.word(transaction_name(catalogue, entry.tx.0 as usize));
    line.byte(b' ');
    line.number(u64::from(entry.task.0));
    line.byte(b' ');
    line.number(entry.number);
    line.word("entry ");
    out.push_str(line.text())
}

/// Puts a line for each entry behind the text. With room for so many lines it takes no memory.
pub fn put_entries(
    out: &mut String,
    catalogue: &Catalogue,
    entries: &[Entry],
) -> Result<(), AllocError>
    requires { All (λ e. e.tx.0 < length catalogue.now.transactions) entries.now }
    ensures text { OnOk result
        (string_bytes out.new ≡ string_bytes out.old ++ flat_map (entry_line catalogue.now) entries.now) }
    ensures fits { OnOk result (OutcomesFit entries.now) }
    ensures room { string_len out.old + LONGEST * length entries.now ≤ string_capacity out.old → IsOk result }
    ensures len { OnOk result (string_len out.new ≤ string_len out.old + LONGEST * length entries.now) }
    ensures capacity { string_capacity out.old ≤ string_capacity out.new }
{
    'entries: for entry in entries {
        put_entry(out, catalogue, entry)?;
    }
    Ok(())
}

fn put_task(
    out: &mut String,
    catalogue: &Catalogue,
    kind: &str,
    task: TaskId,
    tx: TxId,
) -> Result<(), AllocError>
    requires known { tx.0 < length catalogue.now.transactions }
    requires short { length kind.now ≤ MAX_NAME }
    ensures text { OnOk result
        (string_bytes out.new ≡ string_bytes out.old ++ task_line catalogue.now kind.now (task, tx)) }
    ensures room { string_len out.old + LONGEST ≤ string_capacity out.old → IsOk result }
    ensures len { OnOk result (string_len out.new ≤ string_len out.old + LONGEST) }
    ensures capacity { string_capacity out.old ≤ string_capacity out.new }
{
    let mut line = LineEnd::new();
    line.byte(b'\n');
    line.word(transaction_name(catalogue, tx.0 as usize));
    line.byte(b' ');
    line.number(u64::from(task.0));
    line.byte(b' ');
    line.word(kind);
    out.push_str(line.text())
}

/// Puts a line for each of these tasks behind the text: what they are, a word of at most 32 bytes,
/// the task and its transaction. With room for so many lines it takes no memory.
pub fn put_tasks(
    out: &mut String,
    catalogue: &Catalogue,
    kind: &str,
    tasks: &[(TaskId, TxId)],
) -> Result<(), AllocError>
    requires known { All (λ p. p.1.0 < length catalogue.now.transactions) tasks.now }
    requires short { length kind.now ≤ MAX_NAME }
    ensures text { OnOk result
        (string_bytes out.new ≡ string_bytes out.old ++ flat_map (task_line catalogue.now kind.now) tasks.now) }
    ensures room { string_len out.old + LONGEST * length tasks.now ≤ string_capacity out.old → IsOk result }
    ensures len { OnOk result (string_len out.new ≤ string_len out.old + LONGEST * length tasks.now) }
    ensures capacity { string_capacity out.old ≤ string_capacity out.new }
{
    'tasks: for (task, tx) in tasks {
        put_task(out, catalogue, kind, *task, *tx)?;
    }
    Ok(())
}

fn see_variable(variable: &(i64, u64))
    ensures { FitsSigned w64 variable.now.0 }
{
    let (_value, _version) = *variable;
}

fn see_variables(vars: &[(i64, u64)])
    ensures { ValuesFit vars.now }
{
    'vars: for variable in vars {
        see_variable(variable);
    }
}

/// The value that an entry tells is one of 64 signed bits. It does nothing: its contract is the law.
pub fn value_fits(entry: &Entry)
    ensures { OutcomeFits entry.now.outcome }
{
    match entry.outcome {
        Outcome::Returned(_value) => {}
        Outcome::Thrown(Fault::User(_value)) => {}
        Outcome::Thrown(_) => {}
        Outcome::Retries => {}
    }
}

fn see_entries(entries: &[Entry])
    ensures { OutcomesFit entries.now }
{
    'entries: for entry in entries {
        value_fits(entry);
    }
}

/// Each value that a report tells is one of 64 signed bits. It does nothing: its contract is the law.
pub fn values_fit(report: &Report)
    ensures { ReportFits (told report.entry.now) }
{
    see_variables(&report.base_vars);
    see_entries(&report.entries);
    see_variables(&report.now_vars);
}
