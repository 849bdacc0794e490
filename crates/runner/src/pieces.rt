//! A report on its way to a sink, a piece at a time.
//!
//! Its lines gather in a text whose room is taken before the first byte goes out, and which goes out
//! whenever less than half of that room is left. So running out of memory writes nothing, and a long report
//! takes no more memory on its way than a short one.

ghost use Rattle.std.specs.Prelude.{◌≡◌, ◌≤◌, ◌<◌, ◌+◌, ◌*◌, [], ◌∷◌, ◌++◌, All, codes, length, string_bytes};
ghost use Rattle.std.specs.Prelude.{string_capacity, string_len, true, IfErr, IsOk, OnOk, OnErr};
ghost use Rattle.std.specs.Fmt.{decimal};
ghost use Rattle.std.specs.Io.KnownBytes.{Appends, Keeps};
ghost use Rattle.std.specs.List.{flat_map};
ghost use Rattle.txn_programs.specs.declared.limits.TheConstants.{MAX_CELLS, MAX_NAME};
ghost use Rattle.txn_programs.specs.LawfulReport.{FitsCatalogue};
ghost use Rattle.txn_programs.specs.Listing.{cells, values};
ghost use Rattle.book_storage.specs.PackedEntries.{told_run};
ghost use Rattle.text_words.specs.Words.{line};
ghost use Rattle.text_report_printer.specs.declared.report.TheConstants.{LONGEST};
ghost use Rattle.text_report_printer.specs.ReportFits.{OutcomesFit, ReportFits};
ghost use Rattle.text_report_printer.specs.ReportText.{cell_lines, table_lines, value_lines, entry_line};
ghost use Rattle.text_report_printer.specs.ReportText.{task_line, report_text};
ghost use Rattle.run_interface.specs.Counts.{FewFailed};
ghost use Rattle.run_interface.specs.Failures.{output_failures};
ghost use Rattle.runner.specs.Pieces.{Gathers, Breaks};
ghost use Rattle.runner.specs.Running.{Wrote};

use book_storage::{PackedEntry, RunReport};
use run_interface::{RunFault, Sink, SinkFault, put_all, put_bytes};
use std::alloc::{AllocError, Global};
use text_report_printer::{
    LONGEST, put_cells, put_entry, put_number, put_tasks, put_variables, value_fits, values_fit,
};
use txn::limits::MAX_VARIABLES;
use txn::{Catalogue, TaskId, TxId};

/// How many lines are put at once, at most: there are no more variables.
const AT_ONCE: usize = MAX_VARIABLES;

/// The room that so many lines want.
const HALF: usize = AT_ONCE * LONGEST;

/// The room of the text: a line, and twice what is put at once.
const TEXT_ROOM: usize = LONGEST + 2 * HALF;

/// Lets the text go out where not half of its room is left.
fn make_room<S: Sink>(sink: &mut S, text: &mut String) -> Result<(), SinkFault>
    requires failed { FewFailed (S.failed sink.old) }
    ensures gathers { OnOk result
        (Gathers (S.bytes sink.old) (string_bytes text.old) (S.bytes sink.new) (string_bytes text.new) []) }
    ensures none_failed { OnOk result (S.failed sink.new ≡ S.failed sink.old) }
    ensures breaks { OnErr result (Breaks (S.bytes sink.old) (string_bytes text.old) (S.bytes sink.new) []) }
    ensures one_failed { OnErr result (S.failed sink.new ≡ S.failed sink.old + 1) }
    ensures room { OnOk result (string_len text.new ≤ HALF) }
    ensures capacity { string_capacity text.old ≤ string_capacity text.new }
{
    if text.len() > HALF {
        put_bytes(sink, text.as_bytes())?;
        text.clear();
    }
    Ok(())
}

/// Puts a line for each cell of a table that an entry wrote.
fn put_table<S: Sink>(
    sink: &mut S,
    text: &mut String,
    table: &str,
    cells: &[(i64, u64)],
) -> Result<(), SinkFault>
    requires failed { FewFailed (S.failed sink.old) }
    requires room { TEXT_ROOM ≤ string_capacity text.old }
    requires short { length table.now ≤ MAX_NAME }
    requires few { length cells.now ≤ MAX_CELLS }
    ensures gathers { OnOk result
        (Gathers (S.bytes sink.old) (string_bytes text.old) (S.bytes sink.new) (string_bytes text.new)
        (cell_lines table.now 0 cells.now)) }
    ensures none_failed { OnOk result (S.failed sink.new ≡ S.failed sink.old) }
    ensures breaks { OnErr result
        (Breaks (S.bytes sink.old) (string_bytes text.old) (S.bytes sink.new) (cell_lines table.now 0 cells.now)) }
    ensures one_failed { OnErr result (S.failed sink.new ≡ S.failed sink.old + 1) }
    ensures capacity { string_capacity text.old ≤ string_capacity text.new }
{
    let mut first: usize = 0;
    let mut rest = cells;
    while !rest.is_empty() {
        make_room(sink, text)?;
        let count = rest.len().min(AT_ONCE);
        let Ok(()) = put_cells(text, table, first, &rest[..count]) else {
            unreachable!()
        };
        first += count;
        rest = &rest[count..];
    }
    Ok(())
}

/// Puts a line for each cell that an entry wrote, table after table.
fn put_tables<S: Sink>(
    sink: &mut S,
    text: &mut String,
    catalogue: &Catalogue,
    vars: &[(i64, u64)],
) -> Result<(), SinkFault>
    requires failed { FewFailed (S.failed sink.old) }
    requires room { TEXT_ROOM ≤ string_capacity text.old }
    requires each { length vars.now ≡ cells catalogue.now }
    ensures gathers { OnOk result
        (Gathers (S.bytes sink.old) (string_bytes text.old) (S.bytes sink.new) (string_bytes text.new)
        (table_lines catalogue.now.tables vars.now)) }
    ensures none_failed { OnOk result (S.failed sink.new ≡ S.failed sink.old) }
    ensures breaks { OnErr result
        (Breaks (S.bytes sink.old) (string_bytes text.old) (S.bytes sink.new)
        (table_lines catalogue.now.tables vars.now)) }
    ensures one_failed { OnErr result (S.failed sink.new ≡ S.failed sink.old + 1) }
    ensures capacity { string_capacity text.old ≤ string_capacity text.new }
{
    catalogue.rules();
    let tables = catalogue.tables();
    let mut rest = vars;
    for (name, count) in tables {
        let (cells, more) = rest.split_at(*count as usize);
        put_table(sink, text, name.as_str(), cells)?;
        rest = more;
    }
    Ok(())
}

/// Puts the line of a word and a number, a line for each variable, and one for each cell that an entry
/// wrote.
fn put_values<S: Sink>(
    sink: &mut S,
    text: &mut String,
    catalogue: &Catalogue,
    word: &str,
    number: u64,
    vars: &[(i64, u64)],
) -> Result<(), SinkFault>
    requires failed { FewFailed (S.failed sink.old) }
    requires room { TEXT_ROOM ≤ string_capacity text.old }
    requires short { length word.now ≤ MAX_NAME }
    requires each { length vars.now ≡ values catalogue.now }
    ensures gathers { OnOk result
        (Gathers (S.bytes sink.old) (string_bytes text.old) (S.bytes sink.new) (string_bytes text.new)
        (line (word.now ∷ decimal number ∷ []) ++ value_lines catalogue.now vars.now)) }
    ensures none_failed { OnOk result (S.failed sink.new ≡ S.failed sink.old) }
    ensures breaks { OnErr result
        (Breaks (S.bytes sink.old) (string_bytes text.old) (S.bytes sink.new)
        (line (word.now ∷ decimal number ∷ []) ++ value_lines catalogue.now vars.now)) }
    ensures one_failed { OnErr result (S.failed sink.new ≡ S.failed sink.old + 1) }
    ensures capacity { string_capacity text.old ≤ string_capacity text.new }
{
    make_room(sink, text)?;
    let Ok(()) = put_number(text, word, number) else {
        unreachable!()
    };
    let (variables, cells) = vars.split_at(catalogue.var_count());
    let Ok(()) = put_variables(text, catalogue, variables) else {
        unreachable!()
    };
    put_tables(sink, text, catalogue, cells)
}

/// Puts a line for each of so few lines that the text has room for them.
fn put_lines(
    text: &mut String,
    catalogue: &Catalogue,
    lines: &[PackedEntry],
) -> Result<(), AllocError>
    requires { All (λ e. e.tx.0 < length catalogue.now.transactions) lines.now }
    ensures text { OnOk result
        (string_bytes text.new ≡ string_bytes text.old ++ flat_map (entry_line catalogue.now) lines.now) }
    ensures room { string_len text.old + LONGEST * length lines.now ≤ string_capacity text.old → IsOk result }
    ensures capacity { string_capacity text.old ≤ string_capacity text.new }
{
    'lines: for line in lines {
        put_entry(text, catalogue, &line.entry())?;
    }
    Ok(())
}

/// Puts a line for each line of the journal.
fn put_journal<S: Sink>(
    sink: &mut S,
    text: &mut String,
    catalogue: &Catalogue,
    lines: &[PackedEntry],
) -> Result<(), SinkFault>
    requires failed { FewFailed (S.failed sink.old) }
    requires room { TEXT_ROOM ≤ string_capacity text.old }
    requires known { All (λ e. e.tx.0 < length catalogue.now.transactions) lines.now }
    ensures gathers { OnOk result
        (Gathers (S.bytes sink.old) (string_bytes text.old) (S.bytes sink.new) (string_bytes text.new)
        (flat_map (entry_line catalogue.now) lines.now)) }
    ensures none_failed { OnOk result (S.failed sink.new ≡ S.failed sink.old) }
    ensures breaks { OnErr result
        (Breaks (S.bytes sink.old) (string_bytes text.old) (S.bytes sink.new)
        (flat_map (entry_line catalogue.now) lines.now)) }
    ensures one_failed { OnErr result (S.failed sink.new ≡ S.failed sink.old + 1) }
    ensures capacity { string_capacity text.old ≤ string_capacity text.new }
{
    let mut rest = lines;
    while !rest.is_empty() {
        make_room(sink, text)?;
        let count = rest.len().min(AT_ONCE);
        let Ok(()) = put_lines(text, catalogue, &rest[..count]) else {
            unreachable!()
        };
        rest = &rest[count..];
    }
    Ok(())
}

/// Puts a line for each of these tasks.
fn put_all_tasks<S: Sink>(
    sink: &mut S,
    text: &mut String,
    catalogue: &Catalogue,
    kind: &str,
    tasks: &[(TaskId, TxId)],
) -> Result<(), SinkFault>
    requires failed { FewFailed (S.failed sink.old) }
    requires room { TEXT_ROOM ≤ string_capacity text.old }
    requires short { length kind.now ≤ MAX_NAME }
    requires known { All (λ p. p.1.0 < length catalogue.now.transactions) tasks.now }
    ensures gathers { OnOk result
        (Gathers (S.bytes sink.old) (string_bytes text.old) (S.bytes sink.new) (string_bytes text.new)
        (flat_map (task_line catalogue.now kind.now) tasks.now)) }
    ensures none_failed { OnOk result (S.failed sink.new ≡ S.failed sink.old) }
    ensures breaks { OnErr result
        (Breaks (S.bytes sink.old) (string_bytes text.old) (S.bytes sink.new)
        (flat_map (task_line catalogue.now kind.now) tasks.now)) }
    ensures one_failed { OnErr result (S.failed sink.new ≡ S.failed sink.old + 1) }
    ensures capacity { string_capacity text.old ≤ string_capacity text.new }
{
    let mut rest = tasks;
    while !rest.is_empty() {
        make_room(sink, text)?;
        let count = rest.len().min(AT_ONCE);
        let Ok(()) = put_tasks(text, catalogue, kind, &rest[..count]) else {
            unreachable!()
        };
        rest = &rest[count..];
    }
    Ok(())
}

/// Puts the last line, and sends it all on.
fn put_end<S: Sink>(sink: &mut S, text: &mut String) -> Result<(), SinkFault>
    requires failed { FewFailed (S.failed sink.old) }
    requires room { TEXT_ROOM ≤ string_capacity text.old }
    ensures gathers { OnOk result
        (Gathers (S.bytes sink.old) (string_bytes text.old) (S.bytes sink.new) [] (line (codes "end" ∷ []))) }
    ensures flushed { OnOk result (S.flushed sink.new ≡ true) }
    ensures none_failed { OnOk result (S.failed sink.new ≡ S.failed sink.old) }
    ensures breaks { OnErr result
        (Breaks (S.bytes sink.old) (string_bytes text.old) (S.bytes sink.new) (line (codes "end" ∷ []))) }
    ensures one_failed { OnErr result (S.failed sink.new ≡ S.failed sink.old + 1) }
{
    make_room(sink, text)?;
    let Ok(()) = text.push_str("end\n") else {
        unreachable!()
    };
    put_all(sink, text.as_bytes())
}

/// Puts all lines of a report.
fn put_report<S: Sink>(
    sink: &mut S,
    text: &mut String,
    catalogue: &Catalogue,
    report: &RunReport,
) -> Result<(), SinkFault>
    requires failed { FewFailed (S.failed sink.old) }
    requires room { TEXT_ROOM ≤ string_capacity text.old }
    requires fits { FitsCatalogue catalogue.now (told_run report.now) }
    ensures gathers { OnOk result
        (Gathers (S.bytes sink.old) (string_bytes text.old) (S.bytes sink.new) []
        (report_text catalogue.now (told_run report.entry.now))) }
    ensures flushed { OnOk result (S.flushed sink.new ≡ true) }
    ensures none_failed { OnOk result (S.failed sink.new ≡ S.failed sink.old) }
    ensures breaks { OnErr result
        (Breaks (S.bytes sink.old) (string_bytes text.old) (S.bytes sink.new)
        (report_text catalogue.now (told_run report.entry.now))) }
    ensures one_failed { OnErr result (S.failed sink.new ≡ S.failed sink.old + 1) }
{
    catalogue.rules();
    let rest = &report.rest;
    put_values(sink, text, catalogue, "base", rest.base, &rest.base_vars)?;
    put_journal(sink, text, catalogue, &report.journal)?;
    put_values(sink, text, catalogue, "now", rest.now, &rest.now_vars)?;
    put_all_tasks(sink, text, catalogue, "parked", &rest.parked)?;
    put_all_tasks(sink, text, catalogue, "memory", &rest.memory)?;
    put_end(sink, text)
}

/// Writes the text of a report, and sends it on. `Memory`: a growth was refused, and nothing was
/// written. `Output`: a call of the sink failed, the only one, and a beginning was written.
pub(crate) fn write_report<S: Sink>(
    alloc: Global,
    catalogue: &Catalogue,
    report: &RunReport,
    sink: &mut S,
) -> Result<(), RunFault>
    requires failed { FewFailed (S.failed sink.old) }
    requires fits { FitsCatalogue catalogue.now (told_run report.now) }
    ensures wrote { Wrote (report_text catalogue.now (told_run report.entry.now)) (S.bytes sink.old)
        (S.bytes sink.new) result }
    ensures flushed { OnOk result (S.flushed sink.new ≡ true) }
    ensures failures { S.failed sink.new ≡ S.failed sink.old + output_failures result }
{
    let Ok(mut text) = String::with_capacity(alloc, TEXT_ROOM) else {
        return Err(RunFault::Memory);
    };
    match put_report(sink, &mut text, catalogue, report) {
        Ok(()) => Ok(()),
        Err(_) => return Err(RunFault::Output),
    }
}

fn lines_fit(lines: &[PackedEntry])
    ensures { OutcomesFit lines.now }
{
    'lines: for line in lines {
        value_fits(&line.entry());
    }
}

/// Each value that the report of a run tells is one of 64 signed bits. It does nothing: its contract is the
/// law.
pub(crate) fn run_values_fit(report: &RunReport)
    ensures { ReportFits (told_run report.entry.now) }
{
    lines_fit(&report.journal);
    values_fit(&report.rest);
}
