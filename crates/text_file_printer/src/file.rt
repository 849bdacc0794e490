//! The canonical text of a catalogue.

ghost use Rattle.std.specs.Prelude.{◌≡◌, ◌<◌, ◌≤◌, ◌++◌, FitsSigned, IfOk, List, OnOk, codes, drop, length, map, pos};
ghost use Rattle.std.specs.Prelude.{string_bytes, ℕ};
ghost use Rattle.std.specs.Int.{w64};
ghost use Rattle.std.specs.List.{AllByRecursion, flat_map, list_all};
ghost use Rattle.std.specs.Ordering.{int_eq};
ghost use Rattle.txn_programs.specs.Tree.{condition_of, transaction_of};
ghost use Rattle.txn_declarations.specs.Conditions.{standing_of};
ghost use Rattle.text_grammar.specs.Scope.{inside};
ghost use Rattle.text_grammar.specs.Written.{form_for, written_vars, written_always, written_transaction, written_run};
ghost use Rattle.text_grammar.specs.Written.{scope_of, written_in, written_table, written_tables, written};
ghost use Rattle.text_grammar.specs.Spelling.{Spells};
ghost use Rattle.text_grammar.specs.Tree.{file_tokens, longest};
ghost use Rattle.text_file_printer.specs.Canonical.{spaced, heading_text, pair_line, numbers_told, table_line};
ghost use Rattle.text_file_printer.specs.Canonical.{always_line, names_text, list_text, tx_line, spaced_integer};
ghost use Rattle.text_file_printer.specs.Canonical.{run_line, text_in, is_short_enough, form_told, file_text};
ghost use Rattle.text_file_printer.specs.Layout.{laid_out};
ghost use Rattle.text_file_printer.specs.Named.{ExpressionNamed, ConditionNamed, StatementNamed};
ghost use Rattle.text_file_printer.specs.Fits.{PairFits, TableFits, AlwaysFits, DeclarationFits, RunFits, FileFits};

use crate::forms::{Scope, put_last_condition, put_last_expression, put_part};
use std::alloc::{AllocError, Global};
use std::fmt::Write;
use text_grammar::file::{FileForm, longest_file};
use txn::{Call, Catalogue, Cond, Memory, Tx, TxId, VarId};

/// The canonical text of a catalogue: one form a line, each line ended by a newline, the variables first, then the
/// tables, then the standing conditions, then the transactions, then the runs. Where there is a table or a transaction
/// has parameters, the line `(stm 3)` stands before all others and each transaction has its list of parameters, else
/// where there are conditions, the line `(stm 2)`. Where this text would be longer than a file of its form may be, the
/// form is 3 nevertheless, which may be longer, and each list of parameters is empty. A table has one number where all
/// its cells begin at the same, else one for each cell. One space stands between two tokens, none after `(` and none
/// before `)`. `Err` means that memory was refused.
pub fn print_file(alloc: Global, catalogue: &Catalogue) -> Result<String, Memory>
    ensures text { IfOk result (λ s. string_bytes s ≡ file_text catalogue.now) }
    // The same, said of the tokens alone.
    ensures layout { IfOk result (λ s. string_bytes s
        ≡ laid_out (file_tokens (written (form_told catalogue.now) catalogue.now))) }
    ensures again { IfOk result
        (λ s. length (string_bytes s) ≤ longest (string_bytes s) → Spells (string_bytes s) catalogue.now) }
{
    catalogue.rules();
    let form = form_of(catalogue);
    let mut out = String::new(alloc);
    put_file(&mut out, catalogue, form)?;
    if is_short_enough(out.as_str()) {
        return Ok(out);
    }
    out.clear();
    put_file(&mut out, catalogue, FileForm::Three)?;
    Ok(out)
}

/// Whether the text is no longer than a file that begins so may be.
fn is_short_enough(text: &str) -> bool
    ensures { result ≡ is_short_enough text.now }
{
    text.len() <= longest_file(text.as_bytes())
}

/// The text in this form.
#[tactic(auto, unfolding(text_grammar::specs::Written::written_in))]
fn put_file(out: &mut String, catalogue: &Catalogue, form: FileForm) -> Result<(), AllocError>
    ensures text { OnOk result (string_bytes out.new ≡ string_bytes out.old ++ text_in form catalogue.now) }
    ensures fits { OnOk result (FileFits (written form catalogue.now)) }
{
    put_heading(out, form)?;
    put_vars(out, catalogue)?;
    put_tables(out, catalogue)?;
    put_conditions(out, catalogue)?;
    put_txs(out, catalogue, form)?;
    put_runs(out, catalogue)
}

/// The first form that has room for the tables, the conditions and the parameters.
fn form_of(catalogue: &Catalogue) -> FileForm
    ensures { result ≡ form_for catalogue.now }
{
    let (tables, parameters) = (catalogue.tables().len(), catalogue.most_parameters());
    if tables > 0 || parameters > 0 {
        FileForm::Three
    } else if catalogue.always().is_empty() {
        FileForm::One
    } else {
        FileForm::Two
    }
}

/// The form, which form 1 does not tell.
fn put_heading(out: &mut String, form: FileForm) -> Result<(), AllocError>
    ensures { OnOk result (string_bytes out.new ≡ string_bytes out.old ++ heading_text form) }
{
    match form {
        FileForm::One => Ok(()),
        FileForm::Two => out.push_str("(stm 2)\n"),
        FileForm::Three => out.push_str("(stm 3)\n"),
    }
}

fn put_var(out: &mut String, name: &str, value: &i64) -> Result<(), AllocError>
    ensures text { OnOk result (string_bytes out.new
        ≡ string_bytes out.old ++ pair_line (codes "var") (record { name = name.now; value = value.now })) }
    ensures fits { FitsSigned w64 value.now }
{
    let value = *value;
    writeln!(out, "(var {name} {value})")
}

fn put_vars(out: &mut String, catalogue: &Catalogue) -> Result<(), AllocError>
    ensures text { OnOk result (string_bytes out.new
        ≡ string_bytes out.old
        ++ flat_map (pair_line (codes "var")) (written_vars catalogue.now.names catalogue.now.initial)) }
    ensures fits { OnOk result (AllByRecursion PairFits (written_vars catalogue.now.names catalogue.now.initial)) }
{
    catalogue.rules();
    let values = catalogue.initial();
    'vars: for i in 0..catalogue.var_count() {
        put_var(out, catalogue.var_name(VarId(i as u32)), &values[i])?;
    }
    Ok(())
}

/// Whether each of the numbers is this one.
fn are_all(numbers: &[i64], n: &i64) -> bool
    ensures { result ≡ list_all (int_eq n.now) numbers.now }
{
    numbers.iter().all(|m| *n == *m)
}

/// The numbers that are written of a table whose cells begin at these values: the first alone where all are the same.
fn told(values: &[i64]) -> &[i64]
    requires { 0 < length values.now }
    ensures { (t : List ℕ × ℕ) → result.now ≡ numbers_told (written_table t values.now) }
{
    let (first, others) = values.split_at(1);
    if are_all(others, &first[0]) {
        first
    } else {
        values
    }
}

/// A table whose cells begin at these values.
fn put_table(out: &mut String, name: &str, count: u32, values: &[i64]) -> Result<(), AllocError>
    requires { 0 < length values.now }
    ensures text { OnOk result (string_bytes out.new
        ≡ string_bytes out.old ++ table_line (written_table (name.now, count) values.now)) }
    ensures fits { OnOk result (TableFits (written_table (name.now, count) values.now)) }
{
    put_counted(out, "table", name, count)?;
    put_integers(out, told(values))?;
    out.push_str(")\n")
}

/// The tables, each with its part of the values behind those of the variables.
fn put_tables(out: &mut String, catalogue: &Catalogue) -> Result<(), AllocError>
    ensures text { OnOk result (string_bytes out.new
        ≡ string_bytes out.old
        ++ flat_map table_line (written_tables catalogue.now.tables
        (drop (length catalogue.now.names) catalogue.now.initial))) }
    ensures fits { OnOk result (AllByRecursion TableFits (written_tables catalogue.now.tables
        (drop (length catalogue.now.names) catalogue.now.initial))) }
{
    catalogue.rules();
    let (_, mut rest) = catalogue.initial().split_at(catalogue.var_count());
    'tables: for (name, count) in catalogue.tables() {
        let (values, more) = rest.split_at(*count as usize);
        put_table(out, name.as_str(), *count, values)?;
        rest = more;
    }
    Ok(())
}

fn put_condition(
    out: &mut String,
    catalogue: &Catalogue,
    condition: &(String, Cond),
) -> Result<(), AllocError>
    requires { ConditionNamed (scope_of catalogue.now) (condition_of condition.now.1) }
    ensures text { OnOk result (string_bytes out.new
        ≡ string_bytes out.old ++ always_line (written_always (scope_of catalogue.now) (standing_of condition.now))) }
    ensures fits { OnOk result (AlwaysFits (written_always (scope_of catalogue.now) (standing_of condition.now))) }
{
    let (name, condition) = condition;
    let scope = Scope {
        catalogue,
        params: &[],
    };
    out.push_str("(always ")?;
    out.push_str(name.as_str())?;
    put_last_condition(out, &scope, condition)?;
    out.push_str("\n")
}

fn put_conditions(out: &mut String, catalogue: &Catalogue) -> Result<(), AllocError>
    ensures text { OnOk result (string_bytes out.new
        ≡ string_bytes out.old
        ++ flat_map always_line (map (written_always (scope_of catalogue.now)) catalogue.now.always)) }
    ensures fits { OnOk result
        (AllByRecursion AlwaysFits (map (written_always (scope_of catalogue.now)) catalogue.now.always)) }
{
    catalogue.rules();
    'conditions: for condition in catalogue.always() {
        put_condition(out, catalogue, condition)?;
    }
    Ok(())
}

/// Names in parentheses, behind a space.
fn put_names(out: &mut String, names: &[String]) -> Result<(), AllocError>
    ensures { OnOk result (string_bytes out.new
        ≡ string_bytes out.old ++ spaced (names_text (map string_bytes names.now))) }
{
    match names.split_first() {
        Some((first, others)) => {
            out.push_str(" (")?;
            out.push_str(first.as_str())?;
            put_others(out, others)?;
            out.push_str(")")
        }
        None => out.push_str(" ()"),
    }
}

/// Names, each behind a space.
fn put_others(out: &mut String, names: &[String]) -> Result<(), AllocError>
    ensures { OnOk result (string_bytes out.new
        ≡ string_bytes out.old ++ flat_map spaced (map string_bytes names.now)) }
{
    'names: for name in names {
        out.push_str(" ")?;
        out.push_str(name.as_str())?;
    }
    Ok(())
}

/// The parameters of a transaction, of which only form 3 has a list.
fn put_list(out: &mut String, form: FileForm, params: &[String]) -> Result<(), AllocError>
    ensures { OnOk result (string_bytes out.new
        ≡ string_bytes out.old ++ list_text form (map string_bytes params.now)) }
{
    match form {
        FileForm::One | FileForm::Two => Ok(()),
        FileForm::Three => put_names(out, params),
    }
}

fn put_tx(
    out: &mut String,
    catalogue: &Catalogue,
    form: FileForm,
    tx: &Tx,
) -> Result<(), AllocError>
    requires body { StatementNamed (inside (scope_of catalogue.now) (transaction_of tx.now).parameters)
        (transaction_of tx.now).body }
    requires value { ExpressionNamed (inside (scope_of catalogue.now) (transaction_of tx.now).parameters)
        (transaction_of tx.now).result }
    ensures text { OnOk result (string_bytes out.new
        ≡ string_bytes out.old ++ tx_line form (written_transaction (scope_of catalogue.now) (transaction_of tx.now))) }
    ensures fits { OnOk result
        (DeclarationFits (written_transaction (scope_of catalogue.now) (transaction_of tx.now))) }
{
    let params = tx.params.as_slice();
    let scope = Scope { catalogue, params };
    out.push_str("(tx ")?;
    out.push_str(tx.name.as_str())?;
    put_list(out, form, params)?;
    put_part(out, &scope, &tx.body)?;
    put_last_expression(out, &scope, &tx.result)?;
    out.push_str("\n")
}

fn put_txs(out: &mut String, catalogue: &Catalogue, form: FileForm) -> Result<(), AllocError>
    ensures text { OnOk result (string_bytes out.new
        ≡ string_bytes out.old
        ++ flat_map (tx_line form) (map (written_transaction (scope_of catalogue.now)) catalogue.now.transactions)) }
    ensures fits { OnOk result (AllByRecursion DeclarationFits
        (map (written_transaction (scope_of catalogue.now)) catalogue.now.transactions)) }
{
    catalogue.rules();
    'txs: for i in 0..catalogue.tx_count() {
        put_tx(out, catalogue, form, catalogue.tx(TxId(i as u32)))?;
    }
    Ok(())
}

/// An integer behind a space.
fn put_integer(out: &mut String, n: i64) -> Result<(), AllocError>
    ensures text { OnOk result (string_bytes out.new ≡ string_bytes out.old ++ spaced_integer n) }
    ensures fits { FitsSigned w64 n }
{
    write!(out, " {n}")
}

fn put_integers(out: &mut String, numbers: &[i64]) -> Result<(), AllocError>
    ensures text { OnOk result (string_bytes out.new
        ≡ string_bytes out.old ++ flat_map spaced_integer numbers.now) }
    ensures fits { OnOk result (AllByRecursion (FitsSigned w64) numbers.now) }
{
    'numbers: for n in numbers {
        put_integer(out, *n)?;
    }
    Ok(())
}

/// The beginning of a table or of a run: a parenthesis, the word, the name and the count.
fn put_counted(out: &mut String, word: &str, name: &str, count: u32) -> Result<(), AllocError>
    ensures text { OnOk result (string_bytes out.new
        ≡ string_bytes out.old ++ (codes "(" ++ (word.now ++ (spaced name.now ++ spaced_integer (pos count))))) }
    ensures fits { FitsSigned w64 (pos count) }
{
    write!(out, "({word} {name} {count}")
}

fn put_run(out: &mut String, catalogue: &Catalogue, run: &(Call, u32)) -> Result<(), AllocError>
    requires { run.now.0.tx.0 < length catalogue.now.transactions }
    ensures text { OnOk result (string_bytes out.new
        ≡ string_bytes out.old ++ run_line (written_run catalogue.now.transactions run.now)) }
    ensures fits { OnOk result (RunFits (written_run catalogue.now.transactions run.now)) }
{
    let (call, count) = run;
    put_counted(out, "run", catalogue.tx_name(call.tx), *count)?;
    put_integers(out, call.arguments.as_slice())?;
    out.push_str(")\n")
}

fn put_runs(out: &mut String, catalogue: &Catalogue) -> Result<(), AllocError>
    ensures text { OnOk result (string_bytes out.new
        ≡ string_bytes out.old ++ flat_map run_line (map (written_run catalogue.now.transactions) catalogue.now.runs)) }
    ensures fits { OnOk result
        (AllByRecursion RunFits (map (written_run catalogue.now.transactions) catalogue.now.runs)) }
{
    catalogue.rules();
    'runs: for run in catalogue.runs() {
        put_run(out, catalogue, run)?;
    }
    Ok(())
}
