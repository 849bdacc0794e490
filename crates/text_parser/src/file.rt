//! Files as trees of texts.

ghost use Rattle.std.specs.Prelude.{◌≡◌, ◌<◌, ◌≤◌, List, Ok, IfErr, IfOk, length, codes};
ghost use Rattle.text_words.specs.Bytes.{int_value};
ghost use Rattle.text_words.specs.Tokens.{Lexeme, tokens};
ghost use Rattle.text_words.specs.Answers.{Gives, ◌>>=◌ as ◌>>=ᴿ◌};
ghost use Rattle.text_words.specs.declared.fault.ReadFault.TheVariants.{Shape};
ghost use Rattle.text_grammar.specs.Tree.{Declaration};
ghost use Rattle.text_grammar.specs.Reading.{pair_at, pair_behind, table_at, tables_at, always_at, conditions_at};
ghost use Rattle.text_grammar.specs.Reading.{list_at, parameters_at, tx_at, arguments_at, run_behind, run_at, end_at};
ghost use Rattle.text_grammar.specs.Reading.{form_numbered, announced_at, heading_at, file_of, tree_of};
ghost use Rattle.text_words.specs.TokenReading.{begins, all_of, is_name, name_at, is_int, int_at, close_at};
ghost use Rattle.text_grammar.specs.View.{view_expr, view_stmt, view_pair, view_pairs, view_always, view_conditions};
ghost use Rattle.text_grammar.specs.View.{view_names, view_tx, view_txs, view_numbers, view_table, view_tables};
ghost use Rattle.text_grammar.specs.View.{view_run, view_runs, view_file};

use crate::cond::cond_of;
use crate::expr::expr_of;
use crate::stmt::stmt_of;
use std::alloc::Global;
use text_grammar::expr::RawExpr;
use text_grammar::file::{
    FileForm, RawAlways, RawFile, RawPair, RawRun, RawTable, RawTx, longest_file,
};
use text_grammar::stmt::RawStmt;
use text_words::ReadFault;
use text_words::bytes::are_allowed;
use text_words::lexer::next_token;
use text_words::numeral::Numeral;
use text_words::tokens::{begins, close, form, int_of, name_of, open};

/// A pair behind its parenthesis and its word.
fn pair_behind(bytes: &[u8]) -> Result<(RawPair<'_>, &[u8]), ReadFault>
    ensures value { Gives (λ x. (view_pair x.0, tokens x.1.now)) result (pair_behind (tokens bytes.now)) }
    ensures shorter { IfOk result (λ x. length x.1.now < length bytes.now) }
    ensures kind { IfErr result (λ e. e ≡ Shape) }
{
    let (name, rest) = name_of(bytes)?;
    let (value, rest) = int_of(rest)?;
    let rest = close(rest)?;
    Ok((RawPair { name, value }, rest))
}

/// The most parentheses that may be open inside the one of a condition or of a transaction.
pub const INNER_DEPTH: u32 = 31;

/// A standing condition of a file of this form, and the bytes behind it. It fails by `Shape` where none
/// stands next, or one that is too deep.
#[tactic(auto, unfolding(text_grammar::specs::Reading::always_at))]
pub fn always_of(
    alloc: Global,
    file_form: FileForm,
    bytes: &[u8],
) -> Result<(RawAlways<'_>, &[u8]), ReadFault>
    ensures value { Gives (λ x. (view_always x.0, tokens x.1.now)) result (always_at file_form (tokens bytes.now)) }
    ensures shorter { IfOk result (λ x. length x.1.now < length bytes.now) }
{
    let rest = form(bytes, "always")?;
    let (name, rest) = name_of(rest)?;
    let (condition, rest) = cond_of(alloc, file_form, INNER_DEPTH, rest)?;
    match close(rest) {
        Ok(rest) => Ok((RawAlways { name, condition }, rest)),
        Err(fault) => {
            drop(condition);
            Err(fault)
        }
    }
}

/// Names, as long as one stands next.
fn names_of(alloc: Global, bytes: &[u8]) -> Result<(Vec<&str>, &[u8]), ReadFault>
    ensures value { Gives (λ x. (view_names x.0.items, tokens x.1.now)) result
        (all_of is_name name_at (tokens bytes.now)) }
    ensures within { IfOk result (λ x. length x.1.now ≤ length bytes.now) }
{
    let mut names = Vec::new(alloc);
    let mut rest = bytes;
    'names: while let Ok((name, after)) = name_of(rest) {
        names.push(name)?;
        rest = after;
    }
    Ok((names, rest))
}

/// A list of names.
#[tactic(auto, unfolding(text_grammar::specs::Reading::list_at))]
fn list_of(alloc: Global, bytes: &[u8]) -> Result<(Vec<&str>, &[u8]), ReadFault>
    ensures value { Gives (λ x. (view_names x.0.items, tokens x.1.now)) result (list_at (tokens bytes.now)) }
    ensures shorter { IfOk result (λ x. length x.1.now < length bytes.now) }
{
    let inside = open(bytes)?;
    let (names, rest) = names_of(alloc, inside)?;
    let rest = close(rest)?;
    Ok((names, rest))
}

/// The parameters of a transaction of a file of this form, of which only form 3 has a list, and the bytes
/// behind them. It fails by `Shape` where form 3 has none.
#[tactic(auto, unfolding(text_grammar::specs::Reading::parameters_at))]
pub fn parameters_of(
    alloc: Global,
    file_form: FileForm,
    bytes: &[u8],
) -> Result<(Vec<&str>, &[u8]), ReadFault>
    ensures value { Gives (λ x. (view_names x.0.items, tokens x.1.now)) result
        (parameters_at file_form (tokens bytes.now)) }
    ensures within { IfOk result (λ x. length x.1.now ≤ length bytes.now) }
{
    match file_form {
        FileForm::One | FileForm::Two => Ok((Vec::new(alloc), bytes)),
        FileForm::Three => list_of(alloc, bytes),
    }
}

/// A transaction of a file of this form, and the bytes behind it. It fails by `Shape` where none stands
/// next, or one that is too deep.
#[tactic(auto, unfolding(text_grammar::specs::Reading::tx_at))]
pub fn tx_of(
    alloc: Global,
    file_form: FileForm,
    bytes: &[u8],
) -> Result<(RawTx<'_>, &[u8]), ReadFault>
    ensures value { Gives (λ x. (view_tx x.0, tokens x.1.now)) result (tx_at file_form (tokens bytes.now)) }
    ensures shorter { IfOk result (λ x. length x.1.now < length bytes.now) }
{
    let rest = form(bytes, "tx")?;
    let (name, rest) = name_of(rest)?;
    let (params, rest) = parameters_of(alloc, file_form, rest)?;
    let (body, rest) = stmt_of(alloc, file_form, INNER_DEPTH, rest)?;
    match expr_of(alloc, file_form, INNER_DEPTH, rest) {
        Ok((value, rest)) => closed_tx(name, params, body, value, rest),
        Err(fault) => {
            drop(body);
            Err(fault)
        }
    }
}

/// A transaction behind its value.
fn closed_tx<'a>(
    name: &'a str,
    params: Vec<&'a str>,
    body: RawStmt<'a>,
    value: RawExpr<'a>,
    bytes: &'a [u8],
) -> Result<(RawTx<'a>, &'a [u8]), ReadFault>
    ensures value { Gives {Y = Declaration × List Lexeme} (λ x. (view_tx x.0, tokens x.1.now)) result
        (close_at (tokens bytes.now)
        >>=ᴿ λ rest. Ok (
          record {
            name = name.now;
            parameters = view_names params.entry.items;
            body = view_stmt body.entry;
            value = view_expr value.entry;
          },
          rest,
        )) }
    ensures shorter { IfOk result (λ x. length x.1.now < length bytes.now) }
    ensures kind { IfErr result (λ e. e ≡ Shape) }
{
    match close(bytes) {
        Ok(rest) => Ok((
            RawTx {
                name,
                params,
                body,
                value,
            },
            rest,
        )),
        Err(fault) => {
            drop(body);
            drop(value);
            Err(fault)
        }
    }
}

/// The pairs behind this word, as long as one stands next, and the bytes behind them. It fails by
/// `Shape` where the word begins what is no pair.
pub fn pairs_of<'a>(
    alloc: Global,
    bytes: &'a [u8],
    word: &str,
) -> Result<(Vec<RawPair<'a>>, &'a [u8]), ReadFault>
    ensures { Gives (λ x. (view_pairs x.0.items, tokens x.1.now)) result
        (all_of (begins word.now) (pair_at word.now) (tokens bytes.now)) }
{
    let mut pairs = Vec::new(alloc);
    let mut rest = bytes;
    'pairs: while let Ok(inside) = form(rest, word) {
        let (pair, after) = pair_behind(inside)?;
        pairs.push(pair)?;
        rest = after;
    }
    Ok((pairs, rest))
}

fn standing_of(
    alloc: Global,
    file_form: FileForm,
    bytes: &[u8],
) -> Result<(Vec<RawAlways<'_>>, &[u8]), ReadFault>
    ensures { Gives (λ x. (view_conditions x.0.items, tokens x.1.now)) result
        (all_of (begins (codes "always")) (always_at file_form) (tokens bytes.now)) }
{
    let mut standing = Vec::new(alloc);
    let mut rest = bytes;
    'standing: while begins(rest, "always") {
        let (always, after) = always_of(alloc, file_form, rest)?;
        standing.push(always)?;
        rest = after;
    }
    Ok((standing, rest))
}

/// Conditions, of which form 1 has none.
#[tactic(auto, unfolding(text_grammar::specs::Reading::conditions_at))]
fn conditions_of(
    alloc: Global,
    file_form: FileForm,
    bytes: &[u8],
) -> Result<(Vec<RawAlways<'_>>, &[u8]), ReadFault>
    ensures { Gives (λ x. (view_conditions x.0.items, tokens x.1.now)) result
        (conditions_at file_form (tokens bytes.now)) }
{
    match file_form {
        FileForm::One => Ok((Vec::new(alloc), bytes)),
        FileForm::Two | FileForm::Three => standing_of(alloc, file_form, bytes),
    }
}

fn txs_of(
    alloc: Global,
    file_form: FileForm,
    bytes: &[u8],
) -> Result<(Vec<RawTx<'_>>, &[u8]), ReadFault>
    ensures { Gives (λ x. (view_txs x.0.items, tokens x.1.now)) result
        (all_of (begins (codes "tx")) (tx_at file_form) (tokens bytes.now)) }
{
    let mut txs = Vec::new(alloc);
    let mut rest = bytes;
    'txs: while begins(rest, "tx") {
        let (tx, after) = tx_of(alloc, file_form, rest)?;
        txs.push(tx)?;
        rest = after;
    }
    Ok((txs, rest))
}

/// Integers, as long as one stands next.
fn numbers_of(alloc: Global, bytes: &[u8]) -> Result<(Vec<Numeral<'_>>, &[u8]), ReadFault>
    ensures value { Gives (λ x. (view_numbers x.0.items, tokens x.1.now)) result
        (all_of is_int int_at (tokens bytes.now)) }
    ensures within { IfOk result (λ x. length x.1.now ≤ length bytes.now) }
{
    let mut numbers = Vec::new(alloc);
    let mut rest = bytes;
    'numbers: while let Ok((number, after)) = int_of(rest) {
        numbers.push(number)?;
        rest = after;
    }
    Ok((numbers, rest))
}

/// A table, and the bytes behind it.
#[tactic(auto, unfolding(text_grammar::specs::Reading::table_at))]
fn table_of(alloc: Global, bytes: &[u8]) -> Result<(RawTable<'_>, &[u8]), ReadFault>
    ensures value { Gives (λ x. (view_table x.0, tokens x.1.now)) result (table_at (tokens bytes.now)) }
    ensures shorter { IfOk result (λ x. length x.1.now < length bytes.now) }
{
    let rest = form(bytes, "table")?;
    let (name, rest) = name_of(rest)?;
    let (count, rest) = int_of(rest)?;
    let (first, rest) = int_of(rest)?;
    let (others, rest) = numbers_of(alloc, rest)?;
    let rest = close(rest)?;
    Ok((
        RawTable {
            name,
            count,
            first,
            others,
        },
        rest,
    ))
}

/// Tables, as long as one stands next.
fn all_tables_of(alloc: Global, bytes: &[u8]) -> Result<(Vec<RawTable<'_>>, &[u8]), ReadFault>
    ensures { Gives (λ x. (view_tables x.0.items, tokens x.1.now)) result
        (all_of (begins (codes "table")) table_at (tokens bytes.now)) }
{
    let mut tables = Vec::new(alloc);
    let mut rest = bytes;
    'tables: while begins(rest, "table") {
        let (table, after) = table_of(alloc, rest)?;
        tables.push(table)?;
        rest = after;
    }
    Ok((tables, rest))
}

/// The tables of a file of this form, which only form 3 has, and the bytes behind them. It fails by `Shape`
/// where the word begins what is no table.
#[tactic(auto, unfolding(text_grammar::specs::Reading::tables_at))]
pub fn tables_of(
    alloc: Global,
    file_form: FileForm,
    bytes: &[u8],
) -> Result<(Vec<RawTable<'_>>, &[u8]), ReadFault>
    ensures { Gives (λ x. (view_tables x.0.items, tokens x.1.now)) result
        (tables_at file_form (tokens bytes.now)) }
{
    match file_form {
        FileForm::One | FileForm::Two => Ok((Vec::new(alloc), bytes)),
        FileForm::Three => all_tables_of(alloc, bytes),
    }
}

/// Arguments, which only form 3 has.
#[tactic(auto, unfolding(text_grammar::specs::Reading::arguments_at))]
fn arguments_of(
    alloc: Global,
    file_form: FileForm,
    bytes: &[u8],
) -> Result<(Vec<Numeral<'_>>, &[u8]), ReadFault>
    ensures value { Gives (λ x. (view_numbers x.0.items, tokens x.1.now)) result
        (arguments_at file_form (tokens bytes.now)) }
    ensures within { IfOk result (λ x. length x.1.now ≤ length bytes.now) }
{
    match file_form {
        FileForm::One | FileForm::Two => Ok((Vec::new(alloc), bytes)),
        FileForm::Three => numbers_of(alloc, bytes),
    }
}

/// A run behind its parenthesis and its word.
fn run_behind(
    alloc: Global,
    file_form: FileForm,
    bytes: &[u8],
) -> Result<(RawRun<'_>, &[u8]), ReadFault>
    ensures value { Gives (λ x. (view_run x.0, tokens x.1.now)) result (run_behind file_form (tokens bytes.now)) }
    ensures shorter { IfOk result (λ x. length x.1.now < length bytes.now) }
{
    let (name, rest) = name_of(bytes)?;
    let (count, rest) = int_of(rest)?;
    let (arguments, rest) = arguments_of(alloc, file_form, rest)?;
    let rest = close(rest)?;
    Ok((
        RawRun {
            name,
            count,
            arguments,
        },
        rest,
    ))
}

/// The runs of a file of this form, as long as one stands next, and the bytes behind them. It fails by
/// `Shape` where the word begins what is no run.
fn runs_of(
    alloc: Global,
    file_form: FileForm,
    bytes: &[u8],
) -> Result<(Vec<RawRun<'_>>, &[u8]), ReadFault>
    ensures { Gives (λ x. (view_runs x.0.items, tokens x.1.now)) result
        (all_of (begins (codes "run")) (run_at file_form) (tokens bytes.now)) }
{
    let mut runs = Vec::new(alloc);
    let mut rest = bytes;
    'runs: while let Ok(inside) = form(rest, "run") {
        let (run, after) = run_behind(alloc, file_form, inside)?;
        runs.push(run)?;
        rest = after;
    }
    Ok((runs, rest))
}

/// The end of the bytes. It fails by `Shape` where a token is left.
#[tactic(auto, unfolding(text_grammar::specs::Reading::end_at))]
pub fn end(bytes: &[u8]) -> Result<(), ReadFault>
    ensures value { Gives (λ x. x) result (end_at (tokens bytes.now)) }
    ensures kind { IfErr result (λ e. e ≡ Shape) }
{
    match next_token(bytes) {
        Some(_) => Err(ReadFault::Shape),
        None => Ok(()),
    }
}

/// The form of this number, where it is one that is announced.
fn form_numbered(number: Numeral<'_>) -> Result<FileForm, ReadFault>
    ensures value { Gives (λ x. x) result (form_numbered (int_value number.entry.text.now)) }
    ensures kind { IfErr result (λ e. e ≡ Shape) }
{
    match number.text.parse::<i64>() {
        Ok(2) => Ok(FileForm::Two),
        Ok(3) => Ok(FileForm::Three),
        _ => Err(ReadFault::Shape),
    }
}

#[tactic(auto, unfolding(text_grammar::specs::Reading::announced_at))]
fn announced_of(bytes: &[u8]) -> Result<(FileForm, &[u8]), ReadFault>
    ensures value { Gives (λ x. (x.0, tokens x.1.now)) result (announced_at (tokens bytes.now)) }
    ensures kind { IfErr result (λ e. e ≡ Shape) }
{
    let rest = form(bytes, "stm")?;
    let (number, rest) = int_of(rest)?;
    let file_form = form_numbered(number)?;
    let rest = close(rest)?;
    Ok((file_form, rest))
}

/// The form, and the bytes behind its announcement: form 1, unless another is announced. It fails by
/// `Shape` where what is announced is no form.
#[tactic(auto, unfolding(text_grammar::specs::Reading::heading_at))]
pub fn heading_of(bytes: &[u8]) -> Result<(FileForm, &[u8]), ReadFault>
    ensures value { Gives (λ x. (x.0, tokens x.1.now)) result (heading_at (tokens bytes.now)) }
    ensures kind { IfErr result (λ e. e ≡ Shape) }
{
    if begins(bytes, "stm") {
        announced_of(bytes)
    } else {
        Ok((FileForm::One, bytes))
    }
}

/// The tree of all the tokens.
#[tactic(auto, unfolding(text_grammar::specs::Reading::file_of))]
fn file_of(alloc: Global, bytes: &[u8]) -> Result<RawFile<'_>, ReadFault>
    ensures { Gives view_file result (file_of (tokens bytes.now)) }
{
    let (form, rest) = heading_of(bytes)?;
    let (vars, rest) = pairs_of(alloc, rest, "var")?;
    let (tables, rest) = tables_of(alloc, form, rest)?;
    let (always, rest) = conditions_of(alloc, form, rest)?;
    let (txs, rest) = txs_of(alloc, form, rest)?;
    let (runs, rest) = runs_of(alloc, form, rest)?;
    end(rest)?;
    Ok(RawFile {
        form,
        vars,
        tables,
        always,
        txs,
        runs,
    })
}

/// The tree of the bytes, or the first fault of length, bytes and shape, judged over all of them. It is a call, so
/// that who reads a file takes little stack where its statements nest.
#[tactic(auto, unfolding(text_grammar::specs::Reading::tree_of))]
#[inline(never)]
pub fn tree_of(alloc: Global, bytes: &[u8]) -> Result<RawFile<'_>, ReadFault>
    ensures { Gives view_file result (tree_of bytes.now) }
{
    if bytes.len() > longest_file(bytes) {
        return Err(ReadFault::TooLong);
    }
    if !are_allowed(bytes) {
        return Err(ReadFault::BadByte);
    }
    file_of(alloc, bytes)
}
