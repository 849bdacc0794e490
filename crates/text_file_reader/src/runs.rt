//! Runs read in one pass: each is made as it is read, and no tree of texts stands beside them.

ghost use Rattle.std.specs.Prelude.{◌≡◌, ◌<◌, ◌≤◌, IfOk, length, codes};
ghost use Rattle.text_words.specs.Tokens.{tokens};
ghost use Rattle.text_words.specs.TokenReading.{is_int, int_at, begins, all_of};
ghost use Rattle.text_grammar.specs.Reading.{arguments_at, run_behind, run_at};
ghost use Rattle.text_grammar.specs.Resolving.{each, arguments_in, run_in};
ghost use Rattle.text_resolver.specs.Texts.{texts};
ghost use Rattle.text_file_reader.specs.Resolved.{Makes};

use indexmap::IndexSet;
use std::alloc::Global;
use text_grammar::file::FileForm;
use text_resolver::resolve::place_in;
use text_words::ReadFault;
use text_words::tokens::{close, form, int_of, name_of};
use txn_programs::limits::MAX_PARAMETERS;
use txn_programs::{Arguments, Call, TxId};

/// The integers that stand next, as the arguments of a call, and the bytes behind them.
fn numbers_at_once(bytes: &[u8]) -> Result<(Arguments, &[u8]), ReadFault>
    ensures value { IfOk result
        (λ x. Makes (all_of is_int int_at (tokens bytes.now)) arguments_in x.0 (tokens x.1.now)) }
    ensures within { IfOk result (λ x. length x.1.now ≤ length bytes.now) }
{
    let mut values = [0; MAX_PARAMETERS];
    let mut count = 0;
    let mut rest = bytes;
    'numbers: while let Ok((numeral, after)) = int_of(rest) {
        if count == MAX_PARAMETERS {
            return Err(ReadFault::Limit);
        }
        values[count] = numeral.number()?;
        count += 1;
        rest = after;
    }
    Ok((Arguments::of(&values[..count]), rest))
}

/// The arguments that stand next, which only form 3 has, and the bytes behind them.
#[tactic(auto, unfolding(text_grammar::specs::Reading::arguments_at))]
fn arguments_at_once(file_form: FileForm, bytes: &[u8]) -> Result<(Arguments, &[u8]), ReadFault>
    ensures value { IfOk result
        (λ x. Makes (arguments_at file_form (tokens bytes.now)) arguments_in x.0 (tokens x.1.now)) }
    ensures within { IfOk result (λ x. length x.1.now ≤ length bytes.now) }
{
    match file_form {
        FileForm::One | FileForm::Two => Ok((Arguments::none(), bytes)),
        FileForm::Three => numbers_at_once(bytes),
    }
}

/// A run behind its parenthesis and its word, as a call and how many tasks make it, and the bytes behind it. The names
/// are those of the transactions.
fn run_at_once<'a>(
    file_form: FileForm,
    names: &IndexSet<&str>,
    bytes: &'a [u8],
) -> Result<((Call, u32), &'a [u8]), ReadFault>
    ensures value { IfOk result
        (λ x. Makes (run_behind file_form (tokens bytes.now)) (run_in (texts names.now.keys)) x.0 (tokens x.1.now)) }
    ensures shorter { IfOk result (λ x. length x.1.now < length bytes.now) }
{
    let (name, rest) = name_of(bytes)?;
    let (numeral, rest) = int_of(rest)?;
    let (arguments, rest) = match arguments_at_once(file_form, rest) {
        Ok(read) => read,
        Err(fault) => return Err(fault),
    };
    let rest = close(rest)?;
    let place = place_in(names, name)?;
    let count = numeral.count()?;
    let call = Call {
        tx: TxId(place),
        arguments,
    };
    Ok(((call, count), rest))
}

/// The runs that stand next, each as a call and how many tasks make it, and the bytes behind them. The names are those
/// of the transactions.
pub(crate) fn calls_at_once<'a>(
    alloc: Global,
    file_form: FileForm,
    names: &IndexSet<&str>,
    bytes: &'a [u8],
) -> Result<(Vec<(Call, u32)>, &'a [u8]), ReadFault>
    ensures { IfOk result
        (λ x. Makes (all_of (begins (codes "run")) (run_at file_form) (tokens bytes.now))
        (each (run_in (texts names.now.keys))) x.0.items (tokens x.1.now)) }
{
    let mut made = Vec::new(alloc);
    let mut rest = bytes;
    'runs: while let Ok(inside) = form(rest, "run") {
        match run_at_once(file_form, names, inside) {
            Ok((call, after)) => {
                made.push(call)?;
                rest = after;
            }
            Err(fault) => return Err(fault),
        }
    }
    Ok((made, rest))
}
