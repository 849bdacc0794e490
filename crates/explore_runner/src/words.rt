//! The words of what is found.

ghost use Rattle.std.specs.Prelude.{◌≡◌, ◌++◌, ℕ, OnOk, flat_map, nat_lt, pos, slice_index_or, string_bytes};
ghost use Rattle.std.specs.List.{list_any};
ghost use Rattle.explore_runner.specs.FoundText.{argument_words, call_at, has_calls, is_told, only, parks};
ghost use Rattle.explore_runner.specs.FoundText.{run_words, some_wait, waits};

use explore_law::End;
use std::alloc::AllocError;
use std::fmt::Write;
use text_report_printer::transaction_name;
use txn::{Arguments, Call, Catalogue, TxId};

/// Puts the text behind, where that is so.
pub(crate) fn put_only(out: &mut String, so: bool, text: &str) -> Result<(), AllocError>
    ensures { OnOk result (string_bytes out.new ≡ string_bytes out.old ++ only so text.now) }
{
    if so {
        out.push_str(text)?;
    }
    Ok(())
}

/// The number at this configuration, or 0 past the end.
pub(crate) fn count_at(counts: &[u32], i: usize) -> u32
    ensures { result ≡ slice_index_or counts.now i 0 }
{
    match counts.get(i) {
        Some(count) => *count,
        None => 0,
    }
}

/// The value at this place, or 0 past the end.
pub(crate) fn value_or_zero(values: &[i64], i: usize) -> i64
    ensures { result ≡ slice_index_or values.now i (pos 0) }
{
    match values.get(i) {
        Some(value) => *value,
        None => 0,
    }
}

/// Whether the value of this number is told: of a cell that has its initial value nothing is.
pub(crate) fn is_told(catalogue: &Catalogue, values: &[i64], i: usize) -> bool
    ensures { result ≡ is_told catalogue.now values.now i }
{
    i < catalogue.var_count() || value_or_zero(values, i) != value_or_zero(catalogue.initial(), i)
}

/// Whether some of the numbers is not 0.
pub(crate) fn some_wait(counts: &[u32]) -> bool
    ensures { result ≡ some_wait counts.now }
{
    'counts: for count in counts {
        if *count > 0 {
            return true;
        }
    }
    false
}

/// Whether some end leaves a task of the instance of this number waiting.
fn waits(ends: &[End], number: usize) -> bool
    ensures { result ≡ waits ends.now number }
{
    'ends: for end in ends {
        if count_at(end.waiting.as_slice(), number) > 0 {
            return true;
        }
    }
    false
}

/// Whether some end leaves a task of one of these instances waiting that is of the transaction of this number.
pub(crate) fn parks(calls: &[Call], ends: &[End], number: usize) -> bool
    ensures { result ≡ parks calls.now ends.now number }
{
    'calls: for i in 0..calls.len() {
        if call_at(calls, i).tx.0 as usize == number && waits(ends, i) {
            return true;
        }
    }
    false
}

/// Whether one of these calls is of the transaction of this number.
pub(crate) fn has_calls(calls: &[Call], number: usize) -> bool
    ensures { result ≡ has_calls calls.now number }
{
    'calls: for call in calls {
        if call.tx.0 as usize == number {
            return true;
        }
    }
    false
}

/// The call of this number, or an empty one past the end.
pub(crate) fn call_at(calls: &[Call], i: usize) -> Call
    ensures { result ≡ call_at calls.now i }
{
    match calls.get(i) {
        Some(call) => *call,
        None => Call {
            tx: TxId(0),
            arguments: Arguments::none(),
        },
    }
}

/// Puts how many tasks of a call there are, as a run has them.
pub(crate) fn put_run(
    out: &mut String,
    catalogue: &Catalogue,
    call: &Call,
    count: u32,
) -> Result<(), AllocError>
    ensures { OnOk result (string_bytes out.new ≡ string_bytes out.old ++ run_words catalogue.now call.now count) }
{
    out.push_str(transaction_name(catalogue, call.tx.0 as usize))?;
    write!(out, " {count}")?;
    put_arguments(out, call.arguments.as_slice())
}

/// Puts the arguments of a call, each behind a space.
pub(crate) fn put_arguments(out: &mut String, arguments: &[i64]) -> Result<(), AllocError>
    ensures { OnOk result (string_bytes out.new ≡ string_bytes out.old ++ argument_words arguments.now) }
{
    'arguments: for argument in arguments {
        write!(out, " {argument}")?;
    }
    Ok(())
}
