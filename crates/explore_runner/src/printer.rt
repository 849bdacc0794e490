//! The text of what is found.

ghost use Rattle.std.specs.Prelude.{◌≡◌, ◌+◌, ◌<◌, ◌^◌, ◌++◌, IfOk, OnOk, codes, length};
ghost use Rattle.std.specs.Prelude.{slice_get, slice_index_or, Some, string_bytes};
ghost use Rattle.std.specs.Fmt.{decimal};
ghost use Rattle.explore_law.specs.Instances.{instances};
ghost use Rattle.explore_runner.specs.FoundText.{broke_word, each_below, end_line, flag_words, found_text, more_text};
ghost use Rattle.explore_runner.specs.FoundText.{parked_words, tx_line, tx_part, value_words, waiting_words};

use crate::words::{
    call_at, count_at, has_calls, is_told, parks, put_only, put_run, some_wait, value_or_zero,
};
use explore_law::{End, Found, Kinds};
use explore_search::instances_of;
use std::alloc::{AllocError, Global};
use std::fmt::Write;
use text_report_printer::{put_number, put_value_name, transaction_name};
use txn::{AlwaysId, Call, Catalogue};

/// The text of what is found of a catalogue: how many configurations are reached, a line for each
/// transaction with tasks, which tells in which ways its turns end and whether it waits at an end,
/// and a line for each end, with the instances that wait there: as in a run, by transaction, how many
/// tasks, and the arguments. `Err` means that memory was refused.
pub fn print_found(
    alloc: Global,
    catalogue: &Catalogue,
    found: &Found,
) -> Result<String, AllocError>
    ensures { IfOk result (λ text. string_bytes text ≡ found_text catalogue.now found.now) }
{
    let instances = instances_of(alloc, catalogue)?;
    let calls = instances.calls.as_slice();
    let mut out = String::new(alloc);
    put_number(&mut out, "states", found.states as u64)?;
    put_transactions(&mut out, catalogue, calls, found)?;
    put_number(&mut out, "ends", found.ends.len() as u64)?;
    put_ends(&mut out, catalogue, calls, found.ends.as_slice())?;
    out.push_str("end\n")?;
    Ok(out)
}

/// The line where more configurations are reached than this. `Err` means that memory was refused.
pub(crate) fn print_more(alloc: Global, limit: u32) -> Result<String, AllocError>
    ensures { IfOk result (λ text. string_bytes text ≡ more_text limit) }
{
    let mut out = String::new(alloc);
    write!(&mut out, "more than {limit} states\n")?;
    Ok(out)
}

fn put_transactions(
    out: &mut String,
    catalogue: &Catalogue,
    calls: &[Call],
    found: &Found,
) -> Result<(), AllocError>
    ensures { OnOk result (string_bytes out.new
        ≡ string_bytes out.old
        ++ each_below (tx_part catalogue.now calls.now found.now) (length catalogue.now.transactions)) }
{
    'transactions: for k in 0..catalogue.tx_count() {
        put_transaction(out, catalogue, calls, found, k)?;
    }
    Ok(())
}

/// Puts the line of the transaction of this number, where one of these instances is of it.
fn put_transaction(
    out: &mut String,
    catalogue: &Catalogue,
    calls: &[Call],
    found: &Found,
    k: usize,
) -> Result<(), AllocError>
    ensures { OnOk result
        (string_bytes out.new ≡ string_bytes out.old ++ tx_part catalogue.now calls.now found.now k) }
{
    if has_calls(calls, k) {
        let parks = parks(calls, found.ends.as_slice(), k);
        if let Some(kinds) = found.kinds.get(k) {
            put_kinds(out, catalogue, k, parks, kinds)?;
        }
    }
    Ok(())
}

fn put_kinds(
    out: &mut String,
    catalogue: &Catalogue,
    k: usize,
    parks: bool,
    kinds: &Kinds,
) -> Result<(), AllocError>
    ensures { OnOk result
        (string_bytes out.new ≡ string_bytes out.old ++ tx_line catalogue.now k parks (Some kinds.now)) }
{
    out.push_str("tx ")?;
    out.push_str(transaction_name(catalogue, k))?;
    put_flags(out, kinds)?;
    put_broken(out, catalogue, kinds)?;
    put_only(out, parks, " parks")?;
    out.push_str("\n")?;
    Ok(())
}

fn put_flags(out: &mut String, kinds: &Kinds) -> Result<(), AllocError>
    ensures { OnOk result (string_bytes out.new ≡ string_bytes out.old ++ flag_words kinds.now) }
{
    put_only(out, kinds.returned, " returned")?;
    put_only(out, kinds.threw, " threw")?;
    put_only(out, kinds.overflow, " overflow")?;
    put_only(out, kinds.zerodiv, " zerodiv")?;
    put_only(out, kinds.outside, " outside")?;
    Ok(())
}

fn put_broken(out: &mut String, catalogue: &Catalogue, kinds: &Kinds) -> Result<(), AllocError>
    ensures { OnOk result (string_bytes out.new
        ≡ string_bytes out.old ++ each_below (broke_word catalogue.now kinds.now) (length catalogue.now.always)) }
{
    'conditions: for k in 0..catalogue.always().len() {
        if kinds.broke[k] {
            out.push_str(" broke ")?;
            out.push_str(catalogue.always_name(AlwaysId(k as u32)))?;
        }
    }
    Ok(())
}

fn put_ends(
    out: &mut String,
    catalogue: &Catalogue,
    calls: &[Call],
    ends: &[End],
) -> Result<(), AllocError>
    ensures { OnOk result (string_bytes out.new
        ≡ string_bytes out.old
        ++ each_below (λ k. end_line catalogue.now calls.now k (slice_get ends.now k)) (length ends.now)) }
{
    'ends: for k in 0..ends.len() {
        put_end(out, catalogue, calls, k, &ends[k])?;
    }
    Ok(())
}

fn put_end(
    out: &mut String,
    catalogue: &Catalogue,
    calls: &[Call],
    k: usize,
    end: &End,
) -> Result<(), AllocError>
    requires { k + 1 < 2 ^ 64 }
    ensures { OnOk result
        (string_bytes out.new ≡ string_bytes out.old ++ end_line catalogue.now calls.now k (Some end.now)) }
{
    write!(out, "{}", k as u64 + 1)?;
    put_values(out, catalogue, end.values.as_slice())?;
    put_parked(out, catalogue, calls, end.waiting.as_slice())?;
    out.push_str("\n")?;
    Ok(())
}

fn put_values(out: &mut String, catalogue: &Catalogue, values: &[i64]) -> Result<(), AllocError>
    ensures { OnOk result (string_bytes out.new
        ≡ string_bytes out.old ++ each_below (value_words catalogue.now values.now) (length values.now)) }
{
    'values: for k in 0..values.len() {
        put_value(out, catalogue, values, k)?;
    }
    Ok(())
}

fn put_value(
    out: &mut String,
    catalogue: &Catalogue,
    values: &[i64],
    k: usize,
) -> Result<(), AllocError>
    ensures { OnOk result (string_bytes out.new ≡ string_bytes out.old ++ value_words catalogue.now values.now k) }
{
    if !is_told(catalogue, values, k) {
        return Ok(());
    }
    let value = value_or_zero(values, k);
    out.push_str(" ")?;
    put_value_name(out, catalogue, k)?;
    write!(out, " {value}")
}

fn put_parked(
    out: &mut String,
    catalogue: &Catalogue,
    calls: &[Call],
    waiting: &[u32],
) -> Result<(), AllocError>
    ensures { OnOk result
        (string_bytes out.new ≡ string_bytes out.old ++ parked_words catalogue.now calls.now waiting.now) }
{
    if some_wait(waiting) {
        out.push_str(" parked")?;
        put_waiting(out, catalogue, calls, waiting)?;
    }
    Ok(())
}

fn put_waiting(
    out: &mut String,
    catalogue: &Catalogue,
    calls: &[Call],
    waiting: &[u32],
) -> Result<(), AllocError>
    ensures { OnOk result (string_bytes out.new
        ≡ string_bytes out.old ++ each_below (waiting_words catalogue.now calls.now waiting.now) (length waiting.now)) }
{
    'waiting: for k in 0..waiting.len() {
        put_count(out, catalogue, calls, waiting, k)?;
    }
    Ok(())
}

fn put_count(
    out: &mut String,
    catalogue: &Catalogue,
    calls: &[Call],
    waiting: &[u32],
    k: usize,
) -> Result<(), AllocError>
    ensures { OnOk result
        (string_bytes out.new ≡ string_bytes out.old ++ waiting_words catalogue.now calls.now waiting.now k) }
{
    let count = count_at(waiting, k);
    if count > 0 {
        out.push_str(" ")?;
        put_run(out, catalogue, &call_at(calls, k), count)?;
    }
    Ok(())
}
