//! Whether what is found of all orders is denied.

ghost use Rattle.std.specs.Prelude.{◌≡◌, ◌<◌, ◌++◌, ◌^◌, All, IfNone, IfOk, IfSome, OnOk};
ghost use Rattle.std.specs.Prelude.{Some, false, length, slice_index_or, string_bytes, take, true};
ghost use Rattle.explore_law.specs.Explored.{Explored, shows};
ghost use Rattle.run_interface.specs.Denied.{denies};
ghost use Rattle.explore_runner.specs.Denying.{Ends, IsClear, IsFirst, IsFirstBroken, IsPossible, IsSeen, NoneEnds};
ghost use Rattle.explore_runner.specs.Denying.{NothingDenied};
ghost use Rattle.explore_runner.specs.Denying.{Waits, denial_by, denied_line, ending_word, ending_words};
ghost use Rattle.explore_runner.specs.Denying.{find_words, kind_of_ending, turn_words, what};
ghost use Rattle.explore_runner.specs.FoundText.{some_wait};

use crate::words::some_wait;
use explore_law::{End, Found, Kinds};
use run_interface::{Denial, Denials};
use std::alloc::{AllocError, Global};
use std::fmt::Write;
use text_report_printer::{always_name, transaction_name};
use txn::{AlwaysId, Catalogue, TxId};

/// How a turn ends that can be denied.
#[derive(Clone, Copy)]
pub(crate) enum Ending {
    Threw,
    Broke(AlwaysId),
    Overflow,
    ZeroDiv,
    Outside,
}

/// Something that is possible, and where it shows.
#[derive(Clone, Copy)]
pub(crate) enum Offence {
    /// A task waits at the end of this number, counted from 1.
    Parked(usize),
    /// Some turn of the transaction ends so.
    Turn(TxId, Ending),
}

/// The first of what is denied that some order comes to, if one does.
pub(crate) fn first_denied(catalogue: &Catalogue, found: &Found, denied: Denials) -> Option<Offence>
    requires { Explored catalogue.now found.now }
    ensures first { IfSome result (IsFirst catalogue.now found.now denied) }
    ensures none { IfNone result (NothingDenied catalogue.now denied) }
{
    let parked = sighted_denied(catalogue, found, denied, Denial::Parked);
    if parked.is_some() {
        return parked;
    }
    let threw = sighted_denied(catalogue, found, denied, Denial::Threw);
    if threw.is_some() {
        return threw;
    }
    let broke = sighted_denied(catalogue, found, denied, Denial::Broke);
    if broke.is_some() {
        return broke;
    }
    let overflow = sighted_denied(catalogue, found, denied, Denial::Overflow);
    if overflow.is_some() {
        return overflow;
    }
    let zerodiv = sighted_denied(catalogue, found, denied, Denial::ZeroDiv);
    if zerodiv.is_some() {
        return zerodiv;
    }
    sighted_denied(catalogue, found, denied, Denial::Outside)
}

/// Where this shows, if it is denied and some order comes to it.
fn sighted_denied(
    catalogue: &Catalogue,
    found: &Found,
    denied: Denials,
    denial: Denial,
) -> Option<Offence>
    requires { Explored catalogue.now found.now }
    ensures some { IfSome result
        (λ o. (denies denied denial ≡ true) × (what o ≡ denial) × IsSeen catalogue.now found.now o) }
    ensures none { IfNone result (IsClear catalogue.now denied denial) }
{
    if !denied.has(denial) {
        return None;
    }
    sighted(catalogue, found, denial)
}

/// Where this shows, if some order comes to it.
fn sighted(catalogue: &Catalogue, found: &Found, denial: Denial) -> Option<Offence>
    requires { Explored catalogue.now found.now }
    ensures some { IfSome result (λ o. (what o ≡ denial) × IsSeen catalogue.now found.now o) }
    ensures none { IfNone result (IsPossible catalogue.now denial → ⊥) }
{
    catalogue.rules();
    if let Denial::Parked = denial {
        return match first_waiting(found.ends.as_slice()) {
            Some(number) => Some(Offence::Parked(number)),
            None => None,
        };
    }
    match first_ending(catalogue, found.kinds.as_slice(), denial) {
        Some((tx, ending)) => Some(Offence::Turn(tx, ending)),
        None => None,
    }
}

/// The number of the first end at which a task waits, counted from 1.
fn first_waiting(ends: &[End]) -> Option<usize>
    ensures some { IfSome result (Waits ends.now) }
    ensures none { IfNone result (All (λ e. some_wait e.waiting.items ≡ false) ends.now) }
{
    'ends: for k in 0..ends.len() {
        if some_wait(ends[k].waiting.as_slice()) {
            return Some(k + 1);
        }
    }
    None
}

/// The first transaction of whose turns this can be said, and how some turn of it ends.
fn first_ending(catalogue: &Catalogue, kinds: &[Kinds], denial: Denial) -> Option<(TxId, Ending)>
    requires { length kinds.now ≡ length catalogue.now.transactions }
    ensures some { IfSome result (λ p. Ends kinds.now denial p.0 p.1) }
    ensures none { IfNone result (All (λ ks. NoneEnds ks denial) kinds.now) }
{
    catalogue.rules();
    'transactions: for k in 0..kinds.len() {
        if let Some(ending) = ending_of(&kinds[k], denial) {
            return Some((TxId(k as u32), ending));
        }
    }
    None
}

/// How some turn ends, of those whose kinds these are, of which this can be said.
fn ending_of(kinds: &Kinds, denial: Denial) -> Option<Ending>
    ensures some { IfSome result (λ e. (shows kinds.now (kind_of_ending e) ≡ true) × (denial_by e ≡ denial)) }
    ensures first { IfSome result (IsFirstBroken kinds.now) }
    ensures none { IfNone result (NoneEnds kinds.now denial) }
{
    match denial {
        Denial::Threw if kinds.threw => Some(Ending::Threw),
        Denial::Overflow if kinds.overflow => Some(Ending::Overflow),
        Denial::ZeroDiv if kinds.zerodiv => Some(Ending::ZeroDiv),
        Denial::Outside if kinds.outside => Some(Ending::Outside),
        Denial::Broke => match first_broken(&kinds.broke) {
            Some(id) => Some(Ending::Broke(id)),
            None => None,
        },
        _ => None,
    }
}

/// The first standing condition that some turn would have left untrue.
fn first_broken(broke: &[bool]) -> Option<AlwaysId>
    requires { length broke.now < 2 ^ 32 }
    ensures some { IfSome result (λ id. slice_index_or broke.now id.0 false ≡ true) }
    ensures first { IfSome result (λ id. All (λ b. b ≡ false) (take id.0 broke.now)) }
    ensures none { IfNone result (All (λ b. b ≡ false) broke.now) }
{
    'conditions: for k in 0..broke.len() {
        if broke[k] {
            return Some(AlwaysId(k as u32));
        }
    }
    None
}

/// The line that says what is denied and where it shows, without its newline. `Err` means that memory was refused.
pub(crate) fn line_of(
    alloc: Global,
    catalogue: &Catalogue,
    offence: Offence,
) -> Result<String, AllocError>
    ensures { IfOk result (λ line. string_bytes line ≡ denied_line catalogue.now offence) }
{
    let mut out = String::new(alloc);
    out.push_str("stm: denied: ")?;
    match offence {
        Offence::Parked(number) => write!(&mut out, "parked: see --to {number}")?,
        Offence::Turn(tx, ending) => put_turn(&mut out, catalogue, tx, ending)?,
    }
    Ok(out)
}

/// Puts which turn it is, and what shows it.
fn put_turn(
    out: &mut String,
    catalogue: &Catalogue,
    tx: TxId,
    ending: Ending,
) -> Result<(), AllocError>
    ensures { OnOk result (string_bytes out.new ≡ string_bytes out.old ++ turn_words catalogue.now tx ending) }
{
    out.push_str(transaction_name(catalogue, tx.0 as usize))?;
    put_ending(out, catalogue, ending)?;
    put_find(out, catalogue, tx, ending)
}

/// Puts what shows the turn.
fn put_find(
    out: &mut String,
    catalogue: &Catalogue,
    tx: TxId,
    ending: Ending,
) -> Result<(), AllocError>
    ensures { OnOk result (string_bytes out.new ≡ string_bytes out.old ++ find_words catalogue.now tx ending) }
{
    out.push_str(": see --find ")?;
    out.push_str(transaction_name(catalogue, tx.0 as usize))?;
    put_word(out, catalogue, ending)
}

fn put_ending(out: &mut String, catalogue: &Catalogue, ending: Ending) -> Result<(), AllocError>
    ensures { OnOk result (string_bytes out.new ≡ string_bytes out.old ++ ending_words catalogue.now ending) }
{
    match ending {
        Ending::Threw => out.push_str(" threw"),
        Ending::Overflow => out.push_str(" overflow"),
        Ending::ZeroDiv => out.push_str(" zerodiv"),
        Ending::Outside => out.push_str(" outside"),
        Ending::Broke(id) => {
            out.push_str(" broke ")?;
            out.push_str(always_name(catalogue, id))
        }
    }
}

/// Puts a space, and how the turn ends as one word of a command line.
fn put_word(out: &mut String, catalogue: &Catalogue, ending: Ending) -> Result<(), AllocError>
    ensures { OnOk result (string_bytes out.new ≡ string_bytes out.old ++ ending_word catalogue.now ending) }
{
    match ending {
        Ending::Threw => out.push_str(" threw"),
        Ending::Overflow => out.push_str(" overflow"),
        Ending::ZeroDiv => out.push_str(" zerodiv"),
        Ending::Outside => out.push_str(" outside"),
        Ending::Broke(id) => {
            out.push_str(" 'broke ")?;
            out.push_str(always_name(catalogue, id))?;
            out.push_str("'")
        }
    }
}
