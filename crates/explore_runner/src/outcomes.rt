//! What is sought of a transaction, in words.

ghost use Rattle.std.specs.Prelude.{◌≡◌, ◌≢◌, ◌==◌, ◌∷◌, ◌++◌, List, codes, false, not, true, ℕ, ℤ};
ghost use Rattle.std.specs.Prelude.{Err, FitsSigned, IfNone, IfSome, Ok};
ghost use Rattle.std.specs.List.{list_all};
ghost use Rattle.std.specs.Fmt.{signed_decimal};
ghost use Rattle.std.specs.Int.{w64};
ghost use Rattle.txn_programs.specs.Names.{is_name};
ghost use Rattle.text_words.specs.Bytes.{int_value};
ghost use Rattle.text_words.specs.Numbers.{number_of};
ghost use Rattle.text_words.specs.declared.fault.ReadFault.TheVariants.{Limit};
ghost use Rattle.explore_runner.specs.Wording.{IsNoOutcome, IsNoPair, outcome_words};

use text_line_reader::{behind, int_in};
use text_words::bytes::as_text;
use text_words::numeral::Numeral;
use txn::names::is_name;

/// How a turn ends, in the words of a report's entry or by its kind alone, or that there is none.
#[derive(Clone, Copy, PartialEq, Eq)]
pub enum OutcomeWords<'a> {
    /// `returned V`, or `returned`.
    Returned(Option<i64>),
    /// `threw V`, or `threw`.
    Threw(Option<i64>),
    /// `overflow`.
    Overflow,
    /// `zerodiv`.
    ZeroDiv,
    /// `broke CONDITION`, or `broke`.
    Broke(Option<&'a str>),
    /// `parks`.
    Parks,
    /// `outside`.
    Outside,
}

impl<'a> OutcomeWords<'a> {
    /// What the text says. `None` where it says none of these: also where a value is not written as a report has it,
    /// or the condition's name is no name.
    pub fn read(text: &'a str) -> Option<OutcomeWords<'a>>
        ensures known { IfSome result (λ o. text.now ≡ outcome_words o) }
        ensures unknown { IfNone result (IsNoOutcome text.now) }
    {
        match text {
            "returned" => Some(OutcomeWords::Returned(None)),
            "threw" => Some(OutcomeWords::Threw(None)),
            "overflow" => Some(OutcomeWords::Overflow),
            "zerodiv" => Some(OutcomeWords::ZeroDiv),
            "broke" => Some(OutcomeWords::Broke(None)),
            "parks" => Some(OutcomeWords::Parks),
            "outside" => Some(OutcomeWords::Outside),
            _ => of_two(text.as_bytes()),
        }
    }
}

/// What a text of two words says.
fn of_two(text: &[u8]) -> Option<OutcomeWords<'_>>
    ensures known { IfSome result (λ o. text.now ≡ outcome_words o) }
    ensures unknown { IfNone result (IsNoPair text.now) }
{
    if let Some(value) = valued(text, "returned") {
        return Some(OutcomeWords::Returned(Some(value)));
    }
    if let Some(value) = valued(text, "threw") {
        return Some(OutcomeWords::Threw(Some(value)));
    }
    match condition(text) {
        Some(name) => Some(OutcomeWords::Broke(Some(name))),
        None => None,
    }
}

/// The value behind this word.
fn valued(text: &[u8], word: &str) -> Option<i64>
    requires { list_all (λ b. not (b == 32)) word.now ≡ true }
    ensures known { IfSome result (λ v. text.now ≡ word.now ++ 32 ∷ signed_decimal v) }
    ensures unknown { IfNone result ((v : ℤ) → FitsSigned w64 v → text.now ≢ word.now ++ 32 ∷ signed_decimal v) }
{
    match behind(text, word) {
        Some(value) => value_in(value),
        None => None,
    }
}

/// The value that is written so.
fn value_in(text: &[u8]) -> Option<i64>
    ensures known { IfSome result (λ v. text.now ≡ signed_decimal v) }
    ensures unknown { IfNone result ((v : ℤ) → FitsSigned w64 v → text.now ≢ signed_decimal v) }
{
    match int_in(text) {
        Ok(numeral) => value_of(numeral),
        Err(_) => None,
    }
}

fn value_of(numeral: Numeral<'_>) -> Option<i64>
    ensures known { IfSome result (λ v. number_of (int_value numeral.entry.text.now) ≡ Ok v) }
    ensures unknown { IfNone result (number_of (int_value numeral.entry.text.now) ≡ Err Limit) }
{
    match numeral.number() {
        Ok(value) => Some(value),
        Err(_) => None,
    }
}

/// The name of the condition behind `broke`.
fn condition(text: &[u8]) -> Option<&str>
    ensures known { IfSome result (λ name. text.now ≡ codes "broke " ++ name.now) }
    ensures unknown { IfNone result ((name : List ℕ) → is_name name ≡ true → text.now ≢ codes "broke " ++ name) }
{
    match behind(text, "broke") {
        Some(name) => name_in(name),
        None => None,
    }
}

/// The name that is written so.
#[tactic(auto, using(text_words::proofs::Ascii::name_is_ascii))]
fn name_in(text: &[u8]) -> Option<&str>
    ensures known { IfSome result (λ name. text.now ≡ name.now) }
    ensures unknown { IfNone result (is_name text.now ≡ false) }
{
    if is_name(text) {
        Some(as_text(text))
    } else {
        None
    }
}
