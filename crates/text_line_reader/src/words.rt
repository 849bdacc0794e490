//! Single words.

ghost use Rattle.std.specs.Prelude.{◌≡◌, IfErr};
ghost use Rattle.std.specs.Str.{bytes_eq};
ghost use Rattle.text_words.specs.Answers.{Gives};
ghost use Rattle.text_words.specs.declared.fault.ReadFault.TheVariants.{Shape};
ghost use Rattle.text_line_reader.specs.Words.{name_in, int_in, number_in, expect, behind, after_word, begins};
ghost use Rattle.text_line_reader.specs.View.{view_text};

use crate::bytes::is_number;
use crate::lines::part;
use crate::numeral::Count;
use text_words::ReadFault;
use text_words::bytes::{as_text, is_int};
use text_words::numeral::Numeral;
use txn::names::is_name;

/// A name.
#[tactic(auto, using(text_words::proofs::Ascii::name_is_ascii), unfolding(crate::specs::Words::name_in))]
pub fn name_in(text: &[u8]) -> Result<&str, ReadFault>
    ensures value { Gives (λ x. x.now) result (name_in text.now) }
    ensures kind { IfErr result (λ e. e ≡ Shape) }
{
    if is_name(text) {
        Ok(as_text(text))
    } else {
        Err(ReadFault::Shape)
    }
}

/// An integer.
#[tactic(auto, using(text_words::proofs::Ascii::int_is_ascii), unfolding(crate::specs::Words::int_in))]
pub fn int_in(text: &[u8]) -> Result<Numeral<'_>, ReadFault>
    ensures value { Gives (λ x. x.text.now) result (int_in text.now) }
    ensures kind { IfErr result (λ e. e ≡ Shape) }
{
    if is_int(text) {
        Ok(Numeral {
            text: as_text(text),
        })
    } else {
        Err(ReadFault::Shape)
    }
}

/// An integer without a sign.
#[tactic(auto, using(crate::proofs::Numbers::number_is_ascii), unfolding(crate::specs::Words::number_in))]
pub fn number_in(text: &[u8]) -> Result<Count<'_>, ReadFault>
    ensures value { Gives (λ x. x.text.now) result (number_in text.now) }
    ensures kind { IfErr result (λ e. e ≡ Shape) }
{
    if is_number(text) {
        Ok(Count {
            text: as_text(text),
        })
    } else {
        Err(ReadFault::Shape)
    }
}

/// Whether the bytes are this word.
pub fn is_word(text: &[u8], wanted: &str) -> bool
    ensures { result ≡ bytes_eq text.now wanted.now }
{
    text == wanted.as_bytes()
}

/// This word.
#[tactic(auto, unfolding(crate::specs::Words::expect))]
pub fn expect(text: &[u8], wanted: &str) -> Result<(), ReadFault>
    ensures value { Gives (λ x. x) result (expect wanted.now text.now) }
    ensures kind { IfErr result (λ e. e ≡ Shape) }
{
    if is_word(text, wanted) {
        Ok(())
    } else {
        Err(ReadFault::Shape)
    }
}

/// The words behind the first one, where that is this word.
#[tactic(auto, unfolding(crate::specs::Words::behind))]
pub fn behind<'a>(text: &'a [u8], wanted: &str) -> Option<&'a [u8]>
    ensures { view_text result ≡ behind wanted.now text.now }
{
    match part(text, b' ') {
        Some((word, rest)) if is_word(word, wanted) => Some(rest),
        _ => None,
    }
}

/// The words behind the first one, which has to be this word.
#[tactic(auto, unfolding(crate::specs::Words::after_word))]
pub(crate) fn after_word<'a>(text: &'a [u8], wanted: &str) -> Result<&'a [u8], ReadFault>
    ensures value { Gives (λ x. x.now) result (after_word wanted.now text.now) }
    ensures kind { IfErr result (λ e. e ≡ Shape) }
{
    behind(text, wanted).ok_or(ReadFault::Shape)
}

/// Whether the line begins with this word.
#[tactic(auto, unfolding(crate::specs::Words::begins))]
pub fn begins(text: &[u8], wanted: &str) -> bool
    ensures { result ≡ begins wanted.now text.now }
{
    behind(text, wanted).is_some()
}
