//! Single tokens, each with the bytes behind it.

ghost use Rattle.std.specs.Prelude.{◌≡◌, ◌<◌, IfOk, IfErr, length};
ghost use Rattle.text_words.specs.Bytes.{int_value};
ghost use Rattle.text_words.specs.Tokens.{tokens};
ghost use Rattle.text_words.specs.TokenView.{view};
ghost use Rattle.text_words.specs.Answers.{Gives};
ghost use Rattle.text_words.specs.TokenReading.{next_at, open_at, close_at, name_at, int_at, word_at, form_at, begins};
ghost use Rattle.text_words.specs.TokenReading.{is_open};
ghost use Rattle.text_words.specs.declared.fault.ReadFault.TheVariants.{Shape};

use crate::fault::ReadFault;
use crate::lexer::{Token, int_at, name_at, next_token, token_start};
use crate::numeral::Numeral;

/// The next token.
pub fn token_of(bytes: &[u8]) -> Result<(Token<'_>, &[u8]), ReadFault>
    ensures value { Gives (λ x. (view x.0, tokens x.1.now)) result (next_at (tokens bytes.now)) }
    ensures shorter { IfOk result (λ x. length x.1.now < length bytes.now) }
    ensures kind { IfErr result (λ e. e ≡ Shape) }
{
    next_token(bytes).ok_or(ReadFault::Shape)
}

/// An opening parenthesis.
#[inline(always)]
pub fn open(bytes: &[u8]) -> Result<&[u8], ReadFault>
    ensures value { Gives (λ x. tokens x.now) result (open_at (tokens bytes.now)) }
    ensures shorter { IfOk result (λ x. length x.now < length bytes.now) }
    ensures kind { IfErr result (λ e. e ≡ Shape) }
{
    match token_start(bytes).split_first() {
        Some((b'(', rest)) => Ok(rest),
        _ => Err(ReadFault::Shape),
    }
}

/// A closing parenthesis.
#[inline(always)]
pub fn close(bytes: &[u8]) -> Result<&[u8], ReadFault>
    ensures value { Gives (λ x. tokens x.now) result (close_at (tokens bytes.now)) }
    ensures shorter { IfOk result (λ x. length x.now < length bytes.now) }
    ensures kind { IfErr result (λ e. e ≡ Shape) }
{
    match token_start(bytes).split_first() {
        Some((b')', rest)) => Ok(rest),
        _ => Err(ReadFault::Shape),
    }
}

/// A name.
#[inline(always)]
pub fn name_of(bytes: &[u8]) -> Result<(&str, &[u8]), ReadFault>
    ensures value { Gives (λ x. (x.0.now, tokens x.1.now)) result (name_at (tokens bytes.now)) }
    ensures shorter { IfOk result (λ x. length x.1.now < length bytes.now) }
    ensures kind { IfErr result (λ e. e ≡ Shape) }
{
    match name_at(token_start(bytes)) {
        Some((name, rest)) => Ok((name, rest)),
        None => Err(ReadFault::Shape),
    }
}

/// An integer.
#[inline(always)]
pub fn int_of(bytes: &[u8]) -> Result<(Numeral<'_>, &[u8]), ReadFault>
    ensures value { Gives (λ x. (int_value x.0.text.now, tokens x.1.now)) result (int_at (tokens bytes.now)) }
    ensures shorter { IfOk result (λ x. length x.1.now < length bytes.now) }
    ensures kind { IfErr result (λ e. e ≡ Shape) }
{
    match int_at(token_start(bytes)) {
        Some((numeral, rest)) => Ok((numeral, rest)),
        None => Err(ReadFault::Shape),
    }
}

/// Whether a parenthesis opens.
#[tactic(auto, unfolding(crate::specs::TokenReading::is_open))]
pub fn is_open(bytes: &[u8]) -> bool
    ensures { result ≡ is_open (tokens bytes.now) }
{
    open(bytes).is_ok()
}

/// A parenthesis and a word.
#[inline(always)]
#[tactic(auto, unfolding(crate::specs::TokenReading::word_at))]
pub fn word_of(bytes: &[u8]) -> Result<(&str, &[u8]), ReadFault>
    ensures value { Gives (λ x. (x.0.now, tokens x.1.now)) result (word_at (tokens bytes.now)) }
    ensures shorter { IfOk result (λ x. length x.1.now < length bytes.now) }
    ensures kind { IfErr result (λ e. e ≡ Shape) }
{
    let inside = open(bytes)?;
    name_of(inside)
}

/// A parenthesis and this word.
#[inline(always)]
#[tactic(auto, unfolding(crate::specs::TokenReading::form_at))]
pub fn form<'a>(bytes: &'a [u8], wanted: &str) -> Result<&'a [u8], ReadFault>
    ensures value { Gives (λ x. tokens x.now) result (form_at wanted.now (tokens bytes.now)) }
    ensures shorter { IfOk result (λ x. length x.now < length bytes.now) }
    ensures kind { IfErr result (λ e. e ≡ Shape) }
{
    let (word, rest) = word_of(bytes)?;
    if word == wanted {
        Ok(rest)
    } else {
        Err(ReadFault::Shape)
    }
}

/// Whether a parenthesis and this word stand next.
#[tactic(auto, unfolding(crate::specs::TokenReading::begins))]
pub fn begins(bytes: &[u8], wanted: &str) -> bool
    ensures { result ≡ begins wanted.now (tokens bytes.now) }
{
    form(bytes, wanted).is_ok()
}
