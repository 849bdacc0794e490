//! Bytes as tokens.

ghost use Rattle.std.specs.Prelude.{◌≡◌, true, false, ◌||◌, ◌==◌, ◌<◌, ◌≤◌, [], ◌∷◌, IfSome, IfNone, length};
ghost use Rattle.std.specs.List.{prefix_len, take_while};
ghost use Rattle.txn_programs.specs.Names.{is_name};
ghost use Rattle.text_words.specs.Bytes.{is_atom_byte, is_blank, is_int, is_positive};
ghost use Rattle.text_words.specs.Fronts.{IsFront};
ghost use Rattle.text_words.specs.Tokens.{atom, after, tokens};
ghost use Rattle.text_words.specs.TokenView.{view};

use crate::bytes::{as_text, atom_len, digits_len, is_atom_byte, line_len, name_len};
use crate::numeral::Numeral;

/// A parenthesis, or an atom.
#[derive(Clone, Copy)]
pub enum Token<'a> {
    Open,
    Close,
    Name(&'a str),
    Int(Numeral<'a>),
    /// An atom that is neither a name nor an integer.
    Other,
}

/// The bytes from the next token on, with no blank and no comment before it.
pub(crate) fn token_start(bytes: &[u8]) -> &[u8]
    ensures same { tokens result.now ≡ tokens bytes.now }
    ensures front { prefix_len (λ b. is_blank b || (b == 59)) result.now ≡ 0 }
    ensures within { length result.now ≤ length bytes.now }
{
    let mut rest = bytes;
    'gaps: while let Some((first, after)) = rest.split_first() {
        match *first {
            b' ' | b'\n' => rest = after,
            b';' => {
                let (_, behind) = after.split_at(line_len(after));
                rest = behind;
            }
            _ => return rest,
        }
    }
    rest
}

/// Whether no byte of an atom stands next.
fn ends_atom(bytes: &[u8]) -> bool
    ensures { result ≡ (prefix_len is_atom_byte bytes.now == 0) }
{
    match bytes {
        [] => true,
        [b, ..] => !is_atom_byte(*b),
    }
}

/// The atom at the front and what follows it, where it is a name: its bytes are looked at once.
pub(crate) fn name_at(bytes: &[u8]) -> Option<(&str, &[u8])>
    ensures none { IfNone result (is_name (take_while is_atom_byte bytes.now) ≡ false) }
    ensures name { IfSome result (λ x. is_name x.0.now ≡ true) }
    ensures atom { IfSome result (λ x. x.0.now ≡ take_while is_atom_byte bytes.now) }
    ensures rest { IfSome result (λ x. x.1.now ≡ after is_atom_byte bytes.now) }
{
    let (first, inner) = bytes.split_first()?;
    if !first.is_ascii_alphabetic() {
        return None;
    }
    let (text, rest) = bytes.split_at(1 + name_len(inner));
    if ends_atom(rest) {
        Some((as_text(text), rest))
    } else {
        None
    }
}

/// How many bytes at the front an integer from 1 on has; the atom is one where no other byte of it follows.
fn positive_len(bytes: &[u8]) -> Option<usize>
    ensures none { IfNone result (is_positive (take_while is_atom_byte bytes.now) ≡ false) }
    ensures some { IfSome result (λ n. IsFront is_positive n bytes.now) }
    ensures bound { IfSome result (λ n. n ≤ length bytes.now) }
{
    let (first, rest) = bytes.split_first()?;
    match *first {
        b'1'..=b'9' => Some(1 + digits_len(rest)),
        _ => None,
    }
}

/// The same of any integer.
fn int_len(bytes: &[u8]) -> Option<usize>
    ensures none { IfNone result (is_int (take_while is_atom_byte bytes.now) ≡ false) }
    ensures some { IfSome result (λ n. IsFront is_int n bytes.now) }
    ensures bound { IfSome result (λ n. n ≤ length bytes.now) }
{
    let (first, rest) = bytes.split_first()?;
    match *first {
        b'0' => Some(1),
        b'-' => Some(1 + positive_len(rest)?),
        _ => positive_len(bytes),
    }
}

/// The atom at the front and what follows it, where it is an integer: its bytes are looked at once.
pub(crate) fn int_at(bytes: &[u8]) -> Option<(Numeral<'_>, &[u8])>
    ensures none { IfNone result (is_int (take_while is_atom_byte bytes.now) ≡ false) }
    ensures atom { IfSome result (λ x. x.0.text.now ≡ take_while is_atom_byte bytes.now) }
    ensures rest { IfSome result (λ x. x.1.now ≡ after is_atom_byte bytes.now) }
{
    let (text, rest) = bytes.split_at(int_len(bytes)?);
    if ends_atom(rest) {
        let numeral = Numeral {
            text: as_text(text),
        };
        Some((numeral, rest))
    } else {
        None
    }
}

/// The atom at the front, and what follows it.
#[tactic(auto, unfolding(crate::specs::Tokens::atom))]
fn atom_at(bytes: &[u8]) -> (Token<'_>, &[u8])
    ensures token { view result.0 ≡ atom (take_while is_atom_byte bytes.now) }
    ensures rest { result.1.now ≡ after is_atom_byte bytes.now }
{
    if let Some((name, rest)) = name_at(bytes) {
        return (Token::Name(name), rest);
    }
    if let Some((numeral, rest)) = int_at(bytes) {
        return (Token::Int(numeral), rest);
    }
    let (_, rest) = bytes.split_at(atom_len(bytes));
    (Token::Other, rest)
}

/// The next token and what follows it, or nothing where only blanks and comments are left.
#[inline(always)]
pub fn next_token(bytes: &[u8]) -> Option<(Token<'_>, &[u8])>
    ensures none { IfNone result (tokens bytes.now ≡ []) }
    ensures some { IfSome result (λ x. tokens bytes.now ≡ view x.0 ∷ tokens x.1.now) }
    ensures shorter { IfSome result (λ x. length x.1.now < length bytes.now) }
{
    let start = token_start(bytes);
    let (first, after) = start.split_first()?;
    match *first {
        b'(' => Some((Token::Open, after)),
        b')' => Some((Token::Close, after)),
        _ => Some(atom_at(start)),
    }
}
