//! Which bytes a file has, and which of them make an atom or an integer.

ghost use Rattle.std.specs.Prelude.{◌≡◌, ◌≤◌, length};
ghost use Rattle.std.specs.List.{prefix_len, list_all};
ghost use Rattle.std.specs.Char.{is_ascii_digit};
ghost use Rattle.std.specs.Str.{IsAscii};
ghost use Rattle.txn_programs.specs.Names.{is_name_byte};
ghost use Rattle.text_words.specs.Bytes.{is_allowed, is_atom_byte, is_in_line, is_int, is_positive};

use crate::tables::{ATOM_BYTES, NAME_BYTES};
use std::str;

fn is_allowed(b: u8) -> bool
    ensures { result ≡ is_allowed b }
{
    matches!(b, b'\n' | b' '..=b'~')
}

/// Whether a file may have all these bytes. Each of them is looked at, whatever came before: so
/// many are looked at by one instruction.
pub fn are_allowed(bytes: &[u8]) -> bool
    ensures { result ≡ list_all is_allowed bytes.now }
{
    let mut allowed = true;
    'bytes: for b in bytes {
        allowed &= is_allowed(*b);
    }
    allowed
}

/// Whether the byte is part of an atom.
pub(crate) fn is_atom_byte(b: u8) -> bool
    ensures { result ≡ is_atom_byte b }
{
    ATOM_BYTES[b as usize]
}

/// How many bytes at the front an atom may have.
pub(crate) fn atom_len(bytes: &[u8]) -> usize
    ensures value { result ≡ prefix_len is_atom_byte bytes.now }
    ensures bound { result ≤ length bytes.now }
{
    bytes.iter().take_while(|b| is_atom_byte(**b)).count()
}

fn is_name_byte(b: u8) -> bool
    ensures { result ≡ is_name_byte b }
{
    NAME_BYTES[b as usize]
}

/// How many bytes at the front a name may have behind its first letter.
pub(crate) fn name_len(bytes: &[u8]) -> usize
    ensures value { result ≡ prefix_len is_name_byte bytes.now }
    ensures bound { result ≤ length bytes.now }
{
    bytes.iter().take_while(|b| is_name_byte(**b)).count()
}

fn is_in_line(b: u8) -> bool
    ensures { result ≡ is_in_line b }
{
    b != b'\n'
}

/// How many bytes stand before the next newline.
pub(crate) fn line_len(bytes: &[u8]) -> usize
    ensures value { result ≡ prefix_len is_in_line bytes.now }
    ensures bound { result ≤ length bytes.now }
{
    bytes.iter().take_while(|b| is_in_line(**b)).count()
}

/// How many digits stand at the front.
pub(crate) fn digits_len(bytes: &[u8]) -> usize
    ensures value { result ≡ prefix_len is_ascii_digit bytes.now }
    ensures bound { result ≤ length bytes.now }
{
    bytes.iter().take_while(|b| b.is_ascii_digit()).count()
}

fn are_digits(text: &[u8]) -> bool
    ensures { result ≡ list_all is_ascii_digit text.now }
{
    text.iter().all(|b| b.is_ascii_digit())
}

#[tactic(auto, unfolding(crate::specs::Bytes::is_positive))]
fn is_positive(text: &[u8]) -> bool
    ensures { result ≡ is_positive text.now }
{
    match text {
        [b'1'..=b'9', rest @ ..] => are_digits(rest),
        _ => false,
    }
}

/// Whether the text is an integer.
#[tactic(auto, unfolding(crate::specs::Bytes::is_int))]
pub fn is_int(text: &[u8]) -> bool
    ensures { result ≡ is_int text.now }
{
    match text {
        [] => false,
        [b'0', rest @ ..] => rest.is_empty(),
        [b'-', rest @ ..] => is_positive(rest),
        _ => is_positive(text),
    }
}

/// Bytes of ASCII as text.
pub fn as_text(bytes: &[u8]) -> &str
    requires { IsAscii bytes.now }
    ensures { result.now ≡ bytes.now }
{
    // What is asked says it, so the bytes are not judged again.
    unsafe { str::from_utf8_unchecked(bytes) }
}
