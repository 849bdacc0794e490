//! Where a token begins, and how long it is.

ghost use Rattle.std.specs.Prelude.{◌≡◌, ◌<◌, ◌≤◌, ℕ, [], length, take, drop};
ghost use Rattle.std.specs.List.{prefix_len};
ghost use Rattle.text_words.specs.Bytes.{is_blank, is_atom_byte, is_in_line};
ghost use Rattle.text_words.specs.Tokens.{tokens};
ghost use Rattle.explain_files.specs.Tokens.{BeginsToken, IsApart, is_parenthesis};

fn is_blank(b: u8) -> bool
    ensures { result ≡ is_blank b }
{
    matches!(b, b'\n' | b' ')
}

fn is_parenthesis(b: u8) -> bool
    ensures { result ≡ is_parenthesis b }
{
    matches!(b, b'(' | b')')
}

fn is_atom_byte(b: u8) -> bool
    ensures { result ≡ is_atom_byte b }
{
    !matches!(b, b'\n' | b' ' | b'(' | b')' | b';')
}

/// How many bytes at the front an atom may have.
pub(crate) fn atom_len(bytes: &[u8]) -> usize
    ensures value { result ≡ prefix_len is_atom_byte bytes.now }
    ensures bound { result ≤ length bytes.now }
{
    bytes.iter().take_while(|b| is_atom_byte(**b)).count()
}

fn line_len(bytes: &[u8]) -> usize
    ensures value { result ≡ prefix_len is_in_line bytes.now }
    ensures bound { result ≤ length bytes.now }
{
    bytes.iter().take_while(|b| **b != b'\n').count()
}

/// How many bytes of a blank or of a comment stand first; none where a token begins or nothing is left.
#[tactic(auto, using(crate::proofs::Cuts::gaps))]
fn gap_piece(bytes: &[u8]) -> usize
    ensures bound { result ≤ length bytes.now }
    ensures same { tokens (drop result bytes.now) ≡ tokens bytes.now }
    ensures nothing { tokens (take result bytes.now) ≡ [] }
    ensures apart { IsApart bytes.now result }
    ensures none { result ≡ 0 → BeginsToken bytes.now }
{
    match bytes {
        [b, ..] if is_blank(*b) => 1,
        [b';', after @ ..] => line_len(after) + 1,
        _ => 0,
    }
}

/// The place of the next token from this place on, or of the end.
#[tactic(auto, using(crate::proofs::Cuts::apart_on, crate::proofs::Cuts::still_front))]
pub(crate) fn token_place(bytes: &[u8], from: usize) -> usize
    requires within { from ≤ length bytes.now }
    requires apart { IsApart bytes.now from }
    ensures bound { result ≤ length bytes.now }
    ensures behind { from ≤ result }
    ensures same { tokens (drop result bytes.now) ≡ tokens (drop from bytes.now) }
    ensures before { tokens (take result bytes.now) ≡ tokens (take from bytes.now) }
    ensures apart { IsApart bytes.now result }
    ensures begins { BeginsToken (drop result bytes.now) }
{
    let mut at = from;
    'gaps: loop {
        let piece = gap_piece(&bytes[at..]);
        if piece == 0 {
            return at;
        }
        at += piece;
    }
}

/// How many bytes the first token has, where one begins.
#[tactic(auto, using(crate::proofs::Cuts::first_tokens))]
pub(crate) fn token_len(bytes: &[u8]) -> usize
    requires { BeginsToken bytes.now }
    ensures bound { result ≤ length bytes.now }
    ensures some { 0 < length bytes.now → 0 < result }
    ensures one { tokens (take result bytes.now) ≡ take 1 (tokens bytes.now) }
    ensures rest { tokens (drop result bytes.now) ≡ drop 1 (tokens bytes.now) }
    ensures apart { IsApart bytes.now result }
{
    match bytes {
        [] => 0,
        [b, ..] if is_parenthesis(*b) => 1,
        _ => atom_len(bytes),
    }
}
