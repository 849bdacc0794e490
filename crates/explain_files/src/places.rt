//! Places in a text, as lines and columns.

ghost use Rattle.std.specs.Prelude.{◌≡◌, ◌+◌, ◌≤◌, ◌==◌, length, take, reverse, count_by};
ghost use Rattle.std.specs.List.{prefix_len};
ghost use Rattle.text_words.specs.Bytes.{is_in_line};
ghost use Rattle.explain_files.specs.Places.{line_at, column_at};

/// A line and a column, both from 1, in bytes.
#[derive(Clone, Copy, PartialEq, Eq)]
pub struct Position {
    pub line: usize,
    pub column: usize,
}

/// How many newlines there are.
fn newlines(bytes: &[u8]) -> usize
    ensures value { result ≡ count_by (λ b. b == 10) bytes.now }
    ensures bound { result ≤ length bytes.now }
{
    bytes.iter().filter(|b| **b == b'\n').count()
}

/// How many bytes stand behind the last newline.
fn behind_newline(bytes: &[u8]) -> usize
    ensures value { result ≡ prefix_len is_in_line (reverse bytes.now) }
    ensures bound { result ≤ length bytes.now }
{
    bytes.iter().rev().take_while(|b| **b != b'\n').count()
}

/// The line and the column of a place, which is how many bytes stand before it. The line is one more
/// than how many newlines stand before it, the column one more than how many bytes stand between
/// the last of them and the place.
pub fn position_of(bytes: &[u8], place: usize) -> Position
    requires { place ≤ length bytes.now }
    ensures line { result.line ≡ line_at bytes.now place }
    ensures column { result.column ≡ column_at bytes.now place }
{
    let before = &bytes[..place];
    Position {
        line: newlines(before) + 1,
        column: behind_newline(before) + 1,
    }
}
