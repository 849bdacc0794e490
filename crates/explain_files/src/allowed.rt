//! The first byte that no file may have.

ghost use Rattle.std.specs.Prelude.{◌≡◌, ◌≤◌, false, length};
ghost use Rattle.std.specs.List.{prefix_len, list_all};
ghost use Rattle.text_words.specs.Bytes.{is_allowed};
ghost use Rattle.explain_files.specs.Explaining.{IsBadByte};

fn is_allowed(b: u8) -> bool
    ensures { result ≡ is_allowed b }
{
    matches!(b, b'\n' | b' '..=b'~')
}

/// How many bytes stand before the first one that no file may have.
fn allowed_len(bytes: &[u8]) -> usize
    ensures value { result ≡ prefix_len is_allowed bytes.now }
    ensures bound { result ≤ length bytes.now }
{
    bytes.iter().take_while(|b| is_allowed(**b)).count()
}

/// The place of the first byte that no file may have, nor a schedule: how many bytes stand before it.
pub fn bad_byte_place(bytes: &[u8]) -> usize
    requires { list_all is_allowed bytes.now ≡ false }
    ensures { IsBadByte bytes.now result }
{
    allowed_len(bytes)
}
