//! Which bytes make a number.

ghost use Rattle.std.specs.Prelude.{◌≡◌};
ghost use Rattle.text_line_reader.specs.Words.{is_number};

use text_words::bytes::is_int;

/// Whether the text is an integer without a sign.
pub fn is_number(text: &[u8]) -> bool
    ensures { result ≡ is_number text.now }
{
    match text {
        [b'-', ..] => false,
        _ => is_int(text),
    }
}
