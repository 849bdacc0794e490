//! Bytes as lines, and a line as words.

ghost use Rattle.std.specs.Prelude.{◌≡◌, ◌<◌, ◌==◌, IfSome, IfErr, length, position};
ghost use Rattle.text_words.specs.Answers.{Gives};
ghost use Rattle.text_words.specs.declared.fault.ReadFault.TheVariants.{Shape};
ghost use Rattle.text_line_reader.specs.Lines.{parted, lines, first_line};
ghost use Rattle.text_line_reader.specs.Words.{first_word};
ghost use Rattle.text_line_reader.specs.Rows.{end_at};
ghost use Rattle.text_line_reader.specs.View.{view_parts, view_line};

use text_words::ReadFault;

/// The place of the first such byte.
fn place_of(bytes: &[u8], sep: u8) -> Option<usize>
    ensures { result ≡ position (λ b. b == sep) bytes.now }
{
    bytes.iter().position(|b| *b == sep)
}

/// What stands before the first such byte, and what behind it.
pub fn part(bytes: &[u8], sep: u8) -> Option<(&[u8], &[u8])>
    ensures value { view_parts result ≡ parted sep bytes.now }
    ensures shorter { IfSome result (λ x. length x.1.now < length bytes.now) }
{
    match place_of(bytes, sep) {
        Some(place) => {
            let (front, back) = bytes.split_at(place);
            Some((front, &back[1..]))
        }
        None => None,
    }
}

/// The first line, without its newline, and what stands behind it.
pub fn next_line(bytes: &[u8]) -> Option<(&[u8], &[u8])>
    ensures value { view_line result ≡ first_line (lines bytes.now) }
    ensures shorter { IfSome result (λ x. length x.1.now < length bytes.now) }
{
    part(bytes, b'\n')
}

/// The first word of a line, and the words behind it.
#[tactic(auto, unfolding(crate::specs::Words::first_word))]
pub fn first_word(text: &[u8]) -> Result<(&[u8], &[u8]), ReadFault>
    ensures value { Gives (λ x. (x.0.now, x.1.now)) result (first_word text.now) }
    ensures kind { IfErr result (λ e. e ≡ Shape) }
{
    part(text, b' ').ok_or(ReadFault::Shape)
}

/// Refuses, by the shape, where a byte is left.
#[tactic(auto, unfolding(crate::specs::Rows::end_at))]
pub fn end(bytes: &[u8]) -> Result<(), ReadFault>
    ensures value { Gives (λ x. x) result (end_at (lines bytes.now)) }
    ensures kind { IfErr result (λ e. e ≡ Shape) }
{
    if bytes.is_empty() {
        Ok(())
    } else {
        Err(ReadFault::Shape)
    }
}
