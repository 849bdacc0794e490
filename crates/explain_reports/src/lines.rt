//! The lines of bytes, by their place.

ghost use Rattle.std.specs.Prelude.{◌≡◌};
ghost use Rattle.text_line_reader.specs.Lines.{lines};
ghost use Rattle.text_line_reader.specs.ReportView.{view_text};
ghost use Rattle.explain_reports.specs.Explaining.{whole_at};

use text_line_reader::next_line;

/// The line at a place counted from 0, without its newline.
pub(crate) fn line_at(bytes: &[u8], place: usize) -> Option<&[u8]>
    ensures { view_text result ≡ whole_at place (lines bytes.now) }
{
    let mut rest = bytes;
    let mut left = place;
    'lines: while left > 0 {
        match next_line(rest) {
            Some((_, more)) => rest = more,
            None => return None,
        }
        left -= 1;
    }
    match next_line(rest) {
        Some((text, _)) => Some(text),
        None => None,
    }
}
