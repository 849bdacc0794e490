//! The end of a line, made from its last byte to its first.

ghost use Rattle.std.specs.Prelude.{◌≡◌, ℕ, ◌+◌, ◌<◌, ◌≤◌, List, [], ◌∷◌, ◌++◌, length, drop};
ghost use Rattle.std.specs.Fmt.{decimal, signed_decimal};
ghost use Rattle.std.specs.Str.{IsUtf8};
ghost use Rattle.text_report_printer.specs.declared.line.TheConstants.{LINE_ROOM};
ghost use Rattle.text_report_printer.specs.ReportFits.{OutcomeFits};
ghost use Rattle.text_report_printer.specs.ReportText.{outcome_text};

use crate::names::always_name;
use itoa::write_digits;
use std::marker::Model;
use std::str;
use txn::{Catalogue, Fault, Outcome};

/// How many bytes it has room for: more than a line of a report has.
const LINE_ROOM: usize = 128;

/// The end of a line, which grows at its front. A clause sees its text.
#[derive(Drop)]
pub(crate) struct LineEnd {
    bytes: [u8; LINE_ROOM],
    start: usize,
}

impl Model for LineEnd {
    ghost Value = { List ℕ };

    ghost view = { λ l. drop l.start l.bytes };

    ghost invariant = { λ l. (l.start ≤ 128) × IsUtf8 (drop l.start l.bytes) };
}

impl LineEnd {
    /// Nothing yet.
    #[inline]
    pub(crate) fn new() -> LineEnd
        ensures { result ≡ [] }
    {
        LineEnd {
            bytes: [0; LINE_ROOM],
            start: LINE_ROOM,
        }
    }

    /// Puts a byte of ASCII before it.
    #[inline]
    pub(crate) fn byte(&mut self, byte: u8)
        requires room { length self.old < 128 }
        requires ascii { byte < 128 }
        ensures text { self.new ≡ byte ∷ self.old }
        ensures len { length self.new ≡ length self.old + 1 }
    {
        self.start -= 1;
        self.bytes[self.start] = byte;
    }

    /// Puts a word before it.
    #[inline]
    pub(crate) fn word(&mut self, word: &str)
        requires room { length word.now + length self.old ≤ 128 }
        ensures text { self.new ≡ word.now ++ self.old }
        ensures len { length self.new ≡ length word.now + length self.old }
    {
        let end = self.start;
        self.start = end - word.len();
        self.bytes[self.start..end].copy_from_slice(word.as_bytes());
    }

    /// Puts the digits of a number before it.
    #[inline]
    pub(crate) fn number(&mut self, number: u64)
        requires room { length self.old + 20 ≤ 128 }
        ensures text { self.new ≡ decimal number ++ self.old }
        ensures at_most { length self.new ≤ length self.old + 20 }
    {
        self.start = write_digits(number, &mut self.bytes, self.start);
    }

    /// Puts the digits of a number before it, and the sign of one below zero before these.
    #[inline]
    pub(crate) fn signed(&mut self, number: i64)
        requires room { length self.old + 21 ≤ 128 }
        ensures text { self.new ≡ signed_decimal number ++ self.old }
        ensures at_most { length self.new ≤ length self.old + 21 }
    {
        self.number(number.unsigned_abs());
        if number < 0 {
            self.byte(b'-');
        }
    }

    /// Puts how a transaction ended before it.
    #[inline]
    pub(crate) fn outcome(&mut self, catalogue: &Catalogue, outcome: Outcome)
        requires room { length self.old + 38 ≤ 128 }
        ensures text { self.new ≡ outcome_text catalogue.now outcome ++ self.old }
        ensures at_most { length self.new ≤ length self.old + 38 }
        ensures fits { OutcomeFits outcome }
    {
        match outcome {
            Outcome::Returned(value) => {
                self.signed(value);
                self.word("returned ");
            }
            Outcome::Thrown(Fault::User(value)) => {
                self.signed(value);
                self.word("threw ");
            }
            Outcome::Thrown(Fault::Overflow) => self.word("overflow"),
            Outcome::Thrown(Fault::DivideByZero) => self.word("zerodiv"),
            Outcome::Thrown(Fault::Broken(id)) => {
                self.word(always_name(catalogue, id));
                self.word("broke ");
            }
            Outcome::Thrown(Fault::Outside) => self.word("outside"),
            Outcome::Retries => self.word("retries"),
        }
    }

    /// The text.
    #[inline]
    pub(crate) fn text(&self) -> &str
        ensures value { result.now ≡ self.now }
        ensures at_most { length result.now ≤ 128 }
    {
        let text = &self.bytes[self.start..];
        // What was put is text, so it is not judged again, byte by byte.
        unsafe { str::from_utf8_unchecked(text) }
    }
}
