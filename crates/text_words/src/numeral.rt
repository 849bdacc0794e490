//! Integers as the file writes them.

ghost use Rattle.std.specs.Prelude.{◌≡◌, ◌≤◌, true, length, IfErr};
ghost use Rattle.std.specs.Str.Parse.{AllDigits, digits_value};
ghost use Rattle.text_words.specs.Bytes.{is_int, int_value};
ghost use Rattle.text_words.specs.Answers.{Gives};
ghost use Rattle.text_words.specs.Numbers.{number_of, count_of};
ghost use Rattle.text_words.specs.declared.fault.ReadFault.TheVariants.{Limit};

use crate::fault::ReadFault;

/// So many digits are fewer than 64 signed bits have room for.
const SHORT_INT: usize = 18;

/// What a few digits are worth.
fn short_value(digits: &[u8]) -> u64
    requires digits { AllDigits 10 digits.now }
    requires few { length digits.now ≤ 18 }
    ensures { result ≡ digits_value 10 digits.now }
{
    let mut value = 0;
    'digits: for digit in digits {
        value = value * 10 + u64::from(*digit - b'0');
    }
    value
}

/// What the text of an integer of a few bytes is worth.
fn short_int(text: &[u8]) -> i64
    requires written { is_int text.now ≡ true }
    requires few { length text.now ≤ 18 }
    ensures { result ≡ int_value text.now }
{
    if text[0] == b'-' {
        -(short_value(&text[1..]) as i64)
    } else {
        short_value(text) as i64
    }
}

/// The text of an integer, of any length.
#[derive(Clone, Copy)]
pub struct Numeral<'a> {
    pub text: &'a str,
    ghost written: { is_int text.now ≡ true },
}

impl Numeral<'_> {
    /// Its value, where 64 signed bits have room for it.
    pub fn number(self) -> Result<i64, ReadFault>
        ensures value { Gives (λ x. x) result (number_of (int_value self.entry.text.now)) }
        ensures kind { IfErr result (λ e. e ≡ Limit) }
    {
        if self.text.len() > SHORT_INT {
            return self.text.parse::<i64>().ok().ok_or(ReadFault::Limit);
        }
        Ok(short_int(self.text.as_bytes()))
    }

    /// Its value as a count, where 32 bits have room for it.
    pub fn count(self) -> Result<u32, ReadFault>
        ensures value { Gives (λ x. x) result (count_of (int_value self.entry.text.now)) }
        ensures kind { IfErr result (λ e. e ≡ Limit) }
    {
        let number = self.number()?;
        u32::try_from(number).ok().ok_or(ReadFault::Limit)
    }
}
