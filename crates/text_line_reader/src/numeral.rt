//! Numbers as a report writes them.

ghost use Rattle.std.specs.Prelude.{◌≡◌, true, IfErr};
ghost use Rattle.std.specs.Str.Parse.{digits_value};
ghost use Rattle.text_words.specs.Answers.{Gives};
ghost use Rattle.text_words.specs.declared.fault.ReadFault.TheVariants.{Limit};
ghost use Rattle.text_line_reader.specs.Words.{is_number};
ghost use Rattle.text_line_reader.specs.Counts.{below};

use text_words::ReadFault;

/// The text of an integer without a sign, of any length.
#[derive(Clone, Copy)]
pub struct Count<'a> {
    pub text: &'a str,
    ghost written: { is_number text.now ≡ true },
}

impl Count<'_> {
    /// Its value, where it is below a bound.
    pub fn below(self, bound: u64) -> Result<u64, ReadFault>
        ensures value { Gives (λ x. x) result (below bound (digits_value 10 self.entry.text.now)) }
        ensures kind { IfErr result (λ e. e ≡ Limit) }
    {
        match self.text.parse::<u64>() {
            Ok(n) => {
                if n < bound {
                    Ok(n)
                } else {
                    Err(ReadFault::Limit)
                }
            }
            Err(_) => Err(ReadFault::Limit),
        }
    }
}
