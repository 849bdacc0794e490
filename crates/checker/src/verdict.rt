//! The verdict on a report.

ghost use Rattle.std.specs.Prelude.{◌≡◌};
ghost use Rattle.checker.specs.Lines.{bad_line, line_of, number_of};

/// A part of what makes a report lawful. They are judged in this order.
#[derive(Clone, Copy, Debug, PartialEq, Eq)]
pub enum Part {
    /// The bytes are the text of a report that fits the file.
    Text,
    /// The base: where its number is 0, the initial values with versions 0; no version above the
    /// number; and each standing condition true on the values.
    Base,
    /// The entries: each has the next number, and the outcome of the transaction that its line
    /// names.
    Entries,
    /// The present number, values and versions: those at the end of the replay.
    Present,
    /// The tasks: each on at most one line, with its own transaction, parked ones and those given
    /// up in ascending order, and all accounted for.
    Tasks,
    /// The parked tasks: each one's transaction retries on the present values.
    Parked,
}

impl Part {
    /// Its place in the order, from 1 to 6.
    pub fn number(self) -> u8
        ensures { result ≡ number_of self }
    {
        match self {
            Part::Text => 1,
            Part::Base => 2,
            Part::Entries => 3,
            Part::Present => 4,
            Part::Tasks => 5,
            Part::Parked => 6,
        }
    }
}

/// Whether a report is lawful for a file.
#[derive(Clone, Copy, Debug, PartialEq, Eq)]
pub enum Verdict {
    Good,
    /// This part does not hold, and all before it do.
    Bad(Part),
}

impl Verdict {
    /// The line that the program prints, with its newline: `good`, or `bad` and the number of the
    /// part. It is a fixed text and takes no memory.
    pub fn line(&self) -> &'static str
        ensures { result.now ≡ line_of self.now }
    {
        match self {
            Verdict::Good => "good\n",
            Verdict::Bad(part) => bad_line(*part),
        }
    }
}

fn bad_line(part: Part) -> &'static str
    ensures { result.now ≡ bad_line part }
{
    match part {
        Part::Text => "bad 1\n",
        Part::Base => "bad 2\n",
        Part::Entries => "bad 3\n",
        Part::Present => "bad 4\n",
        Part::Tasks => "bad 5\n",
        Part::Parked => "bad 6\n",
    }
}
