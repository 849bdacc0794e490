//! Why a run did not end in a report: the program's statuses and lines.

ghost use Rattle.std.specs.Prelude.{◌≡◌};

use text_words::ReadFault;
use thiserror::Error;

/// Why a run did not end in a report, or a schedule in the text of its world. Its text is `line()`.
#[derive(Clone, Copy, Debug, PartialEq, Eq, Error)]
pub enum RunFault {
    /// The input spells no file, by a fault of this kind, which is never `Memory`. Nothing was
    /// written.
    #[error("{}", RunFault::Input(*.0).line())]
    Input(ReadFault),
    /// A growth was refused. Nothing was written.
    #[error("{}", RunFault::Memory.line())]
    Memory,
    /// A write or the flush failed, or a write took nothing. A beginning of one lawful text was
    /// written.
    #[error("{}", RunFault::Output.line())]
    Output,
    /// The file is spelled, and its schedule is the text of no moves, by a fault of this kind, which
    /// is never `Memory` nor `Broken`. Nothing was written.
    #[error("{}", RunFault::Schedule(*.0).line())]
    Schedule(ReadFault),
}

impl RunFault {
    ghost use Rattle.run_interface.specs.Statuses.{status_of, line_of};

    /// The status that the program ends with: 2 where the input is refused, 4 where the output
    /// failed, 5 where memory ran out.
    pub fn status(&self) -> u8
        ensures { result ≡ status_of self.now }
    {
        match self {
            RunFault::Input(_) | RunFault::Schedule(_) => 2,
            RunFault::Output => 4,
            RunFault::Memory => 5,
        }
    }

    /// The line that the program writes to standard error, without its newline. It is a fixed text
    /// and takes no memory.
    pub fn line(&self) -> &'static str
        ensures { result.now ≡ line_of self.now }
    {
        match self {
            RunFault::Input(kind) => input_line(*kind),
            RunFault::Output => "stm: cannot write",
            RunFault::Memory => "stm: out of memory",
            RunFault::Schedule(kind) => schedule_line(*kind),
        }
    }
}

ghost use Rattle.run_interface.specs.Statuses.{kind_line, schedule_line};

fn input_line(kind: ReadFault) -> &'static str
    ensures { result.now ≡ kind_line kind }
{
    match kind {
        ReadFault::TooLong => "stm: file: F1 TooLong",
        ReadFault::BadByte => "stm: file: F2 BadByte",
        ReadFault::Shape => "stm: file: F3 Shape",
        ReadFault::Name => "stm: file: F4 Name",
        ReadFault::Limit => "stm: file: F5 Limit",
        ReadFault::Broken => "stm: file: F7 Broken",
        ReadFault::Memory => "stm: out of memory",
    }
}

fn schedule_line(kind: ReadFault) -> &'static str
    ensures { result.now ≡ schedule_line kind }
{
    match kind {
        ReadFault::TooLong => "stm: schedule: F1 TooLong",
        ReadFault::BadByte => "stm: schedule: F2 BadByte",
        ReadFault::Shape => "stm: schedule: F3 Shape",
        ReadFault::Name => "stm: schedule: F4 Name",
        ReadFault::Limit => "stm: schedule: F5 Limit",
        ReadFault::Broken => "stm: schedule: F7 Broken",
        ReadFault::Memory => "stm: out of memory",
    }
}
