//! How the program ends: what came of the command line, and the status of each.

ghost use Rattle.std.specs.Prelude.{◌≡◌};
ghost use Rattle.command_line.specs.Statuses.{earlier_line, exit_status};

use run_interface::RunFault;
use text_words::ReadFault;

/// Which of the files that the command line names is meant.
#[derive(Clone, Copy, PartialEq, Eq)]
pub enum Source {
    /// The file whose tasks are run, judged, printed or explained.
    File,
    /// A report of it.
    Report,
    /// A schedule of it.
    Schedule,
    /// The earlier file, behind which a chapter is to go on.
    EarlierFile,
    /// The report of the earlier file.
    EarlierReport,
}

/// What came of the command line.
#[derive(Clone, Copy, PartialEq, Eq)]
pub enum Answer {
    /// A report was printed or found lawful, or the text of a world, or the help or the version that
    /// was asked for, was printed.
    Done,
    /// A report was found not to be lawful, and the verdict was printed; or more states are reached
    /// than were asked for, or no order comes to what is sought, and that was printed; or some order comes to what is
    /// denied, and it was said to what.
    Unlawful,
    /// The command line is refused, and it was said why.
    Refused,
    /// This file cannot be opened or read.
    Unreadable(Source),
    /// There is no report and no text of a world, or help that was asked for could not be printed.
    Failed(RunFault),
    /// The earlier file, behind which a chapter is to go on, spells no file, by a fault of this kind,
    /// which is never `Memory`. Nothing was printed.
    Earlier(ReadFault),
}

/// The status to end with: 0 done, 1 the report that was checked is not lawful, more states are reached than were asked
/// for, no order comes to what is sought, or some order comes to what is denied, 2 a file is refused, 3 the command
/// line is refused, 4 a file cannot be read or the output cannot be written, 5 out of memory.
pub fn status(answer: Answer) -> u8
    ensures { result ≡ exit_status answer }
{
    match answer {
        Answer::Done => 0,
        Answer::Unlawful => 1,
        Answer::Refused => 3,
        Answer::Unreadable(_) => 4,
        Answer::Failed(fault) => fault.status(),
        Answer::Earlier(_) => 2,
    }
}

/// Says on the standard error why there is no report, where that was not said yet, and tells the
/// status. Which file cannot be read is said by `tell_unread`.
pub fn told<R: Eprint>(rt: &R, answer: Answer) -> u8
    ensures { result ≡ exit_status answer }
{
    // The status says it too, where the standard error does not take the words.
    let _unheard = match answer {
        Answer::Done | Answer::Unlawful | Answer::Refused | Answer::Unreadable(_) => Ok(()),
        Answer::Failed(fault) => rt.eprintln(fault.line()),
        Answer::Earlier(kind) => rt.eprintln(earlier_line(kind)),
    };
    status(answer)
}

/// The line that says why the earlier file is refused, without its newline.
fn earlier_line(kind: ReadFault) -> &'static str
    ensures { result.now ≡ earlier_line kind }
{
    match kind {
        ReadFault::TooLong => "stm: earlier file: F1 TooLong",
        ReadFault::BadByte => "stm: earlier file: F2 BadByte",
        ReadFault::Shape => "stm: earlier file: F3 Shape",
        ReadFault::Name => "stm: earlier file: F4 Name",
        ReadFault::Limit => "stm: earlier file: F5 Limit",
        ReadFault::Broken => "stm: earlier file: F7 Broken",
        ReadFault::Memory => "stm: out of memory",
    }
}
