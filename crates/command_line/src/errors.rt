//! What an error of reading is answered with.

ghost use Rattle.std.specs.IoError.{error_kind};
ghost use Rattle.command_line.specs.Errors.{Unread, Wordless};

use crate::answer::{Answer, Source};
use run_interface::RunFault;
use std::io;

/// Why this file was not read: it cannot be, or there is no memory to read it into.
pub fn unread(error: &io::Error, source: Source) -> Answer
    ensures { Unread source (error_kind error.now) result }
{
    if error.kind() == io::ErrorKind::OutOfMemory {
        return Answer::Failed(RunFault::Memory);
    }
    Answer::Unreadable(source)
}

/// Says why there are no words.
pub fn wordless<R: Eprint>(rt: &R, error: &io::Error) -> Answer
    ensures { Wordless (error_kind error.now) result }
{
    if error.kind() == io::ErrorKind::OutOfMemory {
        return Answer::Failed(RunFault::Memory);
    }
    // The status says it too, where the standard error does not take the words.
    let _unheard = rt.eprintln("stm: the command line is not UTF-8");
    Answer::Refused
}
