//! What the process asks for, and what is shown where that is no command.

ghost use Rattle.std.specs.Prelude.{◌≡◌, ◌≢◌, ◌⊎◌, IfErr};
ghost use Rattle.clap.specs.Values.{kind_of};
ghost use Rattle.command_line.specs.NoCommand.{IsNoCommand};

use crate::words::{Request, parse};
use crate::{Answer, wordless};
use clap::error::ErrorKind;
use run_interface::RunFault;
use std::rt::Env;
use std::{env, io};

/// The words of the command line. A word that is not UTF-8 is refused: the standard library takes
/// paths as UTF-8 alone, so a file of such a name could not be opened. `Err`: it was said why there
/// are none, unless memory ran out.
pub fn words_given<R: Env + Eprint + AllocGlobal>(rt: &R) -> Result<Vec<String>, Answer>
    ensures { IfErr result IsNoCommand }
{
    match words_of(rt) {
        Ok(words) => Ok(words),
        Err(error) => Err(wordless(rt, &error)),
    }
}

fn words_of<R: Env + AllocGlobal>(rt: &R) -> io::Result<Vec<String>> {
    Ok(env::args(rt)?.collect(rt.alloc())?)
}

/// The command that the words ask for. `Err`: they ask for none, and help or the version was shown,
/// or what is wrong with them. It is a call of its own, so that its stack is given back before the command
/// runs.
#[inline(never)]
pub fn asked<'a, R: Print + Eprint + AllocGlobal>(
    rt: &R,
    words: &'a [String],
) -> Result<Request<'a>, Answer>
    ensures { IfErr result IsNoCommand }
{
    match parse(rt.alloc(), words) {
        Ok(request) => Ok(request),
        Err(error) => Err(shown(rt, &error)),
    }
}

/// Shows help or the version, or what is wrong with the command line.
fn shown<R: Print + Eprint>(rt: &R, error: &clap::Error) -> Answer
    ensures memory { kind_of error.now ≡ ErrorKind.OutOfMemory → result ≡ Answer.Failed RunFault.Memory }
    ensures help { kind_of error.now ≡ ErrorKind.DisplayHelp
        → (result ≡ Answer.Done) ⊎ (result ≡ Answer.Failed RunFault.Output) }
    ensures version { kind_of error.now ≡ ErrorKind.DisplayVersion
        → (result ≡ Answer.Done) ⊎ (result ≡ Answer.Failed RunFault.Output) }
    ensures refused { kind_of error.now ≢ ErrorKind.OutOfMemory → kind_of error.now ≢ ErrorKind.DisplayHelp
        → kind_of error.now ≢ ErrorKind.DisplayVersion → result ≡ Answer.Refused }
    ensures command { IsNoCommand result }
{
    if error.kind() == ErrorKind::OutOfMemory {
        return Answer::Failed(RunFault::Memory);
    }
    let asked = !error.use_stderr();
    match error.print(rt) {
        Ok(()) if asked => Answer::Done,
        Err(_) if asked => Answer::Failed(RunFault::Output),
        _ => Answer::Refused,
    }
}
