//! `stm explore --find`: the bytes of a file in, the text of a report that comes to what is sought and a status out.

ghost use Rattle.std.specs.Prelude.{◌≡◌, ◌+◌, true, None};
ghost use Rattle.run_interface.specs.Counts.{FewFailed};
ghost use Rattle.commands.specs.Files.{failed_calls};
ghost use Rattle.commands.specs.Finding.{AfterWords, FoundBytes, FoundFile};

use crate::reading::{file_bytes_of, opened};
use command_line::{Answer, Find};
use explore_runner::{OutcomeWords, Sighted, find_bytes};
use run_interface::{Limit, Sink};
use std::io::Read;
use std::rt::Files;

/// Writes to the sink the report of a run of the file at the path that comes to what is sought. Words that say no
/// outcome are told to the standard error before the file is looked at.
pub fn find_as<R: Files + Eprint + AllocGlobal, S: Sink>(
    rt: &R,
    path: &str,
    limit: Limit,
    find: Find<'_>,
    sink: &mut S,
) -> Answer
    requires { FewFailed (S.failed sink.old) }
    ensures found { AfterWords find.entry.outcome.now
        (λ o. FoundFile None limit find.entry.transaction.now o (S.bytes sink.old) (S.bytes sink.new) result)
        (S.bytes sink.old) (S.bytes sink.new) result }
    ensures report { result ≡ Answer.Done → S.flushed sink.new ≡ true }
    ensures more { result ≡ Answer.Unlawful → S.flushed sink.new ≡ true }
    ensures failures { S.failed sink.new ≡ S.failed sink.old + failed_calls result }
{
    match OutcomeWords::read(find.outcome) {
        Some(outcome) => find_file(rt, path, limit, find.transaction, outcome, sink),
        None => no_such_outcome(rt, find.outcome),
    }
}

/// Writes to the sink the report of a run of the file at the path that comes to such a turn of the transaction of this
/// name.
pub fn find_file<R: Files + Eprint + AllocGlobal, S: Sink>(
    rt: &R,
    path: &str,
    limit: Limit,
    transaction: &str,
    outcome: OutcomeWords<'_>,
    sink: &mut S,
) -> Answer
    requires { FewFailed (S.failed sink.old) }
    ensures found { FoundFile None limit transaction.now outcome.entry (S.bytes sink.old) (S.bytes sink.new) result }
    ensures report { result ≡ Answer.Done → S.flushed sink.new ≡ true }
    ensures more { result ≡ Answer.Unlawful → S.flushed sink.new ≡ true }
    ensures failures { S.failed sink.new ≡ S.failed sink.old + failed_calls result }
{
    match opened(rt, path) {
        Ok(file) => find_input(rt, file, limit, transaction, outcome, sink),
        Err(answer) => answer,
    }
}

/// The same of the file that a reader has.
pub fn find_input<R: Eprint + AllocGlobal, I: Read + Drop, S: Sink>(
    rt: &R,
    input: I,
    limit: Limit,
    transaction: &str,
    outcome: OutcomeWords<'_>,
    sink: &mut S,
) -> Answer
    requires { FewFailed (S.failed sink.old) }
    ensures found { FoundFile (I.remaining input) limit transaction.now outcome.entry
        (S.bytes sink.old) (S.bytes sink.new) result }
    ensures report { result ≡ Answer.Done → S.flushed sink.new ≡ true }
    ensures more { result ≡ Answer.Unlawful → S.flushed sink.new ≡ true }
    ensures failures { S.failed sink.new ≡ S.failed sink.old + failed_calls result }
{
    match file_bytes_of(rt.alloc(), input) {
        Ok(bytes) => found(rt, bytes.as_slice(), limit, transaction, outcome, sink),
        Err(answer) => answer,
    }
}

/// The same of the file of these bytes.
fn found<R: Eprint + AllocGlobal, S: Sink>(
    rt: &R,
    bytes: &[u8],
    limit: Limit,
    transaction: &str,
    outcome: OutcomeWords<'_>,
    sink: &mut S,
) -> Answer
    requires { FewFailed (S.failed sink.old) }
    ensures found { FoundBytes limit transaction.now outcome.entry bytes.now
        (S.bytes sink.old) (S.bytes sink.new) result }
    ensures report { result ≡ Answer.Done → S.flushed sink.new ≡ true }
    ensures more { result ≡ Answer.Unlawful → S.flushed sink.new ≡ true }
    ensures failures { S.failed sink.new ≡ S.failed sink.old + failed_calls result }
{
    match find_bytes(rt.alloc(), bytes, limit, transaction, outcome, sink) {
        Ok(Sighted::Report) => Answer::Done,
        Ok(Sighted::Never) => Answer::Unlawful,
        Ok(Sighted::Beyond) => Answer::Unlawful,
        Ok(Sighted::NoTransaction) => refused(rt, "stm: there is no such transaction"),
        Ok(Sighted::NoCondition) => refused(rt, "stm: there is no such condition"),
        Err(fault) => Answer::Failed(fault),
    }
}

/// Says that no outcome is written so, with the one that may be meant: no two of them begin with the same letter,
/// but `overflow` and `outside`.
fn no_such_outcome<R: Eprint>(rt: &R, outcome: &str) -> Answer
    ensures { result ≡ Answer.Refused }
{
    let line = match outcome.as_bytes() {
        [b'r', ..] => "stm: there is no such outcome; did you mean returned?",
        [b't', ..] => "stm: there is no such outcome; did you mean threw?",
        [b'o', b'u', ..] => "stm: there is no such outcome; did you mean outside?",
        [b'o', ..] => "stm: there is no such outcome; did you mean overflow?",
        [b'z', ..] => "stm: there is no such outcome; did you mean zerodiv?",
        [b'b', ..] => "stm: there is no such outcome; did you mean broke?",
        [b'p', ..] => "stm: there is no such outcome; did you mean parks?",
        _ => "stm: there is no such outcome",
    };
    refused(rt, line)
}

/// Says what there is not.
fn refused<R: Eprint>(rt: &R, line: &str) -> Answer
    ensures { result ≡ Answer.Refused }
{
    // The status says it too, where the standard error does not take the words.
    let _unheard = rt.eprintln(line);
    Answer::Refused
}
