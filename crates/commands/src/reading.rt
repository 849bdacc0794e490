//! What is read of a file, a report or a schedule.

ghost use Rattle.std.specs.Prelude.{◌≡◌, ◌<◌, ◌≤◌, ◌+◌, ◌^◌, ◌++◌, ℕ, IfOk, IfErr, List, length};
ghost use Rattle.commands.specs.ToLimit.{most_next, count_left, left_of};
ghost use Rattle.commands.specs.Files.{IsChapterUnread, IsOneUnread, IsRead, IsReportLimit, IsReportOf, IsUnread};
ghost use Rattle.commands.specs.Files.{file_limit, schedule_limit};

use command_line::{Answer, Earlier, Source, unread};
use run_interface::{RunFault, catalogue_of};
use std::alloc::Global;
use std::io::Read;
use std::rt::Files;
use std::{fs, io};
use text_line_reader::{MAX_REPORT, MAX_SCHEDULE, max_report};
use txn_text::laws::faults_where_none_is_spelled;
use txn_text::{MAX_FILE, MAX_FILE_OF_FORM_3, announces_tables};

/// What the reader has left, of which at most one byte past the limit is read: with it, what has more
/// bytes than the limit is known to be too long. `Err` is the reader's, or out of memory.
pub fn read_up_to<I: Read + Drop>(alloc: Global, input: I, limit: usize) -> io::Result<Vec<u8>>
    requires { limit < 2 ^ 32 }
    ensures { IfOk result (λ bytes. IsRead (λ all. limit) (I.remaining input) bytes.items) }
{
    let mut bytes = Vec::new(alloc);
    input.take(limit as u64 + 1).read_to_end(&mut bytes)?;
    Ok(bytes)
}

/// A reader of a file, which gives at most one byte past the limit that its first bytes give.
#[derive(Drop)]
struct ToLimit<I> {
    inner: I,
    /// What is still to come of `(stm 3)`, or of as many other bytes.
    ahead: &'static [u8],
    /// How many bytes are given behind these where they do not come, and how many where they do.
    short: usize,
    long: usize,
}

impl<I> ToLimit<I> {
    /// Goes on behind this part, which was read.
    fn pass(&mut self, part: &[u8])
        requires { length part.now ≤ most_next self.old }
        ensures counted { (ys : List ℕ)
            → count_left self.old (part.now ++ ys) ≡ length part.now + count_left self.new ys }
        ensures inner { self.new.inner ≡ self.old.inner }
    {
        if self.ahead.is_empty() {
            self.long -= part.len();
            return;
        }
        let (front, back) = self.ahead.split_at(part.len());
        self.ahead = back;
        if front != part {
            self.long = self.short;
        }
    }
}

impl<I: Read> Read for ToLimit<I> {
    ghost remaining = { left_of I.remaining };

    fn read(&mut self, buf: &mut [u8]) -> io::Result<usize> {
        let next = if self.ahead.is_empty() {
            self.long
        } else {
            self.ahead.len()
        };
        let most = buf.len().min(next);
        if most == 0 {
            return Ok(0);
        }
        let count = self.inner.read(&mut buf[..most])?;
        self.pass(&buf[..count]);
        Ok(count)
    }
}

/// What the reader of a file has left, of which at most one byte past the limit that its first bytes give is read.
pub fn read_file_up_to<I: Read + Drop>(alloc: Global, input: I) -> io::Result<Vec<u8>>
    ensures { IfOk result (λ bytes. IsRead file_limit (I.remaining input) bytes.items) }
{
    let mut bytes = Vec::new(alloc);
    let ahead = b"(stm 3)";
    let mut input = ToLimit {
        inner: input,
        ahead,
        short: MAX_FILE + 1 - ahead.len(),
        long: MAX_FILE_OF_FORM_3 + 1 - ahead.len(),
    };
    input.read_to_end(&mut bytes)?;
    Ok(bytes)
}

/// The same, with what is answered where it cannot be read.
pub(crate) fn file_bytes_of<I: Read + Drop>(alloc: Global, input: I) -> Result<Vec<u8>, Answer>
    ensures read { IfOk result (λ bytes. IsRead file_limit (I.remaining input) bytes.items) }
    ensures unread { IfErr result (IsUnread Source.File) }
{
    bytes_of_file(alloc, input, Source::File)
}

/// The same of the present file or the earlier one.
fn bytes_of_file<I: Read + Drop>(alloc: Global, input: I, source: Source) -> Result<Vec<u8>, Answer>
    ensures read { IfOk result (λ bytes. IsRead file_limit (I.remaining input) bytes.items) }
    ensures unread { IfErr result (IsUnread source) }
{
    match read_file_up_to(alloc, input) {
        Ok(bytes) => Ok(bytes),
        Err(error) => Err(unread(&error, source)),
    }
}

/// What another reader has left, with what is answered where it cannot be read.
fn bytes_of<I: Read + Drop>(
    alloc: Global,
    input: I,
    limit: usize,
    source: Source,
) -> Result<Vec<u8>, Answer>
    requires { limit < 2 ^ 32 }
    ensures read { IfOk result (λ bytes. IsRead (λ all. limit) (I.remaining input) bytes.items) }
    ensures unread { IfErr result (IsUnread source) }
{
    match read_up_to(alloc, input, limit) {
        Ok(bytes) => Ok(bytes),
        Err(error) => Err(unread(&error, source)),
    }
}

/// What a file has, and a schedule of it.
pub(crate) fn with_schedule<I: Read + Drop, J: Read + Drop>(
    alloc: Global,
    file: I,
    schedule: J,
) -> Result<(Vec<u8>, Vec<u8>), Answer>
    ensures first { IfOk result (λ both. IsRead file_limit (I.remaining file) both.0.items) }
    ensures second { IfOk result (λ both. IsRead schedule_limit (J.remaining schedule) both.1.items) }
    ensures unread { IfErr result (IsOneUnread Source.File Source.Schedule) }
{
    let file = file_bytes_of(alloc, file)?;
    let schedule = bytes_of(alloc, schedule, MAX_SCHEDULE, Source::Schedule)?;
    Ok((file, schedule))
}

/// How many bytes a report of the file of these bytes has at most: as many as its catalogue gives, or where the file is
/// refused as many as one without cells does. Only a file that announces tables is read for it.
fn report_limit(alloc: Global, file: &[u8]) -> Result<usize, Answer>
    ensures limit { IfOk result (IsReportLimit file.now) }
    ensures small { IfOk result (λ limit. limit < 2 ^ 32) }
    ensures memory { IfErr result (λ a. a ≡ Answer.Failed RunFault.Memory) }
{
    if !announces_tables(file) {
        faults_where_none_is_spelled();
        return Ok(MAX_REPORT);
    }
    match catalogue_of(alloc, file) {
        Ok(catalogue) => {
            catalogue.rules();
            Ok(max_report(&catalogue))
        }
        Err(RunFault::Memory) => Err(Answer::Failed(RunFault::Memory)),
        Err(_) => Ok(MAX_REPORT),
    }
}

/// What a file has, and a report of it.
pub(crate) fn with_report<I: Read + Drop, J: Read + Drop>(
    alloc: Global,
    file: I,
    report: J,
) -> Result<(Vec<u8>, Vec<u8>), Answer>
    ensures first { IfOk result (λ both. IsRead file_limit (I.remaining file) both.0.items) }
    ensures second { IfOk result (λ both. IsReportOf both.0.items (J.remaining report) both.1.items) }
    ensures unread { IfErr result (IsOneUnread Source.File Source.Report) }
{
    pair_of(alloc, file, report, (Source::File, Source::Report))
}

/// The same of the present pair or the earlier one.
fn pair_of<I: Read + Drop, J: Read + Drop>(
    alloc: Global,
    file: I,
    report: J,
    sources: (Source, Source),
) -> Result<(Vec<u8>, Vec<u8>), Answer>
    ensures first { IfOk result (λ both. IsRead file_limit (I.remaining file) both.0.items) }
    ensures second { IfOk result (λ both. IsReportOf both.0.items (J.remaining report) both.1.items) }
    ensures unread { IfErr result (IsOneUnread sources.0 sources.1) }
{
    let file = bytes_of_file(alloc, file, sources.0)?;
    let limit = report_limit(alloc, &file)?;
    let report = bytes_of(alloc, report, limit, sources.1)?;
    Ok((file, report))
}

/// The file at the path, to be read, or what is answered where it cannot be.
pub(crate) fn opened<R: Files>(rt: &R, path: &str) -> Result<R::File, Answer>
    ensures { IfErr result (IsUnread Source.File) }
{
    opened_as(rt, path, Source::File)
}

/// The same of whichever file it is.
fn opened_as<R: Files>(rt: &R, path: &str, source: Source) -> Result<R::File, Answer>
    ensures { IfErr result (IsUnread source) }
{
    match fs::open(rt, path) {
        Ok(file) => Ok(file),
        Err(error) => Err(unread(&error, source)),
    }
}

/// A file at a path, and a report or a schedule of it at another.
pub(crate) fn both_opened<R: Files>(
    rt: &R,
    file: &str,
    other: &str,
    other_source: Source,
) -> Result<(R::File, R::File), Answer>
    ensures { IfErr result (IsOneUnread Source.File other_source) }
{
    let file = opened(rt, file)?;
    let other = opened_as(rt, other, other_source)?;
    Ok((file, other))
}

/// The files of the earlier pair.
fn earlier_opened<R: Files>(rt: &R, earlier: Earlier<'_>) -> Result<(R::File, R::File), Answer>
    ensures { IfErr result (IsOneUnread Source.EarlierFile Source.EarlierReport) }
{
    let file = opened_as(rt, earlier.file, Source::EarlierFile)?;
    let report = opened_as(rt, earlier.report, Source::EarlierReport)?;
    Ok((file, report))
}

/// What a file and a report of it have, and an earlier file and a report of that one.
#[derive(Drop)]
pub(crate) struct ChapterBytes {
    pub(crate) file: Vec<u8>,
    pub(crate) report: Vec<u8>,
    pub(crate) earlier: Vec<u8>,
    pub(crate) earlier_report: Vec<u8>,
}

/// The bytes of all four, in this order.
pub(crate) fn chapter_of<I: Read + Drop, J: Read + Drop, K: Read + Drop, L: Read + Drop>(
    alloc: Global,
    file: I,
    report: J,
    earlier: K,
    earlier_report: L,
) -> Result<ChapterBytes, Answer>
    ensures file { IfOk result (λ all. IsRead file_limit (I.remaining file) all.file.items) }
    ensures report { IfOk result (λ all. IsReportOf all.file.items (J.remaining report) all.report.items) }
    ensures earlier { IfOk result (λ all. IsRead file_limit (K.remaining earlier) all.earlier.items) }
    ensures earlier_report { IfOk result
        (λ all. IsReportOf all.earlier.items (L.remaining earlier_report) all.earlier_report.items) }
    ensures unread { IfErr result IsChapterUnread }
{
    let (file, report) = with_report(alloc, file, report)?;
    let sources = (Source::EarlierFile, Source::EarlierReport);
    let (earlier, earlier_report) = pair_of(alloc, earlier, earlier_report, sources)?;
    Ok(ChapterBytes {
        file,
        report,
        earlier,
        earlier_report,
    })
}

/// The files at two paths.
pub(crate) type Two<R> = (<R as Files>::File, <R as Files>::File);

/// The files at all four paths.
pub(crate) fn chapter_opened<R: Files>(
    rt: &R,
    file: &str,
    report: &str,
    earlier: Earlier<'_>,
) -> Result<(Two<R>, Two<R>), Answer>
    ensures { IfErr result IsChapterUnread }
{
    let pair = both_opened(rt, file, report, Source::Report)?;
    let before = earlier_opened(rt, earlier)?;
    Ok((pair, before))
}
