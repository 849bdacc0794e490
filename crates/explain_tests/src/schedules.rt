//! Schedules: the kind and the place of the first fault, and the line that tells it.

use explain_files::{Judgement, position_of};
use explain_schedules::{ScheduleExplanation, explain, explain_bytes};
use run_interface::{Out, RunFault};
use std::alloc::{AllocError, Global};
use txn::Catalogue;
use txn_text::{ReadFault, read_file};

/// A file of two tasks.
const FILE: &str = "(var x 5)(tx inc (set x (add x 1)) x)(run inc 2)";

/// Whether a schedule of the file is told so, with a line of this text.
fn is_told(
    alloc: Global,
    file: &str,
    schedule: &str,
    told: Result<Judgement, RunFault>,
    line: &str,
) -> bool {
    let mut out = Out::new(Vec::new(alloc));
    let found = explain_bytes(alloc, file.as_bytes(), schedule.as_bytes(), &mut out);
    out.into_inner().as_slice() == line.as_bytes() && found == told
}

/// A file, a schedule of it, what is told, and the line that is written.
type Row = (
    &'static str,
    &'static str,
    Result<Judgement, RunFault>,
    &'static str,
);

const ROWS: &[Row] = &[
    (
        FILE,
        "begin 0\nread 1 x\nfirst 0 x\ncommit 1\n",
        Ok(Judgement::Good),
        "good\n",
    ),
    (
        FILE,
        "read 9 y\nbegin 7",
        Ok(Judgement::Refused(ReadFault::Shape)),
        "line 2, column 8: F3 Shape: a newline is wanted: each line ends with one; here the schedule ends\n",
    ),
    (
        FILE,
        "read 0 y\n",
        Ok(Judgement::Refused(ReadFault::Name)),
        "line 1, column 8: F4 Name: no variable of this name is declared; here stands y\n",
    ),
    (
        FILE,
        "begin 2\n",
        Ok(Judgement::Refused(ReadFault::Limit)),
        "line 1, column 7: F5 Limit: there is no task of this number; here stands 2, and the file has 2 tasks, \
            counted from 0\n",
    ),
    (
        "(var x",
        "beginn",
        Err(RunFault::Input(ReadFault::Shape)),
        "",
    ),
];

#[test]
fn a_schedule_is_told_by_a_line_or_its_file_refused(rt: HostRuntime) {
    for &(file, schedule, told, line) in ROWS {
        assert!(rt;
            is_told(rt.alloc(), file, schedule, told, line),
            "of {schedule}"
        );
    }
}

/// So many times the line `word`, and then the text.
fn behind_words(alloc: Global, count: u32, text: &str) -> Result<Vec<u8>, AllocError> {
    let mut bytes = Vec::with_capacity(alloc, count as usize * 5)?;
    for _ in 0..count {
        bytes.extend_from_slice(b"word\n")?;
    }
    bytes.extend_from_slice(text.as_bytes())?;
    Ok(bytes)
}

/// Whether the schedule is refused by this kind at this column of the line behind 209,715 others.
fn is_refused(
    alloc: Global,
    catalogue: &Catalogue,
    bytes: &[u8],
    kind: ReadFault,
    column: usize,
) -> bool {
    match explain(alloc, catalogue, bytes) {
        Ok(ScheduleExplanation::Refused(refusal)) => {
            if refusal.place > bytes.len() {
                return false;
            }
            let at = position_of(bytes, refusal.place);
            (refusal.kind, at.line, at.column) == (kind, 209_716, column)
        }
        _ => false,
    }
}

/// Whether so it is of the file.
fn is_refused_of_file(alloc: Global, bytes: &[u8], kind: ReadFault, column: usize) -> bool {
    match read_file(alloc, FILE.as_bytes()) {
        Ok(catalogue) => is_refused(alloc, &catalogue, bytes, kind, column),
        Err(_) => false,
    }
}

/// Whether this text behind 209,715 lines of 5 bytes each is refused at this column.
fn is_at_the_end(alloc: Global, text: &str, kind: ReadFault, column: usize) -> bool {
    match behind_words(alloc, 209_715, text) {
        Ok(bytes) => is_refused_of_file(alloc, bytes.as_slice(), kind, column),
        Err(_) => false,
    }
}

#[test]
fn the_longest_schedule_and_one_byte_more(rt: HostRuntime) {
    assert!(rt; is_at_the_end(rt.alloc(), "\t", ReadFault::BadByte, 1));
    assert!(rt; is_at_the_end(rt.alloc(), "w\n", ReadFault::TooLong, 2));
}
