//! How the program ends, and how often it writes to the standard output on the way, which no case of `cases/` can see.

use crate::host::{Host, Prints, Reads};
use commands::run;
use std::alloc::{AllocError, Global};
use std::sync::Wait;
use std::thread::Threads;

pub(crate) const FILE: &[u8] = b"(var x 5)(tx inc (set x (add x 1)) x)(run inc 2)";

pub(crate) const REPORT: &[u8] =
    b"base 0\nx 5 0\nentry 1 0 inc returned 6\nentry 2 1 inc returned 7\nnow 2\nx 7 2\nend\n";

/// The next chapter, in which no task is left, and a report of it.
pub(crate) const NEXT: &[u8] = b"(var x 7)\n(tx inc (set x (add x 1)) x)\n";

pub(crate) const EMPTY: &[u8] = b"base 0\nx 7 0\nnow 0\nx 7 0\nend\n";

pub(crate) const SCHEDULE: &[u8] = b"begin 0\nread 0 x\ncommit 0\n";

/// A command line, its status, how often it writes, and how what it says begins.
type Row = (&'static str, u8, u32, &'static str);

/// What is printed is one write, and of what is refused there is none.
const ENDS: &[Row] = &[
    ("stm --help", 0, 1, ""),
    ("stm --version", 0, 1, ""),
    ("stm help", 0, 1, ""),
    ("stm run a.stm", 0, 1, ""),
    ("stm check a.stm a.report", 0, 1, ""),
    ("stm check a.stm o.report", 1, 1, ""),
    ("stm check a.stm a.report --after a.stm a.report", 1, 1, ""),
    ("stm check o.stm o.report --after a.stm a.report", 0, 1, ""),
    ("stm world a.stm a.schedule", 0, 1, ""),
    ("stm print a.stm", 0, 1, ""),
    ("stm print a.stm --from a.report", 0, 1, ""),
    ("stm print a.stm --after a.report", 0, 1, ""),
    ("stm print a.stm --after o.report", 1, 1, ""),
    ("stm explain a.stm", 0, 1, ""),
    ("stm explain a.report", 2, 1, "stm: file: F3 Shape\n"),
    ("stm explain a.stm o.report", 1, 1, ""),
    ("stm explain a.stm --schedule a.schedule", 0, 1, ""),
    (
        "stm explain a.stm --schedule a.report",
        2,
        1,
        "stm: schedule: F3 Shape\n",
    ),
    (
        "stm explain o.stm o.report --after a.stm a.report",
        0,
        1,
        "",
    ),
    ("stm explore a.stm", 0, 1, ""),
    ("stm explore a.stm --states 2", 1, 1, ""),
    ("stm explore a.stm --to 1", 0, 1, ""),
    ("stm explore a.stm --find inc threw", 1, 1, ""),
    ("stm explore a.stm --dot", 0, 1, ""),
    ("stm explore a.stm --deny parked", 0, 1, ""),
    ("stm run a.report", 2, 0, "stm: file: F3 Shape\n"),
    ("stm check a.report a.report", 2, 0, "stm: file: F3 Shape\n"),
    (
        "stm check o.stm o.report --after a.report a.report",
        2,
        0,
        "stm: earlier file: F3 Shape\n",
    ),
    (
        "stm world a.report a.schedule",
        2,
        0,
        "stm: file: F3 Shape\n",
    ),
    (
        "stm world a.stm a.report",
        2,
        0,
        "stm: schedule: F3 Shape\n",
    ),
    ("stm print a.report", 2, 0, "stm: file: F3 Shape\n"),
    ("stm explore a.report", 2, 0, "stm: file: F3 Shape\n"),
    ("stm explore a.report --dot", 2, 0, "stm: file: F3 Shape\n"),
    ("stm run a.stm b.stm", 3, 0, "error: "),
    (
        "stm explore a.stm --to 2",
        3,
        0,
        "stm: there is no such end\n",
    ),
    (
        "stm explore a.stm --find icn threw",
        3,
        0,
        "stm: there is no such transaction\n",
    ),
    ("stm run b.stm", 4, 0, "stm: cannot read b.stm\n"),
    (
        "stm check a.report b.report",
        4,
        0,
        "stm: cannot read b.report\n",
    ),
    (
        "stm check a.report a.report --after a.stm b.report",
        4,
        0,
        "stm: cannot read b.report\n",
    ),
    (
        "stm world a.report b.schedule",
        4,
        0,
        "stm: cannot read b.schedule\n",
    ),
];

/// Of a write that fails it is told, and it is not tried again.
const UNWRITTEN: &[&str] = &[
    "stm --help",
    "stm run a.stm",
    "stm check a.stm a.report",
    "stm check o.stm o.report --after a.stm a.report",
    "stm explain o.stm o.report --after a.stm a.report",
    "stm world a.stm a.schedule",
    "stm explore a.stm",
    "stm explore a.stm --dot",
];

/// Nothing is written where there is no memory for what is read.
const UNREAD: &[&str] = &[
    "stm run a.stm",
    "stm check a.stm a.report",
    "stm check o.stm o.report --after a.stm a.report",
    "stm explain o.stm o.report --after a.stm a.report",
    "stm world a.stm a.schedule",
];

/// The words of a command line.
pub(crate) fn words_of(alloc: Global, line: &[u8]) -> Result<Vec<&[u8]>, AllocError> {
    let mut words = Vec::new(alloc);
    for word in line.split(|byte| *byte == b' ') {
        words.push(word)?;
    }
    Ok(words)
}

/// Whether a process of these words, whose file reads and whose output writes so, ends so.
fn ends(
    rt: &(impl Threads + Wait + Sync),
    alloc: Global,
    words: &[&[u8]],
    how: (Reads, Prints),
    wanted: (u8, u32, &str),
) -> bool {
    let host = Host::new(alloc, words, FILE, how);
    let status = run(rt, &host);
    let is_taken = how.1 == Prints::All || host.took("");
    is_taken && status == wanted.0 && host.writes.get() == wanted.1 && host.says(wanted.2)
}

/// So it does of this command line.
fn line_ends(
    rt: &(impl Threads + Wait + Sync),
    alloc: Global,
    line: &[u8],
    how: (Reads, Prints),
    wanted: (u8, u32, &str),
) -> bool {
    match words_of(alloc, line) {
        Ok(words) => ends(rt, alloc, words.as_slice(), how, wanted),
        Err(_) => false,
    }
}

#[test]
fn each_way_to_end_has_its_status_and_writes(rt: HostRuntime) {
    let how = (Reads::AllBytes, Prints::All);
    for &(line, status, writes, said) in ENDS {
        let wanted = (status, writes, said);
        assert!(rt;
            line_ends(&rt, rt.alloc(), line.as_bytes(), how, wanted),
            "of {line}"
        );
    }
    let told = (3, 0, "stm: the command line is not UTF-8\n");
    assert!(rt; line_ends(&rt, rt.alloc(), b"stm run a\xffb.stm", how, told));
}

/// What cannot be read or written is 4, and out of memory 5. How the file reads and the output writes, how the process
/// ends then, and of which command lines.
const FAILS: &[((Reads, Prints), (u8, u32, &str), &[&str])] = &[
    (
        (Reads::AllBytes, Prints::Fails),
        (4, 1, "stm: cannot write\n"),
        UNWRITTEN,
    ),
    (
        (Reads::AllBytes, Prints::Interrupted),
        (4, 1, "stm: cannot write\n"),
        UNWRITTEN,
    ),
    (
        (Reads::Fails, Prints::All),
        (4, 0, "stm: cannot read "),
        UNREAD,
    ),
    (
        (Reads::WantsMemory, Prints::All),
        (5, 0, "stm: out of memory\n"),
        UNREAD,
    ),
];

#[test]
fn what_fails_is_told_and_not_tried_again(rt: HostRuntime) {
    for &(how, told, lines) in FAILS {
        for line in lines {
            assert!(rt;
                line_ends(&rt, rt.alloc(), line.as_bytes(), how, told),
                "of {line}"
            );
        }
    }
}
