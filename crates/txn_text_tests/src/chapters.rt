//! Chapters: whether a file goes on where an earlier file and its report ended. More of them are played by
//! `cases/chapters.cases`.

use crate::parts::catalogue;
use checker::{ChapterFault, ChapterVerdict, Judgement, Part, check_after, goes_on_after, judged};
use std::alloc::Global;
use txn::Catalogue;
use txn_text::ReadFault;

/// One task waits for n to be another value than 0, one for 100 or more, one adds 7.
const FIRST: &str =
    "(var n 0)(tx inc (set n (add n 7)) n)(tx wait (if (eq n 0) (retry) (skip)) n)(tx hold (if (lt n 100) (retry) \
        (skip)) n)(run hold 2)(run inc 1)(run wait 1)";

/// The tasks of `hold` wait at its end, and the one of `wait` was given up.
const ENDED: &str =
    "base 0\nn 0 0\nentry 1 2 inc returned 7\nnow 1\nn 7 1\nparked 0 hold\nparked 1 hold\nmemory 3 wait\nend\n";

const NOTHING: &str = "base 0\nnow 0\nend\n";

/// Whether this is said of a file and its report behind the first chapter, or behind an earlier pair that is refused.
fn is_said(
    alloc: Global,
    pair: (&str, &str),
    earlier: (&str, &str),
    wanted: Result<ChapterVerdict, ChapterFault>,
) -> bool {
    let found = check_after(
        alloc,
        pair.0.as_bytes(),
        pair.1.as_bytes(),
        earlier.0.as_bytes(),
        earlier.1.as_bytes(),
    );
    found == wanted
}

/// A file and its report, the pair before it, and what is said of them.
type Row = (
    (&'static str, &'static str),
    (&'static str, &'static str),
    Result<ChapterVerdict, ChapterFault>,
);

const PAIRS: &[Row] = &[
    (("", NOTHING), ("", NOTHING), Ok(ChapterVerdict::Good)),
    (("", ""), ("", NOTHING), Ok(ChapterVerdict::Bad(Part::Text))),
    (
        ("", NOTHING),
        ("", ""),
        Ok(ChapterVerdict::Before(Part::Text)),
    ),
    (("", NOTHING), (FIRST, ENDED), Ok(ChapterVerdict::Elsewhere)),
    (
        ("(var", NOTHING),
        ("", NOTHING),
        Err(ChapterFault::File(ReadFault::Shape)),
    ),
    (
        ("", NOTHING),
        ("(var", NOTHING),
        Err(ChapterFault::Earlier(ReadFault::Shape)),
    ),
];

#[test]
fn each_verdict_on_a_chapter(rt: HostRuntime) {
    for (pair, earlier, wanted) in PAIRS {
        assert!(rt;
            is_said(rt.alloc(), *pair, *earlier, *wanted),
            "of {}",
            earlier.1
        );
    }
}

/// Whether the text is judged to be lawful, and what it leaves does not go on as the catalogue begins.
fn is_handed_on(alloc: Global, catalogue: &Catalogue) -> bool {
    match judged(alloc, catalogue, ENDED.as_bytes()) {
        Ok(Judgement::Lawful(report)) => {
            report.parked.len() == 2
                && goes_on_after(alloc, catalogue, &report, catalogue) == Ok(false)
        }
        _ => false,
    }
}

/// Whether a report of another file is not lawful.
fn is_refused(alloc: Global, catalogue: &Catalogue) -> bool {
    match judged(alloc, catalogue, NOTHING.as_bytes()) {
        Ok(Judgement::Bad(part)) => part == Part::Text,
        _ => false,
    }
}

#[test]
fn a_lawful_report_is_handed_on(rt: HostRuntime) {
    match catalogue(rt.alloc(), FIRST) {
        Some(first) => {
            assert!(rt; is_handed_on(rt.alloc(), &first) && is_refused(rt.alloc(), &first));
        }
        None => panic!(rt; "no catalogue"),
    }
}

const LINES: &[(ChapterVerdict, &str)] = &[
    (ChapterVerdict::Good, "good\n"),
    (ChapterVerdict::Bad(Part::Text), "bad 1\n"),
    (ChapterVerdict::Bad(Part::Parked), "bad 6\n"),
    (ChapterVerdict::Elsewhere, "bad 7\n"),
    (ChapterVerdict::Before(Part::Text), "before bad 1\n"),
    (ChapterVerdict::Before(Part::Parked), "before bad 6\n"),
];

#[test]
fn verdicts_on_chapters_have_lines(rt: HostRuntime) {
    for (verdict, line) in LINES {
        assert_eq!(rt; verdict.line(), *line);
    }
}
