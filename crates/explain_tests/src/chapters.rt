//! Chapters: what is said of one, and of the one before it.

use checker::{ChapterFault, ChapterVerdict, Part};
use explain_reports::{ChapterUntold, explain_chapter_bytes};
use run_interface::Out;
use std::alloc::Global;
use txn_text::ReadFault;

/// One task waits for n to be another value than 0, one for 100 or more, one adds 7.
const FIRST: &str =
    "(var n 0)(tx inc (set n (add n 7)) n)(tx hold (if (lt n 100) (retry) (skip)) n)(run hold 2)(run inc 1)";

const ENDED: &str =
    "base 0\nn 0 0\nentry 1 2 inc returned 7\nnow 1\nn 7 1\nparked 0 hold\nparked 1 hold\nend\n";

const WRONG: &str =
    "base 0\nn 0 0\nentry 1 2 inc returned 8\nnow 1\nn 8 1\nparked 0 hold\nparked 1 hold\nend\n";

/// Whether this is said of a file and its report behind an earlier pair, with this verdict or fault.
fn is_said(
    alloc: Global,
    chapter: (&str, &str),
    earlier: (&str, &str),
    wanted: Result<ChapterVerdict, ChapterUntold>,
    text: &str,
) -> bool {
    let mut out = Out::new(Vec::new(alloc));
    let found = explain_chapter_bytes(
        alloc,
        chapter.0.as_bytes(),
        chapter.1.as_bytes(),
        earlier.0.as_bytes(),
        earlier.1.as_bytes(),
        &mut out,
    );
    out.into_inner().as_slice() == text.as_bytes() && found == wanted
}

/// The chapter behind that pair, and a report of it.
const NEXT: &str =
    "(var n 7)(tx inc (set n (add n 7)) n)(tx hold (if (lt n 100) (retry) (skip)) n)(run hold 2)";

const TWO_WAIT: &str = "base 0\nn 7 0\nnow 0\nn 7 0\nparked 0 hold\nparked 1 hold\nend\n";

/// A file and its report, those of the chapter before, the verdict or the fault, and what is said.
type Row = (
    (&'static str, &'static str),
    (&'static str, &'static str),
    Result<ChapterVerdict, ChapterUntold>,
    &'static str,
);

const ROWS: &[Row] = &[
    (
        (NEXT, TWO_WAIT),
        (FIRST, ENDED),
        Ok(ChapterVerdict::Good),
        "good\n",
    ),
    (
        (FIRST, WRONG),
        (FIRST, WRONG),
        Ok(ChapterVerdict::Bad(Part::Entries)),
        "bad 3\nline 3: entry 1 2 inc returned 8\nreplay has entry 1 2 inc returned 7\n",
    ),
    (
        (FIRST, ENDED),
        (FIRST, WRONG),
        Ok(ChapterVerdict::Before(Part::Entries)),
        "before bad 3\nline 3: entry 1 2 inc returned 8\nreplay has entry 1 2 inc returned 7\n",
    ),
    (
        (FIRST, ENDED),
        (FIRST, ENDED),
        Ok(ChapterVerdict::Elsewhere),
        "bad 7\n(var n 7) is wanted; here stands (var n 0)\n",
    ),
    (
        ("(var", ENDED),
        ("(var", ENDED),
        Err(ChapterUntold::Unjudged(ChapterFault::File(ReadFault::Shape))),
        "",
    ),
    (
        (FIRST, ENDED),
        ("(var", ENDED),
        Err(ChapterUntold::Unjudged(ChapterFault::Earlier(ReadFault::Shape))),
        "",
    ),
];

#[test]
fn a_chapter_is_explained_or_refused(rt: HostRuntime) {
    for &(chapter, earlier, wanted, text) in ROWS {
        assert!(rt;
            is_said(rt.alloc(), chapter, earlier, wanted, text),
            "of {text}"
        );
    }
}
