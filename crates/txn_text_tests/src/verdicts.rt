//! Verdicts on reports. More of them are played by `cases/verdicts.cases`.

use crate::checked_parts::{FILE, REPORT, failed};
use checker::{Part, Verdict, check};
use txn_text::ReadFault;

const REPORTS: &[(&str, u8)] = &[
    (REPORT, 0),
    ("", 1),
    (
        "base 0\nx 5 0\nentry 1 0 inc returned 6\nnow 1\nx 6 1\nparked 1 inc\nend\n",
        6,
    ),
];

#[test]
fn reports_are_judged(rt: HostRuntime) {
    for (report, part) in REPORTS {
        assert!(rt;
            failed(rt.alloc(), FILE, report.as_bytes()) == Some(*part),
            "of {report}"
        );
    }
    let refused = check(rt.alloc(), b"(var x", REPORT.as_bytes());
    assert!(rt; refused.err() == Some(ReadFault::Shape));
}

const LINES: &[(Verdict, &str)] = &[
    (Verdict::Good, "good\n"),
    (Verdict::Bad(Part::Text), "bad 1\n"),
    (Verdict::Bad(Part::Parked), "bad 6\n"),
];

#[test]
fn verdicts_have_lines(rt: HostRuntime) {
    for (verdict, line) in LINES {
        assert_eq!(rt; verdict.line(), *line);
    }
}
