//! Files printed anew: as they are, and going on from a report. More of them are played by `cases/printed.cases`.

use checker::{Part, Verdict};
use file_chains::{Next, print_bytes, print_on_bytes};
use runner::Out;
use std::alloc::Global;

const FILE: &str = "; one\n(var x 5)(var y -1)(tx inc(set x(add x 1))x)(run inc 1)";

const TEXT: &str = "(var x 5)\n(var y -1)\n(tx inc (set x (add x 1)) x)\n(run inc 1)\n";

const REPORT: &str = "base 0\nx 5 0\ny -1 0\nentry 1 0 inc returned 6\nnow 1\nx 6 1\ny -1 0\nend\n";

/// A report, how the file goes on from it, the verdict on it, and what is printed.
const GOES_ON: &[(&str, Next, Verdict, &str)] = &[
    (
        REPORT,
        Next::Again,
        Verdict::Good,
        "(var x 6)\n(var y -1)\n(tx inc (set x (add x 1)) x)\n(run inc 1)\n",
    ),
    (
        REPORT,
        Next::Chapter,
        Verdict::Good,
        "(var x 6)\n(var y -1)\n(tx inc (set x (add x 1)) x)\n",
    ),
    ("", Next::Again, Verdict::Bad(Part::Text), "bad 1\n"),
];

/// Whether the file is printed so.
fn is_printed(alloc: Global) -> bool {
    let mut out = Out::new(Vec::new(alloc));
    let is_so = print_bytes(alloc, FILE.as_bytes(), &mut out).is_ok();
    out.into_inner().as_slice() == TEXT.as_bytes() && is_so
}

/// Whether this is printed of the file that goes on so from this report.
fn goes_on(alloc: Global, report: &str, next: Next, verdict: Verdict, text: &str) -> bool {
    let mut out = Out::new(Vec::new(alloc));
    let found = print_on_bytes(alloc, FILE.as_bytes(), report.as_bytes(), next, &mut out).ok();
    out.into_inner().as_slice() == text.as_bytes() && found == Some(verdict)
}

#[test]
fn a_file_is_printed_and_goes_on(rt: HostRuntime) {
    assert!(rt; is_printed(rt.alloc()));
    for &(report, next, verdict, text) in GOES_ON {
        assert!(rt;
            goes_on(rt.alloc(), report, next, verdict, text),
            "of {text}"
        );
    }
}
