//! Reports: the verdict, which is the checker's, and what is said of it.

use checker::{Part, Verdict, check};
use explain_reports::explain_bytes;
use run_interface::{Out, RunFault};
use std::alloc::Global;
use txn_text::ReadFault;

/// Two increments, and a task that waits for more of them.
const FILE: &str =
    "(stm 2)(var x 5)(always low (le x 9))(tx inc (set x (add x 1)) x)(tx gate (if (lt x 100) (retry) \
        (skip)) x)(run inc 2)(run gate 1)";

/// A file, a report of it, the verdict or the fault, and what is said.
type Row = (
    &'static str,
    &'static str,
    Result<Verdict, RunFault>,
    &'static str,
);

const ROWS: &[Row] = &[
    (
        FILE,
        "base 0\nx 5 0\nentry 1 0 inc returned 6\nentry 2 1 inc returned 7\nnow 2\nx 7 2\nparked 2 gate\nend\n",
        Ok(Verdict::Good),
        "good\n",
    ),
    (
        FILE,
        "base 0\nx 5 0\nentry 1 0 inc returned 6\nentry 2 1 inc returned 8\nnow 2\nx 7 2\nparked 2 gate\nend\n",
        Ok(Verdict::Bad(Part::Entries)),
        "bad 3\nline 4: entry 2 1 inc returned 8\nreplay has entry 2 1 inc returned 7\n",
    ),
    (
        FILE,
        "base 65537\nx 5 0\nnow 0\nx 5 0\nend\n",
        Ok(Verdict::Bad(Part::Text)),
        "bad 1\na number is not one that may stand in its place\n",
    ),
    ("(var x", "", Err(RunFault::Input(ReadFault::Shape)), ""),
];

/// Whether this is said of the report of the file, with this verdict or fault, and the checker says no other.
fn is_said(
    alloc: Global,
    file: &str,
    report: &str,
    wanted: Result<Verdict, RunFault>,
    text: &str,
) -> bool {
    let mut out = Out::new(Vec::new(alloc));
    let found = explain_bytes(alloc, file.as_bytes(), report.as_bytes(), &mut out);
    let checked = check(alloc, file.as_bytes(), report.as_bytes()).ok();
    let is_so = found == wanted && checked == wanted.ok();
    out.into_inner().as_slice() == text.as_bytes() && is_so
}

#[test]
fn a_report_is_explained_or_its_file_refused(rt: HostRuntime) {
    for &(file, report, wanted, text) in ROWS {
        assert!(rt;
            is_said(rt.alloc(), file, report, wanted, text),
            "of {report}"
        );
    }
}
