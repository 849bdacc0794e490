//! Files: the kind and the place of the first fault, and the line that tells it.

use explain_files::{Explanation, Judgement, explain, explain_bytes, position_of};
use run_interface::Out;
use std::alloc::{AllocError, Global};
use text_words::ReadFault;

/// The kind of the first fault, with its line and its column.
type Place = (ReadFault, usize, usize);

/// Whether the bytes are refused by this fault, or good where there is none.
fn is_explained(alloc: Global, bytes: &[u8], wanted: Option<Place>) -> bool {
    match explain(alloc, bytes) {
        Ok(Explanation::Refused(refusal)) => {
            if refusal.place > bytes.len() {
                return false;
            }
            let at = position_of(bytes, refusal.place);
            wanted == Some((refusal.kind, at.line, at.column))
        }
        Ok(Explanation::Good) => wanted.is_none(),
        Err(_) => false,
    }
}

/// How many spaces a file begins with, what stands behind them, and its first fault, if it has one: a file of each kind
/// of fault, the longest one, and one of a byte more.
const FAULTS: &[(usize, &str, Option<Place>)] = &[
    (0, "(var x 5)", None),
    (
        0,
        "(var x 5)\n; a\tb\tc\n",
        Some((ReadFault::BadByte, 2, 4)),
    ),
    (
        0,
        "(var x 1)\n(tx t (set x (plus x 1)) x)",
        Some((ReadFault::Shape, 2, 15)),
    ),
    (
        0,
        "(var x 1)\n(tx t (set y (add z 1)) x)",
        Some((ReadFault::Name, 2, 12)),
    ),
    (
        0,
        "(var x 9223372036854775808)",
        Some((ReadFault::Limit, 1, 8)),
    ),
    (
        0,
        "; a\n(stm 2)\n\n(always ; a\n  a (eq 0 1))",
        Some((ReadFault::Broken, 5, 3)),
    ),
    (1_048_575, "\t", Some((ReadFault::BadByte, 1, 1_048_576))),
    (1_048_575, "\t)", Some((ReadFault::TooLong, 1, 1_048_577))),
];

/// So many spaces, and then the text.
fn behind_spaces(alloc: Global, count: usize, text: &str) -> Result<Vec<u8>, AllocError> {
    let mut bytes = vec![in alloc; b' '; count]?;
    bytes.extend_from_slice(text.as_bytes())?;
    Ok(bytes)
}

/// Whether the text behind so many spaces is explained so.
fn is_explained_behind(alloc: Global, count: usize, text: &str, wanted: Option<Place>) -> bool {
    match behind_spaces(alloc, count, text) {
        Ok(bytes) => is_explained(alloc, bytes.as_slice(), wanted),
        Err(_) => false,
    }
}

#[test]
fn each_kind_has_its_place(rt: HostRuntime) {
    for &(count, text, wanted) in FAULTS {
        assert!(rt;
            is_explained_behind(rt.alloc(), count, text, wanted),
            "of {text}"
        );
    }
}

/// Whether the file is told so, with this line and nothing else.
fn is_told(alloc: Global, file: &str, line: &str, told: Judgement) -> bool {
    let mut out = Out::new(Vec::new(alloc));
    let found = explain_bytes(alloc, file.as_bytes(), &mut out).ok();
    out.into_inner().as_slice() == line.as_bytes() && found == Some(told)
}

const LINES: &[(&str, &str, Judgement)] = &[
    ("(var x 1)", "good\n", Judgement::Good),
    (
        "(var x",
        "line 1, column 7: F3 Shape: the initial value is wanted, an INT; here the file ends\n",
        Judgement::Refused(ReadFault::Shape),
    ),
    (
        "(var x 1)\n(tx t (set y 1) x)\n",
        "line 2, column 12: F4 Name: no variable of this name is declared; here stands y; did you mean x?\n",
        Judgement::Refused(ReadFault::Name),
    ),
];

#[test]
fn a_file_is_told_by_a_line(rt: HostRuntime) {
    for &(file, line, told) in LINES {
        assert!(rt; is_told(rt.alloc(), file, line, told), "of {file}");
    }
}
