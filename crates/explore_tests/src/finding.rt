//! The report of a run that comes to a turn that is sought.

use explore_runner::{Limit, OutcomeWords, Sighted, find_bytes};
use runner::Out;
use std::alloc::Global;

/// One who pays twice what is there, one who puts it there, and one who waits for it.
const SHOP: &str = "(stm 2)(var x 0)(always some (le 0 x))\
    (tx pay (if (lt x 5) (throw x) (set x (sub x 5))) x)(tx put (set x (add x 2)) x)\
    (tx take (set x (sub x 3)) x)(tx wait (if (lt x 4) (retry) (skip)) x)\
    (run wait 1)(run pay 1)(run put 3)(run take 1)";

/// A transaction and an outcome that is sought of it, of at most so many states, the answer and what is written.
type Row = (&'static str, &'static str, u32, Sighted, &'static str);

const SOUGHT: &[Row] = &[
    (
        "pay",
        "threw 2",
        1_000_000,
        Sighted::Report,
        "base 0\nx 0 0\nentry 1 2 put returned 2\nentry 2 1 pay threw 2\nnow 2\nx 2 1\n\
            parked 0 wait\nmemory 3 put\nmemory 4 put\nmemory 5 take\nend\n",
    ),
    ("put", "broke some", 1_000_000, Sighted::Never, "never\n"),
    ("x", "returned", 1_000_000, Sighted::NoTransaction, ""),
    ("take", "broke none", 1_000_000, Sighted::NoCondition, ""),
    ("pay", "threw 2", 2, Sighted::Beyond, "more than 2 states\n"),
];

/// Whether what is sought of the file is answered so.
fn is_answered(
    alloc: Global,
    file: &str,
    sought: (&str, &str),
    states: u32,
    wanted: Option<Sighted>,
    text: &str,
) -> bool {
    let (Some(limit), Some(outcome)) = (Limit::new(states), OutcomeWords::read(sought.1)) else {
        return false;
    };
    let mut out = Out::new(Vec::new(alloc));
    let found = find_bytes(alloc, file.as_bytes(), limit, sought.0, outcome, &mut out).ok();
    out.into_inner().as_slice() == text.as_bytes() && found == wanted
}

#[test]
fn what_is_sought_is_answered(rt: HostRuntime) {
    for &(transaction, outcome, states, answer, text) in SOUGHT {
        let sought = (transaction, outcome);
        let is_so = is_answered(rt.alloc(), SHOP, sought, states, Some(answer), text);
        assert!(rt; is_so, "of {transaction}");
    }
    assert!(rt; is_answered(rt.alloc(), "(var x", ("t", "threw"), 3, None, ""));
}

/// Words, and the outcome that they say, if they say one.
const READ: &[(&str, Option<OutcomeWords<'static>>)] = &[
    ("returned", Some(OutcomeWords::Returned(None))),
    ("returned 0", Some(OutcomeWords::Returned(Some(0)))),
    (
        "returned 9223372036854775807",
        Some(OutcomeWords::Returned(Some(i64::MAX))),
    ),
    ("threw", Some(OutcomeWords::Threw(None))),
    (
        "threw -9223372036854775808",
        Some(OutcomeWords::Threw(Some(i64::MIN))),
    ),
    ("overflow", Some(OutcomeWords::Overflow)),
    ("zerodiv", Some(OutcomeWords::ZeroDiv)),
    ("outside", Some(OutcomeWords::Outside)),
    ("broke", Some(OutcomeWords::Broke(None))),
    ("broke sum", Some(OutcomeWords::Broke(Some("sum")))),
    ("parks", Some(OutcomeWords::Parks)),
    ("", None),
    ("return", None),
    ("returned ", None),
    ("returned x", None),
    ("returned 01", None),
    ("returned -0", None),
    ("returned +1", None),
    ("returned  1", None),
    ("returned 1 ", None),
    ("returned 9223372036854775808", None),
    ("threw -9223372036854775809", None),
    ("Threw", None),
    ("overflow 1", None),
    ("zerodiv ", None),
    ("broke ", None),
    ("broke 1", None),
    ("broke a b", None),
    ("parked", None),
    ("parks 1", None),
    (" parks", None),
];

#[test]
fn outcomes_are_read_from_words(rt: HostRuntime) {
    for (text, outcome) in READ {
        assert!(rt; OutcomeWords::read(text) == *outcome, "of {text}");
    }
}
