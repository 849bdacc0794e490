//! What is printed of all orders of small files, and what is said of what is denied.

use explore_runner::{Denial, Denials, Judged, Limit, Sight, explore_bytes, judge_bytes};
use runner::Out;
use std::alloc::Global;

const TWO: &str = "(var x 0)(tx two (set x 2) x)(tx one (set x 1) x)(run two 1)(run one 1)";

const FOUND: &str = "states 5\ntx two returned\ntx one returned\nends 2\n1 x 1\n2 x 2\nend\n";

/// Whether this is written of the file, of at most so many states, with this answer.
fn is_written(alloc: Global, file: &str, states: u32, wanted: Option<Sight>, text: &str) -> bool {
    let Some(limit) = Limit::new(states) else {
        return false;
    };
    let mut out = Out::new(Vec::new(alloc));
    let answer = explore_bytes(alloc, file.as_bytes(), limit, &mut out).ok();
    out.into_inner().as_slice() == text.as_bytes() && answer == wanted
}

#[test]
fn what_is_found_is_printed(rt: HostRuntime) {
    let alloc = rt.alloc();
    assert!(rt; is_written(alloc, TWO, 5, Some(Sight::Whole), FOUND));
    assert!(rt; is_written(alloc, TWO, 4, Some(Sight::More), "more than 4 states\n"));
    assert!(rt; is_written(alloc, "(var x", 5, None, ""));
}

/// How many states may be seen, `None` where there may not be so many.
fn states_of(states: u32) -> Option<u32> {
    let limit = Limit::new(states)?;
    limit.law();
    Some(limit.states())
}

#[test]
fn a_limit_is_from_1_to_16777216(rt: HostRuntime) {
    assert!(rt; states_of(0).is_none() && states_of(16_777_217).is_none());
    assert!(rt; states_of(1) == Some(1) && states_of(16_777_216) == Some(16_777_216));
}

/// What is said where some order comes to what is denied.
#[derive(Clone, Copy)]
enum Said {
    Line(&'static str),
    Nothing,
    More,
}

/// Whether this is written of the file where these are denied, of at most 20 states, and this is said.
fn is_judged(alloc: Global, file: &str, denials: Denials, said: Said, text: &str) -> bool {
    let Some(limit) = Limit::new(20) else {
        return false;
    };
    let mut out = Out::new(Vec::new(alloc));
    let answer = judge_bytes(alloc, file.as_bytes(), limit, denials, &mut out);
    let is_said = match (answer, said) {
        (Ok(Judged::Denied(line)), Said::Line(wanted)) => line.as_str() == wanted,
        (Ok(Judged::Clear), Said::Nothing) => true,
        (Ok(Judged::More), Said::More) => true,
        _ => false,
    };
    out.into_inner().as_slice() == text.as_bytes() && is_said
}

#[test]
fn what_is_denied_is_told(rt: HostRuntime) {
    let alloc = rt.alloc();
    let zero = "(tx z (skip) (div 1 0))(run z 1)";
    let found = "states 2\ntx z zerodiv\nends 1\n1\nend\n";
    let denied = Denials::none().with(Denial::Parked).with(Denial::ZeroDiv);
    let line = Said::Line("stm: denied: z zerodiv: see --find z zerodiv");
    assert!(rt; is_judged(alloc, zero, denied, line, found));
    assert!(rt; is_judged(alloc, TWO, denied, Said::Nothing, FOUND));
    let many = "(tx t (skip) 0)(run t 20)";
    assert!(rt; is_judged(alloc, many, denied, Said::More, "more than 20 states\n"));
}

/// Words, and what they deny, if anything.
const DENIED: &[(&str, Option<Denial>)] = &[
    ("parked", Some(Denial::Parked)),
    ("threw", Some(Denial::Threw)),
    ("broke", Some(Denial::Broke)),
    ("overflow", Some(Denial::Overflow)),
    ("zerodiv", Some(Denial::ZeroDiv)),
    ("outside", Some(Denial::Outside)),
    ("", None),
    ("park", None),
    ("parks", None),
    ("parked ", None),
    ("Threw", None),
    ("returned", None),
];

/// Whether none of these is this one, unless it is put to them.
fn is_put(denial: Denial) -> bool {
    Denials::none().with(denial).has(denial) && !Denials::none().has(denial)
}

#[test]
fn what_can_be_denied_has_a_word(rt: HostRuntime) {
    for &(word, denial) in DENIED {
        assert!(rt;
            Denial::named(word) == denial && denial.is_none_or(is_put),
            "of {word}"
        );
    }
}
