//! What the plain evaluation makes of a transaction: values worked out by hand.

use crate::parts::catalogue;
use std::alloc::{AllocError, Global};
use txn::evaluate::{execute, execute_noting, standing_truth, truth, value};
use txn::limits::MAX_VALUES;
use txn::{Catalogue, Cond, Expr, Fault, Outcome, ParamId, TxId};
use txn_evaluator::notes::undo;

/// Whether a run of the first transaction from the initial state ends so, and leaves this state.
fn runs_so(alloc: Global, catalogue: &Catalogue, want: Outcome, left: &[i64]) -> bool {
    if catalogue.tx_count() == 0 {
        return false;
    }
    let Ok(mut state) = catalogue.initial().to_vec(alloc) else {
        return false;
    };
    if state.len() > MAX_VALUES {
        return false;
    }
    match execute(&[], catalogue.tx(TxId(0)), catalogue.always(), &mut state) {
        Ok(how) => how == want && state.as_slice() == left,
        Err(_) => false,
    }
}

/// Whether a run of the text's first transaction does.
fn is_run(alloc: Global, text: &str, want: Outcome, left: &[i64]) -> bool {
    match catalogue(alloc, text) {
        Some(catalogue) => runs_so(alloc, &catalogue, want, left),
        None => false,
    }
}

/// Transactions of x, which is 5. A throw is not caught, and the writes of a retried branch go.
const RUNS: &[(&str, Outcome, i64)] = &[
    (
        "(var x 5)(tx t (set x (add x 1)) x)",
        Outcome::Returned(6),
        6,
    ),
    (
        "(var x 5)(tx t (orelse (retry) (retry)) x)",
        Outcome::Retries,
        5,
    ),
    (
        "(var x 5)(tx t (orelse (throw 7) (set x 1)) x)",
        Outcome::Thrown(Fault::User(7)),
        5,
    ),
    (
        "(var x 5)(tx t (orelse (seq (set x 9) (retry)) (skip)) x)",
        Outcome::Returned(5),
        5,
    ),
];

#[test]
fn transactions_end_and_leave_a_state(rt: HostRuntime) {
    for (text, want, left) in RUNS {
        assert!(rt; is_run(rt.alloc(), text, *want, &[*left]), "of {text}");
    }
}

/// What one over nothing is.
fn quotient(alloc: Global) -> Result<Result<i64, Fault>, AllocError> {
    let one = Box::new(alloc, Expr::Int(1))?;
    let nothing = Box::new(alloc, Expr::Int(0))?;
    let faulty = Expr::Div(one, nothing);
    Ok(value(&[], &faulty, &[]))
}

/// Whether the first condition is true of the initial values.
fn is_upheld(catalogue: &Catalogue) -> bool {
    match catalogue.always() {
        [(_, condition), ..] => standing_truth(condition, catalogue.initial()) == Ok(true),
        [] => false,
    }
}

/// So it is of the catalogue of the text.
fn upholds(alloc: Global, text: &str) -> bool {
    match catalogue(alloc, text) {
        Some(catalogue) => is_upheld(&catalogue),
        None => false,
    }
}

/// What is denied is false at its left, and has a fault at its right.
const DENIED: &str = "(stm 2)(always ok (not (and (eq 1 2) (eq (div 1 0) 0))))";

/// Whether 1 is 2.
fn is_one_two() -> Result<bool, Fault> {
    truth(&[], &Cond::Eq(Expr::Int(1), Expr::Int(2)), &[])
}

#[test]
fn conditions_look_right_only_where_needed(rt: HostRuntime) {
    assert!(rt; quotient(rt.alloc()) == Ok(Err(Fault::DivideByZero)));
    assert!(rt; is_one_two() == Ok(false));
    assert!(rt; upholds(rt.alloc(), DENIED));
}

/// What the parameter is, where the arguments are 7 and 8.
fn argument(place: u32) -> Result<i64, Fault> {
    value(&[7, 8], &Expr::Param(ParamId(place)), &[])
}

#[test]
fn a_parameter_is_its_argument(rt: HostRuntime) {
    assert!(rt; argument(1) == Ok(8));
    assert!(rt; argument(2) == Ok(0));
}

/// Whether a run of the first transaction from the initial state makes so many notes, which lead back to it.
fn goes_back(alloc: Global, catalogue: &Catalogue, count: usize) -> bool {
    if catalogue.tx_count() == 0 {
        return false;
    }
    let Ok(mut state) = catalogue.initial().to_vec(alloc) else {
        return false;
    };
    if state.len() > MAX_VALUES {
        return false;
    }
    let mut notes = Vec::new(alloc);
    let ended = execute_noting(
        &[],
        catalogue.tx(TxId(0)),
        catalogue.always(),
        state.as_mut_slice(),
        &mut notes,
    );
    let made = notes.len();
    undo(state.as_mut_slice(), &mut notes, 0);
    ended.is_ok() && made == count && state.as_slice() == catalogue.initial()
}

#[test]
fn notes_lead_back(rt: HostRuntime) {
    let text = "(var x 5)(tx t (orelse (seq (set x 9) (retry)) (seq (set x 6) (set x 7))) x)";
    let went = match catalogue(rt.alloc(), text) {
        Some(catalogue) => goes_back(rt.alloc(), &catalogue, 2),
        None => false,
    };
    assert!(rt; went);
}
