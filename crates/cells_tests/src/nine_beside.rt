//! An observer of nine variables that are always equal, beside their publisher.

ghost use Rattle.std.specs.Prelude.{◌≡◌, [], ◌∷◌, pos, length};
ghost use Rattle.txn.specs.Listing.{IsCallable};
ghost use Rattle.cells_tests.specs.Nine.{nine};

use crate::observing::catalogue;
use cells::{Cells, Pass, Publisher};
use run_observer::{Observed, observe};
use std::alloc::Global;
use std::thread::{Threads, join};
use txn::{Catalogue, Outcome, TxId, VarId};

/// Nine variables, and a transaction that adds them.
const NINE: &str =
    "(var a 0)(var b 0)(var c 0)(var d 0)(var e 0)(var f 0)(var g 0)(var h 0)(var i 0)\
    (tx sum (skip) (add a (add b (add c (add d (add e (add f (add g (add h i)))))))))(run sum 1)";

const SUM: TxId = TxId(0);

/// Publishes so many states in which all nine have one value, and the last of them is that count.
fn publish_some(cells: &Cells, mut publisher: Publisher, count: u32) -> Publisher
    requires own { publisher.cells ≡ cells.now }
    requires start { publisher.history ≡ nine (pos 0) ∷ [] }
    ensures own { result.cells ≡ publisher.cells }
{
    for n in 0..count {
        let v = i64::from(n) + 1;
        publisher.publish(
            cells,
            &[
                (VarId(0), v),
                (VarId(1), v),
                (VarId(2), v),
                (VarId(3), v),
                (VarId(4), v),
                (VarId(5), v),
                (VarId(6), v),
                (VarId(7), v),
                (VarId(8), v),
            ],
            &[v - 1; 9],
        );
    }
    publisher
}

/// Observes the sum so often. Whether each answer was stale or a multiple of nine that is not below
/// an earlier one.
fn observe_some(
    alloc: Global,
    cells: &Cells,
    mut pass: Pass,
    catalogue: &Catalogue,
    count: u32,
) -> bool
    requires own { pass.cells ≡ cells.now }
    requires variables { cells.now.variables ≡ length catalogue.now.initial }
    requires known { IsCallable catalogue.now (record { 0 = 0 }) [] }
{
    let mut last = 0;
    'times: for _ in 0..count {
        match observe(alloc, cells, &mut pass, catalogue, SUM, &[]) {
            Observed::Outcome(Outcome::Returned(v)) if v % 9 == 0 && v >= last => last = v,
            Observed::Stale => {}
            _ => return false,
        }
    }
    true
}

/// Publishes beside observing, a thousand times each, and whether each answer was fine.
fn both(
    rt: &impl Threads,
    alloc: Global,
    cells: &Cells,
    publisher: Publisher,
    pass: Pass,
    catalogue: &Catalogue,
) -> bool
    requires publisher { publisher.cells ≡ cells.now }
    requires start { publisher.history ≡ nine (pos 0) ∷ [] }
    requires pass { pass.cells ≡ cells.now }
    requires variables { cells.now.variables ≡ length catalogue.now.initial }
    requires known { IsCallable catalogue.now (record { 0 = 0 }) [] }
{
    let (_, fine) = join(
        rt,
        move || -> Publisher
            requires { (publisher.cells ≡ cells.now) × (publisher.history ≡ nine (pos 0) ∷ []) }
        { publish_some(cells, publisher, 1000) },
        move || -> bool
            requires { (pass.cells ≡ cells.now) × (cells.now.variables ≡ length catalogue.now.initial)
                × IsCallable catalogue.now (record { 0 = 0 }) [] }
        { observe_some(alloc, cells, pass, catalogue, 1000) },
    );
    fine
}

/// Whether it is so of cells that are opened for it.
fn are_observed(rt: &impl Threads, alloc: Global, catalogue: &Catalogue) -> bool {
    if catalogue.initial().len() != 9 || !catalogue.is_callable(SUM, &[]) {
        return false;
    }
    let Ok((cells, publisher, mut passes)) = Cells::open(alloc, &[0; 9], 1) else {
        return false;
    };
    match passes.pop() {
        Some(pass) => both(rt, alloc, &cells, publisher, pass, catalogue),
        None => false,
    }
}

#[test]
fn sums_of_nine_beside_a_publisher_are_of_one_state(rt: HostRuntime) {
    match catalogue(rt.alloc(), NINE) {
        Some(catalogue) => assert!(rt; are_observed(&rt, rt.alloc(), &catalogue)),
        None => panic!(rt; "no catalogue"),
    }
}
