//! An observer beside a publisher, in two threads.

ghost use Rattle.std.specs.Prelude.{◌≡◌, [], ◌∷◌, pos, length};
ghost use Rattle.txn.specs.Listing.{IsCallable};

use crate::beside::publish_some;
use crate::observing::{catalogue, sees};
use cells::{Cells, Pass, Publisher};
use run_observer::{Observed, observe};
use std::alloc::Global;
use std::thread::{Threads, join};
use txn::{Catalogue, Outcome, TxId};

/// Two variables, and a transaction that adds them.
const PAIR: &str = "(var x 1)(var y 1)(tx sum (skip) (add x y))(run sum 1)";

const SUM: TxId = TxId(0);

/// Observes the sum so often, and whether each answer was stale or an even sum that is not below an
/// earlier one.
fn observe_some(
    alloc: Global,
    cells: &Cells,
    mut pass: Pass,
    catalogue: &Catalogue,
    count: u32,
) -> (Pass, bool)
    requires own { pass.cells ≡ cells.now }
    requires variables { cells.now.variables ≡ length catalogue.now.initial }
    requires known { IsCallable catalogue.now (record { 0 = 0 }) [] }
    ensures own { result.0.cells ≡ pass.cells }
{
    let mut fine = true;
    let mut last = 0;
    'times: for _ in 0..count {
        match observe(alloc, cells, &mut pass, catalogue, SUM, &[]) {
            Observed::Outcome(Outcome::Returned(v)) if v % 2 == 0 && v >= last => last = v,
            Observed::Stale => {}
            _ => fine = false,
        }
    }
    (pass, fine)
}

/// Publishes beside observing, a thousand times each, and whether each answer was fine.
fn both(
    rt: &impl Threads,
    alloc: Global,
    cells: &Cells,
    publisher: Publisher,
    pass: Pass,
    catalogue: &Catalogue,
) -> (Publisher, (Pass, bool))
    requires publisher { publisher.cells ≡ cells.now }
    requires start { publisher.history ≡ (pos 1 ∷ pos 1 ∷ []) ∷ [] }
    requires pass { pass.cells ≡ cells.now }
    requires variables { cells.now.variables ≡ length catalogue.now.initial }
    requires known { IsCallable catalogue.now (record { 0 = 0 }) [] }
    ensures publisher { result.0.cells ≡ publisher.cells }
    ensures pass { result.1.0.cells ≡ pass.cells }
{
    join(
        rt,
        move || -> Publisher
            requires { (publisher.cells ≡ cells.now) × (publisher.history ≡ (pos 1 ∷ pos 1 ∷ []) ∷ []) }
            ensures { result.cells ≡ cells.entry.now }
        { publish_some(cells, publisher, 1000) },
        move || -> (Pass, bool)
            requires { (pass.cells ≡ cells.now) × (cells.now.variables ≡ length catalogue.now.initial)
                × IsCallable catalogue.now (record { 0 = 0 }) [] }
            ensures { result.0.cells ≡ cells.entry.now }
        { observe_some(alloc, cells, pass, catalogue, 1000) },
    )
}

/// Whether of cells in which both variables are 1 each sum that is observed beside the publisher is of one
/// state, and after a meeting that of the last.
fn sums_are_of_one_state(
    rt: &impl Threads,
    alloc: Global,
    catalogue: &Catalogue,
    cells: &Cells,
    publisher: Publisher,
    pass: Pass,
) -> bool
    requires publisher { publisher.cells ≡ cells.now }
    requires start { publisher.history ≡ (pos 1 ∷ pos 1 ∷ []) ∷ [] }
    requires pass { pass.cells ≡ cells.now }
    requires variables { cells.now.variables ≡ length catalogue.now.initial }
    requires known { IsCallable catalogue.now (record { 0 = 0 }) [] }
{
    let (mut publisher, (mut pass, fine)) = both(rt, alloc, cells, publisher, pass, catalogue);
    publisher.meet(cells, &mut pass);
    let last = Outcome::Returned(2002);
    fine && sees(alloc, cells, &mut pass, catalogue, SUM, last)
}

/// Whether that is so of cells that are opened for it.
fn are_observed(rt: &impl Threads, alloc: Global, catalogue: &Catalogue) -> bool {
    if catalogue.initial().len() != 2 || !catalogue.is_callable(SUM, &[]) {
        return false;
    }
    let Ok((cells, publisher, mut passes)) = Cells::open(alloc, &[1, 1], 1) else {
        return false;
    };
    match passes.pop() {
        Some(pass) => sums_are_of_one_state(rt, alloc, catalogue, &cells, publisher, pass),
        None => false,
    }
}

#[test]
fn sums_beside_a_publisher_are_of_one_state(rt: HostRuntime) {
    match catalogue(rt.alloc(), PAIR) {
        Some(catalogue) => assert!(rt; are_observed(&rt, rt.alloc(), &catalogue)),
        None => panic!(rt; "no catalogue"),
    }
}
