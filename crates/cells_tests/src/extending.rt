//! Extends a pass by what was read, one after another with publishing.

ghost use Rattle.std.specs.Prelude.{◌≡◌, ℕ, ◌<◌, ◌≤◌, [], ◌∷◌, pos, length};
ghost use Rattle.txn.specs.Listing.{IsCallable};
ghost use Rattle.txn_words.specs.Stores.{id_of};

use crate::observing::{catalogue, told};
use crate::parts::{X, Y, begins, is_stale, sees};
use attempt::Attempt;
use cells::{Cells, Extend, Pass, Publisher};
use run_observer::Cut;
use std::alloc::Global;
use txn::{Catalogue, TxId, VarId};

/// Whether the pass is extended by the log with this answer, and is open exactly where it moved.
fn extends(cells: &Cells, pass: &mut Pass, log: &[(VarId, i64)], answer: Extend) -> bool
    requires own { pass.old.cells ≡ cells.now }
    requires exist { (i : ℕ) → i < length log.now → id_of log.now i < cells.now.variables }
    ensures own { pass.new.cells ≡ pass.old.cells }
{
    pass.extend(cells, log) == answer && pass.is_open() == (answer == Extend::Moved)
}

/// Whether an empty log moves a pass that never began, where x is 3.
pub(crate) fn is_told_with_nothing(cells: &Cells, pass: &mut Pass) -> bool
    requires own { pass.old.cells ≡ cells.now }
    requires variables { cells.now.variables ≡ 2 }
    ensures own { pass.new.cells ≡ pass.old.cells }
{
    extends(cells, pass, &[], Extend::Moved) && sees(cells, pass, X, 3)
}

/// Publishes that y, which is 5, is -5.
fn publish_y(cells: &Cells, publisher: &mut Publisher)
    requires own { publisher.old.cells ≡ cells.now }
    requires start { publisher.old.history ≡ (pos 3 ∷ pos 4 ∷ []) ∷ (pos 3 ∷ pos 5 ∷ []) ∷ [] }
    ensures own { publisher.new.cells ≡ publisher.old.cells }
{
    publisher.publish(cells, &[(Y, -5)], &[3, 5]);
}

/// Whether a pass that read x and found y to be stale moves, and reads y. It does not move with what y was,
/// or with what x never was, and moves again with what both are.
pub(crate) fn moves_over_y(cells: &Cells, publisher: &mut Publisher, pass: &mut Pass) -> bool
    requires own { pass.old.cells ≡ cells.now }
    requires publisher { publisher.old.cells ≡ cells.now }
    requires start { publisher.old.history ≡ (pos 3 ∷ pos 4 ∷ []) ∷ (pos 3 ∷ pos 5 ∷ []) ∷ [] }
    requires variables { cells.now.variables ≡ 2 }
{
    begins(cells, pass);
    publish_y(cells, publisher);
    sees(cells, pass, X, 3)
        && is_stale(cells, pass, Y)
        && extends(cells, pass, &[(X, 3)], Extend::Moved)
        && sees(cells, pass, Y, -5)
        && extends(cells, pass, &[(X, 3), (Y, 5)], Extend::Changed)
        && extends(cells, pass, &[(X, 4), (Y, -5)], Extend::Changed)
        && extends(cells, pass, &[(X, 3), (Y, -5)], Extend::Moved)
        && sees(cells, pass, Y, -5)
}

/// Publishes that y, or both, are other values than 3 and 4.
fn publish_other(cells: &Cells, publisher: &mut Publisher, both: bool)
    requires own { publisher.old.cells ≡ cells.now }
    requires start { publisher.old.history ≡ (pos 3 ∷ pos 4 ∷ []) ∷ [] }
{
    if both {
        publisher.publish(cells, &[(X, 6), (Y, -5)], &[3, 4]);
    } else {
        publisher.publish(cells, &[(Y, -5)], &[3, 4]);
    }
}

/// Whether an attempt that has read x when the others are published is told y where x is as it was, and is
/// told nothing where x has changed.
fn is_told_beside(
    cells: &Cells,
    publisher: &mut Publisher,
    pass: &mut Pass,
    attempt: &mut Attempt<'_>,
    both: bool,
) -> bool
    requires own { pass.old.cells ≡ cells.now }
    requires publisher { publisher.old.cells ≡ cells.now }
    requires start { publisher.old.history ≡ (pos 3 ∷ pos 4 ∷ []) ∷ [] }
    requires variables { attempt.old.variables ≤ cells.now.variables }
{
    begins(cells, pass);
    let first = told(cells, pass, attempt);
    publish_other(cells, publisher, both);
    let second = told(cells, pass, attempt);
    let (wanted, pairs) = if both {
        (Err(Cut::Stale), 1)
    } else {
        (Ok(()), 2)
    };
    first == Some(Ok(()))
        && second == Some(wanted)
        && attempt.log() == &[(X, 3), (Y, -5)][..pairs]
        && pass.is_open() != both
}

/// Whether it is so of cells that were just opened, and of an attempt of this transaction.
fn is_told_of_new_cells(alloc: Global, catalogue: &Catalogue, both: bool) -> bool
    requires some { IsCallable catalogue.now (record { 0 = 0 }) [] }
    requires two { length catalogue.now.initial ≡ 2 }
{
    let Ok((cells, mut publisher, mut passes)) = Cells::open(alloc, &[3, 4], 1) else {
        return false;
    };
    let mut attempt = Attempt::new(alloc, catalogue, TxId(0), &[]);
    is_told_beside(&cells, &mut publisher, &mut passes[0], &mut attempt, both)
}

/// Whether it is so of the catalogue's first transaction, which reads two variables.
fn are_told(alloc: Global, catalogue: &Catalogue) -> bool {
    catalogue.initial().len() == 2
        && catalogue.is_callable(TxId(0), &[])
        && is_told_of_new_cells(alloc, catalogue, false)
        && is_told_of_new_cells(alloc, catalogue, true)
}

const SUM: &str = "(var x 3)(var y 4)(tx sum (skip) (add x y))(run sum 1)";

#[test]
fn a_stale_read_moves_an_attempt_unless_its_reads_have_changed(rt: HostRuntime) {
    match catalogue(rt.alloc(), SUM) {
        Some(catalogue) => assert!(rt; are_told(rt.alloc(), &catalogue)),
        None => panic!(rt; "no catalogue"),
    }
}
