//! Observing one after another with publishing.

ghost use Rattle.std.specs.Prelude.{◌≡◌, ◌<◌, ◌≤◌, [], ◌∷◌, pos, length};
ghost use Rattle.txn.specs.Listing.{IsCallable};

use crate::parts::{X, begins, publish_six, sees as shows};
use attempt::{Attempt, Next};
use cells::{Cells, Pass, Publisher};
use run_observer::{Cut, Observed, observe, tell};
use std::alloc::Global;
use txn::{Catalogue, Fault, Outcome, TxId};
use txn_text::read_file;

/// One variable, and transactions that return, write, throw and retry.
const FILE: &str = "(var x 5)(tx inc (set x (add x 1)) x)(tx bad (throw x) 0)\
    (tx wait (if (eq x 6) (retry) (skip)) x)(run inc 2)";

/// The catalogue of a text, `None` where it is no file or memory is refused.
pub(crate) fn catalogue(alloc: Global, text: &str) -> Option<Catalogue> {
    match read_file(alloc, text.as_bytes()) {
        Ok(catalogue) => Some(catalogue),
        Err(_) => None,
    }
}

/// Whether the transaction is observed to end so.
pub(crate) fn sees(
    alloc: Global,
    cells: &Cells,
    pass: &mut Pass,
    catalogue: &Catalogue,
    tx: TxId,
    end: Outcome,
) -> bool
    requires own { pass.old.cells ≡ cells.now }
    requires variables { cells.now.variables ≡ length catalogue.now.initial }
    ensures own { pass.new.cells ≡ pass.old.cells }
{
    catalogue.is_callable(tx, &[])
        && observe(alloc, cells, pass, catalogue, tx, &[]) == Observed::Outcome(end)
}

/// Whether a pass that begins reads that x is 6.
fn reads_six(cells: &Cells, pass: &mut Pass) -> bool
    requires own { pass.old.cells ≡ cells.now }
    requires exists { 0 < cells.now.variables }
    ensures own { pass.new.cells ≡ pass.old.cells }
{
    begins(cells, pass);
    shows(cells, pass, X, 6)
}

/// Whether what was written is read back and observed, and the pass stays open; so are a throw and a retry observed.
fn reads_back(
    alloc: Global,
    cells: &Cells,
    publisher: &mut Publisher,
    pass: &mut Pass,
    catalogue: &Catalogue,
) -> bool
    requires own { pass.old.cells ≡ cells.now }
    requires published { publisher.old.cells ≡ cells.now }
    requires one { cells.now.variables ≡ 1 }
    requires variables { length catalogue.now.initial ≡ 1 }
{
    publisher.meet(cells, pass);
    reads_six(cells, pass)
        && sees(alloc, cells, pass, catalogue, TxId(0), Outcome::Returned(7))
        && pass.is_open()
        && reads_six(cells, pass)
        && sees(
            alloc,
            cells,
            pass,
            catalogue,
            TxId(1),
            Outcome::Thrown(Fault::User(6)),
        )
        && sees(alloc, cells, pass, catalogue, TxId(2), Outcome::Retries)
}

/// How the attempt is told what the pass reads of the variable that it needs.
pub(crate) fn told(
    cells: &Cells,
    pass: &mut Pass,
    attempt: &mut Attempt<'_>,
) -> Option<Result<(), Cut>>
    requires own { pass.old.cells ≡ cells.now }
    requires variables { attempt.old.variables ≤ cells.now.variables }
    ensures own { pass.new.cells ≡ pass.old.cells }
    ensures variables { attempt.new.variables ≡ attempt.old.variables }
{
    if !pass.is_open() {
        return None;
    }
    match attempt.advance() {
        Next::Need(x) => Some(tell(attempt, x, cells, pass)),
        _ => None,
    }
}

/// Whether the attempt is told that x is 6, though x was changed after the begin: it had read nothing before.
fn is_told_six(
    cells: &Cells,
    publisher: &mut Publisher,
    pass: &mut Pass,
    attempt: &mut Attempt<'_>,
) -> bool
    requires own { pass.old.cells ≡ cells.now }
    requires published { publisher.old.cells ≡ cells.now }
    requires start { publisher.old.history ≡ (pos 5 ∷ []) ∷ [] }
    requires variables { attempt.old.variables ≤ cells.now.variables }
    ensures own { pass.new.cells ≡ pass.old.cells }
    ensures published { publisher.new.cells ≡ publisher.old.cells }
{
    begins(cells, pass);
    publish_six(cells, publisher);
    told(cells, pass, attempt) == Some(Ok(())) && attempt.log() == [(X, 6)].as_slice()
}

/// Whether so it is of an attempt of the catalogue's first transaction.
fn first_is_told(
    alloc: Global,
    cells: &Cells,
    publisher: &mut Publisher,
    pass: &mut Pass,
    catalogue: &Catalogue,
) -> bool
    requires own { pass.old.cells ≡ cells.now }
    requires published { publisher.old.cells ≡ cells.now }
    requires start { publisher.old.history ≡ (pos 5 ∷ []) ∷ [] }
    requires variables { length catalogue.now.initial ≤ cells.now.variables }
    requires known { IsCallable catalogue.now (record { 0 = 0 }) [] }
    ensures own { pass.new.cells ≡ pass.old.cells }
    ensures published { publisher.new.cells ≡ publisher.old.cells }
{
    let mut attempt = Attempt::new(alloc, catalogue, TxId(0), &[]);
    is_told_six(cells, publisher, pass, &mut attempt)
}

/// Whether all that is so of cells whose one variable is 5.
fn over(alloc: Global, catalogue: &Catalogue) -> bool {
    if catalogue.initial().len() != 1 || !catalogue.is_callable(TxId(0), &[]) {
        return false;
    }
    let Ok((cells, mut publisher, mut passes)) = Cells::open(alloc, &[5], 1) else {
        return false;
    };
    let pass = &mut passes[0];
    first_is_told(alloc, &cells, &mut publisher, pass, catalogue)
        && reads_back(alloc, &cells, &mut publisher, pass, catalogue)
}

#[test]
fn attempts_are_told_and_transactions_observed(rt: HostRuntime) {
    match catalogue(rt.alloc(), FILE) {
        Some(catalogue) => assert!(rt; over(rt.alloc(), &catalogue)),
        None => panic!(rt; "no catalogue"),
    }
}
