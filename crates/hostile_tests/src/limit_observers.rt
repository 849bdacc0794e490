//! Observers and passes at their limits.

ghost use Rattle.std.specs.Prelude.{◌≡◌, length};

use crate::limit_texts::{Part, text_of};
use cells::{Cells, Pass};
use run_observer::{Observed, observe};
use std::alloc::Global;
use txn::{Catalogue, Outcome, TxId};
use txn_text::read_file;

/// A transaction that reads 256 variables.
pub(crate) const READS_ALL: &[Part<'static>] = &[
    (256, &["(var v", " 5)"]),
    (1, &["(tx all (seq"]),
    (256, &[" (if (eq v", " 5) (skip) (throw 1))"]),
    (1, &[") v255)(run all 1)"]),
];

/// Whether the first transaction is observed to return 5.
fn sees_five(alloc: Global, cells: &Cells, pass: &mut Pass, catalogue: &Catalogue) -> bool
    requires own { pass.old.cells ≡ cells.now }
    requires variables { cells.now.variables ≡ length catalogue.now.initial }
{
    if !catalogue.is_callable(TxId(0), &[]) {
        return false;
    }
    observe(alloc, cells, pass, catalogue, TxId(0), &[]) == Observed::Outcome(Outcome::Returned(5))
}

/// Whether the first and the last of 32 readers observe the transaction.
fn observe_it(alloc: Global, catalogue: &Catalogue) -> bool {
    let Ok((cells, _, mut passes)) = Cells::open(alloc, catalogue.initial(), 32) else {
        return false;
    };
    passes.len() == 32
        && sees_five(alloc, &cells, &mut passes[0], catalogue)
        && sees_five(alloc, &cells, &mut passes[31], catalogue)
}

/// Whether so they do that of this text.
fn observe_in(alloc: Global, text: &str) -> bool {
    match read_file(alloc, text.as_bytes()) {
        Ok(catalogue) => observe_it(alloc, &catalogue),
        Err(_) => false,
    }
}

/// Whether so they do that of all variables.
fn observe_all(alloc: Global) -> bool {
    match text_of(alloc, READS_ALL) {
        Ok(text) => observe_in(alloc, text.as_str()),
        Err(_) => false,
    }
}

#[test]
fn readers_observe_all_variables(rt: HostRuntime) {
    assert!(rt; observe_all(rt.alloc()));
}
