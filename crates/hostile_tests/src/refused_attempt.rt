//! What a refused supply and a refused advance leave.

ghost use Rattle.std.specs.Prelude.{◌≡◌};

use crate::on_many::{Use, is_right_on};
use crate::parts::{CELLS, FAR, MANY};
use crate::uses::{advanced_twice, supplied_or_asked};
use attempt::{Attempt, Next, Stand};
use std::alloc::Global;
use txn::{Catalogue, TxId, VarId};

/// Whether the attempt was told 6 for each of so many variables, and nothing else.
fn was_told(attempt: &Attempt<'_>, count: usize) -> bool {
    attempt.log().len() == count && attempt.log().iter().all(|pair| pair.1 == 6)
}

/// Tells the attempt the variable that it needs. Whether a refused supply left the log and the need
/// as they were, and the next one succeeds.
fn supplies(attempt: &mut Attempt<'_>, x: VarId) -> bool
    requires { attempt.old.stand ≡ Stand.Needs x }
{
    let told = attempt.log().len();
    match supplied_or_asked(attempt, x, 6) {
        None => true,
        Some(next) => {
            next == Next::Need(x) && was_told(attempt, told) && attempt.supply(x, 6).is_ok()
        }
    }
}

/// Drives the attempt to its end. Whether each refusal left what it has to: after a refused advance
/// each later one is refused.
fn is_driven(attempt: &mut Attempt<'_>) -> bool {
    for _variable in 0..=CELLS {
        match attempt.advance() {
            Next::Need(x) => {
                if !supplies(attempt, x) {
                    return false;
                }
            }
            Next::Memory => return advanced_twice(attempt) == (Next::Memory, Next::Memory),
            next => return next == Next::Returned(7),
        }
    }
    false
}

/// Whether an attempt of the first transaction is driven so.
pub(crate) fn drives(alloc: Global, catalogue: &Catalogue) -> bool {
    if !catalogue.is_callable(TxId(0), &[]) {
        return false;
    }
    let mut attempt = Attempt::new(alloc, catalogue, TxId(0), &[]);
    is_driven(&mut attempt)
}

#[test]
fn an_attempt_goes_on_or_is_spent(rt: HostRuntime) {
    for text in [MANY, FAR] {
        assert!(rt; is_right_on(rt.alloc(), text, Use::Attempt));
    }
}
