//! Standing conditions as steps: compiled once, and asked after each transaction that returns.

ghost use Rattle.std.specs.Prelude.{◌≡◌, length, IfOk, IsTrue, Ok, ℤ};
ghost use Rattle.txn_programs.specs.Meaning.{upheld};
ghost use Rattle.txn_programs.specs.Scope.{ConditionsKnown};
ghost use Rattle.txn_evaluator.specs.Always.{conditions_of};
ghost use Rattle.txn_registers.specs.Compiled.{AreTests};

use crate::compile::{Unfit, tests};
use crate::constants::lay_out_conditions;
use crate::registers::{Compiled, framed, run_steps, undo_all, without_steps};
use crate::running::Did;
use std::alloc::{AllocError, Global};
use txn_programs::{Cond, Outcome};

/// Compiles the standing conditions, and takes the room that asking them needs.
pub fn compile_conditions(alloc: Global, always: &[(String, Cond)]) -> Result<Compiled, AllocError>
    ensures { IfOk result (λ c. AreTests c (conditions_of always.now)) }
{
    let layout = lay_out_conditions(alloc, always)?;
    match tests(alloc, &layout, always) {
        Ok(code) => Ok(framed(alloc, layout, code)?),
        Err(Unfit::TooLarge) => Ok(without_steps(alloc, layout)),
        Err(Unfit::NoMemory) => Err(AllocError),
    }
}

/// Whether the steps find that all standing conditions are true of the state. They write nothing.
#[inline(always)]
pub(crate) fn all_hold(tests: &mut Compiled, always: &[(String, Cond)], state: &mut [i64]) -> bool
    requires tests { AreTests tests.old (conditions_of always.now) }
    requires known { ConditionsKnown (length state.old) (conditions_of always.now) }
    ensures upheld { IsTrue result → (v : ℤ) → upheld 0 (conditions_of always.now) state.old v ≡ Ok v }
    ensures same { state.new ≡ state.old }
    ensures tests { AreTests tests.new (conditions_of always.now) }
{
    if !tests.fits || tests.values > state.len() {
        return false;
    }
    let mut notes = Vec::new(*tests.code.allocator());
    let did = run_steps(tests, &[], state, &mut notes);
    undo_all(state, &mut notes);
    match did {
        Did::Ended(o) => matches!(o, Outcome::Retries),
        _ => false,
    }
}
