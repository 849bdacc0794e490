//! One turn: a task of an instance goes from one configuration to the next.

ghost use Rattle.std.specs.Prelude.{◌≡◌, ◌≤◌, ◌<◌, length, IfOk, OnOk};
ghost use Rattle.txn_programs.specs.Listing.{IsCallable, call_program};
ghost use Rattle.txn_programs.specs.Meaning.{outcome, after};
ghost use Rattle.attempt_writes.specs.Order.{AllKnown};
ghost use Rattle.attempt.specs.Frame.{store};

use crate::kept::Kept;
use crate::search::copy;
use attempt::Attempt;
use explore_law::{End, InstanceId};
use txn::{Call, Catalogue, Memory, Outcome, VarId};

/// How the call ends on these values, which become those after it: they stay as they are
/// where it does not return. The attempt is made anew. Out of memory leaves the values.
fn run_on<'a>(
    attempt: &mut Attempt<'a>,
    catalogue: &'a Catalogue,
    call: &Call,
    values: &mut Vec<i64>,
) -> Result<Outcome, Memory>
    requires known { IsCallable catalogue.now call.now.tx call.now.arguments }
    requires values { length values.old.items ≡ length catalogue.now.initial }
    ensures outcome { IfOk result
        (λ o. outcome (call_program catalogue.now call.now.tx call.now.arguments) values.old.items ≡ o) }
    ensures after { OnOk result
        (values.new.items ≡ after (call_program catalogue.now call.now.tx call.now.arguments) values.old.items) }
    ensures size { OnOk result (length values.new.items ≡ length values.old.items) }
{
    let outcome = outcome_on(attempt, catalogue, call, values.as_slice())?;
    store_in(attempt.writes(), values);
    Ok(outcome)
}

/// How the call ends on these values, by an attempt that is made anew.
pub(crate) fn outcome_on<'a>(
    attempt: &mut Attempt<'a>,
    catalogue: &'a Catalogue,
    call: &Call,
    values: &[i64],
) -> Result<Outcome, Memory>
    requires known { IsCallable catalogue.now call.now.tx call.now.arguments }
    requires values { length values.now ≡ length catalogue.now.initial }
    ensures outcome { IfOk result
        (λ o. outcome (call_program catalogue.now call.now.tx call.now.arguments) values.now ≡ o) }
    ensures after { OnOk result (after (call_program catalogue.now call.now.tx call.now.arguments) values.now
        ≡ store attempt.new.writes values.now) }
    ensures variables { OnOk result (attempt.new.variables ≡ length catalogue.now.initial) }
{
    catalogue.rules();
    attempt.restart(catalogue, call.tx, call.arguments.as_slice());
    attempt.evaluate_on(values)
}

/// Stores these writes in the values.
fn store_in(writes: &[(VarId, i64)], values: &mut Vec<i64>)
    requires { AllKnown (length values.old.items) writes.now }
    ensures value { values.new.items ≡ store writes.now values.old.items }
    ensures size { length values.new.items ≡ length values.old.items }
{
    let count = writes.len();
    'writes: for done in 0..count {
        let (x, value) = writes[count - 1 - done];
        values[x.0 as usize] = value;
    }
}

ghost use Rattle.std.specs.Prelude.{Option};
ghost use Rattle.explore_law.specs.Instances.{instances};
ghost use Rattle.explore_law.specs.Orders.{count_at};
ghost use Rattle.explore_search.specs.Shelf.{config};
ghost use Rattle.explore_search.specs.Turns.{Turns};

/// Takes a turn of the instance at the configuration of these values and counts, if it has one: they become
/// those of the configuration to which it leads, and the answer is how it ended.
pub(crate) fn take_turn<'a>(
    attempt: &mut Attempt<'a>,
    catalogue: &'a Catalogue,
    calls: &[Call],
    k: InstanceId,
    values: &mut Vec<i64>,
    left: &mut Vec<u32>,
) -> Result<Option<Outcome>, Memory>
    requires calls { calls.now ≡ instances catalogue.now }
    requires known { k.0 < length calls.now }
    requires values { length values.old.items ≡ length catalogue.now.initial }
    requires left { length left.old.items ≡ length calls.now }
    ensures turn { IfOk result
        (Turns catalogue.now (config values.old.items left.old.items) k (config values.new.items left.new.items)) }
    ensures values { OnOk result (length values.new.items ≡ length values.old.items) }
    ensures left { OnOk result (length left.new.items ≡ length left.old.items) }
{
    catalogue.rules();
    let count = left[k.0 as usize];
    if count == 0 {
        return Ok(None);
    }
    let outcome = run_on(attempt, catalogue, &calls[k.0 as usize], values)?;
    if let Outcome::Retries = outcome {
        return Ok(None);
    }
    left[k.0 as usize] = count - 1;
    Ok(Some(outcome))
}

ghost use Rattle.std.specs.Prelude.{IfSome};
ghost use Rattle.explore_law.specs.Explored.{end_config};
ghost use Rattle.explore_search.specs.Keeping.{AreAnswers};

/// Takes a turn of the instance at a configuration, if it has one, by an answer that is kept or made: the other one
/// becomes the configuration to which it leads, and the answer is how it ended.
pub(crate) fn turn_from<'a>(
    kept: &mut Kept,
    attempt: &mut Attempt<'a>,
    catalogue: &'a Catalogue,
    calls: &[Call],
    k: InstanceId,
    here: &End,
    next: &mut End,
) -> Result<Option<Outcome>, Memory>
    requires calls { calls.now ≡ instances catalogue.now }
    requires known { k.0 < length calls.now }
    requires values { length here.now.values.items ≡ length catalogue.now.initial }
    requires left { length here.now.waiting.items ≡ length calls.now }
    requires answers { AreAnswers catalogue.now kept.old.answers.items }
    ensures turn { IfOk result (Turns catalogue.now (end_config here.now) k (end_config next.new)) }
    ensures values { IfOk result
        (λ t. IfSome t (λ _. length next.new.values.items ≡ length here.now.values.items)) }
    ensures left { IfOk result
        (λ t. IfSome t (λ _. length next.new.waiting.items ≡ length here.now.waiting.items)) }
    ensures answers { OnOk result (AreAnswers catalogue.now kept.new.answers.items) }
{
    let left = here.waiting[k.0 as usize];
    if left == 0 {
        return Ok(None);
    }
    let number = kept.answer_on(attempt, catalogue, calls, k, here.values.as_slice())?;
    let answer = &kept.answers[number];
    if let Outcome::Retries = answer.outcome {
        return Ok(None);
    }
    copy(&mut next.values, here.values.as_slice())?;
    store_in(answer.writes.as_slice(), &mut next.values);
    copy(&mut next.waiting, here.waiting.as_slice())?;
    next.waiting[k.0 as usize] = left - 1;
    Ok(Some(answer.outcome))
}
