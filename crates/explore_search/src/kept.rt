//! Answers of calls, kept by what was read: where an instance reads the same values again, nothing is evaluated.

ghost use Rattle.std.specs.Prelude.{◌≡◌, ◌<◌, [], length, IfOk, IfSome, OnOk};
ghost use Rattle.std.specs.Bool.{Decides};
ghost use Rattle.attempt.specs.Frame.{Agrees};
ghost use Rattle.attempt.specs.Order.{AllKnown};
ghost use Rattle.explore_law.specs.Instances.{instances};
ghost use Rattle.explore_search.specs.Keeping.{AreAnswers, HoldsAt, HoldsOn, IsAnswer, IsPut};

use crate::hash::mix;
use crate::search::copy;
use attempt::{Attempt, frame};
use explore_law::InstanceId;
use std::alloc::{AllocError, Global};
use txn::{Call, Catalogue, Memory, Outcome, VarId};

/// How a task of an instance ends wherever these variables have these values, and what it writes then.
#[derive(Drop)]
pub(crate) struct Answer {
    pub(crate) instance: InstanceId,
    pub(crate) outcome: Outcome,
    pub(crate) reads: Vec<(VarId, i64)>,
    pub(crate) writes: Vec<(VarId, i64)>,
}

/// The answers that are kept, no more than there are slots.
pub(crate) struct Kept {
    pub(crate) answers: Vec<Answer>,
    /// For each slot one more than the number of its answer, or 0.
    slots: Vec<u32>,
    /// For each instance the variables that were read of it so far: their values lead to a slot.
    looked: Vec<Vec<VarId>>,
    alloc: Global,
}

/// Written by hand, so that its end is one call wherever answers are kept.
impl Drop for Kept {
    fn drop(self) {
        let Kept {
            answers: _answers,
            slots: _slots,
            looked: _looked,
            alloc: _,
        } = self;
    }
}

/// To how many slots values lead. There is one more, for answers that are too long to be kept.
const SLOTS: usize = 32_768;

/// The most pairs, read and written, of an answer that is kept.
const MAX_PAIRS: usize = 32;

impl Kept {
    /// No answer yet, of so many instances.
    pub(crate) fn new(alloc: Global, instances: usize) -> Result<Kept, AllocError>
        ensures { IfOk result (λ k. k.answers.items ≡ []) }
    {
        let mut looked = Vec::with_capacity(alloc, instances)?;
        'instances: for _k in 0..instances {
            looked.push(Vec::new(alloc))?;
        }
        Ok(Kept {
            answers: Vec::new(alloc),
            slots: vec![in alloc; 0; SLOTS + 1]?,
            looked,
            alloc,
        })
    }

    /// The number of an answer of the instance that holds on these values: one that is kept, or that of an attempt,
    /// which is made anew.
    pub(crate) fn answer_on<'a>(
        &mut self,
        attempt: &mut Attempt<'a>,
        catalogue: &'a Catalogue,
        calls: &[Call],
        k: InstanceId,
        values: &[i64],
    ) -> Result<usize, Memory>
        requires calls { calls.now ≡ instances catalogue.now }
        requires known { k.0 < length calls.now }
        requires values { length values.now ≡ length catalogue.now.initial }
        requires answers { AreAnswers catalogue.now self.old.answers.items }
        ensures holds { IfOk result (λ i. HoldsAt self.new.answers.items i k values.now) }
        ensures answers { OnOk result (AreAnswers catalogue.now self.new.answers.items) }
    {
        if let Some(number) = self.kept_on(catalogue, k, values) {
            return Ok(number);
        }
        let answer = answered(self.alloc, attempt, catalogue, calls, k, values)?;
        look(&mut self.looked, k, answer.reads.as_slice())?;
        let slot = if answer.reads.len() + answer.writes.len() > MAX_PAIRS {
            SLOTS
        } else {
            slot_of(self.looked.as_slice(), k, values)
        };
        let number = self.put(slot, answer)?;
        Ok(number)
    }

    /// The number of an answer that is kept of the instance and holds on these values, if they lead to one.
    fn kept_on(&self, catalogue: &Catalogue, k: InstanceId, values: &[i64]) -> Option<usize>
        requires values { length values.now ≡ length catalogue.now.initial }
        requires answers { AreAnswers catalogue.now self.now.answers.items }
        ensures { IfSome result (λ i. HoldsAt self.now.answers.items i k values.now) }
    {
        let slot = slot_of(self.looked.as_slice(), k, values);
        let number = number_in(self.slots.as_slice(), slot, self.answers.len())?;
        let answer = &self.answers[number];
        if answer.instance.0 == k.0 && agrees(answer.reads.as_slice(), values) {
            return Some(number);
        }
        None
    }

    /// Keeps the answer in this slot, in place of the one that is there: the number of it.
    fn put(&mut self, slot: usize, answer: Answer) -> Result<usize, AllocError>
        ensures { IfOk result (λ i. IsPut self.old.answers.items i answer self.new.answers.items) }
    {
        let count = self.answers.len();
        if let Some(number) = number_in(self.slots.as_slice(), slot, count) {
            self.answers[number] = answer;
            return Ok(number);
        }
        self.answers.push(answer)?;
        if let (Ok(next), Some(number)) = (u32::try_from(count + 1), self.slots.get_mut(slot)) {
            *number = next;
        }
        Ok(count)
    }
}

/// The number of the slot's answer, if there is one among so many.
fn number_in(slots: &[u32], slot: usize, answers: usize) -> Option<usize>
    ensures { IfSome result (λ i. i < answers) }
{
    let next = *slots.get(slot)? as usize;
    if 0 < next && next <= answers {
        Some(next - 1)
    } else {
        None
    }
}

/// What an attempt of the instance comes to on these values.
fn answered<'a>(
    alloc: Global,
    attempt: &mut Attempt<'a>,
    catalogue: &'a Catalogue,
    calls: &[Call],
    k: InstanceId,
    values: &[i64],
) -> Result<Answer, Memory>
    requires calls { calls.now ≡ instances catalogue.now }
    requires known { k.0 < length calls.now }
    requires values { length values.now ≡ length catalogue.now.initial }
    ensures answer { IfOk result (IsAnswer catalogue.now) }
    ensures holds { IfOk result (λ a. HoldsOn a k values.now) }
{
    catalogue.rules();
    frame();
    let call = &calls[k.0 as usize];
    attempt.restart(catalogue, call.tx, call.arguments.as_slice());
    let outcome = attempt.evaluate_on(values)?;
    let mut reads = Vec::new(alloc);
    copy(&mut reads, attempt.log())?;
    let mut writes = Vec::new(alloc);
    copy(&mut writes, attempt.writes())?;
    Ok(Answer {
        instance: k,
        outcome,
        reads,
        writes,
    })
}

/// The variables that were read of the instance are looked at from now on, each once.
fn look(
    looked: &mut Vec<Vec<VarId>>,
    k: InstanceId,
    reads: &[(VarId, i64)],
) -> Result<(), AllocError> {
    let Some(variables) = looked.get_mut(k.0 as usize) else {
        return Ok(());
    };
    'reads: for (x, _) in reads {
        if !variables.contains(x) {
            variables.push(*x)?;
        }
    }
    Ok(())
}

/// Whether the values are those that were read.
fn agrees(reads: &[(VarId, i64)], values: &[i64]) -> bool
    requires { AllKnown (length values.now) reads.now }
    ensures { Decides result (Agrees reads.now values.now) }
{
    'reads: for pair in reads {
        if values[pair.0.0 as usize] != pair.1 {
            return false;
        }
    }
    true
}

/// The slot to which these values of the variables lead that were read of the instance so far.
fn slot_of(looked: &[Vec<VarId>], k: InstanceId, values: &[i64]) -> usize {
    let mut hash = mix(1, u64::from(k.0));
    if let Some(variables) = looked.get(k.0 as usize) {
        'variables: for x in variables {
            if let Some(value) = values.get(x.0 as usize) {
                hash = mix(hash, value.cast_unsigned());
            }
        }
    }
    hash as usize % SLOTS
}
