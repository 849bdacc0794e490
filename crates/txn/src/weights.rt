//! How much transactions weigh, and how tasks of them are run.
//!
//! To evaluate a short transaction costs no more than to give the lock back and to come for it again, or
//! than to be stale in vain. So a task of one has its turn under the lock. A light one is tried on a copy
//! of the present values, some of them for each time under the lock. A long one is tried on what its pass
//! reads, beside all that others commit meanwhile.

ghost use Rattle.std.specs.Prelude.{◌≡◌, ◌<◌, ◌≤◌, length, IfOk};
ghost use Rattle.std.specs.List.{list_any};
ghost use Rattle.txn.specs.Weighing.{is_store, is_back, is_light, may_wait, size_by, size_in, are_short};

use crate::catalogue::Catalogue;
use std::alloc::{AllocError, Global};
use txn_programs::{Call, Op, TxId};

/// From which weight on tasks are tried with no lock held. All others have their turns under the lock.
#[derive(Clone, Copy, Debug, PartialEq, Eq)]
pub struct Weights {
    /// From this weight on tasks that write nothing, on a copy of the present values, some of them together.
    pub light: u32,
    /// From this weight on all tasks, each by itself.
    pub long: u32,
}

impl Weights {
    /// Each task is tried by itself.
    pub const EACH: Weights = Weights { light: 0, long: 0 };

    /// No task is tried.
    pub const NONE: Weights = Weights {
        light: u32::MAX,
        long: u32::MAX,
    };

    /// Tasks are tried where that costs several workers less time than their turns would.
    pub const LEAST_TIME: Weights = Weights {
        light: 61,
        long: 2_001,
    };
}

/// How many light tasks there are at least for each short one where light ones are tried. Most short tasks
/// write, and so make the light ones stale that others are trying just then.
const PER_SHORT: u32 = 12;

/// The same where short ones are held, so that some of them make others stale at once.
const PER_HELD: u32 = 4;

/// How tasks of a transaction are run; but for long ones with what they weigh.
#[derive(Clone, Copy, Debug, PartialEq, Eq)]
pub enum Size {
    /// By a turn under the lock.
    Short(u32),
    /// By such a turn, with others together.
    Held(u32),
    /// By tries on a copy of the present values. It writes nothing.
    Light(u32),
    /// By tries on what a pass reads.
    Long,
}

/// What a transaction weighs at most, however long it is: so none is tried where `u32::MAX` is asked for.
const HEAVIEST: u32 = u32::MAX - 1;

/// How many instructions are done at most, with so many before them. Each counts as often as all loops
/// that begin before it have turns together, so what stands behind a loop is counted too often.
fn with_code(before: u32, code: &[Op]) -> u32
    requires { before ≤ HEAVIEST }
    ensures { result ≤ HEAVIEST }
{
    let mut weight = before;
    let mut turns: u32 = 1;
    for op in code {
        if let Op::Begin(count, _) = op {
            turns = turns.saturating_mul((*count).max(1));
        }
        weight = weight.saturating_add(turns).min(HEAVIEST);
    }
    weight
}

/// The weight of a transaction, the standing conditions included.
fn weight_of(catalogue: &Catalogue, tx: TxId) -> u32
    requires { tx.0 < length catalogue.now.transactions }
    ensures { result ≤ HEAVIEST }
{
    with_code(with_code(0, catalogue.code(tx)), catalogue.ending())
}

/// Whether the code writes a variable or a cell of a table. A fused instruction that does so has a plain one
/// behind it.
fn writes(code: &[Op]) -> bool
    ensures { result ≡ list_any is_store code.now }
{
    code.iter()
        .any(|op| matches!(*op, Op::Store(_) | Op::Put(_, _)))
}

/// Whether the code has a `retry`.
fn retries(code: &[Op]) -> bool
    ensures { result ≡ list_any is_back code.now }
{
    code.iter().any(|op| matches!(*op, Op::Back(_)))
}

/// Whether a task may have to wait for what another one writes: whether some transaction has a `retry`.
#[tactic(auto, using(crate::proofs::Few::few_transactions))]
fn may_wait(catalogue: &Catalogue) -> bool
    ensures { result ≡ may_wait catalogue.now }
{
    // Its law: there are few transactions.
    catalogue.rules();
    'transactions: for place in 0..catalogue.tx_count() {
        if retries(catalogue.code(TxId(place as u32))) {
            return true;
        }
    }
    false
}

/// How tasks of a transaction of this weight are run, which writes or not.
fn size_by(weights: Weights, weight: u32, writes: bool) -> Size
    ensures { result ≡ size_by weights weight writes }
{
    if weight >= weights.long {
        return Size::Long;
    }
    if weight < weights.light || writes {
        return Size::Short(weight);
    }
    Size::Light(weight)
}

/// How tasks of each transaction are run, in their order, where from these weights on they are tried. Short ones
/// between light ones are held where no task can wait for one of them.
#[tactic(auto, using(crate::proofs::Few::few_transactions))]
pub fn sizes_of(
    alloc: Global,
    catalogue: &Catalogue,
    weights: Weights,
) -> Result<Vec<Size>, AllocError>
    ensures each { IfOk result (λ sizes. length sizes.items ≡ length catalogue.now.transactions) }
{
    catalogue.rules();
    let count = catalogue.tx_count();
    let mut sizes = Vec::with_capacity(alloc, count)?;
    'sizes: for place in 0..count {
        let tx = TxId(place as u32);
        let weight = weight_of(catalogue, tx);
        sizes.push(size_by(weights, weight, writes(catalogue.code(tx))))?;
    }
    let waits = may_wait(catalogue);
    let per_short = if waits { PER_SHORT } else { PER_HELD };
    if !are_mostly_light(&sizes, catalogue.runs(), per_short) {
        shorten(&mut sizes);
    } else if !waits {
        hold(&mut sizes);
    }
    Ok(sizes)
}

/// Whether tasks of some transaction are light.
pub fn have_light(sizes: &[Size]) -> bool
    ensures { result ≡ list_any is_light sizes.now }
{
    sizes.iter().any(|size| matches!(*size, Size::Light(_)))
}

/// Whether the runs have at least so many light tasks for each short one.
fn are_mostly_light(sizes: &[Size], runs: &[(Call, u32)], per_short: u32) -> bool {
    let mut light: u32 = 0;
    let mut short: u32 = 0;
    for run in runs {
        match size_in(sizes, run.0.tx) {
            Size::Light(_) => light = light.saturating_add(run.1),
            Size::Short(_) | Size::Held(_) => short = short.saturating_add(run.1),
            Size::Long => {}
        }
    }
    light >= short.saturating_mul(per_short)
}

/// Has each short one held.
fn hold(sizes: &mut [Size])
    ensures { length sizes.new ≡ length sizes.old }
{
    for size in sizes.iter_mut() {
        if let Size::Short(weight) = *size {
            *size = Size::Held(weight);
        }
    }
}

/// Makes each light one short.
fn shorten(sizes: &mut [Size])
    ensures { length sizes.new ≡ length sizes.old }
{
    for size in sizes.iter_mut() {
        if let Size::Light(weight) = *size {
            *size = Size::Short(weight);
        }
    }
}

/// How tasks of the transaction are run, by these: where none says it, as long ones.
pub fn size_in(sizes: &[Size], tx: TxId) -> Size
    ensures { result ≡ size_in sizes.now tx }
{
    match sizes.get(tx.0 as usize) {
        Some(size) => *size,
        None => Size::Long,
    }
}

/// Whether all transactions of these runs are short.
pub fn are_short(sizes: &[Size], runs: &[(Call, u32)]) -> bool
    ensures { result ≡ are_short sizes.now runs.now }
{
    runs.iter()
        .all(|run| matches!(size_in(sizes, run.0.tx), Size::Short(_)))
}
