//! A plan, and its program.

ghost use Rattle.std.specs.Prelude.{◌≡◌, ◌≤◌, ◌++◌, IfOk, length, map, pos, replicate};
ghost use Rattle.txn_programs.specs.Tree.{Int, Seq, Set, statement_of, transaction_of};
ghost use Rattle.example_scheduler.specs.Plan.{IsPlan, after_of, bodies, body_of, ends, flag, wait_for, waits};

use std::alloc::{AllocError, Global};
use stm_store::Program;
use txn::{Arguments, BuildFault, Call, Catalogue, Cond, Expr, Stmt, Tx, TxId, VarId};

/// A job, and the jobs that it waits for, by their places in the plan.
#[derive(Drop)]
pub struct Step {
    pub name: String,
    pub after: Vec<u32>,
}

/// Why there is no such plan.
#[derive(Clone, Copy, Debug, PartialEq, Eq)]
pub enum PlanFault {
    /// More than 128 jobs.
    TooMany,
    /// The catalogue is refused: `Name` where a name is none or is given twice, or a job waits for
    /// one that is not there.
    Refused(BuildFault),
    /// A growth was refused.
    Memory,
}

/// `(if (eq FLAG 0) (retry) (skip))`
fn wait_for(alloc: Global, job: u32) -> Result<Stmt, AllocError>
    ensures { IfOk result (λ s. statement_of s ≡ wait_for job) }
{
    let retry = Box::new(alloc, Stmt::Retry)?;
    let skip = Box::new(alloc, Stmt::Skip)?;
    let unset = Cond::Eq(Expr::Var(VarId(job)), Expr::Int(0));
    Ok(Stmt::If(unset, retry, skip))
}

/// Waits for the flags of all these jobs.
fn waits(alloc: Global, jobs: &[u32]) -> Result<Vec<Stmt>, AllocError>
    ensures { IfOk result (λ v. map statement_of v.items ≡ map wait_for jobs.now) }
{
    let mut parts = Vec::new(alloc);
    for job in jobs {
        parts.push(wait_for(alloc, *job)?)?;
    }
    Ok(parts)
}

/// The transaction that begins a job.
fn begin(alloc: Global, step: &Step) -> Result<Tx, AllocError>
    ensures { IfOk result (λ t. statement_of t.body ≡ Seq (waits step.now.after.items)) }
{
    let name = step.name.clone()?;
    let parts = waits(alloc, &step.after)?;
    Ok(Tx {
        name,
        params: Vec::new(alloc),
        body: Stmt::Seq(parts),
        result: Expr::Int(0),
    })
}

/// The transaction that ends a job: it sets its flag.
fn end(alloc: Global, step: &Step, job: u32) -> Result<Tx, AllocError>
    ensures { IfOk result (λ t. statement_of t.body ≡ Set (flag job) (Int (pos 1))) }
{
    let name = format!(in alloc; "{}_done", step.name)?;
    Ok(Tx {
        name,
        params: Vec::new(alloc),
        body: Stmt::Set(VarId(job), Expr::Int(1)),
        result: Expr::Int(0),
    })
}

/// The begins of all jobs, in their order.
fn begins(alloc: Global, steps: &[Step]) -> Result<Vec<Tx>, AllocError>
    ensures { IfOk result (λ v. map body_of v.items ≡ map (λ before. Seq (waits before)) (after_of steps.now)) }
{
    let mut txs = Vec::new(alloc);
    for step in steps {
        txs.push(begin(alloc, step)?)?;
    }
    Ok(txs)
}

/// The begins, and after them the ends of all jobs, in their order.
fn with_ends(alloc: Global, steps: &[Step], begins: Vec<Tx>) -> Result<Vec<Tx>, AllocError>
    requires { length steps.now ≤ 128 }
    ensures { IfOk result (λ v. map body_of v.items ≡ map body_of begins.items ++ ends (length steps.now)) }
{
    let mut txs = begins;
    'jobs: for (i, step) in steps.iter().enumerate() {
        txs.push(end(alloc, step, i as u32)?)?;
    }
    Ok(txs)
}

/// A flag for each job, which is not set.
fn flags(alloc: Global, steps: &[Step]) -> Result<Vec<(String, i64)>, AllocError>
    ensures { IfOk result (λ v. map (λ flag. flag.1) v.items ≡ replicate (length steps.now) (pos 0)) }
{
    let mut flags = Vec::new(alloc);
    for step in steps {
        flags.push((step.name.clone()?, 0))?;
    }
    Ok(flags)
}

/// Each job begins once; its end comes in when it is done.
fn runs(alloc: Global, count: usize) -> Result<Vec<(Call, u32)>, AllocError>
    requires { count ≤ 128 }
{
    let mut runs = Vec::new(alloc);
    'jobs: for i in 0..count {
        let begin = Call {
            tx: TxId(i as u32),
            arguments: Arguments::none(),
        };
        runs.push((begin, 1))?;
    }
    Ok(runs)
}

/// What the catalogue of a plan is built of.
#[derive(Drop)]
struct Parts {
    flags: Vec<(String, i64)>,
    txs: Vec<Tx>,
    runs: Vec<(Call, u32)>,
}

/// The parts of the catalogue of these jobs.
fn parts_of(alloc: Global, steps: &[Step]) -> Result<Parts, AllocError>
    requires { length steps.now ≤ 128 }
    ensures flags { IfOk result (λ p. map (λ flag. flag.1) p.flags.items ≡ replicate (length steps.now) (pos 0)) }
    ensures transactions { IfOk result (λ p. map body_of p.txs.items ≡ bodies (after_of steps.now)) }
{
    let flags = flags(alloc, steps)?;
    let begins = begins(alloc, steps)?;
    let txs = with_ends(alloc, steps, begins)?;
    let runs = runs(alloc, steps.len())?;
    Ok(Parts { flags, txs, runs })
}

/// The program of these jobs.
pub fn plan(alloc: Global, steps: &[Step]) -> Result<Program, PlanFault>
    ensures { IfOk result (λ p. IsPlan (after_of steps.now) p.catalogue.now) }
{
    if steps.len() > 128 {
        return Err(PlanFault::TooMany);
    }
    match parts_of(alloc, steps) {
        Ok(parts) => built(alloc, parts),
        Err(_) => Err(PlanFault::Memory),
    }
}

/// The program of the parts.
#[tactic(auto, using(crate::proofs::Parts::without_tables))]
fn built(alloc: Global, parts: Parts) -> Result<Program, PlanFault>
    ensures flags { IfOk result (λ p. p.catalogue.now.initial ≡ map (λ flag. flag.1) parts.flags.items) }
    ensures transactions { IfOk result (λ p. p.catalogue.now.transactions ≡ map transaction_of parts.txs.items) }
{
    let Parts { flags, txs, runs } = parts;
    let catalogue = match Catalogue::build(
        alloc,
        flags,
        Vec::new(alloc),
        Vec::new(alloc),
        txs,
        runs,
    ) {
        Ok(catalogue) => catalogue,
        Err(fault) => return Err(PlanFault::Refused(fault)),
    };
    match Program::keep(alloc, catalogue) {
        Ok(program) => Ok(program),
        Err(_) => Err(PlanFault::Memory),
    }
}
