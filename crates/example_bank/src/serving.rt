//! A day at the bank: two clerks serve, side by side, until no task can be served.

ghost use Rattle.std.specs.Prelude.{◌≡◌, IfOk, IfSome};
ghost use Rattle.txn_programs.specs.Listing.{IsCallable};
ghost use Rattle.example_bank.specs.Balances.{IsBank, IsSound, total};

use crate::bank::{Bank, Clerk, Naming};
use std::alloc::Global;
use std::marker::Brand;
use std::sync::{Mutex, Wait};
use std::thread::{Threads, join};
use stm_store::{Job, Program};
use txn::Memory;

/// How often a task is tried with no lock before it is served under the lock.
const TRIES: u32 = 8;

/// Serves one task.
fn serve<R: Wait, N: Naming>(rt: &R, bank: &Mutex<Bank<N>>, clerk: &mut Clerk<N>, job: Job)
    requires { IsCallable N.catalogue job.tx job.arguments }
{
    let job = &job;
    for _ in 0..TRIES {
        if clerk.try_job(*job) && bank.lock(rt).bring(clerk) {
            return;
        }
    }
    bank.lock(rt).serve(*job);
}

/// The next task that can be served.
fn next<R: Wait, N: Naming>(rt: &R, bank: &Mutex<Bank<N>>) -> Option<Job>
    ensures { IfSome result (λ job. IsCallable N.catalogue job.tx job.arguments) }
{
    bank.lock(rt).take()
}

/// A clerk's day.
fn work<R: Wait, N: Naming>(rt: &R, bank: &Mutex<Bank<N>>, clerk: &mut Clerk<N>) {
    for _ in rt.forever() {
        let Some(job) = next(rt, bank) else {
            return;
        };
        serve(rt, bank, clerk, job);
    }
}

/// The balances, while others work.
pub fn audit<R: Wait, N: Naming>(rt: &R, bank: &Mutex<Bank<N>>) -> Result<Vec<i64>, Memory>
    requires { IsBank N.catalogue }
    ensures { IfOk result (λ v. IsSound (total N.catalogue.initial) v.items) }
{
    bank.lock(rt).balances()
}

/// Two clerks serve all that can be served. The balances afterwards.
pub fn day<R: Threads + Wait + Sync>(
    rt: &R,
    alloc: Global,
    program: Program,
) -> Result<Vec<i64>, Memory>
    requires { IsBank program.catalogue.now }
    ensures { IfOk result (λ v. IsSound (total program.catalogue.now.initial) v.items) }
{
    day_of::<R, Brand>(rt, alloc, program)
}

/// The day of the bank of this name.
fn day_of<R: Threads + Wait + Sync, N: Naming>(
    rt: &R,
    alloc: Global,
    program: Program,
) -> Result<Vec<i64>, Memory>
    requires named { program.catalogue.now ≡ N.catalogue }
    requires bank { IsBank N.catalogue }
    ensures { IfOk result (λ v. IsSound (total N.catalogue.initial) v.items) }
{
    let mut bank = Bank::<N>::open(alloc, program, 2)?;
    let Some(first) = bank.clerk() else {
        return bank.balances();
    };
    let Some(second) = bank.clerk() else {
        return bank.balances();
    };
    let bank = Mutex::new(bank);
    work_both(rt, &bank, first, second);
    audit(rt, &bank)
}

/// The day of two clerks, side by side.
fn work_both<R: Threads + Wait + Sync, N: Naming>(
    rt: &R,
    bank: &Mutex<Bank<N>>,
    mut first: Clerk<N>,
    mut second: Clerk<N>,
) {
    join(
        rt,
        || work(rt, bank, &mut first),
        || work(rt, bank, &mut second),
    );
}
