//! The program of a bank: its accounts, its standing conditions, and the transactions that it is
//! given.

ghost use Rattle.std.specs.Prelude.{◌≡◌, ◌≤◌, IfOk, IfSome, length, map, pos};
ghost use Rattle.txn_programs.specs.Tree.{Add, Eq, If, Int, Le, Lt, More, End, Retry, Seq};
ghost use Rattle.txn_programs.specs.Tree.{Set, Skip, Sub, Var, condition_of, expression_of};
ghost use Rattle.txn_programs.specs.Tree.{statement_of, statements_of_list, transaction_of};
ghost use Rattle.example_bank.specs.Balances.{IsBank, total};
ghost use Rattle.example_bank.specs.Rules.{conditions_in, floors, rules, sum_to};

use std::alloc::{AllocError, Global};
use stm_store::Program;
use txn::limits::MAX_VARIABLES;
use txn::{BuildFault, Call, Catalogue, Cond, Expr, Stmt, Tx, VarId};

/// Why there is no such bank.
#[derive(Clone, Copy, Debug, PartialEq, Eq)]
pub enum BankFault {
    /// The accounts have more together than a number can say.
    TooMuch,
    /// The catalogue is refused: `Broken` where an account begins below zero.
    Refused(BuildFault),
    /// A growth was refused.
    Memory,
}

/// `(le 0 ACCOUNT)`
fn floor(account: VarId) -> Cond
    ensures { condition_of result ≡ Le (Int (pos 0)) (Var account) }
{
    Cond::Le(Expr::Int(0), Expr::Var(account))
}

/// A standing condition for each account: it is never below zero.
fn floors(alloc: Global, accounts: &[(String, i64)]) -> Result<Vec<(String, Cond)>, AllocError>
    requires { length accounts.now ≤ MAX_VARIABLES }
    ensures { IfOk result (λ v. conditions_in v.items ≡ floors (length accounts.now)) }
{
    let mut conditions = Vec::new(alloc);
    'accounts: for (i, account) in accounts.iter().enumerate() {
        let name = account.0.clone()?;
        conditions.push((name, floor(VarId(i as u32))))?;
    }
    Ok(conditions)
}

/// `(add SUM ACCOUNT)`
fn plus(alloc: Global, sum: Expr, account: VarId) -> Result<Expr, AllocError>
    ensures { IfOk result (λ e. expression_of e ≡ Add (expression_of sum) (Var account)) }
{
    let sum = Box::new(alloc, sum)?;
    let balance = Box::new(alloc, Expr::Var(account))?;
    Ok(Expr::Add(sum, balance))
}

/// What so many accounts have together.
fn sum(alloc: Global, count: usize) -> Result<Expr, AllocError>
    requires { count ≤ MAX_VARIABLES }
    ensures { IfOk result (λ e. expression_of e ≡ sum_to count) }
{
    let mut sum = Expr::Int(0);
    'accounts: for i in 0..count {
        sum = plus(alloc, sum, VarId(i as u32))?;
    }
    Ok(sum)
}

/// `(eq SUM ALL)`
fn together(alloc: Global, count: usize, all: i64) -> Result<(String, Cond), AllocError>
    requires { count ≤ MAX_VARIABLES }
    ensures { IfOk result (λ c. condition_of c.1 ≡ Eq (sum_to count) (Int all)) }
{
    let sum = sum(alloc, count)?;
    Ok((
        String::from_str(alloc, "together")?,
        Cond::Eq(sum, Expr::Int(all)),
    ))
}

/// The standing conditions of these accounts.
fn rules(
    alloc: Global,
    accounts: &[(String, i64)],
    all: i64,
) -> Result<Vec<(String, Cond)>, AllocError>
    requires { length accounts.now ≤ MAX_VARIABLES }
    ensures { IfOk result (λ v. conditions_in v.items ≡ rules (length accounts.now) all) }
{
    let mut conditions = floors(alloc, accounts)?;
    conditions.push(together(alloc, accounts.len(), all)?)?;
    Ok(conditions)
}

/// What the accounts have together, where a number can say it.
fn all_of(accounts: &[(String, i64)]) -> Option<i64>
    ensures { IfSome result (λ all. all ≡ total (map (λ a. a.1) accounts.now)) }
{
    let mut all: i64 = 0;
    for account in accounts {
        all = all.checked_add(account.1)?;
    }
    Some(all)
}

/// The program of these accounts with what they have at first, of these transactions, and of these
/// runs. Whatever the transactions are: a bank's conditions stand.
pub fn declared(
    alloc: Global,
    accounts: Vec<(String, i64)>,
    txs: Vec<Tx>,
    runs: Vec<(Call, u32)>,
) -> Result<Program, BankFault>
    ensures bank { IfOk result (λ p. IsBank p.catalogue.now) }
    ensures accounts { IfOk result (λ p. p.catalogue.now.initial ≡ map (λ a. a.1) accounts.items) }
    ensures transactions { IfOk result (λ p. p.catalogue.now.transactions ≡ map transaction_of txs.items) }
    ensures runs { IfOk result (λ p. p.catalogue.now.runs ≡ runs.items) }
{
    if accounts.len() > MAX_VARIABLES {
        return Err(BankFault::Refused(BuildFault::Limit));
    }
    let Some(all) = all_of(&accounts) else {
        return Err(BankFault::TooMuch);
    };
    let Ok(always) = rules(alloc, &accounts, all) else {
        return Err(BankFault::Memory);
    };
    match Catalogue::build(alloc, accounts, Vec::new(alloc), always, txs, runs) {
        Ok(catalogue) => kept(alloc, catalogue),
        Err(fault) => Err(BankFault::Refused(fault)),
    }
}

/// The program of a catalogue.
fn kept(alloc: Global, catalogue: Catalogue) -> Result<Program, BankFault>
    ensures { IfOk result (λ p. p.catalogue.now ≡ catalogue) }
{
    match Program::keep(alloc, catalogue) {
        Ok(program) => Ok(program),
        Err(_) => Err(BankFault::Memory),
    }
}

/// `(if (lt FROM AMOUNT) (retry) (skip))`
fn waits(alloc: Global, from: VarId, amount: i64) -> Result<Stmt, AllocError>
    ensures { IfOk result (λ s. statement_of s ≡ If (Lt (Var from) (Int amount)) Retry Skip) }
{
    let retry = Box::new(alloc, Stmt::Retry)?;
    let skip = Box::new(alloc, Stmt::Skip)?;
    let poor = Cond::Lt(Expr::Var(from), Expr::Int(amount));
    Ok(Stmt::If(poor, retry, skip))
}

/// `(set FROM (sub FROM AMOUNT))`
fn gives(alloc: Global, from: VarId, amount: i64) -> Result<Stmt, AllocError>
    ensures { IfOk result (λ s. statement_of s ≡ Set from (Sub (Var from) (Int amount))) }
{
    let balance = Box::new(alloc, Expr::Var(from))?;
    let amount = Box::new(alloc, Expr::Int(amount))?;
    Ok(Stmt::Set(from, Expr::Sub(balance, amount)))
}

/// `(set TO (add TO AMOUNT))`
fn gets(alloc: Global, to: VarId, amount: i64) -> Result<Stmt, AllocError>
    ensures { IfOk result (λ s. statement_of s ≡ Set to (Add (Var to) (Int amount))) }
{
    let balance = Box::new(alloc, Expr::Var(to))?;
    let amount = Box::new(alloc, Expr::Int(amount))?;
    Ok(Stmt::Set(to, Expr::Add(balance, amount)))
}

/// What a transfer does, in this order.
fn steps(alloc: Global, from: VarId, to: VarId, amount: i64) -> Result<Vec<Stmt>, AllocError>
    ensures { IfOk result (λ v. statements_of_list v.items
        ≡ More (If (Lt (Var from) (Int amount)) Retry Skip)
        (More (Set from (Sub (Var from) (Int amount))) (More (Set to (Add (Var to) (Int amount))) End))) }
{
    let mut steps = Vec::new(alloc);
    steps.push(waits(alloc, from, amount)?)?;
    steps.push(gives(alloc, from, amount)?)?;
    steps.push(gets(alloc, to, amount)?)?;
    Ok(steps)
}

/// A transfer, which waits until there is enough, and returns what is left.
pub fn transfer(
    alloc: Global,
    name: &str,
    from: VarId,
    to: VarId,
    amount: i64,
) -> Result<Tx, AllocError>
    ensures body { IfOk result (λ t. statement_of t.body
        ≡ Seq (More (If (Lt (Var from) (Int amount)) Retry Skip)
        (More (Set from (Sub (Var from) (Int amount))) (More (Set to (Add (Var to) (Int amount))) End)))) }
    ensures left { IfOk result (λ t. expression_of t.result ≡ Var from) }
{
    let name = String::from_str(alloc, name)?;
    let steps = steps(alloc, from, to, amount)?;
    Ok(Tx {
        name,
        params: Vec::new(alloc),
        body: Stmt::Seq(steps),
        result: Expr::Var(from),
    })
}
