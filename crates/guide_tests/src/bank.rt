//! A day with three accounts.

ghost use Rattle.std.specs.Prelude.{IfOk};
ghost use Rattle.example_bank.specs.Balances.{IsBank};

use example_bank::{BankFault, day, declared, transfer};
use std::alloc::{AllocError, Global};
use std::process::Abort;
use stm_store::Program;
use txn::{Arguments, BuildFault, Call, Expr, Stmt, Tx, TxId, VarId};

const RENT: VarId = VarId(0);

const FOOD: VarId = VarId(1);

const FUN: VarId = VarId(2);

fn account(alloc: Global, name: &str, balance: i64) -> Result<(String, i64), AllocError> {
    Ok((String::from_str(alloc, name)?, balance))
}

/// Three accounts, of which the first has so much, and the others 150 together.
fn accounts(alloc: Global, rent: i64) -> Result<Vec<(String, i64)>, AllocError> {
    let mut all = Vec::new(alloc);
    all.push(account(alloc, "rent", rent)?)?;
    all.push(account(alloc, "food", 0)?)?;
    all.push(account(alloc, "fun", 150)?)?;
    Ok(all)
}

/// It would make money.
fn forge(alloc: Global) -> Result<Tx, AllocError> {
    Ok(Tx {
        name: String::from_str(alloc, "forge")?,
        params: Vec::new(alloc),
        body: Stmt::Set(RENT, Expr::Int(1_000_000)),
        result: Expr::Int(0),
    })
}

fn transactions(alloc: Global) -> Result<Vec<Tx>, AllocError> {
    let mut all = Vec::new(alloc);
    all.push(transfer(alloc, "pay", RENT, FOOD, 10)?)?;
    all.push(transfer(alloc, "save", FOOD, FUN, 10)?)?;
    all.push(transfer(alloc, "lend", FUN, RENT, 100)?)?;
    all.push(forge(alloc)?)?;
    Ok(all)
}

/// Forty payments, of which most wait for the loan, and thirty savings, which wait for payments.
fn runs(alloc: Global) -> Result<Vec<(Call, u32)>, AllocError> {
    Ok(vec![in alloc; (call(1), 30), (call(0), 40), (call(3), 1), (call(2), 1)]?)
}

/// The call of a transaction without arguments.
fn call(tx: u32) -> Call {
    Call {
        tx: TxId(tx),
        arguments: Arguments::none(),
    }
}

/// The bank of all that, whose first account has so much.
fn bank(alloc: Global, rent: i64) -> Result<Program, BankFault>
    ensures { IfOk result (λ p. IsBank p.catalogue.now) }
{
    let (Ok(accounts), Ok(txs), Ok(runs)) = (
        accounts(alloc, rent),
        transactions(alloc),
        runs(alloc),
    ) else {
        return Err(BankFault::Memory);
    };
    declared(alloc, accounts, txs, runs)
}

#[test]
fn money_is_moved_and_none_is_made(rt: HostRuntime) {
    let Ok(program) = bank(rt.alloc(), 300) else {
        panic!(rt; "no bank");
    };
    match day(&rt, rt.alloc(), program) {
        Ok(balances) => assert_eq!(rt; balances.as_slice(), [0, 100, 350].as_slice()),
        Err(_) => panic!(rt; "no memory"),
    }
}

/// With so much in its first account it is no bank, for this reason.
fn is_no_bank(rt: &impl Abort, alloc: Global, rent: i64, fault: BankFault) {
    match bank(alloc, rent) {
        Ok(_) => panic!(rt; "a bank"),
        Err(why) => assert_eq!(rt; why, fault),
    }
}

#[test]
fn an_account_below_zero_is_no_bank(rt: HostRuntime) {
    is_no_bank(&rt, rt.alloc(), -1, BankFault::Refused(BuildFault::Broken));
    is_no_bank(&rt, rt.alloc(), i64::MAX, BankFault::TooMuch);
}
