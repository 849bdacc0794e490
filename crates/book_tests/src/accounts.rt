//! Two accounts whose sum has to stay 100: what a caller has of it by the law of a book, and what
//! becomes of a transaction that would change it.

ghost use Rattle.std.specs.Prelude.{◌≡◌, [], ◌∷◌, pos, IfOk, All};
ghost use Rattle.txn_programs.specs.Listing.{conditions, listing_of};
ghost use Rattle.txn_programs.specs.Tree.{condition_of};
ghost use Rattle.book_tests.specs.Balance.{sum_stays, sum_of_accounts};

use crate::looks::Said;
use crate::rows::{Step, first_wrong_step};
use book::Book;
use cells::Cells;
use std::alloc::{AllocError, Global};
use txn::{
    AlwaysId, Arguments, BuildFault, Call, Catalogue, Cond, Entry, Expr, Fault, Outcome, Stmt,
    TaskId, Tx, TxId, VarId,
};

const A: VarId = VarId(0);

const B: VarId = VarId(1);

/// (eq (add a b) 100)
fn sum_is_100(alloc: Global) -> Result<Cond, AllocError>
    ensures { IfOk result (λ c. condition_of c ≡ sum_stays) }
{
    let a = Box::new(alloc, Expr::Var(A))?;
    let b = Box::new(alloc, Expr::Var(B))?;
    Ok(Cond::Eq(Expr::Add(a, b), Expr::Int(100)))
}

/// A transaction of this name that sets both accounts, and returns the first.
fn setting(alloc: Global, name: &str, a: i64, b: i64) -> Result<Tx, AllocError> {
    let name = String::from_str(alloc, name)?;
    let mut parts = Vec::new(alloc);
    parts.push(Stmt::Set(A, Expr::Int(a)))?;
    parts.push(Stmt::Set(B, Expr::Int(b)))?;
    Ok(Tx {
        name,
        params: Vec::new(alloc),
        body: Stmt::Seq(parts),
        result: Expr::Var(A),
    })
}

/// The accounts have 100 and 0.
fn variables(alloc: Global) -> Result<Vec<(String, i64)>, AllocError> {
    let mut all = Vec::new(alloc);
    all.push((String::from_str(alloc, "a")?, 100))?;
    all.push((String::from_str(alloc, "b")?, 0))?;
    Ok(all)
}

/// Their sum has to stay 100.
fn standing(alloc: Global) -> Result<Vec<(String, Cond)>, AllocError>
    ensures { IfOk result (λ always. conditions (listing_of [] [] always.items [] []) ≡ sum_stays ∷ []) }
{
    let name = String::from_str(alloc, "sum")?;
    let mut always = Vec::new(alloc);
    always.push((name, sum_is_100(alloc)?))?;
    Ok(always)
}

/// One task moves 60, and one takes what there is.
fn transactions(alloc: Global) -> Result<Vec<Tx>, AllocError> {
    let mut all = Vec::new(alloc);
    all.push(setting(alloc, "move", 40, 60)?)?;
    all.push(setting(alloc, "leak", 0, 0)?)?;
    Ok(all)
}

/// A call of the transaction without arguments.
fn plain(tx: TxId) -> Call {
    Call {
        tx,
        arguments: Arguments::none(),
    }
}

/// The catalogue of all that.
fn accounts(alloc: Global) -> Result<Catalogue, BuildFault>
    ensures { IfOk result (λ c. conditions c ≡ sum_stays ∷ []) }
{
    let runs = [(plain(TxId(0)), 1), (plain(TxId(1)), 1)].to_vec(alloc)?;
    let variables = variables(alloc)?;
    let always = standing(alloc)?;
    Catalogue::build(
        alloc,
        variables,
        Vec::new(alloc),
        always,
        transactions(alloc)?,
        runs,
    )
}

/// Whatever was done with the book, the sum is 100: of the base, of the present, and of all that was
/// ever published. It does nothing: its contract is what a caller has by the book's law.
fn sum_is_kept(book: &Book<'_>)
    requires { conditions book.now.catalogue ≡ sum_stays ∷ [] }
    ensures base { sum_of_accounts book.now.base.state ≡ pos 100 }
    ensures present { sum_of_accounts book.now.present.state ≡ pos 100 }
    ensures published { All (λ m. sum_of_accounts m ≡ pos 100) book.now.history }
{
    book.law();
}

/// The move commits. The leak is entered as one that broke the condition, and changes nothing.
const BOTH_RAN: &[Step] = &[
    Step::Says(Said::Entries(&[
        Entry {
            number: 1,
            task: TaskId(0),
            tx: TxId(0),
            outcome: Outcome::Returned(40),
        },
        Entry {
            number: 2,
            task: TaskId(1),
            tx: TxId(1),
            outcome: Outcome::Thrown(Fault::Broken(AlwaysId(0))),
        },
    ])),
    Step::Says(Said::X((0, 100, 0), 2, (2, 40, 1))),
    Step::Says(Said::Last(2, (60, 1))),
];

/// Whether both run, the law holds, and so it is told.
fn run_both(alloc: Global, book: &mut Book<'_>, catalogue: &Catalogue) -> bool
    requires { conditions book.old.catalogue ≡ sum_stays ∷ [] }
{
    book.drain(alloc, 0);
    sum_is_kept(book);
    first_wrong_step(alloc, book, catalogue, BOTH_RAN).is_none()
}

fn run_over(alloc: Global, catalogue: &Catalogue) -> bool
    requires { conditions catalogue.now ≡ sum_stays ∷ [] }
{
    let Ok((cells, publisher)) = Cells::unread(alloc, catalogue.initial()) else {
        return false;
    };
    match Book::open(alloc, catalogue, &cells, publisher) {
        Ok(mut book) => run_both(alloc, &mut book, catalogue),
        Err(_) => false,
    }
}

#[test]
fn a_sum_that_has_to_stay_stays(rt: HostRuntime) {
    match accounts(rt.alloc()) {
        Ok(catalogue) => assert!(rt; run_over(rt.alloc(), &catalogue)),
        Err(_) => panic!(rt; "no catalogue"),
    }
}
