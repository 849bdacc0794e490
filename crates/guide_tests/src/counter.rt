//! A counter: a catalogue made in code, and all its tasks run by four workers.

use std::alloc::{AllocError, Global};
use stm_library::{
    Arguments, BuildFault, Call, Catalogue, Expr, OpenGate, Options, Stmt, Tx, TxId, VarId,
    run_tasks,
};

const X: VarId = VarId(0);

/// `(tx inc (set x (add x 1)) x)`
fn increment(alloc: Global) -> Result<Tx, AllocError> {
    let one_more = Expr::Add(
        Box::new(alloc, Expr::Var(X))?,
        Box::new(alloc, Expr::Int(1))?,
    );
    Ok(Tx {
        name: String::from_str(alloc, "inc")?,
        params: Vec::new(alloc),
        body: Stmt::Set(X, one_more),
        result: Expr::Var(X),
    })
}

/// `(var x 5)`
fn variables(alloc: Global) -> Result<Vec<(String, i64)>, AllocError> {
    let mut variables = Vec::new(alloc);
    variables.push((String::from_str(alloc, "x")?, 5))?;
    Ok(variables)
}

/// The transaction, and `(run inc 1000)`.
fn tasks(alloc: Global) -> Result<(Vec<Tx>, Vec<(Call, u32)>), AllocError> {
    let mut transactions = Vec::new(alloc);
    transactions.push(increment(alloc)?)?;
    let increment = Call {
        tx: TxId(0),
        arguments: Arguments::none(),
    };
    let runs = vec![in alloc; (increment, 1000)]?;
    Ok((transactions, runs))
}

/// The catalogue of all that, with no tables and no standing conditions.
pub(crate) fn counter(alloc: Global) -> Result<Catalogue, BuildFault> {
    let (transactions, runs) = tasks(alloc)?;
    Catalogue::build(
        alloc,
        variables(alloc)?,
        Vec::new(alloc),
        Vec::new(alloc),
        transactions,
        runs,
    )
}

#[test]
fn a_thousand_increments(rt: HostRuntime) {
    let alloc = rt.alloc();
    let (Ok(catalogue), Some(options)) = (counter(alloc), Options::new(4, 8, 0)) else {
        panic!(rt; "no catalogue");
    };
    match run_tasks(&rt, alloc, &catalogue, options, &OpenGate) {
        Ok(report) => assert_eq!(rt; report.now_vars.as_slice(), [(1005, 1000)].as_slice()),
        Err(_) => panic!(rt; "no memory"),
    }
}
