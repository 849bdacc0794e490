//! What the getters of a catalogue tell.

use crate::parts::{catalogue, repeated};
use std::alloc::Global;
use std::process::Abort;
use txn::limits::limits_are;
use txn::{AlwaysId, Catalogue, Op, TaskId, TxId, VarId};

/// Something that a catalogue tells.
pub(crate) enum Look {
    Initial(&'static [i64]),
    /// How many variables there are.
    Vars(usize),
    VarName(VarId, &'static str),
    VarOf(&'static str, Option<VarId>),
    /// How many tables there are.
    Tables(usize),
    TableOf(&'static str, Option<usize>),
    /// How many transactions there are.
    Count(usize),
    TxName(TxId, &'static str),
    TxOf(&'static str, Option<TxId>),
    /// The names of the transaction's parameters.
    Params(TxId, &'static [&'static str]),
    /// The most parameters of a transaction.
    MostParams(usize),
    /// How many runs, and how many tasks.
    Tasks(usize, usize),
    TaskTx(TaskId, TxId),
    TaskArguments(TaskId, &'static [i64]),
    /// Whether the transaction may be called with these arguments.
    Callable(TxId, &'static [i64], bool),
    /// How many standing conditions there are.
    Always(usize),
    AlwaysName(AlwaysId, &'static str),
    AlwaysOf(&'static str, Option<AlwaysId>),
    /// The code of the first transaction.
    Code(&'static [Op]),
    /// How many instructions the first transaction has, and the first of them.
    Begins(usize, Op),
    Ending(&'static [Op]),
}

/// Whether the variable is called so.
fn is_var(catalogue: &Catalogue, variable: VarId, name: &str) -> bool {
    (variable.0 as usize) < catalogue.var_count() && catalogue.var_name(variable) == name
}

/// Whether the transaction is called so.
fn is_tx(catalogue: &Catalogue, tx: TxId, name: &str) -> bool {
    (tx.0 as usize) < catalogue.tx_count()
        && catalogue.tx_name(tx) == name
        && catalogue.tx(tx).name.as_str() == name
}

/// Whether the transaction has these parameters.
fn has_params(catalogue: &Catalogue, tx: TxId, names: &[&str]) -> bool {
    if tx.0 as usize >= catalogue.tx_count() {
        return false;
    }
    let params = catalogue.params(tx);
    params.len() == names.len() && params.iter().zip(names).all(|(a, b)| a.as_str() == *b)
}

/// Whether the condition is called so.
fn is_condition(catalogue: &Catalogue, condition: AlwaysId, name: &str) -> bool {
    (condition.0 as usize) < catalogue.always().len() && catalogue.always_name(condition) == name
}

/// Whether there are so many runs and tasks.
fn has_tasks(catalogue: &Catalogue, runs: usize, tasks: usize) -> bool {
    catalogue.runs().len() == runs && catalogue.tasks() == tasks
}

/// Whether the task runs this.
fn is_task(catalogue: &Catalogue, task: TaskId, tx: TxId) -> bool {
    (task.0 as usize) < catalogue.tasks() && catalogue.task_tx(task) == tx
}

/// Whether the task's call has these arguments.
fn is_given(catalogue: &Catalogue, task: TaskId, arguments: &[i64]) -> bool {
    (task.0 as usize) < catalogue.tasks() && catalogue.task_arguments(task) == arguments
}

/// Whether the first transaction has this code.
fn has_code(catalogue: &Catalogue, want: &[Op]) -> bool {
    catalogue.tx_count() > 0 && catalogue.code(TxId(0)) == want
}

/// Whether the first transaction has so many instructions, of which this is the first.
fn begins(catalogue: &Catalogue, count: usize, first: Op) -> bool {
    if catalogue.tx_count() == 0 {
        return false;
    }
    let code = catalogue.code(TxId(0));
    code.len() == count && code.first() == Some(&first)
}

/// Whether the catalogue tells this.
fn tells(catalogue: &Catalogue, look: &Look) -> bool {
    match look {
        Look::Initial(values) => catalogue.initial() == *values,
        Look::Vars(count) => catalogue.var_count() == *count,
        Look::VarName(variable, name) => is_var(catalogue, *variable, name),
        Look::VarOf(name, variable) => catalogue.var_id(name) == *variable,
        Look::Tables(count) => catalogue.tables().len() == *count,
        Look::TableOf(name, place) => catalogue.table_place(name) == *place,
        Look::Count(count) => catalogue.tx_count() == *count,
        Look::TxName(tx, name) => is_tx(catalogue, *tx, name),
        Look::TxOf(name, tx) => catalogue.tx_id(name) == *tx,
        Look::Params(tx, names) => has_params(catalogue, *tx, names),
        Look::MostParams(count) => catalogue.most_parameters() == *count,
        Look::Tasks(runs, tasks) => has_tasks(catalogue, *runs, *tasks),
        Look::TaskTx(task, tx) => is_task(catalogue, *task, *tx),
        Look::TaskArguments(task, arguments) => is_given(catalogue, *task, arguments),
        Look::Callable(tx, arguments, is) => catalogue.is_callable(*tx, arguments) == *is,
        Look::Always(count) => catalogue.always().len() == *count,
        Look::AlwaysName(condition, name) => is_condition(catalogue, *condition, name),
        Look::AlwaysOf(name, condition) => catalogue.always_id(name) == *condition,
        Look::Code(want) => has_code(catalogue, want),
        Look::Begins(count, first) => begins(catalogue, *count, *first),
        Look::Ending(want) => catalogue.ending() == *want,
    }
}

/// All of this is told.
fn tells_all(catalogue: &Catalogue, looks: &[Look]) -> bool {
    limits_are();
    for look in looks {
        if !tells(catalogue, look) {
            return false;
        }
    }
    true
}

/// The catalogue of the text tells all of this.
pub(crate) fn expect(rt: &(impl Abort + Eprint), alloc: Global, text: &str, looks: &[Look]) {
    match catalogue(alloc, text) {
        Some(catalogue) => assert!(rt; tells_all(&catalogue, looks), "of {text}"),
        None => panic!(rt; "no catalogue"),
    }
}

/// So does that of each text.
pub(crate) fn expect_all(rt: &(impl Abort + Eprint), alloc: Global, rows: &[(&str, &[Look])]) {
    for (text, looks) in rows {
        expect(rt, alloc, text, looks);
    }
}

/// So does that of the text that has each part so many times.
pub(crate) fn expect_repeated(
    rt: &(impl Abort + Eprint),
    alloc: Global,
    parts: &[(u32, &str)],
    looks: &[Look],
) {
    match repeated(alloc, parts) {
        Ok(text) => expect(rt, alloc, text.as_str(), looks),
        Err(_) => panic!(rt; "no text"),
    }
}

/// Variables x and y, transactions skip and x, and three tasks.
const TEXT: &str =
    "(var x 5)(var y -1)(tx skip (skip) 0)(tx x (skip) x)(run x 2)(run skip 0)(run skip 1)";

const VARIABLES: &[Look] = &[
    Look::Initial(&[5, -1]),
    Look::Vars(2),
    Look::VarOf("y", Some(VarId(1))),
    Look::VarOf("skip", None),
    Look::VarName(VarId(1), "y"),
];

const NO_TABLES: &[Look] = &[Look::Tables(0), Look::TableOf("x", None)];

const TRANSACTIONS: &[Look] = &[
    Look::Count(2),
    Look::TxName(TxId(1), "x"),
    Look::TxOf("skip", Some(TxId(0))),
    Look::TxOf("y", None),
];

const TASKS: &[Look] = &[
    Look::Tasks(3, 3),
    Look::TaskTx(TaskId(0), TxId(1)),
    Look::TaskTx(TaskId(2), TxId(0)),
    Look::TaskArguments(TaskId(0), &[]),
    Look::TaskArguments(TaskId(2), &[]),
];

const CALLS: &[Look] = &[
    Look::Callable(TxId(0), &[], true),
    Look::Callable(TxId(1), &[], true),
    Look::Callable(TxId(1), &[5], false),
    Look::Callable(TxId(2), &[], false),
];

/// x and two conditions: `small`, that x is at most 5, and `half`, that half of x is 2.
const CONDITIONS: &str =
    "(stm 2)(var x 5)(always small (le x 5))(always half (eq (div x 2) 2))(tx t (skip) 0)";

/// The end names in each instruction that may fault which condition is to blame.
const STANDING: &[Look] = &[
    Look::Always(2),
    Look::AlwaysName(AlwaysId(0), "small"),
    Look::AlwaysName(AlwaysId(1), "half"),
    Look::AlwaysOf("half", Some(AlwaysId(1))),
    Look::AlwaysOf("x", None),
    Look::AlwaysOf("t", None),
    Look::Ending(&[
        Op::Load(2, VarId(0)),
        Op::AtMostInt(1, 5),
        Op::AtMost,
        Op::Demand(AlwaysId(0)),
        Op::Load(3, VarId(0)),
        Op::Push(1, 2),
        Op::Quotient(Some(AlwaysId(1))),
        Op::EqualInt(1, 2),
        Op::Equal,
        Op::Demand(AlwaysId(1)),
        Op::Give,
    ]),
];

/// Three transactions, of which the second has the most parameters.
const PARAMETERS: &str =
    "(stm 3)(var x 5)(tx t () (skip) 0)(tx pay (from to) (set x (add x from)) to)(tx u (n) (skip) n)(run pay 2 7 -8)\
        (run t 1)";

const GIVEN: &[Look] = &[
    Look::Params(TxId(0), &[]),
    Look::Params(TxId(1), &["from", "to"]),
    Look::Params(TxId(2), &["n"]),
    Look::MostParams(2),
    Look::Callable(TxId(1), &[7, -8], true),
    Look::Callable(TxId(1), &[7], false),
    Look::Callable(TxId(2), &[7, -8], false),
    Look::TaskArguments(TaskId(0), &[7, -8]),
    Look::TaskArguments(TaskId(1), &[7, -8]),
    Look::TaskArguments(TaskId(2), &[]),
];

const NO_PARAMETERS: &[Look] = &[Look::Params(TxId(1), &[]), Look::MostParams(0)];

const ROWS: &[(&str, &[Look])] = &[
    (TEXT, VARIABLES),
    (TEXT, NO_TABLES),
    (TEXT, TRANSACTIONS),
    (TEXT, TASKS),
    (TEXT, CALLS),
    (TEXT, NO_PARAMETERS),
    (CONDITIONS, STANDING),
    (PARAMETERS, GIVEN),
];

#[test]
fn what_is_declared_is_told(rt: HostRuntime) {
    expect_all(&rt, rt.alloc(), ROWS);
}
