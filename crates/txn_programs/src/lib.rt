//! Transaction programs as values, with what they mean as definitions.
//!
//! `ast` has the programs, `arguments` what a call gives its transaction, `code` the instructions that
//! programs are compiled to, `report` what a run of tasks left, `moves` the lines of a schedule, `limits` and
//! `names` what every catalogue keeps to. The definitions stand in `specs/`, over plain trees: what a program
//! says, and not where it lies in memory. Callers name all of it by the crate `txn`.
#![tactic(auto)]

pub mod arguments;
pub mod ast;
pub mod code;
pub mod limits;
pub mod memory;
pub mod moves;
pub mod names;
pub mod report;

pub use arguments::{Arguments, Call};
pub use ast::{
    AlwaysId, Cells, Cond, Expr, Fault, Fold, Outcome, ParamId, Span, Stmt, Table, TaskId, Tx,
    TxId, VarId,
};
pub use code::Op;
pub use memory::Memory;
pub use moves::Move;
pub use report::{Entry, Report};
