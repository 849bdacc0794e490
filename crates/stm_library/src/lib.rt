//! The whole library under one name: what a program calls to declare transactions, to read and
//! print them, to run and to check, to keep stores and to play schedules.
//!
//! It has nothing of its own: each line hands on what another crate has, and its clauses are those
//! of that crate. `specs/` hands on the definitions that callers' clauses cite.
#![tactic(auto)]

// What a file declares, and what a report tells.
pub use txn::{
    AlwaysId, Arguments, BuildFault, Call, Catalogue, Cond, Entry, Expr, Fault, Memory, Outcome,
    Report, Stmt, TaskId, Tx, TxId, VarId, evaluate, laws, limits,
};
// Transactions copied, and compared.
pub use txn_declarations::copy::copied_transaction;
pub use txn_declarations::same::same_transactions;
// Files, reports and schedules as text.
pub use txn_text::{
    MAX_FILE, MAX_FILE_OF_FORM_3, MAX_REPORT, MAX_SCHEDULE, ReadFault, longest_file, print_file,
    print_report, read_file, read_report, read_schedule,
};
// All tasks of a file, by workers side by side; and what a transaction would end as, meanwhile.
pub use runner::{
    Gate, Observed, OpenGate, Options, Out, PackedEntry, Point, RunFault, RunReport, Sink,
    SinkFault, observe, run_bytes, run_packed, run_tasks,
};
// Whether a report is lawful.
pub use checker::{Part, Verdict, check};
// A store that lives as long as its host wishes, with workers and observers.
pub use stm_store::{
    End, Entered, FileFault, Job, Lender, NextFault, Program, Refused, ReportFault, Store, Ticket,
    Way, Worker,
};
// Calls of a store from any thread.
pub use stm_service::{Answer, Chapter, Ended, Front, Kept, Naming, Opened, Service, TooLong};
// What stands under a store: cells that are read with no lock, attempts, and the book.
pub use attempt::{Attempt, Next, Stand};
pub use book::{Book, Counts, Finish, NotPlain, Serial, Standing};
pub use cells::{Cells, Extend, Pass, Publisher, Read, SharedCells};
// Schedules of single loads and stores.
pub use world::{Event, Fate, Seen, World};
pub use world_runner::world_bytes;
