//! The catalogue: what a file declares.

ghost use Rattle.std.specs.Prelude.{◌≡◌, ◌<◌, ◌≤◌, ◌+◌, ◌^◌, ℕ, ℤ, All, List, length, map, slice_get};
ghost use Rattle.std.specs.Prelude.{string_bytes};
ghost use Rattle.std.specs.Prelude.{Some, IfSome, IfErr, true, false, IfOk, OnOk, IsTrue, ◌↔◌};
ghost use Rattle.std.specs.HashMap.{get_by_text};
ghost use Rattle.txn_programs.specs.declared.limits.TheConstants.{MAX_CONDITIONS, MAX_PARAMETERS, MAX_TASKS};
ghost use Rattle.txn_programs.specs.declared.limits.TheConstants.{MAX_VALUES, MAX_VARIABLES};
ghost use Rattle.txn_programs.specs.Fused.{own_code, common_code};
ghost use Rattle.txn_programs.specs.Names.{names_hold};
ghost use Rattle.txn_programs.specs.Limits.{limits_hold, most_variables};
ghost use Rattle.txn_programs.specs.Instance.{instance};
ghost use Rattle.txn_programs.specs.Tree.{transaction_of, under};
ghost use Rattle.txn_programs.specs.Listing.{listing_of, conditions, tasks, task_tx, task_arguments, transaction_at};
ghost use Rattle.txn_programs.specs.Listing.{IsCallable};
ghost use Rattle.txn_programs.specs.Listing.{table_named, values};
ghost use Rattle.txn_programs.specs.Listing.{variable_named, transaction_named, condition_named, always_name};
ghost use Rattle.txn_programs.specs.Scope.{ConditionsKnown, ProgramKnown};
ghost use Rattle.txn_programs.specs.Standing.{Upholds, upholds};
ghost use Rattle.txn_evaluator.specs.Always.{conditions_of};
ghost use Rattle.txn_declarations.specs.Conditions.{standing_of};
ghost use Rattle.txn_declarations.specs.Counted.{counted};
ghost use Rattle.txn.specs.Arities.{most_arity};
ghost use Rattle.txn.specs.Grown.{grown, SameButRuns, SameProgram};
ghost use Rattle.txn.specs.Ids.{ids_hold};

use crate::build::{BuildFault, Copies, ids_known, judged, kept_tables, work_out};
use std::alloc::{AllocError, Global};
use std::collections::HashMap;
use std::marker::Model;
use txn_declarations::copy::{always_of, runs_with, tables_of, transactions_of, variables_of};
use txn_declarations::names::is_callable;
use txn_declarations::same::{
    same_always, same_names, same_runs, same_tables, same_transactions, same_values,
};
use txn_programs::{AlwaysId, Call, Cond, Memory, Op, Table, TaskId, Tx, TxId, VarId};

/// Variables, tables, standing conditions, transactions and runs, in declared order. A clause sees what they
/// say, as a `Listing`. In every catalogue names and ids hold, and all limits, and each condition is
/// true of the initial values. It keeps the flat code of each transaction, and once that of the
/// conditions: the listing determines them. Beside the names it keeps where each stands, so that it is
/// found at once.
pub struct Catalogue {
    names: Vec<String>,
    places: HashMap<String, usize>,
    tables: Vec<(String, u32)>,
    table_places: HashMap<String, usize>,
    initial: Vec<i64>,
    always: Vec<(String, Cond)>,
    always_places: HashMap<String, usize>,
    tx_places: HashMap<String, usize>,
    codes: Vec<Vec<Op>>,
    ending: Vec<Op>,
    most_params: usize,
    txs: Vec<Tx>,
    runs: Vec<(Call, u32)>,
    task_txs: Vec<TxId>,
    task_runs: Vec<usize>,
}

/// Written by hand, so that its end is one call wherever a catalogue is owned. The flat code goes before
/// the trees: blocks as large as its own make the C library join all small ones that lie free, one by one.
impl Drop for Catalogue {
    fn drop(self) {
        let Catalogue {
            names: _names,
            places: _places,
            tables: _tables,
            table_places: _table_places,
            initial: _initial,
            always: _always,
            always_places: _always_places,
            tx_places: _tx_places,
            codes,
            ending,
            most_params: _,
            txs: _txs,
            runs: _runs,
            task_txs: _task_txs,
            task_runs: _task_runs,
        } = self;
        drop(codes);
        drop(ending);
    }
}

impl Model for Catalogue {
    ghost use Rattle.txn_programs.specs.Listing.{Listing};
    ghost use Rattle.txn.specs.Codes.{coded_listing};

    ghost Value = { Listing };

    ghost coded = { coded_listing };

    ghost use Rattle.txn.specs.CatalogueInside.{listed, IsKept};

    ghost view = { listed };

    ghost invariant = { IsKept };
}

impl Catalogue {
    /// The catalogue of variables with their initial values, of tables, of standing conditions with their
    /// names, of transactions, and of runs: a call, and how many tasks make it. Tasks are
    /// numbered from 0 in the order of the runs.
    ///
    /// Refused by `Name` where a name has not the form of one (a letter, then letters, digits and
    /// underscores) or is given twice among variables, among tables, among conditions, among transactions, or among
    /// variables and the parameters of one transaction, an id is out of range (a parameter's among
    /// those of its transaction), or a call has not as many arguments as its transaction has parameters;
    /// else by `Limit` where one of the limits of `limits` is passed; else by `Broken` where a
    /// condition is not true of the initial values. `Memory` may come in place of any answer, where a
    /// growth was refused.
    pub fn build(
        alloc: Global,
        vars: Vec<(String, i64)>,
        tables: Vec<Table>,
        always: Vec<(String, Cond)>,
        txs: Vec<Tx>,
        runs: Vec<(Call, u32)>,
    ) -> Result<Catalogue, BuildFault>
        ensures built { IfOk result (λ c. c ≡ listing_of vars.items tables.items always.items txs.items runs.items) }
        ensures names { OnOk result
            (names_hold (listing_of vars.items tables.items always.items txs.items runs.items) ≡ true) }
        ensures limits { OnOk result
            (limits_hold (listing_of vars.items tables.items always.items txs.items runs.items) ≡ true) }
        ensures upheld { OnOk result
            (upholds (listing_of vars.items tables.items always.items txs.items runs.items)
            (listing_of vars.items tables.items always.items txs.items runs.items).initial ≡ true) }
        ensures name { IfErr result (λ e. e ≡ BuildFault.Name
            → names_hold (listing_of vars.items tables.items always.items txs.items runs.items) ≡ false) }
        ensures limit_after_names { IfErr result (λ e. e ≡ BuildFault.Limit
            → names_hold (listing_of vars.items tables.items always.items txs.items runs.items) ≡ true) }
        ensures limit { IfErr result (λ e. e ≡ BuildFault.Limit
            → limits_hold (listing_of vars.items tables.items always.items txs.items runs.items) ≡ false) }
        ensures broken_after_names { IfErr result (λ e. e ≡ BuildFault.Broken
            → names_hold (listing_of vars.items tables.items always.items txs.items runs.items) ≡ true) }
        ensures broken_after_limits { IfErr result (λ e. e ≡ BuildFault.Broken
            → limits_hold (listing_of vars.items tables.items always.items txs.items runs.items) ≡ true) }
        ensures broken { IfErr result (λ e. e ≡ BuildFault.Broken
            → upholds (listing_of vars.items tables.items always.items txs.items runs.items)
            (listing_of vars.items tables.items always.items txs.items runs.items).initial ≡ false) }
    {
        if !ids_known(&vars, &tables, &always, &txs, &runs) {
            return Err(BuildFault::Name);
        }
        Catalogue::build_known(alloc, vars, tables, always, txs, runs)
    }

    /// The same catalogue where each id is known to be one of those declared and each call to have as
    /// many arguments as its transaction wants, as a reader knows that found each by its name: no id
    /// is looked at. It is refused as `build` refuses: by `Name` where
    /// a name has not the form of one or is given twice, else by `Limit`, else by `Broken`; `Memory`
    /// may come in place of any answer, where a growth was refused.
    pub fn build_known(
        alloc: Global,
        vars: Vec<(String, i64)>,
        tables: Vec<Table>,
        always: Vec<(String, Cond)>,
        txs: Vec<Tx>,
        runs: Vec<(Call, u32)>,
    ) -> Result<Catalogue, BuildFault>
        requires { ids_hold (listing_of vars.items tables.items always.items txs.items runs.items) ≡ true }
        ensures built { IfOk result (λ c. c ≡ listing_of vars.items tables.items always.items txs.items runs.items) }
        ensures names { OnOk result
            (names_hold (listing_of vars.items tables.items always.items txs.items runs.items) ≡ true) }
        ensures limits { OnOk result
            (limits_hold (listing_of vars.items tables.items always.items txs.items runs.items) ≡ true) }
        ensures upheld { OnOk result
            (upholds (listing_of vars.items tables.items always.items txs.items runs.items)
            (listing_of vars.items tables.items always.items txs.items runs.items).initial ≡ true) }
        ensures name { IfErr result (λ e. e ≡ BuildFault.Name
            → names_hold (listing_of vars.items tables.items always.items txs.items runs.items) ≡ false) }
        ensures limit_after_names { IfErr result (λ e. e ≡ BuildFault.Limit
            → names_hold (listing_of vars.items tables.items always.items txs.items runs.items) ≡ true) }
        ensures limit { IfErr result (λ e. e ≡ BuildFault.Limit
            → limits_hold (listing_of vars.items tables.items always.items txs.items runs.items) ≡ false) }
        ensures broken_after_names { IfErr result (λ e. e ≡ BuildFault.Broken
            → names_hold (listing_of vars.items tables.items always.items txs.items runs.items) ≡ true) }
        ensures broken_after_limits { IfErr result (λ e. e ≡ BuildFault.Broken
            → limits_hold (listing_of vars.items tables.items always.items txs.items runs.items) ≡ true) }
        ensures broken { IfErr result (λ e. e ≡ BuildFault.Broken
            → upholds (listing_of vars.items tables.items always.items txs.items runs.items)
            (listing_of vars.items tables.items always.items txs.items runs.items).initial ≡ false) }
    {
        let declared = judged(alloc, vars, &tables, &always, &txs, &runs)?;
        let tables = kept_tables(alloc, tables)?;
        let derived = work_out(alloc, &always, &txs, &runs)?;
        Ok(Catalogue {
            names: declared.names,
            places: declared.places,
            initial: declared.initial,
            tables,
            table_places: declared.table_places,
            always,
            always_places: declared.always_places,
            tx_places: declared.tx_places,
            txs,
            codes: derived.codes,
            ending: derived.ending,
            most_params: derived.most_params,
            runs,
            task_txs: derived.task_txs,
            task_runs: derived.task_runs,
        })
    }

    /// What every catalogue keeps: a variable or a cell for each initial value, the rules on names and ids, the
    /// limits, and that the initial values keep each standing condition. It does nothing: its
    /// contract is the law.
    pub fn rules(&self)
        ensures valued { values self.now ≡ length self.now.initial }
        ensures names { names_hold self.now ≡ true }
        ensures limits { limits_hold self.now ≡ true }
        ensures upheld { Upholds self.now self.now.initial }
    {
        // To look at a field is to be told what the type keeps.
        let _values = self.initial.len();
    }

    /// Whether the two say the same: names, tables, initial values, standing conditions, transactions and
    /// runs, each in its order.
    pub fn same(&self, other: &Catalogue) -> bool
        ensures { IsTrue result ↔ (self.now ≡ other.now) }
    {
        self.same_but_runs(other) && same_runs(self.runs(), other.runs())
    }

    /// Whether the two say the same but for their runs and the values at which they begin: names, tables, standing
    /// conditions and transactions, each in its order.
    pub fn same_program(&self, other: &Catalogue) -> bool
        ensures { IsTrue result ↔ SameProgram self.now other.now }
    {
        same_names(&self.names, &other.names)
            && same_tables(&self.tables, &other.tables)
            && same_always(&self.always, &other.always)
            && same_transactions(&self.txs, &other.txs)
    }

    /// Whether the two say the same but for their runs: names, tables, initial values, standing conditions
    /// and transactions, each in its order.
    pub fn same_but_runs(&self, other: &Catalogue) -> bool
        ensures { IsTrue result ↔ SameButRuns self.now other.now }
    {
        self.same_program(other) && same_values(self.initial(), other.initial())
    }

    /// A copy with a run of one task more for each of these calls, after the other runs: the
    /// catalogue of a book to which they were submitted in this order. `Memory` only where a growth
    /// was refused.
    pub fn grown(&self, alloc: Global, more: &[Call]) -> Result<Catalogue, Memory>
        requires known { All (λ c. IsCallable self.now c.tx c.arguments) more.now }
        requires few { length (tasks self.now) + length more.now ≤ MAX_TASKS }
        ensures { IfOk result (λ c. c ≡ grown self.now more.now) }
    {
        self.rules();
        let copies = self.copies(alloc, more)?;
        match Catalogue::build(
            alloc,
            copies.vars,
            copies.tables,
            copies.always,
            copies.txs,
            copies.runs,
        ) {
            Ok(catalogue) => Ok(catalogue),
            Err(BuildFault::Name) => unreachable!(),
            Err(BuildFault::Limit) => unreachable!(),
            Err(BuildFault::Broken) => unreachable!(),
            Err(BuildFault::Memory) => Err(Memory),
        }
    }

    /// Copies of what it is built of, with a run more for each of these calls.
    fn copies(&self, alloc: Global, more: &[Call]) -> Result<Copies, AllocError>
        ensures { IfOk result
            (λ c. listing_of c.vars.items c.tables.items c.always.items c.txs.items c.runs.items
            ≡ grown self.now more.now) }
    {
        Ok(Copies {
            vars: variables_of(alloc, &self.names, &self.initial[..self.names.len()])?,
            tables: tables_of(alloc, &self.tables, &self.initial[self.names.len()..])?,
            always: always_of(alloc, &self.always)?,
            txs: transactions_of(alloc, &self.txs)?,
            runs: runs_with(alloc, self.runs(), more)?,
        })
    }

    /// The initial values of the variables, in declared order, and behind them those of the cells, table after
    /// table.
    pub fn initial(&self) -> &[i64]
        ensures value { result.now ≡ self.now.initial }
        ensures few { length result.now ≤ MAX_VALUES }
    {
        self.initial.as_slice()
    }

    /// How many tasks there are.
    pub fn tasks(&self) -> usize
        ensures value { result ≡ length (tasks self.now) }
        ensures few { result ≤ MAX_TASKS }
    {
        self.task_txs.len()
    }

    /// The transaction that a task runs.
    pub fn task_tx(&self, task: TaskId) -> TxId
        requires { task.0 < length (tasks self.now) }
        ensures value { result ≡ task_tx self.now task }
        ensures own { slice_get (tasks self.now) task.0 ≡ Some result }
        ensures known { result.0 < length self.now.transactions }
    {
        self.task_txs[task.0 as usize]
    }

    /// The arguments of a task's call.
    pub fn task_arguments(&self, task: TaskId) -> &[i64]
        requires { task.0 < length (tasks self.now) }
        ensures value { result.now ≡ task_arguments self.now task }
        ensures each { IsCallable self.now (task_tx self.now task) result.now }
        ensures few { length result.now ≤ MAX_PARAMETERS }
    {
        let run = self.task_runs[task.0 as usize];
        self.runs[run].0.arguments.as_slice()
    }

    /// Whether this is one of the transactions, and has so many parameters.
    pub fn is_callable(&self, tx: TxId, arguments: &[i64]) -> bool
        ensures { IsTrue result ↔ IsCallable self.now tx arguments.now }
    {
        is_callable(&self.txs, tx, arguments)
    }

    /// A transaction.
    pub fn tx(&self, id: TxId) -> &Tx
        requires { id.0 < length self.now.transactions }
        ensures value { transaction_of result.now ≡ transaction_at self.now id }
        ensures known { (given : List ℤ) → ProgramKnown (length self.now.initial)
            (instance given (under (conditions self.now) (transaction_of result.now))) }
    {
        &self.txs[id.0 as usize]
    }

    /// The names of a transaction's parameters, in declared order.
    pub fn params(&self, id: TxId) -> &[String]
        requires { id.0 < length self.now.transactions }
        ensures value { map string_bytes result.now ≡ (transaction_at self.now id).parameters }
        ensures few { length result.now ≤ MAX_PARAMETERS }
    {
        self.txs[id.0 as usize].params.as_slice()
    }

    /// The most parameters that a transaction has, so that no call has more arguments.
    pub fn most_parameters(&self) -> usize
        ensures value { result ≡ most_arity self.now.transactions }
        ensures calls { (tx : TxId) → (arguments : List ℤ) → IsCallable self.now tx arguments
            → length arguments ≤ result }
        ensures few { result ≤ MAX_PARAMETERS }
    {
        self.most_params
    }

    /// A transaction's own flat code, made when the catalogue was built: that of its body and of its
    /// result. It goes on into `ending`.
    pub fn code(&self, id: TxId) -> &[Op]
        requires { id.0 < length self.now.transactions }
        ensures value { result.now ≡ own_code (transaction_at self.now id).body (transaction_at self.now id).result }
        ensures length { length result.now < 2 ^ 63 }
    {
        self.codes[id.0 as usize].as_slice()
    }

    /// The flat code of the standing conditions and of the end, which is the same for all
    /// transactions.
    pub fn ending(&self) -> &[Op]
        ensures value { result.now ≡ common_code (conditions self.now) }
        ensures length { length result.now < 2 ^ 63 }
    {
        self.ending.as_slice()
    }

    /// The standing conditions with their names, in declared order.
    pub fn always(&self) -> &[(String, Cond)]
        ensures value { map standing_of result.now ≡ self.now.always }
        ensures conditions { conditions_of result.now ≡ conditions self.now }
        ensures count { length result.now ≡ length self.now.always }
        ensures few { length result.now ≤ MAX_CONDITIONS }
        ensures known { ConditionsKnown (length self.now.initial) (conditions_of result.now) }
    {
        self.always.as_slice()
    }

    /// How many transactions there are.
    pub fn tx_count(&self) -> usize
        ensures { result ≡ length self.now.transactions }
    {
        self.txs.len()
    }

    /// The runs, as declared.
    pub fn runs(&self) -> &[(Call, u32)]
        ensures { result.now ≡ self.now.runs }
    {
        self.runs.as_slice()
    }

    /// How many variables there are.
    pub fn var_count(&self) -> usize
        ensures value { result ≡ length self.now.names }
        ensures few { result ≤ MAX_VARIABLES }
    {
        self.names.len()
    }

    /// The tables, each with its name and how many cells it has, in declared order.
    pub fn tables(&self) -> &[(String, u32)]
        ensures { map counted result.now ≡ self.now.tables }
    {
        self.tables.as_slice()
    }

    /// The place of the table of a name among the tables.
    pub fn table_place(&self, name: &str) -> Option<usize>
        ensures { result ≡ table_named self.now name.now }
    {
        match self.table_places.get(name) {
            Some(place) => Some(*place),
            None => None,
        }
    }

    /// A variable's name.
    pub fn var_name(&self, id: VarId) -> &str
        requires { id.0 < length self.now.names }
        ensures { slice_get self.now.names id.0 ≡ Some result.now }
    {
        self.names[id.0 as usize].as_str()
    }

    /// The variable of a name.
    pub fn var_id(&self, name: &str) -> Option<VarId>
        ensures { result ≡ variable_named self.now name.now }
    {
        match place_of(&self.places, name) {
            Some(place) => Some(VarId(place)),
            None => None,
        }
    }

    /// A standing condition's name.
    pub fn always_name(&self, id: AlwaysId) -> &str
        requires { id.0 < length self.now.always }
        ensures { result.now ≡ always_name self.now id }
    {
        self.always[id.0 as usize].0.as_str()
    }

    /// The standing condition of a name.
    pub fn always_id(&self, name: &str) -> Option<AlwaysId>
        ensures { result ≡ condition_named self.now name.now }
    {
        match place_of(&self.always_places, name) {
            Some(place) => Some(AlwaysId(place)),
            None => None,
        }
    }

    /// A transaction's name.
    pub fn tx_name(&self, id: TxId) -> &str
        requires { id.0 < length self.now.transactions }
        ensures { result.now ≡ (transaction_at self.now id).name }
    {
        self.txs[id.0 as usize].name.as_str()
    }

    /// The transaction of a name.
    pub fn tx_id(&self, name: &str) -> Option<TxId>
        ensures { result ≡ transaction_named self.now name.now }
    {
        match place_of(&self.tx_places, name) {
            Some(place) => Some(TxId(place)),
            None => None,
        }
    }
}

/// The place of a name among names of which there are few.
fn place_of(places: &HashMap<String, usize>, name: &str) -> Option<u32>
    requires { IfSome (get_by_text places.now name.now) (λ place. place ≤ most_variables) }
    ensures { result ≡ get_by_text places.now name.now }
{
    match places.get(name) {
        Some(place) => Some(*place as u32),
        None => None,
    }
}
