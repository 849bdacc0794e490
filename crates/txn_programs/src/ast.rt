//! The language of transactions.

ghost use Rattle.std.specs.Prelude.{◌≡◌, ◌<◌, ◌^◌, length};
ghost use Rattle.txn_programs.specs.Listing.{values_of};

/// A variable, by its place in declared order, from 0.
#[derive(Clone, Copy, Debug, Default, PartialEq, Eq, PartialOrd, Ord)]
pub struct VarId(pub u32);

/// A transaction, by its place in declared order, from 0.
#[derive(Clone, Copy, Debug, Default, PartialEq, Eq, PartialOrd, Ord)]
pub struct TxId(pub u32);

/// A task, by its place in the order of the runs, from 0.
#[derive(Clone, Copy, Debug, Default, PartialEq, Eq, PartialOrd, Ord)]
pub struct TaskId(pub u32);

/// A standing condition, by its place in declared order, from 0.
#[derive(Clone, Copy, Debug, Default, PartialEq, Eq, PartialOrd, Ord)]
pub struct AlwaysId(pub u32);

/// A parameter of a transaction, by its place in the transaction's list, from 0.
#[derive(Clone, Copy, Debug, Default, PartialEq, Eq, PartialOrd, Ord)]
pub struct ParamId(pub u32);

/// The cells of a table, which are variables behind the declared ones.
#[derive(Clone, Copy, Debug, PartialEq, Eq)]
pub struct Span {
    /// The number of the first cell as a variable.
    pub first: u32,
    /// How many cells there are.
    pub length: u32,
}

/// What all cells of a table make together.
#[derive(Clone, Copy, Debug, PartialEq, Eq)]
pub enum Fold {
    Sum,
    Min,
    Max,
}

/// An expression: a signed 64-bit number, or a fault.
#[derive(Debug, PartialEq, Eq, Drop)]
pub enum Expr {
    Int(i64),
    Var(VarId),
    /// The argument of a parameter.
    Param(ParamId),
    /// The cell with this number, from 0.
    At(Span, Box<Expr>),
    /// The sum of all cells.
    Sum(Span),
    /// The least of all cells.
    Min(Span),
    /// The greatest of all cells.
    Max(Span),
    Add(Box<Expr>, Box<Expr>),
    Sub(Box<Expr>, Box<Expr>),
    Mul(Box<Expr>, Box<Expr>),
    Div(Box<Expr>, Box<Expr>),
    Rem(Box<Expr>, Box<Expr>),
}

/// A condition: yes, no or a fault.
#[derive(Debug, PartialEq, Eq, Drop)]
pub enum Cond {
    Eq(Expr, Expr),
    Lt(Expr, Expr),
    Le(Expr, Expr),
    Not(Box<Cond>),
    And(Box<Cond>, Box<Cond>),
    Or(Box<Cond>, Box<Cond>),
}

/// What the cells of a table are at first.
#[derive(Debug, PartialEq, Eq, Drop)]
pub enum Cells {
    /// So many cells, each of which is this number.
    Same(u32, i64),
    /// A cell for each of these numbers.
    Each(Vec<i64>),
}

impl Cells {
    /// How many cells there are.
    pub fn count(&self) -> usize
        ensures value { result ≡ length (values_of self.now) }
        ensures below { result < 2 ^ 63 }
    {
        match self {
            Cells::Same(count, _) => *count as usize,
            Cells::Each(numbers) => numbers.len(),
        }
    }
}

/// A table: its name, and its cells.
#[derive(Debug, PartialEq, Eq, Drop)]
pub struct Table {
    pub name: String,
    pub cells: Cells,
}

/// A statement.
#[derive(Debug, PartialEq, Eq, Drop)]
pub enum Stmt {
    Skip,
    Set(VarId, Expr),
    /// The cell with the first number becomes the second one.
    Put(Span, Expr, Expr),
    Seq(Vec<Stmt>),
    If(Cond, Box<Stmt>, Box<Stmt>),
    Repeat(u32, Box<Stmt>),
    Retry,
    OrElse(Box<Stmt>, Box<Stmt>),
    Throw(Expr),
}

/// A transaction: its parameters' names, a body, and a result that sees the body's writes.
#[derive(Debug, PartialEq, Eq, Drop)]
pub struct Tx {
    pub name: String,
    pub params: Vec<String>,
    pub body: Stmt,
    pub result: Expr,
}

/// Why a transaction throws.
#[derive(Clone, Copy, Debug, PartialEq, Eq)]
pub enum Fault {
    /// A `throw` of this value.
    User(i64),
    /// A result outside 64 signed bits.
    Overflow,
    /// A division or a remainder by 0.
    DivideByZero,
    /// A standing condition that would not be true of what it leaves.
    Broken(AlwaysId),
    /// A number that is none of a table's cells.
    Outside,
}

/// How a transaction ends.
#[derive(Clone, Copy, Debug, PartialEq, Eq)]
pub enum Outcome {
    Returned(i64),
    Thrown(Fault),
    /// It asked to be run again in another state.
    Retries,
}
