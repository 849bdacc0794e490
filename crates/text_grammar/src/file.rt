//! Files as trees of texts.

ghost use Rattle.std.specs.Prelude.{◌≡◌};
ghost use Rattle.text_grammar.specs.Tree.{longest};

use crate::cond::RawCond;
use crate::expr::RawExpr;
use crate::stmt::RawStmt;
use text_words::numeral::Numeral;

/// A variable and its first value.
#[derive(Clone, Copy)]
pub struct RawPair<'a> {
    pub name: &'a str,
    pub value: Numeral<'a>,
}

/// The form of a file: the second can have standing conditions, and the third tables and parameters as well.
#[derive(Clone, Copy, PartialEq, Eq)]
pub enum FileForm {
    One,
    Two,
    Three,
}

/// A table: its name, how many cells it has, and the first number of what they are at first, with the others that are
/// given.
#[derive(Drop)]
pub struct RawTable<'a> {
    pub name: &'a str,
    pub count: Numeral<'a>,
    pub first: Numeral<'a>,
    pub others: Vec<Numeral<'a>>,
}

/// A standing condition.
#[derive(Drop)]
pub struct RawAlways<'a> {
    pub name: &'a str,
    pub condition: RawCond<'a>,
}

/// A transaction, with the names of its parameters.
#[derive(Drop)]
pub struct RawTx<'a> {
    pub name: &'a str,
    pub params: Vec<&'a str>,
    pub body: RawStmt<'a>,
    pub value: RawExpr<'a>,
}

/// A call of a transaction, and how many tasks make it.
#[derive(Drop)]
pub struct RawRun<'a> {
    pub name: &'a str,
    pub count: Numeral<'a>,
    pub arguments: Vec<Numeral<'a>>,
}

/// A file whose names are not looked up and whose integers are not measured.
#[derive(Drop)]
pub struct RawFile<'a> {
    pub form: FileForm,
    pub vars: Vec<RawPair<'a>>,
    pub tables: Vec<RawTable<'a>>,
    pub always: Vec<RawAlways<'a>>,
    pub txs: Vec<RawTx<'a>>,
    pub runs: Vec<RawRun<'a>>,
}

/// The longest file that does not begin with `(stm 3)`, in bytes.
pub const MAX_FILE: usize = 1_048_576;

/// The longest file that begins with `(stm 3)`, in bytes: it may have tables, and tell each of their cells.
pub const MAX_FILE_OF_FORM_3: usize = 67_108_864;

/// How many bytes a file that begins so has at most.
#[tactic(auto, unfolding(crate::specs::Tree::longest))]
pub fn longest_file(bytes: &[u8]) -> usize
    ensures { result ≡ longest bytes.now }
{
    if bytes.starts_with(b"(stm 3)") {
        MAX_FILE_OF_FORM_3
    } else {
        MAX_FILE
    }
}
