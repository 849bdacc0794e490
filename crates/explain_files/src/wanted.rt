//! What may stand at a place of a file.

use text_grammar::file::FileForm;

/// What a name is for.
#[derive(Clone, Copy, PartialEq, Eq)]
pub enum NameUse {
    /// It declares a variable.
    Variable,
    /// It declares a table.
    Table,
    /// It declares a standing condition.
    Condition,
    /// It declares a transaction.
    Transaction,
    /// It declares a parameter of a transaction.
    Parameter,
    /// It is the variable that a statement sets.
    Target,
    /// It is the table of which cells are read or put.
    Cells,
    /// It is the transaction that a run is of.
    Called,
}

/// What a number is for.
#[derive(Clone, Copy, PartialEq, Eq)]
pub enum NumberUse {
    /// The initial value of a variable.
    Initial,
    /// How many cells a table has.
    Length,
    /// An initial value of cells.
    Cell,
    /// How often a statement is repeated.
    Turns,
    /// How many tasks a run is.
    Tasks,
    /// An argument of a run.
    Argument,
}

/// What a declaration declares, by its word.
#[derive(Clone, Copy, PartialEq, Eq)]
pub enum Kind {
    /// `var`
    Variable,
    /// `table`
    Table,
    /// `always`
    Condition,
    /// `tx`
    Transaction,
    /// `run`
    Run,
}

/// The part of a file in which a declaration stands: what may come there and behind it.
#[derive(Clone, Copy, PartialEq, Eq)]
pub enum Section {
    /// The beginning: variables, transactions and runs, or the announcement of form 2 or 3.
    Start,
    /// Behind a variable, or behind the announcement of this form: all declarations that the form has.
    Variables(FileForm),
    /// Behind a table, which only form 3 has: all but variables.
    Tables,
    /// Behind a standing condition: all but variables and tables.
    Conditions(FileForm),
    /// Behind a transaction: transactions and runs.
    Transactions(FileForm),
    /// Behind a run: runs.
    Runs(FileForm),
}

/// What is wanted at a place. With an expression, a condition or a statement goes the form of the file, and how many
/// more parentheses may be open inside.
#[derive(Clone, Copy, PartialEq, Eq)]
pub enum Wanted {
    /// A declaration, or the end.
    Declarations(Section),
    /// The word of a declaration.
    Word(Section),
    /// The number of the form that is announced, its closing parenthesis, and all the declarations behind it.
    FormNumber,
    /// A closing parenthesis.
    Close,
    Name(NameUse),
    Number(NumberUse),
    Expr(FileForm, u32),
    /// The word of an expression.
    Head(FileForm, u32),
    Cond(FileForm, u32),
    /// The word of a condition.
    Test(FileForm, u32),
    Stmt(FileForm, u32),
    /// The word of a statement.
    Keyword(FileForm, u32),
    /// The statements of a sequence, and its closing parenthesis.
    Parts(FileForm, u32),
    /// The list of parameters of a transaction.
    List,
    /// The names of a list, and its closing parenthesis.
    Parameters,
    /// Numbers for this, as many as stand there, and a closing parenthesis.
    Numbers(NumberUse),
}

/// What a token is for, as those before it say.
#[derive(Clone, Copy, PartialEq, Eq)]
pub enum Role {
    /// It stands behind an opening parenthesis: the word of what is in it.
    Word,
    /// A name that declares something, that is set, or that is run.
    Name(NameUse),
    /// A number that is an initial value, a length, a count, or an argument.
    Number(NumberUse),
    /// The parenthesis that opens a list of parameters.
    List,
    /// A part of an expression, or another parenthesis.
    Value,
}
