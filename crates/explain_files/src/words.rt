//! What is wrong with a file, in words.

ghost use Rattle.explain_files.specs.Telling.{IsInLine};

use crate::wanted::{NameUse, NumberUse, Section, Wanted};
use crate::{Finding, LimitFault, NameFault, Refusal};
use text_grammar::file::{FileForm, MAX_FILE};

/// What is wrong, in words.
pub(crate) fn words(refusal: &Refusal) -> &'static str
    ensures { IsInLine result.now }
{
    match refusal.finding {
        Finding::TooLong => length_words(refusal.place),
        Finding::BadByte => "no file has this byte: a file has newlines and the bytes 32 to 126",
        Finding::Unwanted(None) => "nothing more is wanted",
        Finding::Unwanted(Some(wanted)) => wanted_words(wanted),
        Finding::Name(fault) => name_words(fault),
        Finding::Limit(fault) => limit_words(fault),
        Finding::Cost =>
            "the cost of this is more than 1000000, with that of the standing conditions",
        Finding::Untrue => "this standing condition is not true of the initial values",
    }
}

/// Of a file that is too long, whose limit this is.
fn length_words(limit: usize) -> &'static str
    ensures { IsInLine result.now }
{
    if limit > MAX_FILE {
        "a file that begins with (stm 3) has at most 67108864 bytes"
    } else {
        "a file has at most 1048576 bytes"
    }
}

fn wanted_words(wanted: Wanted) -> &'static str
    ensures { IsInLine result.now }
{
    match wanted {
        Wanted::Declarations(part) => declaration_words(part),
        Wanted::Word(part) => word_words(part),
        Wanted::FormNumber => "the number of the form is wanted, which is 2 or 3",
        Wanted::Close => "a closing parenthesis is wanted",
        Wanted::Name(used) => used_words(used),
        Wanted::Number(used) => number_words(used),
        Wanted::Expr(_, 0) => "a number or a name is wanted: 32 parentheses are open",
        Wanted::Expr(FileForm::Three, _) => {
            "an expression is wanted: INT, NAME, (add EXPR EXPR), (sub ..), (mul ..), (div ..), (rem ..), \
                (at NAME EXPR), (sum NAME), (min NAME) or (max NAME)"
        }
        Wanted::Expr(..) => {
            "an expression is wanted: INT, NAME, (add EXPR EXPR), (sub ..), (mul ..), (div ..) or (rem ..)"
        }
        Wanted::Head(FileForm::Three, _) => {
            "the word of an expression is wanted: add, sub, mul, div, rem, at, sum, min or max"
        }
        Wanted::Head(..) => "the word of an expression is wanted: add, sub, mul, div or rem",
        Wanted::Cond(..) => {
            "a condition is wanted: (eq EXPR EXPR), (lt ..), (le ..), (not COND), (and COND COND) or (or COND COND)"
        }
        Wanted::Test(_, 0) => "eq, lt or le is wanted: 32 parentheses are open",
        Wanted::Test(..) => "the word of a condition is wanted: eq, lt, le, not, and or or",
        Wanted::Stmt(form, _) => statement_words(form),
        Wanted::Keyword(form, depth) => keyword_words(form, depth),
        Wanted::Parts(_, 0) => "a closing parenthesis is wanted: 32 parentheses are open",
        Wanted::Parts(..) => "a statement or a closing parenthesis is wanted",
        Wanted::List => "the parameters are wanted: (NAME ..), or () where there are none",
        Wanted::Parameters => "the name of a parameter or a closing parenthesis is wanted",
        Wanted::Numbers(NumberUse::Cell) => {
            "an initial value, an INT, or a closing parenthesis is wanted"
        }
        Wanted::Numbers(_) => "an argument, an INT, or a closing parenthesis is wanted",
    }
}

fn statement_words(form: FileForm) -> &'static str
    ensures { IsInLine result.now }
{
    match form {
        FileForm::One | FileForm::Two => {
            "a statement is wanted: (skip), (set NAME EXPR), (seq STMT ..), (if COND STMT STMT), (repeat INT STMT), \
                (retry), (orelse STMT STMT) or (throw EXPR)"
        }
        FileForm::Three => {
            "a statement is wanted: (skip), (set NAME EXPR), (put NAME EXPR EXPR), (seq STMT ..), \
                (if COND STMT STMT), (repeat INT STMT), (retry), (orelse STMT STMT) or (throw EXPR)"
        }
    }
}

fn keyword_words(form: FileForm, depth: u32) -> &'static str
    ensures { IsInLine result.now }
{
    match (form, depth) {
        (FileForm::Three, 0) => {
            "skip, set, put, seq, retry or throw is wanted: 32 parentheses are open"
        }
        (_, 0) => "skip, set, seq, retry or throw is wanted: 32 parentheses are open",
        (FileForm::Three, _) => {
            "the word of a statement is wanted: skip, set, put, seq, if, repeat, retry, orelse or throw"
        }
        _ => {
            "the word of a statement is wanted: skip, set, seq, if, repeat, retry, orelse or throw"
        }
    }
}

fn declaration_words(part: Section) -> &'static str
    ensures { IsInLine result.now }
{
    match part {
        Section::Start => {
            "a declaration is wanted: (var NAME INT), (tx NAME STMT EXPR), (run NAME INT), \
                or first of all (stm 2) or (stm 3)"
        }
        Section::Variables(FileForm::One) => {
            "a declaration is wanted: (var NAME INT), (tx NAME STMT EXPR) or (run NAME INT)"
        }
        Section::Variables(FileForm::Two) => {
            "a declaration is wanted: (var NAME INT), (always NAME COND), (tx NAME STMT EXPR) or (run NAME INT)"
        }
        Section::Variables(FileForm::Three) => {
            "a declaration is wanted: (var NAME INT), (table NAME INT INT ..), (always NAME COND), \
                (tx NAME (NAME ..) STMT EXPR) or (run NAME INT INT ..)"
        }
        Section::Tables => {
            "a declaration is wanted: (table NAME INT INT ..), (always NAME COND), (tx NAME (NAME ..) STMT EXPR) \
                or (run NAME INT INT ..)"
        }
        Section::Conditions(FileForm::Three) => {
            "a declaration is wanted: (always NAME COND), (tx NAME (NAME ..) STMT EXPR) or (run NAME INT INT ..)"
        }
        Section::Conditions(_) => {
            "a declaration is wanted: (always NAME COND), (tx NAME STMT EXPR) or (run NAME INT)"
        }
        Section::Transactions(FileForm::Three) => {
            "a declaration is wanted: (tx NAME (NAME ..) STMT EXPR) or (run NAME INT INT ..)"
        }
        Section::Transactions(_) => {
            "a declaration is wanted: (tx NAME STMT EXPR) or (run NAME INT)"
        }
        Section::Runs(FileForm::Three) => "a declaration is wanted: (run NAME INT INT ..)",
        Section::Runs(_) => "a declaration is wanted: (run NAME INT)",
    }
}

fn word_words(part: Section) -> &'static str
    ensures { IsInLine result.now }
{
    match part {
        Section::Start => {
            "var, tx, run or stm is wanted; always only in a file that begins with (stm 2) or (stm 3), \
                table only in one that begins with (stm 3)"
        }
        Section::Variables(FileForm::One) => {
            "var, tx or run is wanted; always only in a file that begins with (stm 2) or (stm 3), \
                table only in one that begins with (stm 3)"
        }
        Section::Variables(FileForm::Two) => {
            "var, always, tx or run is wanted; table only in a file that begins with (stm 3)"
        }
        Section::Variables(FileForm::Three) => "var, table, always, tx or run is wanted",
        Section::Tables => "table, always, tx or run is wanted: variables stand before tables",
        Section::Conditions(FileForm::Three) => {
            "always, tx or run is wanted: variables and tables stand before standing conditions"
        }
        Section::Conditions(_) => {
            "always, tx or run is wanted: variables stand before standing conditions"
        }
        Section::Transactions(FileForm::Three) => {
            "tx or run is wanted: variables, tables and standing conditions stand before transactions"
        }
        Section::Transactions(_) => {
            "tx or run is wanted: variables and standing conditions stand before transactions"
        }
        Section::Runs(FileForm::Three) => {
            "run is wanted: variables, tables, standing conditions and transactions stand before runs"
        }
        Section::Runs(_) => {
            "run is wanted: variables, standing conditions and transactions stand before runs"
        }
    }
}

fn used_words(used: NameUse) -> &'static str
    ensures { IsInLine result.now }
{
    match used {
        NameUse::Variable => "the name of a variable is wanted",
        NameUse::Table | NameUse::Cells => "the name of a table is wanted",
        NameUse::Condition => "the name of a standing condition is wanted",
        NameUse::Transaction => "the name of a transaction is wanted",
        NameUse::Parameter => "the name of a parameter is wanted",
        NameUse::Target => "the name of the variable to set is wanted",
        NameUse::Called => "the name of the transaction to run is wanted",
    }
}

fn number_words(used: NumberUse) -> &'static str
    ensures { IsInLine result.now }
{
    match used {
        NumberUse::Initial => "the initial value is wanted, an INT",
        NumberUse::Length => "the number of cells is wanted, an INT",
        NumberUse::Cell => "the initial value of the cells is wanted, an INT",
        NumberUse::Turns => "the number of turns is wanted, an INT",
        NumberUse::Tasks => "the number of tasks is wanted, an INT",
        NumberUse::Argument => "an argument is wanted, an INT",
    }
}

fn name_words(fault: NameFault) -> &'static str
    ensures { IsInLine result.now }
{
    match fault {
        NameFault::Twice(NameUse::Table) => "a table of this name is declared before",
        NameFault::Twice(NameUse::Condition) =>
            "a standing condition of this name is declared before",
        NameFault::Twice(NameUse::Transaction) => "a transaction of this name is declared before",
        NameFault::Twice(NameUse::Parameter) =>
            "the transaction has a parameter of this name before",
        NameFault::Twice(_) => "a variable of this name is declared before",
        NameFault::OfVariable => "a variable has this name, and no parameter may have it",
        NameFault::NoTable => "no table of this name is declared",
        NameFault::NoVariable => "no variable of this name is declared",
        NameFault::NoValue => {
            "no variable of this name is declared, and the transaction has no parameter of it"
        }
        NameFault::IsParameter => "this is a parameter, and only a variable can be set",
        NameFault::NoTransaction => "no transaction of this name is declared",
        NameFault::Arguments { .. } => {
            "a run gives as many arguments as its transaction has parameters"
        }
    }
}

fn limit_words(fault: LimitFault) -> &'static str
    ensures { IsInLine result.now }
{
    match fault {
        LimitFault::Number => "a number is one of -9223372036854775808 to 9223372036854775807",
        LimitFault::Length => "a table has 1 to 1048576 cells",
        LimitFault::Values => "a table has one initial value, or one for each of its cells",
        LimitFault::AllCells => "with this table there are more than 1048576 cells",
        LimitFault::Turns => "a number of turns is one of 0 to 1000",
        LimitFault::Tasks => "a number of tasks is one of 0 to 65536",
        LimitFault::AllTasks => "with this run there are more than 65536 tasks",
        LimitFault::Name => "a name has at most 32 bytes",
        LimitFault::Variables => "there are at most 256 variables",
        LimitFault::Tables => "there are at most 64 tables",
        LimitFault::Conditions => "there are at most 64 standing conditions",
        LimitFault::Transactions => "there are at most 256 transactions",
        LimitFault::Parameters => "a transaction has at most 8 parameters",
    }
}
