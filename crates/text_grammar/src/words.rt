//! The words behind a parenthesis.

ghost use Rattle.std.specs.Prelude.{◌≡◌, IfErr};
ghost use Rattle.text_words.specs.Answers.{Gives};
ghost use Rattle.text_words.specs.declared.fault.ReadFault.TheVariants.{Shape};
ghost use Rattle.text_grammar.specs.Reading.{operator_of, fold_of, head_of, test_of, keyword_of};
ghost use Rattle.text_grammar.specs.Tree.{has_tables};

use crate::file::FileForm;
use text_words::ReadFault;
use txn_programs::Fold;

/// An operator of two expressions.
#[derive(Clone, Copy)]
pub enum Operator {
    Add,
    Sub,
    Mul,
    Div,
    Rem,
}

/// What kind of expression a word begins.
#[derive(Clone, Copy)]
pub enum Head {
    Operates(Operator),
    Picks,
    Folds(Fold),
}

/// A comparison of two expressions.
#[derive(Clone, Copy)]
pub enum Comparison {
    Eq,
    Lt,
    Le,
}

/// What joins two conditions.
#[derive(Clone, Copy)]
pub enum Connective {
    And,
    Or,
}

/// What kind of condition a word begins.
#[derive(Clone, Copy)]
pub enum Test {
    Compares(Comparison),
    Negates,
    Connects(Connective),
}

/// What kind of statement a word begins.
#[derive(Clone, Copy)]
pub enum Keyword {
    Skip,
    Set,
    Put,
    Seq,
    If,
    Repeat,
    Retry,
    OrElse,
    Throw,
}

/// The operator of a word.
pub fn operator_of(word: &str) -> Result<Operator, ReadFault>
    ensures value { Gives (λ x. x) result (operator_of word.now) }
    ensures kind { IfErr result (λ e. e ≡ Shape) }
{
    match word {
        "add" => Ok(Operator::Add),
        "sub" => Ok(Operator::Sub),
        "mul" => Ok(Operator::Mul),
        "div" => Ok(Operator::Div),
        "rem" => Ok(Operator::Rem),
        _ => Err(ReadFault::Shape),
    }
}

/// What is made of all cells of a table by a word.
pub fn fold_of(word: &str) -> Result<Fold, ReadFault>
    ensures value { Gives (λ x. x) result (fold_of word.now) }
    ensures kind { IfErr result (λ e. e ≡ Shape) }
{
    match word {
        "sum" => Ok(Fold::Sum),
        "min" => Ok(Fold::Min),
        "max" => Ok(Fold::Max),
        _ => Err(ReadFault::Shape),
    }
}

/// Whether files of the form can have tables.
pub fn has_tables(file_form: FileForm) -> bool
    ensures { result ≡ has_tables file_form }
{
    matches!(file_form, FileForm::Three)
}

/// The kind of expression that a word begins in a file of this form.
#[inline(always)]
pub fn head_of(file_form: FileForm, word: &str) -> Result<Head, ReadFault>
    ensures value { Gives (λ x. x) result (head_of file_form word.now) }
    ensures kind { IfErr result (λ e. e ≡ Shape) }
{
    if let Ok(operator) = operator_of(word) {
        return Ok(Head::Operates(operator));
    }
    if !has_tables(file_form) {
        return Err(ReadFault::Shape);
    }
    if word == "at" {
        return Ok(Head::Picks);
    }
    let fold = fold_of(word)?;
    Ok(Head::Folds(fold))
}

/// The kind of condition that a word begins.
pub fn test_of(word: &str) -> Result<Test, ReadFault>
    ensures value { Gives (λ x. x) result (test_of word.now) }
    ensures kind { IfErr result (λ e. e ≡ Shape) }
{
    match word {
        "eq" => Ok(Test::Compares(Comparison::Eq)),
        "lt" => Ok(Test::Compares(Comparison::Lt)),
        "le" => Ok(Test::Compares(Comparison::Le)),
        "not" => Ok(Test::Negates),
        "and" => Ok(Test::Connects(Connective::And)),
        "or" => Ok(Test::Connects(Connective::Or)),
        _ => Err(ReadFault::Shape),
    }
}

/// The kind of statement that a word begins in a file of this form.
#[inline(always)]
pub fn keyword_of(file_form: FileForm, word: &str) -> Result<Keyword, ReadFault>
    ensures value { Gives (λ x. x) result (keyword_of file_form word.now) }
    ensures kind { IfErr result (λ e. e ≡ Shape) }
{
    match word {
        "skip" => Ok(Keyword::Skip),
        "set" => Ok(Keyword::Set),
        "seq" => Ok(Keyword::Seq),
        "if" => Ok(Keyword::If),
        "repeat" => Ok(Keyword::Repeat),
        "retry" => Ok(Keyword::Retry),
        "orelse" => Ok(Keyword::OrElse),
        "throw" => Ok(Keyword::Throw),
        "put" if has_tables(file_form) => Ok(Keyword::Put),
        _ => Err(ReadFault::Shape),
    }
}
