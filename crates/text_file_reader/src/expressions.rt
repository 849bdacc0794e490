//! Expressions, made as they are read: names as ids, and integers as numbers of the machine.

ghost use Rattle.std.specs.Prelude.{IfOk};
ghost use Rattle.txn_programs.specs.Tree.{expression_of};
ghost use Rattle.text_words.specs.Tokens.{tokens};
ghost use Rattle.text_grammar.specs.Reading.{expr_at, compound_with, binary_with, at_with, all_with};
ghost use Rattle.text_grammar.specs.Resolving.{expression_in};
ghost use Rattle.text_resolver.specs.Scopes.{view_scope};
ghost use Rattle.text_file_reader.specs.Resolved.{Makes, MakesLast};

use std::alloc::Global;
use text_grammar::file::FileForm;
use text_grammar::words::{Head, Operator, head_of};
use text_resolver::names::Scope;
use text_resolver::resolve::{binary, named, of_all};
use text_resolver::tables::table;
use text_words::ReadFault;
use text_words::lexer::Token;
use text_words::tokens::{close, name_of, token_of};
use txn_programs::{Expr, Fold};

/// An expression with no more than `depth` parentheses open at a time.
#[cycle(expressions)]
pub(crate) fn expression_at_once<'a>(
    alloc: Global,
    file_form: FileForm,
    scope: &Scope<'_, '_>,
    depth: u32,
    bytes: &'a [u8],
) -> Result<(Expr, &'a [u8]), ReadFault>
    ensures { IfOk result
        (λ x. Makes (expr_at file_form depth (tokens bytes.now)) (expression_in (view_scope scope.now))
        (expression_of x.0) (tokens x.1.now)) }
{
    let (token, rest) = token_of(bytes)?;
    match token {
        Token::Int(numeral) => {
            let number = numeral.number()?;
            Ok((Expr::Int(number), rest))
        }
        Token::Name(name) => {
            let made = named(scope, name)?;
            Ok((made, rest))
        }
        Token::Open => {
            if depth == 0 {
                return Err(ReadFault::Shape);
            }
            compound_at_once(alloc, file_form, scope, depth - 1, rest)
        }
        Token::Close | Token::Other => Err(ReadFault::Shape),
    }
}

/// An expression, and the parenthesis that closes behind it.
pub(crate) fn last_expression_at_once<'a>(
    alloc: Global,
    file_form: FileForm,
    scope: &Scope<'_, '_>,
    depth: u32,
    bytes: &'a [u8],
) -> Result<(Expr, &'a [u8]), ReadFault>
    ensures { IfOk result
        (λ x. MakesLast (expr_at file_form depth (tokens bytes.now)) (expression_in (view_scope scope.now))
        (expression_of x.0) (tokens x.1.now)) }
{
    let (made, rest) = expression_at_once(alloc, file_form, scope, depth, bytes)?;
    match close(rest) {
        Ok(rest) => Ok((made, rest)),
        Err(fault) => {
            drop(made);
            Err(fault)
        }
    }
}

/// An expression behind its parenthesis: an operation, a cell of a table, or what is made of all its cells.
#[cycle(expressions)]
fn compound_at_once<'a>(
    alloc: Global,
    file_form: FileForm,
    scope: &Scope<'_, '_>,
    depth: u32,
    bytes: &'a [u8],
) -> Result<(Expr, &'a [u8]), ReadFault>
    ensures { IfOk result
        (λ x. Makes (compound_with file_form (expr_at file_form depth) (tokens bytes.now))
        (expression_in (view_scope scope.now)) (expression_of x.0) (tokens x.1.now)) }
{
    let (word, rest) = name_of(bytes)?;
    let head = head_of(file_form, word)?;
    match head {
        Head::Operates(operator) => {
            binary_at_once(alloc, file_form, scope, depth, operator, rest)
        }
        Head::Picks => cell_at_once(alloc, file_form, scope, depth, rest),
        Head::Folds(fold) => fold_at_once(scope, fold, rest),
    }
}

#[inline(always)]
#[cycle(expressions)]
fn binary_at_once<'a>(
    alloc: Global,
    file_form: FileForm,
    scope: &Scope<'_, '_>,
    depth: u32,
    operator: Operator,
    bytes: &'a [u8],
) -> Result<(Expr, &'a [u8]), ReadFault>
    ensures { IfOk result
        (λ x. Makes (binary_with (expr_at file_form depth) operator (tokens bytes.now))
        (expression_in (view_scope scope.now)) (expression_of x.0) (tokens x.1.now)) }
{
    let (left, rest) = boxed(alloc, file_form, scope, depth, bytes)?;
    let (right, rest) = boxed(alloc, file_form, scope, depth, rest)?;
    let rest = close(rest)?;
    Ok((binary(operator, left, right), rest))
}

#[cycle(expressions)]
fn cell_at_once<'a>(
    alloc: Global,
    file_form: FileForm,
    scope: &Scope<'_, '_>,
    depth: u32,
    bytes: &'a [u8],
) -> Result<(Expr, &'a [u8]), ReadFault>
    ensures { IfOk result
        (λ x. Makes (at_with (expr_at file_form depth) (tokens bytes.now)) (expression_in (view_scope scope.now))
        (expression_of x.0) (tokens x.1.now)) }
{
    let (name, rest) = name_of(bytes)?;
    let cells = table(scope, name)?;
    let (index, rest) = boxed(alloc, file_form, scope, depth, rest)?;
    let rest = close(rest)?;
    Ok((Expr::At(cells, index), rest))
}

fn fold_at_once<'a>(
    scope: &Scope<'_, '_>,
    fold: Fold,
    bytes: &'a [u8],
) -> Result<(Expr, &'a [u8]), ReadFault>
    ensures { IfOk result
        (λ x. Makes (all_with fold (tokens bytes.now)) (expression_in (view_scope scope.now)) (expression_of x.0)
        (tokens x.1.now)) }
{
    let (name, rest) = name_of(bytes)?;
    let cells = table(scope, name)?;
    let rest = close(rest)?;
    Ok((of_all(fold, cells), rest))
}

/// An expression that stands in another.
#[inline(always)]
#[cycle(expressions)]
fn boxed<'a>(
    alloc: Global,
    file_form: FileForm,
    scope: &Scope<'_, '_>,
    depth: u32,
    bytes: &'a [u8],
) -> Result<(Box<Expr>, &'a [u8]), ReadFault>
    ensures { IfOk result
        (λ x. Makes (expr_at file_form depth (tokens bytes.now)) (expression_in (view_scope scope.now))
        (expression_of x.0.value) (tokens x.1.now)) }
{
    let (made, rest) = expression_at_once(alloc, file_form, scope, depth, bytes)?;
    let held = Box::new(alloc, made)?;
    Ok((held, rest))
}
