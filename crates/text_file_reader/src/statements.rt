//! Statements, made as they are read.

ghost use Rattle.std.specs.Prelude.{◌≡◌, ◌++◌, ◌∷◌, [], IfOk, OnOk};
ghost use Rattle.txn_programs.specs.Tree.{statement_of};
ghost use Rattle.text_words.specs.Tokens.{tokens};
ghost use Rattle.text_grammar.specs.Reading.{expr_at, cond_at, stmt_at, set_with, put_with, seq_with};
ghost use Rattle.text_grammar.specs.Reading.{if_with, repeat_with, orelse_with, throw_with};
ghost use Rattle.text_grammar.specs.Resolving.{statement_in};
ghost use Rattle.text_resolver.specs.Scopes.{view_scope};
ghost use Rattle.text_file_reader.specs.Resolved.{Makes, MakesTwo};

use crate::conditions::condition_at_once;
use crate::expressions::{expression_at_once, last_expression_at_once};
use std::alloc::{AllocError, Global};
use text_grammar::file::FileForm;
use text_grammar::words::{Keyword, keyword_of};
use text_resolver::names::Scope;
use text_resolver::resolve::variable;
use text_resolver::tables::table;
use text_words::ReadFault;
use text_words::tokens::{close, int_of, is_open, name_of, word_of};
use txn_programs::Stmt;

/// A statement with no more than `depth` parentheses open at a time.
#[cycle(statements)]
pub(crate) fn statement_at_once<'a>(
    alloc: Global,
    file_form: FileForm,
    scope: &Scope<'_, '_>,
    depth: u32,
    bytes: &'a [u8],
) -> Result<(Stmt, &'a [u8]), ReadFault>
    ensures { IfOk result
        (λ x. Makes (stmt_at file_form depth (tokens bytes.now)) (statement_in (view_scope scope.now))
        (statement_of x.0) (tokens x.1.now)) }
{
    if depth == 0 {
        return Err(ReadFault::Shape);
    }
    let (word, rest) = word_of(bytes)?;
    match keyword_of(file_form, word)? {
        Keyword::Skip => {
            let rest = close(rest)?;
            Ok((Stmt::Skip, rest))
        }
        Keyword::Set => set_at_once(alloc, file_form, scope, depth - 1, rest),
        Keyword::Put => put_at_once(alloc, file_form, scope, depth - 1, rest),
        Keyword::Seq => seq_at_once(alloc, file_form, scope, depth - 1, rest),
        Keyword::If => if_at_once(alloc, file_form, scope, depth - 1, rest),
        Keyword::Repeat => repeat_at_once(alloc, file_form, scope, depth - 1, rest),
        Keyword::Retry => {
            let rest = close(rest)?;
            Ok((Stmt::Retry, rest))
        }
        Keyword::OrElse => orelse_at_once(alloc, file_form, scope, depth - 1, rest),
        Keyword::Throw => throw_at_once(alloc, file_form, scope, depth - 1, rest),
    }
}

fn set_at_once<'a>(
    alloc: Global,
    file_form: FileForm,
    scope: &Scope<'_, '_>,
    depth: u32,
    bytes: &'a [u8],
) -> Result<(Stmt, &'a [u8]), ReadFault>
    ensures { IfOk result
        (λ x. Makes (set_with (expr_at file_form depth) (tokens bytes.now)) (statement_in (view_scope scope.now))
        (statement_of x.0) (tokens x.1.now)) }
{
    let (name, rest) = name_of(bytes)?;
    let id = variable(scope.vars, name)?;
    let (value, rest) = last_expression_at_once(alloc, file_form, scope, depth, rest)?;
    Ok((Stmt::Set(id, value), rest))
}

fn put_at_once<'a>(
    alloc: Global,
    file_form: FileForm,
    scope: &Scope<'_, '_>,
    depth: u32,
    bytes: &'a [u8],
) -> Result<(Stmt, &'a [u8]), ReadFault>
    ensures { IfOk result
        (λ x. Makes (put_with (expr_at file_form depth) (tokens bytes.now)) (statement_in (view_scope scope.now))
        (statement_of x.0) (tokens x.1.now)) }
{
    let (name, rest) = name_of(bytes)?;
    let cells = table(scope, name)?;
    let (index, rest) = expression_at_once(alloc, file_form, scope, depth, rest)?;
    match last_expression_at_once(alloc, file_form, scope, depth, rest) {
        Ok((value, rest)) => Ok((Stmt::Put(cells, index, value), rest)),
        Err(fault) => {
            drop(index);
            Err(fault)
        }
    }
}

/// One part more. It is a call, so that what a statement is moved through takes no stack while another is read
/// within it.
#[inline(never)]
fn keep(parts: &mut Vec<Stmt>, part: Stmt) -> Result<(), AllocError>
    ensures { OnOk result (parts.new.items ≡ parts.old.items ++ part ∷ []) }
{
    parts.push(part)?;
    Ok(())
}

/// The parts of a sequence, as long as a parenthesis opens, and its end.
#[cycle(statements)]
fn seq_at_once<'a>(
    alloc: Global,
    file_form: FileForm,
    scope: &Scope<'_, '_>,
    depth: u32,
    bytes: &'a [u8],
) -> Result<(Stmt, &'a [u8]), ReadFault>
    ensures { IfOk result
        (λ x. Makes (seq_with (stmt_at file_form depth) (tokens bytes.now)) (statement_in (view_scope scope.now))
        (statement_of x.0) (tokens x.1.now)) }
{
    let mut parts = Vec::new(alloc);
    let mut rest = bytes;
    'parts: while is_open(rest) {
        let (part, after) = statement_at_once(alloc, file_form, scope, depth, rest)?;
        keep(&mut parts, part)?;
        rest = after;
    }
    let rest = close(rest)?;
    Ok((Stmt::Seq(parts), rest))
}

#[cycle(statements)]
fn if_at_once<'a>(
    alloc: Global,
    file_form: FileForm,
    scope: &Scope<'_, '_>,
    depth: u32,
    bytes: &'a [u8],
) -> Result<(Stmt, &'a [u8]), ReadFault>
    ensures { IfOk result
        (λ x. Makes (if_with (cond_at file_form depth) (stmt_at file_form depth) (tokens bytes.now))
        (statement_in (view_scope scope.now)) (statement_of x.0) (tokens x.1.now)) }
{
    let (test, rest) = condition_at_once(alloc, file_form, scope, depth, bytes)?;
    match branches_at_once(alloc, file_form, scope, depth, rest) {
        Ok((first, second, rest)) => Ok((Stmt::If(test, first, second), rest)),
        Err(fault) => {
            drop(test);
            Err(fault)
        }
    }
}

#[cycle(statements)]
fn repeat_at_once<'a>(
    alloc: Global,
    file_form: FileForm,
    scope: &Scope<'_, '_>,
    depth: u32,
    bytes: &'a [u8],
) -> Result<(Stmt, &'a [u8]), ReadFault>
    ensures { IfOk result
        (λ x. Makes (repeat_with (stmt_at file_form depth) (tokens bytes.now)) (statement_in (view_scope scope.now))
        (statement_of x.0) (tokens x.1.now)) }
{
    let (numeral, rest) = int_of(bytes)?;
    let count = numeral.count()?;
    let (body, rest) = boxed(alloc, file_form, scope, depth, rest)?;
    let rest = close(rest)?;
    Ok((Stmt::Repeat(count, body), rest))
}

#[cycle(statements)]
fn orelse_at_once<'a>(
    alloc: Global,
    file_form: FileForm,
    scope: &Scope<'_, '_>,
    depth: u32,
    bytes: &'a [u8],
) -> Result<(Stmt, &'a [u8]), ReadFault>
    ensures { IfOk result
        (λ x. Makes (orelse_with (stmt_at file_form depth) (tokens bytes.now)) (statement_in (view_scope scope.now))
        (statement_of x.0) (tokens x.1.now)) }
{
    let (first, second, rest) = branches_at_once(alloc, file_form, scope, depth, bytes)?;
    Ok((Stmt::OrElse(first, second), rest))
}

/// Two statements, and the parenthesis that closes behind them.
#[inline(always)]
#[cycle(statements)]
fn branches_at_once<'a>(
    alloc: Global,
    file_form: FileForm,
    scope: &Scope<'_, '_>,
    depth: u32,
    bytes: &'a [u8],
) -> Result<(Box<Stmt>, Box<Stmt>, &'a [u8]), ReadFault>
    ensures { IfOk result
        (λ x. MakesTwo (stmt_at file_form depth) (statement_in (view_scope scope.now)) (tokens bytes.now)
        (statement_of x.0.value) (statement_of x.1.value) (tokens x.2.now)) }
{
    let (first, rest) = boxed(alloc, file_form, scope, depth, bytes)?;
    let (second, rest) = boxed(alloc, file_form, scope, depth, rest)?;
    let rest = close(rest)?;
    Ok((first, second, rest))
}

/// A statement that stands in another.
#[inline(always)]
#[cycle(statements)]
fn boxed<'a>(
    alloc: Global,
    file_form: FileForm,
    scope: &Scope<'_, '_>,
    depth: u32,
    bytes: &'a [u8],
) -> Result<(Box<Stmt>, &'a [u8]), ReadFault>
    ensures { IfOk result
        (λ x. Makes (stmt_at file_form depth (tokens bytes.now)) (statement_in (view_scope scope.now))
        (statement_of x.0.value) (tokens x.1.now)) }
{
    let (made, rest) = statement_at_once(alloc, file_form, scope, depth, bytes)?;
    let held = Box::new(alloc, made)?;
    Ok((held, rest))
}

fn throw_at_once<'a>(
    alloc: Global,
    file_form: FileForm,
    scope: &Scope<'_, '_>,
    depth: u32,
    bytes: &'a [u8],
) -> Result<(Stmt, &'a [u8]), ReadFault>
    ensures { IfOk result
        (λ x. Makes (throw_with (expr_at file_form depth) (tokens bytes.now)) (statement_in (view_scope scope.now))
        (statement_of x.0) (tokens x.1.now)) }
{
    let (value, rest) = last_expression_at_once(alloc, file_form, scope, depth, bytes)?;
    Ok((Stmt::Throw(value), rest))
}
