//! Conditions, made as they are read.

ghost use Rattle.std.specs.Prelude.{IfOk};
ghost use Rattle.txn_programs.specs.Tree.{condition_of};
ghost use Rattle.text_words.specs.Tokens.{tokens};
ghost use Rattle.text_grammar.specs.Reading.{expr_at, cond_at, cond_with};
ghost use Rattle.text_grammar.specs.Resolving.{condition_in};
ghost use Rattle.text_grammar.specs.declared.words.Test.TheVariants.{Compares, Negates, Connects};
ghost use Rattle.text_resolver.specs.Scopes.{view_scope};
ghost use Rattle.text_file_reader.specs.Resolved.{Makes};

use crate::expressions::{expression_at_once, last_expression_at_once};
use std::alloc::Global;
use text_grammar::file::FileForm;
use text_grammar::words::{Comparison, Connective, Test, test_of};
use text_resolver::names::Scope;
use text_resolver::resolve::{compare, connect};
use text_words::ReadFault;
use text_words::tokens::{close, word_of};
use txn_programs::Cond;

/// A condition with no more than `depth` parentheses open at a time.
#[cycle(conditions)]
pub(crate) fn condition_at_once<'a>(
    alloc: Global,
    file_form: FileForm,
    scope: &Scope<'_, '_>,
    depth: u32,
    bytes: &'a [u8],
) -> Result<(Cond, &'a [u8]), ReadFault>
    ensures { IfOk result
        (λ x. Makes (cond_at file_form depth (tokens bytes.now)) (condition_in (view_scope scope.now))
        (condition_of x.0) (tokens x.1.now)) }
{
    if depth == 0 {
        return Err(ReadFault::Shape);
    }
    let (word, rest) = word_of(bytes)?;
    let test = test_of(word)?;
    match test {
        Test::Compares(comparison) => {
            comparison_at_once(alloc, file_form, scope, depth - 1, comparison, rest)
        }
        Test::Negates => negation_at_once(alloc, file_form, scope, depth - 1, rest),
        Test::Connects(connective) => {
            connection_at_once(alloc, file_form, scope, depth - 1, connective, rest)
        }
    }
}

fn comparison_at_once<'a>(
    alloc: Global,
    file_form: FileForm,
    scope: &Scope<'_, '_>,
    depth: u32,
    comparison: Comparison,
    bytes: &'a [u8],
) -> Result<(Cond, &'a [u8]), ReadFault>
    ensures { IfOk result
        (λ x. Makes
        (cond_with (expr_at file_form depth) (cond_at file_form depth) (Compares comparison) (tokens bytes.now))
        (condition_in (view_scope scope.now)) (condition_of x.0) (tokens x.1.now)) }
{
    let (left, rest) = expression_at_once(alloc, file_form, scope, depth, bytes)?;
    match last_expression_at_once(alloc, file_form, scope, depth, rest) {
        Ok((right, rest)) => Ok((compare(comparison, left, right), rest)),
        Err(fault) => {
            drop(left);
            Err(fault)
        }
    }
}

#[cycle(conditions)]
fn negation_at_once<'a>(
    alloc: Global,
    file_form: FileForm,
    scope: &Scope<'_, '_>,
    depth: u32,
    bytes: &'a [u8],
) -> Result<(Cond, &'a [u8]), ReadFault>
    ensures { IfOk result
        (λ x. Makes (cond_with (expr_at file_form depth) (cond_at file_form depth) Negates (tokens bytes.now))
        (condition_in (view_scope scope.now)) (condition_of x.0) (tokens x.1.now)) }
{
    let (inner, rest) = boxed(alloc, file_form, scope, depth, bytes)?;
    let rest = close(rest)?;
    Ok((Cond::Not(inner), rest))
}

#[cycle(conditions)]
fn connection_at_once<'a>(
    alloc: Global,
    file_form: FileForm,
    scope: &Scope<'_, '_>,
    depth: u32,
    connective: Connective,
    bytes: &'a [u8],
) -> Result<(Cond, &'a [u8]), ReadFault>
    ensures { IfOk result
        (λ x. Makes
        (cond_with (expr_at file_form depth) (cond_at file_form depth) (Connects connective) (tokens bytes.now))
        (condition_in (view_scope scope.now)) (condition_of x.0) (tokens x.1.now)) }
{
    let (left, rest) = boxed(alloc, file_form, scope, depth, bytes)?;
    let (right, rest) = boxed(alloc, file_form, scope, depth, rest)?;
    let rest = close(rest)?;
    Ok((connect(connective, left, right), rest))
}

/// A condition that stands in another.
#[inline(always)]
#[cycle(conditions)]
fn boxed<'a>(
    alloc: Global,
    file_form: FileForm,
    scope: &Scope<'_, '_>,
    depth: u32,
    bytes: &'a [u8],
) -> Result<(Box<Cond>, &'a [u8]), ReadFault>
    ensures { IfOk result
        (λ x. Makes (cond_at file_form depth (tokens bytes.now)) (condition_in (view_scope scope.now))
        (condition_of x.0.value) (tokens x.1.now)) }
{
    let (made, rest) = condition_at_once(alloc, file_form, scope, depth, bytes)?;
    let held = Box::new(alloc, made)?;
    Ok((held, rest))
}
