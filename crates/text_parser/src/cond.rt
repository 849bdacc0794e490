//! Conditions as the file has them.

ghost use Rattle.std.specs.Prelude.{◌≡◌, ◌<◌, IfOk, length};
ghost use Rattle.text_words.specs.Tokens.{tokens};
ghost use Rattle.text_words.specs.Answers.{Gives};
ghost use Rattle.text_grammar.specs.Reading.{expr_at, cond_at, cond_with};
ghost use Rattle.text_grammar.specs.declared.words.Test.TheVariants.{Compares, Negates, Connects};
ghost use Rattle.text_grammar.specs.View.{view_cond};

use crate::expr::expr_of;
use std::alloc::Global;
use text_grammar::cond::RawCond;
use text_grammar::file::FileForm;
use text_grammar::words::{Comparison, Connective, Test, test_of};
use text_words::ReadFault;
use text_words::tokens::{close, word_of};

/// A condition of a file of this form, with no more than `depth` parentheses open at a time.
#[cycle(conds)]
#[tactic(auto, unfolding(text_grammar::specs::Reading::cond_at))]
pub(crate) fn cond_of(
    alloc: Global,
    file_form: FileForm,
    depth: u32,
    bytes: &[u8],
) -> Result<(RawCond<'_>, &[u8]), ReadFault>
    ensures value { Gives (λ x. (view_cond x.0, tokens x.1.now)) result
        (cond_at file_form depth (tokens bytes.now)) }
    ensures shorter { IfOk result (λ x. length x.1.now < length bytes.now) }
{
    if depth == 0 {
        return Err(ReadFault::Shape);
    }
    let (word, rest) = word_of(bytes)?;
    let test = test_of(word)?;
    match test {
        Test::Compares(comparison) => comparison_of(alloc, file_form, depth - 1, comparison, rest),
        Test::Negates => negation_of(alloc, file_form, depth - 1, rest),
        Test::Connects(connective) => connection_of(alloc, file_form, depth - 1, connective, rest),
    }
}

fn comparison_of(
    alloc: Global,
    file_form: FileForm,
    depth: u32,
    comparison: Comparison,
    bytes: &[u8],
) -> Result<(RawCond<'_>, &[u8]), ReadFault>
    ensures value { Gives (λ x. (view_cond x.0, tokens x.1.now)) result
        (cond_with (expr_at file_form depth) (cond_at file_form depth) (Compares comparison) (tokens bytes.now)) }
    ensures shorter { IfOk result (λ x. length x.1.now < length bytes.now) }
{
    let (left, rest) = expr_of(alloc, file_form, depth, bytes)?;
    let (right, rest) = expr_of(alloc, file_form, depth, rest)?;
    let rest = close(rest)?;
    Ok((RawCond::Compare(comparison, left, right), rest))
}

#[cycle(conds)]
fn negation_of(
    alloc: Global,
    file_form: FileForm,
    depth: u32,
    bytes: &[u8],
) -> Result<(RawCond<'_>, &[u8]), ReadFault>
    ensures value { Gives (λ x. (view_cond x.0, tokens x.1.now)) result
        (cond_with (expr_at file_form depth) (cond_at file_form depth) Negates (tokens bytes.now)) }
    ensures shorter { IfOk result (λ x. length x.1.now < length bytes.now) }
{
    let (inner, rest) = boxed(alloc, file_form, depth, bytes)?;
    let rest = close(rest)?;
    Ok((RawCond::Not(inner), rest))
}

#[cycle(conds)]
fn connection_of(
    alloc: Global,
    file_form: FileForm,
    depth: u32,
    connective: Connective,
    bytes: &[u8],
) -> Result<(RawCond<'_>, &[u8]), ReadFault>
    ensures value { Gives (λ x. (view_cond x.0, tokens x.1.now)) result
        (cond_with (expr_at file_form depth) (cond_at file_form depth) (Connects connective) (tokens bytes.now)) }
    ensures shorter { IfOk result (λ x. length x.1.now < length bytes.now) }
{
    let (left, rest) = boxed(alloc, file_form, depth, bytes)?;
    let (right, rest) = boxed(alloc, file_form, depth, rest)?;
    let rest = close(rest)?;
    Ok((RawCond::Connect(connective, left, right), rest))
}

/// A condition that stands in another.
#[cycle(conds)]
fn boxed(
    alloc: Global,
    file_form: FileForm,
    depth: u32,
    bytes: &[u8],
) -> Result<(Box<RawCond<'_>>, &[u8]), ReadFault>
    ensures value { Gives (λ x. (view_cond x.0.value, tokens x.1.now)) result
        (cond_at file_form depth (tokens bytes.now)) }
    ensures shorter { IfOk result (λ x. length x.1.now < length bytes.now) }
{
    let (made, rest) = cond_of(alloc, file_form, depth, bytes)?;
    let held = Box::new(alloc, made)?;
    Ok((held, rest))
}
