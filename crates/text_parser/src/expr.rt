//! Expressions as the file has them.

ghost use Rattle.std.specs.Prelude.{◌≡◌, ◌<◌, IfOk, length};
ghost use Rattle.text_words.specs.Tokens.{tokens};
ghost use Rattle.text_words.specs.Answers.{Gives};
ghost use Rattle.text_grammar.specs.Reading.{expr_at, binary_with, at_with, all_with, compound_with};
ghost use Rattle.text_grammar.specs.View.{view_expr};

use std::alloc::Global;
use text_grammar::expr::RawExpr;
use text_grammar::file::FileForm;
use text_grammar::words::{Head, Operator, head_of};
use text_words::ReadFault;
use text_words::lexer::Token;
use text_words::tokens::{close, name_of, token_of};
use txn_programs::Fold;

/// An expression of a file of this form, with no more than `depth` parentheses open at a time.
#[cycle(exprs)]
#[tactic(auto, unfolding(text_grammar::specs::Reading::expr_at))]
pub(crate) fn expr_of(
    alloc: Global,
    file_form: FileForm,
    depth: u32,
    bytes: &[u8],
) -> Result<(RawExpr<'_>, &[u8]), ReadFault>
    ensures value { Gives (λ x. (view_expr x.0, tokens x.1.now)) result (expr_at file_form depth (tokens bytes.now)) }
    ensures shorter { IfOk result (λ x. length x.1.now < length bytes.now) }
{
    let (token, rest) = token_of(bytes)?;
    match token {
        Token::Int(numeral) => Ok((RawExpr::Int(numeral), rest)),
        Token::Name(name) => Ok((RawExpr::Name(name), rest)),
        Token::Open => {
            if depth == 0 {
                return Err(ReadFault::Shape);
            }
            compound_of(alloc, file_form, depth - 1, rest)
        }
        Token::Close | Token::Other => Err(ReadFault::Shape),
    }
}

/// An expression behind its parenthesis.
#[cycle(exprs)]
#[tactic(auto, unfolding(text_grammar::specs::Reading::compound_with))]
fn compound_of(
    alloc: Global,
    file_form: FileForm,
    depth: u32,
    bytes: &[u8],
) -> Result<(RawExpr<'_>, &[u8]), ReadFault>
    ensures value { Gives (λ x. (view_expr x.0, tokens x.1.now)) result
        (compound_with file_form (expr_at file_form depth) (tokens bytes.now)) }
    ensures shorter { IfOk result (λ x. length x.1.now < length bytes.now) }
{
    let (word, rest) = name_of(bytes)?;
    match head_of(file_form, word)? {
        Head::Operates(operator) => binary_of(alloc, file_form, depth, operator, rest),
        Head::Picks => cell_of(alloc, file_form, depth, rest),
        Head::Folds(fold) => cells_of(fold, rest),
    }
}

/// An operation behind its word.
#[cycle(exprs)]
#[tactic(auto, unfolding(text_grammar::specs::Reading::binary_with))]
fn binary_of(
    alloc: Global,
    file_form: FileForm,
    depth: u32,
    operator: Operator,
    bytes: &[u8],
) -> Result<(RawExpr<'_>, &[u8]), ReadFault>
    ensures value { Gives (λ x. (view_expr x.0, tokens x.1.now)) result
        (binary_with (expr_at file_form depth) operator (tokens bytes.now)) }
    ensures shorter { IfOk result (λ x. length x.1.now < length bytes.now) }
{
    let (left, rest) = boxed(alloc, file_form, depth, bytes)?;
    let (right, rest) = boxed(alloc, file_form, depth, rest)?;
    let rest = close(rest)?;
    Ok((RawExpr::Binary(operator, left, right), rest))
}

/// A cell of a table behind its word.
#[cycle(exprs)]
#[tactic(auto, unfolding(text_grammar::specs::Reading::at_with))]
fn cell_of(
    alloc: Global,
    file_form: FileForm,
    depth: u32,
    bytes: &[u8],
) -> Result<(RawExpr<'_>, &[u8]), ReadFault>
    ensures value { Gives (λ x. (view_expr x.0, tokens x.1.now)) result
        (at_with (expr_at file_form depth) (tokens bytes.now)) }
    ensures shorter { IfOk result (λ x. length x.1.now < length bytes.now) }
{
    let (table, rest) = name_of(bytes)?;
    let (index, rest) = boxed(alloc, file_form, depth, rest)?;
    let rest = close(rest)?;
    Ok((RawExpr::At(table, index), rest))
}

/// All cells of a table behind their word.
#[tactic(auto, unfolding(text_grammar::specs::Reading::all_with))]
fn cells_of(fold: Fold, bytes: &[u8]) -> Result<(RawExpr<'_>, &[u8]), ReadFault>
    ensures value { Gives (λ x. (view_expr x.0, tokens x.1.now)) result (all_with fold (tokens bytes.now)) }
    ensures shorter { IfOk result (λ x. length x.1.now < length bytes.now) }
{
    let (table, rest) = name_of(bytes)?;
    let rest = close(rest)?;
    Ok((RawExpr::OfAll(fold, table), rest))
}

/// An expression that stands in another.
#[cycle(exprs)]
fn boxed(
    alloc: Global,
    file_form: FileForm,
    depth: u32,
    bytes: &[u8],
) -> Result<(Box<RawExpr<'_>>, &[u8]), ReadFault>
    ensures value { Gives (λ x. (view_expr x.0.value, tokens x.1.now)) result
        (expr_at file_form depth (tokens bytes.now)) }
    ensures shorter { IfOk result (λ x. length x.1.now < length bytes.now) }
{
    let (made, rest) = expr_of(alloc, file_form, depth, bytes)?;
    let held = Box::new(alloc, made)?;
    Ok((held, rest))
}
