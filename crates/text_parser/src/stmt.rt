//! Statements as the file has them.

ghost use Rattle.std.specs.Prelude.{◌≡◌, ◌<◌, ◌≤◌, ◌++◌, ◌∷◌, [], List, Ok, IfOk, OnOk, length};
ghost use Rattle.text_words.specs.Tokens.{Lexeme, tokens};
ghost use Rattle.text_words.specs.Answers.{Gives, ◌>>=◌ as ◌>>=ᴿ◌};
ghost use Rattle.text_words.specs.TokenReading.{close_at};
ghost use Rattle.text_grammar.specs.Tree.{Stmt, If};
ghost use Rattle.text_grammar.specs.Reading.{expr_at, cond_at, stmt_at, set_with, put_with, seq_with, if_with};
ghost use Rattle.text_grammar.specs.Reading.{repeat_with, orelse_with, throw_with};
ghost use Rattle.text_grammar.specs.View.{view_cond, view_stmt};

use crate::cond::cond_of;
use crate::expr::expr_of;
use std::alloc::{AllocError, Global};
use text_grammar::cond::RawCond;
use text_grammar::file::FileForm;
use text_grammar::stmt::RawStmt;
use text_grammar::words::{Keyword, keyword_of};
use text_words::ReadFault;
use text_words::tokens::{close, int_of, is_open, name_of, word_of};

/// A statement of a file of this form, with no more than `depth` parentheses open at a time.
#[cycle(stmts)]
#[tactic(auto, unfolding(text_grammar::specs::Reading::stmt_at))]
pub(crate) fn stmt_of(
    alloc: Global,
    file_form: FileForm,
    depth: u32,
    bytes: &[u8],
) -> Result<(RawStmt<'_>, &[u8]), ReadFault>
    ensures value { Gives (λ x. (view_stmt x.0, tokens x.1.now)) result (stmt_at file_form depth (tokens bytes.now)) }
    ensures shorter { IfOk result (λ x. length x.1.now < length bytes.now) }
{
    if depth == 0 {
        return Err(ReadFault::Shape);
    }
    let (word, rest) = word_of(bytes)?;
    match keyword_of(file_form, word)? {
        Keyword::Skip => {
            let rest = close(rest)?;
            Ok((RawStmt::Skip, rest))
        }
        Keyword::Set => set_of(alloc, file_form, depth - 1, rest),
        Keyword::Put => put_of(alloc, file_form, depth - 1, rest),
        Keyword::Seq => seq_of(alloc, file_form, depth - 1, rest),
        Keyword::If => if_of(alloc, file_form, depth - 1, rest),
        Keyword::Repeat => repeat_of(alloc, file_form, depth - 1, rest),
        Keyword::Retry => {
            let rest = close(rest)?;
            Ok((RawStmt::Retry, rest))
        }
        Keyword::OrElse => orelse_of(alloc, file_form, depth - 1, rest),
        Keyword::Throw => throw_of(alloc, file_form, depth - 1, rest),
    }
}

#[tactic(auto, unfolding(text_grammar::specs::Reading::set_with))]
fn set_of(
    alloc: Global,
    file_form: FileForm,
    depth: u32,
    bytes: &[u8],
) -> Result<(RawStmt<'_>, &[u8]), ReadFault>
    ensures value { Gives (λ x. (view_stmt x.0, tokens x.1.now)) result
        (set_with (expr_at file_form depth) (tokens bytes.now)) }
    ensures shorter { IfOk result (λ x. length x.1.now < length bytes.now) }
{
    let (name, rest) = name_of(bytes)?;
    let (value, rest) = expr_of(alloc, file_form, depth, rest)?;
    let rest = close(rest)?;
    Ok((RawStmt::Set(name, value), rest))
}

#[tactic(auto, unfolding(text_grammar::specs::Reading::put_with))]
fn put_of(
    alloc: Global,
    file_form: FileForm,
    depth: u32,
    bytes: &[u8],
) -> Result<(RawStmt<'_>, &[u8]), ReadFault>
    ensures value { Gives (λ x. (view_stmt x.0, tokens x.1.now)) result
        (put_with (expr_at file_form depth) (tokens bytes.now)) }
    ensures shorter { IfOk result (λ x. length x.1.now < length bytes.now) }
{
    let (table, rest) = name_of(bytes)?;
    let (index, rest) = expr_of(alloc, file_form, depth, rest)?;
    let (value, rest) = expr_of(alloc, file_form, depth, rest)?;
    let rest = close(rest)?;
    Ok((RawStmt::Put(table, index, value), rest))
}

/// One part more. It is a call, so that what a statement is moved through takes no stack while another is read
/// within it.
#[inline(never)]
fn keep<'a>(parts: &mut Vec<RawStmt<'a>>, part: RawStmt<'a>) -> Result<(), AllocError>
    ensures { OnOk result (parts.new.items ≡ parts.old.items ++ part.entry ∷ []) }
{
    parts.push(part)?;
    Ok(())
}

/// The parts of a sequence, as long as a parenthesis opens, and its end.
#[cycle(stmts)]
fn seq_of(
    alloc: Global,
    file_form: FileForm,
    depth: u32,
    bytes: &[u8],
) -> Result<(RawStmt<'_>, &[u8]), ReadFault>
    ensures value { Gives (λ x. (view_stmt x.0, tokens x.1.now)) result
        (seq_with (stmt_at file_form depth) (tokens bytes.now)) }
    ensures shorter { IfOk result (λ x. length x.1.now < length bytes.now) }
{
    let mut parts = Vec::new(alloc);
    let mut rest = bytes;
    'parts: while is_open(rest) {
        let (part, after) = stmt_of(alloc, file_form, depth, rest)?;
        keep(&mut parts, part)?;
        rest = after;
    }
    let rest = close(rest)?;
    Ok((RawStmt::Seq(parts), rest))
}

#[cycle(stmts)]
#[tactic(auto, unfolding(text_grammar::specs::Reading::if_with))]
fn if_of(
    alloc: Global,
    file_form: FileForm,
    depth: u32,
    bytes: &[u8],
) -> Result<(RawStmt<'_>, &[u8]), ReadFault>
    ensures value { Gives (λ x. (view_stmt x.0, tokens x.1.now)) result
        (if_with (cond_at file_form depth) (stmt_at file_form depth) (tokens bytes.now)) }
    ensures shorter { IfOk result (λ x. length x.1.now < length bytes.now) }
{
    let (test, rest) = cond_of(alloc, file_form, depth, bytes)?;
    match boxed(alloc, file_form, depth, rest) {
        Ok((first, rest)) => choice_of(alloc, file_form, depth, test, first, rest),
        Err(fault) => {
            drop(test);
            Err(fault)
        }
    }
}

/// A choice behind its first branch.
#[cycle(stmts)]
fn choice_of<'a>(
    alloc: Global,
    file_form: FileForm,
    depth: u32,
    test: RawCond<'a>,
    first: Box<RawStmt<'a>>,
    bytes: &'a [u8],
) -> Result<(RawStmt<'a>, &'a [u8]), ReadFault>
    ensures value { Gives {Y = Stmt × List Lexeme} (λ x. (view_stmt x.0, tokens x.1.now)) result
        (stmt_at file_form depth (tokens bytes.now) >>=ᴿ λ second. close_at second.1
        >>=ᴿ λ rest. Ok (If (view_cond test.entry) (view_stmt first.entry.value) second.0, rest)) }
    ensures shorter { IfOk result (λ x. length x.1.now < length bytes.now) }
{
    match boxed(alloc, file_form, depth, bytes) {
        Ok((second, rest)) => match close(rest) {
            Ok(rest) => Ok((RawStmt::If(test, first, second), rest)),
            Err(fault) => {
                drop(test);
                Err(fault)
            }
        },
        Err(fault) => {
            drop(test);
            Err(fault)
        }
    }
}

#[cycle(stmts)]
#[tactic(auto, unfolding(text_grammar::specs::Reading::repeat_with))]
fn repeat_of(
    alloc: Global,
    file_form: FileForm,
    depth: u32,
    bytes: &[u8],
) -> Result<(RawStmt<'_>, &[u8]), ReadFault>
    ensures value { Gives (λ x. (view_stmt x.0, tokens x.1.now)) result
        (repeat_with (stmt_at file_form depth) (tokens bytes.now)) }
    ensures shorter { IfOk result (λ x. length x.1.now < length bytes.now) }
{
    let (count, rest) = int_of(bytes)?;
    let (body, rest) = boxed(alloc, file_form, depth, rest)?;
    let rest = close(rest)?;
    Ok((RawStmt::Repeat(count, body), rest))
}

#[cycle(stmts)]
#[tactic(auto, unfolding(text_grammar::specs::Reading::orelse_with))]
fn orelse_of(
    alloc: Global,
    file_form: FileForm,
    depth: u32,
    bytes: &[u8],
) -> Result<(RawStmt<'_>, &[u8]), ReadFault>
    ensures value { Gives (λ x. (view_stmt x.0, tokens x.1.now)) result
        (orelse_with (stmt_at file_form depth) (tokens bytes.now)) }
    ensures shorter { IfOk result (λ x. length x.1.now < length bytes.now) }
{
    let (first, rest) = boxed(alloc, file_form, depth, bytes)?;
    let (second, rest) = boxed(alloc, file_form, depth, rest)?;
    let rest = close(rest)?;
    Ok((RawStmt::OrElse(first, second), rest))
}

/// A statement that stands in another.
#[cycle(stmts)]
fn boxed(
    alloc: Global,
    file_form: FileForm,
    depth: u32,
    bytes: &[u8],
) -> Result<(Box<RawStmt<'_>>, &[u8]), ReadFault>
    ensures value { Gives (λ x. (view_stmt x.0.value, tokens x.1.now)) result
        (stmt_at file_form depth (tokens bytes.now)) }
    ensures shorter { IfOk result (λ x. length x.1.now < length bytes.now) }
{
    let (made, rest) = stmt_of(alloc, file_form, depth, bytes)?;
    let held = Box::new(alloc, made)?;
    Ok((held, rest))
}

#[tactic(auto, unfolding(text_grammar::specs::Reading::throw_with))]
fn throw_of(
    alloc: Global,
    file_form: FileForm,
    depth: u32,
    bytes: &[u8],
) -> Result<(RawStmt<'_>, &[u8]), ReadFault>
    ensures value { Gives (λ x. (view_stmt x.0, tokens x.1.now)) result
        (throw_with (expr_at file_form depth) (tokens bytes.now)) }
    ensures shorter { IfOk result (λ x. length x.1.now < length bytes.now) }
{
    let (value, rest) = expr_of(alloc, file_form, depth, bytes)?;
    match close(rest) {
        Ok(rest) => Ok((RawStmt::Throw(value), rest)),
        Err(fault) => {
            drop(value);
            Err(fault)
        }
    }
}
