//! One token of a file read from left to right, with what is wanted behind it on a stack.

ghost use Rattle.std.specs.Prelude.{◌≡◌, ◌++◌, true, IfOk};
ghost use Rattle.std.specs.Result.{result_ok};
ghost use Rattle.text_words.specs.Bytes.{int_value};
ghost use Rattle.text_words.specs.TokenView.{view};
ghost use Rattle.text_grammar.specs.Reading.{head_of, test_of, keyword_of, form_numbered};
ghost use Rattle.explain_files.specs.Forms.{Puts, kind_of, form_in, tables_in, conditions_in, part_behind, within};
ghost use Rattle.explain_files.specs.Forms.{behind_head, behind_test, behind_keyword, behind_part, behind_kind};
ghost use Rattle.explain_files.specs.Forms.{behind_stm, behind_declared, behind_form, behind_word, behind_int};
ghost use Rattle.explain_files.specs.Forms.{behind_open, behind_close, behind};

use crate::keywords::{head_of, keyword_of, kind_of, test_of};
use crate::wanted::{Kind, NameUse, NumberUse, Section, Wanted};
use std::alloc::AllocError;
use text_grammar::file::FileForm;
use text_grammar::words::{Head, Keyword, Test};
use text_words::lexer::Token;
use text_words::numeral::Numeral;

/// Puts what is wanted on the stack, the next of it last.
fn want(stack: &mut Vec<Wanted>, more: &[Wanted]) -> Result<bool, AllocError>
    ensures { IfOk result (λ went. (went ≡ true) × (stack.new.items ≡ stack.old.items ++ more.now)) }
{
    stack.extend_from_slice(more)?;
    Ok(true)
}

fn behind_head(
    stack: &mut Vec<Wanted>,
    form: FileForm,
    depth: u32,
    word: &str,
) -> Result<bool, AllocError>
    ensures { IfOk result
        (λ went. Puts went stack.old.items stack.new.items
        (behind_head form depth (result_ok (head_of form word.now)))) }
{
    let Some(head) = head_of(form, word) else {
        return Ok(false);
    };
    let (close, expr) = (Wanted::Close, Wanted::Expr(form, depth));
    let table = Wanted::Name(NameUse::Cells);
    match head {
        Head::Operates(_) => want(stack, &[close, expr, expr]),
        Head::Picks => want(stack, &[close, expr, table]),
        Head::Folds(_) => want(stack, &[close, table]),
    }
}

fn behind_test(
    stack: &mut Vec<Wanted>,
    form: FileForm,
    depth: u32,
    word: &str,
) -> Result<bool, AllocError>
    ensures { IfOk result
        (λ went. Puts went stack.old.items stack.new.items (behind_test form depth (result_ok (test_of word.now)))) }
{
    let expr = Wanted::Expr(form, depth);
    let cond = Wanted::Cond(form, depth.saturating_sub(1));
    match test_of(word) {
        Some(Test::Compares(_)) => want(stack, &[Wanted::Close, expr, expr]),
        Some(Test::Negates) if depth > 0 => want(stack, &[Wanted::Close, cond]),
        Some(Test::Connects(_)) if depth > 0 => want(stack, &[Wanted::Close, cond, cond]),
        _ => Ok(false),
    }
}

fn behind_keyword(
    stack: &mut Vec<Wanted>,
    form: FileForm,
    depth: u32,
    word: &str,
) -> Result<bool, AllocError>
    ensures { IfOk result
        (λ went. Puts went stack.old.items stack.new.items
        (behind_keyword form depth (result_ok (keyword_of form word.now)))) }
{
    let Some(keyword) = keyword_of(form, word) else {
        return Ok(false);
    };
    let (expr, inner) = (Wanted::Expr(form, depth), depth.saturating_sub(1));
    let (cond, stmt) = (Wanted::Cond(form, inner), Wanted::Stmt(form, inner));
    let table = Wanted::Name(NameUse::Cells);
    match keyword {
        Keyword::Skip | Keyword::Retry => want(stack, &[Wanted::Close]),
        Keyword::Set => want(stack, &[Wanted::Close, expr, Wanted::Name(NameUse::Target)]),
        Keyword::Put => want(stack, &[Wanted::Close, expr, expr, table]),
        Keyword::Seq => want(stack, &[Wanted::Parts(form, depth)]),
        Keyword::Throw => want(stack, &[Wanted::Close, expr]),
        Keyword::If if depth > 0 => want(stack, &[Wanted::Close, stmt, stmt, cond]),
        Keyword::Repeat if depth > 0 => want(
            stack,
            &[Wanted::Close, stmt, Wanted::Number(NumberUse::Turns)],
        ),
        Keyword::OrElse if depth > 0 => want(stack, &[Wanted::Close, stmt, stmt]),
        Keyword::If | Keyword::Repeat | Keyword::OrElse => Ok(false),
    }
}

/// The form of the file, as far as it is known in this part.
fn form_in(part: Section) -> FileForm
    ensures { result ≡ form_in part }
{
    match part {
        Section::Start => FileForm::One,
        Section::Variables(form)
        | Section::Conditions(form)
        | Section::Transactions(form)
        | Section::Runs(form) => form,
        Section::Tables => FileForm::Three,
    }
}

/// Where tables stand behind variables.
fn tables_in(form: FileForm) -> Option<Section>
    ensures { result ≡ tables_in form }
{
    match form {
        FileForm::One | FileForm::Two => None,
        FileForm::Three => Some(Section::Tables),
    }
}

/// Where conditions stand behind variables.
fn conditions_in(form: FileForm) -> Option<Section>
    ensures { result ≡ conditions_in form }
{
    match form {
        FileForm::One => None,
        FileForm::Two | FileForm::Three => Some(Section::Conditions(form)),
    }
}

/// The part of the file behind a declaration of this kind, where it may stand.
fn part_behind(part: Section, kind: Kind) -> Option<Section>
    ensures { result ≡ part_behind part kind }
{
    match (part, kind) {
        (Section::Start, Kind::Variable) => Some(Section::Variables(FileForm::One)),
        (Section::Variables(_), Kind::Variable) => Some(part),
        (Section::Variables(form), Kind::Table) => tables_in(form),
        (Section::Variables(form), Kind::Condition) => conditions_in(form),
        (Section::Tables, Kind::Table) => Some(part),
        (Section::Tables, Kind::Condition) => Some(Section::Conditions(FileForm::Three)),
        (Section::Conditions(_), Kind::Condition) => Some(part),
        (Section::Runs(_), Kind::Transaction) => None,
        (_, Kind::Transaction) => Some(Section::Transactions(form_in(part))),
        (_, Kind::Run) => Some(Section::Runs(form_in(part))),
        _ => None,
    }
}

fn within_tx(stack: &mut Vec<Wanted>, part: Section) -> Result<bool, AllocError>
    ensures { IfOk result
        (λ went. (went ≡ true) × (stack.new.items ≡ stack.old.items ++ within part Kind.Transaction)) }
{
    let form = form_in(part);
    let (rest, close) = (Wanted::Declarations(part), Wanted::Close);
    let (value, body) = (Wanted::Expr(form, 31), Wanted::Stmt(form, 30));
    let name = Wanted::Name(NameUse::Transaction);
    match form {
        FileForm::One | FileForm::Two => want(stack, &[rest, close, value, body, name]),
        FileForm::Three => want(stack, &[rest, close, value, body, Wanted::List, name]),
    }
}

fn within_run(stack: &mut Vec<Wanted>, part: Section) -> Result<bool, AllocError>
    ensures { IfOk result (λ went. (went ≡ true) × (stack.new.items ≡ stack.old.items ++ within part Kind.Run)) }
{
    let rest = Wanted::Declarations(part);
    let (tasks, name) = (
        Wanted::Number(NumberUse::Tasks),
        Wanted::Name(NameUse::Called),
    );
    match form_in(part) {
        FileForm::One | FileForm::Two => want(stack, &[rest, Wanted::Close, tasks, name]),
        FileForm::Three => {
            let arguments = Wanted::Numbers(NumberUse::Argument);
            want(stack, &[rest, arguments, tasks, name])
        }
    }
}

fn within_table(stack: &mut Vec<Wanted>, part: Section) -> Result<bool, AllocError>
    ensures { IfOk result (λ went. (went ≡ true) × (stack.new.items ≡ stack.old.items ++ within part Kind.Table)) }
{
    let rest = Wanted::Declarations(part);
    let (first, others) = (
        Wanted::Number(NumberUse::Cell),
        Wanted::Numbers(NumberUse::Cell),
    );
    let (length, name) = (
        Wanted::Number(NumberUse::Length),
        Wanted::Name(NameUse::Table),
    );
    want(stack, &[rest, others, first, length, name])
}

fn behind_kind(stack: &mut Vec<Wanted>, part: Section, word: &str) -> Result<bool, AllocError>
    ensures { IfOk result (λ went. Puts went stack.old.items stack.new.items (behind_kind part (kind_of word.now))) }
{
    let Some(kind) = kind_of(word) else {
        return Ok(false);
    };
    let Some(next) = part_behind(part, kind) else {
        return Ok(false);
    };
    let (rest, close) = (Wanted::Declarations(next), Wanted::Close);
    match kind {
        Kind::Variable => {
            let (name, value) = (NameUse::Variable, NumberUse::Initial);
            want(
                stack,
                &[rest, close, Wanted::Number(value), Wanted::Name(name)],
            )
        }
        Kind::Table => within_table(stack, next),
        Kind::Condition => {
            let name = Wanted::Name(NameUse::Condition);
            let condition = Wanted::Cond(form_in(next), 30);
            want(stack, &[rest, close, condition, name])
        }
        Kind::Transaction => within_tx(stack, next),
        Kind::Run => within_run(stack, next),
    }
}

fn behind_stm(stack: &mut Vec<Wanted>, part: Section) -> Result<bool, AllocError>
    ensures { IfOk result (λ went. Puts went stack.old.items stack.new.items (behind_stm part)) }
{
    match part {
        Section::Start => want(stack, &[Wanted::FormNumber]),
        _ => Ok(false),
    }
}

fn behind_declared(stack: &mut Vec<Wanted>, part: Section, word: &str) -> Result<bool, AllocError>
    ensures { IfOk result (λ went. Puts went stack.old.items stack.new.items (behind_declared part word.now)) }
{
    if word == "stm" {
        behind_stm(stack, part)
    } else {
        behind_kind(stack, part, word)
    }
}

fn behind_word(stack: &mut Vec<Wanted>, wanted: Wanted, word: &str) -> Result<bool, AllocError>
    ensures { IfOk result (λ went. Puts went stack.old.items stack.new.items (behind_word wanted word.now)) }
{
    match wanted {
        Wanted::Word(part) => behind_declared(stack, part, word),
        Wanted::Head(form, depth) => behind_head(stack, form, depth, word),
        Wanted::Test(form, depth) => behind_test(stack, form, depth, word),
        Wanted::Keyword(form, depth) => behind_keyword(stack, form, depth, word),
        Wanted::Name(_) | Wanted::Expr(..) => Ok(true),
        Wanted::Parameters => want(stack, &[Wanted::Parameters]),
        _ => Ok(false),
    }
}

/// The form of this number, where it is one that is announced.
fn form_numbered(number: Numeral<'_>) -> Option<FileForm>
    ensures { result ≡ result_ok (form_numbered (int_value number.entry.text.now)) }
{
    match number.text.parse::<i64>() {
        Ok(2) => Some(FileForm::Two),
        Ok(3) => Some(FileForm::Three),
        _ => None,
    }
}

fn behind_form(stack: &mut Vec<Wanted>, number: Numeral<'_>) -> Result<bool, AllocError>
    ensures { IfOk result
        (λ went. Puts went stack.old.items stack.new.items
        (behind_form (result_ok (form_numbered (int_value number.entry.text.now))))) }
{
    match form_numbered(number) {
        Some(form) => {
            let rest = Wanted::Declarations(Section::Variables(form));
            want(stack, &[rest, Wanted::Close])
        }
        None => Ok(false),
    }
}

fn behind_int(
    stack: &mut Vec<Wanted>,
    wanted: Wanted,
    number: Numeral<'_>,
) -> Result<bool, AllocError>
    ensures { IfOk result
        (λ went. Puts went stack.old.items stack.new.items (behind_int wanted (int_value number.entry.text.now))) }
{
    match wanted {
        Wanted::FormNumber => behind_form(stack, number),
        Wanted::Number(_) | Wanted::Expr(..) => Ok(true),
        Wanted::Numbers(_) => want(stack, &[wanted]),
        _ => Ok(false),
    }
}

fn behind_open(stack: &mut Vec<Wanted>, wanted: Wanted) -> Result<bool, AllocError>
    ensures { IfOk result (λ went. Puts went stack.old.items stack.new.items (behind_open wanted)) }
{
    match wanted {
        Wanted::Declarations(part) => want(stack, &[Wanted::Word(part)]),
        Wanted::Expr(form, depth) if depth > 0 => want(stack, &[Wanted::Head(form, depth - 1)]),
        Wanted::Cond(form, depth) => want(stack, &[Wanted::Test(form, depth)]),
        Wanted::Stmt(form, depth) => want(stack, &[Wanted::Keyword(form, depth)]),
        Wanted::Parts(form, depth) if depth > 0 => {
            want(stack, &[wanted, Wanted::Keyword(form, depth - 1)])
        }
        Wanted::List => want(stack, &[Wanted::Parameters]),
        _ => Ok(false),
    }
}

fn behind_close(stack: &mut Vec<Wanted>, wanted: Wanted) -> Result<bool, AllocError>
    ensures { IfOk result (λ went. Puts went stack.old.items stack.new.items (behind_close wanted)) }
{
    match wanted {
        Wanted::Close | Wanted::Parts(..) | Wanted::Parameters | Wanted::Numbers(_) => Ok(true),
        _ => Ok(false),
    }
}

/// Puts what is wanted behind the token in place of what was wanted there, and tells whether the
/// token may stand there.
#[tactic(auto, unfolding(crate::specs::Forms::behind))]
pub(crate) fn advance(
    stack: &mut Vec<Wanted>,
    wanted: Wanted,
    token: Token<'_>,
) -> Result<bool, AllocError>
    ensures { IfOk result (λ went. Puts went stack.old.items stack.new.items (behind wanted (view token.entry))) }
{
    match token {
        Token::Open => behind_open(stack, wanted),
        Token::Close => behind_close(stack, wanted),
        Token::Name(word) => behind_word(stack, wanted, word),
        Token::Int(number) => behind_int(stack, wanted, number),
        Token::Other => Ok(false),
    }
}
