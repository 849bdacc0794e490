//! What each token of a file is for.

ghost use Rattle.std.specs.Prelude.{◌≡◌};
ghost use Rattle.text_words.specs.TokenView.{view};
ghost use Rattle.text_words.specs.Tokens.{tokens};
ghost use Rattle.explain_files.specs.Roles.{role_of_word, role_of_list, role_behind_name, role_behind_number};
ghost use Rattle.explain_files.specs.Roles.{role_inside, role_behind, form_of};

use crate::wanted::{NameUse, NumberUse, Role};
use text_grammar::file::FileForm;
use text_parser::file::heading_of;
use text_words::lexer::Token;

/// The form that a file announces.
pub(crate) fn form_of(bytes: &[u8]) -> FileForm
    ensures { result ≡ form_of (tokens bytes.now) }
{
    match heading_of(bytes) {
        Ok((form, _)) => form,
        Err(_) => FileForm::One,
    }
}

/// What the token behind a word is for.
fn role_of_word(word: &str) -> Role
    ensures { result ≡ role_of_word word.now }
{
    match word {
        "var" => Role::Name(NameUse::Variable),
        "table" => Role::Name(NameUse::Table),
        "always" => Role::Name(NameUse::Condition),
        "tx" => Role::Name(NameUse::Transaction),
        "set" => Role::Name(NameUse::Target),
        "at" | "sum" | "min" | "max" | "put" => Role::Name(NameUse::Cells),
        "run" => Role::Name(NameUse::Called),
        "repeat" => Role::Number(NumberUse::Turns),
        _ => Role::Value,
    }
}

/// What the token behind the name of a transaction is for.
fn role_of_list(form: FileForm) -> Role
    ensures { result ≡ role_of_list form }
{
    match form {
        FileForm::One | FileForm::Two => Role::Value,
        FileForm::Three => Role::List,
    }
}

/// What the token behind a name is for.
fn role_behind_name(form: FileForm, role: Role, name: &str) -> Role
    ensures { result ≡ role_behind_name form role name.now }
{
    match role {
        Role::Word => role_of_word(name),
        Role::Name(NameUse::Variable) => Role::Number(NumberUse::Initial),
        Role::Name(NameUse::Table) => Role::Number(NumberUse::Length),
        Role::Name(NameUse::Called) => Role::Number(NumberUse::Tasks),
        Role::Name(NameUse::Transaction) => role_of_list(form),
        Role::Name(NameUse::Parameter) => role,
        _ => Role::Value,
    }
}

/// What the token behind a number is for: values follow the length of a table, and arguments the count of a run.
fn role_behind_number(role: Role) -> Role
    ensures { result ≡ role_behind_number role }
{
    match role {
        Role::Number(NumberUse::Length | NumberUse::Cell) => Role::Number(NumberUse::Cell),
        Role::Number(NumberUse::Tasks | NumberUse::Argument) => Role::Number(NumberUse::Argument),
        _ => Role::Value,
    }
}

/// What the token behind an opening parenthesis is for: a word, but for parameters.
fn role_inside(role: Role) -> Role
    ensures { result ≡ role_inside role }
{
    match role {
        Role::List => Role::Name(NameUse::Parameter),
        _ => Role::Word,
    }
}

/// What the token behind this one is for, in a file of this form.
pub(crate) fn role_behind(form: FileForm, role: Role, token: Token<'_>) -> Role
    ensures { result ≡ role_behind form role (view token.entry) }
{
    match token {
        Token::Open => role_inside(role),
        Token::Name(name) => role_behind_name(form, role, name),
        Token::Int(_) => role_behind_number(role),
        Token::Close | Token::Other => Role::Value,
    }
}
