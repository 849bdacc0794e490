//! The words behind a parenthesis.

ghost use Rattle.std.specs.Prelude.{◌≡◌};
ghost use Rattle.std.specs.Result.{result_ok};
ghost use Rattle.text_grammar.specs.Reading.{head_of, test_of, keyword_of};
ghost use Rattle.explain_files.specs.Forms.{kind_of};

use crate::wanted::Kind;
use text_grammar::file::FileForm;
use text_grammar::words::{self, Head, Keyword, Test};

/// The kind of expression that a word begins in a file of this form, if it does.
pub(crate) fn head_of(form: FileForm, word: &str) -> Option<Head>
    ensures { result ≡ result_ok (head_of form word.now) }
{
    match words::head_of(form, word) {
        Ok(head) => Some(head),
        Err(_) => None,
    }
}

/// The kind of condition that a word begins, if it does.
pub(crate) fn test_of(word: &str) -> Option<Test>
    ensures { result ≡ result_ok (test_of word.now) }
{
    match words::test_of(word) {
        Ok(test) => Some(test),
        Err(_) => None,
    }
}

/// The kind of statement that a word begins in a file of this form, if it does.
pub(crate) fn keyword_of(form: FileForm, word: &str) -> Option<Keyword>
    ensures { result ≡ result_ok (keyword_of form word.now) }
{
    match words::keyword_of(form, word) {
        Ok(keyword) => Some(keyword),
        Err(_) => None,
    }
}

/// The kind of declaration that a word begins, if it does.
pub(crate) fn kind_of(word: &str) -> Option<Kind>
    ensures { result ≡ kind_of word.now }
{
    match word {
        "var" => Some(Kind::Variable),
        "table" => Some(Kind::Table),
        "always" => Some(Kind::Condition),
        "tx" => Some(Kind::Transaction),
        "run" => Some(Kind::Run),
        _ => None,
    }
}
