//! The tokens of a text, each with its place.

ghost use Rattle.std.specs.Prelude.{◌≡◌, ◌≤◌, [], IfNone, IfSome, length, drop};
ghost use Rattle.text_words.specs.TokenView.{view};
ghost use Rattle.text_words.specs.Tokens.{tokens};
ghost use Rattle.explain_files.specs.Judging.{IsNext};
ghost use Rattle.explain_files.specs.Tokens.{IsApart};

use crate::tokens::{token_len, token_place};
use text_words::lexer::{Token, next_token};

/// A token, where it begins, and where the text goes on behind it.
#[derive(Clone, Copy)]
pub(crate) struct Found<'a> {
    pub place: usize,
    pub token: Token<'a>,
    pub next: usize,
}

/// The next token from this place on.
#[tactic(auto, using(crate::proofs::Cuts::whole, crate::proofs::Cuts::one_more, crate::proofs::Cuts::apart_on))]
pub(crate) fn token_from(bytes: &[u8], from: usize) -> Option<Found<'_>>
    requires within { from ≤ length bytes.now }
    requires apart { IsApart bytes.now from }
    ensures none { IfNone result (tokens (drop from bytes.now) ≡ []) }
    ensures some { IfSome result (λ f. IsNext bytes.now from f.place f.next (view f.token)) }
{
    let place = token_place(bytes, from);
    let rest = &bytes[place..];
    let (token, _) = next_token(rest)?;
    Some(Found {
        place,
        token,
        next: place + token_len(rest),
    })
}
