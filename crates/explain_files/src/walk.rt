//! A file walked token by token, with the place of each and what was wanted there.

ghost use Rattle.std.specs.Prelude.{◌≡◌, ◌<◌, ◌≤◌, [], ◌∷◌, IfOk, length, drop, true};
ghost use Rattle.explain_files.specs.Tokens.{BeginsToken, IsApart};
ghost use Rattle.explain_files.specs.Walking.{IsStep, IsStop, StepMoves};
ghost use Rattle.text_file_reader.specs.Faults.{IsFirst};
ghost use Rattle.text_words.specs.declared.fault.ReadFault.TheVariants.{Shape};

use crate::advance::advance;
use crate::tokens::{token_len, token_place};
use crate::wanted::{Section, Wanted};
use std::alloc::{AllocError, Global};
use text_words::lexer::{Token, next_token};

/// What stands at the next place.
#[derive(Clone, Copy)]
pub(crate) struct Step<'a> {
    /// Where the token begins, or the end.
    pub place: usize,
    /// Where the walk goes on.
    pub next: usize,
    /// The token, or none at the end.
    pub token: Option<Token<'a>>,
    /// What was wanted.
    pub wanted: Option<Wanted>,
    /// Whether a token stands there, and one that may.
    pub went: bool,
}

/// What is wanted where a file begins.
pub(crate) fn beginning(alloc: Global) -> Result<Vec<Wanted>, AllocError>
    ensures { IfOk result (λ stack. stack.items ≡ Wanted.Declarations Section.Start ∷ []) }
{
    Ok(vec![in alloc; Wanted::Declarations(Section::Start)]?)
}

/// The next token from this place on, and what is wanted behind it.
#[tactic(auto, using(crate::proofs::Cuts::whole, crate::proofs::Cuts::one_more, crate::proofs::Cuts::apart_on))]
pub(crate) fn next_step<'a>(
    bytes: &'a [u8],
    from: usize,
    stack: &mut Vec<Wanted>,
) -> Result<Step<'a>, AllocError>
    requires within { from ≤ length bytes.now }
    requires apart { IsApart bytes.now from }
    ensures place { IfOk result (λ s. IsStep bytes.now from s.place s.next s.went) }
    ensures moves { IfOk result (λ s. StepMoves bytes.now from s.place s.next s.went stack.old.items stack.new.items) }
{
    let place = token_place(bytes, from);
    let rest = &bytes[place..];
    let wanted = stack.pop();
    let Some((token, _)) = next_token(rest) else {
        return Ok(Step {
            place,
            next: place,
            token: None,
            wanted,
            went: false,
        });
    };
    let went = match wanted {
        Some(wanted) => advance(stack, wanted, token)?,
        None => false,
    };
    Ok(Step {
        place,
        next: place + token_len(rest),
        token: Some(token),
        wanted,
        went,
    })
}

/// Where the bytes stop being the beginning of a file.
#[derive(Clone, Copy)]
pub(crate) struct Stop {
    pub place: usize,
    pub wanted: Option<Wanted>,
}

/// The place of the first token that may not stand where it stands, or of the end, of bytes that are no
/// file for their shape: some file begins with the tokens before it, and none with this one more.
pub(crate) fn first_stop(alloc: Global, bytes: &[u8]) -> Result<Stop, AllocError>
    requires { IsFirst bytes.now Shape }
    ensures { IfOk result (λ s. IsStop bytes.now s.place) }
{
    let mut stack = beginning(alloc)?;
    let mut at = 0;
    'tokens: loop {
        let step = next_step(bytes, at, &mut stack)?;
        if !step.went {
            return Ok(Stop {
                place: step.place,
                wanted: step.wanted,
            });
        }
        at = step.next;
    }
}
