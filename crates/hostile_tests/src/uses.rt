//! What a caller can rest on after a refusal, by the clauses of the calls.

ghost use Rattle.std.specs.Prelude.{◌≡◌, length, true, false, IfSome, string_bytes};
ghost use Rattle.world.specs.WorldText.{PutsWorld};

use attempt::{Attempt, Next, Stand};
use book::Book;
use std::alloc::Global;
use txn::VarId;
use world::World;
use world_law::Event;

/// Supplies a variable, and advances where that is refused: the log is as it was, and the same
/// variable is needed.
pub(crate) fn supplied_or_asked(attempt: &mut Attempt<'_>, x: VarId, v: i64) -> Option<Next>
    requires { attempt.old.stand ≡ Stand.Needs x }
    ensures again { IfSome result (λ next. next ≡ Next.Need x) }
    ensures stand { IfSome result (λ next. attempt.new.stand ≡ Stand.Needs x) }
    ensures log { IfSome result (λ next. attempt.new.log ≡ attempt.old.log) }
{
    match attempt.supply(x, v) {
        Ok(()) => None,
        Err(_) => Some(attempt.advance()),
    }
}

/// Advances twice: where the first is refused, so is the second.
pub(crate) fn advanced_twice(attempt: &mut Attempt<'_>) -> (Next, Next)
    ensures spent { result.0 ≡ Next.Memory → result.1 ≡ Next.Memory }
{
    let first = attempt.advance();
    (first, attempt.advance())
}

/// Takes a task and gives it up twice: it is given up once.
pub(crate) fn given_up_twice(book: &mut Book<'_>) -> Option<(bool, bool)>
    ensures { IfSome result (λ both. both ≡ (true, false)) }
{
    let task = book.take()?;
    let first = book.give_up(task);
    Some((first, book.give_up(task)))
}

/// Whether a report is refused, and how many entries the journal then has: as many as before.
pub(crate) fn entries_after_report(alloc: Global, book: &Book<'_>) -> (bool, usize)
    ensures { result.1 ≡ length book.now.journal }
{
    let refused = book.report(alloc).is_err();
    (refused, book.journal_len())
}

/// Where an event is refused, the last lines of the world are those of the world before it. `None`
/// where it happened, or where its lines are refused.
pub(crate) fn lines_after_refusal(
    out: &mut String,
    world: &mut World<'_>,
    event: Event,
) -> Option<()>
    ensures { IfSome result
        (λ u. PutsWorld world.old.listing world.old.world (string_bytes out.old) (string_bytes out.new)) }
{
    match world.step(event) {
        Ok(_) => None,
        Err(_) => world.put_text(out).ok(),
    }
}
