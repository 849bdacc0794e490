//! Schedules read.

ghost use Rattle.std.specs.Prelude.{◌≡◌, IfOk, IfErr, ◌⊎◌, Ok, List};
ghost use Rattle.txn_programs.specs.declared.moves.Move.{Move};
ghost use Rattle.text_words.specs.Answers.{Gives};
ghost use Rattle.text_words.specs.declared.fault.ReadFault.TheVariants.{Memory};
ghost use Rattle.text_line_reader.specs.Schedules.{IsSchedule, IsFirst, schedule_at};

use crate::cells::knows_cells;
use crate::schedule::resolve::resolved;
use crate::schedule::shape::raws_of;
use std::alloc::Global;
use text_words::ReadFault;
use text_words::bytes::are_allowed;
use txn::{Catalogue, Move};

/// The longest schedule, in bytes.
pub const MAX_SCHEDULE: usize = 1_048_576;

#[tactic(auto, unfolding(crate::specs::Schedules::schedule_at))]
fn read(alloc: Global, bytes: &[u8], catalogue: &Catalogue) -> Result<Vec<Move>, ReadFault>
    ensures { Gives (λ x. x.items) result (schedule_at catalogue.now bytes.now) }
{
    if bytes.len() > MAX_SCHEDULE {
        return Err(ReadFault::TooLong);
    }
    if !are_allowed(bytes) {
        return Err(ReadFault::BadByte);
    }
    let lines = raws_of(alloc, bytes, knows_cells(catalogue))?;
    resolved(alloc, catalogue, &lines)
}

/// Reads a schedule of a catalogue. It is `Ok` exactly where the bytes, at most 1,048,576, are the
/// text of moves: a line for each, one of `begin A`, `read A X`, `commit A`, `drop A`, `first A X`,
/// `value A`, `second A`, `ask A`, `word`, `again A` and `move A`, with A one of the catalogue's
/// tasks and X the name of one of its variables, or that of a table and the number of one of its
/// cells, as `stock[3]`; the empty text is that of no move. Otherwise the fault is the first of
/// `TooLong`, `BadByte`, `Shape`, `Name` (an unknown variable or cell) and `Limit` (a task out of
/// range) that applies, each judged over all the bytes before the next is. `Memory` may come in
/// place of any answer, where a growth was refused. It takes time and memory linear in the input.
pub fn read_schedule(
    alloc: Global,
    bytes: &[u8],
    catalogue: &Catalogue,
) -> Result<Vec<Move>, ReadFault>
    // What is read has this text.
    ensures found { IfOk result (λ v. IsSchedule catalogue.now bytes.now v.items) }
    // The text of moves is read as these moves, unless memory runs out.
    ensures only { (moves : List Move) → IsSchedule catalogue.now bytes.now moves
        → Gives (λ x. x.items) result (Ok moves) }
    // Which fault it is.
    ensures fault { IfErr result (λ e. (e ≡ Memory) ⊎ IsFirst catalogue.now bytes.now e) }
{
    catalogue.rules();
    read(alloc, bytes, catalogue)
}
