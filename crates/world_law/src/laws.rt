//! What holds whatever happens in the world.

ghost use Rattle.std.specs.Prelude.{All};
ghost use Rattle.txn_programs.specs.Standing.{Upholds};
ghost use Rattle.world_law.specs.World.{World, IsOpening};
ghost use Rattle.world_law.specs.Next.{Reachable, Run};
ghost use Rattle.world_law.specs.Opacity.{Opaque, WordsFit};
ghost use Rattle.world_law.specs.Determined.{HasOneAnswer, HasOneRefusal};
ghost use Rattle.world_law.specs.Worked.{pair, pair_opening, torn_events, torn_answers, torn_end};
ghost use Rattle.world_law.specs.Worked.{back_and_forth, back_opening, back_events, back_answers, back_end};
ghost use Rattle.world_law.specs.Worked.{half, moved_events, moved_answers, moved_end, refused_events};
ghost use Rattle.world_law.specs.Worked.{refused_answers, refused_end, fresh_events, fresh_answers, fresh_end};
ghost use Rattle.world_law.specs.Worked.{waiting, thrown_events, thrown_answers, thrown_end, parked_events};
ghost use Rattle.world_law.specs.Worked.{parked_answers, parked_end, dropped_events, dropped_answers};
ghost use Rattle.world_law.specs.Worked.{dropped_end, locked_events, locked_answers, locked_end};

use txn::Catalogue;

/// Whatever happens in the world of a catalogue, in whatever order and wherever running out of memory
/// comes, each attempt's reads are those of one state of the history, whatever became of it; each
/// state was made by exactly one attempt, whose program leads to it; no task commits twice; the
/// words mean what they should, between any two loads and stores; and each standing condition is
/// true of every state of the history. It does nothing: its contract is the law.
pub fn opacity(catalogue: &Catalogue)
    ensures opaque { (w : World) → Reachable catalogue.now w → Opaque catalogue.now w }
    ensures words { (w : World) → Reachable catalogue.now w → WordsFit catalogue.now w }
    ensures upheld { (w : World) → Reachable catalogue.now w → All (λ m. Upholds catalogue.now m) w.history }
{
    catalogue.rules();
}

/// Nothing but running out of memory is left open: in each world that events lead to, two answers of one
/// event other than running out of memory are equal, and so are the worlds after them. The worlds after
/// running out of memory are equal too, and it comes only where the attempt could go on. It does nothing:
/// its contract is the law.
pub fn one_answer(catalogue: &Catalogue)
    ensures answer { (w : World) → Reachable catalogue.now w → HasOneAnswer catalogue.now w }
    ensures refusal { (w : World) → Reachable catalogue.now w → HasOneRefusal catalogue.now w }
{
    catalogue.rules();
}

/// Runs worked out by hand, event by event. A task that has read one of two variables before both
/// were changed finds its next read stale. A value that goes away and comes back lets a task that
/// read it before commit. An attempt whose read is stale runs again: it moves to a later state where
/// all that it read is so there too, and commits; where a value has changed it is stale for good;
/// and where it had read nothing it moves at once. A throw commits the state before it. A retry
/// parks, and once what it read is another it is stale, which no load found. An attempt that is
/// dropped does nothing more, and one that commits is not dropped. A commit that locks a word
/// between two loads of it makes the read stale.
pub fn worked_runs()
    ensures pair { IsOpening pair pair_opening }
    ensures torn { Run pair pair_opening torn_events torn_answers torn_end }
    ensures single { IsOpening back_and_forth back_opening }
    ensures back { Run back_and_forth back_opening back_events back_answers back_end }
    ensures half { IsOpening half pair_opening }
    ensures moved { Run half pair_opening moved_events moved_answers moved_end }
    ensures refused { Run pair pair_opening refused_events refused_answers refused_end }
    ensures fresh { Run pair pair_opening fresh_events fresh_answers fresh_end }
    ensures waiting { IsOpening waiting back_opening }
    ensures thrown { Run waiting back_opening thrown_events thrown_answers thrown_end }
    ensures parked { Run waiting back_opening parked_events parked_answers parked_end }
    ensures dropped { Run waiting back_opening dropped_events dropped_answers dropped_end }
    ensures locked { Run waiting back_opening locked_events locked_answers locked_end }
{}
