//! What a caller can rest on: what follows from the laws of the world, and from them alone.

ghost use Rattle.world_law.specs.World.{World};
ghost use Rattle.world_law.specs.Next.{Reachable};
ghost use Rattle.world_law.specs.Determined.{HasOneAnswer, HasOneRefusal};
ghost use Rattle.world_tests.specs.Uses.{PairsAreOfOneState, EndsAreOfPrograms};
ghost use Rattle.world_tests.specs.Uses.{CommitsAreOfPrograms, StatesAreCommitted, ClocksMakeStates};
ghost use Rattle.world_tests.specs.Uses.{TasksCommitOnce, WordsAreTheLastState, LoadsAreOfTheState};

use crate::parts::{PAIR, catalogue};
use txn::Catalogue;
use world::{one_answer, opacity};

/// What two variables were when an attempt read them is so in one state; whatever ended did so as its
/// program does on a state; a commit's state is that of its program, from the moment at which it has
/// stored the clock, and each state is that of a commit; and no task commits twice.
fn concludes(catalogue: &Catalogue)
    ensures pairs { (w : World) → Reachable catalogue.now w → PairsAreOfOneState w }
    ensures ends { (w : World) → Reachable catalogue.now w → EndsAreOfPrograms catalogue.now w }
    ensures commits { (w : World) → Reachable catalogue.now w → CommitsAreOfPrograms catalogue.now w }
    ensures states { (w : World) → Reachable catalogue.now w → StatesAreCommitted catalogue.now w }
    ensures clocks { (w : World) → Reachable catalogue.now w → ClocksMakeStates catalogue.now w }
    ensures once { (w : World) → Reachable catalogue.now w → TasksCommitOnce w }
{
    opacity(catalogue);
}

/// While nobody commits the words are the last state, and what a read has loaded is of its state where
/// the version word stays.
fn means(catalogue: &Catalogue)
    ensures last { (w : World) → Reachable catalogue.now w → WordsAreTheLastState w }
    ensures loads { (w : World) → Reachable catalogue.now w → LoadsAreOfTheState catalogue.now w }
{
    opacity(catalogue);
}

/// What is seen of an event leaves nothing open.
fn foretells(catalogue: &Catalogue)
    ensures answer { (w : World) → Reachable catalogue.now w → HasOneAnswer catalogue.now w }
    ensures refusal { (w : World) → Reachable catalogue.now w → HasOneRefusal catalogue.now w }
{
    one_answer(catalogue);
}

#[test]
fn the_laws_are_of_every_catalogue(rt: HostRuntime) {
    match catalogue(rt.alloc(), PAIR) {
        Some(pair) => {
            concludes(&pair);
            means(&pair);
            foretells(&pair);
        }
        None => panic!(rt; "no catalogue"),
    }
}
