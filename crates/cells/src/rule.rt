//! The rule of the shared words, and the nine kinds of step on them. What a step tells is in
//! `specs/Steps.antt`.
use crate::history::History;
use crate::sight::Sight;
use atomic_table::{Join, Play, Split, TableRule};

/// Its rule is `WordsHold`, and the first publisher has stored one state.
pub struct WordsRule;

impl TableRule<(), Sight, History> for WordsRule {
    ghost use Rattle.txn_words.specs.Words.{last_state};
    ghost use Rattle.txn_words.specs.Stores.{opened};
    ghost use Rattle.cells.specs.Rule.{WordsHold};
    ghost use Rattle.cells.specs.Sight.{publishing};

    ghost holds = { λ _. WordsHold };

    ghost first = { λ key. publishing (opened (last_state key)) };
}

/// A reader loads the clock, as it begins.
pub struct LoadClock;

impl Play<(), Sight> for LoadClock {
    ghost use Rattle.cells.specs.Steps.{begins};

    ghost then = { begins };
}

/// The clock is loaded while a reader meets the publisher.
pub struct LoadClockTogether;

impl Play<(), Sight> for LoadClockTogether {
    ghost use Rattle.cells.specs.Steps.{meets};

    ghost then = { meets };
}

/// A reader loads a version word.
pub struct LoadVersion;

impl Play<(), Sight> for LoadVersion {
    ghost use Rattle.cells.specs.Steps.{samples};

    ghost then = { samples };
}

/// A reader loads a value word.
pub struct LoadValue;

impl Play<(), Sight> for LoadValue {
    ghost use Rattle.cells.specs.Steps.{loads_value};

    ghost then = { loads_value };
}

/// A reader loads the version word a second time.
pub struct LoadVersionAgain;

impl Play<(), Sight> for LoadVersionAgain {
    ghost use Rattle.cells.specs.Steps.{samples_again};

    ghost then = { samples_again };
}

/// The publisher loads a version word.
pub struct LoadOwnVersion;

impl Play<(), Sight> for LoadOwnVersion {
    ghost use Rattle.cells.specs.Steps.{loads_own};

    ghost then = { loads_own };
}

/// The publisher locks a version word.
pub struct LockVersion;

impl Play<(), Sight> for LockVersion {
    ghost use Rattle.cells.specs.Steps.{locks};

    ghost then = { locks };
}

/// The publisher stores a value.
pub struct StoreValue;

impl Play<(), Sight> for StoreValue {
    ghost use Rattle.cells.specs.Steps.{stores_value};

    ghost then = { stores_value };
}

/// The publisher moves the clock. The history grows here.
pub struct StoreClock;

impl Play<(), Sight> for StoreClock {
    ghost use Rattle.cells.specs.Steps.{stores_clock};

    ghost then = { stores_clock };
}

/// The publisher releases a version word.
pub struct ReleaseVersion;

impl Play<(), Sight> for ReleaseVersion {
    ghost use Rattle.cells.specs.Steps.{releases};

    ghost then = { releases };
}

/// A new reader gets a seat, and is told of the publisher's history.
pub struct Enroll;

impl Split<Sight> for Enroll {
    ghost use Rattle.txn_words.specs.Loads.{enrolled};
    ghost use Rattle.cells.specs.Sight.{reading, commit_of};

    ghost left = { λ v. v };

    ghost right = { λ v. reading (enrolled (commit_of v).history) };
}

/// A reader's record leaves its seat for a new one.
pub struct Leave;

impl Split<Sight> for Leave {
    ghost use Rattle.cells.specs.Sight.{nothing};

    ghost left = { λ _. nothing };

    ghost right = { λ v. v };
}

/// The publisher's seat takes in a reader's record.
pub struct Take;

impl Join<Sight> for Take {
    ghost use Rattle.cells.specs.Sight.{nothing};

    ghost both = { λ v w. record { publisher = v.publisher; reader = w.reader } };

    ghost spent = { nothing };
}

/// The reader's record goes from the publisher's seat to a new one.
pub struct Part;

impl Split<Sight> for Part {
    ghost use Rattle.std.specs.Prelude.{None};

    ghost left = { λ v. record v { reader = None } };

    ghost right = { λ v. record v { publisher = None } };
}
