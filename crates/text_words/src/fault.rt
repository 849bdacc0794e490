//! Why a file, a report or a schedule can't be read.

ghost use Rattle.std.specs.Prelude.{◌≡◌};
ghost use Rattle.text_words.specs.declared.fault.ReadFault.TheVariants.{Memory};

use std::alloc::{AllocError, AllocFailed};
use thiserror::Error;

/// The kinds of fault of a file, a report or a schedule. A text with several has the first of them, in
/// this order, but that `Memory` may come in place of any other answer.
#[derive(Clone, Copy, Debug, PartialEq, Eq, Error)]
pub enum ReadFault {
    /// More bytes than a file, a report or a schedule of its kind may have.
    #[error("F1 TooLong")]
    TooLong,
    /// A byte that is neither a newline nor one of 32 to 126.
    #[error("F2 BadByte")]
    BadByte,
    /// No reading by the grammar, with at most 32 parentheses open at a time; of a report or a schedule,
    /// a line that is none.
    #[error("F3 Shape")]
    Shape,
    /// A variable, a standing condition or a transaction declared twice, or one that is not declared,
    /// which a report or a schedule may name too.
    #[error("F4 Name")]
    Name,
    /// A number outside its range, a name that is too long, too many declarations or tasks, or too
    /// high a cost; of a report or a schedule, a number outside its range or a task that there is not.
    #[error("F5 Limit")]
    Limit,
    /// A growth was refused.
    #[error("F6 Memory")]
    Memory,
    /// A standing condition that is not true of the initial values. Files alone have this fault.
    #[error("F7 Broken")]
    Broken,
}

impl From<AllocError> for ReadFault {
    ghost from_gives = { λ _ e. e ≡ Memory };

    fn from(_refused: AllocError) -> ReadFault {
        ReadFault::Memory
    }
}

impl<T: Drop> From<AllocFailed<T>> for ReadFault {
    ghost from_gives = { λ _ e. e ≡ Memory };

    fn from(_refused: AllocFailed<T>) -> ReadFault {
        ReadFault::Memory
    }
}
