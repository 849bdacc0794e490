//! Reports checked: whether a report is lawful for a file, and else which part of it fails first.
//!
//! `check` reads both and judges the parts in their order: `opening`, `replay`, `tasks` and
//! `parked` have a function for each. Entries are replayed by the plain evaluator of `txn`, which
//! is not what runs the tasks: so a fault of the one can't agree with itself.
//!
//! `check_after` judges a chapter: a report of a file, and whether the file goes on where an earlier file
//! and its report ended. `next_chapter` makes the catalogue with which a chapter begins.
//!
//! Whoever explains a report makes use of `evaluating`, `raise`, `stage` and `tasks`, too: so the one replays
//! as the other does.
#![tactic(auto)]

mod calls;
mod chapter;
pub mod evaluating;
mod judge;
mod judging;
pub mod laws;
mod next;
mod opening;
mod parked;
pub mod raise;
mod reading;
mod replay;
pub mod stage;
pub mod tasks;
mod verdict;

pub use chapter::{ChapterFault, ChapterVerdict, check_after, goes_on_after};
pub use judging::{Judgement, judged};
pub use next::{beginning, next_chapter};
pub use reading::check;
pub use verdict::{Part, Verdict};
