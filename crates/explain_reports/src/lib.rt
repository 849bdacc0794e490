//! Reports explained: which part of a report fails first, on which of its lines, and what replay
//! has there.
//!
//! `explain` reads a report and judges its parts in the checker's order. A part has a function
//! that looks for the first thing in it that is not so: `base`, `entries`, `present`, `tasks` and
//! `parked`. `explain_chapter_bytes` says of a file, too, in what it does not go on where an earlier file
//! and its report ended: `gaps` looks for the first line.
#![tactic(auto)]

mod base;
mod bytes;
mod chapters;
mod entries;
mod explaining;
mod flaw;
mod gaps;
mod judge;
mod lines;
mod parked;
mod present;
mod tasks;
mod text;

pub use bytes::explain_bytes;
pub use chapters::{ChapterUntold, explain_chapter_bytes};
pub use explaining::{Line, ReportExplanation, explain};
pub use flaw::{Flaw, TaskLine};
pub use text::put_explanation;
