//! Reports and schedules read exactly, line by line: bytes as lines, a line as words, and what a single word says;
//! `report` has what a report says, and `schedule` the moves that a player of the stepped world asks for.
#![tactic(auto)]

mod bytes;
mod cells;
mod lines;
mod numeral;
mod report;
mod schedule;
mod tasks;
mod words;

pub use cells::{cell_in, cell_named, cell_of, is_bracketed, knows_cells, spans_of};
pub use lines::{end, first_word, next_line, part};
pub use numeral::Count;
pub use report::read::{MAX_REPORT, max_report, read_report};
pub use schedule::read::{MAX_SCHEDULE, read_schedule};
pub use tasks::task_id;
pub use words::{begins, behind, expect, int_in, is_word, name_in, number_in};
