//! Files, reports and schedules as text: what each says, read exactly, and the one text of files and
//! reports.
//!
//! This crate is the front of several: `text_words` has bytes, tokens and integers, `text_grammar`
//! what a file is; on these stand `text_parser`, `text_resolver` and `text_file_reader`, which read files,
//! `text_file_reader`, which says what is so of each file, the readers `text_line_reader` and
//! `text_line_reader`, and the printers `text_file_printer` and `text_report_printer`.
#![tactic(auto)]

pub use text_file_printer::{print_file, text_is_laid_out};
pub use text_file_reader::{announces_tables, laws, read_file};
pub use text_grammar::file::{MAX_FILE, MAX_FILE_OF_FORM_3, longest_file};
pub use text_line_reader::{MAX_REPORT, MAX_SCHEDULE, max_report, read_report, read_schedule};
pub use text_report_printer::print_report;
pub use text_words::ReadFault;
