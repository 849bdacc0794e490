//! The commands of the program `stm`, from the words of the command line to the status to end with.
//!
//! `program` has the words of the command line; `running`, `checking`, `chapters`, `playing`, `exploring`, `finding`,
//! `graphing`, `explaining` and `printing` have the files, which `reading` reads. Each command is said three times: of
//! files at paths, of what readers have, whose clause names the bytes that are read, and of bytes. The words and the
//! statuses are those of the library `command_line`. What the commands do is in libraries, too:
//! `runner` goes from the bytes of a file to the bytes of its report, `checker` from the bytes of both to a verdict,
//! `world_runner` from the bytes of a file and of a schedule to the bytes of what is seen, `explore_runner` from the
//! bytes of a file to the bytes of what is found of all orders, `print_as` writes files anew, and
//! `explain_files`, `explain_reports` and `explain_schedules` go to the bytes of what is wrong with a file, a report
//! or a schedule.
//!
//! What does one command is not inlined into `program`, so that a command takes stack for itself alone.
#![tactic(auto)]

pub mod chapters;
pub mod checking;
pub mod explaining;
pub mod exploring;
pub mod finding;
pub mod graphing;
pub mod playing;
pub mod printing;
pub mod program;
pub mod reading;
pub mod running;

pub use program::{answer_to, run, run_by};
