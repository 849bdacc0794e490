//! The command line of `stm`: from the words of the process to the command that they ask for, and from what a command
//! answers to the status and the line on the standard error.
//!
//! `words` has the commands with their help, `process` what is shown where no command is asked for, `answer` how a
//! command ended, `paths` which file could not be read. A clause says what is answered where the words ask for none.
//! Which words ask for what is told by tests, each option on a line of its own and through the whole program: a clause
//! could only say the parsing over again.
#![tactic(auto)]

mod answer;
mod arguments;
mod checking_words;
mod errors;
mod explaining_words;
mod exploring_words;
mod paths;
mod printing_words;
mod process;
mod words;

pub use answer::{Answer, Source, status, told};
pub use checking_words::{Check, Earlier};
pub use errors::{unread, wordless};
pub use explaining_words::{Explain, Explained};
pub use exploring_words::{Find, Orders};
pub use paths::tell_unread;
pub use printing_words::{Print, Printed};
pub use process::{asked, words_given};
pub use words::{Played, Request, Run};
