//! The book: how each task stands, the journal of those that committed, and the present values,
//! which it publishes to the cells. Whatever is called in whatever order, the journal replays to
//! exactly the present values and versions, no task is entered twice, parked programs retry, and no
//! state breaks a standing condition.
#![tactic(auto)]

mod bits;
mod book;
mod calls;
mod changing;
mod chapter;
mod clock;
mod counting;
mod ending;
mod journal;
mod keeping;
mod listing;
mod names;
mod plain_turn;
mod since;
mod sleepers;
mod standing;
mod steps;
mod stored;
mod table;
mod task;
mod validate;
mod written;

pub use book::Book;
pub use counting::Counts;
pub use standing::Standing;
pub use task::{Finish, NotPlain, Serial};
