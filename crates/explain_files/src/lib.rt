//! Files explained: whether a file is read, and where and why it is not.
//!
//! `explain` goes from the bytes of a file to the kind of its first fault and the place of it, and `position_of` is the
//! line and the column of a place. `explain_bytes` makes of them the line that is printed.
#![tactic(auto)]

mod advance;
mod allowed;
mod bytes;
mod declarations;
mod explaining;
mod found;
mod keywords;
mod limits;
mod names;
mod near;
mod places;
mod roles;
mod text;
mod tokens;
mod walk;
pub mod wanted;
mod words;

pub use allowed::bad_byte_place;
pub use bytes::{Judgement, explain_bytes};
pub use explaining::{Explanation, Finding, Refusal, explain};
pub use limits::LimitFault;
pub use names::NameFault;
pub use places::{Position, position_of};
pub use text::{kind_name, line_of, told};
