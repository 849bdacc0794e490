//! Every order of a file's tasks: what there is to find.
//!
//! `specs/Instances` defines which tasks are alike, `specs/Orders` the configurations that the orders of turns lead
//! through, and `specs/Explored` what an exact answer says of them. `Found` is such an answer. `specs/Graphs` defines
//! the graph of configurations and turns, and `Graph` is one. `Sought` is what may be looked for on the way.
#![tactic(auto)]

mod found;
mod graph;
mod instance;
mod sought;

pub use found::{End, Found, Kinds};
pub use graph::{Graph, Node, Turn};
pub use instance::InstanceId;
pub use sought::{Sought, WayWhere};
