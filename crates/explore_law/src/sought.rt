//! What is sought of all orders.

use crate::instance::InstanceId;
use txn_programs::ast::AlwaysId;

/// What is sought of a transaction with a task left: how its turn ends, or that it has none.
#[derive(Clone, Copy)]
pub enum Sought {
    /// It returns: this value, or any.
    Returned(Option<i64>),
    /// It throws: this value, or any.
    Threw(Option<i64>),
    /// Its arithmetic overflows.
    Overflow,
    /// It divides by zero.
    ZeroDiv,
    /// It would leave a standing condition untrue: this one, or any.
    Broke(Option<AlwaysId>),
    /// It retries, and so is parked.
    Parks,
    /// It names a cell outside its table.
    Outside,
}

/// Turns that lead to where what is sought shows, and the instance by which it shows there.
#[derive(Drop)]
pub struct WayWhere {
    pub turns: Vec<InstanceId>,
    pub instance: InstanceId,
}
