//! The instances of a file.

/// An instance: a transaction with arguments that some task gives it, by its number among them, from 0. Tasks of one
/// instance are alike.
#[derive(Clone, Copy, PartialEq, Eq, PartialOrd, Ord)]
pub struct InstanceId(pub u32);
