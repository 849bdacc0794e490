pub(crate) mod cells;
pub(crate) mod raw;
pub(crate) mod read;
pub(crate) mod resolve;
pub(crate) mod shape;
