//! A line of a schedule as it is written, before any name or number is judged.

use crate::Count;

/// The first word of a line that names a task alone.
#[derive(Clone, Copy)]
pub(crate) enum TaskVerb {
    Begin,
    Commit,
    Drop,
    Value,
    Second,
    Ask,
    Again,
    Move,
}

/// The first word of a line that names a task, and a variable or a cell.
#[derive(Clone, Copy)]
pub(crate) enum VariableVerb {
    Read,
    First,
}

/// A line.
#[derive(Clone, Copy)]
pub(crate) enum RawMove<'a> {
    OfTask(TaskVerb, Count<'a>),
    OfVariable(VariableVerb, Count<'a>, &'a str),
    OfCell(VariableVerb, Count<'a>, &'a str, Count<'a>),
    Word,
}
