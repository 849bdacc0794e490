//! A report as it is written, before any name or number is judged.

use crate::Count;
use text_words::numeral::Numeral;

/// The line of a variable.
#[derive(Clone, Copy)]
pub(crate) struct RawVariable<'a> {
    pub(crate) name: &'a str,
    pub(crate) value: Numeral<'a>,
    pub(crate) version: Count<'a>,
}

/// The line of a cell.
#[derive(Clone, Copy)]
pub(crate) struct RawCell<'a> {
    pub(crate) table: &'a str,
    pub(crate) index: Count<'a>,
    pub(crate) value: Numeral<'a>,
    pub(crate) version: Count<'a>,
}

/// How an entry's transaction ended.
#[derive(Clone, Copy)]
pub(crate) enum RawEnding<'a> {
    Returned(Numeral<'a>),
    Threw(Numeral<'a>),
    Overflow,
    DivideByZero,
    Outside,
    Broke(&'a str),
}

/// The line of an entry.
#[derive(Clone, Copy)]
pub(crate) struct RawEntry<'a> {
    pub(crate) number: Count<'a>,
    pub(crate) task: Count<'a>,
    pub(crate) name: &'a str,
    pub(crate) ending: RawEnding<'a>,
}

/// The line of a task that is parked, or that was given up.
#[derive(Clone, Copy)]
pub(crate) struct RawTask<'a> {
    pub(crate) task: Count<'a>,
    pub(crate) name: &'a str,
}

/// All lines.
#[derive(Drop)]
pub(crate) struct RawReport<'a> {
    pub(crate) base: Count<'a>,
    pub(crate) base_vars: Vec<RawVariable<'a>>,
    pub(crate) base_cells: Vec<RawCell<'a>>,
    pub(crate) entries: Vec<RawEntry<'a>>,
    pub(crate) now: Count<'a>,
    pub(crate) now_vars: Vec<RawVariable<'a>>,
    pub(crate) now_cells: Vec<RawCell<'a>>,
    pub(crate) parked: Vec<RawTask<'a>>,
    pub(crate) memory: Vec<RawTask<'a>>,
}
