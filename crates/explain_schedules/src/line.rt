//! One line of a schedule: what it says, or where it stops being a line. Where `cells` is true it may name a cell.

ghost use Rattle.std.specs.Prelude.{◌≡◌, ◌≤◌, ◌+◌, ◌&&◌, Bool, IfOk, IfErr, IfSome, is_some, true, false, length};
ghost use Rattle.std.specs.Prelude.{◌++◌, ◌∷◌};
ghost use Rattle.text_line_reader.specs.ScheduleReading.{task_verb, variable_verb};
ghost use Rattle.text_line_reader.specs.Words.{is_bracketed};
ghost use Rattle.explain_schedules.specs.Words.{lacks, IsParted};
ghost use Rattle.explain_schedules.specs.Lines.{IsLine, StopsAt};

use text_line_reader::{Count, cell_in, is_bracketed, is_word, name_in, number_in, part};

/// What is wanted where a line stops being one.
#[derive(Clone, Copy, PartialEq, Eq)]
pub enum Wanted {
    /// A line: a verb with what belongs to it.
    Line,
    /// The number of a task, and then the end of the line.
    Task,
    /// The number of a task, and then the name of a variable or a cell.
    TaskAndVariable,
    /// The name of a variable or a cell, and then the end of the line.
    Variable,
    /// A newline, behind the last line.
    Newline,
}

/// A line.
#[derive(Clone, Copy)]
pub(crate) enum Line<'a> {
    /// The place of its task in it, and the task.
    OfTask(usize, Count<'a>),
    /// The place of its task and the task, the place of its variable and the name.
    OfVariable(usize, Count<'a>, usize, &'a str),
    /// The same of a cell, with the name of its table and its number there.
    OfCell(usize, Count<'a>, usize, &'a str, Count<'a>),
    Word,
}

/// The first word of a line that is none of a line's there.
#[derive(Clone, Copy)]
pub(crate) struct WrongWord {
    /// How many bytes of the line stand before it.
    pub at: usize,
    /// What is wanted there.
    pub wanted: Wanted,
}

/// Whether the word is one that a task alone stands behind.
#[tactic(auto, unfolding(text_line_reader::specs::ScheduleReading::task_verb))]
fn is_task_verb(word: &[u8]) -> bool
    ensures { result ≡ is_some (task_verb word.now) }
{
    if is_word(word, "begin") {
        true
    } else if is_word(word, "commit") {
        true
    } else if is_word(word, "drop") {
        true
    } else if is_word(word, "value") {
        true
    } else if is_word(word, "second") {
        true
    } else if is_word(word, "ask") {
        true
    } else if is_word(word, "again") {
        true
    } else {
        is_word(word, "move")
    }
}

/// Whether the word is one that a task, and a variable or a cell, stand behind.
#[tactic(auto, unfolding(text_line_reader::specs::ScheduleReading::variable_verb))]
fn is_variable_verb(word: &[u8]) -> bool
    ensures { result ≡ is_some (variable_verb word.now) }
{
    if is_word(word, "read") {
        true
    } else {
        is_word(word, "first")
    }
}

/// What stands before the first such byte, and what behind it.
pub(crate) fn split_once(bytes: &[u8], sep: u8) -> Option<(&[u8], &[u8])>
    ensures some { IfSome result (λ x. IsParted sep bytes.now x.0.now x.1.now) }
    ensures none { result ≡ None → lacks sep bytes.now ≡ true }
    ensures len { IfSome result (λ x. length x.0.now + (1 + length x.1.now) ≡ length bytes.now) }
{
    part(bytes, sep)
}

/// The line without a space.
fn alone(text: &[u8]) -> Result<Line<'_>, WrongWord>
    requires { lacks 32 text.now ≡ true }
    ensures line { (cells : Bool) → IfOk result (λ said. IsLine cells text.now said) }
    ensures stop { (cells : Bool) → IfErr result (λ wrong. StopsAt cells text.now wrong.at wrong.wanted) }
    ensures bound { IfErr result (λ wrong. wrong.at ≤ length text.now) }
{
    if is_word(text, "word") {
        Ok(Line::Word)
    } else {
        Err(WrongWord {
            at: 0,
            wanted: Wanted::Line,
        })
    }
}

/// The line of a verb and a task.
fn of_task<'a>(verb: &[u8], rest: &'a [u8]) -> Result<Line<'a>, WrongWord>
    requires spaceless { lacks 32 verb.now ≡ true }
    requires verb { is_some (task_verb verb.now) ≡ true }
    ensures line { (cells : Bool) → IfOk result (λ said. IsLine cells (verb.now ++ (32 ∷ rest.now)) said) }
    ensures stop { (cells : Bool) → IfErr result (λ wrong.
        StopsAt cells (verb.now ++ (32 ∷ rest.now)) wrong.at wrong.wanted) }
    ensures bound { IfErr result (λ wrong. wrong.at ≤ length verb.now + 1) }
{
    let at = verb.len() + 1;
    match number_in(rest) {
        Ok(task) => Ok(Line::OfTask(at, task)),
        Err(_) => Err(WrongWord {
            at,
            wanted: Wanted::Task,
        }),
    }
}

/// The line of a verb, a task, and a variable or a cell.
fn of_variable<'a>(verb: &[u8], rest: &'a [u8], cells: bool) -> Result<Line<'a>, WrongWord>
    requires spaceless { lacks 32 verb.now ≡ true }
    requires verb { is_some (variable_verb verb.now) ≡ true }
    requires other { is_some (task_verb verb.now) ≡ false }
    requires room { length verb.now + (1 + length rest.now) ≤ usize.MAX }
    ensures line { IfOk result (λ said. IsLine cells (verb.now ++ (32 ∷ rest.now)) said) }
    ensures stop { IfErr result (λ wrong. StopsAt cells (verb.now ++ (32 ∷ rest.now)) wrong.at wrong.wanted) }
    ensures bound { IfErr result (λ wrong. wrong.at ≤ length verb.now + (1 + length rest.now)) }
{
    let at = verb.len() + 1;
    match split_once(rest, b' ') {
        Some((first, second)) => named(verb, at, first, second, cells),
        None => Err(WrongWord {
            at,
            wanted: Wanted::TaskAndVariable,
        }),
    }
}

/// Whether a word is read as a cell, and not as a variable.
fn is_cell(word: &[u8], cells: bool) -> bool
    ensures { result ≡ (cells && is_bracketed word.now) }
{
    cells && is_bracketed(word)
}

/// The line of a verb, at whose end this place is, and of what stands round the space behind it.
fn named<'a>(
    verb: &[u8],
    at: usize,
    first: &'a [u8],
    second: &'a [u8],
    cells: bool,
) -> Result<Line<'a>, WrongWord>
    requires spaceless { lacks 32 verb.now ≡ true }
    requires verb { is_some (variable_verb verb.now) ≡ true }
    requires other { is_some (task_verb verb.now) ≡ false }
    requires at { at ≡ length verb.now + 1 }
    requires first { lacks 32 first.now ≡ true }
    requires room { at + (length first.now + (1 + length second.now)) ≤ usize.MAX }
    ensures line { IfOk result (λ said. IsLine cells (verb.now ++ (32 ∷ (first.now ++ (32 ∷ second.now)))) said) }
    ensures stop { IfErr result (λ wrong.
        StopsAt cells (verb.now ++ (32 ∷ (first.now ++ (32 ∷ second.now)))) wrong.at wrong.wanted) }
    ensures bound { IfErr result (λ wrong. wrong.at ≤ at + (length first.now + 1)) }
{
    let Ok(task) = number_in(first) else {
        return Err(WrongWord {
            at,
            wanted: Wanted::TaskAndVariable,
        });
    };
    let name_at = at + (first.len() + 1);
    let wrong = WrongWord {
        at: name_at,
        wanted: Wanted::Variable,
    };
    if is_cell(second, cells) {
        match cell_in(second) {
            Ok((table, index)) => Ok(Line::OfCell(at, task, name_at, table, index)),
            Err(_) => Err(wrong),
        }
    } else {
        match name_in(second) {
            Ok(name) => Ok(Line::OfVariable(at, task, name_at, name)),
            Err(_) => Err(wrong),
        }
    }
}

/// The line of what stands round its first space.
fn of_verb<'a>(verb: &[u8], rest: &'a [u8], cells: bool) -> Result<Line<'a>, WrongWord>
    requires spaceless { lacks 32 verb.now ≡ true }
    requires room { length verb.now + (1 + length rest.now) ≤ usize.MAX }
    ensures line { IfOk result (λ said. IsLine cells (verb.now ++ (32 ∷ rest.now)) said) }
    ensures stop { IfErr result (λ wrong. StopsAt cells (verb.now ++ (32 ∷ rest.now)) wrong.at wrong.wanted) }
    ensures bound { IfErr result (λ wrong. wrong.at ≤ length verb.now + (1 + length rest.now)) }
{
    if is_task_verb(verb) {
        of_task(verb, rest)
    } else if is_variable_verb(verb) {
        of_variable(verb, rest, cells)
    } else {
        Err(WrongWord {
            at: 0,
            wanted: Wanted::Line,
        })
    }
}

/// What a line says, without its newline, or its first word that is none of a line's there.
pub(crate) fn line_of(text: &[u8], cells: bool) -> Result<Line<'_>, WrongWord>
    ensures line { IfOk result (λ said. IsLine cells text.now said) }
    ensures stop { IfErr result (λ wrong. StopsAt cells text.now wrong.at wrong.wanted) }
    ensures bound { IfErr result (λ wrong. wrong.at ≤ length text.now) }
{
    match split_once(text, b' ') {
        Some((verb, rest)) => of_verb(verb, rest, cells),
        None => alone(text),
    }
}
