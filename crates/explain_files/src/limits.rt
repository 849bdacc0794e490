//! Numbers, names and declarations that go over a limit.

ghost use Rattle.std.specs.Prelude.{◌≡◌, ◌+◌, None, [], IfSome, IfNone};
ghost use Rattle.text_words.specs.TokenView.{view};
ghost use Rattle.text_words.specs.Tokens.{Name, Int, tokens};
ghost use Rattle.text_words.specs.Bytes.{int_value};
ghost use Rattle.text_words.specs.Numbers.{number_of, count_of};
ghost use Rattle.explain_files.specs.Roles.{form_of};
ghost use Rattle.explain_files.specs.Judging.{AllTokens, IsRight, IsFirstSaid, integers_in};
ghost use Rattle.explain_files.specs.Limiting.{too_long, value_fault, turns_fault, tasks_fault, length_fault, counted};
ghost use Rattle.explain_files.specs.Limiting.{many_with, limit_fault, limit_fault_at};
ghost use Rattle.explain_files.specs.Counting.{view_counts};

use crate::found::token_from;
use crate::names::integers_in;
use crate::roles::{form_of, role_behind};
use crate::wanted::{NameUse, NumberUse, Role};
use text_words::lexer::Token;
use text_words::numeral::Numeral;
use txn_programs::limits::{MAX_CELLS, MAX_TABLES};

/// Which limit is gone over.
#[derive(Clone, Copy, PartialEq, Eq)]
pub enum LimitFault {
    /// A number needs more than 64 signed bits.
    Number,
    /// A table has no cell, or more than 1,048,576.
    Length,
    /// A table has more than one initial value, and not one for each cell.
    Values,
    /// With this table there are more than 1,048,576 cells.
    AllCells,
    /// A repeat count is not one of 0 to 1000.
    Turns,
    /// A run count is not one of 0 to 65,536.
    Tasks,
    /// With this run there are more than 65,536 tasks.
    AllTasks,
    /// A declared name has more than 32 bytes.
    Name,
    /// This is the 257th variable.
    Variables,
    /// This is the 65th table.
    Tables,
    /// This is the 65th standing condition.
    Conditions,
    /// This is the 257th transaction.
    Transactions,
    /// This is the ninth parameter of its transaction.
    Parameters,
}

/// How many of each kind there were so far.
#[derive(Clone, Copy)]
struct Counts {
    variables: usize,
    tables: usize,
    /// Those of all tables.
    cells: u32,
    conditions: usize,
    transactions: usize,
    /// Those of the last transaction.
    parameters: usize,
    tasks: u32,
}

/// What is wrong with a number that is a value.
fn value_fault(number: Numeral<'_>) -> Option<LimitFault>
    ensures { result ≡ value_fault (number_of (int_value number.entry.text.now)) }
{
    match number.number() {
        Ok(_) => None,
        Err(_) => Some(LimitFault::Number),
    }
}

/// What is wrong with a number of turns.
fn turns_fault(number: Numeral<'_>) -> Option<LimitFault>
    ensures { result ≡ turns_fault (count_of (int_value number.entry.text.now)) }
{
    match number.count() {
        Ok(turns) if turns <= 1000 => None,
        _ => Some(LimitFault::Turns),
    }
}

/// What is wrong with a number of tasks, which are counted where nothing is.
fn tasks_fault(all: &mut u32, number: Numeral<'_>) -> Option<LimitFault>
    ensures fault { result ≡ tasks_fault all.old (count_of (int_value number.entry.text.now)) }
    ensures all { result ≡ None → all.new ≡ all.old + counted (count_of (int_value number.entry.text.now)) }
{
    let Ok(tasks) = number.count() else {
        return Some(LimitFault::Tasks);
    };
    if tasks > 65536 {
        return Some(LimitFault::Tasks);
    }
    match all.checked_add(tasks) {
        Some(sum) if sum <= 65536 => {
            *all = sum;
            None
        }
        _ => Some(LimitFault::AllTasks),
    }
}

/// What is wrong with the length of a table with so many values, whose cells are counted where nothing is.
fn length_fault(all: &mut u32, number: Numeral<'_>, values: usize) -> Option<LimitFault>
    ensures fault { result ≡ length_fault all.old (count_of (int_value number.entry.text.now)) values }
    ensures all { result ≡ None → all.new ≡ all.old + counted (count_of (int_value number.entry.text.now)) }
{
    let Ok(length) = number.count() else {
        return Some(LimitFault::Length);
    };
    if length == 0 || length as usize > MAX_CELLS {
        return Some(LimitFault::Length);
    }
    if values != 1 && values != length as usize {
        return Some(LimitFault::Values);
    }
    match all.checked_add(length) {
        Some(sum) if sum as usize <= MAX_CELLS => {
            *all = sum;
            None
        }
        _ => Some(LimitFault::AllCells),
    }
}

/// What is wrong with a name that declares something.
fn name_fault(name: &str) -> Option<LimitFault>
    ensures { result ≡ too_long name.now }
{
    if name.len() > 32 {
        return Some(LimitFault::Name);
    }
    None
}

/// What is wrong with a name that is used so, which is counted where it declares something.
fn declared_fault(counts: &mut Counts, used: NameUse, name: &str) -> Option<LimitFault>
    ensures fault { result ≡ limit_fault (view_counts counts.old) (Role.Name used) (Name name.now) [] }
    ensures counts { result ≡ None
        → view_counts counts.new ≡ many_with (view_counts counts.old) (Role.Name used) (Name name.now) }
{
    match used {
        NameUse::Variable => {
            if counts.variables >= 256 {
                return Some(LimitFault::Variables);
            }
            counts.variables += 1;
        }
        NameUse::Table => {
            if counts.tables >= MAX_TABLES {
                return Some(LimitFault::Tables);
            }
            counts.tables += 1;
        }
        NameUse::Condition => {
            if counts.conditions >= 64 {
                return Some(LimitFault::Conditions);
            }
            counts.conditions += 1;
        }
        NameUse::Transaction => {
            if counts.transactions >= 256 {
                return Some(LimitFault::Transactions);
            }
            counts.transactions += 1;
            counts.parameters = 0;
        }
        NameUse::Parameter => {
            if counts.parameters >= 8 {
                return Some(LimitFault::Parameters);
            }
            counts.parameters += 1;
        }
        NameUse::Target | NameUse::Cells | NameUse::Called => return None,
    }
    name_fault(name)
}

/// What is wrong with a number that is used so, where this stands behind it. Cells and tasks are counted.
fn number_fault(
    counts: &mut Counts,
    used: NumberUse,
    number: Numeral<'_>,
    behind: &[u8],
) -> Option<LimitFault>
    ensures fault { result ≡ limit_fault (view_counts counts.old) (Role.Number used)
        (Int (int_value number.entry.text.now)) (tokens behind.now) }
    ensures counts { result ≡ None
        → view_counts counts.new
        ≡ many_with (view_counts counts.old) (Role.Number used) (Int (int_value number.entry.text.now)) }
{
    match used {
        NumberUse::Initial | NumberUse::Cell | NumberUse::Argument => value_fault(number),
        NumberUse::Length => length_fault(&mut counts.cells, number, integers_in(behind)),
        NumberUse::Turns => turns_fault(number),
        NumberUse::Tasks => tasks_fault(&mut counts.tasks, number),
    }
}

/// What is wrong with a token that is for this, where this stands behind it.
fn judged(counts: &mut Counts, role: Role, token: Token<'_>, behind: &[u8]) -> Option<LimitFault>
    ensures fault { result ≡ limit_fault (view_counts counts.old) role (view token.entry) (tokens behind.now) }
    ensures counts { result ≡ None
        → view_counts counts.new ≡ many_with (view_counts counts.old) role (view token.entry) }
{
    match (role, token) {
        (Role::Name(used), Token::Name(name)) => declared_fault(counts, used, name),
        (Role::Number(used), Token::Int(number)) => number_fault(counts, used, number, behind),
        (Role::Value, Token::Int(number)) => value_fault(number),
        _ => None,
    }
}

/// What goes over a limit, and its place.
#[derive(Clone, Copy)]
pub(crate) struct Excess {
    pub place: usize,
    pub fault: LimitFault,
}

/// The first name or number from the left that goes over a limit.
pub(crate) fn first_excess(bytes: &[u8]) -> Option<Excess>
    ensures some { IfSome result
        (λ w. IsFirstSaid (limit_fault_at (form_of (tokens bytes.now))) bytes.now w.place w.fault) }
    ensures none { IfNone result (AllTokens (IsRight (limit_fault_at (form_of (tokens bytes.now)))) bytes.now) }
{
    let form = form_of(bytes);
    let mut counts = Counts {
        variables: 0,
        tables: 0,
        cells: 0,
        conditions: 0,
        transactions: 0,
        parameters: 0,
        tasks: 0,
    };
    let mut role = Role::Value;
    let mut at = 0;
    'tokens: while let Some(found) = token_from(bytes, at) {
        if let Some(fault) = judged(&mut counts, role, found.token, &bytes[found.next..]) {
            return Some(Excess {
                place: found.place,
                fault,
            });
        }
        role = role_behind(form, role, found.token);
        at = found.next;
    }
    None
}
