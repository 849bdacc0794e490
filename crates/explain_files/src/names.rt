//! Names that are declared twice or not at all, and runs with another number of arguments than parameters.

ghost use Rattle.std.specs.Prelude.{◌≡◌, Some, None, false, if◌then◌else◌, IfOk, IfSome, IfNone, ◌++◌, ◌∷◌, []};
ghost use Rattle.text_words.specs.Tokens.{Name, tokens};
ghost use Rattle.text_words.specs.TokenView.{view};
ghost use Rattle.explain_files.specs.Roles.{form_of};
ghost use Rattle.explain_files.specs.Judging.{AllTokens, IsRight, IsFirstSaid, names_in, is_among, with_last};
ghost use Rattle.explain_files.specs.Judging.{with_token};
ghost use Rattle.explain_files.specs.Judging.{target_fault, cells_fault, value_fault, arity_of, integers_in};
ghost use Rattle.explain_files.specs.Judging.{given_in, run_fault};
ghost use Rattle.explain_files.specs.Judging.{name_fault, name_fault_for, name_fault_at};
ghost use Rattle.explain_files.specs.Declaring.{texts, view_declared};

use crate::found::token_from;
use crate::roles::{form_of, role_behind};
use crate::wanted::{NameUse, Role};
use indexmap::IndexSet;
use std::alloc::Global;
use text_grammar::file::FileForm;
use text_words::lexer::{Token, next_token};
use txn::Memory;

/// What is wrong with a name.
#[derive(Clone, Copy, PartialEq, Eq)]
pub enum NameFault {
    /// This declares it a second time.
    Twice(NameUse),
    /// It declares a parameter, and a variable has it.
    OfVariable,
    /// No variable has it.
    NoVariable,
    /// No table has it.
    NoTable,
    /// Neither a variable nor a parameter of the transaction has it.
    NoValue,
    /// It is to be set, and is a parameter.
    IsParameter,
    /// No transaction has it.
    NoTransaction,
    /// The transaction to run wants another number of arguments than are given.
    Arguments { wanted: usize, given: usize },
}

/// The names that were declared so far.
#[derive(Drop)]
struct Declared<'a> {
    variables: IndexSet<&'a str>,
    tables: IndexSet<&'a str>,
    conditions: IndexSet<&'a str>,
    transactions: IndexSet<&'a str>,
    /// How many parameters each transaction has.
    arities: Vec<usize>,
    /// The parameters of the last one.
    parameters: IndexSet<&'a str>,
}

/// Whether the name is among these.
#[tactic(auto, using(crate::proofs::Keys::any_texts))]
fn is_among(names: &IndexSet<&str>, name: &str) -> bool
    ensures { result ≡ is_among name.now (texts names.now.keys) }
{
    names.contains(&name)
}

/// Whether the name was there before; it is there afterwards.
fn is_again<'a>(names: &mut IndexSet<&'a str>, name: &'a str) -> Result<bool, Memory>
    ensures again { IfOk result (λ again. again ≡ is_among name.now (texts names.old.keys)) }
    ensures names { IfOk result (λ again. again ≡ false
        → texts names.new.keys ≡ texts names.old.keys ++ name.now ∷ []) }
{
    match names.insert(name) {
        Ok(added) => Ok(!added),
        Err(_) => Err(Memory),
    }
}

/// The fault of a name that declares such a one: it was there before. It is there afterwards.
fn twice<'a>(
    names: &mut IndexSet<&'a str>,
    used: NameUse,
    name: &'a str,
) -> Result<Option<NameFault>, Memory>
    ensures fault { IfOk result
        (λ fault. fault ≡ if is_among name.now (texts names.old.keys) then Some (NameFault.Twice used) else None) }
    ensures names { IfOk result (λ fault. fault ≡ None
        → texts names.new.keys ≡ texts names.old.keys ++ name.now ∷ []) }
{
    if is_again(names, name)? {
        Ok(Some(NameFault::Twice(used)))
    } else {
        Ok(None)
    }
}

/// What is wrong with the name of a transaction, which has no parameters yet.
fn transaction_fault<'a>(
    declared: &mut Declared<'a>,
    name: &'a str,
) -> Result<Option<NameFault>, Memory>
    ensures fault { IfOk result (λ fault. fault
        ≡ name_fault (view_declared declared.old) (Role.Name NameUse.Transaction) name.now []) }
    ensures names { IfOk result (λ fault. fault ≡ None
        → view_declared declared.new
        ≡ with_token (view_declared declared.old) (Role.Name NameUse.Transaction) (Name name.now)) }
{
    let fault = twice(&mut declared.transactions, NameUse::Transaction, name)?;
    if fault.is_none() {
        declared.arities.push(0)?;
        declared.parameters.clear();
    }
    Ok(fault)
}

/// The last number is this one now.
fn set_last(numbers: &mut Vec<usize>, last: usize) -> Result<(), Memory>
    ensures { IfOk result (λ done. numbers.new.items ≡ with_last numbers.old.items last) }
{
    let before = numbers.len().saturating_sub(1);
    numbers.truncate(before);
    numbers.push(last)?;
    Ok(())
}

/// What is wrong with the name of a parameter of the last transaction.
fn parameter_fault<'a>(
    declared: &mut Declared<'a>,
    name: &'a str,
) -> Result<Option<NameFault>, Memory>
    ensures fault { IfOk result (λ fault. fault
        ≡ name_fault (view_declared declared.old) (Role.Name NameUse.Parameter) name.now []) }
    ensures names { IfOk result (λ fault. fault ≡ None
        → view_declared declared.new
        ≡ with_token (view_declared declared.old) (Role.Name NameUse.Parameter) (Name name.now)) }
{
    if is_among(&declared.variables, name) {
        return Ok(Some(NameFault::OfVariable));
    }
    let fault = twice(&mut declared.parameters, NameUse::Parameter, name)?;
    if fault.is_none() {
        set_last(&mut declared.arities, declared.parameters.len())?;
    }
    Ok(fault)
}

/// What is wrong with what is set.
fn target_fault(declared: &Declared<'_>, name: &str) -> Option<NameFault>
    ensures { result ≡ target_fault (view_declared declared.now) name.now }
{
    if is_among(&declared.variables, name) {
        None
    } else if is_among(&declared.parameters, name) {
        Some(NameFault::IsParameter)
    } else {
        Some(NameFault::NoVariable)
    }
}

/// What is wrong with a table of which cells are read or put.
fn cells_fault(declared: &Declared<'_>, name: &str) -> Option<NameFault>
    ensures { result ≡ cells_fault (view_declared declared.now) name.now }
{
    if is_among(&declared.tables, name) {
        None
    } else {
        Some(NameFault::NoTable)
    }
}

/// What is wrong with a name in an expression.
fn value_fault(declared: &Declared<'_>, name: &str) -> Option<NameFault>
    ensures { result ≡ value_fault (view_declared declared.now) name.now }
{
    if is_among(&declared.parameters, name) || is_among(&declared.variables, name) {
        None
    } else if declared.parameters.is_empty() {
        Some(NameFault::NoVariable)
    } else {
        Some(NameFault::NoValue)
    }
}

/// How many parameters the transaction of this name has, where there is one.
#[tactic(auto, using(crate::proofs::Keys::position_texts))]
fn arity_of(declared: &Declared<'_>, name: &str) -> Option<usize>
    ensures { result ≡ arity_of (view_declared declared.now) name.now }
{
    let place = declared.transactions.get_index_of(&name)?;
    match declared.arities.get(place) {
        Some(arity) => Some(*arity),
        None => Some(0),
    }
}

/// How many integers stand next.
pub(crate) fn integers_in(bytes: &[u8]) -> usize
    ensures { result ≡ integers_in (tokens bytes.now) }
{
    let mut count = 0;
    let mut rest = bytes;
    'integers: while let Some((Token::Int(_), after)) = next_token(rest) {
        count += 1;
        rest = after;
    }
    count
}

/// How many arguments a run gives, by what stands behind its name.
fn given_in(behind: &[u8]) -> usize
    ensures { result ≡ given_in (tokens behind.now) }
{
    integers_in(behind).saturating_sub(1)
}

/// What is wrong with what is run, where this stands behind its name.
fn run_fault(declared: &Declared<'_>, name: &str, behind: &[u8]) -> Option<NameFault>
    ensures { result ≡ run_fault (arity_of (view_declared declared.now) name.now) (given_in (tokens behind.now)) }
{
    let Some(wanted) = arity_of(declared, name) else {
        return Some(NameFault::NoTransaction);
    };
    let given = given_in(behind);
    if given == wanted {
        None
    } else {
        Some(NameFault::Arguments { wanted, given })
    }
}

/// What is wrong with a name that is for this, where this stands behind it.
fn judged<'a>(
    declared: &mut Declared<'a>,
    role: Role,
    name: &'a str,
    behind: &[u8],
) -> Result<Option<NameFault>, Memory>
    ensures fault { IfOk result
        (λ fault. fault ≡ name_fault (view_declared declared.old) role name.now (tokens behind.now)) }
    ensures names { IfOk result (λ fault. fault ≡ None
        → view_declared declared.new ≡ with_token (view_declared declared.old) role (Name name.now)) }
{
    match role {
        Role::Name(NameUse::Variable) => twice(&mut declared.variables, NameUse::Variable, name),
        Role::Name(NameUse::Table) => twice(&mut declared.tables, NameUse::Table, name),
        Role::Name(NameUse::Condition) => twice(&mut declared.conditions, NameUse::Condition, name),
        Role::Name(NameUse::Transaction) => transaction_fault(declared, name),
        Role::Name(NameUse::Parameter) => parameter_fault(declared, name),
        Role::Name(NameUse::Target) => Ok(target_fault(declared, name)),
        Role::Name(NameUse::Cells) => Ok(cells_fault(declared, name)),
        Role::Name(NameUse::Called) => Ok(run_fault(declared, name, behind)),
        Role::Value => Ok(value_fault(declared, name)),
        Role::Word | Role::List | Role::Number(_) => Ok(None),
    }
}

/// A name that is wrong, and its place.
#[derive(Clone, Copy)]
pub(crate) struct WrongName {
    pub place: usize,
    pub fault: NameFault,
}

/// What is wrong with a token that is for this, where this stands behind it.
fn judged_token<'a>(
    declared: &mut Declared<'a>,
    role: Role,
    token: Token<'a>,
    behind: &[u8],
) -> Result<Option<NameFault>, Memory>
    ensures fault { IfOk result
        (λ fault. fault ≡ name_fault_for (view_declared declared.old) role (view token.entry) (tokens behind.now)) }
    ensures names { IfOk result (λ fault. fault ≡ None
        → view_declared declared.new ≡ with_token (view_declared declared.old) role (view token.entry)) }
{
    match token {
        Token::Name(name) => judged(declared, role, name, behind),
        _ => Ok(None),
    }
}

/// The first name from the left that is declared a second time, or used and not declared, or run with
/// another number of arguments than its transaction has parameters.
pub(crate) fn wrong_name(alloc: Global, bytes: &[u8]) -> Result<Option<WrongName>, Memory>
    ensures some { IfOk result (λ found. IfSome found
        (λ w. IsFirstSaid (name_fault_at (form_of (tokens bytes.now))) bytes.now w.place w.fault)) }
    ensures none { IfOk result (λ found. IfNone found
        (AllTokens (IsRight (name_fault_at (form_of (tokens bytes.now)))) bytes.now)) }
{
    let mut declared = Declared {
        variables: IndexSet::new(alloc),
        tables: IndexSet::new(alloc),
        conditions: IndexSet::new(alloc),
        transactions: IndexSet::new(alloc),
        arities: Vec::new(alloc),
        parameters: IndexSet::new(alloc),
    };
    first_wrong(bytes, form_of(bytes), &mut declared)
}

/// The first such name of a file of this form, where nothing is declared yet.
fn first_wrong<'a>(
    bytes: &'a [u8],
    form: FileForm,
    declared: &mut Declared<'a>,
) -> Result<Option<WrongName>, Memory>
    requires { view_declared declared.old ≡ names_in form [] }
    ensures some { IfOk result (λ found. IfSome found
        (λ w. IsFirstSaid (name_fault_at form) bytes.now w.place w.fault)) }
    ensures none { IfOk result (λ found. IfNone found (AllTokens (IsRight (name_fault_at form)) bytes.now)) }
{
    let mut role = Role::Value;
    let mut at = 0;
    'tokens: while let Some(found) = token_from(bytes, at) {
        if let Some(fault) = judged_token(declared, role, found.token, &bytes[found.next..])? {
            return Ok(Some(WrongName {
                place: found.place,
                fault,
            }));
        }
        role = role_behind(form, role, found.token);
        at = found.next;
    }
    Ok(None)
}
