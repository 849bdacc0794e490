//! Declarations that cost too much or are not true, and where their names stand.

ghost use Rattle.std.specs.Prelude.{◌≡◌, ◌<◌, ◌≤◌, ◌+◌, true, false, Some, Ok, IfOk, IfSome, IfNone, length, map, take};
ghost use Rattle.std.specs.List.{list_all};
ghost use Rattle.txn_programs.specs.Tree.{condition_of, transaction_of};
ghost use Rattle.txn_programs.specs.Meaning.{truth};
ghost use Rattle.txn_programs.specs.Limits.{conditions_fit};
ghost use Rattle.txn_programs.specs.Scope.{ConditionKnown, ConditionsKnown};
ghost use Rattle.txn_programs.specs.Standing.{is_true};
ghost use Rattle.txn_evaluator.specs.Always.{conditions_of};
ghost use Rattle.txn_declarations.specs.Beside.{fits_beside};
ghost use Rattle.text_words.specs.TokenView.{view};
ghost use Rattle.text_words.specs.Tokens.{Name, tokens};
ghost use Rattle.text_words.specs.Answers.{Gives};
ghost use Rattle.text_words.specs.declared.fault.ReadFault.TheVariants.{Limit, Broken};
ghost use Rattle.text_grammar.specs.Spelling.{first_fault};
ghost use Rattle.text_file_reader.specs.Faults.{IsFirst};
ghost use Rattle.text_resolver.specs.Parts.{view_condition, view_parts};
ghost use Rattle.explain_files.specs.Roles.{form_of};
ghost use Rattle.explain_files.specs.Judging.{AllTokens, IsRight};
ghost use Rattle.explain_files.specs.Limiting.{limit_fault_at};
ghost use Rattle.explain_files.specs.Declarations.{IsListed, DoesNotDeclare, IsDeclared, IsOver, IsOverBeside};
ghost use Rattle.explain_files.specs.Declarations.{IsCostly, CostsHold, IsUntrue, IsFalse, IsCostlyAt, IsFalseAt};
ghost use Rattle.explain_files.specs.Declarations.{declared_by};

use crate::found::token_from;
use crate::roles::{form_of, role_behind};
use crate::wanted::{NameUse, Role};
use std::alloc::{AllocError, Global};
use text_parser::file::tree_of;
use text_resolver::resolve::{Parts, resolve};
use text_words::ReadFault;
use text_words::lexer::Token;
use txn::Memory;
use txn::build::add_cells;
use txn_declarations::limits::{always_cost, transactions_fit};
use txn_evaluator::evaluate::standing_truth;
use txn_programs::limits::MAX_COST;
use txn_programs::{Cond, Tx};

/// Whether the token is this name, and declares something of this kind.
fn declares(role: Role, token: Token<'_>, used: NameUse, name: &str) -> bool
    ensures is { result ≡ true → (role ≡ Role.Name used) × (view token.entry ≡ Name name.now) }
    ensures not { result ≡ false → role ≡ Role.Name used → view token.entry ≡ Name name.now → ⊥ }
{
    match (role, token) {
        (Role::Name(declared), Token::Name(text)) => declared == used && text == name,
        _ => false,
    }
}

/// The place of the first name that declares this.
fn declaration_place(bytes: &[u8], used: NameUse, name: &str) -> Option<usize>
    ensures some { IfSome result (λ place. IsDeclared bytes.now place used name.now) }
    ensures none { IfNone result
        (AllTokens (DoesNotDeclare (form_of (tokens bytes.now)) used name.now) bytes.now) }
{
    let form = form_of(bytes);
    let mut role = Role::Value;
    let mut at = 0;
    'tokens: while let Some(found) = token_from(bytes, at) {
        if declares(role, found.token, used, name) {
            return Some(found.place);
        }
        role = role_behind(form, role, found.token);
        at = found.next;
    }
    None
}

/// What the bytes declare, or their first fault of form, of a name or of a number.
#[tactic(auto, using(text_words::proofs::Many::failed))]
fn listed(alloc: Global, bytes: &[u8]) -> Result<Parts, ReadFault>
    ensures { Gives view_parts result (declared_by bytes.now) }
{
    match tree_of(alloc, bytes) {
        Ok(file) => resolve(alloc, file),
        Err(fault) => Err(fault),
    }
}

/// What bytes declare that declare something.
#[tactic(auto, using(crate::proofs::Placing::only_memory))]
fn parts_of(alloc: Global, bytes: &[u8]) -> Result<Parts, Memory>
    requires { IsListed bytes.now }
    ensures { IfOk result (λ parts. declared_by bytes.now ≡ Ok (view_parts parts)) }
{
    match listed(alloc, bytes) {
        Ok(parts) => Ok(parts),
        Err(ReadFault::Memory) => Err(Memory),
        Err(_) => unreachable!(),
    }
}

/// Whether the conditions up to the one of this number are within the limits.
#[tactic(auto, using(crate::proofs::Costly::not_fit))]
fn fit_up_to(always: &[(String, Cond)], number: usize) -> bool
    requires { number < length always.now }
    ensures { result ≡ conditions_fit (map (λ a. condition_of a.1) (take (number + 1) always.now)) }
{
    match always_cost(&always[..number + 1]) {
        Some(_) => true,
        None => false,
    }
}

/// The name of the first condition with which those up to it are over the limits.
fn costly_condition(always: &[(String, Cond)]) -> &str
    requires { conditions_fit (map (λ a. condition_of a.1) always.now) ≡ false }
    ensures { IsOver (map view_condition always.now) result.now }
{
    'conditions: for number in 0..always.len() {
        if !fit_up_to(always, number) {
            return always[number].0.as_str();
        }
    }
    unreachable!()
}

/// Whether a transaction is within the limits, beside standing conditions of this cost.
fn fits(tx: &Tx, always: u32) -> bool
    requires { always ≤ MAX_COST }
    ensures { result ≡ fits_beside always (transaction_of tx.now) }
{
    transactions_fit(std::slice::from_ref(tx), always)
}

/// The name of the first transaction that is over the limits, beside standing conditions of this cost.
fn costly_transaction(txs: &[Tx], always: u32) -> Option<&str>
    requires { always ≤ MAX_COST }
    ensures some { IfSome result (λ name. IsOverBeside always (map transaction_of txs.now) name.now) }
    ensures none { IfNone result (list_all (fits_beside always) (map transaction_of txs.now) ≡ true) }
{
    'transactions: for number in 0..txs.len() {
        if !fits(&txs[number], always) {
            return Some(txs[number].name.as_str());
        }
    }
    None
}

/// The first declaration that is over the limits, the standing conditions before the transactions.
fn costly(parts: &Parts) -> Option<(NameUse, &str)>
    ensures some { IfSome result (λ found. IsCostly (view_parts parts.now) found.0 found.1.now) }
    ensures none { IfNone result (CostsHold (view_parts parts.now)) }
{
    match always_cost(&parts.always) {
        Some(cost) => match costly_transaction(&parts.txs, cost) {
            Some(name) => Some((NameUse::Transaction, name)),
            None => None,
        },
        None => Some((NameUse::Condition, costly_condition(&parts.always))),
    }
}

/// The place of the name of the first declaration that is over the limits, where no name and no number is.
pub(crate) fn costly_place(alloc: Global, bytes: &[u8]) -> Result<usize, Memory>
    requires fault { first_fault bytes.now ≡ Some Limit }
    requires right { AllTokens (IsRight (limit_fault_at (form_of (tokens bytes.now)))) bytes.now }
    ensures { IfOk result (IsCostlyAt bytes.now) }
{
    let parts = parts_of(alloc, bytes)?;
    match costly(&parts) {
        Some((used, name)) => match declaration_place(bytes, used, name) {
            Some(place) => Ok(place),
            None => unreachable!(),
        },
        None => unreachable!(),
    }
}

/// Whether a condition is true of these values.
fn holds(condition: &Cond, state: &[i64]) -> bool
    requires { ConditionKnown (length state.now) (condition_of condition.now) }
    ensures { result ≡ is_true (truth (condition_of condition.now) state.now) }
{
    match standing_truth(condition, state) {
        Ok(is_true) => is_true,
        Err(_) => false,
    }
}

/// The name of the first condition that is not true of these values.
fn first_untrue<'a>(always: &'a [(String, Cond)], state: &[i64]) -> &'a str
    requires known { ConditionsKnown (length state.now) (conditions_of always.now) }
    requires untrue { list_all (λ a. is_true (truth a.1 state.now)) (map view_condition always.now) ≡ false }
    ensures { IsFalse (map view_condition always.now) state.now result.now }
{
    'conditions: for number in 0..always.len() {
        if !holds(&always[number].1, state) {
            return always[number].0.as_str();
        }
    }
    unreachable!()
}

/// The initial values of the variables.
fn values_of(alloc: Global, vars: &[(String, i64)]) -> Result<Vec<i64>, AllocError>
    ensures { IfOk result (λ values. values.items ≡ map (λ v. v.1) vars.now) }
{
    vars.iter().map(|v| v.1).collect(alloc)
}

/// The initial values of the variables, and behind them those of the cells.
fn initial_values(alloc: Global, parts: &Parts) -> Result<Vec<i64>, AllocError>
    ensures { IfOk result (λ values. values.items ≡ (view_parts parts.now).initial) }
{
    let mut values = values_of(alloc, &parts.vars)?;
    add_cells(&mut values, &parts.tables)?;
    Ok(values)
}

/// The name of the first standing condition that is not true of the initial values.
fn untrue(alloc: Global, parts: &Parts) -> Result<&str, Memory>
    requires { IsUntrue (view_parts parts.now) }
    ensures { IfOk result (λ name. IsFalse (view_parts parts.now).always (view_parts parts.now).initial name.now) }
{
    let state = initial_values(alloc, parts)?;
    Ok(first_untrue(&parts.always, state.as_slice()))
}

/// The place of the name of the first standing condition that is not true of the initial values.
pub(crate) fn untrue_place(alloc: Global, bytes: &[u8]) -> Result<usize, Memory>
    requires { IsFirst bytes.now Broken }
    ensures { IfOk result (IsFalseAt bytes.now) }
{
    let parts = parts_of(alloc, bytes)?;
    let name = untrue(alloc, &parts)?;
    match declaration_place(bytes, NameUse::Condition, name) {
        Some(place) => Ok(place),
        None => unreachable!(),
    }
}
