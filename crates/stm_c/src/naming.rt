//! What a program declares, by numbers: the names of its variables, tables, standing conditions, transactions and
//! parameters, each copied into the room that the host lends.

ghost use Rattle.std.specs.Prelude.{◌≡◌, None, length, option_map, slice_get};
ghost use Rattle.txn_programs.specs.Listing.{always_names};
ghost use Rattle.stm_c.specs.Held.{Asked};
ghost use Rattle.stm_c.specs.Named.{IsCondition};
ghost use Rattle.stm_c.specs.Names.{IsNameTold, parameters_of, table_name, transaction_names};

use crate::codes::{EMPTY, UNKNOWN};
use crate::program_handle::ProgramHandle;
use crate::writing::copy;
use txn::{AlwaysId, Catalogue, TxId, VarId};

/// How many standing conditions the program has, numbered from 0 as declared. 0 of an empty handle.
#[unsafe(no_mangle)]
pub extern "C" fn stm_program_conditions(program: &ProgramHandle) -> usize
    ensures value { Asked program.now.value 0 result (λ p n. n ≡ length p.catalogue.now.always) }
{
    match program.get() {
        Some(program) => program.catalogue().always().len(),
        None => 0,
    }
}

/// The number of the standing condition of this name, or -9. -12: the handle is empty.
#[unsafe(no_mangle)]
pub extern "C" fn stm_program_condition(program: &ProgramHandle, name: &[u8]) -> i64
    ensures found { Asked program.now.value EMPTY result (λ p n. IsCondition p.catalogue.now name.now n) }
{
    match program.get() {
        Some(program) => condition(program.catalogue(), name),
        None => i64::from(EMPTY),
    }
}

fn condition(catalogue: &Catalogue, name: &[u8]) -> i64
    ensures { IsCondition catalogue.now name.now result }
{
    let Ok(name) = str::from_utf8(name) else {
        return i64::from(UNKNOWN);
    };
    match catalogue.always_id(name) {
        Some(id) => i64::from(id.0),
        None => i64::from(UNKNOWN),
    }
}

/// Copies what is found to the begin of the room, where it fits; `wanted` is how long it is, 0 where nothing is found.
fn told(name: Option<&str>, room: &mut [u8], wanted: &mut usize) -> i32
    ensures { IsNameTold (option_map (λ s. s.now) name.entry) room.old room.new wanted.new result }
{
    match name {
        Some(name) => copy(name.as_bytes(), room, wanted),
        None => {
            *wanted = 0;
            UNKNOWN
        }
    }
}

/// What is answered of an empty handle.
fn told_of_none(wanted: &mut usize) -> i32
    ensures told { result ≡ EMPTY }
    ensures none { wanted.new ≡ 0 }
{
    *wanted = 0;
    EMPTY
}

/// Copies the name of the variable of this number into the room: 0. -8: the room is too short, and `wanted` is how
/// much is needed. -9: there is none. -12: the handle is empty.
#[unsafe(no_mangle)]
pub extern "C" fn stm_program_variable_name(
    program: &ProgramHandle,
    variable: u32,
    room: &mut [u8],
    wanted: &mut usize,
) -> i32
    ensures told { Asked program.now.value EMPTY result
        (λ p n. IsNameTold (slice_get p.catalogue.now.names variable) room.old room.new wanted.new n) }
    ensures none { program.now.value ≡ None → (wanted.new ≡ 0) × (room.new ≡ room.old) }
{
    match program.get() {
        Some(program) => told(variable_name(program.catalogue(), variable), room, wanted),
        None => told_of_none(wanted),
    }
}

fn variable_name(catalogue: &Catalogue, variable: u32) -> Option<&str>
    ensures { option_map (λ s. s.now) result ≡ slice_get catalogue.now.names variable }
{
    if variable as usize >= catalogue.var_count() {
        return None;
    }
    Some(catalogue.var_name(VarId(variable)))
}

/// Copies the name of the table at this place into the room: 0. -8: the room is too short, and `wanted` is how
/// much is needed. -9: there is none. -12: the handle is empty.
#[unsafe(no_mangle)]
pub extern "C" fn stm_program_table_name(
    program: &ProgramHandle,
    table: u32,
    room: &mut [u8],
    wanted: &mut usize,
) -> i32
    ensures told { Asked program.now.value EMPTY result
        (λ p n. IsNameTold (table_name p.catalogue.now table) room.old room.new wanted.new n) }
    ensures none { program.now.value ≡ None → (wanted.new ≡ 0) × (room.new ≡ room.old) }
{
    match program.get() {
        Some(program) => told(table_name(program.catalogue(), table), room, wanted),
        None => told_of_none(wanted),
    }
}

fn table_name(catalogue: &Catalogue, table: u32) -> Option<&str>
    ensures { option_map (λ s. s.now) result ≡ table_name catalogue.now table }
{
    match catalogue.tables().get(table as usize) {
        Some((name, _)) => Some(name.as_str()),
        None => None,
    }
}

/// Copies the name of the standing condition of this number into the room: 0. -8: the room is too short, and `wanted`
/// is how much is needed. -9: there is none. -12: the handle is empty.
#[unsafe(no_mangle)]
pub extern "C" fn stm_program_condition_name(
    program: &ProgramHandle,
    condition: u32,
    room: &mut [u8],
    wanted: &mut usize,
) -> i32
    ensures told { Asked program.now.value EMPTY result
        (λ p n. IsNameTold (slice_get (always_names p.catalogue.now) condition) room.old room.new wanted.new n) }
    ensures none { program.now.value ≡ None → (wanted.new ≡ 0) × (room.new ≡ room.old) }
{
    match program.get() {
        Some(program) => told(condition_name(program.catalogue(), condition), room, wanted),
        None => told_of_none(wanted),
    }
}

fn condition_name(catalogue: &Catalogue, condition: u32) -> Option<&str>
    ensures { option_map (λ s. s.now) result ≡ slice_get (always_names catalogue.now) condition }
{
    if condition as usize >= catalogue.always().len() {
        return None;
    }
    Some(catalogue.always_name(AlwaysId(condition)))
}

/// Copies the name of the transaction of this number into the room: 0. -8: the room is too short, and `wanted` is how
/// much is needed. -9: there is none. -12: the handle is empty.
#[unsafe(no_mangle)]
pub extern "C" fn stm_program_transaction_name(
    program: &ProgramHandle,
    tx: u32,
    room: &mut [u8],
    wanted: &mut usize,
) -> i32
    ensures told { Asked program.now.value EMPTY result
        (λ p n. IsNameTold (slice_get (transaction_names p.catalogue.now) tx) room.old room.new wanted.new n) }
    ensures none { program.now.value ≡ None → (wanted.new ≡ 0) × (room.new ≡ room.old) }
{
    match program.get() {
        Some(program) => told(transaction_name(program.catalogue(), tx), room, wanted),
        None => told_of_none(wanted),
    }
}

fn transaction_name(catalogue: &Catalogue, tx: u32) -> Option<&str>
    ensures { option_map (λ s. s.now) result ≡ slice_get (transaction_names catalogue.now) tx }
{
    if tx as usize >= catalogue.tx_count() {
        return None;
    }
    Some(catalogue.tx_name(TxId(tx)))
}

/// Copies the name of the parameter of this number, from 0 on, of a transaction into the room: 0. -8: the room is
/// too short, and `wanted` is how much is needed. -9: there is none. -12: the handle is empty.
#[unsafe(no_mangle)]
pub extern "C" fn stm_program_parameter_name(
    program: &ProgramHandle,
    tx: u32,
    parameter: u32,
    room: &mut [u8],
    wanted: &mut usize,
) -> i32
    ensures told { Asked program.now.value EMPTY result (λ p n. IsNameTold
        (slice_get (parameters_of p.catalogue.now tx) parameter) room.old room.new wanted.new n) }
    ensures none { program.now.value ≡ None → (wanted.new ≡ 0) × (room.new ≡ room.old) }
{
    match program.get() {
        Some(program) => told(
            parameter_name(program.catalogue(), tx, parameter),
            room,
            wanted,
        ),
        None => told_of_none(wanted),
    }
}

fn parameter_name(catalogue: &Catalogue, tx: u32, parameter: u32) -> Option<&str>
    ensures { option_map (λ s. s.now) result ≡ slice_get (parameters_of catalogue.now tx) parameter }
{
    if tx as usize >= catalogue.tx_count() {
        return None;
    }
    match catalogue.params(TxId(tx)).get(parameter as usize) {
        Some(name) => Some(name.as_str()),
        None => None,
    }
}
