//! Programs, as handles: read once, and kept until the process ends.

ghost use Rattle.std.specs.Prelude.{◌≡◌, ◌≢◌, ◌⊎◌, IfErr, IfOk, None, Some, pos, length, map};
ghost use Rattle.txn_programs.specs.Listing.{tasks};
ghost use Rattle.text_grammar.specs.Spelling.{first_fault};
ghost use Rattle.text_words.specs.declared.fault.ReadFault.TheVariants as ReadFault;
ghost use Rattle.stm_c.specs.Files.{IsRefused};
ghost use Rattle.stm_c.specs.Held.{Asked, HoldsSome};
ghost use Rattle.stm_c.specs.Long.{AreFlags, AreMarks, is_long, long_flag};
ghost use Rattle.stm_c.specs.Made.{IsRead};
ghost use Rattle.stm_c.specs.Named.{AreCells, AreParameters, IsTable, IsTransaction, IsVariable};
ghost use Rattle.stm_c.specs.Rooms.{Holds, TooShort};

use crate::codes::{EMPTY, FULL, MEMORY, SHORT, UNKNOWN, file_fault};
use crate::program_handle::ProgramHandle;
use crate::writing::copy;
use std::alloc::{AllocError, Global};
use stm_store::Program;
use txn::weights::{Size, Weights, sizes_of};
use txn::{Catalogue, TxId};
use txn_text::ReadFault;

/// Reads the program that the bytes spell. 0, and `out` holds it; -1 to -7: the file is refused, or
/// running out of memory; -13: `out` is not empty. Else than with 0, `out` is as it was.
#[unsafe(no_mangle)]
pub extern "C" fn stm_read(alloc: Global, file: &[u8], out: &mut ProgramHandle) -> i32
    ensures done { result ≡ pos 0 → HoldsSome (IsRead file.now) out.new.value }
    ensures kept { result ≢ pos 0 → out.new.value ≡ out.old.value }
    ensures full { out.old.value ≢ None → result ≡ FULL }
    ensures refused { out.old.value ≡ None → result ≢ pos 0 → IsRefused file.now result }
{
    if out.is_full() {
        return FULL;
    }
    match read(alloc, file) {
        Ok(made) => {
            *out = ProgramHandle::of(made);
            0
        }
        Err(fault) => file_fault(fault),
    }
}

/// The program that the bytes spell, in a box; else the first fault of the file, or out of memory.
fn read(alloc: Global, file: &[u8]) -> Result<Box<Program>, ReadFault>
    ensures found { IfOk result (λ b. IsRead file.now b.value) }
    ensures fault { IfErr result (λ e. (e ≡ ReadFault.Memory) ⊎ (first_fault file.now ≡ Some e)) }
{
    let program = Program::read(alloc, file)?;
    match Box::new(alloc, program) {
        Ok(made) => Ok(made),
        Err(_) => Err(ReadFault::Memory),
    }
}

/// Lets a handle of a program go, which is empty afterwards. What the program says stays, for its
/// stores and workers. An empty one stays so.
#[unsafe(no_mangle)]
pub extern "C" fn stm_program_free(program: &mut ProgramHandle)
    ensures { program.new.value ≡ None }
{
    *program = ProgramHandle::empty();
}

/// How many tasks the program has, numbered from 0 in the order of the runs. 0 of an empty handle.
#[unsafe(no_mangle)]
pub extern "C" fn stm_program_tasks(program: &ProgramHandle) -> usize
    ensures value { Asked program.now.value 0 result (λ p n. n ≡ length (tasks p.catalogue.now)) }
{
    match program.get() {
        Some(program) => program.catalogue().tasks(),
        None => 0,
    }
}

/// How many variables it has, numbered from 0 as declared. 0 of an empty handle.
#[unsafe(no_mangle)]
pub extern "C" fn stm_program_variables(program: &ProgramHandle) -> usize
    ensures value { Asked program.now.value 0 result (λ p n. n ≡ length p.catalogue.now.names) }
{
    match program.get() {
        Some(program) => program.catalogue().var_count(),
        None => 0,
    }
}

/// How many tables it has, each at its place from 0 on as declared. 0 of an empty handle.
#[unsafe(no_mangle)]
pub extern "C" fn stm_program_tables(program: &ProgramHandle) -> usize
    ensures value { Asked program.now.value 0 result (λ p n. n ≡ length p.catalogue.now.tables) }
{
    match program.get() {
        Some(program) => program.catalogue().tables().len(),
        None => 0,
    }
}

/// How many transactions it has, numbered from 0 as declared. 0 of an empty handle.
#[unsafe(no_mangle)]
pub extern "C" fn stm_program_transactions(program: &ProgramHandle) -> usize
    ensures value { Asked program.now.value 0 result (λ p n. n ≡ length p.catalogue.now.transactions) }
{
    match program.get() {
        Some(program) => program.catalogue().tx_count(),
        None => 0,
    }
}

/// The number of the variable of this name, or -9. -12: the handle is empty.
#[unsafe(no_mangle)]
pub extern "C" fn stm_program_variable(program: &ProgramHandle, name: &[u8]) -> i64
    ensures found { Asked program.now.value EMPTY result (λ p n. IsVariable p.catalogue.now name.now n) }
{
    match program.get() {
        Some(program) => variable(program.catalogue(), name),
        None => i64::from(EMPTY),
    }
}

fn variable(catalogue: &Catalogue, name: &[u8]) -> i64
    ensures { IsVariable catalogue.now name.now result }
{
    let Ok(name) = str::from_utf8(name) else {
        return i64::from(UNKNOWN);
    };
    match catalogue.var_id(name) {
        Some(id) => i64::from(id.0),
        None => i64::from(UNKNOWN),
    }
}

/// The place of the table of this name, or -9. -12: the handle is empty.
#[unsafe(no_mangle)]
pub extern "C" fn stm_program_table(program: &ProgramHandle, name: &[u8]) -> i64
    ensures found { Asked program.now.value EMPTY result (λ p n. IsTable p.catalogue.now name.now n) }
{
    match program.get() {
        Some(program) => table(program.catalogue(), name),
        None => i64::from(EMPTY),
    }
}

fn table(catalogue: &Catalogue, name: &[u8]) -> i64
    ensures { IsTable catalogue.now name.now result }
{
    let Ok(name) = str::from_utf8(name) else {
        return i64::from(UNKNOWN);
    };
    // There are few tables.
    catalogue.rules();
    match catalogue.table_place(name) {
        Some(place) => i64::from(place as u32),
        None => i64::from(UNKNOWN),
    }
}

/// How many cells the table at this place has, or -9. -12: the handle is empty.
#[unsafe(no_mangle)]
pub extern "C" fn stm_program_cells(program: &ProgramHandle, table: u32) -> i64
    ensures { Asked program.now.value EMPTY result (λ p n. AreCells p.catalogue.now table n) }
{
    match program.get() {
        Some(program) => cells(program.catalogue(), table),
        None => i64::from(EMPTY),
    }
}

fn cells(catalogue: &Catalogue, table: u32) -> i64
    ensures { AreCells catalogue.now table result }
{
    match catalogue.tables().get(table as usize) {
        Some((_, length)) => i64::from(*length),
        None => i64::from(UNKNOWN),
    }
}

/// The number of the transaction of this name, or -9. -12: the handle is empty.
#[unsafe(no_mangle)]
pub extern "C" fn stm_program_transaction(program: &ProgramHandle, name: &[u8]) -> i64
    ensures found { Asked program.now.value EMPTY result (λ p n. IsTransaction p.catalogue.now name.now n) }
{
    match program.get() {
        Some(program) => transaction(program.catalogue(), name),
        None => i64::from(EMPTY),
    }
}

fn transaction(catalogue: &Catalogue, name: &[u8]) -> i64
    ensures { IsTransaction catalogue.now name.now result }
{
    let Ok(name) = str::from_utf8(name) else {
        return i64::from(UNKNOWN);
    };
    match catalogue.tx_id(name) {
        Some(id) => i64::from(id.0),
        None => i64::from(UNKNOWN),
    }
}

/// How many parameters the transaction has, or -9. -12: the handle is empty.
#[unsafe(no_mangle)]
pub extern "C" fn stm_program_parameters(program: &ProgramHandle, tx: u32) -> i64
    ensures { Asked program.now.value EMPTY result (λ p n. AreParameters p.catalogue.now tx n) }
{
    match program.get() {
        Some(program) => parameters(program.catalogue(), tx),
        None => i64::from(EMPTY),
    }
}

fn parameters(catalogue: &Catalogue, tx: u32) -> i64
    ensures { AreParameters catalogue.now tx result }
{
    if tx as usize >= catalogue.tx_count() {
        return i64::from(UNKNOWN);
    }
    catalogue.params(TxId(tx)).len() as i64
}

/// Which transactions are long, as a run judges it that takes the least time: copies a byte for each into the
/// room, in their order, 1 for a long one and 0 for another: 0. -6: out of memory. -8: the room is too short, and
/// `wanted` is how much is needed. -12: the handle is empty.
#[unsafe(no_mangle)]
pub extern "C" fn stm_program_long(
    alloc: Global,
    program: &ProgramHandle,
    room: &mut [u8],
    wanted: &mut usize,
) -> i32
    ensures done { Asked program.now.value EMPTY result
        (λ p n. n ≡ pos 0 → Holds (AreFlags p.catalogue.now) room.old room.new wanted.new) }
    ensures too_short { Asked program.now.value EMPTY result
        (λ p n. n ≡ SHORT → TooShort (AreFlags p.catalogue.now) room.old room.new wanted.new) }
    ensures answers { Asked program.now.value EMPTY result
        (λ _ n. (n ≡ pos 0) ⊎ (n ≡ SHORT) ⊎ (n ≡ MEMORY)) }
    ensures none { result ≢ pos 0 → result ≢ SHORT → wanted.new ≡ 0 }
    ensures kept { result ≢ pos 0 → room.new ≡ room.old }
{
    *wanted = 0;
    match program.get() {
        Some(program) => long(alloc, program.catalogue(), room, wanted),
        None => EMPTY,
    }
}

fn long(alloc: Global, catalogue: &Catalogue, room: &mut [u8], wanted: &mut usize) -> i32
    ensures done { result ≡ pos 0 → Holds (AreFlags catalogue.now) room.old room.new wanted.new }
    ensures too_short { result ≡ SHORT → TooShort (AreFlags catalogue.now) room.old room.new wanted.new }
    ensures answers { (result ≡ pos 0) ⊎ (result ≡ SHORT) ⊎ (result ≡ MEMORY) }
    ensures none { result ≢ pos 0 → result ≢ SHORT → wanted.new ≡ wanted.old }
    ensures kept { result ≢ pos 0 → room.new ≡ room.old }
{
    match flags_of(alloc, catalogue) {
        Ok(flags) => copy(&flags, room, wanted),
        Err(_) => MEMORY,
    }
}

/// A flag for each transaction.
fn flags_of(alloc: Global, catalogue: &Catalogue) -> Result<Vec<u8>, AllocError>
    ensures { IfOk result (λ v. AreFlags catalogue.now v.items) }
{
    let sizes = sizes_of(alloc, catalogue, Weights::LEAST_TIME)?;
    marked(alloc, &sizes)
}

/// 1 for each long one, else 0.
fn marked(alloc: Global, sizes: &[Size]) -> Result<Vec<u8>, AllocError>
    ensures { IfOk result (λ v. v.items ≡ map long_flag sizes.now) }
{
    sizes.iter().map(|size| flag(*size)).collect(alloc)
}

/// Whether each transaction is long, in their order.
pub(crate) fn long_ones(alloc: Global, catalogue: &Catalogue) -> Result<Vec<bool>, AllocError>
    ensures { IfOk result (λ v. AreMarks catalogue.now v.items) }
{
    let sizes = sizes_of(alloc, catalogue, Weights::LEAST_TIME)?;
    marks(alloc, &sizes)
}

fn marks(alloc: Global, sizes: &[Size]) -> Result<Vec<bool>, AllocError>
    ensures { IfOk result (λ v. v.items ≡ map is_long sizes.now) }
{
    sizes.iter().map(|size| is_long(*size)).collect(alloc)
}

fn is_long(size: Size) -> bool
    ensures { result ≡ is_long size }
{
    matches!(size, Size::Long)
}

fn flag(size: Size) -> u8
    ensures { result ≡ long_flag size }
{
    match size {
        Size::Long => 1,
        _ => 0,
    }
}
