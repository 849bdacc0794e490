//! Files read as catalogues.

ghost use Rattle.std.specs.Prelude.{◌≡◌, ◌↔◌, true, List, Ok, Some, IfOk, IfErr, IsTrue, ◌⊎◌};
ghost use Rattle.std.specs.Bool.{OnFalse};
ghost use Rattle.txn_programs.specs.Listing.{Listing, cells};
ghost use Rattle.txn.specs.Ids.{ids_hold};
ghost use Rattle.text_words.specs.Answers.{Gives};
ghost use Rattle.text_words.specs.Tokens.{Lexeme, tokens};
ghost use Rattle.text_grammar.specs.Reading.{heading_at};
ghost use Rattle.text_grammar.specs.Spelling.{Spells, listing_at, lawful, first_fault};
ghost use Rattle.text_file_reader.specs.Faults.{IsFirst};
ghost use Rattle.text_resolver.specs.Parts.{view_parts};
ghost use Rattle.text_words.specs.declared.fault.ReadFault.TheVariants.{Memory};
ghost use Rattle.text_grammar.specs.declared.file.FileForm.TheVariants.{Three};

use crate::at_once::parts_at_once;
use std::alloc::Global;
use text_grammar::words::has_tables;
use text_parser::file::{heading_of, tree_of};
use text_resolver::resolve::{Parts, resolve};
use text_words::ReadFault;
use txn::{BuildFault, Catalogue};

/// The catalogue of the parts, whose ids are those of names that were looked up, or which of names,
/// limits and conditions does not hold. It is a call, so that the catalogue takes no stack while the parts are read.
#[inline(never)]
fn built(alloc: Global, parts: Parts) -> Result<Catalogue, ReadFault>
    requires { ids_hold (view_parts parts) ≡ true }
    ensures { Gives (λ c. c) result (lawful (view_parts parts)) }
{
    match Catalogue::build_known(
        alloc,
        parts.vars,
        parts.tables,
        parts.always,
        parts.txs,
        parts.runs,
    ) {
        Ok(catalogue) => Ok(catalogue),
        Err(BuildFault::Name) => Err(ReadFault::Name),
        Err(BuildFault::Limit) => Err(ReadFault::Limit),
        Err(BuildFault::Broken) => Err(ReadFault::Broken),
        Err(BuildFault::Memory) => Err(ReadFault::Memory),
    }
}

/// The catalogue of a file, or its first fault: its whole tree is read first, and its names are judged
/// before its numbers.
#[tactic(auto, unfolding(text_grammar::specs::Spelling::listing_at))]
#[inline(never)]
fn read_in_passes(alloc: Global, bytes: &[u8]) -> Result<Catalogue, ReadFault>
    ensures { Gives (λ c. c) result (listing_at bytes.now) }
{
    let file = tree_of(alloc, bytes)?;
    let parts = resolve(alloc, file)?;
    built(alloc, parts)
}

/// The catalogue of a file, or its first fault. A file without a fault is read in one pass; where one
/// is met, the passes tell which is the first.
fn read(alloc: Global, bytes: &[u8]) -> Result<Catalogue, ReadFault>
    ensures { Gives (λ c. c) result (listing_at bytes.now) }
{
    match parts_at_once(alloc, bytes) {
        Ok(parts) => built(alloc, parts),
        Err(_) => read_in_passes(alloc, bytes),
    }
}

/// Reads a file. It is `Ok` exactly where the bytes spell a catalogue by the rules of the language:
/// at most 1,048,576 bytes, or 67,108,864 where it begins with `(stm 3)`; a reading by the grammar
/// of its form with at most 32 parentheses open at a time; only declared names used, none declared
/// twice among variables, among tables, among conditions or among transactions; all limits kept;
/// and each standing condition true of the initial values. A file of form 2 may have standing
/// conditions. One of form 3 may have tables and parameters as well: each table with one number for
/// all its cells or with one for each; no parameter with the name of a variable or of one before
/// it; and each run with as many arguments as its transaction has parameters.
///
/// Otherwise the fault is the first of `TooLong`, `BadByte`, `Shape`, `Name`, `Limit` and `Broken`
/// that applies, each judged over all the bytes before the next is; a wrong number of arguments is a
/// fault of `Name`, and a wrong number of a table's numbers is one of `Limit`. `Memory` may come in
/// place of any answer, where a growth was refused. It takes time and memory linear in the input.
pub fn read_file(alloc: Global, bytes: &[u8]) -> Result<Catalogue, ReadFault>
    // What is read is spelled so.
    ensures found { IfOk result (λ c. Spells bytes.now c) }
    // What is spelled so is read, unless memory runs out.
    ensures only { (l : Listing) → Spells bytes.now l → Gives (λ c. c) result (Ok l) }
    // Which fault it is: the first that applies, by what each kind says of the bytes.
    ensures fault { IfErr result (λ e. (e ≡ Memory) ⊎ IsFirst bytes.now e) }
    // It is the one that reading from left to right comes to.
    ensures as_read { IfErr result (λ e. (e ≡ Memory) ⊎ (first_fault bytes.now ≡ Some e)) }
{
    read(alloc, bytes)
}

/// Whether the bytes begin with the announcement of form 3, as those of a file with tables do. It takes no memory, and
/// looks at no more than the first tokens.
pub fn announces_tables(bytes: &[u8]) -> bool
    ensures announced { IsTrue result
        ↔ (rest : List Lexeme) × (heading_at (tokens bytes.now) ≡ Ok (Three, rest)) }
    // A file that does not has no cells.
    ensures cells { OnFalse result ((l : Listing) → Spells bytes.now l → cells l ≡ 0) }
{
    match heading_of(bytes) {
        Ok((file_form, _)) => has_tables(file_form),
        Err(_) => false,
    }
}
