//! Which variables changed since the base, and which since the chapter began, where there are many variables: a
//! checkpoint copies only the first, and a new chapter begins with writing only these. Where there are few, all
//! variables are copied and written, and none is listed.

ghost use Rattle.std.specs.Prelude.{◌≡◌, ℕ, ◌<◌, ◌≤◌, ◌++◌, ◌∷◌, [], true, length, slice_set, IfOk};
ghost use Rattle.std.specs.Prelude.{vec_len, vec_capacity};
ghost use Rattle.book.specs.Changed.{AreAbove};

use std::alloc::{AllocError, Global};
use txn::VarId;

/// Up to so many variables none is listed.
const FEW: usize = 256;

/// Lists of the variables that changed, where they are kept: each variable once.
#[derive(Drop)]
pub struct Since {
    /// Whether what changes is listed: where there are many variables.
    pub is_listed: bool,
    /// Each variable whose version is above the number of the base.
    pub base: Vec<u32>,
    /// Each variable whose version is above 0.
    pub chapter: Vec<u32>,
}

/// Nothing has changed. Where lists are kept, each has room for all variables.
pub fn unchanged(alloc: Global, variables: usize) -> Result<Since, AllocError>
    ensures base { IfOk result (λ s. s.base.items ≡ []) }
    ensures chapter { IfOk result (λ s. s.chapter.items ≡ []) }
    ensures base_room { IfOk result (λ s. s.is_listed ≡ true → variables ≤ vec_capacity s.base) }
    ensures chapter_room { IfOk result (λ s. s.is_listed ≡ true → variables ≤ vec_capacity s.chapter) }
{
    let is_listed = variables > FEW;
    let room = if is_listed { variables } else { 0 };
    Ok(Since {
        is_listed,
        base: Vec::with_capacity(alloc, room)?,
        chapter: Vec::with_capacity(alloc, room)?,
    })
}

/// The variable's version goes above this number: it is listed, where it is not yet. There is room.
pub fn note(list: &mut Vec<u32>, past: u64, versions: &[u32], variable: VarId)
    requires listed { AreAbove past versions.now list.old.items }
    requires known { variable.0 < length versions.now }
    requires room { length versions.now ≤ vec_capacity list.old }
    ensures listed { (n : ℕ) → past < n → AreAbove past (slice_set versions.now variable.0 n) list.new.items }
    ensures capacity { vec_capacity list.old ≤ vec_capacity list.new }
{
    if u64::from(versions[variable.0 as usize]) > past {
        return;
    }
    add(list, variable.0);
}

/// A number more, for which there is room.
fn add(list: &mut Vec<u32>, number: u32)
    requires { vec_len list.old < vec_capacity list.old }
    ensures items { list.new.items ≡ list.old.items ++ number ∷ [] }
    ensures capacity { vec_capacity list.old ≤ vec_capacity list.new }
{
    match list.push(number) {
        Ok(()) => {}
        Err(_) => unreachable!(),
    }
}
