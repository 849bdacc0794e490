//! What a run leaves, with its journal in lines.

ghost use Rattle.std.specs.Prelude.{◌≡◌, IfOk};

use crate::packed_entry::PackedEntry;
use std::alloc::Global;
use txn_programs::{Entry, Memory, Report};

/// A report whose journal is in lines, as the book kept it. It tells what the `Report` of the same entries
/// tells.
#[derive(Drop)]
pub struct RunReport {
    pub journal: Vec<PackedEntry>,
    /// All else that it tells. Its own entries tell nothing.
    pub rest: Report,
}

impl RunReport {
    ghost use Rattle.txn_programs.specs.Told.{told};
    ghost use Rattle.book_storage.specs.PackedEntries.{told_run};

    /// The report of the same entries. `Memory` only where a growth was refused.
    pub fn report(self, alloc: Global) -> Result<Report, Memory>
        ensures { IfOk result (λ r. told r ≡ told_run self) }
    {
        let RunReport { journal, rest } = self;
        let mut report = rest;
        report.entries = entries_of(alloc, &journal)?;
        Ok(report)
    }
}

/// The entries that lines tell.
pub fn entries_of(alloc: Global, lines: &[PackedEntry]) -> Result<Vec<Entry>, Memory>
    ensures { IfOk result (λ es. es.items ≡ lines.now) }
{
    let mut entries = Vec::with_capacity(alloc, lines.len())?;
    'lines: for line in lines {
        entries.push(line.entry())?;
    }
    Ok(entries)
}
