//! The journal, in lines for which there is room.

ghost use Rattle.std.specs.Prelude.{◌≡◌, ◌<◌, ◌≤◌, ◌++◌, ◌∷◌, [], vec_len, vec_capacity};
ghost use Rattle.txn_programs.specs.declared.limits.TheConstants.{MAX_TASKS, MAX_TRANSACTIONS};

use book_storage::PackedEntry;
use txn::Entry;

/// Adds an entry, for which there is room.
#[inline(always)]
pub fn enter(journal: &mut Vec<PackedEntry>, entry: Entry)
    requires room { vec_len journal.old < vec_capacity journal.old }
    requires number { entry.number ≤ MAX_TASKS }
    requires task { entry.task.0 < MAX_TASKS }
    requires tx { entry.tx.0 < MAX_TRANSACTIONS }
    ensures items { journal.new.items ≡ journal.old.items ++ entry ∷ [] }
    ensures capacity { vec_capacity journal.old ≤ vec_capacity journal.new }
{
    match journal.push(PackedEntry::new(entry)) {
        Ok(()) => {}
        Err(_) => unreachable!(),
    }
}
