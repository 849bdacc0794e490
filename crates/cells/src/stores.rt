//! The stores of a publish, kind by kind. In each contract `c` is what was stored before the call. A
//! write whose value is the present one stores nothing.
ghost use Rattle.std.specs.Prelude.{◌≡◌, ◌≢◌, ℕ, ◌+◌, ◌-◌, ◌^◌, ◌<◌, ◌≤◌, false, true, Bool, length, slice_index};
ghost use Rattle.std.specs.Prelude.{slice_index_or};
ghost use Rattle.txn_words.specs.Words.{state_value, state_of, last_state};
ghost use Rattle.txn_words.specs.Stores.{MayLock, id_of, after_lock};
ghost use Rattle.cells.specs.Sight.{publishing, commit_of};
ghost use Rattle.cells.specs.Publishing.{AreWrites, changes_of};
ghost use Rattle.cells.specs.Private.{IsPublisher, IsSeated, IsSameSeat, AreLocked, all_locked, all_stored};
ghost use Rattle.cells.specs.Private.{all_released};

use crate::board::Board;
use crate::sight::Sight;
use atomic_table::Seat;
use txn_programs::VarId;

/// Sets the lock bit of each variable that changes.
pub(crate) fn lock_all(
    board: &Board,
    seat: &mut Seat<(), Sight>,
    writes: &[(VarId, i64)],
    values: &[i64],
)
    requires table { IsSeated seat.old board.now.table
        × (board.now.variables ≡ length values.now) }
    requires read { board.now.are_read ≡ true }
    requires present { values.now ≡ (commit_of seat.old.me.0).values }
    requires writes { AreWrites values.now writes.now }
    requires free { let c = commit_of seat.old.me.0 in
        (x : ℕ) → slice_index_or c.locked x false ≡ false }
    requires order { let c = commit_of seat.old.me.0 in (c.storing ≡ false) × (c.late ≡ false) }
    requires versions { let c = commit_of seat.old.me.0 in (x : ℕ) → slice_index c.versions x < 2 ^ 62 }
    ensures seat { IsSameSeat seat.old seat.new }
    ensures stored { seat.new.me.0
        ≡ publishing (all_locked (changes_of values.now writes.now) (commit_of seat.old.me.0)) }
{
    for write in writes {
        if values[write.0.0 as usize] != write.1 {
            lock(board, seat, write.0.0 as usize);
        }
    }
}

/// Locks one variable. Nobody else stores a version word, so the publisher keeps no copy of it.
fn lock(board: &Board, seat: &mut Seat<(), Sight>, x: usize)
    requires own { seat.old.table_id ≡ board.now.table }
    requires publisher { IsPublisher seat.old }
    requires read { board.now.are_read ≡ true }
    requires exists { x < board.now.variables }
    requires may { MayLock (commit_of seat.old.me.0) x }
    requires version { slice_index (commit_of seat.old.me.0).versions x < 2 ^ 62 }
    ensures seat { IsSameSeat seat.old seat.new }
    ensures told { seat.new.me.0 ≡ publishing (after_lock x (commit_of seat.old.me.0)) }
{
    let stamp = board.load_own_version(seat, x);
    board.lock_version(seat, x, stamp);
}

/// Stores each new value.
pub(crate) fn store_all(
    board: &Board,
    seat: &mut Seat<(), Sight>,
    writes: &[(VarId, i64)],
    values: &[i64],
)
    requires table { IsSeated seat.old board.now.table
        × (board.now.variables ≡ length values.now) }
    requires read { board.now.are_read ≡ true }
    requires size { length (commit_of seat.old.me.0).values ≡ length values.now }
    requires writes { AreWrites values.now writes.now }
    requires locked { AreLocked (commit_of seat.old.me.0) (changes_of values.now writes.now) }
    ensures seat { IsSameSeat seat.old seat.new }
    ensures stored { (b : Bool) × (seat.new.me.0
        ≡ publishing (all_stored b (changes_of values.now writes.now) (commit_of seat.old.me.0))) }
{
    for write in writes {
        if values[write.0.0 as usize] != write.1 {
            board.store_value(seat, write.0.0 as usize, write.1);
        }
    }
}

/// Clears each lock bit, with the number of the new state as the version.
pub(crate) fn release_all(
    board: &Board,
    seat: &mut Seat<(), Sight>,
    writes: &[(VarId, i64)],
    values: &[i64],
    number: u64,
)
    requires table { IsSeated seat.old board.now.table
        × (board.now.variables ≡ length values.now) }
    requires read { board.now.are_read ≡ true }
    requires size { length (commit_of seat.old.me.0).values ≡ length values.now }
    requires writes { AreWrites values.now writes.now }
    requires locked { AreLocked (commit_of seat.old.me.0) (changes_of values.now writes.now) }
    requires moved { (commit_of seat.old.me.0).storing ≡ false }
    requires changed { let c = commit_of seat.old.me.0 in let changes = changes_of values.now writes.now in
        (i : ℕ) → i < length changes
        → state_value (last_state c.history) (id_of changes i)
        ≢ state_value (state_of c.history (number - 1)) (id_of changes i) }
    requires versions { (x : ℕ) → slice_index (commit_of seat.old.me.0).versions x < number }
    requires number { let c = commit_of seat.old.me.0 in
        (number + 1 ≡ length c.history) × (number ≤ 2 ^ 62) }
    ensures seat { IsSameSeat seat.old seat.new }
    ensures stored { seat.new.me.0
        ≡ publishing (all_released number (changes_of values.now writes.now) (commit_of seat.old.me.0)) }
{
    for write in writes {
        if values[write.0.0 as usize] != write.1 {
            board.release_version(seat, write.0.0 as usize, number);
        }
    }
}
