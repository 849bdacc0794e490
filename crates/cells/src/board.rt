//! The words as the rest of the crate has them: the nine kinds of step, and the seats that take
//! them. The table of words is this module's alone, so no other module can load or store a word but
//! by these calls. Each has one line of code, and its contract says what the step tells.
//!
//! The kinds of step, in the one order in which they are named everywhere: 1 `LoadClock`,
//! 2 `LoadVersion`, 3 `LoadValue`, 4 `LoadVersionAgain`; 5 `LockVersion`, 6 `StoreValue`,
//! 7 `StoreClock`, 8 `ReleaseVersion`; 9 `LoadOwnVersion`.
ghost use Rattle.std.specs.Prelude.{◌≡◌, ◌+◌, ◌*◌, ◌^◌, ◌<◌, ◌≤◌, false, true, length, slice_index, IfOk};
ghost use Rattle.txn_programs.specs.declared.limits.TheConstants.{MAX_VALUES};
ghost use Rattle.txn_words.specs.Words.{StartsWith};
ghost use Rattle.txn_words.specs.Stores.{opened, MayLock, MayStore, MayRelease, after_lock, after_value, after_clock};
ghost use Rattle.txn_words.specs.Stores.{after_release};
ghost use Rattle.txn_words.specs.Loads.{enrolled, sampled, loaded, met};
ghost use Rattle.cells.specs.Sight.{publishing, reading, commit_of, record_of};
ghost use Rattle.cells.specs.Private.{AreFirstWords, IsPublisher, IsReader, IsSameSeat, HasBegun, HasSampled};
ghost use Rattle.cells.specs.Private.{HasVersion, HasValue, reader_cells};

use crate::history::History;
use crate::rule::{
    Enroll, Leave, LoadClock, LoadClockTogether, LoadOwnVersion, LoadValue, LoadVersion,
    LoadVersionAgain, LockVersion, Part, ReleaseVersion, StoreClock, StoreValue, Take, WordsRule,
};
use crate::sight::Sight;
use atomic_table::{Seat, Table};
use std::alloc::{AllocError, Global};
use std::marker::Model;

/// The words under their rule: where nobody reads, the clock's alone. The table's key is the first
/// state, which costs nothing when it runs.
#[derive(Drop)]
pub(crate) struct Board {
    table: Table<(), Sight, History, WordsRule, Global>,
    variables: usize,
    /// Whether readers may have seats.
    are_read: bool,
}

impl Model for Board {
    ghost use Rattle.std.specs.Prelude.{◌≡◌, ◌+◌, ◌*◌, ◌<◌, ◌≤◌, true};
    ghost use Rattle.txn_programs.specs.declared.limits.TheConstants.{MAX_VALUES};
    ghost use Rattle.cells.specs.Cells.{CellsId};

    ghost Value = { CellsId };

    ghost view = { λ b. record { table = b.table.shared.table_id; variables = b.variables; are_read = b.are_read } };

    ghost invariant = { λ b. let words = b.table.shared.table_id.words in
        (0 < words) × (b.are_read ≡ true → words ≡ 2 * b.variables + 1) × (b.variables ≤ MAX_VALUES) };
}

impl Board {
    /// The words of these values, at which readers may have seats, and the publisher's seat.
    pub(crate) fn open(
        alloc: Global,
        words: &[u64],
        values: &[i64],
    ) -> Result<(Board, Seat<(), Sight>), AllocError>
        requires words { AreFirstWords values.now words.now (length values.now) }
        requires variables { length values.now ≤ MAX_VALUES }
        ensures board { IfOk result (λ b. b.0.variables ≡ length values.now) }
        ensures read { IfOk result (λ b. b.0.are_read ≡ true) }
        ensures seat { IfOk result (λ b. (b.1.table_id ≡ b.0.table)
            × (b.1.me.0 ≡ publishing (opened values.now))) }
    {
        let (table, seat) = Table::of_words(alloc, words, &History::open(values))?;
        let variables = values.len();
        Ok((
            Board {
                table,
                variables,
                are_read: true,
            },
            seat,
        ))
    }

    /// So many variables that nobody reads: they have no words.
    pub(crate) fn unread(alloc: Global, variables: usize) -> Result<Board, AllocError>
        requires { variables ≤ MAX_VALUES }
        ensures board { IfOk result (λ b. b.variables ≡ variables) }
        ensures unread { IfOk result (λ b. b.are_read ≡ false) }
    {
        let (table, _) = Table::of_words(alloc, &[0], &History::open(&[]))?;
        Ok(Board {
            table,
            variables,
            are_read: false,
        })
    }

    /// 1. A reader loads the clock, as it begins.
    pub(crate) fn load_clock(&self, seat: &mut Seat<(), Sight>) -> u64
        requires own { seat.old.table_id ≡ self.now.table }
        requires reader { IsReader seat.old }
        ensures seat { IsSameSeat seat.old seat.new }
        ensures told { HasBegun seat.old seat.new result }
    {
        self.table.shared.load::<LoadClock>(seat, 0)
    }

    /// 2. A reader loads a version word.
    pub(crate) fn load_version(&self, seat: &mut Seat<(), Sight>, x: usize) -> u64
        requires own { reader_cells seat.old ≡ self.now }
        requires reader { IsReader seat.old }
        requires exists { x < self.now.variables }
        ensures seat { IsSameSeat seat.old seat.new }
        ensures told { seat.new.me.0 ≡ reading (sampled x result (record_of seat.old.me.0)) }
    {
        self.table.shared.load::<LoadVersion>(seat, 2 * x + 1)
    }

    /// 3. A reader loads a value word.
    pub(crate) fn load_value(&self, seat: &mut Seat<(), Sight>, x: usize) -> u64
        requires own { reader_cells seat.old ≡ self.now }
        requires reader { IsReader seat.old }
        requires exists { x < self.now.variables }
        requires after { HasVersion (record_of seat.old.me.0) x }
        ensures seat { IsSameSeat seat.old seat.new }
        ensures told { seat.new.me.0 ≡ reading (loaded result (record_of seat.old.me.0)) }
    {
        self.table.shared.load::<LoadValue>(seat, 2 * x + 2)
    }

    /// 4. A reader loads the version word a second time.
    pub(crate) fn load_version_again(&self, seat: &mut Seat<(), Sight>, x: usize) -> u64
        requires own { reader_cells seat.old ≡ self.now }
        requires reader { IsReader seat.old }
        requires exists { x < self.now.variables }
        requires after { HasValue (record_of seat.old.me.0) x }
        ensures seat { IsSameSeat seat.old seat.new }
        ensures told { HasSampled seat.old seat.new result }
    {
        self.table.shared.load::<LoadVersionAgain>(seat, 2 * x + 1)
    }

    /// 5. The publisher locks a version word, in which this was.
    pub(crate) fn lock_version(&self, seat: &mut Seat<(), Sight>, x: usize, stamp: u64)
        requires own { seat.old.table_id ≡ self.now.table }
        requires publisher { IsPublisher seat.old }
        requires read { self.now.are_read ≡ true }
        requires exists { x < self.now.variables }
        requires may { MayLock (commit_of seat.old.me.0) x }
        requires stamp { (stamp ≡ 2 * slice_index (commit_of seat.old.me.0).versions x)
            × (stamp < 2 ^ 63) }
        ensures seat { IsSameSeat seat.old seat.new }
        ensures told { seat.new.me.0 ≡ publishing (after_lock x (commit_of seat.old.me.0)) }
    {
        self.table
            .shared
            .store::<LockVersion>(seat, 2 * x + 1, stamp + 1);
    }

    /// 6. The publisher stores a value.
    pub(crate) fn store_value(&self, seat: &mut Seat<(), Sight>, x: usize, value: i64)
        requires own { seat.old.table_id ≡ self.now.table }
        requires publisher { IsPublisher seat.old }
        requires read { self.now.are_read ≡ true }
        requires exists { x < self.now.variables }
        requires may { MayStore (commit_of seat.old.me.0) x }
        ensures seat { IsSameSeat seat.old seat.new }
        ensures told { seat.new.me.0 ≡ publishing (after_value x value (commit_of seat.old.me.0)) }
    {
        self.table
            .shared
            .store::<StoreValue>(seat, 2 * x + 2, value.cast_unsigned());
    }

    /// 7. The publisher moves the clock to the number of the next state: from here on the history
    /// has it.
    pub(crate) fn store_clock(&self, seat: &mut Seat<(), Sight>, number: u64)
        requires own { seat.old.table_id ≡ self.now.table }
        requires publisher { IsPublisher seat.old }
        requires number { number ≡ length (commit_of seat.old.me.0).history }
        ensures seat { IsSameSeat seat.old seat.new }
        ensures told { seat.new.me.0 ≡ publishing (after_clock (commit_of seat.old.me.0)) }
    {
        self.table.shared.store::<StoreClock>(seat, 0, number);
    }

    /// 8. The publisher releases a version word, with the number of the last state.
    pub(crate) fn release_version(&self, seat: &mut Seat<(), Sight>, x: usize, number: u64)
        requires own { seat.old.table_id ≡ self.now.table }
        requires publisher { IsPublisher seat.old }
        requires read { self.now.are_read ≡ true }
        requires exists { x < self.now.variables }
        requires may { MayRelease (commit_of seat.old.me.0) x }
        requires number { (number + 1 ≡ length (commit_of seat.old.me.0).history)
            × (number ≤ 2 ^ 62) }
        ensures seat { IsSameSeat seat.old seat.new }
        ensures told { seat.new.me.0 ≡ publishing (after_release x (commit_of seat.old.me.0)) }
    {
        self.table
            .shared
            .store::<ReleaseVersion>(seat, 2 * x + 1, 2 * number);
    }

    /// 9. The publisher loads a version word that it has not locked.
    pub(crate) fn load_own_version(&self, seat: &mut Seat<(), Sight>, x: usize) -> u64
        requires own { seat.old.table_id ≡ self.now.table }
        requires publisher { IsPublisher seat.old }
        requires read { self.now.are_read ≡ true }
        requires exists { x < self.now.variables }
        requires may { MayLock (commit_of seat.old.me.0) x }
        ensures seat { IsSameSeat seat.old seat.new }
        ensures same { seat.new.me.0 ≡ seat.old.me.0 }
        ensures told { result ≡ 2 * slice_index (commit_of seat.old.me.0).versions x }
    {
        self.table.shared.load::<LoadOwnVersion>(seat, 2 * x + 1)
    }

    /// A seat for a new reader, which is told of the publisher's history. The table loads the clock
    /// once for it, and throws away what that gave.
    pub(crate) fn enroll(&self, publisher: &mut Seat<(), Sight>) -> Seat<(), Sight>
        requires own { publisher.old.table_id ≡ self.now.table }
        requires read { self.now.are_read ≡ true }
        requires publisher { IsPublisher publisher.old }
        ensures publisher { IsSameSeat publisher.old publisher.new
            × (publisher.new.me.0 ≡ publisher.old.me.0) }
        ensures reader { (result.table_id ≡ publisher.old.table_id)
            × (result.me.0 ≡ reading (enrolled (commit_of publisher.old.me.0).history)) }
    {
        self.table.shared.split_seat::<Enroll>(publisher)
    }

    /// The publisher tells a reader its history, by kind 1 as the two seats are one. Where a seat is
    /// cut or joined the table loads the clock too, three times in all, and throws away what that
    /// gave.
    pub(crate) fn meet(&self, publisher: &mut Seat<(), Sight>, reader: &mut Seat<(), Sight>)
        requires own { (publisher.old.table_id ≡ self.now.table)
            × (reader.old.table_id ≡ self.now.table) }
        requires publisher { IsPublisher publisher.old }
        requires reader { IsReader reader.old }
        ensures publisher { IsSameSeat publisher.old publisher.new
            × (publisher.new.me.0 ≡ publisher.old.me.0) }
        ensures reader { let h = (commit_of publisher.old.me.0).history in let r = record_of reader.old.me.0 in
            (reader.new.table_id ≡ publisher.old.table_id) × (reader.new.me.0 ≡ reading (met h r))
            × StartsWith h r.seen × (r.rv < length r.seen) }
    {
        let shared = &self.table.shared;
        let record = shared.split_seat::<Leave>(reader);
        shared.join_seat::<Take>(publisher, record);
        shared.load::<LoadClockTogether>(publisher, 0);
        *reader = shared.split_seat::<Part>(publisher);
    }
}
