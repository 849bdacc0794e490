//! How cells are made.
ghost use Rattle.std.specs.Prelude.{◌≡◌, ◌+◌, ◌*◌, ◌<◌, ◌≤◌, [], ◌∷◌, true, false, length, replicate, IfOk};
ghost use Rattle.txn_programs.specs.declared.limits.TheConstants.{MAX_VALUES};
ghost use Rattle.txn_words.specs.Stores.{opened};
ghost use Rattle.cells.specs.Sight.{publishing, commit_of};
ghost use Rattle.cells.specs.Passing.{new_pass};
ghost use Rattle.cells.specs.Private.{AreFirstWords, IsSeated, IsSameSeat};

use crate::board::Board;
use crate::cells::Cells;
use crate::keeper::Keeper;
use crate::pass::Pass;
use crate::publisher::{How, Publisher};
use crate::sight::Sight;
use crate::writer::Writer;
use atomic_table::Seat;
use std::alloc::{AllocError, Global};
use txn_programs::Memory;

impl Cells {
    /// Makes cells whose variables have these values, up to `MAX_VALUES` of them, the one publisher of
    /// them, and so many passes.
    ///
    /// The history has one state, these values, and its number is 0. Each pass was told of that
    /// history, has loaded nothing, and is closed. This and `unread` are the only calls of the crate
    /// that take memory: `Err` says that a growth was refused, and leaves nothing behind.
    pub fn open(
        alloc: Global,
        values: &[i64],
        readers: usize,
    ) -> Result<(Cells, Publisher, Vec<Pass>), Memory>
        requires variables { length values.now ≤ MAX_VALUES }
        requires readers { readers ≤ 32 }
        ensures cells { IfOk result (λ r. r.0.variables ≡ length values.now) }
        ensures read { IfOk result (λ r. r.0.are_read ≡ true) }
        ensures publisher { IfOk result (λ r.
            r.1 ≡ record { cells = r.0; history = values.now ∷ []; stores = 0 }) }
        ensures passes { IfOk result (λ r.
            r.2.items ≡ replicate readers (new_pass r.0.table (values.now ∷ []))) }
    {
        let (cells, mut seat) = lay(alloc, values)?;
        let passes = enroll(alloc, &cells.board, &mut seat, readers)?;
        let writer = Writer { seat, number: 0 };
        let how = How::Stores(writer);
        Ok((cells, Publisher { how }, passes))
    }

    /// Makes cells that nobody reads, whose variables have these values, up to `MAX_VALUES` of them, and
    /// the one publisher of them.
    ///
    /// There is no pass of them, so nobody can tell how a publish is kept: it stores no word. The
    /// history has one state, these values, and its number is 0. `Err` says that a growth was
    /// refused, and leaves nothing behind.
    pub fn unread(alloc: Global, values: &[i64]) -> Result<(Cells, Publisher), Memory>
        requires variables { length values.now ≤ MAX_VALUES }
        ensures cells { IfOk result (λ r. r.0.variables ≡ length values.now) }
        ensures unread { IfOk result (λ r. r.0.are_read ≡ false) }
        ensures publisher { IfOk result (λ r.
            r.1 ≡ record { cells = r.0; history = values.now ∷ []; stores = 0 }) }
    {
        let board = Board::unread(alloc, values.len())?;
        let cells = Cells { board };
        let how = How::Keeps(Keeper::open(&cells, values));
        Ok((cells, Publisher { how }))
    }
}

// The cells of these values, which are read, and the publisher's seat.
fn lay(alloc: Global, values: &[i64]) -> Result<(Cells, Seat<(), Sight>), AllocError>
    requires { length values.now ≤ MAX_VALUES }
    ensures cells { IfOk result (λ r. (r.0.variables ≡ length values.now) × (r.0.are_read ≡ true)) }
    ensures seat { IfOk result (λ r. (r.1.table_id ≡ r.0.table) × (r.1.me.0 ≡ publishing (opened values.now))) }
{
    let words = first_words(alloc, values)?;
    let (board, seat) = Board::open(alloc, &words, values)?;
    Ok((Cells { board }, seat))
}

// The words of these values: the clock and each version are 0.
fn first_words(alloc: Global, values: &[i64]) -> Result<Vec<u64>, AllocError>
    requires { length values.now ≤ MAX_VALUES }
    ensures { IfOk result (λ v. AreFirstWords values.now v.items (length values.now)) }
{
    let mut words = vec![in alloc; 0; 2 * values.len() + 1]?;
    for x in 0..values.len() {
        words[2 * x + 2] = values[x].cast_unsigned();
    }
    Ok(words)
}

// The passes of so many readers. The publisher's seat stays as it was.
fn enroll(
    alloc: Global,
    board: &Board,
    seat: &mut Seat<(), Sight>,
    readers: usize,
) -> Result<Vec<Pass>, AllocError>
    requires table { IsSeated seat.old board.now.table }
    requires read { board.now.are_read ≡ true }
    requires history { 0 < length (commit_of seat.old.me.0).history }
    ensures seat { IsSameSeat seat.old seat.new × (seat.new.me.0 ≡ seat.old.me.0) }
    ensures passes { IfOk result (λ v. v.items
        ≡ replicate readers (new_pass board.now.table (commit_of seat.old.me.0).history)) }
{
    let mut passes = Vec::with_capacity(alloc, readers)?;
    for _ in 0..readers {
        passes.push(enroll_one(board, seat))?;
    }
    Ok(passes)
}

fn enroll_one(board: &Board, seat: &mut Seat<(), Sight>) -> Pass
    requires table { IsSeated seat.old board.now.table }
    requires read { board.now.are_read ≡ true }
    requires history { 0 < length (commit_of seat.old.me.0).history }
    ensures seat { IsSameSeat seat.old seat.new × (seat.new.me.0 ≡ seat.old.me.0) }
    ensures pass { result ≡ new_pass board.now.table (commit_of seat.old.me.0).history }
{
    Pass {
        seat: board.enroll(seat),
        rv: 0,
        ready: false,
    }
}
