//! What a pass reads, for an attempt.

ghost use Rattle.std.specs.Prelude.{◌≡◌, ◌≢◌, ℕ, ◌+◌, ◌<◌, ◌≤◌, length, true, false, IfSome, None};
ghost use Rattle.txn_programs.specs.Meaning.{State, value_at};
ghost use Rattle.attempt.specs.Asking.{known_at};
ghost use Rattle.attempt.specs.Frame.{Agrees};
ghost use Rattle.attempt.specs.Order.{AllKnown, Apart};
ghost use Rattle.attempt.specs.Room.{NeedsNoMemory};
ghost use Rattle.attempt.specs.View.{Answers, HoldsAt};
ghost use Rattle.attempt.specs.declared.next.Stand.TheVariants.{Spent};
ghost use Rattle.cells.specs.Passing.{at};
ghost use Rattle.run_observer.specs.Observing.{Moment, moment, StaysAt};

use crate::watching::Watch;
use attempt::{Attempt, Next, Reader};
use cells::{Cells, Pass, Read};
use txn::VarId;

/// A variable's value, where the pass is open and the read is not stale. Else the pass is closed.
pub(crate) fn peek(cells: &Cells, pass: &mut Pass, x: VarId) -> Option<i64>
    requires own { pass.old.cells ≡ cells.now }
    requires exists { x.0 < cells.now.variables }
    ensures cells { pass.new.cells ≡ pass.old.cells }
    ensures stays { StaysAt pass.old pass.new }
    ensures few { pass.new.word_loads ≤ pass.old.word_loads + 3 }
    ensures value { IfSome result (λ v. v ≡ value_at (at pass.old) x) }
    ensures open { IfSome result (λ _. pass.new.open_now ≡ true) }
    ensures variable { IfSome result (λ _. pass.new.variable ≡ x.0) }
    ensures closed { result ≡ None → pass.new.open_now ≡ false }
{
    if !pass.is_open() {
        return None;
    }
    match pass.read(cells, x) {
        Read::Value(value) => Some(value),
        Read::Stale => None,
    }
}

/// A pass of these cells, which have at least so many variables, as a reader. It never moves the
/// pass: a stale read closes it, and then it reads nothing. Each read is told to the watch before.
#[derive(Drop)]
struct PassReader<'p, W: Watch> {
    cells: &'p Cells,
    pass: &'p mut Pass,
    watch: &'p W,
    variables: usize,
    ghost own: { pass.now.cells ≡ cells.now },
    ghost exist: { variables ≤ cells.now.variables },
}

impl<'p, W: Watch> Reader for PassReader<'p, W> {
    ghost values = { λ r. at r.pass.now };

    // It stays the very reference that it was.
    ghost Kept = { Moment × ℕ };

    ghost kept = { λ r. (moment r.pass.now, r.pass.ghost_name) };

    ghost is_open = { λ r. r.pass.now.open_now };

    // A read may be stale.
    ghost reads_all = { false };

    #[inline(always)]
    fn read(&mut self, x: VarId) -> Option<i64> {
        if x.0 as usize >= self.variables {
            return None;
        }
        self.watch.needs(x);
        self.pass.law();
        peek(self.cells, self.pass, x)
    }
}

/// Goes on with an attempt of a transaction that has so many variables, and reads by the pass what
/// it needs, which it tells the watch before. It answers `Need` where the read was stale, which closed the
/// pass, or where the log has no room. The pass stays where it is.
pub(crate) fn advance_on<W: Watch>(
    attempt: &mut Attempt<'_>,
    variables: usize,
    cells: &Cells,
    pass: &mut Pass,
    watch: &W,
) -> Next
    requires own { pass.old.cells ≡ cells.now }
    requires known { variables ≡ attempt.old.variables }
    requires variables { cells.now.variables ≡ variables }
    ensures cells { pass.new.cells ≡ pass.old.cells }
    ensures stays { StaysAt pass.old pass.new }
    ensures open { ((x : VarId) → result ≢ Next.Need x) → pass.old.open_now ≡ true → pass.new.open_now ≡ true }
    ensures answers { Answers result attempt.new }
    ensures program { attempt.new.program ≡ attempt.old.program }
    ensures variables { attempt.new.variables ≡ attempt.old.variables }
    ensures grows { length attempt.old.log ≤ length attempt.new.log }
    ensures agrees { Agrees attempt.old.log (at pass.old) → Agrees attempt.new.log (at pass.old) }
    ensures logged { AllKnown attempt.new.variables attempt.new.log }
    ensures apart { Apart attempt.new.log }
    ensures in_place { NeedsNoMemory attempt.old.program → attempt.old.stand ≢ Spent → result ≢ Next.Memory }
    ensures needed { (x : VarId) → result ≡ Next.Need x
        → (x.0 < attempt.new.variables) × (known_at attempt.new.log x ≡ None) }
    ensures frame { (m : State) → length m ≡ attempt.new.variables → Agrees attempt.new.log m
        → HoldsAt result attempt.new m }
{
    pass.law();
    let mut reader = PassReader {
        cells,
        pass,
        watch,
        variables,
    };
    attempt.advance_by(&mut reader)
}
