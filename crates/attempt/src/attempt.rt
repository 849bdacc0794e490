//! An attempt: a transaction, what it was told, and where it stands.

ghost use Rattle.std.specs.Prelude.{◌≡◌, ◌≢◌, ◌<◌, ◌≤◌, ◌+◌, ◌++◌, ◌∷◌, [], None, true};
ghost use Rattle.std.specs.Prelude.{length, IsOk, IfOk, IfSome, IfNone, OnOk, OnErr};
ghost use Rattle.txn_programs.specs.Cost.{cost};
ghost use Rattle.txn_programs.specs.Listing.{IsCallable};
ghost use Rattle.txn_programs.specs.Meaning.{State, outcome, after};
ghost use Rattle.txn_programs.specs.Scope.{ProgramKnown};
ghost use Rattle.txn_programs.specs.declared.limits.TheConstants.{MAX_PARAMETERS};
ghost use Rattle.attempt_machine.specs.Asking.{known_at, ask, Ends};
ghost use Rattle.attempt_machine.specs.Frame.{Agrees, store};
ghost use Rattle.attempt_writes.specs.Order.{AllKnown, Apart, Ascending};
ghost use Rattle.attempt_machine.specs.Room.{NeedsNoMemory};
ghost use Rattle.attempt_machine.specs.Reading.{ReadsOn};
ghost use Rattle.attempt.specs.AttemptInside.{StandsAt};
ghost use Rattle.attempt.specs.View.{fresh_attempt, begun_anew, supplied, idle, next_of};
ghost use Rattle.attempt.specs.View.{Answers, HoldsAt, IsHeldUp, OnlyOfReturned};

use crate::log::Log;
use crate::next::{Next, Stand, answer_of};
use crate::running::run_on;
use attempt_machine::{Count, Machine, Reader};
use attempt_writes::LogTable;
use std::alloc::Global;
use std::marker::Model;
use txn::{Catalogue, Memory, Outcome, TxId, VarId};
use txn_programs::Arguments;
use txn_programs::limits::MAX_VALUES;

/// One evaluation of a transaction with its arguments over what it was told, as far as it has come. A clause
/// sees an `AttemptView`.
pub struct Attempt<'a> {
    catalogue: &'a Catalogue,
    id: TxId,
    arguments: Arguments,
    machine: Machine,
    count: Count,
    log: LogTable,
    stand: Stand,
    steps: u64,
    total: u64,
    /// How many nodes the machine enters again when it goes on: that of the load that waited, once
    /// its variable is supplied.
    again: u64,
}

impl<'a> Model for Attempt<'a> {
    ghost use Rattle.attempt.specs.View.{AttemptView};
    ghost use Rattle.std.specs.Coded.{codes};
    ghost use Rattle.attempt.specs.CodedProgram.{coded_program};

    ghost Value = { AttemptView };

    ghost coded = { Prim.hlevel (codes, coded_program) };

    ghost use Rattle.attempt.specs.AttemptInside.{viewed, IsKept};

    ghost view = { viewed };

    ghost invariant = { IsKept };
}

/// Written by hand, so that its end is one call wherever an attempt is owned.
impl Drop for Attempt<'_> {
    fn drop(self) {
        let Attempt {
            catalogue: _,
            id: _,
            arguments: _,
            machine: _machine,
            count: _,
            log: _log,
            stand: _,
            steps: _,
            total: _,
            again: _,
        } = self;
    }
}

/// Puts these arguments, of which there are at most `MAX_PARAMETERS`, in the place of those before. Where there
/// are none, and were none, the place is left as it is.
#[inline(always)]
fn replace(kept: &mut Arguments, arguments: &[i64])
    requires { length arguments.now ≤ MAX_PARAMETERS }
    ensures { kept.new ≡ arguments.now }
{
    if !arguments.is_empty() || !kept.as_slice().is_empty() {
        kept.set(arguments);
    }
}

impl<'a> Attempt<'a> {
    /// An attempt of a transaction of the catalogue with these arguments, as many as it has parameters, and
    /// with an empty log. It takes no memory.
    pub fn new(alloc: Global, catalogue: &'a Catalogue, id: TxId, arguments: &[i64]) -> Attempt<'a>
        requires { IsCallable catalogue.now id arguments.now }
        ensures { result ≡ fresh_attempt catalogue.now id arguments.now }
    {
        catalogue.rules();
        Attempt {
            catalogue,
            id,
            arguments: Arguments::of(arguments),
            machine: Machine::new(alloc),
            count: Count::none(),
            log: LogTable::new(alloc),
            stand: Stand::Fresh,
            steps: 0,
            total: 0,
            again: 0,
        }
    }

    /// Makes it a fresh attempt of a transaction of the catalogue with these arguments, as many as it has
    /// parameters, in the room that it has. It takes no memory.
    #[inline(always)]
    pub fn restart(&mut self, catalogue: &'a Catalogue, id: TxId, arguments: &[i64])
        requires { IsCallable catalogue.now id arguments.now }
        ensures { self.new ≡ fresh_attempt catalogue.now id arguments.now }
    {
        catalogue.rules();
        self.catalogue = catalogue;
        self.id = id;
        replace(&mut self.arguments, arguments);
        self.machine.restart();
        self.count = Count::none();
        self.log.clear();
        self.stand = Stand::Fresh;
        self.steps = 0;
        self.total = 0;
        self.again = 0;
    }

    /// What the attempt was told, kept after it; the attempt begins anew. It takes no memory.
    pub fn take_log(&mut self) -> Log
        ensures log { result ≡ self.old.log }
        ensures anew { self.new ≡ begun_anew self.old }
    {
        let pairs = self.log.take_pairs();
        self.machine.restart();
        self.count = Count::none();
        self.stand = Stand::Fresh;
        self.steps = 0;
        self.total = 0;
        self.again = 0;
        Log { pairs }
    }

    /// What the attempt was told: each variable once, in the order of supply.
    pub fn log(&self) -> &[(VarId, i64)]
        ensures value { result.now ≡ self.now.log }
        ensures known { AllKnown self.now.variables result.now }
        ensures apart { Apart result.now }
    {
        self.log.as_slice()
    }

    /// What the attempt was told, kept after it. It takes no memory.
    pub fn into_log(self) -> Log
        ensures { result ≡ self.entry.log }
    {
        let Attempt {
            catalogue: _,
            id: _,
            arguments: _,
            machine: _machine,
            count: _,
            log,
            stand: _,
            steps: _,
            total: _,
            again: _,
        } = self;
        Log {
            pairs: log.into_pairs(),
        }
    }

    /// The writes that remain after the transaction returned, ascending by variable; else none.
    pub fn writes(&self) -> &[(VarId, i64)]
        ensures value { result.now ≡ self.now.writes }
        ensures known { AllKnown self.now.variables result.now }
        ensures ascending { Ascending result.now }
        ensures only { OnlyOfReturned self.now.stand result.now }
        ensures ends { (o : Outcome) → self.now.stand ≡ Stand.Over o
            → ask self.now.program self.now.log ≡ Ends o result.now }
    {
        match self.stand {
            Stand::Over(_) => self.machine.own.as_slice(),
            _ => &[],
        }
    }

    /// How the transaction ended. `None` exactly where it has not.
    pub fn outcome(&self) -> Option<Outcome>
        ensures some { IfSome result (λ o. self.now.stand ≡ Stand.Over o) }
        ensures none { IfNone result ((o : Outcome) → self.now.stand ≢ Stand.Over o) }
    {
        match self.stand {
            Stand::Over(outcome) => Some(outcome),
            _ => None,
        }
    }

    /// How many nodes of the program the last `advance` entered: none where it repeated an answer.
    pub fn steps(&self) -> u64
        ensures value { result ≡ self.now.steps }
        ensures few { result ≤ cost self.now.program }
    {
        self.steps
    }

    /// How many nodes of the program all calls of `advance` entered. No node is entered twice but
    /// the one that needed a variable, when it has its value.
    pub fn total(&self) -> u64
        ensures value { result ≡ self.now.total }
        ensures few { result ≤ cost self.now.program + length self.now.log }
    {
        self.total
    }

    /// Tells the attempt the value of the variable that it needs: the last `advance` answered
    /// `Need` of it, and it was not supplied since.
    ///
    /// Refused by `Memory` where the log has to grow and can't; then nothing changed. The first eight
    /// variables and cells take no memory.
    pub fn supply(&mut self, x: VarId, v: i64) -> Result<(), Memory>
        requires needed { self.old.stand ≡ Stand.Needs x }
        ensures ok { OnOk result (self.new ≡ supplied self.old x v) }
        ensures refused { OnErr result (self.new ≡ self.old) }
        ensures in_place { length self.old.log < 8 → IsOk result }
    {
        self.catalogue.rules();
        self.log.push(x, v)?;
        self.stand = Stand::Fresh;
        self.again = 1;
        Ok(())
    }

    /// Goes on from where the last call stopped, as far as the log allows: to the first variable
    /// that is neither written by the transaction nor in the log, or to the end. The answer is
    /// repeated until that variable is supplied, and an end is repeated for good.
    ///
    /// Where it would return, the standing conditions are tested in their order, over its own writes
    /// and the log: the first that is not true, or faults, is thrown as broken, and no write remains.
    ///
    /// Where it ends, then on every state that agrees with the log the transaction ends so too,
    /// and the state after it is that state with the `writes` stored in it.
    ///
    /// `Memory` where a growth was refused: an `orelse` takes memory, and so does a write in its
    /// first branch, or to a table's cell. Then the attempt is spent, and each later answer is `Memory`. A
    /// transaction without an `orelse` that writes no cell never meets it.
    pub fn advance(&mut self) -> Next
        ensures answers { Answers result self.new }
        ensures program { self.new.program ≡ self.old.program }
        ensures variables { self.new.variables ≡ self.old.variables }
        ensures log { self.new.log ≡ self.old.log }
        ensures asks_again { (x : VarId) → self.old.stand ≡ Stand.Needs x
            → (result ≡ Next.Need x) × (self.new ≡ idle self.old) }
        ensures repeats { (o : Outcome) → self.old.stand ≡ Stand.Over o
            → (result ≡ next_of o) × (self.new ≡ idle self.old) }
        ensures spent { self.old.stand ≡ Stand.Spent → (result ≡ Next.Memory) × (self.new ≡ idle self.old) }
        ensures steps { self.new.steps ≤ cost self.old.program }
        ensures adds { self.new.total ≡ self.old.total + self.new.steps }
        ensures total { self.new.total ≤ cost self.old.program + length self.old.log }
        ensures in_place { NeedsNoMemory self.old.program → self.old.stand ≢ Stand.Spent → result ≢ Next.Memory }
        ensures needed { (x : VarId) → result ≡ Next.Need x
            → (x.0 < self.new.variables) × (known_at self.new.log x ≡ None) }
        ensures frame { (m : State) → length m ≡ self.new.variables → Agrees self.new.log m
            → HoldsAt result self.new m }
    {
        self.steps = 0;
        let mut nothing: &[i64] = &[];
        match self.stand {
            Stand::Fresh => {
                self.go_on(&mut nothing);
                self.answer()
            }
            Stand::Over(outcome) => answer_of(outcome),
            Stand::Needs(x) => Next::Need(x),
            Stand::Spent => Next::Memory,
        }
    }

    /// Goes on as `advance` does, and reads what it needs by this reader: as if it were advanced,
    /// supplied with the value that is read, and advanced again.
    ///
    /// It answers `Need` where a variable can't be read, or where the log has no room for its value;
    /// otherwise the reader stays open. The log has grown by what was read, in the order in which it
    /// was needed, and agrees with the reader's values where it agreed before.
    pub fn advance_by<R: Reader>(&mut self, reader: &mut R) -> Next
        requires values { length (R.values reader.old) ≡ self.old.variables }
        ensures answers { Answers result self.new }
        ensures program { self.new.program ≡ self.old.program }
        ensures variables { self.new.variables ≡ self.old.variables }
        ensures reads { ReadsOn self.old.program (R.values reader.old) self.old.log self.new.log }
        ensures agrees { Agrees self.old.log (R.values reader.old) → Agrees self.new.log (R.values reader.old) }
        ensures known { AllKnown self.new.variables self.new.log }
        ensures apart { Apart self.new.log }
        ensures values { R.values reader.new ≡ R.values reader.old }
        ensures kept { R.kept reader.new ≡ R.kept reader.old }
        ensures open { ((x : VarId) → result ≢ Next.Need x) → R.is_open reader.old ≡ true
            → R.is_open reader.new ≡ true }
        ensures asks_again { (x : VarId) → self.old.stand ≡ Stand.Needs x
            → (result ≡ Next.Need x) × (self.new ≡ idle self.old) }
        ensures repeats { (o : Outcome) → self.old.stand ≡ Stand.Over o
            → (result ≡ next_of o) × (self.new ≡ idle self.old) }
        ensures spent { self.old.stand ≡ Stand.Spent → (result ≡ Next.Memory) × (self.new ≡ idle self.old) }
        ensures steps { self.new.steps ≤ cost self.old.program }
        ensures total { self.new.total ≤ cost self.old.program + length self.new.log }
        ensures in_place { NeedsNoMemory self.old.program → self.old.stand ≢ Stand.Spent → result ≢ Next.Memory }
        ensures needed { (x : VarId) → result ≡ Next.Need x
            → (x.0 < self.new.variables) × (known_at self.new.log x ≡ None) }
        ensures frame { (m : State) → length m ≡ self.new.variables → Agrees self.new.log m
            → HoldsAt result self.new m }
    {
        self.catalogue.rules();
        self.steps = 0;
        match self.stand {
            Stand::Fresh => {
                self.go_on(reader);
                self.answer()
            }
            Stand::Over(outcome) => answer_of(outcome),
            Stand::Needs(x) => Next::Need(x),
            Stand::Spent => Next::Memory,
        }
    }

    /// Brings a fresh attempt to its end on these values, one for each of the catalogue's variables:
    /// what it needs it reads there, as if it were advanced, supplied with that value, and advanced
    /// again. All that is logged before has to be as these values have it.
    ///
    /// The answer is the transaction's outcome on them, and the `writes` stored in them are the
    /// values after it. The log has grown by what was read, in the order in which it was needed, and
    /// `steps` are the nodes that were entered, each once.
    ///
    /// `Memory` where a growth was refused: of the log, then the attempt waits for the variable that
    /// it needs; or as in `advance`, then it is spent. A transaction without an `orelse` that writes no cell
    /// never meets it over at most eight variables and cells together.
    pub fn evaluate_on(&mut self, values: &[i64]) -> Result<Outcome, Memory>
        requires fresh { self.old.stand ≡ Stand.Fresh }
        requires values { length values.now ≡ self.old.variables }
        requires agrees { Agrees self.old.log values.now }
        ensures program { self.new.program ≡ self.old.program }
        ensures variables { self.new.variables ≡ self.old.variables }
        ensures reads { ReadsOn self.old.program values.now self.old.log self.new.log }
        ensures agrees { Agrees self.new.log values.now }
        ensures ended { IfOk result (λ o. self.new.stand ≡ Stand.Over o) }
        ensures outcome { IfOk result (λ o. outcome self.old.program values.now ≡ o) }
        ensures after { OnOk result (after self.old.program values.now ≡ store self.new.writes values.now) }
        ensures refused { OnErr result (IsHeldUp self.new.stand self.new) }
        ensures in_place { NeedsNoMemory self.old.program → self.new.stand ≢ Stand.Spent }
        ensures memory { OnErr result (NeedsNoMemory self.old.program → 8 < self.old.variables) }
        ensures steps { self.new.steps ≤ cost self.old.program }
    {
        self.catalogue.rules();
        let mut reader = values;
        self.go_on(&mut reader);
        let Stand::Over(outcome) = self.stand else {
            return Err(Memory);
        };
        Ok(outcome)
    }

    /// What it answers where it stands, once it was advanced.
    fn answer(&self) -> Next
        requires { self.now.stand ≢ Stand.Fresh }
        ensures answers { Answers result self.now }
        ensures needs { (x : VarId) → self.now.stand ≡ Stand.Needs x → result ≡ Next.Need x }
        ensures spent { result ≡ Next.Memory → self.now.stand ≡ Stand.Spent }
    {
        match self.stand {
            Stand::Needs(x) => Next::Need(x),
            Stand::Over(outcome) => answer_of(outcome),
            Stand::Spent => Next::Memory,
            Stand::Fresh => unreachable!(),
        }
    }

    /// Goes on with the machine where it stands, and reads what it needs and can be read.
    /// It is a call of its own, so that an answer that is repeated costs little.
    #[inline(never)]
    fn go_on<R: Reader>(&mut self, reader: &mut R)
        requires fresh { self.old.stand ≡ Stand.Fresh }
        requires values { length (R.values reader.old) ≤ MAX_VALUES }
        ensures advanced { self.new.stand ≢ Stand.Fresh }
        ensures stands { StandsAt self.new self.new.stand }
        ensures program { self.new.program ≡ self.old.program }
        ensures variables { self.new.variables ≡ self.old.variables }
        ensures reads { ReadsOn self.old.program (R.values reader.old) self.old.log self.new.log }
        ensures log { R.values reader.old ≡ [] → self.new.log ≡ self.old.log }
        ensures logged { AllKnown self.new.variables self.new.log }
        ensures apart { Apart self.new.log }
        ensures values { R.values reader.new ≡ R.values reader.old }
        ensures kept { R.kept reader.new ≡ R.kept reader.old }
        ensures open { ((x : VarId) → self.new.stand ≢ Stand.Needs x) → R.is_open reader.old ≡ true
            → R.is_open reader.new ≡ true }
        ensures known { ProgramKnown self.new.variables self.new.program }
        ensures steps { self.new.steps ≤ cost self.old.program }
        ensures adds { R.values reader.old ≡ [] → self.new.total ≡ self.old.total + self.new.steps }
        ensures total { self.new.total ≤ cost self.old.program + length self.new.log }
        ensures in_place { NeedsNoMemory self.old.program → self.new.stand ≢ Stand.Spent }
        ensures room { R.reads_all ≡ true → (x : VarId) → self.new.stand ≡ Stand.Needs x
            → x.0 < length (R.values reader.old)
            → 8 ≤ length self.new.log }
    {
        self.catalogue.rules();
        let before = self.count;
        let logged = self.log.len();
        let stand = run_on(
            &mut self.machine,
            &mut self.count,
            self.catalogue,
            self.id,
            self.arguments.as_slice(),
            &mut self.log,
            reader,
        );
        let reached = self.count.entered + self.count.ahead;
        let more = reached - before.entered - before.ahead;
        let steps = more + self.again;
        let in_all = self.log.len();
        let read = in_all - logged;
        self.steps = steps;
        self.total += steps + read as u64;
        self.again = 0;
        self.stand = stand;
        match stand {
            Stand::Needs(_) => {}
            Stand::Over(_) => self.machine.own.settle(),
            Stand::Spent => {}
            Stand::Fresh => unreachable!(),
        }
    }
}
