//! An attempt that began, and its loads.

ghost use Rattle.std.specs.Prelude.{◌≡◌, ◌≢◌, ◌<◌, length, true, None, Some, IfOk, OnErr, IsOk, Decides};
ghost use Rattle.txn_programs.specs.Listing.{tasks};
ghost use Rattle.attempt.specs.declared.next.Stand.TheVariants as Stand;
ghost use Rattle.world_law.specs.declared.events.Seen.TheVariants as seen;
ghost use Rattle.world_law.specs.declared.events.Fate.TheVariants as fate;
ghost use Rattle.attempt.specs.declared.next.Next.TheVariants as next;
ghost use Rattle.txn_programs.specs.declared.ast.VarId.{VarId};
ghost use Rattle.world_law.specs.World.{bound, is_live};
ghost use Rattle.world.specs.declared.trial.Checking.{Checking};
ghost use Rattle.world.specs.Trials.{started_of, wants, CanEndRead, MayGoAgain, ChecksOn, Compares};
ghost use Rattle.world.specs.Trials.{LoadsFirst, LoadsValue, LoadsSecond, ReadsOn, GoesOn, GoesAgain};
ghost use Rattle.world.specs.Trials.{Begins, told_value, shortened_trial, answer_seen, answer_fate};

use crate::kept_attempt::KeptAttempt;
use attempt::Next;
use std::alloc::{AllocError, Global};
use txn::{Catalogue, Memory, Outcome, TaskId, VarId};
use world_law::{Fate, Loads, Seen};

/// The state that an attempt which runs again checks: its number, and how many of the pairs that it
/// read it has found to be so there.
#[derive(Clone, Copy)]
pub struct Checking {
    pub candidate: u64,
    pub checked: usize,
}

/// An attempt that began. `at` is what it answers; `movable` says that it became stale at a load,
/// and so may run again.
#[derive(Drop)]
pub struct Trial<'a> {
    pub task: TaskId,
    pub rv: u64,
    pub attempt: KeptAttempt<'a>,
    pub at: Next,
    pub loads: Loads,
    pub fate: Fate,
    pub movable: bool,
    pub check: Option<Checking>,
}

impl<'a> Trial<'a> {
    /// The variable that it reads: the one that it needs, or, while it checks, that of the pair that
    /// it has come to.
    pub fn wants(&self) -> Option<VarId>
        requires { (x : VarId) → self.now.at ≡ next.Need x → x.0 < self.now.attempt.variables }
        ensures value { result ≡ wants self.now }
        ensures known { (x : VarId) → result ≡ Some x → x.0 < self.now.attempt.variables }
    {
        match self.at {
            Next::Need(x) => match self.check {
                Some(check) => {
                    let log = self.attempt.log();
                    if check.checked < log.len() {
                        Some(log[check.checked].0)
                    } else {
                        None
                    }
                }
                None => Some(x),
            },
            _ => None,
        }
    }

    /// The number of the state whose values it loads.
    fn bound(&self) -> u64
        ensures { result ≡ bound (started_of self.now) }
    {
        match self.check {
            Some(check) => check.candidate,
            None => self.rv,
        }
    }

    /// It becomes stale at a load.
    fn go_stale(&mut self) -> Seen
        ensures told { result ≡ seen.Stale }
        ensures stale { self.new ≡ record self.old { fate = fate.Stale; movable = true } }
    {
        self.fate = Fate::Stale;
        self.movable = true;
        Seen::Stale
    }

    /// It begins a read: it loads the version word.
    pub fn load_first(&mut self, version: u64) -> Seen
        ensures { LoadsFirst self.old version result self.new }
    {
        match self.loads {
            Loads::Nothing => {
                if version % 2 == 1 || self.bound() < version / 2 {
                    self.go_stale()
                } else {
                    self.loads = Loads::Version(version);
                    Seen::Loaded
                }
            }
            _ => Seen::Idle,
        }
    }

    /// It goes on with its read: it loads the value word.
    pub fn load_value(&mut self, bits: u64) -> Seen
        ensures { LoadsValue self.old bits result self.new }
    {
        match self.loads {
            Loads::Version(first) => {
                self.loads = Loads::Value(first, bits);
                Seen::Loaded
            }
            _ => Seen::Idle,
        }
    }

    /// It ends its read of x, which it wants: it loads the version word again, and where that is
    /// the one that it loaded first the read is good. `Memory` where its log can't grow; then it is
    /// as it was. While it checks that does not come.
    pub fn load_second(&mut self, x: VarId, version: u64) -> Result<Seen, Memory>
        requires { CanEndRead self.old x self.old.check }
        ensures ok { IfOk result (λ s. LoadsSecond self.old x version s self.new) }
        ensures refused { OnErr result (self.new ≡ self.old) }
        ensures sure { self.old.check ≢ None → IsOk result }
    {
        match self.loads {
            Loads::Value(first, bits) => {
                if version != first {
                    return Ok(self.go_stale());
                }
                self.end_read(x, bits)
            }
            _ => Ok(Seen::Idle),
        }
    }

    /// Its read of x is good: it knows the value, or compares it with what it read before.
    fn end_read(&mut self, x: VarId, bits: u64) -> Result<Seen, Memory>
        requires { CanEndRead self.old x self.old.check }
        ensures ok { IfOk result (λ s. ReadsOn self.old x bits self.old.check s self.new) }
        ensures refused { OnErr result (self.new ≡ self.old) }
        ensures sure { self.old.check ≢ None → IsOk result }
    {
        match self.check {
            Some(check) => Ok(self.compare(check, bits.cast_signed())),
            None => self.know(x, bits),
        }
    }

    /// It knows the value of x, which it needs, and goes on.
    fn know(&mut self, x: VarId, bits: u64) -> Result<Seen, Memory>
        requires { self.old.attempt.stand ≡ Stand.Needs x }
        ensures ok { IfOk result (λ s. GoesOn (told_value self.old x bits) s self.new) }
        ensures refused { OnErr result (self.new ≡ self.old) }
    {
        self.attempt.supply(x, bits.cast_signed())?;
        self.loads = Loads::Nothing;
        Ok(self.go_on())
    }

    /// It compares a value with the one that it read before, and goes on with its check where they
    /// are the same.
    fn compare(&mut self, check: Checking, value: i64) -> Seen
        requires { check.checked < length self.old.attempt.log }
        ensures { Compares self.old check value result self.new }
    {
        if self.attempt.log()[check.checked].1 == value {
            self.check_on(check.candidate, check.checked + 1)
        } else {
            self.fate = Fate::Stale;
            Seen::Changed
        }
    }

    /// It has found so many of the pairs that it read to be so in the state of this number: it
    /// checks the next one, or, where none is left, it has moved there.
    fn check_on(&mut self, candidate: u64, checked: usize) -> Seen
        ensures { ChecksOn self.old candidate checked result self.new }
    {
        self.loads = Loads::Nothing;
        match self.attempt.log().get(checked).copied() {
            Some((x, _)) => {
                self.check = Some(Checking { candidate, checked });
                Seen::Checks(x)
            }
            None => {
                self.rv = candidate;
                self.check = None;
                seen_of(self.at)
            }
        }
    }

    /// Whether it may run again: it became stale at a load.
    pub fn may_go_again(&self) -> bool
        ensures { Decides result (MayGoAgain self.now) }
    {
        match (self.at, self.fate) {
            (Next::Need(_), Fate::Stale) => self.movable,
            _ => false,
        }
    }

    /// It runs again: it has loaded the clock, and checks what it read in that state.
    pub fn go_again(&mut self, clock: u64) -> Seen
        ensures { GoesAgain self.old clock result self.new }
    {
        self.fate = Fate::Running;
        self.movable = false;
        self.check_on(clock, 0)
    }

    /// It is finished: it keeps its log alone, and answers no more than that it can't go on.
    pub fn shorten(&mut self)
        ensures { self.new ≡ shortened_trial self.old }
    {
        self.attempt.shorten();
        self.at = Next::Memory;
    }

    /// It evaluates as far as it can.
    fn go_on(&mut self) -> Seen
        ensures { GoesOn self.old result self.new }
    {
        self.at = self.attempt.advance();
        self.fate = fate_after(self.at, self.fate);
        seen_of(self.at)
    }
}

/// An attempt of the task that has gone on as far as it can with nothing read, and what is seen.
pub fn first_asked<'a>(
    alloc: Global,
    catalogue: &'a Catalogue,
    task: TaskId,
    rv: u64,
) -> Result<(Trial<'a>, Seen), AllocError>
    requires { task.0 < length (tasks catalogue.now) }
    ensures { IfOk result (λ r. Begins catalogue.now task rv r.0 r.1) }
{
    let tx = catalogue.task_tx(task);
    let arguments = catalogue.task_arguments(task);
    let mut attempt = KeptAttempt::new(alloc, catalogue, tx, arguments)?;
    let at = attempt.advance();
    let trial = Trial {
        task,
        rv,
        attempt,
        at,
        loads: Loads::Nothing,
        fate: fate_after(at, Fate::Running),
        movable: false,
        check: None,
    };
    Ok((trial, seen_of(at)))
}

/// What is seen of an attempt that answers so.
fn seen_of(at: Next) -> Seen
    ensures { result ≡ answer_seen at }
{
    match at {
        Next::Need(x) => Seen::Needs(x),
        Next::Returned(v) => Seen::Ended(Outcome::Returned(v)),
        Next::Thrown(f) => Seen::Ended(Outcome::Thrown(f)),
        Next::Retry => Seen::Ended(Outcome::Retries),
        Next::Memory => Seen::Spent,
    }
}

/// What becomes of it: it is spent where it ran out of memory.
fn fate_after(at: Next, fate: Fate) -> Fate
    ensures { result ≡ answer_fate at fate }
{
    match at {
        Next::Memory => Fate::Spent,
        _ => fate,
    }
}

/// Whether it keeps its task from beginning again.
pub fn lives(fate: Fate) -> bool
    ensures { result ≡ is_live fate }
{
    match fate {
        Fate::Running => true,
        Fate::Committed(_) => true,
        _ => false,
    }
}
