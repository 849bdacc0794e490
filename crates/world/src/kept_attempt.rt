//! An attempt as a world keeps it.

ghost use Rattle.std.specs.Prelude.{◌≡◌, ◌≢◌, ◌<◌, None, IfOk, OnOk, OnErr};
ghost use Rattle.attempt.specs.Asking.{known_at};
ghost use Rattle.attempt.specs.Order.{AllKnown};
ghost use Rattle.attempt.specs.Room.{NeedsNoMemory};
ghost use Rattle.attempt.specs.View.{fresh_attempt, supplied, Answers};
ghost use Rattle.attempt.specs.declared.next.Stand.TheVariants as Stand;
ghost use Rattle.attempt.specs.declared.next.Next.TheVariants as next;
ghost use Rattle.txn_programs.specs.Listing.{IsCallable};
ghost use Rattle.txn_programs.specs.declared.ast.VarId.{VarId};
ghost use Rattle.world.specs.KeptAttempts.{shortened};

use attempt::{Attempt, Log, Next};
use std::alloc::{AllocError, Global};
use std::marker::Model;
use txn::{Catalogue, Memory, TxId, VarId};

/// What is kept of an attempt. A whole one takes eleven thousand bytes, so it stands apart, alone in a list: it is
/// put there and dropped there. What moves in and out of a box goes over the stack, and a step held three of them.
#[derive(Drop)]
enum Parts<'a> {
    Whole(Vec<Attempt<'a>>),
    LogAlone(Log),
}

/// An attempt of a call: whole while it may go on, and then its log alone. A clause sees an
/// `AttemptView`; one of which the log alone is kept is spent.
#[derive(Drop)]
pub struct KeptAttempt<'a> {
    catalogue: &'a Catalogue,
    id: TxId,
    arguments: &'a [i64],
    parts: Parts<'a>,
}

impl<'a> Model for KeptAttempt<'a> {
    ghost use Rattle.attempt.specs.View.{AttemptView};
    ghost use Rattle.std.specs.Coded.{codes};
    ghost use Rattle.attempt.specs.CodedProgram.{coded_program};

    ghost Value = { AttemptView };

    ghost coded = { Prim.hlevel (codes, coded_program) };

    ghost use Rattle.world.specs.KeptAttemptInside.{viewed, IsKept};

    ghost view = { viewed };

    ghost invariant = { IsKept };
}

impl<'a> KeptAttempt<'a> {
    /// An attempt of a transaction of the catalogue with these arguments, as many as it wants, and an
    /// empty log.
    pub fn new(
        alloc: Global,
        catalogue: &'a Catalogue,
        id: TxId,
        arguments: &'a [i64],
    ) -> Result<KeptAttempt<'a>, AllocError>
        requires { IsCallable catalogue.now id arguments.now }
        ensures { IfOk result (λ a. a ≡ fresh_attempt catalogue.now id arguments.now) }
    {
        let mut alone = Vec::with_capacity(alloc, 1)?;
        alone.push_reserved(Attempt::new(alloc, catalogue, id, arguments));
        Ok(KeptAttempt {
            catalogue,
            id,
            arguments,
            parts: Parts::Whole(alone),
        })
    }

    /// What it was told: each variable once, in the order of supply.
    pub fn log(&self) -> &[(VarId, i64)]
        ensures value { result.now ≡ self.now.log }
        ensures known { AllKnown self.now.variables result.now }
    {
        match &self.parts {
            Parts::Whole(alone) => alone[0].log(),
            Parts::LogAlone(log) => log.as_slice(),
        }
    }

    /// The writes that remain after it returned, ascending by variable; else none.
    pub fn writes(&self) -> &[(VarId, i64)]
        ensures value { result.now ≡ self.now.writes }
        ensures known { AllKnown self.now.variables result.now }
    {
        match &self.parts {
            Parts::Whole(alone) => alone[0].writes(),
            Parts::LogAlone(_) => &[],
        }
    }

    /// Tells it the value of the variable that it needs. `Memory` where its log can't grow; then it
    /// is as it was.
    pub fn supply(&mut self, x: VarId, value: i64) -> Result<(), Memory>
        requires needed { self.old.stand ≡ Stand.Needs x }
        ensures ok { OnOk result (self.new ≡ supplied self.old x value) }
        ensures refused { OnErr result (self.new ≡ self.old) }
    {
        match &mut self.parts {
            Parts::Whole(alone) => alone[0].supply(x, value),
            Parts::LogAlone(_) => unreachable!(),
        }
    }

    /// It goes on as far as its log allows, as an attempt does. One of which the log alone is kept
    /// answers as a spent one.
    pub fn advance(&mut self) -> Next
        ensures answers { Answers result self.new }
        ensures program { self.new.program ≡ self.old.program }
        ensures variables { self.new.variables ≡ self.old.variables }
        ensures log { self.new.log ≡ self.old.log }
        ensures in_place { NeedsNoMemory self.old.program → self.old.stand ≢ Stand.Spent → result ≢ next.Memory }
        ensures needed { (x : VarId) → result ≡ next.Need x
            → (x.0 < self.new.variables) × (known_at self.new.log x ≡ None) }
    {
        let Parts::Whole(alone) = &mut self.parts else {
            return Next::Memory;
        };
        alone[0].advance()
    }

    /// It keeps its log alone. It takes no memory, and gives back what it does not keep.
    pub fn shorten(&mut self)
        ensures { self.new ≡ shortened self.old }
    {
        let log = match &mut self.parts {
            Parts::Whole(alone) => {
                let attempt = &mut alone[0];
                // Each logged variable exists: so does each of the log alone.
                let _known = attempt.log();
                attempt.take_log()
            }
            Parts::LogAlone(_) => return,
        };
        self.parts = Parts::LogAlone(log);
    }
}
