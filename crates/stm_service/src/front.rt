//! What threads have seen of the history of a service.

ghost use Rattle.std.specs.Prelude.{◌≡◌, ◌≤◌, ◌^◌, ◌<◌, ◌⊎◌, ◌++◌, ◌∷◌, [], true, false, length, MatchBool};
ghost use Rattle.stm_desk.specs.Answering.{history_of};
ghost use Rattle.stm_desk.specs.History.{Begins, IsLegal};
ghost use Rattle.stm_service.specs.Pieces.{head_of};

use crate::name::Naming;
use logbook::{Gain, Offer, Plain, Play, Rule, Seen, Start, Word};
use std::marker::{Model, PhantomData};
use std::snapshot::Snapshot;
use std::sync::Wait;
use stm_desk::Desk;

/// What is shown of a desk: all that its history has more than was shown before.
#[derive(Drop)]
pub struct Piece {
    desk: Snapshot<Desk>,
}

/// The rule of the pieces: their number is counted by the word.
pub struct Counted;

impl Rule<Piece, u64> for Counted {
    ghost use Rattle.std.specs.Prelude.{[]};
    ghost use base.Fml.{ftrue};
    ghost use Rattle.stm_service.specs.Pieces.{IsCounted};

    ghost holds = { IsCounted };

    ghost first = { [] };

    ghost hinted = { λ n log. Unit {0} };

    ghost shows = { λ log. [] };

    ghost keeps = { λ names log. ftrue };

    ghost moves = { λ ask before after answer. Unit {0} };
}

/// Nobody trades anything for a piece.
pub struct Nothing;

impl Gain<Piece, u64> for Nothing {
    ghost use base.Fml.{ftrue};

    ghost after = { λ names about answer. ftrue };
}

/// A step that adds a piece.
pub struct Add;

impl Play<Piece, u64> for Add {
    ghost use Rattle.stm_service.specs.Pieces.{Adds};

    ghost then = { Adds };
}

impl Plain<Piece, Piece, u64> for Add {
    ghost use Rattle.std.specs.Prelude.{None};

    ghost ask = { λ piece. piece };

    ghost state = { λ piece. None };
}

/// A history in which nothing has happened, and which has no name yet.
pub struct Opened {
    head: Word<Piece, u64, Counted>,
    seen: Seen<Piece, u64, Counted>,
    pub ghost empty: { seen.log ≡ [] },
    pub ghost head_is: { head ≡ head_of seen.book },
}

impl Opened {
    /// One of its own.
    pub fn new() -> Opened {
        let (seen, mut first, _second) = Seen::open(Start::alone(), 0, 0);
        Opened {
            head: Word::tracked(0, &mut first),
            seen,
        }
    }

    /// The same under its name: the word that counts it, and a front that has seen nothing.
    pub(crate) fn named<N: Naming>(self) -> (Head<N>, Front<N>)
        requires { self.seen.book ≡ N.book }
        ensures { result.1 ≡ [] }
    {
        let Opened { head, seen } = self;
        (
            Head {
                word: head,
                of: PhantomData,
            },
            Front {
                count: 0,
                seen,
                of: PhantomData,
            },
        )
    }
}

/// The word that counts the pieces of a history.
#[derive(Drop)]
pub(crate) struct Head<N: Naming> {
    word: Word<Piece, u64, Counted>,
    of: PhantomData<N>,
    ghost head_is: { word ≡ head_of N.book },
}

/// What its holder has seen of a service: a beginning of the one history of that service, and a contract sees it as
/// that. It is legal from the values with which the service was opened. It may be copied, and sent to other threads.
#[derive(Drop)]
pub struct Front<N: Naming> {
    /// Of so many pieces.
    count: u64,
    seen: Seen<Piece, u64, Counted>,
    of: PhantomData<N>,
}

impl<N: Naming> Model for Front<N> {
    ghost use Rattle.std.specs.Prelude.{◌≡◌, [], length};
    ghost use Rattle.stm_desk.specs.History.{History, IsLegal};
    ghost use Rattle.stm_service.specs.Pieces.{joined};

    ghost Value = { History };

    ghost view = { λ f. joined [] f.seen.log };

    ghost invariant = { λ f. (f.count ≡ length f.seen.log) × (f.seen.book ≡ N.book)
        × ∥ IsLegal N.catalogue N.first (joined [] f.seen.log) ∥₁ };
}

/// No history has so many pieces.
const MOST: u64 = 1 << 62;

impl<N: Naming> Front<N> {
    /// A copy: whoever has it has seen as much.
    pub fn again(&self) -> Front<N>
        ensures { result ≡ self.now }
    {
        Front {
            count: self.count,
            seen: self.seen.again(),
            of: PhantomData,
        }
    }

    /// Whoever holds it has then seen what both have. Of two fronts of a service one begins the other.
    pub fn learn(&mut self, other: &Front<N>)
        ensures own { Begins self.old self.new }
        ensures others { Begins other.now self.new }
        ensures one { (self.new ≡ self.old) ⊎ (self.new ≡ other.now) }
    {
        if !self.covers(other) {
            *self = other.again();
        }
    }

    /// Whether it has seen all that the other has. Else the other has seen all that it has.
    pub(crate) fn covers(&self, other: &Front<N>) -> bool
        ensures { MatchBool result (Begins other.now self.now) (Begins self.now other.now) }
    {
        let mut both = self.seen.again();
        both.learn(&other.seen);
        other.count <= self.count
    }

    /// What it has seen is legal: each call of it has its outcome on the values to which all before it lead, and no
    /// task stands in it twice. It does nothing: its contract is the law.
    pub fn law(&self)
        ensures { ∥ IsLegal N.catalogue N.first self.now ∥₁ }
    {
        // To look at a field is to be told what the type keeps.
        let _count = self.count;
    }

    /// Adds what the desk's history has more, if nobody has added anything meanwhile; else nothing changes.
    fn try_add(&mut self, head: &Head<N>, desk: &Desk) -> bool
        requires begins { Begins self.old (history_of desk.now) }
        requires legal { ∥ IsLegal N.catalogue N.first (history_of desk.now) ∥₁ }
        ensures { MatchBool result (self.new ≡ history_of desk.now) (self.new ≡ self.old) }
    {
        if self.count >= MOST {
            return false;
        }
        let piece = Piece {
            desk: Snapshot::of(desk),
        };
        let mut seen = self.seen.again();
        let mut offer: Offer<Piece, u64, Counted, Nothing> = seen.plain::<Nothing, Piece, Add>(
            &piece,
        );
        let mut pen = seen.no_pen();
        let count = self.count;
        let found = head
            .word
            .compare_exchange::<Add, Nothing>(count, count + 1, &mut seen, &mut offer, &mut pen);
        if found != count {
            return false;
        }
        self.seen = seen;
        self.count = count + 1;
        true
    }

    /// Adds what the desk's history has more. Only whoever has the lock adds, so that the first try does it.
    pub(crate) fn add<R: Wait>(&mut self, rt: &R, head: &Head<N>, desk: &Desk)
        requires begins { Begins self.old (history_of desk.now) }
        requires legal { ∥ IsLegal N.catalogue N.first (history_of desk.now) ∥₁ }
        ensures { self.new ≡ history_of desk.now }
    {
        for _ in rt.forever() {
            if self.try_add(head, desk) {
                return;
            }
        }
        unreachable!()
    }
}
