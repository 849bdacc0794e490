//! A list of what happened that only clauses read. It takes no memory, and its methods do nothing at run time.
ghost use Rattle.std.specs.Prelude.{◌≡◌, List, [], ◌∷◌, ◌++◌};
ghost use Rattle.std.specs.Borrow.{ftrue};

use std::marker::{Model, PhantomData};

/// Pairs, the oldest first: to whom it happened, and what. A clause reads them as `items`.
#[derive(Drop)]
pub struct Log<A, B> {
    of: PhantomData<(A, B)>,
    pub ghost items: { List (A × B) },
}

impl<A, B> Model for Log<A, B> {
    ghost also_owns = { λ _. ftrue };
}

// It owns nothing.
unsafe impl<A: Send, B: Send> Send for Log<A, B> {}

impl<A, B> Log<A, B> {
    /// Nothing happened yet.
    pub fn new() -> Log<A, B>
        ensures { result.items ≡ [] }
    {
        Log { of: PhantomData }
    }

    /// And this happened after it.
    pub fn and(&self, to: &A, what: &B) -> Log<A, B>
        ensures { result.items ≡ self.now.items ++ (to.now, what.now) ∷ [] }
    {
        Log { of: PhantomData }
    }
}
