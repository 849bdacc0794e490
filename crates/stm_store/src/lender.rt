//! An attempt that is lent to a store, by whoever reads no cells.

ghost use Rattle.std.specs.Prelude.{◌≡◌, ◌<◌, [], None, IfSome, length};

use crate::store::Store;
use crate::worker::idle;
use attempt::Attempt;
use std::alloc::Global;
use txn::Catalogue;

/// An attempt for the turns of a store, and no pass of its cells: so that the cells of a store that
/// was opened for no worker stay as nobody reads them. It may outlive its store, and serve others.
pub struct Lender {
    pub(crate) attempt: Attempt<'static>,
}

/// Written by hand, so that its end is one call wherever a lender is owned.
impl Drop for Lender {
    fn drop(self) {
        let Lender { attempt: _attempt } = self;
    }
}

impl Lender {
    /// A lender of a catalogue that has a transaction.
    pub(crate) fn open(alloc: Global, catalogue: &'static Catalogue) -> Lender
        requires { 0 < length catalogue.now.transactions }
    {
        Lender {
            attempt: idle(alloc, catalogue),
        }
    }
}

impl Store {
    /// An attempt for the turns of this store, and no pass of its cells. `None` exactly where the
    /// program has no transaction.
    pub fn lender(&self) -> Option<Lender>
        ensures some { IfSome result (λ _. 0 < length self.now.catalogue.now.transactions) }
        ensures none { result ≡ None → self.now.catalogue.now.transactions ≡ [] }
    {
        if self.catalogue.tx_count() == 0 {
            return None;
        }
        Some(Lender::open(self.alloc, self.catalogue))
    }
}
