//! By which name a lock knows its program and its history.

ghost use Rattle.std.specs.Prelude.{[]};
ghost use Rattle.logbook.specs.Pages.{Book};
ghost use Rattle.txn_programs.specs.Listing.{Listing};
ghost use Rattle.txn_programs.specs.Meaning.{State};

use std::marker::Brand;

/// Of which program a service is, with which values it was opened, and in which book its history is shown. What a lock
/// guards is known by its type alone, so the type says it.
pub trait Naming: Send {
    ghost catalogue: { Listing };

    ghost first: { State };

    ghost book: { Book };
}

impl Naming for Brand {
    ghost catalogue = { record { names = []; tables = []; initial = []; always = []; transactions = []; runs = [] } };

    ghost first = { [] };

    ghost book = { record { number = 0; log_name = 0; cells_name = 0 } };
}
