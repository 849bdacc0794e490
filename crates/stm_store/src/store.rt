//! What a host's lock guards: the book, which publishes to the cells.

ghost use Rattle.std.specs.Prelude.{◌≡◌, ◌⊎◌, ◌<◌, ◌≤◌, ◌+◌, length, All, None, [], IfOk, IfSome, false};
ghost use Rattle.std.specs.Coded.{codes};
ghost use Rattle.txn.specs.Codes.{coded_listing};
ghost use Rattle.txn_programs.specs.declared.limits.TheConstants.{MAX_TASKS};
ghost use Rattle.txn_programs.specs.Listing.{tasks};
ghost use Rattle.stm_store.specs.Working.{declaring};

use crate::opening::{HeldPass, cells_for};
use crate::program::Program;
use crate::tickets::Tickets;
use crate::worker::Worker;
use book::Book;
use cells::SharedCells;
use std::alloc::Global;
use txn::{Catalogue, Memory};

/// The tasks of a program, their journal, and the present values, over cells that are let go with the
/// last of the store and its workers. All calls are for one thread at a time: they stand under the host's
/// lock.
pub struct Store {
    pub(crate) alloc: Global,
    pub(crate) catalogue: &'static Catalogue,
    cells: SharedCells<'static>,
    pub(crate) book: Book<'static>,
    /// For the workers that are still to be made.
    passes: Vec<HeldPass>,
    /// After how many entries a checkpoint is made, 0 for never.
    pub(crate) every: u32,
    /// The number of the chapter.
    pub(crate) chapter: u64,
    /// By which the tasks of the book are known in all chapters.
    pub(crate) tickets: Tickets,
    ghost declared: { declaring book.catalogue ≡ declaring catalogue.now } by { Prim.hlevel (codes, coded_listing) },
    ghost wide: { length book.catalogue.initial ≡ length catalogue.now.initial },
    ghost shared: { book.cells ≡ cells },
    ghost own: { All (λ p. p.cells ≡ cells) passes.items },
    ghost counted: { cells.variables ≡ length catalogue.now.initial },
    ghost each: { length tickets.held ≡ length book.tasks },
    ghost fits: { length book.tasks + book.spare ≤ tickets.room },
    ghost room: { book.room ≡ tickets.room },
}

/// Written by hand, so that its end is one call wherever a store is owned.
impl Drop for Store {
    fn drop(self) {
        let Store {
            alloc: _,
            catalogue: _,
            cells: _cells,
            book: _book,
            passes: _passes,
            every: _,
            chapter: _,
            tickets: _tickets,
        } = self;
    }
}

impl Store {
    ghost use Rattle.book.specs.View.{opened};
    ghost use Rattle.book.specs.LawfulBook.{LawfulBook, BookFits, KeepsConditions};
    ghost use Rattle.stm_store.specs.Keeping.{KeepsStore};
    ghost use Rattle.stm_store.specs.Tickets.{AreNumbers, AreTickets};

    /// All tasks ready, the initial values, an empty journal, and room for so many workers, at most
    /// 32. Where `every` is not 0, a commit that makes the journal at least so many entries long is
    /// followed by a checkpoint. `Memory` only where a growth was refused.
    ///
    /// The cells' memory is kept until the store and all its workers are let go. A store with no worker has
    /// cells that nobody reads, so that its commits store no word in them.
    pub fn open(
        alloc: Global,
        program: Program,
        workers: usize,
        every: u32,
    ) -> Result<Store, Memory>
        requires { workers ≤ 32 }
        ensures opened { IfOk result (λ s. s.book ≡ opened program.catalogue.now s.cells 0) }
        ensures numbers { IfOk result (λ s. AreNumbers s.tickets.held (length (tasks program.catalogue.now))) }
        ensures given { IfOk result (λ s. s.tickets.given ≡ length (tasks program.catalogue.now)) }
        ensures catalogue { IfOk result (λ s. s.catalogue.now ≡ program.catalogue.now) }
        ensures workers { IfOk result (λ s. length s.passes.items ≡ workers) }
        ensures unread { workers ≡ 0 → IfOk result (λ s. s.cells.are_read ≡ false) }
        ensures every { IfOk result (λ s. s.every ≡ every) }
        ensures chapter { IfOk result (λ s. s.chapter ≡ 0) }
    {
        // To ask for the tasks is to be told that they are not too many.
        let _tasks = program.catalogue.tasks();
        Store::open_with_room(alloc, program, workers, every, 0)
    }

    /// As `open`, with room for so many tasks more, which can be submitted.
    pub fn open_with_room(
        alloc: Global,
        program: Program,
        workers: usize,
        every: u32,
        spare: usize,
    ) -> Result<Store, Memory>
        requires workers { workers ≤ 32 }
        requires few { length (tasks program.catalogue.now) + spare ≤ MAX_TASKS }
        ensures opened { IfOk result (λ s. s.book ≡ opened program.catalogue.now s.cells spare) }
        ensures numbers { IfOk result (λ s. AreNumbers s.tickets.held (length (tasks program.catalogue.now))) }
        ensures given { IfOk result (λ s. s.tickets.given ≡ length (tasks program.catalogue.now)) }
        ensures catalogue { IfOk result (λ s. s.catalogue.now ≡ program.catalogue.now) }
        ensures workers { IfOk result (λ s. length s.passes.items ≡ workers) }
        ensures unread { workers ≡ 0 → IfOk result (λ s. s.cells.are_read ≡ false) }
        ensures every { IfOk result (λ s. s.every ≡ every) }
        ensures chapter { IfOk result (λ s. s.chapter ≡ 0) }
    {
        let catalogue = program.catalogue;
        let count = catalogue.tasks();
        let tickets = Tickets::first(alloc, count, count + spare)?;
        let (cells, publisher, passes) = cells_for(alloc, catalogue, workers)?;
        let book = Book::open_shared(alloc, catalogue, cells.again()?, publisher, spare)?;
        Ok(Store {
            alloc,
            catalogue,
            cells,
            book,
            passes,
            every,
            chapter: 0,
            tickets,
        })
    }

    /// A worker of this store. `None` exactly where as many were made as it was opened for, or the
    /// program has no transaction; then nothing changed.
    pub fn worker(&mut self) -> Option<Worker>
        ensures of { IfSome result (λ w. w.catalogue.now ≡ self.old.catalogue.now) }
        ensures own { IfSome result (λ w. w.cells ≡ self.old.cells) }
        ensures ended { IfSome result (λ w. w.ended ≡ None) }
        ensures fewer { IfSome result (λ w. length self.new.passes.items + 1 ≡ length self.old.passes.items) }
        ensures some { IfSome result (λ w. 0 < length self.old.catalogue.now.transactions) }
        ensures none { result ≡ None → (self.old.passes.items ≡ []) ⊎ (self.old.catalogue.now.transactions ≡ []) }
        ensures unchanged { result ≡ None → self.new.passes.items ≡ self.old.passes.items }
        ensures book { self.new.book ≡ self.old.book }
        ensures tickets { self.new.tickets ≡ self.old.tickets }
        ensures catalogue { self.new.catalogue.now ≡ self.old.catalogue.now }
        ensures cells { self.new.cells ≡ self.old.cells }
        ensures every { self.new.every ≡ self.old.every }
        ensures chapter { self.new.chapter ≡ self.old.chapter }
    {
        if self.catalogue.tx_count() == 0 {
            return None;
        }
        let held = self.passes.pop()?;
        Some(Worker::open(self.alloc, self.catalogue, held))
    }

    /// The number of the chapter, from 0 on. After 2^64 chapters they are counted anew.
    pub fn chapter(&self) -> u64
        ensures { result ≡ self.now.chapter }
    {
        self.chapter
    }

    /// What every store keeps: its journal explains the present, no task is entered twice, what waits
    /// retries on the present values, no state that it had breaks a standing condition of its
    /// program, its book declares what its program does, and no two tasks have the same ticket. It does
    /// nothing: its contract is the law.
    pub fn law(&self)
        ensures lawful { LawfulBook self.now.book }
        ensures fits { BookFits self.now.book }
        ensures upheld { KeepsConditions self.now.book }
        ensures declared { declaring self.now.book.catalogue ≡ declaring self.now.catalogue.now }
        ensures wide { length self.now.book.catalogue.initial ≡ length self.now.catalogue.now.initial }
        ensures tickets { AreTickets self.now.tickets }
        ensures each { length self.now.tickets.held ≡ length self.now.book.tasks }
    {
        self.book.law();
        self.tickets.law();
    }

    /// The program that it is of.
    pub fn catalogue(&self) -> &'static Catalogue
        ensures { result.now ≡ self.now.catalogue.now }
    {
        self.catalogue
    }
}
