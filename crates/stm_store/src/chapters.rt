//! The chapters of a store's life.

ghost use Rattle.std.specs.Prelude.{◌≡◌, ◌↔◌, IsTrue};
ghost use Rattle.book.specs.View.{checkpointed};
ghost use Rattle.book.specs.Chapters.{chapter_of, entered_in_all};
ghost use Rattle.stm_store.specs.Asking.{HasRoomNext};
ghost use Rattle.stm_store.specs.Keeping.{KeepsTasks};
ghost use Rattle.stm_store.specs.Tickets.{kept_tickets};
ghost use Rattle.stm_store.specs.Working.{next_number};

use crate::store::Store;

/// How many entries a life of a store can have.
const MOST_ENTRIES: u64 = 1 << 62;

impl Store {
    /// The base becomes the present number, values and versions, and the journal is empty. It takes
    /// no memory.
    pub fn checkpoint(&mut self)
        ensures checkpointed { self.new.book ≡ checkpointed self.old.book }
        ensures kept { KeepsTasks self.old self.new }
    {
        self.book.checkpoint();
    }

    /// A new chapter begins where the present one is: the tasks that are ready, running or parked come
    /// over with their tickets, in their order, and are numbered anew; a running one is ready there, and a
    /// parked one waits as it did. A job that was taken before is refused from now on, and a ticket of a task
    /// that is done or given up is a task's no more. It is never refused, and takes no memory.
    pub fn begin_chapter(&mut self)
        ensures book { self.new.book ≡ chapter_of self.old.book }
        ensures tickets { self.new.tickets ≡ kept_tickets self.old.tickets self.old.book }
        ensures chapter { self.new.chapter ≡ next_number self.old.chapter }
        ensures catalogue { self.new.catalogue.now ≡ self.old.catalogue.now }
        ensures cells { self.new.cells ≡ self.old.cells }
        ensures workers { self.new.passes.items ≡ self.old.passes.items }
        ensures every { self.new.every ≡ self.old.every }
    {
        self.book.law();
        self.tickets.keep_staying(&self.book);
        self.book.begin_chapter();
        self.chapter = self.chapter.wrapping_add(1);
    }

    /// Whether the next chapter would have room for a task more, and a ticket for it, if it began now.
    pub fn has_room_next(&self) -> bool
        ensures { IsTrue result ↔ HasRoomNext self.now }
    {
        !self.tickets.are_used_up() && self.spare_next() > 0
    }

    /// How many tasks more the next chapter would have room for, if it began now.
    fn spare_next(&self) -> usize
        ensures { result ≡ (chapter_of self.now.book).spare }
    {
        let left = MOST_ENTRIES.saturating_sub(self.book.entered());
        let room = self.tickets.room();
        let reached = if (room as u64) < left {
            room
        } else {
            left as usize
        };
        reached.saturating_sub(self.book.staying())
    }

    /// How many entries there were in all chapters.
    pub fn entered(&self) -> u64
        ensures { result ≡ entered_in_all self.now.book }
    {
        self.book.entered()
    }
}
