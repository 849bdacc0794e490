//! Calls for which a chapter has no room.

ghost use Rattle.stm_desk.specs.Asking.{GoesOn, IsServed};
ghost use Rattle.stm_desk.specs.Ending.{IsTurnedAway};
ghost use Rattle.stm_desk.specs.Running.{AreAwaited};

use crate::answers::Asked;
use crate::work::Work;
use stm_store::Refused;

impl Work {
    /// What a call is answered for which the chapter has no room. Where the next one would have none either, what runs
    /// has its turn first, since whatever ends leaves its place. Where a chapter was not kept nothing changes.
    pub(crate) fn turned_away(&mut self) -> Result<Asked, Refused>
        ensures turned { IsTurnedAway self.old result self.new }
        ensures served { IsServed self.old.store → IsServed self.new.store }
        ensures awaited { AreAwaited self.old.store self.old.waiters → AreAwaited self.new.store self.new.waiters }
        ensures goes_on { GoesOn self.old self.new }
    {
        if self.last.is_not_kept() {
            return Err(Refused::NoRoom);
        }
        if self.store.has_room_next() {
            return Ok(Asked::ChapterFull);
        }
        self.serve_all();
        if self.store.has_room_next() {
            return Ok(Asked::ChapterFull);
        }
        Err(Refused::NoRoom)
    }
}
