//! The running world.

ghost use Rattle.std.specs.Prelude.{◌≡◌, ◌≢◌, ◌<◌, take, length, map, All, IfOk};
ghost use Rattle.std.specs.Prelude.{IfErr, OnOk, OnErr, IsOk, string_bytes};
ghost use Rattle.txn_programs.specs.Standing.{Upholds};
ghost use Rattle.world.specs.Inside.{state_items};
ghost use Rattle.world.specs.Telling.{Tells};
ghost use Rattle.world_law.specs.World.{IsOpening};
ghost use Rattle.world_law.specs.Next.{Next};
ghost use Rattle.world_law.specs.declared.events.Seen.TheVariants as seen;
ghost use Rattle.world.specs.Runs.{LeadTo, MayBeRefused, TakesNone, EndsCheck, EvaluatesFree};
ghost use Rattle.world.specs.Lines.{Plays, PlaysPart, PlaysFree, PlaysCheck};
ghost use Rattle.world.specs.WorldText.{IsWorldText, PutsWorld};
ghost use Rattle.world_law.specs.Opacity.{Opaque, WordsFit};

use crate::playing::play;
use crate::telling::{Begun, begun_at, states};
use crate::text::put_world;
use crate::{Scene, first_scene, happen};
use std::alloc::Global;
use std::marker::Model;
use txn::{Catalogue, Memory, Move};
use world_law::{Event, Seen};

/// The stepped world of a catalogue. A clause sees the catalogue's listing and the plain world,
/// which some events lead to from the opening.
pub struct World<'a> {
    scene: Scene<'a>,
}

/// Written by hand, so that its end is one call wherever a world is owned.
impl Drop for World<'_> {
    fn drop(self) {
        let World { scene: _scene } = self;
    }
}

impl<'a> Model for World<'a> {
    ghost use Rattle.std.specs.Coded.{codes};
    ghost use Rattle.txn.specs.Codes.{coded_listing};
    ghost use Rattle.world.specs.View.{WorldView};

    ghost Value = { WorldView };

    ghost coded = { Prim.hlevel (codes, coded_listing) };

    ghost use Rattle.world.specs.WorldInside.{viewed, IsKept};

    ghost view = { viewed };

    ghost invariant = { IsKept };
}

impl<'a> World<'a> {
    /// The world of a catalogue as it opens: the clock is 0, the words hold the initial values,
    /// and no attempt has begun. `Memory` where a growth was refused.
    pub fn open(alloc: Global, catalogue: &'a Catalogue) -> Result<World<'a>, Memory>
        ensures listing { IfOk result (λ w. w.listing ≡ catalogue.now) }
        ensures opening { IfOk result (λ w. IsOpening catalogue.now w.world) }
    {
        let scene = first_scene(alloc, catalogue)?;
        Ok(World { scene })
    }

    /// One event happens, and what is seen of it is told.
    ///
    /// `Memory` where an attempt has no room to begin, a log can't grow, or the state that a commit
    /// would make has no room; then nothing changed. `First`, `Value`, `Word`, `Drop` and `Again` take
    /// no memory, nor does `Second` of an attempt that checks. `Spent` is seen only at `Begin` or
    /// `Second` of a task whose program may need memory, as an `orelse` does.
    pub fn step(&mut self, event: Event) -> Result<Seen, Memory>
        ensures listing { self.new.listing ≡ self.old.listing }
        ensures ok { IfOk result (λ s. Next self.old.listing self.old.world event s self.new.world) }
        ensures refused { OnErr result (self.new.world ≡ self.old.world) }
        ensures sure { TakesNone event → IsOk result }
        ensures checks { EndsCheck self.old.world event → IsOk result }
        ensures in_place { EvaluatesFree self.old.listing event → IfOk result (λ s. s ≢ seen.Spent) }
    {
        let seen = happen(&mut self.scene, event)?;
        Ok(seen)
    }

    /// These events happen, one after another. `Err` has the place of the event that was refused for
    /// running out of memory, which is none of those that take none: those before it happened, and it
    /// changed nothing.
    pub fn run(&mut self, events: &[Event]) -> Result<(), usize>
        ensures listing { self.new.listing ≡ self.old.listing }
        ensures ok { OnOk result (LeadTo self.old.listing self.old.world events.now self.new.world) }
        ensures refused { IfErr result (λ k. (k < length events.now)
            × LeadTo self.old.listing self.old.world (take k events.now) self.new.world) }
        ensures sure { IfErr result (λ k. MayBeRefused events.now k) }
    {
        for place in 0..events.len() {
            match self.step(events[place]) {
                Ok(_) => {}
                Err(_) => return Err(place),
            }
        }
        Ok(())
    }

    /// A line of a schedule is played: its events happen one after another. What is seen of it is
    /// the answer of the last one.
    ///
    /// `Memory` where an event is refused; those of the line before it happened. The lines of the
    /// events that take no memory are never refused, nor is a move, nor is a read or the last load of
    /// one by an attempt that checks; and of another read or a commit the last load or the question
    /// alone.
    pub fn play(&mut self, line: Move) -> Result<Seen, Memory>
        ensures listing { self.new.listing ≡ self.old.listing }
        ensures ok { IfOk result (λ s. Plays self.old.listing self.old.world line s self.new.world) }
        ensures refused { OnErr result (PlaysPart self.old.listing self.old.world line self.new.world) }
        ensures sure { PlaysFree line → IsOk result }
        ensures checks { PlaysCheck self.old.world line → IsOk result }
    {
        play(self, line)
    }

    /// The last lines of the world: the line `now` with the number of the last state, the variables
    /// with their values and versions in it, the attempts in the order in which they began, and the
    /// line `end`. `Memory` where a growth was refused.
    pub fn text(&self) -> Result<String, Memory>
        ensures { IfOk result (λ text. IsWorldText self.now.listing self.now.world (string_bytes text)) }
    {
        let mut text = String::new(*self.scene.words.allocator());
        put_world(&mut text, &self.scene)?;
        Ok(text)
    }

    /// Puts those lines behind a text, which stays as it was where a growth is refused.
    pub fn put_text(&self, out: &mut String) -> Result<(), Memory>
        ensures ok { OnOk result
            (PutsWorld self.now.listing self.now.world (string_bytes out.old) (string_bytes out.new)) }
        ensures refused { OnErr result (string_bytes out.new ≡ string_bytes out.old) }
    {
        let lines = self.text()?;
        out.push_str(lines.as_str())?;
        Ok(())
    }

    /// The states of the history, the oldest first. There is always one.
    pub fn history(&self) -> &[Vec<i64>]
        ensures value { map state_items result.now ≡ self.now.world.history }
        ensures some { 0 < length result.now }
    {
        states(&self.scene)
    }

    /// How many attempts began.
    pub fn attempts(&self) -> usize
        ensures { result ≡ length self.now.world.attempts }
    {
        self.scene.trials.len()
    }

    /// The attempt that began at this place, counted from 0.
    pub fn attempt(&self, place: usize) -> Begun<'_>
        requires { place < length self.now.world.attempts }
        ensures { Tells self.now.world place result.task result.rv result.log.now result.fate }
    {
        begun_at(&self.scene, place)
    }

    /// Whatever happened: each attempt's reads are those of one state of the history, each state
    /// was made by exactly one attempt, no task commits twice, the words mean what they should, and
    /// each standing condition is true of every state. It does nothing: its contract is the law.
    pub fn opaque(&self)
        ensures opaque { Opaque self.now.listing self.now.world }
        ensures words { WordsFit self.now.listing self.now.world }
        ensures upheld { All (λ m. Upholds self.now.listing m) self.now.world.history }
    {
        self.scene.catalogue.rules();
    }
}
