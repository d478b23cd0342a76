//! A holder of a driver: it is given the events of a group, and gives the acts of those that take effect. It is proved
//! from what the trait says alone.

ghost use Rattle.std.specs.Prelude.{◌≡◌, ◌<◌, true, false, [], ◌∷◌, ◌++◌, length, IfOk, OnOk, OnErr};
ghost use Rattle.pws_service.specs.Holders.{effects_at, acts_at};

use crate::acts::Act;
use crate::drivers::Driver;
use crate::leading::{start, take};
use pws_base::lists::{ExactCopy, Sequence};
use pws_base::memory::Memory;
use pws_base::shapes::{GroupId, Layout};
use pws_event::effects::Effect;
use pws_event::events::Event;
use std::alloc::Global;
use std::marker::Model;

/// A driver, and what it was given.
#[derive(Drop)]
pub struct Holder<D: Driver> {
    /// The service.
    driver: D,
    /// The counters of what it took, called and asked.
    effect: Effect,
    /// The events that it was given, whether or not they took effect.
    events: Sequence<Event>,
    /// Whether the driver was started.
    started: bool,
    /// Whether want of memory has stopped it.
    stopped: bool,
}

impl<D: Driver> Model for Holder<D> {
    ghost use Rattle.pws_service.specs.Holders.{Held, held_by, Unless, Accounts};

    ghost Value = { Held D.Program };

    ghost view = { λ h. held_by (D.program h.driver) h.effect h.started h.events h.stopped };

    ghost invariant = { λ h. Unless h.stopped (Accounts D.Program D.acts D.fits (D.has_taken h.driver) (D.started h.driver) h.effect (held_by (D.program h.driver) h.effect h.started h.events h.stopped)) };
}

impl<D: Driver> Holder<D> {
    /// A holder in the group `me` of the layout, before its first event. Its conditions: the group is one of the layout,
    /// and the driver fits it and isn't started.
    pub fn new(alloc: Global, driver: D, me: GroupId, layout: &Layout) -> Holder<D>
        requires group { me < length layout.now }
        requires fresh { D.started driver ≡ false }
        requires fits { D.fits (D.program driver) me layout.now }
        ensures { result ≡ record { program = D.program driver; me = me; layout = layout.now; started = false; events = []; stopped = false } }
    {
        Holder {
            driver,
            effect: Effect::new(me, layout),
            events: Sequence::new(alloc),
            started: false,
            stopped: false,
        }
    }

    /// Whether the driver was started.
    pub fn is_started(&self) -> bool
        ensures { result ≡ self.now.started }
    {
        self.started
    }

    /// Whether want of memory has stopped it: each further call answers `Memory`.
    pub fn is_stopped(&self) -> bool
        ensures { result ≡ self.now.stopped }
    {
        self.stopped
    }

    /// Starts the driver, and gives its acts on no effect. It is called once and first.
    ///
    /// # Errors
    ///
    /// `Memory` only; the holder is then stopped.
    pub fn start(&mut self, alloc: Global) -> Result<Vec<Act>, Memory>
        requires { self.old.started ≡ false }
        ensures state { OnOk result (self.new ≡ record self.old { started = true }) }
        ensures acts { IfOk result (λ v. acts_at D.acts self.new ≡ v.items) }
        ensures stopped { OnErr result (self.new.stopped ≡ true) }
        ensures stays { self.old.stopped ≡ true → OnOk result ⊥ }
    {
        if self.stopped {
            return Err(Memory);
        }
        self.stopped = true;
        let acts = start(alloc, &mut self.driver, &mut self.effect)?;
        self.started = true;
        self.stopped = false;
        Ok(acts)
    }

    /// Takes the next event of the group, and gives the acts that it brings: none where it doesn't take effect.
    ///
    /// # Errors
    ///
    /// `Memory` only; the holder is then stopped.
    pub fn take(&mut self, alloc: Global, event: Event) -> Result<Vec<Act>, Memory>
        requires { self.old.started ≡ true }
        ensures state { OnOk result (self.new ≡ record self.old { events = self.old.events ++ event ∷ [] }) }
        ensures acts { IfOk result (λ v. acts_at D.acts self.new ≡ acts_at D.acts self.old ++ v.items) }
        ensures stopped { OnErr result (self.new.stopped ≡ true) }
        ensures stays { self.old.stopped ≡ true → OnOk result ⊥ }
    {
        if self.stopped {
            return Err(Memory);
        }
        self.stopped = true;
        let acts = take(alloc, &mut self.driver, &mut self.effect, &event)?;
        self.events.push(event)?;
        self.stopped = false;
        Ok(acts)
    }

    /// A holder in the same state.
    ///
    /// # Errors
    ///
    /// `Memory` only.
    pub fn copy(&self, alloc: Global) -> Result<Holder<D>, Memory>
        ensures { IfOk result (λ h. h ≡ self.now) }
    {
        Ok(Holder {
            driver: self.driver.copy(alloc)?,
            effect: self.effect.copy(alloc)?,
            events: self.events.copy(alloc)?,
            started: self.started,
            stopped: self.stopped,
        })
    }
}
