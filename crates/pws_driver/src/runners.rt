//! The driver that runs a script.

ghost use Rattle.std.specs.Prelude.{◌≡◌, ◌<◌, length, IfOk, [], true, false};
ghost use Rattle.pws_driver.specs.Services.{service_of};
ghost use Rattle.pws_driver.specs.Runs.{fresh_core};

use crate::cores::Core;
use crate::envelopes::Envelopes;
use crate::machines::Machine;
use crate::programs::Program;
use crate::untaken::Untaken;
use pws_base::lists::ExactCopy;
use pws_base::memory::Memory;
use pws_base::shapes::{GroupId, Layout};
use pws_event::events::Event;
use pws_script::scripts::Script;
use pws_service::acts::Act;
use pws_service::drivers::Driver;
use std::alloc::Global;
use std::marker::PhantomData;

/// A script that goes on from where it waits. It keeps its state and the effects that it hasn't taken, and no list.
#[derive(Drop)]
pub struct Runner<E> {
    /// What is run, and where.
    program: Program,
    /// The suspended script, and the effects that it hasn't taken.
    machine: Machine,
    /// Whether `start` has answered Ok.
    started: bool,
    /// Whether want of memory has stopped it.
    stopped: bool,
    /// What reads and makes messages, which keeps nothing.
    envelopes: PhantomData<E>,
    ghost at_start: { started ≡ false → stopped ≡ false → (machine.core ≡ fresh_core) × (machine.untaken ≡ []) },
}

impl<E: Envelopes> Runner<E> {
    /// The runner of a script in the group `me`, which is to be one of the layout.
    ///
    /// # Errors
    ///
    /// `Memory` only.
    pub fn new(
        alloc: Global,
        script: Script,
        me: GroupId,
        layout: &Layout,
    ) -> Result<Runner<E>, Memory>
        requires { me < length layout.now }
        ensures started { IfOk result (λ r. ⟦<Runner<E> as Driver>⟧.started r ≡ false) }
        ensures stopped { IfOk result (λ r. ⟦<Runner<E> as Driver>⟧.stopped r ≡ false) }
        ensures program { IfOk result (λ r. service_of E.words (⟦<Runner<E> as Driver>⟧.program r) ≡ record { words = E.words; script = script; me = me; layout = layout.now }) }
        ensures fits { IfOk result (λ r. ⟦<Runner<E> as Driver>⟧.fits (⟦<Runner<E> as Driver>⟧.program r) me layout.now) }
    {
        let _groups = layout.groups(); // shows: a layout has at most 16 groups
        Ok(Runner {
            program: Program {
                script,
                me,
                layout: *layout,
            },
            machine: Machine {
                core: Core::new(alloc)?,
                untaken: Untaken::new(alloc),
            },
            started: false,
            stopped: false,
            envelopes: PhantomData,
        })
    }
}

impl<E: Envelopes> Driver for Runner<E> {
    ghost use Rattle.std.specs.Prelude.{◌≡◌, ℕ, true, false, ◌++◌, ◌∷◌, [], List, IfOk, OnOk, OnErr};
    ghost use Rattle.pws_event.specs.declared.events.Event.{Event};
    ghost use Rattle.pws_driver.specs.Services.{service_of};
    ghost use Rattle.pws_driver.specs.Runs.{acts_of};
    ghost use Rattle.pws_driver.specs.Did.{HasRun, BringsActs};
    ghost use Rattle.pws_driver.specs.Lemmas.RunLaws.{acts_grow};
    ghost use Rattle.pws_driver.specs.Lemmas.CallRuns.{calls_lawful_where};
    ghost use Rattle.pws_driver.specs.Lemmas.ReplyRuns.{replies_lawful};
    ghost use Rattle.pws_driver.specs.Lemmas.AskRuns.{asks_lawful};

    type Program = Program;

    ghost program = { λ r. r.program };

    ghost acts = { λ p. acts_of (service_of E.words p) };

    ghost fits = { λ p me layout. (p.me ≡ me) × (p.layout ≡ layout) };

    ghost started = { λ r. r.started };

    ghost stopped = { λ r. r.stopped };

    ghost has_taken = { λ r es. (r.started ≡ true) × HasRun E.words r.program r.machine es };

    ghost grows = { λ p. acts_grow (service_of E.words p) };

    ghost lawful_calls = { λ p me layout es f t. calls_lawful_where (service_of E.words p) me layout es p.few E.fit f };

    ghost lawful_replies = { λ p me layout es f t. replies_lawful (service_of E.words p) me layout es E.fit t };

    ghost lawful_asks = { λ p me layout es f t. asks_lawful (service_of E.words p) es };

    fn start(&mut self, alloc: Global) -> Result<Vec<Act>, Memory> {
        if self.stopped {
            return Err(Memory);
        }
        self.stopped = true; // until it is started
        let acts = self.machine.go_on::<E>(alloc, &self.program)?;
        self.started = true;
        self.stopped = false; // started
        Ok(acts)
    }

    fn take(&mut self, alloc: Global, event: &Event) -> Result<Vec<Act>, Memory>
        requires { self.old.started ≡ true }
        ensures program { self.new.program ≡ self.old.program }
        ensures acts { (es : List Event) → HasRun E.words self.old.program self.old.machine es → IfOk result (λ v. BringsActs E.words self.old.program es event.now v.items) }
        ensures taken { (es : List Event) → HasRun E.words self.old.program self.old.machine es → OnOk result (HasRun E.words self.new.program self.new.machine (es ++ event.now ∷ [])) }
        ensures started { self.new.started ≡ true }
        ensures going { OnOk result (self.new.stopped ≡ false) }
        ensures stopped { OnErr result (self.new.stopped ≡ true) }
        ensures stays { self.old.stopped ≡ true → OnOk result ⊥ }
    {
        if self.stopped {
            return Err(Memory);
        }
        self.stopped = true; // until the effect is taken
        let event = event.copy(alloc)?;
        self.machine.untaken.push(event)?;
        let acts = self.machine.go_on::<E>(alloc, &self.program)?;
        self.stopped = false; // taken
        Ok(acts)
    }

    fn is_stopped(&self) -> bool {
        self.stopped
    }

    fn copy(&self, alloc: Global) -> Result<Runner<E>, Memory> {
        Ok(Runner {
            program: self.program.copy(alloc)?,
            machine: self.machine.copy(alloc)?,
            started: self.started,
            stopped: self.stopped,
            envelopes: PhantomData,
        })
    }
}
