//! A suspended script: its state, and the effects that it hasn't taken.

ghost use Rattle.std.specs.Prelude.{◌≡◌, ◌<◌, ◌++◌, ◌∷◌, [], ℕ, true, false, IfOk, OnOk};
ghost use Rattle.std.specs.List.{find, position};
ghost use Rattle.std.specs.Option.{option_copied};
ghost use Rattle.pws_driver.specs.Places.{places_of, passes_at, wants_requests};
ghost use Rattle.pws_driver.specs.Services.{service_of};
ghost use Rattle.pws_driver.specs.Runs.{run_at, first_of, step, weight, finish, IsOver};
ghost use Rattle.pws_driver.specs.Takings.{wants};
ghost use Rattle.pws_driver.specs.Did.{TookFirst};

use crate::cores::{Core, Mode};
use crate::envelopes::Envelopes;
use crate::programs::Program;
use crate::untaken::Untaken;
use pws_base::lists::ExactCopy;
use pws_base::memory::Memory;
use pws_event::events::Event;
use pws_service::acts::Act;
use std::alloc::Global;

/// A suspended script.
#[derive(Drop)]
pub(crate) struct Machine {
    /// Its state.
    pub core: Core,
    /// The effects that it hasn't taken, in order.
    pub untaken: Untaken,
}

impl Core {
    /// Whether the script takes a request next.
    #[tactic(auto, unfolding(crate::specs::Places::wants_requests))]
    fn wants_requests(&self) -> bool
        ensures { result ≡ wants_requests self.now }
    {
        match &self.mode {
            Mode::Waiting(wait) => wait.requests,
            Mode::Halted => true,
            Mode::Ready | Mode::AskingClock(_) | Mode::AskingSeed => false,
        }
    }
}

impl Untaken {
    /// The place of the first effect that the script wants.
    fn first(&self, core: &Core) -> Option<usize>
        ensures { result ≡ position (wants core.now) self.now }
    {
        self.items().iter().position(|e| core.wants(e))
    }

    /// Whether the script wants the effect at a place.
    fn is_wanted(&self, core: &Core, place: usize) -> bool
        ensures { result ≡ passes_at (wants core.now) self.now place }
    {
        match self.items().get(place) {
            Some(event) => core.wants(event),
            None => false,
        }
    }

    fn find_other(&self, core: &Core) -> Option<&usize>
        ensures { option_copied result ≡ find (passes_at (wants core.now) self.now) (places_of self.now) }
    {
        self.others().iter().find(|p| self.is_wanted(core, **p))
    }

    /// The place of the first effect that the script wants, which takes no request.
    #[tactic(auto, using(crate::proofs::Others::wanted_other))]
    fn first_other(&self, core: &Core) -> Option<usize>
        requires { wants_requests core.now ≡ false }
        ensures { result ≡ position (wants core.now) self.now }
    {
        match self.find_other(core) {
            Some(place) => Some(*place),
            None => None,
        }
    }

    /// The place of the first effect that the script wants. Before the first request there is little else.
    fn place(&self, core: &Core) -> Option<usize>
        ensures { result ≡ position (wants core.now) self.now }
    {
        if core.wants_requests() {
            self.first(core)
        } else {
            self.first_other(core)
        }
    }

    /// Takes out the first effect that the script wants.
    #[tactic(auto, using(crate::proofs::Places::first_at, crate::proofs::Places::first_none))]
    fn take_first(&mut self, core: &Core) -> Option<Event>
        ensures { TookFirst result self.old self.new (first_of (wants core.now) self.old) }
    {
        match self.place(core) {
            Some(place) => self.take_out(place),
            None => None,
        }
    }
}

impl Machine {
    /// Does one step, whose acts go to the end of the list; false where nothing is to be done.
    #[tactic(auto, using(crate::proofs::Stepped::step_none, crate::specs::Lemmas::RunLaws::step_none_over))]
    fn step<E: Envelopes>(
        &mut self,
        alloc: Global,
        program: &Program,
        acts: &mut Vec<Act>,
    ) -> Result<bool, Memory>
        ensures step { OnOk result (run_at self.new.core self.new.untaken acts.new.items ≡ step (service_of E.words program.now) (run_at self.old.core self.old.untaken acts.old.items)) }
        ensures falls { IfOk result (λ goes. goes ≡ true → weight (run_at self.new.core self.new.untaken acts.new.items) < weight (run_at self.old.core self.old.untaken acts.old.items)) }
        ensures over { IfOk result (λ goes. goes ≡ false → IsOver (service_of E.words program.now) (run_at self.old.core self.old.untaken acts.old.items)) }
    {
        if self.core.is_ready() {
            self.core.begin::<E>(alloc, program, acts)?;
            return Ok(true);
        }
        match self.untaken.take_first(&self.core) {
            Some(event) => {
                self.core.take::<E>(alloc, program, &event, acts)?;
                Ok(true)
            }
            None => Ok(false),
        }
    }

    /// Goes on to the next wait that finds nothing; the acts go to the end of the list.
    fn run<E: Envelopes>(
        &mut self,
        alloc: Global,
        program: &Program,
        acts: &mut Vec<Act>,
    ) -> Result<(), Memory>
        ensures { OnOk result (run_at self.new.core self.new.untaken acts.new.items ≡ finish (service_of E.words program.now) (run_at self.old.core self.old.untaken acts.old.items)) }
    {
        'run: loop {
            let goes = self.step::<E>(alloc, program, acts)?;
            if !goes {
                return Ok(());
            }
        }
    }

    /// Goes on to the next wait that finds nothing, and gives the acts.
    ///
    /// # Errors
    ///
    /// `Memory` only.
    pub fn go_on<E: Envelopes>(
        &mut self,
        alloc: Global,
        program: &Program,
    ) -> Result<Vec<Act>, Memory>
        ensures { IfOk result (λ v. run_at self.new.core self.new.untaken v.items ≡ finish (service_of E.words program.now) (run_at self.old.core self.old.untaken [])) }
    {
        let mut acts = Vec::new(alloc);
        self.run::<E>(alloc, program, &mut acts)?;
        Ok(acts)
    }
}

impl ExactCopy for Machine {
    fn copy(&self, alloc: Global) -> Result<Machine, Memory> {
        Ok(Machine {
            core: self.core.copy(alloc)?,
            untaken: self.untaken.copy(alloc)?,
        })
    }
}
