//! The one replica of the first form.

use pws_base::lists::{ExactCopy, Sequence};
use pws_base::memory::Memory;
use pws_base::shapes::{GroupShape, Layout, Number};
use pws_event::effects::Effect;
use pws_event::events::Event;
use pws_event::lists::{EventList, PushError};
use pws_event::requests::Request;
use std::alloc::Global;
use std::marker::Model;

/// Replica 0 of group 1, which hears the requests of group 0.
///
/// It keeps the first request of each of the sixteen numbers after the last that took effect, and pushes the next
/// one at the next place while it would take effect; the list has at most 32 places.
#[derive(Drop)]
pub struct Replica {
    kept: Sequence<Request>,
    events: EventList,
    effect: Effect,
}

impl Model for Replica {
    ghost use Rattle.pws_sim.specs.Replica.{ReplicaState};

    ghost Value = { ReplicaState };

    ghost use Rattle.pws_sim.specs.Followed.{Follows};

    ghost view = { λ r. record { kept = r.kept; places = r.events } };

    ghost invariant = { λ r. Follows r.events r.effect };
}

ghost use Rattle.std.specs.Prelude.{◌≡◌, ◌<◌, ◌≤◌, ◌==◌, length, OnOk, IsTrue, None};
ghost use Rattle.std.specs.Option.{option_copied};
ghost use Rattle.pws_event.specs.declared.events.Event.{Event};
ghost use Rattle.pws_event.specs.Effects.{no_acts, silent, takes_effect};
ghost use Rattle.pws_event.specs.Lists.{effects_in};
ghost use Rattle.pws_sim.specs.Once.{AllTakeEffect};
ghost use Rattle.pws_sim.specs.Replica.{two_groups, start, last_in, kept_with, is_kept, keep, next_of, push, hear};

fn has_number(request: &Request, number: Number) -> bool
    ensures { result ≡ (request.now.number == number) }
{
    request.number() == number
}

/// The layout of the first form: two groups of one replica each.
fn two_groups() -> Layout
    ensures { result ≡ two_groups }
{
    let Ok(single) = GroupShape::new(0) else {
        unreachable!()
    };
    let Ok(layout) = Layout::new(&[single, single]) else {
        unreachable!()
    };
    layout
}

impl Replica {
    /// A replica that heard nothing.
    pub fn new(alloc: Global) -> Replica
        ensures { result ≡ start }
    {
        Replica {
            kept: Sequence::new(alloc),
            events: EventList::new(alloc),
            effect: Effect::new(1, &two_groups()),
        }
    }

    /// Its event list, whose places all take effect.
    pub fn events(&self) -> &EventList
        ensures value { result.now ≡ self.now.places }
        ensures taken { AllTakeEffect 1 two_groups self.now.places }
    {
        // the use of a field shows what the replica keeps
        let _effect = &self.effect;
        &self.events
    }

    /// Hears one request.
    ///
    /// # Errors
    ///
    /// `Memory` only.
    #[tactic(auto, using(crate::proofs::Pushes::pushes_more, crate::proofs::Pushes::pushes_done, crate::proofs::Pushes::pushes_zero, crate::proofs::Pushes::pushes_end))]
    pub fn hear(&mut self, alloc: Global, request: Request) -> Result<(), Memory>
        ensures heard { OnOk result (self.new ≡ hear self.old request) }

        // No request is left that could be pushed.
        ensures rest { OnOk result (next_of self.new ≡ None) }
    {
        self.keep(request)?;
        for _ in 0..32u32 {
            let Some(next) = self.next() else {
                break;
            };
            let next = next.copy(alloc)?;
            self.push(alloc, next)?;
        }
        Ok(())
    }

    /// The number of the last request that took effect.
    fn last(&self) -> Number
        ensures value { result ≡ last_in self.now.places }
        ensures small { result ≤ 1000000 }
    {
        self.effect.last(0)
    }

    /// The kept request of this number.
    fn kept_with(&self, number: Number) -> Option<&Request>
        ensures { option_copied result ≡ kept_with number self.now.kept }
    {
        self.kept
            .as_slice()
            .iter()
            .find(|request| has_number(request, number))
    }

    /// Whether a request is to be kept.
    fn is_kept(&self, request: &Request) -> bool
        ensures { result ≡ is_kept self.now request.now }
    {
        let last = self.last();
        let number = request.number();
        last < number && number <= last + 16 && self.kept_with(number).is_none()
    }

    /// Keeps a request, where it is to be kept.
    fn keep(&mut self, request: Request) -> Result<(), Memory>
        ensures { OnOk result (self.new ≡ keep self.old request) }
    {
        if self.is_kept(&request) {
            self.kept.push(request)?;
        }
        Ok(())
    }

    /// The request that is to be pushed next.
    fn next(&self) -> Option<&Request>
        ensures { option_copied result ≡ next_of self.now }
    {
        if self.events.len() >= 32 {
            return None;
        }
        let request = self.kept_with(self.last() + 1)?;
        if self.effect.would_take(request) {
            Some(request)
        } else {
            None
        }
    }

    /// Pushes a request that takes effect at the next place.
    #[tactic(auto, unfolding(crate::specs::Replica::push))]
    fn push(&mut self, alloc: Global, request: Request) -> Result<(), Memory>
        requires room { length self.old.places < 32 }
        requires takes { IsTrue (takes_effect 1 two_groups no_acts (effects_in 1 two_groups silent self.old.places) (Event.Request request)) }
        ensures { OnOk result (self.new ≡ push self.old request) }
    {
        // reading it shows that the request is in range
        let _number = request.number();
        match self.events.push(alloc, Event::Request(request)) {
            Ok(_) => {}
            Err(PushError::Memory) => return Err(Memory),
            Err(PushError::ListFull) => unreachable!(),
        }
        if let Some(event) = self.events.get(self.events.len()) {
            self.effect.take(event);
        }
        Ok(())
    }
}
