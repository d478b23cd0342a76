//! Effects that a script hasn't taken, in order.
//!
//! Requests may pile up while a script waits for an answer; all else is bounded by the calls that wait. So the places of
//! what is no request are kept beside the list, and a wait for an answer looks at these alone.

ghost use Rattle.std.specs.Prelude.{◌≡◌, ◌<◌, ◌++◌, ◌∷◌, [], length, map, remove, slice_index_or, IsSome, IfSome, OnSome, OnOk};
ghost use Rattle.pws_driver.specs.Places.{is_other, places_of, lowered, without_place};

use pws_base::lists::ExactCopy;
use pws_base::memory::Memory;
use pws_event::events::Event;
use std::alloc::Global;
use std::collections::VecDeque;
use std::marker::Model;

/// Whether the event is no request.
fn is_other(event: &Event) -> bool
    ensures { result ≡ is_other event.now }
{
    match event {
        Event::Request(_) => false,
        _ => true,
    }
}

/// A place after another one was taken out.
fn lowered(p: usize, place: usize) -> usize
    ensures { result ≡ lowered place p }
{
    if place < p { p - 1 } else { p }
}

/// Lowers the places behind one that was taken out.
fn lower(places: &mut Vec<usize>, place: usize)
    ensures { places.new.items ≡ map (lowered place) places.old.items }
{
    for i in 0..places.len() {
        places[i] = lowered(places[i], place);
    }
}

/// Takes a place out of others.
fn take_place(places: &mut Vec<usize>, place: usize)
    ensures { places.new.items ≡ without_place place places.old.items }
{
    places.retain(|p| place != *p);
}

/// Puts copies of effects at the end.
fn put_copies(alloc: Global, into: &mut Vec<Event>, events: &[Event]) -> Result<(), Memory>
    ensures { OnOk result (into.new.items ≡ into.old.items ++ events.now) }
{
    for event in events {
        into.push(event.copy(alloc)?)?;
    }
    Ok(())
}

/// Effects that a script hasn't taken, in order.
#[derive(Drop)]
pub(crate) struct Untaken {
    /// The effects.
    items: VecDeque<Event>,
    /// The places of those that are no requests.
    others: Vec<usize>,
}

impl Model for Untaken {
    ghost use Rattle.std.specs.Prelude.{◌≡◌, List};
    ghost use Rattle.pws_event.specs.declared.events.Event.{Event};
    ghost use Rattle.pws_driver.specs.Places.{places_of};

    ghost Value = { List Event };

    ghost view = { λ u. u.items.items };

    ghost invariant = { λ u. u.others.items ≡ places_of u.items.items };
}

impl Untaken {
    /// No effects.
    #[tactic(auto, unfolding(crate::specs::Places::places_of))]
    pub fn new(alloc: Global) -> Untaken
        ensures { result ≡ [] }
    {
        Untaken {
            items: VecDeque::new(alloc),
            others: Vec::new(alloc),
        }
    }

    /// Adds an effect at the end.
    ///
    /// # Errors
    ///
    /// `Memory` only.
    #[tactic(auto, using(crate::proofs::Others::places_request, crate::proofs::Others::places_other))]
    pub fn push(&mut self, event: Event) -> Result<(), Memory>
        ensures { OnOk result (self.new ≡ self.old ++ event ∷ []) }
    {
        let other = is_other(&event);
        let place = self.items.len();
        self.others.reserve(1)?;
        self.items.push_back(event)?;
        if other {
            self.others.push_reserved(place);
        }
        Ok(())
    }

    /// The effects.
    pub fn items(&self) -> &VecDeque<Event>
        ensures { result.now.items ≡ self.now }
    {
        &self.items
    }

    /// The places of the effects that are no requests.
    pub fn others(&self) -> &[usize]
        ensures { result.now ≡ places_of self.now }
    {
        self.others.as_slice()
    }

    /// Takes out the effect at a place, if there is one.
    #[tactic(auto, using(crate::proofs::Others::places_out))]
    pub fn take_out(&mut self, place: usize) -> Option<Event>
        ensures some { place < length self.old → IsSome result }
        ensures value { IfSome result (λ e. e ≡ slice_index_or self.old place e) }
        ensures items { OnSome result (self.new ≡ remove self.old place) }
    {
        let event = self.items.remove(place)?;
        take_place(&mut self.others, place);
        lower(&mut self.others, place);
        Some(event)
    }
}

impl ExactCopy for Untaken {
    fn copy(&self, alloc: Global) -> Result<Untaken, Memory> {
        let (front, back) = self.items.as_slices();
        let mut items = Vec::new(alloc);
        put_copies(alloc, &mut items, front)?;
        put_copies(alloc, &mut items, back)?;
        Ok(Untaken {
            items: VecDeque::from_vec(items),
            others: self.others.as_slice().to_vec(alloc)?,
        })
    }
}
