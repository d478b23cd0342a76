//! What is said of places and of view changes.

ghost use Rattle.std.specs.Prelude.{◌≡◌, ◌≤◌};
ghost use Rattle.pws_msg.specs.Statements.{IsProposal, IsPlaceVote, IsPlaceDigest, IsChangeName, IsWantedPlace, IsDecidedEvent};

use pws_base::lists::ExactCopy;
use pws_base::memory::Memory;
use pws_base::shapes::{Digest, Place, View};
use pws_event::events::Event;
use std::alloc::Global;
use std::marker::Model;

/// An event that is to stand at a place, as the primary of a view proposes it.
#[derive(Debug, Drop, PartialEq, Eq)]
pub struct Proposal {
    /// The view.
    view: View,
    /// The place.
    place: Place,
    /// The event that is to stand there.
    event: Event,
}

impl Model for Proposal {
    ghost use Rattle.pws_msg.specs.Statements.{ProposalFields, IsProposal};

    ghost Value = { ProposalFields };

    ghost view = { λ p. record { view = p.view; place = p.place; event = p.event } };

    ghost invariant = { λ p. IsProposal (record { view = p.view; place = p.place; event = p.event }) };

    ghost inverse = { λ p. record { view = p.view; place = p.place; event = p.event } };
}

impl Proposal {
    /// One with these fields, which are to be in range.
    pub fn new(view: View, place: Place, event: Event) -> Proposal
        requires view { view ≤ 1000000 }
        requires place_from { 1 ≤ place }
        requires place_to { place ≤ 1000000 }
        ensures { result ≡ record { view = view; place = place; event = event } }
    {
        // shows: the event's fields are in range
        event.lawful();
        Proposal { view, place, event }
    }

    /// The view, 0 to 1,000,000.
    pub fn view(&self) -> View
        ensures value { result ≡ self.now.view }
        ensures lawful { IsProposal self.now }
    {
        self.view
    }

    /// The place, 1 to 1,000,000.
    pub fn place(&self) -> Place
        ensures value { result ≡ self.now.place }
        ensures lawful { IsProposal self.now }
    {
        self.place
    }

    /// The event.
    pub fn event(&self) -> &Event
        ensures value { result.now ≡ self.now.event }
        ensures lawful { IsProposal self.now }
    {
        &self.event
    }

    /// The event, which isn't copied.
    pub fn into_event(self) -> Event
        ensures value { result ≡ self.event }
        ensures lawful { IsProposal self }
    {
        let Proposal { event, .. } = self;
        event
    }
}

impl ExactCopy for Proposal {
    fn copy(&self, alloc: Global) -> Result<Proposal, Memory> {
        Ok(Proposal {
            view: self.view,
            place: self.place,
            event: self.event.copy(alloc)?,
        })
    }
}

/// A vote of a view for the event that has a digest to stand at a place.
#[derive(Clone, Copy, Debug, PartialEq, Eq)]
pub struct PlaceVote {
    /// The view.
    view: View,
    /// The place.
    place: Place,
    /// The digest of the event.
    digest: Digest,
}

impl Model for PlaceVote {
    ghost use Rattle.pws_msg.specs.Statements.{PlaceVoteFields, IsPlaceVote};

    ghost Value = { PlaceVoteFields };

    ghost view = { λ v. record { view = v.view; place = v.place; digest = v.digest } };

    ghost invariant = { λ v. IsPlaceVote (record { view = v.view; place = v.place; digest = v.digest }) };

    ghost inverse = { λ v. record { view = v.view; place = v.place; digest = v.digest } };
}

impl PlaceVote {
    /// One with these fields, which are to be in range.
    pub fn new(view: View, place: Place, digest: Digest) -> PlaceVote
        requires view { view ≤ 1000000 }
        requires place_from { 1 ≤ place }
        requires place_to { place ≤ 1000000 }
        ensures { result ≡ record { view = view; place = place; digest = digest } }
    {
        PlaceVote {
            view,
            place,
            digest,
        }
    }

    /// The view, 0 to 1,000,000.
    pub fn view(&self) -> View
        ensures value { result ≡ self.now.view }
        ensures lawful { IsPlaceVote self.now }
    {
        self.view
    }

    /// The place, 1 to 1,000,000.
    pub fn place(&self) -> Place
        ensures value { result ≡ self.now.place }
        ensures lawful { IsPlaceVote self.now }
    {
        self.place
    }

    /// The digest of the event.
    pub fn digest(&self) -> Digest
        ensures value { result ≡ self.now.digest }
        ensures lawful { IsPlaceVote self.now }
    {
        self.digest
    }
}

impl ExactCopy for PlaceVote {
    fn copy(&self, _alloc: Global) -> Result<PlaceVote, Memory> {
        Ok(*self)
    }
}

/// A place, with the digest that stands for all up to it.
#[derive(Clone, Copy, Debug, PartialEq, Eq)]
pub struct PlaceDigest {
    /// The place.
    place: Place,
    /// The digest that stands for all up to it.
    digest: Digest,
}

impl Model for PlaceDigest {
    ghost use Rattle.pws_msg.specs.Statements.{PlaceDigestFields, IsPlaceDigest};

    ghost Value = { PlaceDigestFields };

    ghost view = { λ d. record { place = d.place; digest = d.digest } };

    ghost invariant = { λ d. IsPlaceDigest (record { place = d.place; digest = d.digest }) };

    ghost inverse = { λ d. record { place = d.place; digest = d.digest } };
}

impl PlaceDigest {
    /// One with these fields, which are to be in range.
    pub fn new(place: Place, digest: Digest) -> PlaceDigest
        requires place_from { 1 ≤ place }
        requires place_to { place ≤ 1000000 }
        ensures { result ≡ record { place = place; digest = digest } }
    {
        PlaceDigest { place, digest }
    }

    /// The place, 1 to 1,000,000.
    pub fn place(&self) -> Place
        ensures value { result ≡ self.now.place }
        ensures lawful { IsPlaceDigest self.now }
    {
        self.place
    }

    /// The digest.
    pub fn digest(&self) -> Digest
        ensures value { result ≡ self.now.digest }
        ensures lawful { IsPlaceDigest self.now }
    {
        self.digest
    }
}

impl ExactCopy for PlaceDigest {
    fn copy(&self, _alloc: Global) -> Result<PlaceDigest, Memory> {
        Ok(*self)
    }
}

/// A view change, named by its view, its sender's index and the digest of its content.
#[derive(Clone, Copy, Debug, PartialEq, Eq)]
pub struct ChangeName {
    /// The view that the change moves to.
    view: View,
    /// The index of its sender.
    index: u8,
    /// The digest of its content.
    digest: Digest,
}

impl Model for ChangeName {
    ghost use Rattle.pws_msg.specs.Statements.{ChangeNameFields, IsChangeName};

    ghost Value = { ChangeNameFields };

    ghost view = { λ n. record { view = n.view; index = n.index; digest = n.digest } };

    ghost invariant = { λ n. IsChangeName (record { view = n.view; index = n.index; digest = n.digest }) };

    ghost inverse = { λ n. record { view = n.view; index = n.index; digest = n.digest } };
}

impl ChangeName {
    /// One with these fields, which are to be in range.
    pub fn new(view: View, index: u8, digest: Digest) -> ChangeName
        requires view { view ≤ 1000000 }
        requires index { index ≤ 9 }
        ensures { result ≡ record { view = view; index = index; digest = digest } }
    {
        ChangeName {
            view,
            index,
            digest,
        }
    }

    /// The view, 0 to 1,000,000.
    pub fn view(&self) -> View
        ensures value { result ≡ self.now.view }
        ensures lawful { IsChangeName self.now }
    {
        self.view
    }

    /// The index of its sender, 0 to 9.
    pub fn index(&self) -> u8
        ensures value { result ≡ self.now.index }
        ensures lawful { IsChangeName self.now }
    {
        self.index
    }

    /// The digest of its content.
    pub fn digest(&self) -> Digest
        ensures value { result ≡ self.now.digest }
        ensures lawful { IsChangeName self.now }
    {
        self.digest
    }
}

impl ExactCopy for ChangeName {
    fn copy(&self, _alloc: Global) -> Result<ChangeName, Memory> {
        Ok(*self)
    }
}

/// A place whose event is wanted.
#[derive(Clone, Copy, Debug, PartialEq, Eq)]
pub struct WantedPlace {
    /// The place.
    place: Place,
}

impl Model for WantedPlace {
    ghost use Rattle.pws_msg.specs.Statements.{WantedPlaceFields, IsWantedPlace};

    ghost Value = { WantedPlaceFields };

    ghost view = { λ w. record { place = w.place } };

    ghost invariant = { λ w. IsWantedPlace (record { place = w.place }) };

    ghost inverse = { λ w. record { place = w.place } };
}

impl WantedPlace {
    /// One with this field, which is to be in range.
    pub fn new(place: Place) -> WantedPlace
        requires place_from { 1 ≤ place }
        requires place_to { place ≤ 1000000 }
        ensures { result ≡ record { place = place } }
    {
        WantedPlace { place }
    }

    /// The place, 1 to 1,000,000.
    pub fn place(&self) -> Place
        ensures value { result ≡ self.now.place }
        ensures lawful { IsWantedPlace self.now }
    {
        self.place
    }
}

impl ExactCopy for WantedPlace {
    fn copy(&self, _alloc: Global) -> Result<WantedPlace, Memory> {
        Ok(*self)
    }
}

/// The event that stands at a place.
#[derive(Debug, Drop, PartialEq, Eq)]
pub struct DecidedEvent {
    /// The place.
    place: Place,
    /// The event that stands there.
    event: Event,
}

impl Model for DecidedEvent {
    ghost use Rattle.pws_msg.specs.Statements.{DecidedEventFields, IsDecidedEvent};

    ghost Value = { DecidedEventFields };

    ghost view = { λ d. record { place = d.place; event = d.event } };

    ghost invariant = { λ d. IsDecidedEvent (record { place = d.place; event = d.event }) };

    ghost inverse = { λ d. record { place = d.place; event = d.event } };
}

impl DecidedEvent {
    /// One with these fields, which are to be in range.
    pub fn new(place: Place, event: Event) -> DecidedEvent
        requires place_from { 1 ≤ place }
        requires place_to { place ≤ 1000000 }
        ensures { result ≡ record { place = place; event = event } }
    {
        // shows: the event's fields are in range
        event.lawful();
        DecidedEvent { place, event }
    }

    /// The place, 1 to 1,000,000.
    pub fn place(&self) -> Place
        ensures value { result ≡ self.now.place }
        ensures lawful { IsDecidedEvent self.now }
    {
        self.place
    }

    /// The event.
    pub fn event(&self) -> &Event
        ensures value { result.now ≡ self.now.event }
        ensures lawful { IsDecidedEvent self.now }
    {
        &self.event
    }

    /// The event, which isn't copied.
    pub fn into_event(self) -> Event
        ensures value { result ≡ self.event }
        ensures lawful { IsDecidedEvent self }
    {
        let DecidedEvent { event, .. } = self;
        event
    }
}

impl ExactCopy for DecidedEvent {
    fn copy(&self, alloc: Global) -> Result<DecidedEvent, Memory> {
        Ok(DecidedEvent {
            place: self.place,
            event: self.event.copy(alloc)?,
        })
    }
}
