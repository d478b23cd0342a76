//! The list of the events of a group, with their digests and their chain.

use crate::events::{Event, write_event};
use pws_base::lists::ExactCopy;
use pws_base::memory::Memory;
use pws_base::shapes::{Digest, Place};
use sha2::{Digest as _, Sha256};
use std::alloc::{AllocFailed, Global};
use std::marker::Model;
use thiserror::Error;

/// Whether an event was kept whole, or its digest alone.
#[derive(Clone, Copy, Debug, PartialEq, Eq)]
pub enum Pushed {
    /// The event was kept.
    Whole,
    /// Its digest alone was kept.
    Bare,
}

/// Why no event was pushed.
#[derive(Clone, Copy, Debug, PartialEq, Eq, Error)]
pub enum PushError {
    /// The list has 1,000,000 places.
    #[error("the list has all its places")]
    ListFull,
    /// There was no memory.
    #[error("out of memory")]
    Memory,
}

impl<T: Drop> From<AllocFailed<T>> for PushError {
    ghost use Rattle.std.specs.Prelude.{◌≡◌};
    ghost use Rattle.pws_event.specs.declared.lists.PushError.{PushError};

    ghost from_gives = { λ _ e. e ≡ PushError.Memory };

    fn from(_error: AllocFailed<T>) -> PushError {
        PushError::Memory
    }
}

impl From<Memory> for PushError {
    ghost use Rattle.std.specs.Prelude.{◌≡◌};
    ghost use Rattle.pws_event.specs.declared.lists.PushError.{PushError};

    ghost from_gives = { λ _ e. e ≡ PushError.Memory };

    fn from(_error: Memory) -> PushError {
        PushError::Memory
    }
}

/// One place: the digest of its event, the chain up to it, and the event unless the place is bare.
#[derive(Drop)]
struct Slot {
    /// The digest of its event.
    digest: Digest,
    /// The chain up to it.
    chain: Digest,
    /// Its event; none where the place is bare.
    event: Option<Event>,
}

/// The events of a group, in the order of their places 1, 2, 3 and so on, at most 1,000,000.
///
/// The texts of the events kept whole are together at most 2^30 bytes; an event that would pass this bound is kept
/// as its digest alone, and its place is bare. Contracts see the list of the places, each with its digest and its
/// event where it has one.
#[derive(Drop)]
pub struct EventList {
    /// The places, in order.
    slots: Vec<Slot>,
    /// How many bytes the texts of the events kept whole have together.
    bytes: u64,
}

impl Model for EventList {
    ghost use Rattle.std.specs.Prelude.{List};
    ghost use Rattle.pws_event.specs.Lists.{PlacedEvent};

    ghost Value = { List PlacedEvent };

    ghost use Rattle.pws_event.specs.Slots.{places_of, IsKept};

    ghost view = { λ l. places_of l.slots.items };

    ghost invariant = { λ l. IsKept l.slots.items l.bytes };
}

ghost use Rattle.std.specs.Prelude.{◌≡◌, ◌↔◌, ◌++◌, [], ◌∷◌, ◌+◌, ◌^◌, ◌<◌, ◌≤◌, length, OnOk, OnErr, IfOk, IfErr, IfSome, IsErrOf, IsTrue, Some};
ghost use Rattle.std.specs.Option.{option_copied};
ghost use Rattle.sha2.specs.Sha256.{sha256};
ghost use Rattle.pws_event.specs.Lists.{kept_bytes, text_length, digests_of, placed, pushed_as, event_at, digest_at, chain_at};
ghost use Rattle.pws_event.specs.Events.{chain_of, digest_of};
ghost use Rattle.pws_event.specs.Slots.{place_of, IsSlotAt};

impl EventList {
    /// A list with no place.
    pub fn new(alloc: Global) -> EventList
        ensures { result ≡ [] }
    {
        EventList {
            slots: Vec::new(alloc),
            bytes: 0,
        }
    }

    /// How many places it has.
    pub fn len(&self) -> Place
        ensures count { result ≡ length self.now }
        ensures few { result ≤ 1000000 }
    {
        self.slots.len() as u32
    }

    /// Whether it has no place.
    pub fn is_empty(&self) -> bool
        ensures { IsTrue result ↔ (self.now ≡ []) }
    {
        self.slots.is_empty()
    }

    /// How many bytes the texts of the events kept whole have together, at most 2^30.
    pub fn bytes(&self) -> u64
        ensures sum { result ≡ kept_bytes self.now }
        ensures small { result ≤ 2 ^ 30 }
    {
        self.bytes
    }

    /// The event at a place, or None exactly outside of 1 to `len` and at a bare place.
    pub fn get(&self, place: Place) -> Option<&Event>
        ensures { option_copied result ≡ event_at self.now place }
    {
        self.slot(place)?.event.as_ref()
    }

    /// The digest of the event at a place, or None exactly outside of 1 to `len`.
    pub fn digest(&self, place: Place) -> Option<Digest>
        ensures value { result ≡ digest_at self.now place }
        ensures of_event { IfSome (event_at self.now place) (λ e. result ≡ Some (digest_of e)) }
    {
        Some(self.slot(place)?.digest)
    }

    /// The chain up to a place: 32 zero bytes at place 0, and after each place the SHA-256 of the chain before it and
    /// the place's digest, joined. None exactly above `len`.
    pub fn chain(&self, place: Place) -> Option<Digest>
        ensures { result ≡ chain_at self.now place }
    {
        if place == 0 {
            return Some([0; 32]);
        }
        Some(self.slot(place)?.chain)
    }

    /// Adds an event at the next place: whole, or bare exactly where the kept texts would pass 2^30 bytes.
    ///
    /// # Errors
    ///
    /// `ListFull` exactly where there are 1,000,000 places, and else `Memory` only; the list then stays as it was.
    pub fn push(&mut self, alloc: Global, event: Event) -> Result<Pushed, PushError>
        ensures ok { OnOk result (self.new ≡ self.old ++ placed self.old event ∷ []) }
        ensures kind { IfOk result (λ pushed. pushed ≡ pushed_as self.old event) }
        ensures full { IsErrOf result PushError.ListFull ↔ (length self.old ≡ 1000000) }
        ensures err { OnErr result (self.new ≡ self.old) }
    {
        if self.len() == 1000000 {
            return Err(PushError::ListFull);
        }
        let text = write_event(alloc, &event)?;
        let digest = Sha256::digest(text.as_slice());
        let chain = joined_digest(&self.last_chain(), &digest);
        let size = text.len() as u64;
        if size > (1 << 30) - self.bytes() {
            let slot = Slot {
                digest,
                chain,
                event: None,
            };
            self.add(slot, 0)?;
            Ok(Pushed::Bare)
        } else {
            let slot = Slot {
                digest,
                chain,
                event: Some(event),
            };
            self.add(slot, size)?;
            Ok(Pushed::Whole)
        }
    }

    /// The slot of a place.
    fn slot(&self, place: Place) -> Option<&Slot>
        ensures { IsSlotAt self.now place (option_copied result) }
    {
        if place == 0 {
            return None;
        }
        self.slots.get(place as usize - 1)
    }

    /// The chain up to the last place.
    fn last_chain(&self) -> Digest
        ensures { result ≡ chain_of (digests_of self.now) }
    {
        match self.slots.last() {
            Some(slot) => slot.chain,
            None => [0; 32],
        }
    }

    /// Adds a slot with the next chain, whose event has a text of so many bytes.
    fn add(&mut self, slot: Slot, size: u64) -> Result<(), PushError>
        requires chain { slot.chain ≡ sha256 (chain_of (digests_of self.old) ++ slot.digest) }
        requires digest { IfSome slot.event (λ e. slot.digest ≡ digest_of e) }
        requires size { size ≡ text_length (place_of slot) }
        requires small { kept_bytes self.old + size ≤ 2 ^ 30 }
        requires few { length self.old < 1000000 }
        ensures ok { OnOk result (self.new ≡ self.old ++ place_of slot ∷ []) }
        ensures err { OnErr result (self.new ≡ self.old) }
        ensures memory { IfErr result (λ e. e ≡ PushError.Memory) }
    {
        self.slots.push(slot)?;
        self.bytes += size;
        Ok(())
    }
}

impl ExactCopy for Slot {
    fn copy(&self, alloc: Global) -> Result<Slot, Memory> {
        let event = match &self.event {
            None => None,
            Some(event) => Some(event.copy(alloc)?),
        };
        Ok(Slot {
            digest: self.digest,
            chain: self.chain,
            event,
        })
    }
}

impl ExactCopy for EventList {
    fn copy(&self, alloc: Global) -> Result<EventList, Memory> {
        let mut slots = Vec::new(alloc);
        for slot in self.slots.iter() {
            slots.push(slot.copy(alloc)?)?;
        }
        Ok(EventList {
            slots,
            bytes: self.bytes,
        })
    }
}

/// The digest of two digests, one after the other.
fn joined_digest(first: &Digest, second: &Digest) -> Digest
    ensures { result ≡ sha256 (first.now ++ second.now) }
{
    let mut hasher = Sha256::new();
    hasher.update(first.as_slice());
    hasher.update(second.as_slice());
    hasher.finalize()
}
