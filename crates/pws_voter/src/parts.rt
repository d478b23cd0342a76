//! The parts of a voter's state.

ghost use Rattle.std.specs.Prelude.{◌≡◌, IfOk};
ghost use Rattle.pws_event.specs.Events.{digest_of};
ghost use Rattle.pws_msg.specs.declared.contents.Content.TheVariants as content;
ghost use Rattle.pws_msg.specs.Contents.{content_digest_of};

use pws_base::lists::{ExactCopy, Sequence};
use pws_base::memory::Memory;
use pws_base::shapes::{Digest, GroupId, GroupShape, Tag};
use pws_event::events::{Event, event_digest};
use pws_msg::contents::{Content, content_digest};
use pws_msg::reported::LawfulViewChange;
use std::alloc::Global;
use std::marker::Model;

/// A voter's replica: its group, 0 to 15, its index there, 0 to 9, and the group's shape.
///
/// Contracts see it as a `Me`.
#[derive(Clone, Copy)]
pub struct Me {
    pub group: GroupId,
    pub index: u8,
    pub shape: GroupShape,
}

impl Model for Me {
    ghost use Rattle.pws_protocol.specs.States.{Me};
    ghost use Rattle.pws_voter.specs.Codes.{me_code};

    ghost Value = { Me };

    ghost coded = { me_code };

    ghost view = { λ m. record { group = m.group; index = m.index; f = m.shape } };

    ghost inverse = { λ m. record { group = m.group; index = m.index; shape = m.f } };
}

/// What is accepted at a place: its digest, and how far it has come.
///
/// Contracts see it as a `Slot`.
#[derive(Clone, Copy)]
pub struct Slot {
    pub digest: Digest,
    /// Whether enough others accepted it too.
    pub is_prepared: bool,
    /// Whether a quorum prepared it.
    pub is_committed: bool,
}

impl Model for Slot {
    ghost use Rattle.pws_protocol.specs.States.{Slot};
    ghost use Rattle.pws_voter.specs.Codes.{slot_code};

    ghost Value = { Slot };

    ghost coded = { slot_code };

    ghost view = { λ t. record { digest = t.digest; is_prepared = t.is_prepared; is_committed = t.is_committed } };

    ghost inverse = { λ t. record { digest = t.digest; is_prepared = t.is_prepared; is_committed = t.is_committed } };
}

impl ExactCopy for Slot {
    fn copy(&self, _alloc: Global) -> Result<Slot, Memory> {
        Ok(*self)
    }
}

/// What the primary proposed, and isn't accepted yet, beside its digest.
///
/// Contracts see it as the event.
#[derive(Drop)]
pub struct Pending {
    event: Event,
    /// The digest of the event.
    digest: Digest,
}

impl Model for Pending {
    ghost use Rattle.std.specs.Prelude.{◌≡◌};
    ghost use Rattle.pws_event.specs.declared.events.Event.{Event};
    ghost use Rattle.pws_event.specs.Events.{digest_of};
    ghost use Rattle.pws_voter.specs.Codes.{event_code};

    ghost Value = { Event };

    ghost coded = { event_code };

    ghost view = { λ p. p.event };

    ghost invariant = { λ p. p.digest ≡ digest_of p.event };
}

impl Pending {
    /// An event that was proposed.
    ///
    /// # Errors
    ///
    /// `Memory` only.
    pub fn new(alloc: Global, event: Event) -> Result<Pending, Memory>
        ensures { IfOk result (λ p. p ≡ event) }
    {
        let digest = event_digest(alloc, &event)?;
        Ok(Pending { event, digest })
    }

    /// The event.
    pub fn event(&self) -> &Event
        ensures { result.now ≡ self.now }
    {
        &self.event
    }

    /// The digest of the event.
    pub fn digest(&self) -> Digest
        ensures { result ≡ digest_of self.now }
    {
        self.digest
    }
}

impl ExactCopy for Pending {
    fn copy(&self, alloc: Global) -> Result<Pending, Memory> {
        Ok(Pending {
            event: self.event.copy(alloc)?,
            digest: self.digest,
        })
    }
}

/// A view change as it was heard: its digest, itself, and the tags of its packet.
///
/// Contracts see it as a `HeldChange`.
#[derive(Drop)]
pub struct HeldChange {
    pub digest: Digest,
    pub change: LawfulViewChange,
    pub tags: Sequence<Tag>,
}

impl Model for HeldChange {
    ghost use Rattle.pws_protocol.specs.States.{HeldChange};
    ghost use Rattle.pws_voter.specs.Codes.{held_change_code};

    ghost Value = { HeldChange };

    ghost coded = { held_change_code };

    ghost view = { λ c. record { digest = c.digest; change = c.change; tags = c.tags } };
}

impl ExactCopy for HeldChange {
    fn copy(&self, alloc: Global) -> Result<HeldChange, Memory> {
        Ok(HeldChange {
            digest: self.digest,
            change: self.change.copy(alloc)?,
            tags: self.tags.copy(alloc)?,
        })
    }
}

/// A view change that was passed on: its digest, itself, its sender's tags, and whether the one for this replica verified.
///
/// Contracts see it as a `Relayed`.
#[derive(Drop)]
pub struct Relayed {
    pub digest: Digest,
    pub change: LawfulViewChange,
    pub tags: Sequence<Tag>,
    pub is_verified: bool,
}

impl Model for Relayed {
    ghost use Rattle.pws_protocol.specs.States.{Relayed};
    ghost use Rattle.pws_voter.specs.Codes.{relayed_code};

    ghost Value = { Relayed };

    ghost coded = { relayed_code };

    ghost view = { λ c. record { digest = c.digest; change = c.change; tags = c.tags; is_verified = c.is_verified } };
}

impl ExactCopy for Relayed {
    fn copy(&self, alloc: Global) -> Result<Relayed, Memory> {
        Ok(Relayed {
            digest: self.digest,
            change: self.change.copy(alloc)?,
            tags: self.tags.copy(alloc)?,
            is_verified: self.is_verified,
        })
    }
}

/// The digest of a view change, as a content.
///
/// # Errors
///
/// `Memory` only.
pub(crate) fn change_digest(alloc: Global, change: &LawfulViewChange) -> Result<Digest, Memory>
    ensures { IfOk result (λ digest. digest ≡ content_digest_of (content.ViewChange change.now)) }
{
    let content = Content::ViewChange(change.copy(alloc)?);
    content_digest(alloc, &content)
}
