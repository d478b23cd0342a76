//! What a packet says: one of seventeen kinds.

ghost use Rattle.std.specs.Prelude.{◌≡◌, ◌++◌, [], ◌∷◌, IfOk, OnOk};
ghost use Rattle.sha2.specs.Sha256.{sha256};
ghost use Rattle.pws_msg.specs.Rows.{IsDigest};
ghost use Rattle.pws_msg.specs.Contents.{SpellsContent, IsContent, kind_of, fields_text, content_text, content_digest_of};

use crate::kinds::Kind;
use crate::places::{ChangeName, DecidedEvent, PlaceDigest, PlaceVote, Proposal, WantedPlace};
use crate::putting::{
    put_call_name, put_change_name, put_decided_event, put_event, put_own_reading, put_own_request,
    put_place_digest, put_place_vote, put_proposal, put_reply_note, put_wanted_place,
};
use crate::reported::{LawfulNewView, LawfulViewChange, put_new_view, put_view_change};
use crate::requests::{CallName, OwnReading, OwnRequest, ReplyNote};
use pws_base::lists::ExactCopy;
use pws_base::memory::Memory;
use pws_base::shapes::Digest;
use pws_base::writers::Writer;
use pws_event::events::Event;
use sha2::{Digest as _, Sha256};
use std::alloc::Global;

/// What a packet says, by the table of contents in docs/FORMATS.md. Some bytes spell it, by its type.
#[derive(Drop, PartialEq, Eq)]
pub enum Content {
    /// A request (REQ) of the sender's group.
    Request(OwnRequest),
    /// A reply (REPLY) to a call, whose body is with the packet.
    Reply(ReplyNote),
    /// A replica's part (PART) of the bundle of replies that the responder sends.
    Part(ReplyNote),
    /// A call (EXPIRED) wasn't answered in time.
    Expired(CallName),
    /// A reading (READING) that the service asked for.
    Reading(OwnReading),
    /// The primary's proposal (PRE_PREPARE).
    PrePrepare(Proposal),
    /// A vote (PREPARE) for a proposal.
    Prepare(PlaceVote),
    /// A vote (COMMIT) for what is prepared.
    Commit(PlaceVote),
    /// The state at a place (CHECKPOINT).
    Checkpoint(PlaceDigest),
    /// What a replica reports as it moves to a view (VIEW_CHANGE).
    ViewChange(LawfulViewChange),
    /// A view change was heard (ACK).
    Ack(ChangeName),
    /// What starts a view (NEW_VIEW).
    NewView(LawfulNewView),
    /// A view change is passed on (RELAY); the packet vouches for it.
    Relay(ChangeName),
    /// The event of a place is wanted (FETCH).
    Fetch(WantedPlace),
    /// The event of a place is told (DONE).
    Done(DecidedEvent),
    /// The event that has a digest is wanted (NEED).
    Need(Digest),
    /// An event is given (GIVE).
    Give(Event),
}

impl Content {
    /// Its kind.
    pub fn kind(&self) -> Kind
        ensures { result ≡ kind_of self.now }
    {
        match self {
            Content::Request(_) => Kind::Request,
            Content::Reply(_) => Kind::Reply,
            Content::Part(_) => Kind::Part,
            Content::Expired(_) => Kind::Expired,
            Content::Reading(_) => Kind::Reading,
            Content::PrePrepare(_) => Kind::PrePrepare,
            Content::Prepare(_) => Kind::Prepare,
            Content::Commit(_) => Kind::Commit,
            Content::Checkpoint(_) => Kind::Checkpoint,
            Content::ViewChange(_) => Kind::ViewChange,
            Content::Ack(_) => Kind::Ack,
            Content::NewView(_) => Kind::NewView,
            Content::Relay(_) => Kind::Relay,
            Content::Fetch(_) => Kind::Fetch,
            Content::Done(_) => Kind::Done,
            Content::Need(_) => Kind::Need,
            Content::Give(_) => Kind::Give,
        }
    }

    /// Its fields are in range, by its type.
    pub fn is_lawful(&self)
        ensures { IsContent self.now }
    {
        // shows: what a content holds is in range, by its type
        match self {
            Content::Request(request) => looked_at(request.number()),
            Content::Reply(reply) => looked_at(reply.number()),
            Content::Part(reply) => looked_at(reply.number()),
            Content::Expired(call) => looked_at(call.number()),
            Content::Reading(reading) => looked_at(reading.ask()),
            Content::PrePrepare(proposal) => looked_at(proposal.view()),
            Content::Prepare(vote) => looked_at(vote.view()),
            Content::Commit(vote) => looked_at(vote.view()),
            Content::Checkpoint(checkpoint) => looked_at(checkpoint.place()),
            Content::ViewChange(change) => looked_at(change.change().view),
            Content::Ack(change) => looked_at(change.view()),
            Content::NewView(new_view) => looked_at(new_view.new_view().view),
            Content::Relay(change) => looked_at(change.view()),
            Content::Fetch(wanted) => looked_at(wanted.place()),
            Content::Done(decided) => looked_at(decided.place()),
            Content::Need(digest) => digest_is_lawful(digest),
            Content::Give(event) => event.lawful(),
        }
    }
}

/// A field was looked at, whose reader tells that all fields are in range.
fn looked_at(_field: u32) {}

/// A digest has 32 bytes.
fn digest_is_lawful(digest: &Digest)
    ensures { IsDigest digest.now }
{
    // shows: the length of the array
    let _bytes = digest.as_slice();
}

impl ExactCopy for Content {
    fn copy(&self, alloc: Global) -> Result<Content, Memory> {
        match self {
            Content::Request(request) => Ok(Content::Request(request.copy(alloc)?)),
            Content::Reply(reply) => Ok(Content::Reply(*reply)),
            Content::Part(reply) => Ok(Content::Part(*reply)),
            Content::Expired(call) => Ok(Content::Expired(*call)),
            Content::Reading(reading) => Ok(Content::Reading(*reading)),
            Content::PrePrepare(proposal) => Ok(Content::PrePrepare(proposal.copy(alloc)?)),
            Content::Prepare(vote) => Ok(Content::Prepare(*vote)),
            Content::Commit(vote) => Ok(Content::Commit(*vote)),
            Content::Checkpoint(checkpoint) => Ok(Content::Checkpoint(*checkpoint)),
            Content::ViewChange(change) => Ok(Content::ViewChange(change.copy(alloc)?)),
            Content::Ack(change) => Ok(Content::Ack(*change)),
            Content::NewView(new_view) => Ok(Content::NewView(new_view.copy(alloc)?)),
            Content::Relay(change) => Ok(Content::Relay(*change)),
            Content::Fetch(wanted) => Ok(Content::Fetch(*wanted)),
            Content::Done(decided) => Ok(Content::Done(decided.copy(alloc)?)),
            Content::Need(digest) => Ok(Content::Need(*digest)),
            Content::Give(event) => Ok(Content::Give(event.copy(alloc)?)),
        }
    }
}

/// Writes the fields of a content.
fn put_fields(alloc: Global, text: &mut Writer, content: &Content) -> Result<(), Memory>
    ensures { OnOk result (text.new ≡ text.old ++ fields_text content.now) }
{
    match content {
        Content::Request(request) => put_own_request(text, request),
        Content::Reply(reply) => put_reply_note(text, reply),
        Content::Part(reply) => put_reply_note(text, reply),
        Content::Expired(call) => put_call_name(text, call),
        Content::Reading(reading) => put_own_reading(text, reading),
        Content::PrePrepare(proposal) => put_proposal(alloc, text, proposal),
        Content::Prepare(vote) => put_place_vote(text, vote),
        Content::Commit(vote) => put_place_vote(text, vote),
        Content::Checkpoint(checkpoint) => put_place_digest(text, checkpoint),
        Content::ViewChange(change) => put_view_change(text, change),
        Content::Ack(change) => put_change_name(text, change),
        Content::NewView(new_view) => put_new_view(text, new_view),
        Content::Relay(change) => put_change_name(text, change),
        Content::Fetch(wanted) => put_wanted_place(text, wanted),
        Content::Done(decided) => put_decided_event(alloc, text, decided),
        Content::Need(digest) => text.put_bytes(digest.as_slice()),
        Content::Give(event) => put_event(alloc, text, event),
    }
}

/// The bytes that spell a content.
///
/// # Errors
///
/// `Memory` only.
pub fn content_bytes(alloc: Global, content: &Content) -> Result<Vec<u8>, Memory>
    ensures value { IfOk result (λ bytes. bytes.items ≡ content_text content.now) }
    ensures spells { IfOk result (λ bytes. SpellsContent content.now bytes.items) }
{
    // shows: the content's fields are in range
    content.is_lawful();
    let mut text = Writer::new(alloc);
    text.put_u8(content.kind().byte())?;
    put_fields(alloc, &mut text, content)?;
    Ok(text.into_bytes().into_vec())
}

/// The digest of a content: the SHA-256 of the bytes that spell it.
///
/// # Errors
///
/// `Memory` only.
pub fn content_digest(alloc: Global, content: &Content) -> Result<Digest, Memory>
    ensures { IfOk result (λ digest. digest ≡ content_digest_of content.now) }
{
    let bytes = content_bytes(alloc, content)?;
    Ok(Sha256::digest(bytes.as_slice()))
}
