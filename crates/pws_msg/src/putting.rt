//! Writing statements, field by field.

ghost use Rattle.std.specs.Prelude.{◌≡◌, ◌<◌, ◌^◌, ◌++◌, length, OnOk};
ghost use Rattle.pws_base.specs.Texts.{sized_text};
ghost use Rattle.pws_event.specs.Events.{event_text};
ghost use Rattle.pws_msg.specs.StatementTexts.{reading_value_text, own_request_text, reply_note_text, call_name_text, own_reading_text, proposal_text, place_vote_text, place_digest_text, change_name_text, wanted_place_text, decided_event_text};

use crate::places::{ChangeName, DecidedEvent, PlaceDigest, PlaceVote, Proposal, WantedPlace};
use crate::readings::ReadingValue;
use crate::requests::{CallName, OwnReading, OwnRequest, ReplyNote};
use pws_base::memory::Memory;
use pws_base::writers::Writer;
use pws_event::events::{Event, write_event};
use std::alloc::Global;

/// Writes bytes after their length.
pub fn put_sized(text: &mut Writer, bytes: &[u8]) -> Result<(), Memory>
    requires { length bytes.now < 2 ^ 32 }
    ensures { OnOk result (text.new ≡ text.old ++ sized_text bytes.now) }
{
    text.put_u32(bytes.len() as u32)?;
    text.put_bytes(bytes)
}

/// Writes an event.
pub fn put_event(alloc: Global, text: &mut Writer, event: &Event) -> Result<(), Memory>
    ensures { OnOk result (text.new ≡ text.old ++ event_text event.now) }
{
    let bytes = write_event(alloc, event)?;
    text.put_bytes(bytes.as_slice())
}

fn put_reading_value(text: &mut Writer, value: ReadingValue) -> Result<(), Memory>
    ensures { OnOk result (text.new ≡ text.old ++ reading_value_text value) }
{
    match value {
        ReadingValue::Time(ms) => {
            text.put_u8(0)?;
            text.put_u64(ms)
        }
        ReadingValue::Share(share) => {
            text.put_u8(1)?;
            text.put_bytes(share.as_slice())
        }
    }
}

/// Writes a request.
pub fn put_own_request(text: &mut Writer, request: &OwnRequest) -> Result<(), Memory>
    ensures { OnOk result (text.new ≡ text.old ++ own_request_text request.now) }
{
    text.put_u32(request.number())?;
    text.put_u32(request.low())?;
    put_sized(text, request.body())
}

/// Writes a named reply.
pub fn put_reply_note(text: &mut Writer, reply: &ReplyNote) -> Result<(), Memory>
    ensures { OnOk result (text.new ≡ text.old ++ reply_note_text reply.now) }
{
    text.put_u8(reply.caller())?;
    text.put_u32(reply.number())?;
    text.put_bytes(reply.digest().as_slice())
}

/// Writes a named call.
pub fn put_call_name(text: &mut Writer, call: &CallName) -> Result<(), Memory>
    ensures { OnOk result (text.new ≡ text.old ++ call_name_text call.now) }
{
    text.put_u8(call.called())?;
    text.put_u32(call.number())
}

/// Writes a reading.
pub fn put_own_reading(text: &mut Writer, reading: &OwnReading) -> Result<(), Memory>
    ensures { OnOk result (text.new ≡ text.old ++ own_reading_text reading.now) }
{
    text.put_u32(reading.ask())?;
    put_reading_value(text, reading.value())
}

/// Writes a proposal.
pub fn put_proposal(alloc: Global, text: &mut Writer, proposal: &Proposal) -> Result<(), Memory>
    ensures { OnOk result (text.new ≡ text.old ++ proposal_text proposal.now) }
{
    text.put_u32(proposal.view())?;
    text.put_u32(proposal.place())?;
    put_event(alloc, text, proposal.event())
}

/// Writes a vote.
pub fn put_place_vote(text: &mut Writer, vote: &PlaceVote) -> Result<(), Memory>
    ensures { OnOk result (text.new ≡ text.old ++ place_vote_text vote.now) }
{
    text.put_u32(vote.view())?;
    text.put_u32(vote.place())?;
    text.put_bytes(vote.digest().as_slice())
}

/// Writes a place with its digest.
pub fn put_place_digest(text: &mut Writer, checkpoint: &PlaceDigest) -> Result<(), Memory>
    ensures { OnOk result (text.new ≡ text.old ++ place_digest_text checkpoint.now) }
{
    text.put_u32(checkpoint.place())?;
    text.put_bytes(checkpoint.digest().as_slice())
}

/// Writes a named view change.
pub fn put_change_name(text: &mut Writer, change: &ChangeName) -> Result<(), Memory>
    ensures { OnOk result (text.new ≡ text.old ++ change_name_text change.now) }
{
    text.put_u32(change.view())?;
    text.put_u8(change.index())?;
    text.put_bytes(change.digest().as_slice())
}

/// Writes a place.
pub fn put_wanted_place(text: &mut Writer, wanted: &WantedPlace) -> Result<(), Memory>
    ensures { OnOk result (text.new ≡ text.old ++ wanted_place_text wanted.now) }
{
    text.put_u32(wanted.place())
}

/// Writes a place with its event.
pub fn put_decided_event(
    alloc: Global,
    text: &mut Writer,
    decided: &DecidedEvent,
) -> Result<(), Memory>
    ensures { OnOk result (text.new ≡ text.old ++ decided_event_text decided.now) }
{
    text.put_u32(decided.place())?;
    put_event(alloc, text, decided.event())
}
